//! A node that threads share: each thread serves a client of its own, and locks the node once for each message.
#![tactic(auto)]

mod desk;
mod hub;
mod link;
mod opening;
mod pass;
mod receipt;
mod same;
mod told;

pub use hub::{Hub, Mismatch};
pub use link::hub_link;
pub use opening::Opening;
pub use pass::Pass;
pub use receipt::Receipt;
