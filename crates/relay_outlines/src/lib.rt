//! Looks at a queue: a spool read body by body into the outline of its queue, without the texts of messages.
#![tactic(auto)]

mod first;
pub mod laws;
mod look;
mod open;
mod reading;

pub use look::Look;
pub use open::{Looked, look_at};
