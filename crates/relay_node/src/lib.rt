//! A node: the sessions of its clients, the records of the mail that it accepted from them, and the attempts to relay
//! it (RFC 5321, sections 4.2.5, 4.5.4.1 and 6.1).
#![tactic(auto)]

mod accept;
mod admit;
mod again;
mod attempts;
mod compact;
mod intake;
pub mod laws;
mod listen;
mod node;
mod receive;
mod receive_into;
mod reply;
mod reply_into;
mod seat;
mod speak;
mod stage;
mod trim;
mod withdraw_into;

pub use again::NotReopened;
pub use node::{Connected, Node};
pub use receive::Received;
pub use relay_attempts::{Replied, Started, Work};
pub use relay_records::{Cause, HeldPlace, NodeFault, NotOpened, Noted, Staged, Unsettled};
