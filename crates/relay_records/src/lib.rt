//! The records of a node: the spool, the queue, and the note of the last append.
#![tactic(auto)]

mod add;
mod compact;
mod fault;
pub mod list_laws;
mod noted;
mod open;
mod place;
mod reading;
mod records;
mod stage;
mod staged;
mod trim;

pub use fault::{Cause, NodeFault, NotOpened};
pub use noted::Noted;
pub use place::HeldPlace;
pub use records::Records;
pub use staged::{Staged, Unsettled};
