//! The spool: a list of bodies on two disks. Every stop keeps a body whose append was answered `Ok`.
#![tactic(auto)]

mod chain;
mod compact;
mod cursor;
mod fault;
mod gate;
mod head;
mod heads;
pub mod laws;
mod link;
mod make;
mod opening;
mod questions;
mod reader;
mod renewal;
mod row;
mod spool;
mod taken;
mod trim;

pub use chain::SIZE_LIMIT;
pub use cursor::Cursor;
pub use fault::{Refused, SpoolFault};
pub use link::BODY_OVERHEAD;
pub use renewal::RENEWAL_OVERHEAD;
pub use row::BodyRow;
pub use spool::{Opened, Spool};
