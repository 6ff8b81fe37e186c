//! The single parts of a world of relays: a host, which is a node that is up or down with the records of its changes; a
//! link and its ends; and lines of the ledger.
#![tactic(auto)]

mod begin;
mod calls;
mod compact;
pub mod heard;
mod host;
pub mod ledger;
pub mod let_go;
pub mod lines;
pub mod links;
pub mod named;
mod opened;
mod recorded;
pub mod replied;
mod work;

pub use calls::{Heard, Read, ToldLoss};
pub use compact::Compacted;
pub use host::{Host, Origin, Undecided};
pub use recorded::Recorded;
pub use work::{Begun, GivenUp};
