//! Simulated relays, which keep their promise for mail whatever happens.
#![tactic(auto)]

mod copies;
mod lost;
mod marks;
mod network;
mod pair;
mod profile;

pub use network::NetFault;
pub use pair::Pair;
pub use relay_events::{Event, PairFault, Seen, StoppedNodes};
