//! The next hops of a long-running relay: the connections to them, the mail that is due for them, and which of it may
//! begin.
#![tactic(auto)]

mod answering;
mod arriving;
mod delivery;
mod dial;
mod ending;
mod exchanging;
mod expiry;
mod giving_up;
mod going_on;
mod heard;
mod hearing;
mod hop;
mod hops;
mod lanes;
mod listing;
mod next_hops;
mod overdue;
mod phase;
mod recounting;
mod scripted;
mod sockets;
mod sorting;
mod spare_descriptors;
mod spoken;
mod starting;
mod steering;
mod turning;
mod waking;

pub use dial::Dial;
pub use next_hops::NextHops;
pub use scripted::{PlacedStream, ScriptedDial};
pub use sockets::Sockets;
pub use spare_descriptors::SpareDescriptors;
