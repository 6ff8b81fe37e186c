//! The connections of a long-running relay, without waiting: a connection and its buffers, the connections of clients,
//! and those that are leaving.
#![tactic(auto)]

mod arrival;
mod arrivals;
mod block;
mod channel;
mod client;
mod clients;
mod clocks;
mod ending;
mod header_octets;
mod hearing;
mod held;
pub mod laws;
mod leaving;
mod refusals;
mod scripted;
mod serving;
mod share;
mod stream;
mod table;
mod turn;
mod welcome;

pub use arrival::Arrived;
pub use arrivals::Arrivals;
pub use channel::{Channel, End, Readiness};
pub use client::Intake;
pub use clients::Clients;
pub use clocks::{Now, tick_of};
pub use hearing::Replied;
pub use leaving::Leaving;
pub use refusals::Refusals;
pub use scripted::ScriptedStream;
pub use stream::Stream;
pub use table::{Table, holds, turned};
pub use turn::Turn;
pub use welcome::close_with;
