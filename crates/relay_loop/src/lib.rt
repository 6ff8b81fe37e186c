//! A node and the connections of its sessions and attempts, without sockets: octets in, octets to write out.
#![tactic(auto)]

mod clients;
mod closing;
mod group;
mod hops;
pub mod laws;
mod outbox;
mod outboxes;
mod relay;
mod replying;
mod withdrawing;

pub use clients::Heard;
pub use closing::{Closing, closing_line};
pub use group::{Group, Piece};
pub use hops::Answered;
pub use outbox::Outbox;
pub use relay::Relay;
pub use replying::ReplyPiece;
pub use withdrawing::{Chosen, Withdrawn};
