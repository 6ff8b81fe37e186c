//! The server's end of an SMTP session (RFC 5321): it reads octets in any pieces, and returns replies and offers of
//! mail.
#![tactic(auto)]

mod client;
mod judge;
pub mod laws;
mod offer;
mod reply_table;
mod server;
mod session;
pub mod session_laws;
mod stage;
mod state;
pub mod turn_laws;

pub use client::Client;
pub use offer::{Answer, Offer};
pub use relay_trace::Protocol;
pub use session::{Fed, Next, Session};
