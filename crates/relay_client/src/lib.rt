//! The client's end of one connection, which relays a message to some of its recipients: it reads replies, returns the
//! octets for the server, and at the end a verdict for each recipient.
#![tactic(auto)]

mod action;
mod attempt;
mod command;
mod conversation;
mod group;
pub mod laws;
mod mail_object;
mod settled;
mod verdict;
mod verdicts;
mod waits;

pub use attempt::{Attempt, Driven};
pub use mail_object::MailObject;
pub use verdicts::Verdicts;
