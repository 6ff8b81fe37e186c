//! The log, for postmasters: its lines, and what they need to know of connections of clients and next hops.
#![tactic(auto)]

mod attempt_line;
mod client_line;
mod client_record;
mod client_writer;
mod counters;
mod head;
mod hop_link;
mod last_replies;
pub mod laws;
mod log;
mod refused;
mod rejection_minutes;
mod report_kind;
mod run_line;
mod talk;

pub use attempt_line::Attempt;
pub use client_line::{ClientEnd, Connection, HeaderFault, Messages, Refusal};
pub use client_record::ClientRecord;
pub use client_writer::ClientWriter;
pub use counters::{Counters, Rejection, Rejections};
pub use hop_link::{HopReader, HopWriter, Loss, Why};
pub use last_replies::{Answer, LastReplies};
pub use log::Log;
pub use rejection_minutes::RejectionMinutes;
pub use relay_backlog::Form;
pub use run_line::DeviceFailure;
pub use talk::Talk;
