//! The state of a running relay for those who look: a page, its metrics, and a list of the queue.
#![tactic(auto)]

mod metrics;
mod page;
mod replies;
mod texts;

pub use page::StatusPage;
pub use texts::Connections;
