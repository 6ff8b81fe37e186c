//! The lines of a log that wait for whoever reads it, and the thread that writes them: a reader that has stopped stops
//! nothing but the log.
#![tactic(auto)]

mod backlog;
mod log_line;
mod stamp;
mod writer;

pub use backlog::Backlog;
pub use log_line::{Form, LogLine};
pub use stamp::write_stamp;
pub use writer::LogWriter;
