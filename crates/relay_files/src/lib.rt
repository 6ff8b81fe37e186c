//! The files of a relay: its configuration, and the spool that this names, which can be made, opened, listed and
//! compacted; and the faults that end a run.
#![tactic(auto)]

mod compacting;
mod fault;
mod line_writer;
mod listing;
mod looking;
mod opening;
mod settings;

pub use compacting::compact;
pub use fault::{Fault, is_want_of_sockets};
pub use line_writer::{gathering, write_out};
pub use listing::{init, list};
pub use looking::open_to_look;
pub use opening::open_to_read;
pub use settings::{configuration, configuration_text, configurations, locked_node};
