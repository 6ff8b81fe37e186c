//! Views of the queue for postmasters: a table of queued recipients, one message in full, and a summary by next hop.
#![tactic(auto)]

mod age;
mod calls;
mod columns;
mod fault;
mod filter;
mod groups;
mod json_lines;
mod message_text;
mod picks;
mod preview;
mod screen;
mod selection;
mod status;
mod summary;
mod table;
mod zone;

pub use age::read_age;
pub use calls::{ListForm, MessageForm, StatusForm, print_list, print_message, print_status};
pub use fault::QueueFault;
pub use filter::Filter;
pub use groups::Selected;
pub use picks::{Key, listed_keys};
pub use preview::{Taken, select};
pub use screen::Screen;
pub use selection::Selection;
pub use zone::Zone;
