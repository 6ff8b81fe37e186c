//! Scripts of a play of relays: what a line of one says, and the text that spells octets in it.
#![tactic(auto)]

mod event;
pub mod laws;
mod line;
mod node_count;
mod node_index;
mod octet;
mod operands;
mod text;
mod word;

pub use event::{Event, ScriptLine};
pub use line::script_line;
pub use node_count::NodeCount;
pub use node_index::{MOST_NODES, NodeIndex};
pub use text::push_text;
