//! Links of a node: one session, or one attempt, over a reader and a writer.
#![tactic(auto)]

mod block;
mod fault;
mod push;
pub mod send;
mod serve;
mod whole;

pub use block::read_block;
pub use fault::{LinkFault, link_fault};
pub use push::{Pushed, lose_link, push_link};
pub use serve::serve_link;
pub use whole::write_whole;
