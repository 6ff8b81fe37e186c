//! The PROXY protocol, versions 1 and 2: the header with which a proxy begins a connection, to say whose it is.
#![tactic(auto)]

mod block;
mod front;
mod header;
pub mod laws;
mod line;
mod source;
mod word;

pub use header::{Header, Reading, read_header};
pub use source::Source;
