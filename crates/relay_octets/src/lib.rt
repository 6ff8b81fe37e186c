//! Line ends, lines, and octets that contracts see as a list.
#![tactic(auto)]

pub mod laws;
mod line;
mod octets;

pub use line::find_crlf;
pub use octets::Octets;
