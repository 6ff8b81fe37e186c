//! Two relays, the links between them and to outside, and the custody of their mail: the values, the invariant that
//! ties them together, and what it guarantees for each recipient (RFC 5321, section 6.1).
#![tactic(auto)]

mod attempt;
pub mod laws;
mod line;
mod link;
pub mod passing;

pub use attempt::{Attempt, Fate};
pub use line::Line;
pub use link::{Link, ServerEnd};
