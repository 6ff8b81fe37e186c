//! What a long-running relay keeps of its due mail, next hop by next hop: tasks, paces, addresses, and how many
//! recipients an attempt has.
#![tactic(auto)]

mod lane;
mod numbers;
mod paces;
mod places;
mod portions;

pub use lane::{Lane, Task};
pub use numbers::Numbers;
pub use paces::Paces;
pub use places::Places;
pub use portions::{Halved, Portions};
