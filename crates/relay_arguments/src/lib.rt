//! The arguments of `relayd`: the subcommand that they name, or what is wrong with them.
#![tactic(auto)]

mod choices;
mod grammar;
mod looks;
mod parameters;
mod steering;
mod syntax;
mod table;
mod tasks;
mod withdrawing;
mod words;

pub use looks::Listing;
pub use steering::{Mail, Steering};
pub use tasks::{Control, Look, Relaying, Task};
pub use withdrawing::{Choice, Removal};
pub use words::{Subcommand, arguments, words_are_taken};
