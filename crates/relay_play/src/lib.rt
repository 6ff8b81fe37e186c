//! A play of relays: a script of events, read line by line, and the result of each line.
#![tactic(auto)]

mod fault;
mod happen;
mod print;
mod script;
mod show;
mod state;

pub use fault::PlayFault;
pub use script::play;
