//! Rounds of links on threads: each thread serves one client, and all threads give their mail to one hub.
#![tactic(auto)]

mod lane;
mod lanes;
mod rounds;
mod row;
mod served;

pub use rounds::{Ended, NotBegun, round};
pub use served::{Link, Served};
