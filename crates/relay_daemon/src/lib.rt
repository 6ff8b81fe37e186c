//! The daemon's relay in a world of nodes and links: each of its calls is an event of the world.
#![tactic(auto)]

pub mod calls;
pub mod laws;
pub mod noted;
pub mod turn;
