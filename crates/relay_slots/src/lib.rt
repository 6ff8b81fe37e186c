//! A table of 64 numbered slots for what is open, such as sessions. Numbers are used again.
#![tactic(auto)]

pub mod laws;
mod slots;

pub use slots::{SLOT_COUNT, Slots};
