//! A text in pieces, each freed once it was read.
#![tactic(auto)]

mod pieces;
mod window;

pub use pieces::Pieces;
