//! What views of the queue share: a recipient's row and JSON object, loads of next hops, amounts, and metrics.
#![tactic(auto)]

mod amounts;
pub mod laws;
mod load;
mod metrics;
mod object;
mod pieces;
mod row;

pub use amounts::Amount;
pub use load::{Load, Loads, count_row};
pub use metrics::{Course, push_alone, push_head, push_labelled, push_loads, push_sample};
pub use object::{age_of, object_text};
pub use pieces::{Piece, push_pieces};
pub use row::{Row, row_at, row_in};
