//! The body of a mail: dot texts (RFC 5321, section 4.5.2), read in any pieces and written, and chunks (RFC 3030), read
//! in any pieces.
#![tactic(auto)]

mod bare_ends;
pub mod chunk_laws;
mod chunk_reader;
mod dot_reader;
mod dot_writer;
mod gathered;
pub mod laws;
mod nul;
pub mod plain;
mod run;

pub use bare_ends::has_bare_end;
pub use chunk_reader::{ChunkCut, ChunkReader};
pub use dot_reader::{DotCut, DotReader};
pub use dot_writer::{ends_in_line_end, push_dots, write_dots};
pub use gathered::{BodyFault, Gathered};
pub use nul::has_nul;
