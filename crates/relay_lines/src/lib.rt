//! Lines, commands and replies of SMTP, cut exactly out of octets that come in any pieces.
#![tactic(auto)]

mod chunk_argument;
pub mod chunk_argument_laws;
mod command;
pub mod command_laws;
mod line;
mod line_buffer;
mod reply;
pub mod reply_laws;
mod reply_reader;
pub mod word;

pub use chunk_argument::{BadChunkSize, BdatArgument, begins_with_bdat};
pub use command::{Command, LineFault};
pub use line::{LineCut, next_line};
pub use line_buffer::{LINE_LIMIT, LineBuffer};
pub use reply::{REPLY_LINES, Reply, write_line, write_middle_line};
pub use reply_reader::{ReplyCut, ReplyFault, ReplyReader};
