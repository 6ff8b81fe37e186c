//! The program `relayd` as a library: its subcommands, and the calls of which it is made, each over any reader and
//! writer.
#![tactic(auto)]

mod descriptors;
mod dispatch;
mod looks;
mod relaying;
mod setup;
mod statuses;
mod streams;
mod tasks;

pub use descriptors::hold_standard_streams;
pub use dispatch::{command, refuse_streams, refuse_words};
pub use relay_arguments::{Subcommand, arguments};
pub use relay_hub::hub_link;
pub use relay_links::{push_link, serve_link};
pub use relay_play::play;
pub use relay_rounds::round;
pub use relay_script::{ScriptLine, script_line};
pub use streams::session;
