//! The course of an attempt to relay a message: what a client writes after each reply, and at the end a verdict for
//! each recipient. Definitions and their laws; relay_client follows them.
#![tactic(auto)]

mod awaited;
mod extensions;
pub mod laws;
mod reply_kind;
mod settling;

pub use awaited::Awaited;
pub use extensions::{Extensions, extensions_of};
pub use reply_kind::{ReplyKind, kind_of};
pub use settling::settling_position;
