//! The long-running relay: one thread that waits for its listener and for the connections of clients and next hops to
//! become ready, over one node.
#![tactic(auto)]

mod acceptor;
mod answers;
mod control;
mod device;
mod documents;
mod draining;
mod failures;
mod hearing;
mod held_mail;
mod holding;
mod journal;
mod known;
mod listen;
mod pauses;
mod reload;
mod reopening;
mod room;
mod serving;
mod shell;
mod source;
mod start;
mod steering;
mod system;
mod tidying;
mod turns;
mod unsteered;
mod waiting;
mod withdrawing;

pub use acceptor::LISTENER_TOKEN;
pub use answers::Answer;
pub use device::Device;
pub use documents::Documents;
pub use journal::Journal;
pub use listen::{Found, Listen};
pub use room::Ballast;
pub use serving::run;
pub use shell::Shell;
pub use start::Settings;
pub use turns::{Control, Surroundings, Watch};
