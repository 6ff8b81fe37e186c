//! A simulated network of relays, and the effect of each event on its nodes, its links, and the ledger of its mail.
#![tactic(auto)]

mod act;
mod breaks;
mod carry;
mod carry_to_client;
mod carry_to_server;
mod client_end;
mod compact;
mod connect;
mod event;
mod fault;
mod first_fault;
mod give;
mod ledger;
mod let_go;
mod relays;
mod restart;
mod room;
mod seen;
mod send;
mod step;
mod stop;
mod stopped;
mod tell;
mod withdraw;

pub use event::Event;
pub use fault::PairFault;
pub use relays::Relays;
pub use seen::Seen;
pub use stopped::StoppedNodes;
