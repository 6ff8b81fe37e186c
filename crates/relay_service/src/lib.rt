//! The programs over sockets: they serve clients and relay mail, as a configuration file says.
#![tactic(auto)]

mod compacting;
mod hops;
mod pushing;
mod serving;
mod sockets;
mod workers;

pub use pushing::push;
pub use serving::{ServeOptions, serve};
