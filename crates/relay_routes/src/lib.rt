//! The configuration of a relay, and the routes: the next hop of each domain.
#![tactic(auto)]

mod address;
mod bare_newlines;
mod config;
mod document;
mod fault;
mod hop;
mod host_name;
mod key;
pub mod laws;
mod network;
mod prefix_length;
mod report_form;
mod routed_paths;
mod spool_path;
mod table;
mod trusted_clients;

pub use bare_newlines::BareNewlines;
pub use config::Config;
pub use document::read_networks;
pub use fault::{ConfigFault, RouteFault};
pub use hop::Hop;
pub use host_name::HostName;
pub use key::Key;
pub use network::Network;
pub use report_form::ReportForm;
pub use routed_paths::RoutedPaths;
pub use spool_path::SpoolPath;
pub use table::Table;
pub use trusted_clients::TrustedClients;
