//! The control socket that a configuration names.
use crate::exchange::{Relay, RelayAt};
use crate::steering_fault::SteeringFault;
use relay_files::{Fault, configuration_text};
use relay_limits::{Limit, control_path};
use relay_routes::ConfigFault;
use std::alloc::Global;
use std::fs::File;
use std::net::Net;
use std::rt::Files;

/// Returns the path of the control socket that the configuration in a file names, if it names one.
pub(crate) fn socket_path<F: Files<File = File>>(
    alloc: Global,
    files: &F,
    file: &str,
) -> Result<Option<String>, SteeringFault> {
    let text = configuration_text(alloc, files, file)?;
    let document = match toml::table_from_str(alloc, text.as_str()) {
        Ok(document) => document,
        Err(fault) if fault.is_memory() => return Err(SteeringFault::Files(Fault::NoMemory)),
        Err(_) => return Err(SteeringFault::Files(Fault::Config(ConfigFault::NotToml))),
    };
    match control_path(alloc, &document)? {
        Some(path) => Ok(path),
        None => Err(SteeringFault::Files(Fault::Limit(Limit::Control))),
    }
}

/// Returns whether a relay listens at the control socket at a path, and this user may connect to it.
pub(crate) fn is_listening<N: Net>(net: &N, path: &str) -> bool {
    RelayAt { net, path }.connect().is_ok()
}
