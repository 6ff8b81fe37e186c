//! Checks of the networks of trusted clients, of balancers and of the clients that may connect, each on its own.
use crate::findings::Findings;
use crate::position::Place;
use crate::shown::shown;
use relay_routes::Network;
use std::alloc::{AllocError, Global};
use toml::{Table, Value};

/// The key of the networks of trusted clients.
pub(crate) const TRUSTED_CLIENTS: &str = "trusted_clients";

/// The key of the networks of balancers.
pub(crate) const BALANCERS: &str = "balancers";

/// The key of the networks of clients that may connect.
pub(crate) const CLIENTS: &str = "clients";

/// Returns the networks at a key, if the document has an array of them.
pub(crate) fn networks_of<'a>(document: &'a Table, key: &str) -> Option<&'a [Value]> {
    match document.get(key) {
        Some(Value::Array(values)) => Some(values.as_slice()),
        _ => None,
    }
}

/// Finds the errors of each network at a key.
pub(crate) fn check_networks(
    alloc: Global,
    document: &Table,
    key: &'static str,
    findings: &mut Findings<'_>,
) -> Result<(), AllocError> {
    match networks_of(document, key) {
        Some(networks) => check_each(alloc, key, networks, findings),
        None => Ok(()),
    }
}

fn check_each(
    alloc: Global,
    key: &'static str,
    networks: &[Value],
    findings: &mut Findings<'_>,
) -> Result<(), AllocError> {
    for value in networks {
        let message = match value {
            Value::String(text) => {
                if Network::read(text.as_bytes()).is_some() {
                    continue;
                }
                no_network(alloc, key, text.as_str())?
            }
            other => {
                let shown = shown(alloc, other)?;
                format!(in alloc;
                    "{key}: {shown} is no network: write a text such as \"192.0.2.0/24\""
                )?
            }
        };
        findings.error(Place::Key(key), message)?;
    }
    Ok(())
}

/// Returns the message for a text that isn't a network.
fn no_network(alloc: Global, key: &str, text: &str) -> Result<String, AllocError> {
    format!(in alloc;
        "{key}: \"{}\" is no network: write an address, or one such as \"192.0.2.0/24\" with zeros after its prefix",
        text.escape_default()
    )
}

/// Returns whether the text writes a network of which no client is in any of these networks.
pub(crate) fn is_apart(text: &str, networks: &[Value]) -> bool {
    let Some(network) = Network::read(text.as_bytes()) else {
        return false;
    };
    !networks.iter().any(|value| match value {
        Value::String(text) => match Network::read(text.as_bytes()) {
            Some(other) => share_clients(&network, &other),
            None => false,
        },
        _ => false,
    })
}

/// Returns whether each of these networks lies in one of the others.
pub(crate) fn are_within(networks: &[Value], others: &[Value]) -> bool {
    networks.iter().all(|value| match value {
        Value::String(text) => match Network::read(text.as_bytes()) {
            Some(network) => is_within(&network, others),
            None => false,
        },
        _ => false,
    })
}

/// Returns whether a network lies in one of the others.
fn is_within(network: &Network, others: &[Value]) -> bool {
    others.iter().any(|value| match value {
        Value::String(text) => match Network::read(text.as_bytes()) {
            Some(other) => other.prefix_length <= network.prefix_length
                && other.contains(network.first.octets()),
            None => false,
        },
        _ => false,
    })
}

/// Returns whether some client is in both networks: then the first address of one is in the other.
fn share_clients(one: &Network, other: &Network) -> bool {
    one.contains(other.first.octets()) || other.contains(one.first.octets())
}

/// Returns whether the networks cover all addresses, so that every client is in them.
pub(crate) fn are_everybody(networks: &[Value]) -> bool {
    networks.iter().any(|value| match value {
        Value::String(text) => match Network::read(text.as_bytes()) {
            Some(network) => network.prefix_length == 0,
            None => false,
        },
        _ => false,
    })
}
