//! Risks of a configuration with which a relay can run.
use crate::document::{routes_of, text_at};
use crate::findings::Findings;
use crate::networks::{CLIENTS, TRUSTED_CLIENTS, are_everybody, are_within, is_apart, networks_of};
use crate::position::Place;
use relay_disk::FileDisk;
use relay_routes::{Config, RoutedPaths};
use std::alloc::{AllocError, Global};
use std::fs::{File, OpenOptions};
use std::io;
use std::net::SocketAddrV4;
use std::rt::Files;
use toml::{Table, Value};

/// Finds what a postmaster may not have meant, and files of the spool that can't be opened.
pub(crate) fn check_risks<F: Files<File = File>>(
    alloc: Global,
    files: &F,
    config: &Config,
    document: &Table,
    findings: &mut Findings<'_>,
) -> Result<(), AllocError> {
    check_sizes(alloc, config, findings)?;
    check_clients(alloc, document, findings)?;
    if let Some(routes) = routes_of(document) {
        check_reach(alloc, config, document, routes, findings)?;
        check_routed_paths(alloc, config, document, routes, findings)?;
        check_loops(alloc, config, routes, findings)?;
    }
    let second = format!(in alloc; "{}.2", config.spool.as_str())?;
    check_file(alloc, files, config.spool.as_str(), findings)?;
    check_file(alloc, files, second.as_str(), findings)
}

/// Warns of a spool that has no room for a message of the greatest size.
fn check_sizes(
    alloc: Global,
    config: &Config,
    findings: &mut Findings<'_>,
) -> Result<(), AllocError> {
    if config.spool_limit >= config.max_content as u64 {
        return Ok(());
    }
    let message = format!(in alloc;
        "spool_limit = {} is below max_content = {}: a message of that size never fits; raise spool_limit",
        config.spool_limit, config.max_content
    )?;
    findings.warning(Place::Key("spool_limit"), message)
}

/// Warns if no client may connect, or none of a network of trusted ones.
fn check_clients(
    alloc: Global,
    document: &Table,
    findings: &mut Findings<'_>,
) -> Result<(), AllocError> {
    let Some(clients) = networks_of(document, CLIENTS) else {
        return Ok(());
    };
    if clients.is_empty() {
        let message = format!(in alloc;
            "clients is empty: no client may connect; name your hosts, or remove the line to let everybody connect"
        )?;
        return findings.warning(Place::Key(CLIENTS), message);
    }
    let Some(trusted) = networks_of(document, TRUSTED_CLIENTS) else {
        return Ok(());
    };
    for value in trusted {
        if let Value::String(text) = value {
            if is_apart(text.as_str(), clients) {
                let message = format!(in alloc;
                    "trusted_clients: \"{}\" is outside of clients: nobody there may connect; add it to clients",
                    text.escape_default()
                )?;
                findings.warning(Place::Key(TRUSTED_CLIENTS), message)?;
            }
        }
    }
    Ok(())
}

/// Warns of routes that accept too little or too much mail.
fn check_reach(
    alloc: Global,
    config: &Config,
    document: &Table,
    routes: &Table,
    findings: &mut Findings<'_>,
) -> Result<(), AllocError> {
    if routes.is_empty() {
        let message = format!(in alloc;
            "no routes: each recipient is refused; add a line for each domain"
        )?;
        return findings.warning(Place::Key("routes"), message);
    }
    if routes.contains_key("*") {
        check_openness(alloc, config, document, findings)?;
    }
    check_postmaster(alloc, document, routes, findings)
}

/// Warns if the relay refuses mail to its own postmaster, from every client or from those that it doesn't trust.
fn check_postmaster(
    alloc: Global,
    document: &Table,
    routes: &Table,
    findings: &mut Findings<'_>,
) -> Result<(), AllocError> {
    let Some(host) = text_at(document, "host") else {
        return Ok(());
    };
    if routes
        .keys()
        .any(|domain| domain.as_str().eq_ignore_ascii_case(host))
    {
        return Ok(());
    }
    let refused = if !routes.contains_key("*") {
        "is refused"
    } else if serves_strangers(document) {
        "is refused from clients outside of trusted_clients"
    } else {
        return Ok(());
    };
    let message = format!(in alloc;
        "no route for the relay's own name, host = \"{}\": mail to its postmaster {refused} (RFC 5321, 4.5.1); \
        add a route for host",
        host.escape_default()
    )?;
    findings.warning(Place::Key("routes"), message)
}

/// Returns whether a client may connect that isn't trusted.
fn serves_strangers(document: &Table) -> bool {
    match (
        networks_of(document, TRUSTED_CLIENTS),
        networks_of(document, CLIENTS),
    ) {
        (Some(trusted), Some(clients)) => !are_within(clients, trusted),
        (Some(trusted), None) => !are_everybody(trusted),
        (None, _) => false,
    }
}

/// Warns of an open relay.
fn check_openness(
    alloc: Global,
    config: &Config,
    document: &Table,
    findings: &mut Findings<'_>,
) -> Result<(), AllocError> {
    if config.listen.ip().is_loopback()
        || !trusts_everybody(document)
        || !is_everybody_at(document, CLIENTS)
    {
        return Ok(());
    }
    let message = format!(in alloc;
        "route * takes mail for every domain from everybody who can reach {}: name your hosts in trusted_clients",
        config.listen
    )?;
    findings.warning(Place::Route("*"), message)
}

/// Warns of a relay that accepts mail for named domains only, but whose clients may reach any other domain by a routed
/// address.
fn check_routed_paths(
    alloc: Global,
    config: &Config,
    document: &Table,
    routes: &Table,
    findings: &mut Findings<'_>,
) -> Result<(), AllocError> {
    if config.routed_paths == RoutedPaths::Refuse
        || config.listen.ip().is_loopback()
        || !is_guarded(document, routes)
    {
        return Ok(());
    }
    let place = if document.contains_key("routed_paths") {
        "routed_paths"
    } else {
        "routes"
    };
    let message = format!(in alloc;
        "user%b.example@a.example is taken for a.example: a hop that trusts this relay may send it on to b.example; \
        write routed_paths = \"refuse\""
    )?;
    findings.warning(Place::Key(place), message)
}

/// Returns whether some clients may send to named domains only.
fn is_guarded(document: &Table, routes: &Table) -> bool {
    if routes.contains_key("*") {
        routes.len() > 1 && !trusts_everybody(document)
    } else {
        !routes.is_empty()
    }
}

/// Returns whether every client may send to every route.
fn trusts_everybody(document: &Table) -> bool {
    is_everybody_at(document, TRUSTED_CLIENTS)
}

/// Returns whether the networks at a key are all addresses, or none are named there.
fn is_everybody_at(document: &Table, key: &str) -> bool {
    match networks_of(document, key) {
        Some(networks) => are_everybody(networks),
        None => true,
    }
}

/// Warns of routes that lead to the relay itself.
fn check_loops(
    alloc: Global,
    config: &Config,
    routes: &Table,
    findings: &mut Findings<'_>,
) -> Result<(), AllocError> {
    for (domain, value) in routes.iter() {
        let domain = domain.as_str();
        let Some(at) = value.as_table().and_then(|hop| text_at(hop, "at")) else {
            continue;
        };
        if leads_here(at, config.listen) {
            let message = format!(in alloc;
                "route {} leads to this relay's own address {at}: its mail goes round; write another host's address",
                domain.escape_default()
            )?;
            findings.warning(Place::Route(domain), message)?;
        }
    }
    Ok(())
}

/// Returns whether mail sent to this address reaches a relay that listens there. A relay that listens at all addresses
/// is reached at the loopback addresses too.
fn leads_here(at: &str, listen: SocketAddrV4) -> bool {
    let Ok(at) = at.parse::<SocketAddrV4>() else {
        return false;
    };
    at.port() == listen.port()
        && (at.ip() == listen.ip() || (listen.ip().is_unspecified() && at.ip().is_loopback()))
}

/// Warns of a file of the spool that doesn't exist, or that this user can't read and write.
fn check_file<F: Files<File = File>>(
    alloc: Global,
    files: &F,
    path: &str,
    findings: &mut Findings<'_>,
) -> Result<(), AllocError> {
    let Err(error) = open(files, path) else {
        return Ok(());
    };
    let message = format!(in alloc;
        "spool file {}: {error}; relayd init makes both files, and the user that runs relayd has to own them",
        path.escape_default()
    )?;
    findings.warning(Place::Key("spool"), message)
}

/// Opens a file for reading and for writing, as `run` does, and closes it. Makes no file, changes nothing in it, and
/// takes no lock.
fn open<F: Files<File = File>>(files: &F, path: &str) -> io::Result<()> {
    FileDisk::open_to_read(files, path)?;
    OpenOptions::new().read(true).write(true).open(files, path)?;
    Ok(())
}
