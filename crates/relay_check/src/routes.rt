//! Checks of the routes, each by itself and against those before it.
use crate::document::text_at;
use crate::findings::Findings;
use crate::known_keys::check_hop_keys;
use crate::position::Place;
use crate::shown::shown;
use relay_envelope::is_domain;
use relay_routes::{Config, ConfigFault, Hop, HostName, Key, RouteFault, Table as RouteTable};
use std::alloc::{AllocError, Global};
use std::net::SocketAddrV4;
use toml::{Table, Value};

/// Finds the errors of each route.
pub(crate) fn check_routes(
    alloc: Global,
    routes: &Table,
    findings: &mut Findings<'_>,
) -> Result<(), AllocError> {
    let Some(host) = HostName::read(alloc, b"localhost")? else {
        return Ok(());
    };
    let mut table = RouteTable::new(alloc, host);
    for (domain, value) in routes.iter() {
        let domain = domain.as_str();
        check_domain(alloc, domain, findings)?;
        if let Some(hop) = check_hop(alloc, domain, value, findings)? {
            check_beside(alloc, &mut table, domain, value, hop, findings)?;
        }
    }
    Ok(())
}

/// Finds a domain that can't receive mail.
fn check_domain(
    alloc: Global,
    domain: &str,
    findings: &mut Findings<'_>,
) -> Result<(), AllocError> {
    let route = domain.escape_default();
    if domain.starts_with('.') {
        let message = format!(in alloc;
            "route {route} begins with a period: a route is for one domain and for none below it; write each of them"
        )?;
        return findings.warning(Place::Route(domain), message);
    }
    if is_domain(domain.as_bytes()) || domain == "*" {
        return Ok(());
    }
    let message = format!(in alloc;
        "route {route} is no domain: write one such as \"example.org\", or \"*\" for all that have no route"
    )?;
    findings.error(Place::Route(domain), message)
}

/// Returns the next hop of a route, or adds what is wrong with it.
fn check_hop(
    alloc: Global,
    domain: &str,
    value: &Value,
    findings: &mut Findings<'_>,
) -> Result<Option<Hop>, AllocError> {
    let Some(members) = value.as_table() else {
        let route = domain.escape_default();
        let shown = shown(alloc, value)?;
        let message = format!(in alloc;
            "route {route} = {shown} is no table: write {{ name = \"mx.example.org\", at = \"192.0.2.1:25\" }}"
        )?;
        findings.error(Place::Route(domain), message)?;
        return Ok(None);
    };
    check_hop_keys(alloc, domain, members, findings)?;
    let name = check_name(alloc, domain, members, findings)?;
    let at = check_address(alloc, domain, members, findings)?;
    Ok(match (name, at) {
        (Some(name), Some(at)) => Some(Hop { name, at }),
        _ => None,
    })
}

/// Returns the name of a route's next hop, or adds what is wrong with it.
fn check_name(
    alloc: Global,
    domain: &str,
    members: &Table,
    findings: &mut Findings<'_>,
) -> Result<Option<HostName>, AllocError> {
    let route = domain.escape_default();
    let message = match members.get("name") {
        None => format!(in alloc;
            "route {route}: name is missing: write name = \"mx.example.org\""
        )?,
        Some(value) => match name_of(alloc, value)? {
            Some(name) => return Ok(Some(name)),
            None => {
                let shown = shown(alloc, value)?;
                format!(in alloc;
                    "route {route}: name = {shown} is no host name: write letters, digits, hyphens and periods"
                )?
            }
        },
    };
    findings.error(Place::Route(domain), message)?;
    Ok(None)
}

/// Returns the name in a value, if it is one.
fn name_of(alloc: Global, value: &Value) -> Result<Option<HostName>, AllocError> {
    match value {
        Value::String(text) => HostName::read(alloc, text.as_bytes()),
        _ => Ok(None),
    }
}

/// Returns the address of a route's next hop, or adds what is wrong with it.
fn check_address(
    alloc: Global,
    domain: &str,
    members: &Table,
    findings: &mut Findings<'_>,
) -> Result<Option<SocketAddrV4>, AllocError> {
    let route = domain.escape_default();
    let message = match members.get("at") {
        None => format!(in alloc; "route {route}: at is missing: write at = \"192.0.2.1:25\"")?,
        Some(value) => match address_of(alloc, value)? {
            Some(at) => return Ok(Some(at)),
            None => {
                let shown = shown(alloc, value)?;
                format!(in alloc;
                    "route {route}: at = {shown} is no address: write an IPv4 address and a port, such as \
                    \"192.0.2.1:25\""
                )?
            }
        },
    };
    findings.error(Place::Route(domain), message)?;
    Ok(None)
}

/// Returns the address in a value, read as `listen` would be.
fn address_of(alloc: Global, value: &Value) -> Result<Option<SocketAddrV4>, AllocError> {
    match value {
        Value::String(text) => address_in(alloc, text.as_str()),
        _ => Ok(None),
    }
}

fn address_in(alloc: Global, text: &str) -> Result<Option<SocketAddrV4>, AllocError> {
    let mut probe = Table::new(alloc);
    add(alloc, &mut probe, "host", "localhost")?;
    add(alloc, &mut probe, "listen", text)?;
    match Config::of_document(alloc, &probe) {
        Err(ConfigFault::NoMemory) => Err(AllocError),
        Err(ConfigFault::BadValue(Key::Listen)) => Ok(None),
        _ => match text.parse::<SocketAddrV4>() {
            Ok(address) => Ok(Some(address)),
            Err(_) => Ok(None),
        },
    }
}

fn add(alloc: Global, document: &mut Table, key: &str, text: &str) -> Result<(), AllocError> {
    let key = String::from_str(alloc, key)?;
    let value = Value::string(alloc, text)?;
    document.insert(key, value)?;
    Ok(())
}

/// Adds a route to those before it, or adds a finding if it contradicts one of them.
fn check_beside(
    alloc: Global,
    table: &mut RouteTable,
    domain: &str,
    value: &Value,
    hop: Hop,
    findings: &mut Findings<'_>,
) -> Result<(), AllocError> {
    let route = domain.escape_default();
    let message = match table.add(alloc, domain.as_bytes(), hop) {
        // An invalid domain was found before.
        Ok(()) | Err(RouteFault::BadDomain) => return Ok(()),
        Err(RouteFault::NoMemory) => return Err(AllocError),
        Err(RouteFault::Repeated) => {
            let written = written_hop(alloc, value)?;
            format!(in alloc;
                "route {route} = {written} stands twice: letter case makes no difference in a domain; remove one"
            )?
        }
        Err(RouteFault::SecondPlace) => {
            let written = written_hop(alloc, value)?;
            format!(in alloc;
                "route {route} = {written}: its hop's name has another address in another route; give each address a \
                name of its own"
            )?
        }
    };
    findings.error(Place::Route(domain), message)
}

/// Returns a next hop whose name and address are valid, as a configuration writes it.
fn written_hop(alloc: Global, hop: &Value) -> Result<String, AllocError> {
    let name = member(hop, "name");
    let at = member(hop, "at");
    format!(in alloc; "{{ name = \"{name}\", at = \"{at}\" }}")
}

/// Returns the string at a key of a table, or an empty one.
fn member<'a>(table: &'a Value, key: &str) -> &'a str {
    match table.as_table() {
        Some(members) => text_at(members, key).unwrap_or(""),
        None => "",
    }
}
