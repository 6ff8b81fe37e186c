//! Checks of the values of keys. The configuration's reader returns its first fault only: each bad value is replaced by
//! a good one, and the document is read again, until no fault is left.
use crate::findings::Findings;
use crate::known_keys::KEY_COUNT;
use crate::networks::{BALANCERS, CLIENTS, TRUSTED_CLIENTS};
use crate::position::Place;
use crate::shown::shown;
use relay_limits::{AllowedClients, Balancers, Limit, Limits, control_group, control_path};
use relay_routes::{Config, ConfigFault, Key};
use std::alloc::{AllocError, Global};
use std::fmt;
use toml::{Table, Value};

/// A value that is valid for a key.
#[derive(Clone, Copy, Drop)]
enum Good {
    Text(&'static str),
    Number(i64),
    NoRoutes,
    NoNetworks,
    NoBalancers,
    NoClients,
}

impl Good {
    fn to_value(self, alloc: Global) -> Result<Value, AllocError> {
        Ok(match self {
            Good::Text(text) => Value::string(alloc, text)?,
            Good::Number(number) => Value::Integer(number),
            Good::NoRoutes => Value::Table(Table::new(alloc)),
            Good::NoNetworks | Good::NoBalancers | Good::NoClients => {
                Value::Array(Vec::new(alloc))
            }
        })
    }
}

impl fmt::Display for Good {
    fn fmt<W: fmt::Write>(&self, f: &mut fmt::Formatter<W>) -> fmt::Result {
        match self {
            Good::Text(text) => write!(f, "\"{text}\""),
            Good::Number(number) => write!(f, "{number}"),
            Good::NoRoutes => f.write_str(
                "{ \"example.org\" = { name = \"mx.example.org\", at = \"192.0.2.1:25\" } }",
            ),
            Good::NoNetworks => f.write_str("[\"127.0.0.0/8\"]"),
            Good::NoBalancers => f.write_str("[\"192.0.2.5\"]"),
            Good::NoClients => f.write_str("[\"192.0.2.0/24\"]"),
        }
    }
}

/// The rule for a key's value.
#[derive(Clone, Copy, Drop)]
struct Rule {
    key: &'static str,
    /// The valid values, in words.
    may_be: &'static str,
    example: Good,
}

/// Finds each value that a configuration or its limits refuse, and each missing key that is required. Single routes and
/// single networks are checked elsewhere.
pub(crate) fn check_values(
    alloc: Global,
    text: &str,
    findings: &mut Findings<'_>,
) -> Result<(), AllocError> {
    let Ok(mut document) = toml::table_from_str(alloc, text) else {
        // The text was parsed before, so memory must have run out.
        return Err(AllocError);
    };
    set_routes_aside(alloc, &mut document)?;
    set_networks_aside(alloc, &mut document, TRUSTED_CLIENTS)?;
    set_networks_aside(alloc, &mut document, BALANCERS)?;
    set_networks_aside(alloc, &mut document, CLIENTS)?;
    for _ in 0..KEY_COUNT {
        let Some(rule) = broken_rule(alloc, &document)? else {
            break;
        };
        report(alloc, &document, rule, findings)?;
        replace(alloc, &mut document, rule.key, rule.example)?;
    }
    Ok(())
}

/// Replaces a table of routes by an empty one: each route is checked by itself.
fn set_routes_aside(alloc: Global, document: &mut Table) -> Result<(), AllocError> {
    match document.get("routes") {
        Some(Value::Table(_)) => replace(alloc, document, "routes", Good::NoRoutes),
        _ => Ok(()),
    }
}

/// Replaces an array of networks at a key by an empty one: each network is checked by itself.
fn set_networks_aside(alloc: Global, document: &mut Table, key: &str) -> Result<(), AllocError> {
    match document.get(key) {
        Some(Value::Array(_)) => replace(alloc, document, key, Good::NoNetworks),
        _ => Ok(()),
    }
}

fn replace(alloc: Global, document: &mut Table, key: &str, value: Good) -> Result<(), AllocError> {
    let value = value.to_value(alloc)?;
    match document.get_mut(key) {
        Some(place) => *place = value,
        None => {
            let key = String::from_str(alloc, key)?;
            document.insert(key, value)?;
        }
    }
    Ok(())
}

/// Returns the rule of the first key whose value is bad or missing.
fn broken_rule(alloc: Global, document: &Table) -> Result<Option<Rule>, AllocError> {
    match Config::of_document(alloc, document) {
        Err(ConfigFault::NoMemory) => Err(AllocError),
        Err(ConfigFault::Missing(key) | ConfigFault::BadValue(key)) => Ok(Some(rule_of(key))),
        Err(ConfigFault::NotToml) | Ok(_) => match Limits::of_document(document) {
            Ok(_) => broken_last(alloc, document),
            Err(limit) => Ok(Some(rule_of_limit(limit))),
        },
    }
}

/// Returns the rule of the first key that `run` reads after its limits and whose value breaks it: the networks, the
/// path of the control socket, and its group.
fn broken_last(alloc: Global, document: &Table) -> Result<Option<Rule>, AllocError> {
    if Balancers::of_document(alloc, document)?.is_none() {
        return Ok(Some(rule_of_limit(Limit::Balancers)));
    }
    if AllowedClients::of_document(alloc, document)?.is_none() {
        return Ok(Some(rule_of_limit(Limit::Clients)));
    }
    if control_path(alloc, document)?.is_none() {
        return Ok(Some(rule_of_limit(Limit::Control)));
    }
    if control_group(document).is_none() {
        return Ok(Some(rule_of_limit(Limit::ControlGroup)));
    }
    Ok(None)
}

/// Adds the finding for a key that breaks its rule.
fn report(
    alloc: Global,
    document: &Table,
    rule: Rule,
    findings: &mut Findings<'_>,
) -> Result<(), AllocError> {
    let Rule {
        key,
        may_be,
        example,
    } = rule;
    match document.get(key) {
        None => {
            let message = format!(in alloc; "{key} is missing: write {key} = {example}")?;
            findings.error(Place::Whole, message)
        }
        Some(value) => {
            let shown = shown(alloc, value)?;
            let message = format!(in alloc;
                "{key} = {shown}: write {may_be}, such as {key} = {example}"
            )?;
            findings.error(Place::Key(key), message)
        }
    }
}

fn rule_of(key: Key) -> Rule {
    let (may_be, example) = match key {
        Key::Host => (
            "a name of 1 to 255 letters, digits, hyphens and periods",
            Good::Text("relay.example.org"),
        ),
        Key::Listen => (
            "an IPv4 address and a port from 1 to 65535",
            Good::Text("0.0.0.0:25"),
        ),
        Key::Spool => (
            "the path of a file",
            Good::Text("/var/lib/relayd/relay.spool"),
        ),
        Key::MaxContent => ("a number from 1 to 16777216", Good::Number(1_048_576)),
        Key::SpoolLimit => ("a number from 1 to 549755813888", Good::Number(67_108_864)),
        Key::Routes => ("a table", Good::NoRoutes),
        Key::BareNewlines => ("\"pass\" or \"refuse\"", Good::Text("refuse")),
        Key::TrustedClients => ("an array of IPv4 networks", Good::NoNetworks),
        Key::RoutedPaths => ("\"pass\" or \"refuse\"", Good::Text("refuse")),
        Key::Reports => ("\"plain\" or \"rich\"", Good::Text("rich")),
    };
    Rule {
        key: key.text(),
        may_be,
        example,
    }
}

fn rule_of_limit(limit: Limit) -> Rule {
    let (may_be, example) = match limit {
        Limit::SessionsPerClient => ("a number from 1 to 64", Good::Number(32)),
        Limit::AttemptsPerHop => ("a number from 1 to 64", Good::Number(20)),
        Limit::RecipientsPerAttempt => ("a number from 1 to 100", Good::Number(15)),
        Limit::ClientTimeout => ("a number of seconds from 1 to 3600", Good::Number(300)),
        Limit::StatusListen => (
            "this machine's own address 127.0.0.1 and a port from 1 to 65535",
            Good::Text("127.0.0.1:9925"),
        ),
        Limit::Log => ("\"text\" or \"json\"", Good::Text("json")),
        Limit::Balancers => ("an array of IPv4 networks", Good::NoBalancers),
        Limit::Clients => ("an array of IPv4 networks", Good::NoClients),
        Limit::Control => (
            "the path of a socket, of 1 to 107 octets",
            Good::Text("/run/relayd/control"),
        ),
        Limit::ControlGroup => (
            "the number of a group from 0 to 4294967294",
            Good::Number(100),
        ),
    };
    Rule {
        key: limit.text(),
        may_be,
        example,
    }
}
