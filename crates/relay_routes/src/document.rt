//! The values of a configuration's document.
ghost use Rattle.std.specs.Prelude.{◌≡◌, ◌⊎◌, None, Some, Ok, Err, IfOk, IfErr, List, MatchOption, MatchResult};
ghost use Rattle.std.specs.Prelude.{option_map, option_and_then};
ghost use Rattle.toml.specs.Data.{as_str, get_member};
ghost use Rattle.toml.specs.View.{items_view, table_view, view};
ghost use Rattle.relay_routes.specs.Value.{GivesSize};
ghost use Rattle.relay_routes.specs.Document.{AreRoutes, GivesHop, fault_of_routes, value_of};
ghost use Rattle.relay_routes.specs.Routes.{AllAgree, Route};
ghost use Rattle.relay_routes.specs.Config.{ReadsBareNewlines, ReadsHost, ReadsListen, ReadsMaxContent, ReadsOptional};
ghost use Rattle.relay_routes.specs.Config.{ReadsReports, ReadsRoutedPaths, ReadsRoutes, ReadsSpool, ReadsSpoolLimit};
ghost use Rattle.relay_routes.specs.Config.{ReadsTrustedClients};
ghost use Rattle.relay_routes.specs.Network.{AreNetworks, GivesNetwork};
ghost use Rattle.relay_routes.specs.Trusted.{IsTrusting};
ghost use Rattle.relay_routes.specs.declared.hop.Hop.{Hop};
ghost use Rattle.relay_routes.specs.declared.network.Network.{Network};

use crate::address::read_address;
use crate::bare_newlines::BareNewlines;
use crate::fault::{ConfigFault, RouteFault};
use crate::hop::Hop;
use crate::host_name::HostName;
use crate::key::Key;
use crate::network::Network;
use crate::report_form::ReportForm;
use crate::routed_paths::RoutedPaths;
use crate::spool_path::SpoolPath;
use crate::table::Table;
use crate::trusted_clients::TrustedClients;
use std::alloc::{AllocError, Global};
use std::net::SocketAddrV4;
use toml::Value;

/// The most octets that `max_content` may allow, and what it is where nothing is said.
pub(crate) const CONTENT_LIMIT: u64 = 16_777_216;

const CONTENT_DEFAULT: u64 = 1_048_576;

/// The most octets that `spool_limit` may allow, and what it is where nothing is said.
pub(crate) const SPOOL_LIMIT: u64 = 549_755_813_888;

const SPOOL_DEFAULT: u64 = 67_108_864;

/// `host`: the name of the relay.
pub(crate) fn read_host(alloc: Global, document: &toml::Table) -> Result<HostName, ConfigFault>
    ensures ok { IfOk result (λ host. ReadsHost (table_view document.now) (Ok host)) }
    ensures err { IfErr result (λ fault. (fault ≡ ConfigFault.NoMemory)
        ⊎ ReadsHost (table_view document.now) (Err fault)) }
{
    let Some(text) = required(document, Key::Host)?.as_str() else {
        return Err(ConfigFault::BadValue(Key::Host));
    };
    match HostName::read(alloc, text.as_bytes())? {
        Some(host) => Ok(host),
        None => Err(ConfigFault::BadValue(Key::Host)),
    }
}

/// `listen`: where the relay listens.
pub(crate) fn read_listen(document: &toml::Table) -> Result<SocketAddrV4, ConfigFault>
    ensures { ReadsListen (table_view document.now) result }
{
    let Some(text) = required(document, Key::Listen)?.as_str() else {
        return Err(ConfigFault::BadValue(Key::Listen));
    };
    match read_address(text) {
        Some(listen) => Ok(listen),
        None => Err(ConfigFault::BadValue(Key::Listen)),
    }
}

/// `spool`: the file of the spool.
pub(crate) fn read_spool(alloc: Global, document: &toml::Table) -> Result<SpoolPath, ConfigFault>
    ensures ok { IfOk result (λ spool. ReadsSpool (table_view document.now) (Ok spool)) }
    ensures err { IfErr result (λ fault. (fault ≡ ConfigFault.NoMemory)
        ⊎ ReadsSpool (table_view document.now) (Err fault)) }
{
    let Some(text) = required(document, Key::Spool)?.as_str() else {
        return Err(ConfigFault::BadValue(Key::Spool));
    };
    match SpoolPath::new(alloc, text)? {
        Some(spool) => Ok(spool),
        None => Err(ConfigFault::BadValue(Key::Spool)),
    }
}

/// `max_content`: the most octets of a content.
pub(crate) fn read_max_content(document: &toml::Table) -> Result<usize, ConfigFault>
    ensures { ReadsMaxContent (table_view document.now) result }
{
    let size = read_size(document, Key::MaxContent, CONTENT_DEFAULT, CONTENT_LIMIT)?;
    Ok(size as usize)
}

/// `spool_limit`: the most octets of the spool.
pub(crate) fn read_spool_limit(document: &toml::Table) -> Result<u64, ConfigFault>
    ensures { ReadsSpoolLimit (table_view document.now) result }
{
    read_size(document, Key::SpoolLimit, SPOOL_DEFAULT, SPOOL_LIMIT)
}

/// `bare_newlines`: what is done with a content in which a CR or an LF stands alone.
pub(crate) fn read_bare_newlines(document: &toml::Table) -> Result<BareNewlines, ConfigFault>
    ensures { ReadsBareNewlines (table_view document.now) result }
{
    let Some(value) = member(document, Key::BareNewlines) else {
        return Ok(BareNewlines::Pass);
    };
    let Some(text) = value.as_str() else {
        return Err(ConfigFault::BadValue(Key::BareNewlines));
    };
    match BareNewlines::read(text) {
        Some(found) => Ok(found),
        None => Err(ConfigFault::BadValue(Key::BareNewlines)),
    }
}

/// `routed_paths`: what is done with a recipient whose path is routed.
pub(crate) fn read_routed_paths(document: &toml::Table) -> Result<RoutedPaths, ConfigFault>
    ensures { ReadsRoutedPaths (table_view document.now) result }
{
    let Some(value) = member(document, Key::RoutedPaths) else {
        return Ok(RoutedPaths::Pass);
    };
    let Some(text) = value.as_str() else {
        return Err(ConfigFault::BadValue(Key::RoutedPaths));
    };
    match RoutedPaths::read(text) {
        Some(found) => Ok(found),
        None => Err(ConfigFault::BadValue(Key::RoutedPaths)),
    }
}

/// `reports`: how a delivery status notification is written.
pub(crate) fn read_reports(document: &toml::Table) -> Result<ReportForm, ConfigFault>
    ensures { ReadsReports (table_view document.now) result }
{
    let Some(value) = member(document, Key::Reports) else {
        return Ok(ReportForm::Plain);
    };
    let Some(text) = value.as_str() else {
        return Err(ConfigFault::BadValue(Key::Reports));
    };
    match ReportForm::read(text) {
        Some(found) => Ok(found),
        None => Err(ConfigFault::BadValue(Key::Reports)),
    }
}

/// Returns a size from 1 to a limit.
fn read_size(document: &toml::Table, key: Key, default: u64, limit: u64) -> Result<u64, ConfigFault>
    ensures { ReadsOptional key default (GivesSize limit) (value_of key (table_view document.now)) result }
{
    match member(document, key) {
        None => Ok(default),
        Some(value) => match value.as_integer() {
            Some(size) if 1 <= size && size as u64 <= limit => Ok(size as u64),
            _ => Err(ConfigFault::BadValue(key)),
        },
    }
}

/// `routes`: where mail goes, for the relay of this name.
pub(crate) fn read_routes(
    alloc: Global,
    document: &toml::Table,
    host: HostName,
) -> Result<Table, ConfigFault>
    ensures ok { IfOk result (λ table. ReadsRoutes (table_view document.now) (Ok table.routes)
        × (table.host ≡ host)) }
    ensures err { IfErr result (λ fault. (fault ≡ ConfigFault.NoMemory)
        ⊎ ReadsRoutes (table_view document.now) (Err fault)) }
{
    match required(document, Key::Routes)? {
        Value::Table(members) => table_of(alloc, host, members),
        _ => Err(ConfigFault::BadValue(Key::Routes)),
    }
}

/// `trusted_clients`: the clients that may send to every one of these routes, where not all of them may.
pub(crate) fn read_trusted_clients(
    alloc: Global,
    document: &toml::Table,
    routes: &Table,
) -> Result<Option<TrustedClients>, ConfigFault>
    ensures ok { IfOk result (λ found. ReadsTrustedClients (table_view document.now)
        (Ok (option_map (λ trusted. trusted.networks) found))) }
    ensures trusting { IfOk result (IsTrusting routes.now) }
    ensures err { IfErr result (λ fault. (fault ≡ ConfigFault.NoMemory)
        ⊎ ReadsTrustedClients (table_view document.now) (Err fault)) }
{
    let Some(value) = member(document, Key::TrustedClients) else {
        return Ok(None);
    };
    let Value::Array(values) = value else {
        return Err(ConfigFault::BadValue(Key::TrustedClients));
    };
    match read_networks(alloc, values.as_slice())? {
        Some(networks) => Ok(Some(TrustedClients::new(alloc, networks, routes)?)),
        None => Err(ConfigFault::BadValue(Key::TrustedClients)),
    }
}

/// Reads the networks that the values write: `None` if one of them writes none, such as `"192.0.2.0/33"`. Fails if
/// memory runs out.
pub fn read_networks(alloc: Global, values: &[Value]) -> Result<Option<Vec<Network>>, AllocError>
    ensures { IfOk result (λ found. MatchOption found
        ((networks : List Network) → ¬ AreNetworks (items_view values.now) networks)
        (λ networks. AreNetworks (items_view values.now) networks.items)) }
{
    let mut networks = Vec::new(alloc);
    for value in values {
        match read_network(value) {
            Some(network) => networks.push(network)?,
            None => return Ok(None),
        }
    }
    Ok(Some(networks))
}

/// Returns the network that the value writes.
fn read_network(value: &Value) -> Option<Network>
    ensures { MatchOption result
        ((network : Network) → ¬ GivesNetwork (view value.now) network) (GivesNetwork (view value.now)) }
{
    match value {
        Value::String(text) => Network::read(text.as_bytes()),
        _ => None,
    }
}

/// Returns the routes that the members say.
fn table_of(alloc: Global, host: HostName, members: &toml::Table) -> Result<Table, ConfigFault>
    ensures ok { IfOk result (λ table. AreRoutes (table_view members.now) table.routes
        × AllAgree table.routes × (table.host ≡ host)) }
    ensures err { IfErr result (λ fault. (fault ≡ ConfigFault.NoMemory)
        ⊎ ((fault ≡ ConfigFault.BadValue Key.Routes)
        × ((routes : List Route) → AreRoutes (table_view members.now) routes → ¬ AllAgree routes))) }
{
    let mut table = Table::new(alloc, host);
    'members: for (key, value) in members.iter() {
        let hop = match read_hop(alloc, value)? {
            Some(hop) => hop,
            None => return Err(ConfigFault::BadValue(Key::Routes)),
        };
        match table.add(alloc, key.as_str().as_bytes(), hop) {
            Ok(()) => {}
            Err(fault) => return Err(fault_of_routes(fault)),
        }
    }
    Ok(table)
}

/// Returns what a route that isn't added means for the configuration.
fn fault_of_routes(fault: RouteFault) -> ConfigFault
    ensures { result ≡ fault_of_routes fault }
{
    match fault {
        RouteFault::BadDomain => ConfigFault::BadValue(Key::Routes),
        RouteFault::Repeated => ConfigFault::BadValue(Key::Routes),
        RouteFault::SecondPlace => ConfigFault::BadValue(Key::Routes),
        RouteFault::NoMemory => ConfigFault::NoMemory,
    }
}

/// Returns a hop: its name, and its place.
fn read_hop(alloc: Global, value: &Value) -> Result<Option<Hop>, AllocError>
    ensures { IfOk result (λ found. MatchOption found
        ((hop : Hop) → ¬ GivesHop (view value.now) hop) (GivesHop (view value.now))) }
{
    let Value::Table(members) = value else {
        return Ok(None);
    };
    let (Some(name), Some(place)) = (text_at(members, "name"), text_at(members, "at")) else {
        return Ok(None);
    };
    let Some(at) = read_address(place) else {
        return Ok(None);
    };
    match HostName::read(alloc, name.as_bytes())? {
        Some(name) => Ok(Some(Hop { name, at })),
        None => Ok(None),
    }
}

/// Returns the value of a key that must be there.
fn required(document: &toml::Table, key: Key) -> Result<&Value, ConfigFault>
    ensures { MatchResult result
        (λ value. value_of key (table_view document.now) ≡ Some (view value.now))
        (λ fault. (value_of key (table_view document.now) ≡ None) × (fault ≡ ConfigFault.Missing key)) }
{
    match member(document, key) {
        Some(value) => Ok(value),
        None => Err(ConfigFault::Missing(key)),
    }
}

/// Returns the value of a key.
fn member(document: &toml::Table, key: Key) -> Option<&Value>
    ensures { value_of key (table_view document.now) ≡ option_map (λ value. view value.now) result }
{
    document.get(key.text())
}

/// Returns the text at a key.
fn text_at<'a>(members: &'a toml::Table, key: &str) -> Option<&'a str>
    ensures { option_and_then as_str (get_member key.now (table_view members.now))
        ≡ option_map (λ text. text.now) result }
{
    match members.get(key) {
        Some(value) => value.as_str(),
        None => None,
    }
}
