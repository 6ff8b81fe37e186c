//! The configurations of the relays of a play.
ghost use Rattle.std.specs.Prelude.{◌≡◌, ◌<◌, ◌≤◌, [], ◌∷◌, ◌++◌, codes, IfOk, OnOk};
ghost use Rattle.relay_envelope.specs.HostName.{IsHostName};
ghost use Rattle.relay_pair.specs.Profiles.{AreProfiles, IsProfile, address_of, first_routes, host_of, mail_at};
ghost use Rattle.relay_pair.specs.Profiles.{node_after, route_to, route_to_node, routes_among, routes_of_the_rest};
ghost use Rattle.relay_pair.specs.Profiles.{routes_to_others, second_routes};
ghost use Rattle.relay_routes.specs.Routes.{in_lower_case, with_route};

use relay_routes::{BareNewlines, Config, Hop, HostName, SpoolPath, Table};
use std::alloc::{AllocError, Global};
use std::net::{Ipv4Addr, SocketAddrV4};

/// The most octets of mail data, if a configuration doesn't set it.
const MAX_CONTENT: usize = 1_048_576;

/// The most octets of a spool, if a configuration doesn't set it.
const SPOOL_LIMIT: u64 = 67_108_864;

/// The address of node a.
const FIRST: [u8; 4] = [10, 0, 0, 1];

/// The address of node b.
const SECOND: [u8; 4] = [10, 0, 0, 2];

/// The address of outside.
const OUTSIDE: [u8; 4] = [192, 0, 2, 1];

/// Returns the configuration of node a. Fails if memory runs out.
pub(crate) fn first_profile(alloc: Global) -> Result<Config, AllocError>
    ensures { IfOk result (IsProfile (codes "a.example") (address_of 0) first_routes) }
{
    let host = host_name(alloc, b"a.example")?;
    let mut routes = Table::new(alloc, host.copy(alloc)?);
    add_route(alloc, &mut routes, b"b.example", b"b.example", SECOND)?;
    add_route(alloc, &mut routes, b"c.example", b"b.example", SECOND)?;
    add_route(alloc, &mut routes, b"loop.example", b"b.example", SECOND)?;
    add_route(alloc, &mut routes, b"out.example", b"out.example", OUTSIDE)?;
    profile(alloc, host, FIRST, routes)
}

/// Returns the configuration of node b. Fails if memory runs out.
pub(crate) fn second_profile(alloc: Global) -> Result<Config, AllocError>
    ensures { IfOk result (IsProfile (codes "b.example") (address_of 1) second_routes) }
{
    let host = host_name(alloc, b"b.example")?;
    let mut routes = Table::new(alloc, host.copy(alloc)?);
    add_route(alloc, &mut routes, b"a.example", b"a.example", FIRST)?;
    add_route(alloc, &mut routes, b"loop.example", b"a.example", FIRST)?;
    add_route(alloc, &mut routes, b"b.example", b"out.example", OUTSIDE)?;
    add_route(alloc, &mut routes, b"c.example", b"out.example", OUTSIDE)?;
    add_route(alloc, &mut routes, b"out.example", b"out.example", OUTSIDE)?;
    profile(alloc, host, SECOND, routes)
}

/// Returns the configurations of the nodes of a play of `count`. Fails if memory runs out.
pub(crate) fn profiles_of(alloc: Global, count: usize) -> Result<Vec<Config>, AllocError>
    requires { count ≤ 16 }
    ensures { IfOk result (λ configs. AreProfiles count configs.items) }
{
    let mut configs = Vec::new(alloc);
    for node in 0..count {
        configs.push(profile_among(alloc, count, node)?)?;
    }
    Ok(configs)
}

/// Returns the configuration of a node of a play of `count`. Fails if memory runs out.
#[tactic(auto, using(crate::proofs::ProfileLemmas::is_host_name))]
pub(crate) fn profile_among(alloc: Global, count: usize, node: usize) -> Result<Config, AllocError>
    requires node { node < count }
    requires count { count ≤ 16 }
    ensures { IfOk result (IsProfile (host_of node) (address_of node) (routes_among count node)) }
{
    let host = host_name(alloc, &host_of(node))?;
    let mut routes = Table::new(alloc, host.copy(alloc)?);
    add_others(alloc, &mut routes, count, node)?;
    add_rest(alloc, &mut routes, count, node)?;
    profile(alloc, host, address_of(node), routes)
}

/// Adds routes from a node to each other node to an empty table.
#[tactic(auto, using(crate::proofs::ProfileLemmas::own_left_out, crate::proofs::ProfileLemmas::other_added))]
fn add_others(
    alloc: Global,
    routes: &mut Table,
    count: usize,
    node: usize,
) -> Result<(), AllocError>
    requires count { count ≤ 16 }
    requires empty { routes.old.routes ≡ [] }
    ensures host { routes.new.host ≡ routes.old.host }
    ensures routes { OnOk result (routes.new.routes ≡ routes_to_others count node) }
{
    for other in 0..count {
        if other != node {
            add_node(alloc, routes, other)?;
        }
    }
    Ok(())
}

/// Adds the route to a node's host.
#[tactic(auto, using(crate::proofs::ProfileLemmas::is_host_name, crate::proofs::ProfileLemmas::host_in_lower_case))]
fn add_node(alloc: Global, routes: &mut Table, node: usize) -> Result<(), AllocError>
    requires { node < 16 }
    ensures host { routes.new.host ≡ routes.old.host }
    ensures route { OnOk result (routes.new.routes ≡ routes.old.routes ++ route_to_node node ∷ []) }
{
    let name = host_of(node);
    add_lowered(alloc, routes, &name, &name, address_of(node))
}

/// Adds the routes of a node for mail that isn't for another node.
#[tactic(auto, using(crate::proofs::ProfileLemmas::three_routes))]
fn add_rest(alloc: Global, routes: &mut Table, count: usize, node: usize) -> Result<(), AllocError>
    requires node { node < count }
    requires count { count ≤ 16 }
    ensures host { routes.new.host ≡ routes.old.host }
    ensures routes { OnOk result (routes.new.routes ≡ routes.old.routes ++ routes_of_the_rest count node) }
{
    let next = node_after(count, node);
    let (name, address) = (host_of(next), address_of(next));
    add_lowered(alloc, routes, b"loop.example", &name, address)?;
    add_lowered(alloc, routes, &host_of(node), b"out.example", OUTSIDE)?;
    add_lowered(alloc, routes, b"out.example", b"out.example", OUTSIDE)?;
    Ok(())
}

/// Adds a route as [`add_route`] does, for a domain that is in lower case.
fn add_lowered(
    alloc: Global,
    routes: &mut Table,
    domain: &[u8],
    name: &[u8],
    address: [u8; 4],
) -> Result<(), AllocError>
    requires name { IsHostName name.now }
    requires domain { in_lower_case domain.now ≡ domain.now }
    ensures host { routes.new.host ≡ routes.old.host }
    ensures route { OnOk result (routes.new.routes ≡ routes.old.routes ++ route_to domain.now name.now address ∷ []) }
{
    add_route(alloc, routes, domain, name, address)
}

/// Returns the index of the node after this one; node 0 comes after the last.
fn node_after(count: usize, node: usize) -> usize
    requires { node < count }
    ensures value { result ≡ node_after count node }
    ensures within { result < count }
{
    if node + 1 < count { node + 1 } else { 0 }
}

/// Returns the host of the node at this index, from `a.example` on.
fn host_of(node: usize) -> [u8; 9]
    requires { node < 16 }
    ensures { result ≡ host_of node }
{
    let mut host = *b"a.example";
    host[0] += node as u8;
    host
}

/// Returns the IPv4 address of the node at this index, from 10.0.0.1 on.
pub(crate) fn address_of(node: usize) -> [u8; 4]
    requires { node < 16 }
    ensures { result ≡ address_of node }
{
    [10, 0, 0, node as u8 + 1]
}

/// Returns the configuration of a host with these routes, with default limits.
fn profile(
    alloc: Global,
    host: HostName,
    address: [u8; 4],
    routes: Table,
) -> Result<Config, AllocError>
    requires { (routes.host ≡ host) × IsHostName host }
    ensures { IfOk result (IsProfile host address routes.routes) }
{
    let Some(spool) = SpoolPath::new(alloc, "relay.spool")? else {
        unreachable!()
    };
    let Some(config) = Config::new(
        host,
        mail_at(address),
        spool,
        MAX_CONTENT,
        SPOOL_LIMIT,
        BareNewlines::Pass,
        routes,
    ) else {
        unreachable!()
    };
    Ok(config)
}

/// Adds a route from a domain to the hop of a name at an address, if the table allows it.
fn add_route(
    alloc: Global,
    routes: &mut Table,
    domain: &[u8],
    name: &[u8],
    address: [u8; 4],
) -> Result<(), AllocError>
    requires name { IsHostName name.now }
    ensures host { routes.new.host ≡ routes.old.host }
    ensures route { OnOk result (routes.new ≡ with_route routes.old domain.now
        (record { name = name.now; at = mail_at address })) }
{
    let hop = Hop {
        name: host_name(alloc, name)?,
        at: mail_at(address),
    };
    match routes.add(alloc, domain, hop) {
        Ok(()) => Ok(()),
        // All domains are valid and have one route each, and each name has one address: only memory can have run out.
        Err(_) => Err(AllocError),
    }
}

/// Returns a host name. Fails if memory runs out.
fn host_name(alloc: Global, name: &[u8]) -> Result<HostName, AllocError>
    requires { IsHostName name.now }
    ensures { IfOk result (λ host. host ≡ name.now) }
{
    match HostName::read(alloc, name)? {
        Some(host) => Ok(host),
        None => unreachable!(),
    }
}

/// Returns the SMTP port at an address.
pub(crate) fn mail_at(address: [u8; 4]) -> SocketAddrV4
    ensures { result ≡ mail_at address }
{
    let [first, second, third, fourth] = address;
    SocketAddrV4::new(Ipv4Addr::new(first, second, third, fourth), 25)
}
