ghost use Rattle.std.specs.Prelude.{◌≡◌, [], ◌∷◌, IfOk};
ghost use Rattle.relay_routes.specs.Value.{IsHostName};
ghost use Rattle.relay_program.specs.Setup.{IsProfile, loopback_at, only_route, session_moment};

use relay_routes::{BareNewlines, Config, Hop, HostName, SpoolPath, Table};
use relay_trace::Moment;
use std::alloc::{AllocError, Global};
use std::net::{Ipv4Addr, SocketAddrV4};

/// The client's IPv4 address in the time stamp lines of `session`, which has no peer: 127.0.0.1.
pub const ADDRESS: [u8; 4] = [127, 0, 0, 1];

/// The time in the time stamp lines of `session`, which has no clock, in seconds since 1970.
const SECONDS: u64 = 0;

/// The most octets of mail data.
const MAX_CONTENT: usize = 1_048_576;

/// The most octets of a spool.
const SPOOL_LIMIT: u64 = 67_108_864;

/// Returns the configuration of `session`: host `relay.example`, mail data of up to 1,048,576 octets in which bare
/// newlines pass, and `example.org` as the only domain. Fails if memory runs out.
#[tactic(auto, using(crate::proofs::ProfileLemmas::is_profile))]
pub fn configuration(alloc: Global) -> Result<Config, AllocError>
    ensures { IfOk result IsProfile }
{
    let host = host_name(alloc, b"relay.example")?;
    let mut routes = Table::new(alloc, host.copy(alloc)?);
    add_route(alloc, &mut routes)?;
    let Some(spool) = SpoolPath::new(alloc, "relay.spool")? else {
        unreachable!()
    };
    let listen = at_port(2525);
    let Some(config) = Config::new(
        host,
        listen,
        spool,
        MAX_CONTENT,
        SPOOL_LIMIT,
        BareNewlines::Pass,
        routes,
    ) else {
        unreachable!()
    };
    Ok(config)
}

/// Adds the route of `example.org`, to `next.example`.
fn add_route(alloc: Global, routes: &mut Table) -> Result<(), AllocError>
    requires { routes.old.routes ≡ [] }
    ensures host { routes.new.host ≡ routes.old.host }
    ensures route { IfOk result (λ _. routes.new.routes ≡ only_route ∷ []) }
{
    let hop = Hop {
        name: host_name(alloc, b"next.example")?,
        at: at_port(2526),
    };
    match routes.add(alloc, b"example.org", hop) {
        Ok(()) => Ok(()),
        // The domain is valid, and the table has no other route, so only memory can have run out.
        Err(_) => Err(AllocError),
    }
}

/// Returns a host name. Fails if memory runs out.
fn host_name(alloc: Global, name: &[u8]) -> Result<HostName, AllocError>
    requires { IsHostName name.now }
    ensures { IfOk result (λ host. host ≡ name.now) }
{
    match HostName::read(alloc, name)? {
        Some(host) => Ok(host),
        None => unreachable!(),
    }
}

/// Returns the loopback address, with a port.
fn at_port(port: u16) -> SocketAddrV4
    ensures { result ≡ loopback_at port }
{
    SocketAddrV4::new(Ipv4Addr::new(127, 0, 0, 1), port)
}

/// Returns the acceptance time of the mail of `session`. Allocates nothing.
pub fn moment() -> Moment
    ensures { result ≡ session_moment }
{
    let Ok(moment) = Moment::new(SECONDS) else {
        unreachable!()
    };
    moment
}
