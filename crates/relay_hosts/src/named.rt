//! The node that has a hop's name.
ghost use Rattle.std.specs.Prelude.{◌≡◌, bytes_eq, MatchOption};
ghost use Rattle.relay_hosts.specs.Named.{IsFirstNamed, NoneIsNamed};

use crate::host::Host;
use relay_disk::Disk;
use relay_routes::HostName;

/// Returns whether a node has this name.
fn has_name<D: Disk>(host: &Host<D>, name: &HostName) -> bool
    ensures { result ≡ bytes_eq host.now.config.host name.now }
{
    host.config().host.as_slice() == name.as_slice()
}

/// Returns the index of the first node of this name, if there is one.
pub fn node_named<D: Disk>(hosts: &[Host<D>], name: &HostName) -> Option<usize>
    ensures { MatchOption result (NoneIsNamed hosts.now name.now) (IsFirstNamed hosts.now name.now) }
{
    for node in 0..hosts.len() {
        if has_name(&hosts[node], name) {
            return Some(node);
        }
    }
    None
}
