//! Networks of relays: which configurations make one, and how its nodes begin.
ghost use Rattle.std.specs.Prelude.{◌≡◌, ◌<◌, ◌≤◌, IfOk, MatchBool, MatchOption, length};
ghost use Rattle.relay_pair.specs.Begin.{AreNew, NoneIsSet};
ghost use Rattle.relay_pair.specs.Profiles.{at_place};
ghost use Rattle.relay_pair.specs.Network.{AreNetwork, HasOwnHop, HaveOneHost, IsHostBefore, IsNoNetwork, SendsHome};

use crate::profile::{address_of, mail_at};
use relay_disk::{Disk, Disks, MemoryDisk};
use relay_hosts::Host;
use relay_routes::Config;
use std::alloc::{AllocError, Global};
use thiserror::Error;

/// The fewest nodes of a network.
const FEWEST: usize = 2;

/// The most nodes of a network.
const MOST: usize = 16;

/// Why configurations don't make a network. The first fault in this order is returned, and `NoMemory` only if no other
/// holds.
#[derive(Clone, Copy, Debug, PartialEq, Eq, Error)]
pub enum NetFault {
    /// Memory ran out.
    #[error("NoMemory")]
    NoMemory,
    /// There are fewer than 2 or more than 16 configurations.
    #[error("BadCount")]
    BadCount,
    /// Two configurations have the same host.
    #[error("SameHost")]
    SameHost,
    /// The routes of a configuration lead to its own host.
    #[error("OwnHop")]
    OwnHop,
}

/// Returns the fault of these configurations, if they don't make a network.
pub(crate) fn fault_of_network(configs: &[Config]) -> Option<NetFault>
    ensures { MatchOption result (AreNetwork configs.now) (IsNoNetwork configs.now) }
{
    if configs.len() < FEWEST || configs.len() > MOST {
        return Some(NetFault::BadCount);
    }
    if have_one_host(configs) {
        return Some(NetFault::SameHost);
    }
    if has_own_hop(configs) {
        return Some(NetFault::OwnHop);
    }
    None
}

/// Returns whether two configurations have the same host.
fn have_one_host(configs: &[Config]) -> bool
    ensures { MatchBool result (HaveOneHost configs.now) (¬ HaveOneHost configs.now) }
{
    for other in 1..configs.len() {
        if is_host_before(configs, other) {
            return true;
        }
    }
    false
}

/// Returns whether a configuration before this index has the same host as the one there.
fn is_host_before(configs: &[Config], other: usize) -> bool
    requires { other < length configs.now }
    ensures { MatchBool result (IsHostBefore configs.now other) (¬ IsHostBefore configs.now other) }
{
    for one in 0..other {
        if configs[one].host.as_slice() == configs[other].host.as_slice() {
            return true;
        }
    }
    false
}

/// Returns whether the routes of a configuration lead to its own host.
fn has_own_hop(configs: &[Config]) -> bool
    ensures { MatchBool result (HasOwnHop configs.now) (¬ HasOwnHop configs.now) }
{
    for at in 0..configs.len() {
        if sends_home(&configs[at]) {
            return true;
        }
    }
    false
}

/// Returns whether the routes of this configuration lead to its own host.
#[tactic(auto, using(crate::proofs::NetworkLemmas::sends_home, crate::proofs::NetworkLemmas::sends_elsewhere))]
fn sends_home(config: &Config) -> bool
    ensures { MatchBool result (SendsHome config.now) (¬ SendsHome config.now) }
{
    config.routes.place_of(config.host.as_slice()).is_some()
}

/// Returns the nodes of a network, each on two disks in memory. Fails if memory runs out.
pub(crate) fn begin_hosts(
    alloc: Global,
    configs: Vec<Config>,
) -> Result<Vec<Host<MemoryDisk>>, AllocError>
    requires { length configs.items ≤ 16 }
    ensures new { IfOk result (λ hosts. AreNew ⟦<MemoryDisk as Disk>⟧.honest ⟦<MemoryDisk as Disk>⟧.words 0
        configs.items hosts.items) }
    ensures none_set { IfOk result (λ hosts. NoneIsSet ⟦<MemoryDisk as Disk>⟧.words hosts.items) }
{
    let mut hosts = Vec::new(alloc);
    for config in configs {
        let disks = Disks {
            first: MemoryDisk::new(alloc),
            second: MemoryDisk::new(alloc),
        };
        let config = at_place(config, hosts.len());
        let Ok(host) = Host::create(alloc, config, disks) else {
            return Err(AllocError);
        };
        hosts.push(host)?;
    }
    Ok(hosts)
}

/// Returns the configuration with the address of the node at this index.
fn at_place(config: Config, place: usize) -> Config
    requires { place < 16 }
    ensures { result ≡ at_place place config }
{
    let mut config = config;
    config.listen = mail_at(address_of(place));
    config
}
