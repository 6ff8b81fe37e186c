//! Checks that refuse an event before a node is called.
ghost use Rattle.std.specs.Prelude.{◌≡◌, None, slice_get};
ghost use Rattle.relay_events.specs.FirstFault.{break_fault, carry_fault, carry_idles, send_fault, unless_up};
ghost use Rattle.relay_hosts.specs.Host.{is_up};
ghost use Rattle.relay_hosts.specs.Links.{whole_link as whole_link_of};
ghost use Rattle.relay_events.specs.Relays.{world_of};

use crate::fault::PairFault;
use crate::relays::Relays;
use relay_disk::Disk;
use relay_hosts::Host;
use relay_hosts::let_go::{is_tried_for, serves_for};
use relay_hosts::links::{client_idles, has_outside, server_idles, whole_link};

/// Returns whether the node exists and is up.
fn is_up<D: Disk>(hosts: &[Host<D>], node: usize) -> bool
    ensures { result ≡ is_up (slice_get hosts.now node) }
{
    match hosts.get(node) {
        Some(host) => host.is_up(),
        None => false,
    }
}

impl<D: Disk> Relays<D> {
    /// Returns the first fault of writing on a link from outside.
    pub(crate) fn send_fault(&self, number: usize) -> Option<PairFault>
        ensures { result ≡ send_fault (world_of self.now) (whole_link_of self.now.links.items number) }
    {
        let Some(link) = whole_link(self.links.as_slice(), number) else {
            return Some(PairFault::NoLink);
        };
        if has_outside(link) {
            return None;
        }
        Some(PairFault::NotYours)
    }

    /// Returns the first fault of breaking a link.
    pub(crate) fn break_fault(&self, number: usize) -> Option<PairFault>
        ensures { result ≡ break_fault (world_of self.now) (whole_link_of self.now.links.items number) }
    {
        match whole_link(self.links.as_slice(), number) {
            Some(_) => None,
            None => Some(PairFault::NoLink),
        }
    }

    /// Returns a fault unless the node is up.
    pub(crate) fn down_fault(&self, node: usize) -> Option<PairFault>
        ensures { result ≡ unless_up (world_of self.now) node None }
    {
        if is_up(self.hosts.as_slice(), node) {
            return None;
        }
        Some(PairFault::Down)
    }

    /// Returns the first fault of carrying octets on a link to a node.
    pub(crate) fn carry_fault(&self, number: usize, node: usize, count: usize) -> Option<PairFault>
        ensures { result ≡ carry_fault (world_of self.now) (whole_link_of self.now.links.items number) node count }
    {
        let Some(link) = whole_link(self.links.as_slice(), number) else {
            return Some(PairFault::NoLink);
        };
        let attempts = self.attempts.as_slice();
        if serves_for(&link.server, node) {
            return self.carry_to(node, count, server_idles(attempts, link));
        }
        if is_tried_for(link.client, attempts, node) {
            return self.carry_to(node, count, client_idles(attempts, link));
        }
        Some(PairFault::NotYours)
    }

    /// Returns the first fault of carrying octets to an end of the node; `idles` says that there is nothing to carry.
    fn carry_to(&self, node: usize, count: usize, idles: bool) -> Option<PairFault>
        ensures { result ≡ unless_up (world_of self.now) node (carry_idles (world_of self.now) count idles) }
    {
        if !is_up(self.hosts.as_slice(), node) {
            return Some(PairFault::Down);
        }
        if count == 0 {
            return Some(PairFault::Nothing);
        }
        if idles {
            return Some(PairFault::Nothing);
        }
        None
    }
}
