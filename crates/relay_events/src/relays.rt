//! The parts of a simulated network of relays.
ghost use Rattle.std.specs.Prelude.{◌≡◌};
ghost use Rattle.relay_events.specs.Begin.{begun_with};
ghost use Rattle.relay_events.specs.Relays.{world_of};

use relay_disk::Disk;
use relay_hosts::Host;
use relay_trace::Moment;
use relay_world::{Attempt, Line, Link};
use std::alloc::Global;

/// Relays with their links, attempts and ledger, at a time of their clock.
pub struct Relays<D: Disk> {
    pub(crate) alloc: Global,
    /// The hosts, by index from 0.
    pub hosts: Vec<Host<D>>,
    /// All links, in the order of their numbers, which start at 1.
    pub links: Vec<Link>,
    /// All attempts, in the order in which they began.
    pub attempts: Vec<Attempt>,
    /// The ledger of mail so far, in order.
    pub ledger: Vec<Line>,
    pub(crate) clock: Moment,
}

// Written out, so that the proof of a caller that drops relays stops at this function.
impl<D: Disk + Drop> Drop for Relays<D> {
    fn drop(self) {
        let Relays {
            alloc: _,
            hosts: _hosts,
            links: _links,
            attempts: _attempts,
            ledger: _ledger,
            clock: _,
        } = self;
    }
}

impl<D: Disk + Drop> Relays<D> {
    /// Returns relays without links, at time 0. Allocates nothing.
    pub fn of_hosts(alloc: Global, hosts: Vec<Host<D>>) -> Self
        ensures { world_of result ≡ begun_with hosts.items }
    {
        let Ok(clock) = Moment::new(0) else {
            unreachable!()
        };
        Relays {
            alloc,
            hosts,
            links: Vec::new(alloc),
            attempts: Vec::new(alloc),
            ledger: Vec::new(alloc),
            clock,
        }
    }
}
