//! A run of simulated relays.
ghost use Rattle.std.specs.Prelude.{◌≡◌, ◌≤◌, [], ◌∷◌, IfErr, IfOk, List, length};
ghost use Rattle.relay_pair.specs.Begin.{AreMadeOf, AreNew, HasBegun, HasBegunAsMany, HasBegunAsTwo, NoneIsSet};
ghost use Rattle.relay_events.specs.Begin.{begun_with};
ghost use Rattle.relay_pair.specs.Copied.{CountsCopies};
ghost use Rattle.relay_pair.specs.Marks.{marks_from};
ghost use Rattle.relay_pair.specs.Network.{AreNetwork, HaveOneHost, IsNoNetwork};
ghost use Rattle.relay_events.specs.Happened.{HasHappenedFor};
ghost use Rattle.relay_events.specs.Relays.{AreBound};
ghost use Rattle.relay_events.specs.Step.{Steps};
ghost use Rattle.relay_pair.specs.Promise.{RunKeepsItsPromise};
ghost use Rattle.relay_pair.specs.Run.{StepsEach};
ghost use Rattle.relay_routes.specs.declared.config.Config.{Config as Configuration};
ghost use Rattle.relay_world.specs.Copies.{lost_replies_of};
ghost use Rattle.relay_world.specs.Leaks.{NothingLeaks};

use crate::copies::count_copies;
use crate::lost::lost_replies;
use crate::marks::held_marks;
use crate::network::{NetFault, begin_hosts, fault_of_network};
use crate::profile::{first_profile, profiles_of, second_profile};
use relay_disk::{Disk, Disks, MemoryDisk, Reboot};
use relay_events::{Event, PairFault, Relays, Seen};
use relay_hosts::Host;
use relay_routes::Config;
use relay_world::passing::{
    crashing_happens, hop_links_at_first, once_at_first, promise_is_kept, resting_crash_happens,
    runs_keep_all,
};
use relay_world::{Attempt, Line, Link};
use std::alloc::{AllocError, Global};
use std::marker::Model;

/// Simulated relays with their links, among them and to outside, and the ledger of their mail.
pub struct Pair<D: Disk> {
    relays: Relays<D>,
}

// Written out, so that the proof of a caller that drops a pair stops at this function.
impl<D: Disk + Drop> Drop for Pair<D> {
    fn drop(self) {
        let Pair { relays: _relays } = self;
    }
}

impl<D: Disk> Model for Pair<D> {
    ghost use Rattle.relay_events.specs.Relays.{world_of};
    ghost use Rattle.relay_pair.specs.Sound.{IsSound};
    ghost use Rattle.relay_world.specs.World.{World};

    ghost Value = { World D };

    ghost view = { λ pair. world_of pair.relays };

    ghost invariant = { λ pair. IsSound D.honest D.words pair.relays };
}

impl Pair<MemoryDisk> {
    /// Returns two relays on disks in memory, at time 0: node 0 is `a.example` at 10.0.0.1, node 1 `b.example` at
    /// 10.0.0.2, with the routes that a play gives them. Fails if memory runs out.
    pub fn new(alloc: Global) -> Result<Self, AllocError>
        ensures begun { IfOk result (HasBegunAsTwo ⟦<MemoryDisk as Disk>⟧.honest ⟦<MemoryDisk as Disk>⟧.words) }
        ensures none_set { IfOk result (λ pair. NoneIsSet ⟦<MemoryDisk as Disk>⟧.words pair.hosts) }
    {
        let mut configs = Vec::new(alloc);
        configs.push(first_profile(alloc)?)?;
        configs.push(second_profile(alloc)?)?;
        match Pair::network(alloc, configs) {
            Ok(pair) => Ok(pair),
            // Two configurations with distinct hosts and no route to their own: only memory can have run out.
            Err(_) => Err(AllocError),
        }
    }

    /// Returns this many relays on disks in memory, at time 0: node 0 is `a.example` at 10.0.0.1, node 1 `b.example` at
    /// 10.0.0.2, and so on, with the routes that a play of this many gives them. Fails if memory runs out.
    pub fn nodes(alloc: Global, count: usize) -> Result<Self, AllocError>
        requires { count ≤ 16 }
        ensures begun { IfOk result (HasBegunAsMany ⟦<MemoryDisk as Disk>⟧.honest ⟦<MemoryDisk as Disk>⟧.words
            count) }
        ensures none_set { IfOk result (λ pair. NoneIsSet ⟦<MemoryDisk as Disk>⟧.words pair.hosts) }
    {
        match Pair::network(alloc, profiles_of(alloc, count)?) {
            Ok(pair) => Ok(pair),
            // As many distinct hosts, with no route to their own: only memory can have run out.
            Err(_) => Err(AllocError),
        }
    }

    /// Returns relays with these 2 to 16 configurations on disks in memory, at time 0. Each gets the address of its
    /// index instead of its own: 10.0.0.1 for node 0, and so on. A hop that has the name of a node's host is that node;
    /// every other hop is outside.
    pub fn network(alloc: Global, configs: Vec<Config>) -> Result<Self, NetFault>
        ensures begun { IfOk result (λ pair. AreNetwork configs.items
            × HasBegun ⟦<MemoryDisk as Disk>⟧.honest ⟦<MemoryDisk as Disk>⟧.words configs.items pair) }
        ensures none_set { IfOk result (λ pair. NoneIsSet ⟦<MemoryDisk as Disk>⟧.words pair.hosts) }
        ensures refused { IfErr result (IsNoNetwork configs.items) }
    {
        if let Some(fault) = fault_of_network(configs.as_slice()) {
            return Err(fault);
        }
        match begin_hosts(alloc, configs) {
            Ok(hosts) => Ok(Pair::of_hosts(alloc, hosts)),
            Err(_) => Err(NetFault::NoMemory),
        }
    }
}

impl<D: Disk + Drop> Pair<D> {
    /// Returns the two relays of [`Pair::new`], each on two empty disks. Fails if memory runs out, or if a disk fails
    /// or isn't empty.
    pub fn begin(alloc: Global, first: Disks<D>, second: Disks<D>) -> Result<Self, AllocError>
        ensures begun { IfOk result (HasBegunAsTwo D.Disk.honest D.Disk.words) }
        ensures calls { IfOk result (λ pair. AreMadeOf D.Disk.words (first ∷ second ∷ []) pair.hosts) }
    {
        let Ok(first) = Host::create(alloc, first_profile(alloc)?, first) else {
            return Err(AllocError);
        };
        let Ok(second) = Host::create(alloc, second_profile(alloc)?, second) else {
            return Err(AllocError);
        };
        let mut hosts = Vec::new(alloc);
        hosts.push(first)?;
        hosts.push(second)?;
        Ok(Pair::of_hosts(alloc, hosts))
    }

    /// Returns relays of at most 16 new hosts, no two of which have the same name. Allocates nothing.
    fn of_hosts(alloc: Global, hosts: Vec<Host<D>>) -> Self
        requires { (configs : List Configuration) × AreNew D.Disk.honest D.Disk.words 0 configs hosts.items
            × (¬ HaveOneHost configs) × (length configs ≤ 16) }
        ensures { result ≡ begun_with hosts.items }
    {
        once_at_first::<D>();
        hop_links_at_first::<D>();
        Pair {
            relays: Relays::of_hosts(alloc, hosts),
        }
    }
}

impl<D: Disk> Pair<D> {
    /// Returns the ledger of mail so far, in order: a line for each message that a node has accepted, and for each
    /// place that has left or was delayed.
    pub fn ledger(&self) -> &[Line]
        ensures { result.now ≡ self.now.ledger }
    {
        self.relays.ledger.as_slice()
    }

    /// Returns all links, in the order of their numbers from 1, with all octets that were written on them.
    pub fn links(&self) -> &[Link]
        ensures { result.now ≡ self.now.links }
    {
        self.relays.links.as_slice()
    }

    /// Returns all attempts, in the order in which they began.
    pub fn attempts(&self) -> &[Attempt]
        ensures { result.now ≡ self.now.attempts }
    {
        self.relays.attempts.as_slice()
    }

    /// Returns all held places of the nodes that are up, each with its node and the number of its message, in order.
    /// Fails if memory runs out.
    pub fn marks(&self, alloc: Global) -> Result<Vec<(usize, u64, u8)>, AllocError>
        ensures { IfOk result (λ marks. marks.items ≡ marks_from 0 self.now.hosts) }
    {
        held_marks(&self.relays, alloc)
    }

    /// Returns how many copies of a place of a node's message its attempts have made among the nodes: the messages that
    /// were accepted on the links of attempts whose RCPT for the place got a 2yz reply. There is at most one, and one
    /// more for each lost reply. Fails if memory runs out.
    pub fn copies(
        &self,
        alloc: Global,
        node: usize,
        message: u64,
        place: u64,
    ) -> Result<usize, AllocError>
        ensures { IfOk result (CountsCopies D.honest D.words self.now node message place) }
    {
        count_copies(&self.relays, alloc, node, message, place)
    }

    /// Returns how many replies to attempts for a place of a node's message were lost: these attempts have ended
    /// without a final reply, because their link was lost or their node dropped them. Each allows for one more copy.
    /// Allocates nothing.
    pub fn lost_replies(&self, node: usize, message: u64, place: u64) -> usize
        ensures { result ≡ lost_replies_of node message place self.now.attempts }
    {
        lost_replies(self.relays.attempts.as_slice(), node, message, place)
    }

    /// States that between two events each occupied seat of a node that is up has a link with a running session, and
    /// each attempt number in use a running attempt.
    fn leaks_nothing(&self)
        ensures { NothingLeaks self.now }
    {
        let _relays = &self.relays;
    }

    /// States that the invariant holds between two events.
    fn is_bound(&self)
        ensures { AreBound D.honest D.words self.now }
    {
        let _relays = &self.relays;
    }
}

impl<D: Reboot + Drop> Pair<D> {
    /// Does one event. Fails with the event's first fault, or, before a node is called, if memory runs out; nothing
    /// changes then. A node that refuses its part, for lack of memory, room or change numbers, loses the session or the
    /// attempt, and the link breaks. If memory for a node's answer runs out, the node has still heard or read its
    /// octets; if memory for a new attempt runs out, the link to its hop was still opened; that link breaks too.
    pub fn step(&mut self, event: &Event) -> Result<Seen, PairFault>
        requires { D.Disk.honest }
        ensures steps { Steps D.Disk.honest D.Disk.words self.old event.now self.new result }
        ensures happened { HasHappenedFor D.Disk.honest D.Disk.words event.now self.old self.new }
        ensures leaks { NothingLeaks self.new }
    {
        runs_keep_all::<D>();
        crashing_happens::<D>();
        resting_crash_happens::<D>();
        self.relays.step(event)
    }

    /// Does events, one after another, and goes on after one that is refused. Whatever they are, the promise for mail
    /// is kept, and a place is withdrawn only if an event asks for it.
    pub fn run(&mut self, events: &[Event])
        requires { D.Disk.honest }
        ensures steps { StepsEach D.Disk.honest D.Disk.words self.old events.now self.new }
        ensures promise { RunKeepsItsPromise D.Disk.honest D.Disk.words events.now self.old self.new }
    {
        promise_is_kept::<D>();
        self.is_bound();
        for event in events {
            let _ = self.step(event);
        }
        self.leaks_nothing();
    }
}
