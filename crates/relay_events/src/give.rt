//! A node does the first work that it has due.
ghost use Rattle.std.specs.Prelude.{◌≡◌, ◌<◌, ◌↔◌, IsTrue, None, Some, length, slice_get, vec_capacity, vec_len};
ghost use Rattle.relay_slots.specs.Slots.{IsFull};
ghost use Rattle.relay_attempts.specs.declared.work.Work.TheVariants.{NoRoute, Try};
ghost use Rattle.relay_world.specs.World.{Host as HostOf};
ghost use Rattle.relay_events.specs.BreakOff.{BreaksAfter, IsLink};
ghost use Rattle.relay_events.specs.FirstFault.{unless_up};
ghost use Rattle.relay_events.specs.Give.{HasBegunOrNot, HasBegunThere, HasRoomForWork, IsCalledByWork, IsFirstWork};
ghost use Rattle.relay_hosts.specs.Named.{IsFirstNamed, NoneIsNamed};
ghost use Rattle.relay_events.specs.Happened.{HasHappened};
ghost use Rattle.relay_events.specs.Relays.{AreBound, AreInOrder, free_lines, world_of};
ghost use Rattle.relay_hosts.specs.Room.{HasRoom};
ghost use Rattle.relay_events.specs.Step.{Steps};
ghost use Rattle.relay_hosts.specs.Work.{attempts_in};
ghost use Rattle.relay_events.specs.declared.event.Event.TheVariants.{Give};

use crate::act::{Act, fault_of};
use crate::fault::PairFault;
use crate::relays::Relays;
use crate::seen::Seen;
use relay_attempts::Work;
use relay_disk::{Disk, Reboot};
use relay_hosts::named::node_named;
use relay_hosts::{Begun, GivenUp, Origin};
use relay_node::NodeFault;
use relay_octets::Octets;
use relay_routes::HostName;
use relay_world::passing::{resting_crash_happens, runs_keep_all};
use relay_world::{Attempt, Fate, Link};

impl<D: Reboot + Drop> Relays<D> {
    /// Has a node do its first work.
    pub(crate) fn give(&mut self, node: usize) -> Result<Seen, PairFault>
        requires honest { D.Disk.honest }
        requires order { AreInOrder D.Disk.honest D.Disk.words self.old }
        ensures steps { Steps D.Disk.honest D.Disk.words (world_of self.old) (Give node) (world_of self.new) result }
        ensures happened { HasHappened D.Disk.honest D.Disk.words (world_of self.old) (world_of self.new) }
        ensures order { AreInOrder D.Disk.honest D.Disk.words self.new }
    {
        if let Some(fault) = self.down_fault(node) {
            return Err(fault);
        }
        let Ok(()) = self.room_for_work() else {
            return Err(PairFault::NoMemory);
        };
        self.do_first_work(node)
    }

    /// Has a node that is up do its first work, for which there is room.
    fn do_first_work(&mut self, node: usize) -> Result<Seen, PairFault>
        requires honest { D.Disk.honest }
        requires order { AreInOrder D.Disk.honest D.Disk.words self.old }
        requires room { HasRoomForWork self.old }
        requires up { unless_up (world_of self.old) node None ≡ None }
        ensures steps { Steps D.Disk.honest D.Disk.words (world_of self.old) (Give node) (world_of self.new) result }
        ensures happened { HasHappened D.Disk.honest D.Disk.words (world_of self.old) (world_of self.new) }
        ensures order { AreInOrder D.Disk.honest D.Disk.words self.new }
    {
        let first = match self.hosts[node].first_work(self.alloc, self.clock) {
            Ok(first) => first,
            Err(_) => return Err(PairFault::NoMemory),
        };
        let Some(work) = first else {
            return Err(PairFault::Nothing);
        };
        match work {
            Work::NoRoute(message) => self.give_up_first(node, message),
            Work::Try(message, hop) => self.try_first(node, message, &hop),
        }
    }

    /// Has a node give up the places of a message that have no hop.
    fn give_up_first(&mut self, node: usize, message: u64) -> Result<Seen, PairFault>
        requires honest { D.Disk.honest }
        requires order { AreInOrder D.Disk.honest D.Disk.words self.old }
        requires room { HasRoomForWork self.old }
        requires first { IsFirstWork (world_of self.old) node (NoRoute message) }
        ensures steps { Steps D.Disk.honest D.Disk.words (world_of self.old) (Give node) (world_of self.new) result }
        ensures happened { HasHappened D.Disk.honest D.Disk.words (world_of self.old) (world_of self.new) }
        ensures order { AreInOrder D.Disk.honest D.Disk.words self.new }
    {
        runs_keep_all::<D>();
        resting_crash_happens::<D>();
        match self.call_to_give_up(node, message) {
            GivenUp::Done(change, recorded) => {
                self.note_left(node, message, 0, change, &recorded);
                Ok(Seen::NoRoute(message, change))
            }
            GivenUp::Refused(fault) => Err(fault_of(fault)),
            GivenUp::NoRoom => Err(PairFault::NoMemory),
            GivenUp::Stopped => {
                self.restart(node, Origin::FromGivingUp(message));
                self.finish(Act::Stops(node))
            }
        }
    }

    /// Has a node begin an attempt for a message and a hop, on a link that leads there.
    fn try_first(&mut self, node: usize, message: u64, hop: &HostName) -> Result<Seen, PairFault>
        requires honest { D.Disk.honest }
        requires order { AreInOrder D.Disk.honest D.Disk.words self.old }
        requires room { HasRoomForWork self.old }
        requires first { IsFirstWork (world_of self.old) node (Try message hop.now) }
        ensures steps { Steps D.Disk.honest D.Disk.words (world_of self.old) (Give node) (world_of self.new) result }
        ensures happened { HasHappened D.Disk.honest D.Disk.words (world_of self.old) (world_of self.new) }
        ensures order { AreInOrder D.Disk.honest D.Disk.words self.new }
    {
        let Some(to) = node_named(self.hosts.as_slice(), hop) else {
            return self.start_outside(node, message, hop);
        };
        if !self.hosts[to].is_up() {
            return Err(PairFault::Down);
        }
        let Ok(name) = Octets::from_slice(self.alloc, hop.as_slice()) else {
            return Err(PairFault::NoMemory);
        };
        self.start_at_node(node, message, hop, name, to)
    }

    /// Begins an attempt on a new link to the node that has the hop's name, unless 64 attempts are running. If there is
    /// no memory for the attempt, that link breaks.
    fn start_at_node(
        &mut self,
        node: usize,
        message: u64,
        hop: &HostName,
        name: Octets,
        to: usize,
    ) -> Result<Seen, PairFault>
        requires honest { D.Disk.honest }
        requires order { AreInOrder D.Disk.honest D.Disk.words self.old }
        requires room { HasRoomForWork self.old }
        requires first { IsFirstWork (world_of self.old) node (Try message hop.now) }
        requires name { name ≡ hop.now }
        requires named { IsFirstNamed self.old.hosts.items hop.now to }
        requires up { unless_up (world_of self.old) to None ≡ None }
        ensures steps { Steps D.Disk.honest D.Disk.words (world_of self.old) (Give node) (world_of self.new) result }
        ensures happened { HasHappened D.Disk.honest D.Disk.words (world_of self.old) (world_of self.new) }
        ensures order { AreInOrder D.Disk.honest D.Disk.words self.new }
    {
        runs_keep_all::<D>();
        if self.is_full_of_attempts(node) {
            return Err(PairFault::Node(NodeFault::TooMany));
        }
        let peer = self.address_of(node);
        let _greeting = match self.open_link(to, peer) {
            Ok(greeting) => greeting,
            Err(fault) => return Err(fault_of(fault)),
        };
        let link = self.links.len();
        match self.begin_on(node, message, hop, name, link) {
            Ok(place) => Ok(Seen::Started(place)),
            Err(fault) => self.break_unstarted(link, fault),
        }
    }

    /// Breaks a link for which a node refused the attempt, and notifies the node at the other end.
    fn break_unstarted(&mut self, number: usize, why: NodeFault) -> Result<Seen, PairFault>
        requires honest { D.Disk.honest }
        requires bound { AreBound D.Disk.honest D.Disk.words (world_of self.old) }
        requires room { HasRoom (world_of self.old) (free_lines self.old) }
        requires there { IsLink (world_of self.old) number }
        ensures breaks { BreaksAfter D.Disk.honest D.Disk.words (world_of self.old) (world_of self.new) number why
            result }
        ensures happened { HasHappened D.Disk.honest D.Disk.words (world_of self.old) (world_of self.new) }
        ensures order { AreInOrder D.Disk.honest D.Disk.words self.new }
    {
        runs_keep_all::<D>();
        self.break_off(number);
        self.finish(Act::Refuses(fault_of(why)))
    }
}

impl<D: Disk> Relays<D> {
    /// Calls a node to give up the places of a message that have no hop, as its first work. Nothing else is done yet.
    fn call_to_give_up(&mut self, node: usize, message: u64) -> GivenUp
        requires bound { AreBound D.honest D.words (world_of self.old) }
        requires first { IsFirstWork (world_of self.old) node (NoRoute message) }
        ensures called { IsCalledByWork D.honest D.words (world_of self.old) (world_of self.new) node message
            result }
        ensures ledger { self.new.ledger ≡ self.old.ledger }
    {
        self.hosts[node].give_up(message, self.clock)
    }

    /// Returns whether 64 attempts of a node are running.
    fn is_full_of_attempts(&self, node: usize) -> bool
        requires { node < length self.now.hosts.items }
        ensures { (host : HostOf D) → slice_get self.now.hosts.items node ≡ Some host
            → IsTrue result ↔ IsFull (attempts_in host.state) }
    {
        self.hosts[node].is_full_of_attempts()
    }

    /// Returns the IPv4 address of a node.
    fn address_of(&self, node: usize) -> [u8; 4]
        requires { node < length self.now.hosts.items }
        ensures { (host : HostOf D) → slice_get self.now.hosts.items node ≡ Some host
            → result ≡ host.config.listen.ip.octets }
    {
        self.hosts[node].config().listen.ip().octets()
    }

    /// Begins an attempt on a new link to outside.
    fn start_outside(
        &mut self,
        node: usize,
        message: u64,
        hop: &HostName,
    ) -> Result<Seen, PairFault>
        requires honest { D.honest }
        requires order { AreInOrder D.honest D.words self.old }
        requires room { HasRoomForWork self.old }
        requires first { IsFirstWork (world_of self.old) node (Try message hop.now) }
        requires none { NoneIsNamed self.old.hosts.items hop.now }
        ensures steps { Steps D.honest D.words (world_of self.old) (Give node) (world_of self.new) result }
        ensures happened { HasHappened D.honest D.words (world_of self.old) (world_of self.new) }
        ensures order { AreInOrder D.honest D.words self.new }
    {
        runs_keep_all::<D>();
        let Ok(name) = Octets::from_slice(self.alloc, hop.as_slice()) else {
            return Err(PairFault::NoMemory);
        };
        let link = self.links.len() + 1;
        let place = match self.begin(node, message, hop, name, link) {
            Ok(place) => place,
            Err(fault) => return Err(fault_of(fault)),
        };
        self.links
            .push(Link {
                client: Some(place),
                server: None,
                up: Octets::new(Vec::new(self.alloc)),
                up_read: 0,
                down: Octets::new(Vec::new(self.alloc)),
                down_read: 0,
                broken: false,
            })
            .unwrap();
        Ok(Seen::Started(place))
    }

    /// Begins an attempt on a link that was opened for it, and takes its client end.
    fn begin_on(
        &mut self,
        node: usize,
        message: u64,
        hop: &HostName,
        name: Octets,
        number: usize,
    ) -> Result<usize, NodeFault>
        requires bound { AreBound D.honest D.words (world_of self.old) }
        requires first { IsFirstWork (world_of self.old) node (Try message hop.now) }
        requires name { name ≡ hop.now }
        requires room { vec_len self.old.attempts < vec_capacity self.old.attempts }
        requires there { IsLink (world_of self.old) number }
        ensures begun { HasBegunThere D.honest D.words (world_of self.old) (world_of self.new) node message hop.now
            number result }
        ensures ledger { self.new.ledger ≡ self.old.ledger }
    {
        let place = match self.begin(node, message, hop, name, number) {
            Ok(place) => place,
            Err(fault) => return Err(fault),
        };
        self.links[number - 1].client = Some(place);
        Ok(place)
    }

    /// Begins an attempt for a message and a hop of this name, on the link of this number; there is room for it.
    /// Returns the index of the attempt.
    fn begin(
        &mut self,
        node: usize,
        message: u64,
        hop: &HostName,
        name: Octets,
        link: usize,
    ) -> Result<usize, NodeFault>
        requires bound { AreBound D.honest D.words (world_of self.old) }
        requires first { IsFirstWork (world_of self.old) node (Try message hop.now) }
        requires name { name ≡ hop.now }
        requires room { vec_len self.old.attempts < vec_capacity self.old.attempts }
        ensures begun { HasBegunOrNot D.honest D.words (world_of self.old) (world_of self.new) node message hop.now link
            result }
        ensures rest { (self.new.links ≡ self.old.links) × (self.new.ledger ≡ self.old.ledger) }
    {
        let started = match self.hosts[node].start(message, hop, self.clock) {
            Begun::Done(started) => started,
            Begun::Refused(fault) => return Err(fault),
            Begun::NoRoom => return Err(NodeFault::NoMemory),
        };
        let place = self.attempts.len();
        self.attempts
            .push(Attempt {
                node,
                message,
                hop: name,
                places: started.places,
                link,
                fate: Fate::Running(started.attempt),
            })
            .unwrap();
        Ok(place)
    }
}
