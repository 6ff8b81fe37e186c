//! Carrying unread octets, or the client's close, to the session at the server end of a link.
ghost use Rattle.std.specs.Prelude.{◌≡◌, ◌+◌, ◌≤◌, true, None, Some, MatchOption, vec_capacity, vec_len};
ghost use Rattle.relay_world.specs.declared.link.Link.{Link};
ghost use Rattle.relay_world.specs.Crashes.{serves_for};
ghost use Rattle.relay_events.specs.Act.{did_of};
ghost use Rattle.relay_events.specs.FirstFault.{first_fault};
ghost use Rattle.relay_hosts.specs.Links.{whole_link};
ghost use Rattle.relay_events.specs.Hear.{IsCalledToHear, MayRead, TakesHeard, WaitsAt};
ghost use Rattle.relay_events.specs.Happened.{HasHappened};
ghost use Rattle.relay_events.specs.Relays.{AreBound, AreInOrder, free_lines, world_of};
ghost use Rattle.relay_hosts.specs.Room.{HasRoom, HasRoomFor};
ghost use Rattle.relay_events.specs.Step.{Carries, Steps};
ghost use Rattle.relay_events.specs.Told.{HearsAt};
ghost use Rattle.relay_events.specs.declared.event.Event.TheVariants.{Carry};

use crate::act::{Act, fault_of};
use crate::fault::PairFault;
use crate::relays::Relays;
use crate::seen::Seen;
use relay_disk::{Disk, Reboot};
use relay_hosts::heard::{answer_on, cut_off, push_accept, waiting};
use relay_hosts::links::is_read;
use relay_hosts::{Heard, Origin, Recorded};
use relay_node::Received;
use relay_world::passing::{crashing_happens, runs_keep_all};

impl<D: Reboot + Drop> Relays<D> {
    /// Carries unread octets to the session at the server end of a link. If there are none, the client end has closed,
    /// and the node is notified of that.
    pub(crate) fn carry_to_server(
        &mut self,
        number: usize,
        node: usize,
        count: usize,
    ) -> Result<Seen, PairFault>
        requires honest { D.Disk.honest }
        requires order { AreInOrder D.Disk.honest D.Disk.words self.old }
        requires none { first_fault (world_of self.old) (Carry number node count) ≡ None }
        requires served { (link : Link) → whole_link self.old.links.items number ≡ Some link
            → serves_for node link.server ≡ true }
        ensures steps { Steps D.Disk.honest D.Disk.words (world_of self.old) (Carry number node count)
            (world_of self.new) result }
        ensures happened { HasHappened D.Disk.honest D.Disk.words (world_of self.old) (world_of self.new) }
        ensures order { AreInOrder D.Disk.honest D.Disk.words self.new }
    {
        runs_keep_all::<D>();
        let link = &self.links[number - 1];
        if is_read(link.up.as_slice(), link.up_read) {
            self.end_session(number);
            return Ok(Seen::Carried {
                used: 0,
                out: 0,
                change: None,
                end: true,
            });
        }
        self.carry_octets(number, node, count)
    }

    /// Carries unread octets to the session at the server end of a link.
    fn carry_octets(&mut self, number: usize, node: usize, count: usize) -> Result<Seen, PairFault>
        requires honest { D.Disk.honest }
        requires order { AreInOrder D.Disk.honest D.Disk.words self.old }
        requires none { first_fault (world_of self.old) (Carry number node count) ≡ None }
        requires waits { WaitsAt (world_of self.old) number node }
        ensures steps { Steps D.Disk.honest D.Disk.words (world_of self.old) (Carry number node count)
            (world_of self.new) result }
        ensures happened { HasHappened D.Disk.honest D.Disk.words (world_of self.old) (world_of self.new) }
        ensures order { AreInOrder D.Disk.honest D.Disk.words self.new }
    {
        runs_keep_all::<D>();
        let Ok(()) = self.keep_lines(1) else {
            return Err(PairFault::NoMemory);
        };
        let Some(act) = self.hear(number, node, count) else {
            return Err(PairFault::NoMemory);
        };
        self.finish(act)
    }

    /// Has a node hear unread octets at the server end of a link, in one call. Returns `None`, without calling the
    /// node, if there is no room to record a change.
    fn hear(&mut self, number: usize, node: usize, count: usize) -> Option<Act>
        requires honest { D.Disk.honest }
        requires bound { AreBound D.Disk.honest D.Disk.words (world_of self.old) }
        requires room { HasRoomFor (world_of self.old) 1 (free_lines self.old) }
        requires waits { WaitsAt (world_of self.old) number node }
        ensures carries { MatchOption result (world_of self.new ≡ world_of self.old)
            (λ act. Carries D.Disk.honest D.Disk.words (world_of self.old) number node count (world_of self.new)
            (did_of act)) }
        ensures happened { HasHappened D.Disk.honest D.Disk.words (world_of self.old) (world_of self.new) }
        ensures room { HasRoom (world_of self.new) (free_lines self.new) }
    {
        runs_keep_all::<D>();
        crashing_happens::<D>();
        match self.call_to_hear(number, count) {
            Heard::Done(received, recorded) => Some(self.take_heard(
                number, node, &received, &recorded,
            )),
            Heard::Gone(fault) => {
                cut_off(&mut self.links[number - 1]);
                Some(Act::Refuses(fault_of(fault)))
            }
            Heard::Stopped => {
                self.restart(node, Origin::FromClient(number));
                Some(Act::Stops(node))
            }
            Heard::NoRoom => None,
        }
    }
}

impl<D: Disk> Relays<D> {
    /// Calls the node of a session to hear unread octets. Nothing else is done yet.
    fn call_to_hear(&mut self, number: usize, count: usize) -> Heard
        requires bound { AreBound D.honest D.words (world_of self.old) }
        requires hears { HearsAt (world_of self.old) number }
        ensures called { IsCalledToHear D.honest D.words (world_of self.old) (world_of self.new) number count result }
        ensures ledger { self.new.ledger ≡ self.old.ledger }
    {
        let link = &self.links[number - 1];
        let Some(end) = &link.server else {
            unreachable!()
        };
        let Some(session) = end.session else {
            unreachable!()
        };
        let node = end.node;
        let piece = waiting(link.up.as_slice(), link.up_read, count);
        self.hosts[node].hear(session, piece, self.clock)
    }

    /// Marks the heard octets as read, writes the replies, and adds an accept to the ledger.
    fn take_heard(
        &mut self,
        number: usize,
        node: usize,
        received: &Received,
        recorded: &Option<Recorded>,
    ) -> Act
        requires there { MayRead (world_of self.old) number received.now.used }
        requires room { vec_len self.old.ledger + 1 ≤ vec_capacity self.old.ledger }
        ensures takes { TakesHeard (world_of self.old) (world_of self.new) number node received.now recorded.now
            (did_of result) }
        ensures len { vec_len self.new.ledger ≤ vec_len self.old.ledger + 1 }
        ensures capacity { vec_capacity self.old.ledger ≤ vec_capacity self.new.ledger }
    {
        push_accept(&mut self.ledger, node, number, received.change, recorded);
        match answer_on(&mut self.links[number - 1], received) {
            Ok(()) => Act::Shows(Seen::Carried {
                used: received.used,
                out: received.out.len(),
                change: received.change,
                end: received.close,
            }),
            Err(_) => Act::Refuses(PairFault::NoMemory),
        }
    }
}
