//! Carrying unread octets to the attempt at the client end of a link.
ghost use Rattle.std.specs.Prelude.{◌≡◌, ◌+◌, ◌<◌, ◌≤◌, ℕ, None, Some, true, false, length, slice_get, vec_capacity};
ghost use Rattle.std.specs.Prelude.{vec_len};
ghost use Rattle.relay_world.specs.Steps.{waiting_down};
ghost use Rattle.relay_world.specs.declared.attempt.Attempt.{Attempt as AttemptOf};
ghost use Rattle.relay_events.specs.Act.{did_of};
ghost use Rattle.relay_events.specs.Carried.{IsAnswered, RunsAndWaits, RunsAt, TakesReplies, TriesWhole};
ghost use Rattle.relay_hosts.specs.Replied.{replied_lines};
ghost use Rattle.relay_events.specs.ClientEnd.{HasMore, IsCalledToRead, RunsThere};
ghost use Rattle.relay_events.specs.FirstFault.{first_fault};
ghost use Rattle.relay_events.specs.Happened.{HasHappened};
ghost use Rattle.relay_events.specs.Relays.{AreBound, AreInOrder, free_lines, world_of};
ghost use Rattle.relay_hosts.specs.Room.{HasRoom};
ghost use Rattle.relay_events.specs.Step.{Carries, Steps};
ghost use Rattle.relay_events.specs.Told.{TriesAt};
ghost use Rattle.relay_events.specs.declared.event.Event.TheVariants.{Carry};

use crate::act::{Act, fault_of};
use crate::client_end::ClientEnd;
use crate::fault::PairFault;
use crate::relays::Relays;
use crate::seen::Seen;
use crate::tell::Loss;
use relay_disk::{Disk, Reboot};
use relay_hosts::links::{is_read, read_down};
use relay_hosts::replied::{end_by_replies, waiting_down, write_up};
use relay_hosts::{Origin, Read, Recorded};
use relay_node::Replied;
use relay_world::passing::{crashing_happens, runs_keep_all};
use relay_world::{Fate, Link};

impl<D: Reboot + Drop> Relays<D> {
    /// Carries replies, at most `count` octets of them, to the attempt at the client end of a link. If none are unread,
    /// the other end has closed, and the attempt is notified of that.
    pub(crate) fn carry_to_client(&mut self, number: usize, count: usize) -> Result<Seen, PairFault>
        requires honest { D.Disk.honest }
        requires order { AreInOrder D.Disk.honest D.Disk.words self.old }
        requires tries { TriesWhole (world_of self.old) number }
        ensures steps { (node : ℕ) → first_fault (world_of self.old) (Carry number node count) ≡ None
            → RunsAt (world_of self.old) number node
            → Steps D.Disk.honest D.Disk.words (world_of self.old) (Carry number node count)
            (world_of self.new) result }
        ensures happened { HasHappened D.Disk.honest D.Disk.words (world_of self.old) (world_of self.new) }
        ensures order { AreInOrder D.Disk.honest D.Disk.words self.new }
    {
        runs_keep_all::<D>();
        let act = self.carry_replies(number, count);
        self.finish(act)
    }

    /// Has the attempt read unread replies; if there are none, notifies it that its connection is over.
    fn carry_replies(&mut self, number: usize, count: usize) -> Act
        requires honest { D.Disk.honest }
        requires bound { AreBound D.Disk.honest D.Disk.words (world_of self.old) }
        requires room { HasRoom (world_of self.old) (free_lines self.old) }
        requires tries { TriesWhole (world_of self.old) number }
        ensures carries { (node : ℕ) → RunsAt (world_of self.old) number node
            → Carries D.Disk.honest D.Disk.words (world_of self.old) number node count (world_of self.new)
            (did_of result) }
        ensures happened { HasHappened D.Disk.honest D.Disk.words (world_of self.old) (world_of self.new) }
        ensures room { HasRoom (world_of self.new) (free_lines self.new) }
    {
        let link = &self.links[number - 1];
        if is_read(link.down.as_slice(), link.down_read) {
            return self.tell_end(number);
        }
        self.read_replies(number, count)
    }

    /// Notifies the node of the attempt at the client end of a link that its connection is over.
    fn tell_end(&mut self, number: usize) -> Act
        requires honest { D.Disk.honest }
        requires bound { AreBound D.Disk.honest D.Disk.words (world_of self.old) }
        requires room { HasRoom (world_of self.old) (free_lines self.old) }
        requires tries { TriesAt (world_of self.old) number }
        ensures carries { (node count : ℕ) → RunsAndWaits (world_of self.old) number node false
            → Carries D.Disk.honest D.Disk.words (world_of self.old) number node count (world_of self.new)
            (did_of result) }
        ensures happened { HasHappened D.Disk.honest D.Disk.words (world_of self.old) (world_of self.new) }
        ensures room { HasRoom (world_of self.new) (free_lines self.new) }
    {
        match self.lose_attempt(number) {
            Loss::Ended(change) => Act::Shows(Seen::Carried {
                used: 0,
                out: 0,
                change: Some(change),
                end: true,
            }),
            Loss::Gone(why) => {
                self.break_off(number);
                Act::Refuses(fault_of(why))
            }
            Loss::Stopped(node) => Act::Stops(node),
        }
    }

    /// Has the attempt at the client end of a link read replies, at most `count` unread octets, in one call of its
    /// node.
    fn read_replies(&mut self, number: usize, count: usize) -> Act
        requires honest { D.Disk.honest }
        requires bound { AreBound D.Disk.honest D.Disk.words (world_of self.old) }
        requires room { HasRoom (world_of self.old) (free_lines self.old) }
        requires tries { TriesWhole (world_of self.old) number }
        ensures carries { (node : ℕ) → RunsAndWaits (world_of self.old) number node true
            → Carries D.Disk.honest D.Disk.words (world_of self.old) number node count (world_of self.new)
            (did_of result) }
        ensures happened { HasHappened D.Disk.honest D.Disk.words (world_of self.old) (world_of self.new) }
        ensures room { HasRoom (world_of self.new) (free_lines self.new) }
    {
        runs_keep_all::<D>();
        crashing_happens::<D>();
        let end = self.client_end(number);
        match self.call_to_read(number, end, count) {
            Read::Done(replied, recorded) => {
                self.take_replies(number, end.place, &replied, &recorded)
            }
            Read::Gone(why) => {
                self.set_fate(end.place, Fate::Dropped);
                self.break_off(number);
                Act::Refuses(fault_of(why))
            }
            Read::Stopped => {
                self.restart(
                    end.node,
                    Origin::FromReplies(number, end.place, end.message),
                );
                Act::Stops(end.node)
            }
        }
    }
}

impl<D: Disk> Relays<D> {
    /// Calls the node of an attempt to read replies, at most `count` unread octets. Nothing else is done yet.
    fn call_to_read(&mut self, number: usize, end: ClientEnd, count: usize) -> Read
        requires bound { AreBound D.honest D.words (world_of self.old) }
        requires runs { RunsThere D.honest D.words (world_of self.old) number end }
        ensures called { IsCalledToRead D.honest D.words (world_of self.old) (world_of self.new) number end.node
            end.slot count result }
        ensures ledger { self.new.ledger ≡ self.old.ledger }
    {
        let piece = waiting_down(&self.links[number - 1], count);
        self.hosts[end.node].read(end.slot, piece, self.clock)
    }

    /// Marks the replies as read, and writes what the node answers on the link. If a change was added, the attempt has
    /// ended, and the places that left or were delayed go to the ledger, which has room for them.
    fn take_replies(
        &mut self,
        number: usize,
        place: usize,
        replied: &Replied,
        recorded: &Option<Recorded>,
    ) -> Act
        requires there { HasMore (world_of self.old) number replied.now.used }
        requires place { place < length self.old.attempts.items }
        requires room { (attempt : AttemptOf) → slice_get self.old.attempts.items place ≡ Some attempt
            → vec_len self.old.ledger + length (replied_lines number attempt replied.now.change recorded.now)
            ≤ vec_capacity self.old.ledger }
        ensures takes { TakesReplies (world_of self.old) (world_of self.new) number place replied.now recorded.now
            result }
        ensures len { (attempt : AttemptOf) → slice_get self.old.attempts.items place ≡ Some attempt
            → vec_len self.new.ledger
            ≡ vec_len self.old.ledger + length (replied_lines number attempt replied.now.change recorded.now) }
        ensures capacity { vec_capacity self.old.ledger ≤ vec_capacity self.new.ledger }
    {
        let attempt = &mut self.attempts[place];
        end_by_replies(attempt, &mut self.ledger, number, replied.change, recorded);
        write_replies(&mut self.links[number - 1], replied)
    }
}

/// Marks replies as read at the client end of a link, and writes what the node answers. If memory for the answer runs
/// out, the link breaks.
fn write_replies(link: &mut Link, replied: &Replied) -> Act
    requires { link.old.down_read + replied.now.used ≤ length link.old.down }
    ensures { IsAnswered link.old link.new replied.now result }
{
    read_down(link, replied.used);
    match write_up(link, replied.out.as_slice()) {
        Ok(()) => Act::Shows(Seen::Carried {
            used: replied.used,
            out: replied.out.len(),
            change: replied.change,
            end: replied.change.is_some(),
        }),
        Err(_) => Act::Refuses(PairFault::NoMemory),
    }
}
