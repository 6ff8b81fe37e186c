//! Notifying nodes of broken links.
ghost use Rattle.std.specs.Prelude.{◌≡◌, ◌+◌, ◌++◌, ◌<◌, ◌≤◌, MatchOption, length, vec_capacity, vec_len};
ghost use Rattle.relay_world.specs.Ledger.{left_lines, report_told};
ghost use Rattle.relay_world.specs.Steps.{EndsSession};
ghost use Rattle.relay_world.specs.declared.attempt.Fate.TheVariants.{Lost};
ghost use Rattle.relay_events.specs.Carried.{TellsLoss, stops_by};
ghost use Rattle.relay_events.specs.ClientEnd.{EndsBy, HasAttemptAt, IsCalledToLose};
ghost use Rattle.relay_events.specs.Happened.{HasHappened};
ghost use Rattle.relay_events.specs.Relays.{AreBound, free_lines, world_of};
ghost use Rattle.relay_hosts.specs.Room.{HasRoom};
ghost use Rattle.relay_events.specs.Told.{AreToldTo, HearsAt, IsFirstUntold, LearnsOfBreaks, TellsSome, TriesAt};
ghost use Rattle.relay_events.specs.Told.{ends_of, trying_of};

use crate::client_end::ClientEnd;
use crate::relays::Relays;
use crate::stopped::StoppedNodes;
use relay_disk::{Disk, Reboot};
use relay_hosts::heard::close_server;
use relay_hosts::links::{hears_on, is_untold};
use relay_hosts::{Origin, Recorded, ToldLoss};
use relay_node::NodeFault;
use relay_world::Fate;
use relay_world::passing::{crashing_happens, runs_keep_all};

/// The result of notifying a node that an attempt's connection is lost.
#[derive(Clone, Copy)]
pub(crate) enum Loss {
    /// The attempt has an outcome: the change of this number.
    Ended(u64),
    /// The attempt is gone without an outcome: too little memory or room.
    Gone(NodeFault),
    /// Its node has stopped.
    Stopped(usize),
}

impl<D: Disk> Relays<D> {
    /// Returns the number of the first broken link of which a node isn't notified yet.
    fn first_untold(&self) -> Option<usize>
        ensures { MatchOption result (LearnsOfBreaks (world_of self.now)) (IsFirstUntold (world_of self.now)) }
    {
        for place in 0..self.links.len() {
            if is_untold(self.attempts.as_slice(), &self.links[place]) {
                return Some(place + 1);
            }
        }
        None
    }
}

impl<D: Reboot + Drop> Relays<D> {
    /// Notifies nodes of each broken link, the lowest number first. Nodes that stop in it are added to `stopped`, which
    /// has room for each node that has a running attempt: a node stops when an attempt is lost, and has none after
    /// that.
    pub(crate) fn tell(&mut self, stopped: &mut StoppedNodes)
        requires honest { D.Disk.honest }
        requires bound { AreBound D.Disk.honest D.Disk.words (world_of self.old) }
        requires room { HasRoom (world_of self.old) (free_lines self.old) }
        requires list { length stopped.old + trying_of 16 self.old.attempts.items ≤ 17 }
        ensures told { AreToldTo D.Disk.honest D.Disk.words (world_of self.old) (world_of self.new) stopped.old
            stopped.new }
        ensures happened { HasHappened D.Disk.honest D.Disk.words (world_of self.old) (world_of self.new) }
        ensures bound { AreBound D.Disk.honest D.Disk.words (world_of self.new) }
        ensures room { HasRoom (world_of self.new) (free_lines self.new) }
    {
        while let Some(number) = self.first_untold() {
            self.tell_one(number, stopped);
        }
    }

    /// Notifies one node of a broken link. If the node stops in it, adds it to `stopped`.
    fn tell_one(&mut self, number: usize, stopped: &mut StoppedNodes)
        requires honest { D.Disk.honest }
        requires bound { AreBound D.Disk.honest D.Disk.words (world_of self.old) }
        requires room { HasRoom (world_of self.old) (free_lines self.old) }
        requires first { IsFirstUntold (world_of self.old) number }
        requires list { length stopped.old + trying_of 16 self.old.attempts.items ≤ 17 }
        ensures told { TellsSome D.Disk.honest D.Disk.words (world_of self.old) (world_of self.new) number stopped.old
            stopped.new }
        ensures list { length stopped.new + trying_of 16 self.new.attempts.items ≤ 17 }
        ensures happened { HasHappened D.Disk.honest D.Disk.words (world_of self.old) (world_of self.new) }
        ensures bound { AreBound D.Disk.honest D.Disk.words (world_of self.new) }
        ensures room { HasRoom (world_of self.new) (free_lines self.new) }
        ensures fewer { ends_of (world_of self.new) < ends_of (world_of self.old) }
    {
        runs_keep_all::<D>();
        if hears_on(&self.links[number - 1].server) {
            self.end_session(number);
            return;
        }
        let loss = self.lose_attempt(number);
        list_loss(loss, stopped);
    }

    /// Notifies the node at the server end of a link that its session has ended.
    pub(crate) fn end_session(&mut self, number: usize)
        requires bound { AreBound D.Disk.honest D.Disk.words (world_of self.old) }
        requires room { HasRoom (world_of self.old) (free_lines self.old) }
        requires hears { HearsAt (world_of self.old) number }
        ensures told { EndsSession (world_of self.old) (world_of self.new) number }
        ensures room { HasRoom (world_of self.new) (free_lines self.new) }
        ensures fewer { ends_of (world_of self.new) < ends_of (world_of self.old) }
    {
        let Some(end) = &self.links[number - 1].server else {
            unreachable!()
        };
        let Some(session) = end.session else {
            unreachable!()
        };
        let node = end.node;
        self.hosts[node].end(session);
        close_server(&mut self.links[number - 1], true);
    }

    /// Notifies the node of the attempt at the client end of a link of the loss.
    pub(crate) fn lose_attempt(&mut self, number: usize) -> Loss
        requires honest { D.Disk.honest }
        requires bound { AreBound D.Disk.honest D.Disk.words (world_of self.old) }
        requires room { HasRoom (world_of self.old) (free_lines self.old) }
        requires tries { TriesAt (world_of self.old) number }
        ensures told { TellsLoss D.Disk.honest D.Disk.words (world_of self.old) (world_of self.new) number result }
        ensures happened { HasHappened D.Disk.honest D.Disk.words (world_of self.old) (world_of self.new) }
        ensures room { HasRoom (world_of self.new) (free_lines self.new) }
        ensures fewer { ends_of (world_of self.new) < ends_of (world_of self.old) }
    {
        runs_keep_all::<D>();
        crashing_happens::<D>();
        let end = self.client_end(number);
        match self.call_to_lose(end.node, end.slot) {
            ToldLoss::Ended(change, recorded) => {
                self.end_by_loss(number, end, change, &recorded);
                Loss::Ended(change)
            }
            ToldLoss::Gone(why) => {
                self.set_fate(end.place, Fate::Dropped);
                Loss::Gone(why)
            }
            ToldLoss::Stopped => {
                self.restart(end.node, Origin::FromLoss(number, end.place, end.message));
                Loss::Stopped(end.node)
            }
        }
    }
}

impl<D: Disk> Relays<D> {
    /// Calls the node of a running attempt because its connection is lost. Nothing else is done yet.
    fn call_to_lose(&mut self, node: usize, slot: usize) -> ToldLoss
        requires { HasAttemptAt D.honest D.words (world_of self.old) node slot }
        ensures called { IsCalledToLose D.honest D.words (world_of self.old) (world_of self.new) node slot result }
        ensures ledger { self.new.ledger ≡ self.old.ledger }
    {
        self.hosts[node].lose(slot, self.clock)
    }

    /// Ends an attempt by the loss of its link, with the change of this number, and adds the places that left or were
    /// delayed to the ledger, which has room for them.
    fn end_by_loss(&mut self, number: usize, end: ClientEnd, change: u64, recorded: &Recorded)
        requires there { end.place < length self.old.attempts.items }
        requires room { vec_len self.old.ledger + length recorded.now.left.items ≤ vec_capacity self.old.ledger }
        ensures world { EndsBy (world_of self.old) (world_of self.new) end.place (Lost change)
            (left_lines end.node end.message number (report_told change recorded.now.report) recorded.now.left.items) }
        ensures len { vec_len self.new.ledger ≡ vec_len self.old.ledger + length recorded.now.left.items }
        ensures capacity { vec_capacity self.old.ledger ≤ vec_capacity self.new.ledger }
    {
        self.note_left(end.node, end.message, number, change, recorded);
        self.set_fate(end.place, Fate::Lost(change));
    }
}

/// Adds the node that has stopped in this, if one has, to a list with room for it.
fn list_loss(loss: Loss, stopped: &mut StoppedNodes)
    requires { length stopped.old + length (stops_by loss) ≤ 17 }
    ensures { stopped.new ≡ stopped.old ++ stops_by loss }
{
    if let Loss::Stopped(node) = loss {
        stopped.push(node);
    }
}
