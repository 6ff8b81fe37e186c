//! A node that stopped in a call goes down, and is opened again.
ghost use Rattle.std.specs.Prelude.{◌≡◌, ◌+◌, ◌≤◌, false, length, vec_capacity, vec_len};
ghost use Rattle.relay_world.specs.Ledger.{left_lines, lines_by, report_told};
ghost use Rattle.relay_world.specs.Stops.{FindsAccept, FindsOutcome};
ghost use Rattle.relay_world.specs.World.{FromClient, FromGivingUp};
ghost use Rattle.relay_hosts.specs.Links.{is_running};
ghost use Rattle.relay_hosts.specs.Host.{origin_in};
ghost use Rattle.relay_events.specs.Relays.{AreBound, free_lines, world_of};
ghost use Rattle.relay_events.specs.Restart.{CrashesAt, FindsBy, FindsChange, HasMoreDown, HasMoreUp, IsCutShortAt};
ghost use Rattle.relay_events.specs.Restart.{IsDownAt, IsReadyToCrash, MayBeFound, OpensAt, Restarts};
ghost use Rattle.relay_hosts.specs.Room.{HasRoom};
ghost use Rattle.relay_events.specs.Told.{IsOpened, ends_of};

use crate::relays::Relays;
use relay_disk::{Disk, Reboot};
use relay_hosts::ledger::{push_left, report_told};
use relay_hosts::links::{read_down, read_up};
use relay_hosts::{Origin, Undecided};
use relay_node::Noted;
use relay_world::laws::down_is_not_refused;
use relay_world::{Fate, Line};

impl<D: Reboot + Drop> Relays<D> {
    /// Takes a node down that stopped in a call, and opens it again, if it can be opened.
    pub(crate) fn restart(&mut self, node: usize, origin: Origin)
        requires cut { IsCutShortAt (world_of self.old) node }
        requires ready { IsReadyToCrash D.Disk.honest D.Disk.words (world_of self.old) node origin
            (free_lines self.old) }
        ensures restarts { Restarts D.Disk.honest D.Disk.words (world_of self.old) (world_of self.new) node origin }
        ensures room { HasRoom (world_of self.new) (free_lines self.new) }
    {
        self.crash(node, origin);
        self.reopen(node);
    }

    /// Takes a node down that stopped in a call, with the change that it was adding; the node lets go of its ends of
    /// links.
    fn crash(&mut self, node: usize, origin: Origin)
        requires { IsCutShortAt (world_of self.old) node }
        ensures world { CrashesAt D.Disk.honest D.Disk.words (world_of self.old) (world_of self.new) node origin }
        ensures ledger { self.new.ledger ≡ self.old.ledger }
    {
        let host = self.hosts.remove(node);
        let host = host.crash(origin);
        self.hosts.insert(node, host).unwrap();
        self.let_go(node);
    }

    /// Opens a node that is down. It stays down if its disks are refused. If the undecided change turns out to be
    /// there, applies its effects.
    pub(crate) fn reopen(&mut self, node: usize)
        requires bound { AreBound D.Disk.honest D.Disk.words (world_of self.old) }
        requires room { HasRoom (world_of self.old) (free_lines self.old) }
        requires down { IsDownAt (world_of self.old) node }
        ensures opened { IsOpened D.Disk.honest D.Disk.words (world_of self.old) (world_of self.new) node }
        ensures room { HasRoom (world_of self.new) (free_lines self.new) }
        ensures fewer { ends_of (world_of self.new) ≤ ends_of (world_of self.old) }
    {
        down_is_not_refused::<D>();
        let Some(found) = self.open_host(node) else {
            return;
        };
        self.find(node, &found);
    }

    /// Opens a node that is down, or leaves it down. Nothing else is done yet.
    fn open_host(&mut self, node: usize) -> Option<Undecided>
        requires { IsDownAt (world_of self.old) node }
        ensures world { OpensAt D.Disk.honest D.Disk.words (world_of self.old) (world_of self.new) node result }
        ensures ledger { self.new.ledger ≡ self.old.ledger }
    {
        let host = self.hosts.remove(node);
        let (host, found) = host.open(self.alloc);
        self.hosts.insert(node, host).unwrap();
        found
    }
}

impl<D: Disk> Relays<D> {
    /// Applies the effects of an undecided change that turned out to be there.
    fn find(&mut self, node: usize, found: &Undecided)
        requires may { MayBeFound self.old.links.items self.old.attempts.items found.now.note.used found.now.origin }
        requires room { vec_len self.old.ledger + length (lines_by node found.now.note (origin_in found.now.origin))
            ≤ vec_capacity self.old.ledger }
        ensures finds { FindsChange (world_of self.old) (world_of self.new) node found.now.note
            (origin_in found.now.origin) }
        ensures len { vec_len self.new.ledger
            ≡ vec_len self.old.ledger + length (lines_by node found.now.note (origin_in found.now.origin)) }
        ensures capacity { vec_capacity self.old.ledger ≤ vec_capacity self.new.ledger }
    {
        let note = &found.note;
        match found.origin {
            Origin::FromClient(number) => self.find_accept(node, number, note),
            Origin::FromReplies(number, place, message) => {
                let fate = Fate::Replied(note.number);
                self.find_outcome(node, message, number, place, fate, note);
            }
            Origin::FromLoss(number, place, message) => {
                let fate = Fate::Lost(note.number);
                self.find_outcome(node, message, number, place, fate, note);
            }
            Origin::FromGivingUp(message) => {
                let report = report_told(note.number, note.report);
                push_left(
                    &mut self.ledger,
                    node,
                    message,
                    0,
                    report,
                    note.left.as_slice(),
                );
            }
        }
    }

    /// Adds an accept to the ledger, and marks what the node had heard on the link as read.
    fn find_accept(&mut self, node: usize, number: usize, note: &Noted)
        requires there { HasMoreUp self.old.links.items number note.now.used }
        requires room { vec_len self.old.ledger + 1 ≤ vec_capacity self.old.ledger }
        ensures finds { FindsBy (world_of self.old) (world_of self.new) (lines_by node note.now (FromClient number))
            (FindsAccept (world_of self.old) (world_of self.new) number note.now.used) }
        ensures len { vec_len self.new.ledger ≡ vec_len self.old.ledger + 1 }
        ensures capacity { vec_capacity self.old.ledger ≤ vec_capacity self.new.ledger }
    {
        let line = Line::Accepted {
            node,
            number: note.number,
            places: note.accepted,
            link: number,
        };
        self.ledger.push(line).unwrap();
        read_up(&mut self.links[number - 1], note.used);
    }

    /// Adds the outcome of an attempt to the ledger, marks what the attempt had read as read, and ends the attempt with
    /// it.
    fn find_outcome(
        &mut self,
        node: usize,
        message: u64,
        number: usize,
        place: usize,
        fate: Fate,
        note: &Noted,
    )
        requires there { HasMoreDown self.old.links.items self.old.attempts.items number place note.now.used }
        requires over { is_running fate ≡ false }
        requires room { vec_len self.old.ledger + length note.now.left.items ≤ vec_capacity self.old.ledger }
        ensures finds { FindsBy (world_of self.old) (world_of self.new)
            (left_lines node message number (report_told note.now.number note.now.report) note.now.left.items)
            (FindsOutcome (world_of self.old) (world_of self.new) number place note.now.used fate) }
        ensures len { vec_len self.new.ledger ≡ vec_len self.old.ledger + length note.now.left.items }
        ensures capacity { vec_capacity self.old.ledger ≤ vec_capacity self.new.ledger }
    {
        let report = report_told(note.number, note.report);
        push_left(
            &mut self.ledger,
            node,
            message,
            number,
            report,
            note.left.as_slice(),
        );
        read_down(&mut self.links[number - 1], note.used);
        self.attempts[place].fate = fate;
    }
}
