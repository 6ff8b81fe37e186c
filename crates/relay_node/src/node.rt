ghost use Rattle.std.specs.Prelude.{◌≡◌, ◌↔◌, ◌+◌, ◌⊎◌, ℕ, [], true, false, List, length, Option, None, Some, Err};
ghost use Rattle.std.specs.Prelude.{IfErr, IfOk, OnOk, MatchOption, MatchResult};
ghost use Rattle.std.specs.List.{Contains};
ghost use Rattle.relay_book.specs.declared.change.Change.{Change};
ghost use Rattle.relay_book.specs.Marks.{Held};
ghost use Rattle.relay_book.specs.Queue.{held_of};
ghost use Rattle.relay_disk.specs.Disks.{AddsNoImage, FailsNot, LeavesNothing, calls_left_of, no_octets, seen_of};
ghost use Rattle.relay_node.specs.Node.{Connects, CutsTalk, IsFused, IsIdle, Receives, RefusesAt, SeatHasSaid};
ghost use Rattle.relay_node.specs.Node.{UsesOctets};
ghost use Rattle.relay_node.specs.Node.{RefusesToConnect, RefusesToEnd, RefusesToMake, RefusesToReceive};
ghost use Rattle.relay_node.specs.Room.{ComesToOffer};
ghost use Rattle.relay_node.specs.Seats.{in_transaction_at};
ghost use Rattle.relay_slots.specs.Slots.{IsFull, OthersStay, slot_at};
ghost use Rattle.relay_records.specs.HeldPlace.{IsWaiting, waiting_at};
ghost use Rattle.relay_records.specs.Open.{FailsFor, Opens, RefusesImage};
ghost use Rattle.relay_records.specs.Records.{Halted, Keeps, Stays};
ghost use Rattle.relay_server.specs.Dialogue.{Said};
ghost use Rattle.relay_server.specs.Setup.{setup_for};
ghost use Rattle.relay_spool.specs.Pair.{HasNoBody};
ghost use Rattle.relay_spool.specs.Spool.{AtEachMoment, OnlyReads, Passes, PassesAny};

use crate::attempts::note;
use crate::receive::{Received, hear};
use crate::seat::{Seat, put_back, seat_at, take_seat};
use relay_attempts::Attempts;
use relay_disk::{Disk, Disks, Reboot};
use relay_records::{Cause, HeldPlace, NodeFault, NotOpened, Noted, Records};
use relay_routes::Config;
use relay_server::Session;
use relay_slots::Slots;
use relay_spool::SpoolFault;
use relay_trace::Moment;
use std::alloc::Global;
use std::marker::Model;

/// A session that was opened.
#[derive(Drop)]
pub struct Connected {
    /// Its number, 0 to 63.
    pub session: usize,
    /// The octets for the client: the greeting.
    pub out: Vec<u8>,
}

/// A node: up to 64 sessions, the records of the mail that they took in, and up to 64 attempts to relay it. If the
/// device fails, the node is stopped: every later call answers that, but for `into_disk`, `take_noted` and
/// `next_number`, and its disk must be opened again.
pub struct Node<D: Disk> {
    pub(crate) alloc: Global,
    pub(crate) config: Config,
    pub(crate) seats: Slots<Seat>,
    pub(crate) attempts: Attempts,
    pub(crate) records: Records<D>,
}

// Written out, so that a crate that drops a node calls this, and doesn't look into each part where it
// drops one.
impl<D: Disk + Drop> Drop for Node<D> {
    fn drop(self) {
        let Node {
            alloc: _,
            config: _config,
            seats: _seats,
            attempts: _attempts,
            records: _records,
        } = self;
    }
}

impl<D: Disk> Model for Node<D> {
    ghost use Rattle.relay_attempts.specs.Attempts.{Serves};
    ghost use Rattle.relay_node.specs.Node.{NodeState, HaveHistories};

    ghost Value = { NodeState D };

    ghost view = { λ node. record {
      config = node.config;
      seats = node.seats;
      attempts = node.attempts.runs;
      records = node.records;
    } };

    ghost invariant = { λ node. HaveHistories node.config node.seats
        × Serves node.config.host node.config.routes node.attempts node.records.queue };
}

impl<D: Disk> Node<D> {
    /// Returns a node without changes, on two disks of size 0. Disks of which one isn't empty come back unchanged, and
    /// disks that failed with any octets.
    pub fn create(alloc: Global, config: Config, disk: Disks<D>) -> Result<Self, NotOpened<D>>
        ensures keeps { IfOk result (λ node. Keeps D.honest D.words node.records []) }
        ensures idle { IfOk result (IsIdle config) }
        ensures empty { IfOk result (λ node. (node.records.spool.size ≡ 18)
            × (D.honest → seen_of D.words disk ≡ no_octets)) }
        ensures refused { IfErr result
            (λ refused. RefusesToMake D.honest D.words disk refused.disk refused.cause) }
        ensures failures { MatchResult result (λ node. FailsNot D.words disk node.records.spool.disk)
            (λ refused. FailsFor D.words disk refused.disk refused.cause) }
        ensures calls { IfOk result (λ node. Passes D.words 8 disk node.records.spool.disk) }
        // Where a stop left nothing of the disks before, it leaves no change at any time of this call.
        ensures stop { D.honest → LeavesNothing D.words disk → MatchResult result
            (λ node. AtEachMoment D.words disk node.records.spool.disk HasNoBody)
            (λ refused. AtEachMoment D.words disk refused.disk HasNoBody) }
    {
        let Ok(seats) = Slots::new(alloc) else {
            return Err(out_of_memory(disk));
        };
        let Ok(attempts) = Attempts::idle(alloc) else {
            return Err(out_of_memory(disk));
        };
        match Records::create(alloc, disk) {
            Ok(records) => Ok(Node {
                alloc,
                config,
                seats,
                attempts,
                records,
            }),
            Err(refused) => Err(refused),
        }
    }

    /// Returns a node of the changes that two disks hold, whatever configuration they were made under. The disks are
    /// synced and read, and not written: they come back as they were where they are refused.
    pub fn open(alloc: Global, config: Config, disk: Disks<D>) -> Result<Self, NotOpened<D>>
        ensures opens { IfOk result (λ node. Opens D.honest D.words disk node.records) }
        ensures idle { IfOk result (IsIdle config) }
        ensures refused { IfErr result (λ refused. RefusesImage D.honest (seen_of D.words disk) refused.cause) }
        ensures keeps { D.honest → MatchResult result
            (λ node. OnlyReads D.words disk node.records.spool.disk)
            (λ refused. OnlyReads D.words disk refused.disk) }
        ensures failures { MatchResult result (λ node. FailsNot D.words disk node.records.spool.disk)
            (λ refused. FailsFor D.words disk refused.disk refused.cause) }
        ensures calls { IfErr result (λ refused. PassesAny D.words disk refused.disk) }
    {
        match Node::open_again(alloc, config, disk) {
            Ok(node) => Ok(node),
            Err(not) => Err(not.refused),
        }
    }

    /// Returns the disks, live or stopped. Allocates nothing.
    pub fn into_disk(self) -> Disks<D>
        ensures { result ≡ self.records.spool.disk }
    {
        let Node {
            alloc: _,
            config: _config,
            seats: _seats,
            attempts: _attempts,
            records,
        } = self;
        records.into_disk()
    }

    /// Returns the configuration and the disks, live or stopped. Allocates nothing.
    pub fn into_parts(self) -> (Config, Disks<D>)
        ensures config { result.0 ≡ self.config }
        ensures disk { result.1 ≡ self.records.spool.disk }
    {
        let Node {
            alloc: _,
            config,
            seats: _seats,
            attempts: _attempts,
            records,
        } = self;
        (config, records.into_disk())
    }

    /// Returns the configuration that the node was made with.
    pub fn config(&self) -> &Config
        ensures { result.now ≡ self.now.config }
    {
        &self.config
    }

    /// Returns whether the node is live: no call of its device has failed. Allocates nothing.
    pub fn is_live(&self) -> bool
        ensures { result ≡ self.now.records.spool.live }
    {
        self.records.is_live()
    }

    /// Returns the number of the next change, live or stopped. Allocates nothing.
    pub fn next_number(&self) -> u64
        ensures number { result ≡ self.now.records.queue.next }
        ensures kept { (changes : List Change) → Keeps D.honest D.words self.now.records changes
            → result ≡ length changes + 1 }
        ensures halted { (changes : List Change) (pending : Option Change)
            → Halted D.honest D.words self.now.records changes pending → result ≡ length changes + 1 }
    {
        self.records.next_number()
    }

    /// Returns the last change whose append was begun, live or stopped. It is handed out once, and takes no memory.
    pub fn take_noted(&mut self) -> Option<Noted>
        ensures noted { result ≡ self.old.records.noted }
        ensures rest { self.new ≡ record self.old { records = record self.old.records { noted = None } } }
    {
        self.records.take_noted()
    }

    /// Opens a session for a client at this address, under the least free number, and greets it.
    pub fn connect(&mut self, peer: [u8; 4]) -> Result<Connected, NodeFault>
        ensures connects { IfOk result (Connects peer self.old self.new) }
        ensures rest { (self.new.records ≡ self.old.records) × (self.new.config ≡ self.old.config) }
        ensures attempts { self.new.attempts ≡ self.old.attempts }
        ensures refused { IfErr result (RefusesToConnect self.old self.new) }
        ensures stopped { (result ≡ Err NodeFault.Stopped) ↔ (self.old.records.spool.live ≡ false) }
        ensures too_many { (result ≡ Err NodeFault.TooMany)
            ↔ ((self.old.records.spool.live ≡ true) × IsFull self.old.seats) }
    {
        if !self.records.is_live() {
            return Err(NodeFault::Stopped);
        }
        let Some(number) = self.seats.free() else {
            return Err(NodeFault::TooMany);
        };
        let Ok((session, out)) = Session::new(self.alloc, &self.config, peer) else {
            return Err(NodeFault::NoMemory);
        };
        let Ok(session) = Box::new(self.alloc, session) else {
            return Err(NodeFault::NoMemory);
        };
        self.seats.put(number, Seat { session, peer });
        Ok(Connected {
            session: number,
            out,
        })
    }

    /// Returns whether a mail transaction is open in this session; `false` if there is no such session. Allocates
    /// nothing.
    pub fn is_in_transaction(&self, session: usize) -> bool
        ensures { result ≡ in_transaction_at self.now.seats session }
    {
        match seat_at(&self.seats, session) {
            Some(seat) => seat.session.is_in_transaction(),
            None => false,
        }
    }

    /// Frees the number of a session whose connection has ended. Allocates nothing.
    pub fn ended(&mut self, session: usize) -> Result<(), NodeFault>
        ensures gone { OnOk result (slot_at self.new.seats session ≡ None) }
        ensures others { OthersStay self.old.seats self.new.seats session }
        ensures rest { (self.new.records ≡ self.old.records) × (self.new.config ≡ self.old.config) }
        ensures attempts { self.new.attempts ≡ self.old.attempts }
        ensures refused { RefusesAt self.old self.new (slot_at self.old.seats session ≡ None)
            (RefusesToEnd self.old self.new) result }
    {
        if !self.records.is_live() {
            return Err(NodeFault::Stopped);
        }
        let Some(_seat) = self.seats.take(session) else {
            return Err(NodeFault::Unknown);
        };
        Ok(())
    }

    /// Uses octets of a client, all of them or up to a change or a close. The answer 250 to mail is handed out only
    /// after the append of its change: from then on every stop leaves it. A message whose record would bring the spool
    /// past the configured limit is answered that the spool is full (452), and the session goes on. Lack of memory, and
    /// `Full` where a message came and changes have no numbers any more, end the session without an octet.
    pub fn receive(
        &mut self,
        session: usize,
        piece: &[u8],
        now: Moment,
    ) -> Result<Received, NodeFault>
        ensures receives { (changes : List Change) (peer : List ℕ) (said : Said)
            → Keeps D.honest D.words self.old.records changes
            → SeatHasSaid self.old.config self.old.seats session peer said
            → IfOk result (Receives D.honest D.words self.old.config changes peer now session said piece.now
            self.old self.new) }
        ensures cut { (changes : List Change) (peer : List ℕ) (said : Said)
            → Keeps D.honest D.words self.old.records changes
            → SeatHasSaid self.old.config self.old.seats session peer said
            → result ≡ Err NodeFault.Stopped
            → CutsTalk D.honest D.words self.old.config changes peer now said piece.now
            self.old.records self.new.records }
        ensures full { (peer : List ℕ) (said : Said) → SeatHasSaid self.old.config self.old.seats session peer said
            → result ≡ Err NodeFault.Full → ComesToOffer (setup_for self.old.config peer) said piece.now }
        ensures used { IfOk result (UsesOctets D.words (length piece.now) self.old.records self.new.records) }
        ensures rest { OthersStay self.old.seats self.new.seats session
            × (self.new.config ≡ self.old.config) × (self.new.attempts ≡ self.old.attempts) }
        ensures refused { RefusesAt self.old self.new (slot_at self.old.seats session ≡ None)
            (RefusesToReceive D.words session self.old self.new) result }
    {
        let mut seat = take_seat(&mut self.seats, &mut self.attempts, &self.records, session)?;
        self.records.numbers_rise();
        let received = hear(
            self.alloc,
            &self.config,
            &mut self.records,
            &mut seat,
            piece,
            now,
        )?;
        note(&mut self.attempts, &self.config, &self.records, &received);
        put_back(&mut self.seats, session, seat, received.close);
        Ok(received)
    }

    /// Returns all held places, each with the number of its message, in order.
    pub fn marks(&self, alloc: Global) -> Result<Vec<(u64, u8)>, NodeFault>
        ensures marks { IfOk result (λ marks. marks.items ≡ held_of self.now.records.queue) }
        ensures kept { (changes : List Change) → Keeps D.honest D.words self.now.records changes
            → IfOk result (λ marks. (number place : ℕ)
            → Contains {X = ℕ × ℕ} marks.items (number, place) ↔ Held changes number place) }
        ensures stopped { (result ≡ Err NodeFault.Stopped) ↔ (self.now.records.spool.live ≡ false) }
        ensures faults { IfErr result (λ fault. (fault ≡ NodeFault.Stopped) ⊎ (fault ≡ NodeFault.NoMemory)) }
    {
        if !self.records.is_live() {
            return Err(NodeFault::Stopped);
        }
        Ok(self.records.held(alloc)?)
    }

    /// Returns the path of a held place, and when it is due; none if no place is held there. Allocates nothing.
    pub fn place(&self, number: u64, place: u8) -> Result<Option<HeldPlace<'_>>, NodeFault>
        ensures place { IfOk result (λ found. MatchOption found
            (waiting_at self.now.records.queue number place ≡ None)
            (λ held. waiting_at self.now.records.queue number place ≡ Some (held.path.now, held.due))) }
        ensures kept { (changes : List Change) → Keeps D.honest D.words self.now.records changes
            → IfOk result (λ found. MatchOption found (Held changes number place → ⊥)
            (λ held. IsWaiting changes number place held.path.now held.due)) }
        ensures stopped { (result ≡ Err NodeFault.Stopped) ↔ (self.now.records.spool.live ≡ false) }
        ensures faults { IfErr result (λ fault. fault ≡ NodeFault.Stopped) }
    {
        if !self.records.is_live() {
            return Err(NodeFault::Stopped);
        }
        Ok(self.records.place(number, place))
    }
}

/// Returns the refusal of a disk for lack of memory.
pub(crate) fn out_of_memory<D>(disk: Disks<D>) -> NotOpened<D>
    ensures { (result.cause ≡ Cause.Spool SpoolFault.NoMemory) × (result.disk ≡ disk) }
{
    NotOpened {
        cause: Cause::Spool(SpoolFault::NoMemory),
        disk,
    }
}

impl<D: Reboot> Node<D> {
    /// Sets the fuse of the disks: this many calls of both pass, and each later one fails. Nothing else changes.
    pub fn fuse(&mut self, calls: u64)
        ensures rest { (self.new.config ≡ self.old.config) × (self.new.seats ≡ self.old.seats)
            × (self.new.attempts ≡ self.old.attempts) }
        ensures same { IsFused self.old.records self.new.records }
        ensures kept { (changes : List Change) → Keeps D.Disk.honest D.Disk.words self.old.records changes
            → Stays D.Disk.honest D.Disk.words self.old.records self.new.records changes }
        ensures stop { D.Disk.honest
            → AddsNoImage D.Disk.words self.old.records.spool.disk self.new.records.spool.disk }
        ensures failures { FailsNot D.Disk.words self.old.records.spool.disk self.new.records.spool.disk }
        ensures fuse { calls_left_of D.Disk.words self.new.records.spool.disk ≡ Some calls }
    {
        self.records.fuse(calls);
    }
}
