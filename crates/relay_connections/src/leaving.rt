//! Connections whose session or attempt has ended: their last octets are written, and what the peer still sends is read
//! and dropped for a short time. Otherwise the system would reset the connection, and the last octets might be lost.
ghost use Rattle.std.specs.Prelude.{◌≡◌, ◌≤◌, ◌<◌, ◌+◌, ◌⊎◌, ◌↔◌, ℕ, None, IfOk, IfSome, IsTrue, false, true};
ghost use Rattle.std.specs.Prelude.{if◌then◌else◌};
ghost use Rattle.relay_slots.specs.Slots.{AreFree, OthersStay, slot_at};
ghost use Rattle.relay_connections.specs.Channel.{IsUnder, held_of};
ghost use Rattle.relay_connections.specs.declared.leaving.TheConstants.{FIRST_TOKEN, MOST_STRANGERS};
ghost use Rattle.relay_connections.specs.Deadlines.{IsEarliest};
ghost use Rattle.relay_connections.specs.Leaving.{GoesOn, HasGone, HasNotedLeaver, IsOneOf, IsOver, IsTimed, MayTake};
ghost use Rattle.relay_connections.specs.Leaving.{Stays, StaysOrCloses, closes_at};
ghost use Rattle.relay_connections.specs.Leaving.{goes_to, leavers_of, read_until, whole_output};
ghost use Rattle.relay_connections.specs.Table.{count_of, count_of_such, is_such};

use crate::channel::{Channel, End, Readiness};
use crate::clocks::Now;
use crate::stream::Stream;
use crate::table::{Table, holds};
use mio::net::TcpStream;
use relay_loop::Outbox;
use relay_slots::SLOT_COUNT;
use std::alloc::{AllocError, Global};

/// How many seconds a connection is read after its last octets were written.
const DRAIN_SECONDS: u64 = 1;

/// If this many connections are leaving, one that had no session is closed at once.
const MOST_STRANGERS: usize = SLOT_COUNT / 2;

/// The token of the first of them.
const FIRST_TOKEN: usize = 2 * SLOT_COUNT;

/// A connection that is leaving.
struct Leaver<S> {
    channel: Channel<S>,
    /// The last octets, as far as they are unwritten.
    outbox: Outbox,
    /// Whether they are written, and the write side is shut down.
    is_shut: bool,
    /// The number of the next hop's address, if it leads to a next hop.
    place: Option<usize>,
    /// The tick at which the connection is closed.
    deadline: u64,
}

// Written out, so that the proof of a caller that drops it stops at this function.
impl<S: Drop> Drop for Leaver<S> {
    fn drop(self) {
        let Leaver {
            channel: _channel,
            outbox: _outbox,
            is_shut: _,
            place: _,
            deadline: _,
        } = self;
    }
}

/// Returns whether the connection in a slot leads to the next-hop address of this number.
fn goes_to<S>(slot: &Option<Box<Leaver<S>>>, place: usize) -> bool
    ensures { result ≡ is_such (goes_to place) slot.now }
{
    match slot {
        Some(leaver) => leaver.place == Some(place),
        None => false,
    }
}

/// The connections that are leaving, at most 64.
pub struct Leaving<S = TcpStream> {
    alloc: Global,
    leavers: Table<Box<Leaver<S>>>,
    /// How many seconds their last octets may take to be written.
    seconds: u64,
}

// Written out, so that the proof of a caller that drops them stops at this function.
impl<S: Drop> Drop for Leaving<S> {
    fn drop(self) {
        let Leaving {
            alloc: _,
            leavers: _leavers,
            seconds: _,
        } = self;
    }
}

impl Leaving {
    /// The token of the first connection; the others' follow in the order of their numbers.
    pub const FIRST_TOKEN: usize = FIRST_TOKEN;
}

impl<S: Stream + Drop> Leaving<S> {
    /// Returns an empty table; last octets may take `seconds` to be written. Fails if memory runs out.
    pub fn new(alloc: Global, seconds: u64) -> Result<Self, AllocError>
        ensures free { IfOk result (λ leaving. AreFree (leavers_of leaving)) }
        ensures seconds { IfOk result (λ leaving. leaving.seconds ≡ seconds) }
    {
        Ok(Leaving {
            alloc,
            leavers: Table::new(alloc)?,
            seconds,
        })
    }

    /// From now on, last octets may take `seconds` to be written.
    pub fn set_timeout(&mut self, seconds: u64)
        ensures leavers { leavers_of self.new ≡ leavers_of self.old }
        ensures seconds { self.new.seconds ≡ seconds }
    {
        self.seconds = seconds;
    }

    /// Takes a connection with its last octets, and the number of the next hop's address if it leads to one. Writes as
    /// many octets as the peer takes at once. If 64 connections are leaving already, or memory runs out, closes it
    /// after that.
    pub fn take(
        &mut self,
        registry: &S::Registry,
        channel: Channel<S>,
        outbox: Outbox,
        place: Option<usize>,
        now: &Now,
    )
        ensures taken { (number : ℕ) → MayTake S.remaining S.contents channel outbox place
            (slot_at (leavers_of self.old) number) (slot_at (leavers_of self.new) number) }
        ensures time { (number : ℕ) → slot_at (leavers_of self.old) number ≡ None
            → IfSome (slot_at (leavers_of self.new) number)
            (λ leaver. IsTimed self.old.seconds now.now.tick leaver.value) }
        ensures token { (number : ℕ) → slot_at (leavers_of self.old) number ≡ None
            → IfSome (slot_at (leavers_of self.new) number)
            (λ leaver. IsUnder (FIRST_TOKEN + number) (S.registered leaver.value.channel.stream)) }
        ensures seconds { self.new.seconds ≡ self.old.seconds }
    {
        let mut leaver = Leaver {
            channel,
            outbox,
            is_shut: false,
            place,
            deadline: now.after(self.seconds),
        };
        leaver.write(now);
        let Some(number) = self.leavers.free() else {
            return;
        };
        let token = FIRST_TOKEN.saturating_add(number);
        if leaver.channel.register(registry, token).is_err() {
            return;
        }
        if let Ok(leaver) = Box::new(self.alloc, leaver) {
            self.leavers.put(number, leaver);
        }
    }

    /// Returns whether no connection is leaving.
    pub fn is_empty(&self) -> bool
        ensures { IsTrue result ↔ (count_of (leavers_of self.now) ≡ 0) }
    {
        self.leavers.count() == 0
    }

    /// Returns whether a connection without a session may be taken: half of the room is kept for others.
    pub fn has_room_for_strangers(&self) -> bool
        ensures { IsTrue result ↔ (count_of self.now.leavers < MOST_STRANGERS) }
    {
        self.leavers.count() < MOST_STRANGERS
    }

    /// Returns how many connections to the next-hop address of this number are leaving.
    pub fn count_to(&self, place: usize) -> usize
        ensures { result ≡ count_of_such (goes_to place) (leavers_of self.now) }
    {
        let standing = self.leavers.standing();
        let mut count = 0;
        for number in 0..standing.len() {
            if goes_to(&standing[number], place) {
                count += 1;
            }
        }
        count
    }

    /// Closes all connections.
    pub fn clear(&mut self)
        ensures { AreFree (leavers_of self.new) }
    {
        let count = self.leavers.standing().len();
        for number in 0..count {
            let _leaver = self.leavers.take(number);
        }
    }

    /// Notes what the connection of a number may be ready for, as the system reports it.
    pub fn note(&mut self, number: usize, ready: Readiness)
        ensures stays { Stays S.remaining S.contents (slot_at (leavers_of self.old) number)
            (slot_at (leavers_of self.new) number) }
        ensures reported { HasNotedLeaver ready (slot_at (leavers_of self.old) number)
            (slot_at (leavers_of self.new) number) }
        ensures others { OthersStay (leavers_of self.old) (leavers_of self.new) number }
    {
        if let Some(taken) = self.leavers.take(number) {
            let mut leaver = taken;
            leaver.channel.note(ready);
            self.leavers.put(number, leaver);
        }
    }

    /// Serves each connection once: writes, or reads a block and drops it. Returns how many were closed, because their
    /// last octets were written, a call failed or their time is over.
    pub fn serve(&mut self, now: &Now) -> usize
        ensures each { (number : ℕ) → StaysOrCloses S.remaining S.contents now.now.tick
            (slot_at (leavers_of self.old) number) (slot_at (leavers_of self.new) number) }
        ensures count { result + count_of (leavers_of self.new) ≡ count_of (leavers_of self.old) }
    {
        let mut closed = 0;
        let count = self.leavers.standing().len();
        for number in 0..count {
            if self.serve_one(number, now) {
                closed += 1;
            }
        }
        closed
    }

    /// Serves the connection of a number, if there is one. Returns whether it was closed.
    fn serve_one(&mut self, number: usize, now: &Now) -> bool
        ensures stays { StaysOrCloses S.remaining S.contents now.now.tick (slot_at (leavers_of self.old) number)
            (slot_at (leavers_of self.new) number) }
        ensures others { OthersStay (leavers_of self.old) (leavers_of self.new) number }
        ensures count { (if result then 1 else 0) + count_of (leavers_of self.new) ≡ count_of (leavers_of self.old) }
    {
        if !holds(self.leavers.standing(), number) {
            return false;
        }
        let Some(taken) = self.leavers.take(number) else {
            return false;
        };
        let mut leaver = taken;
        if leaver.serve(now) {
            self.leavers.put(number, leaver);
            return false;
        }
        true
    }

    /// Returns whether something can be done for one of them at once.
    pub fn is_ready(&self) -> bool {
        for slot in self.leavers.standing() {
            if let Some(leaver) = slot {
                if leaver.channel.is_ready(!leaver.is_shut) {
                    return true;
                }
            }
        }
        false
    }

    /// Returns the tick at which the next of them is closed, or `otherwise` if that is earlier.
    pub fn next_deadline(&self, otherwise: u64) -> u64
        ensures within { result ≤ otherwise }
        ensures next { IsEarliest closes_at otherwise (leavers_of self.now) result }
    {
        let mut next = otherwise;
        for slot in self.leavers.standing() {
            if let Some(leaver) = slot {
                next = next.min(leaver.deadline);
            }
        }
        next
    }
}

impl<S: Stream> Leaver<S> {
    /// Writes octets, and shuts the write side down after the last of them.
    fn write(&mut self, now: &Now)
        ensures one { IsOneOf S.remaining S.contents self.old.place (whole_output S.remaining S.contents self.old)
            self.new }
        ensures shut { self.old.is_shut ≡ false → self.new.is_shut ≡ true
            → HasGone self.new }
        ensures silent { self.old.is_shut ≡ true → self.new ≡ self.old }
        ensures time { (self.new.deadline ≡ self.old.deadline)
            ⊎ (HasGone self.new × (self.new.deadline ≡ read_until now.now.tick)) }
    {
        if self.is_shut {
            return;
        }
        let count = self.channel.write(self.outbox.as_slice());
        if count <= self.outbox.as_slice().len() {
            self.outbox.wrote(count);
        }
        if self.has_gone() {
            self.channel.shut_down();
            self.is_shut = true;
            self.deadline = now.after(DRAIN_SECONDS);
        }
    }

    /// Writes octets, or reads a block and drops it. Returns whether the connection stays open.
    fn serve(&mut self, now: &Now) -> bool
        ensures goes_on { GoesOn S.remaining S.contents now.now.tick self.old self.new }
        ensures over { result ≡ false → IsOver now.now.tick self.new }
        ensures time { result ≡ true → now.now.tick < self.new.deadline }
    {
        self.write(now);
        if self.is_shut {
            self.drain();
        }
        !self.is_over(now.tick)
    }

    fn drain(&mut self)
        ensures one { IsOneOf S.remaining S.contents self.old.place (whole_output S.remaining S.contents self.old)
            self.new }
        ensures outbox { self.new.outbox ≡ self.old.outbox }
        ensures held { held_of self.new.channel ≡ held_of self.old.channel }
        ensures deadline { self.new.deadline ≡ self.old.deadline }
    {
        self.channel.fill();
        let count = self.channel.piece().len();
        self.channel.used(count);
    }

    /// Returns whether nothing is left to do: the connection is broken, all is written and read, or its time is over.
    fn is_over(&self, tick: u64) -> bool
        ensures over { result ≡ true → IsOver tick self.now }
        ensures time { result ≡ false → tick < self.now.deadline }
    {
        if self.deadline <= tick {
            return true;
        }
        match self.channel.end() {
            Some(End::Broken) => true,
            Some(End::Input) => self.has_gone(),
            None => false,
        }
    }

    /// Returns whether its last octets are written, and nothing is held back.
    fn has_gone(&self) -> bool
        ensures { IsTrue result ↔ HasGone self.now }
    {
        self.outbox.is_empty() && !self.channel.is_holding()
    }
}
