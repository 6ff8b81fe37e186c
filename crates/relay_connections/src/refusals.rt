//! Which refused clients are logged: at most one line per address and minute, with the number of refusals.
ghost use Rattle.std.specs.Prelude.{◌≡◌, ◌≢◌, ◌≤◌, ◌<◌, ℕ, None, Some, IfOk, MatchOption, false, true};
ghost use Rattle.std.specs.Prelude.{length, slice_set};
ghost use Rattle.std.specs.Net.Addr.{ipv4_octets};
ghost use Rattle.std.specs.Net.Socket.{v4_ip};
ghost use Rattle.relay_slots.specs.Slots.{AreFree, IsFull, slot_at};
ghost use Rattle.relay_connections.specs.Refusals.{Counts, IsUnknown, again, is_of, left_after};
ghost use Rattle.relay_connections.specs.Refusals.{over_at, tallies_of, told};
ghost use Rattle.relay_connections.specs.Table.{is_such};

use crate::clocks::Now;
use crate::table::{Table, turned};
use relay_log::{Log, Refusal};
use relay_slots::SLOT_COUNT;
use std::alloc::{AllocError, Global};
use std::net::SocketAddrV4;

/// How many seconds after a line no other line is written for its address.
const SILENT_SECONDS: u64 = 60;

/// The refusals of an address that aren't logged yet.
#[derive(Clone, Copy)]
pub(crate) struct Tally {
    /// The client of that address that was refused last.
    peer: SocketAddrV4,
    /// How many were refused since the last line for the address.
    count: u64,
    /// The tick before which no line is written for it.
    until: u64,
}

impl Tally {
    /// Returns the tally of an address for which a line was just written.
    fn told(peer: SocketAddrV4, now: &Now) -> Self
        ensures { result ≡ told peer now.now.tick }
    {
        Tally {
            peer,
            count: 0,
            until: now.after(SILENT_SECONDS),
        }
    }

    /// Returns the tally after one more refusal.
    fn again(self, peer: SocketAddrV4) -> Self
        ensures { result ≡ again peer self }
    {
        Tally {
            peer,
            count: self.count.saturating_add(1),
            until: self.until,
        }
    }

    /// Logs the refusals of the tally, which have this reason.
    fn tell(&self, why: Refusal, log: &mut Log<'_, Vec<u8>>) {
        if 0 < self.count {
            log.refused(self.peer, why, self.count);
        }
    }
}

/// Returns whether the tally in a slot is of this address.
fn is_of(slot: &Option<Tally>, address: [u8; 4]) -> bool
    ensures { result ≡ is_such (is_of address) slot.now }
{
    match slot {
        Some(tally) => tally.peer.ip().octets() == address,
        None => false,
    }
}

/// Clients that were refused for one reason, by address, for up to 64 addresses: when the last line was written, and
/// how many were refused since. Each refusal is logged once, by a line of its own or in the number of a later line.
pub struct Refusals {
    why: Refusal,
    tallies: Table<Tally>,
    /// The slot that was last given to another address.
    dropped: usize,
}

// Written out, so that the proof of a caller that drops them stops at this function.
impl Drop for Refusals {
    fn drop(self) {
        let Refusals {
            why: _,
            tallies: _tallies,
            dropped: _,
        } = self;
    }
}

impl Refusals {
    /// Returns an empty table of clients that are refused for this reason. Fails if memory runs out.
    pub fn new(alloc: Global, why: Refusal) -> Result<Self, AllocError>
        ensures { IfOk result (λ refusals. AreFree (tallies_of refusals)) }
    {
        Ok(Refusals {
            why,
            tallies: Table::new(alloc)?,
            dropped: 0,
        })
    }

    /// Notes that a client was refused; logs it at once if there was no line for its address within a minute.
    pub fn note(&mut self, peer: SocketAddrV4, now: &Now, log: &mut Log<'_, Vec<u8>>) {
        self.tell(now, log);
        if self.count(peer) {
            return;
        }
        let (number, other) = self.make_room();
        if let Some(other) = other {
            other.tell(self.why, log);
        }
        self.tallies.put(number, Tally::told(peer, now));
        log.refused(peer, self.why, 1);
    }

    /// Logs the refusals of the addresses that had no line for a minute.
    pub fn tell(&mut self, now: &Now, log: &mut Log<'_, Vec<u8>>) {
        for number in 0..self.tallies.standing().len() {
            if let Some(tally) = self.take_over(number, now) {
                tally.tell(self.why, log);
            }
        }
    }

    /// Returns the tick at which the next line is due, or `otherwise` if that is earlier.
    pub fn next_deadline(&self, otherwise: u64) -> u64
        ensures { result ≤ otherwise }
    {
        let mut next = otherwise;
        for slot in self.tallies.standing() {
            if let Some(tally) = slot {
                next = next.min(tally.until);
            }
        }
        next
    }

    /// Counts a client's refusal if its address has a tally. Returns whether it has.
    fn count(&mut self, peer: SocketAddrV4) -> bool
        ensures counted { result ≡ true → Counts peer (tallies_of self.old) (tallies_of self.new) }
        ensures unknown { result ≡ false → IsUnknown (ipv4_octets (v4_ip peer)) (tallies_of self.old) }
        ensures same { result ≡ false → tallies_of self.new ≡ tallies_of self.old }
    {
        let Some(number) = self.number_of(peer.ip().octets()) else {
            return false;
        };
        if let Some(tally) = self.tallies.take(number) {
            self.tallies.put(number, tally.again(peer));
        }
        true
    }

    /// Returns the slot of an address, if it has a tally.
    fn number_of(&self, address: [u8; 4]) -> Option<usize>
        ensures found { MatchOption result (IsUnknown address (tallies_of self.now))
            (λ number. is_such (is_of address) (slot_at (tallies_of self.now) number) ≡ true) }
        ensures within { MatchOption result (Unit {0}) (λ number. number < length (tallies_of self.now)) }
    {
        let standing = self.tallies.standing();
        for number in 0..standing.len() {
            if is_of(&standing[number], address) {
                return Some(number);
            }
        }
        None
    }

    /// Returns a slot for one more address. If all 64 are taken, takes the next one in turn, and returns what isn't
    /// logged of its address.
    fn make_room(&mut self) -> (usize, Option<Tally>)
        ensures taken { result.1 ≡ slot_at (tallies_of self.old) result.0 }
        ensures rest { tallies_of self.new ≡ slice_set (tallies_of self.old) result.0 None }
        ensures needed { result.1 ≢ None → IsFull (tallies_of self.old) }
        ensures within { result.0 < length (tallies_of self.old) }
    {
        let number = match self.tallies.free() {
            Some(number) => number,
            None => {
                self.dropped = turned(self.dropped, 1, SLOT_COUNT);
                self.dropped
            }
        };
        (number, self.tallies.take(number))
    }

    /// Takes what isn't logged of the address in a slot, if a line is due for it.
    fn take_over(&mut self, number: usize, now: &Now) -> Option<Tally>
        ensures taken { result ≡ over_at now.now.tick (slot_at (tallies_of self.old) number) }
        ensures left { tallies_of self.new ≡ left_after now.now.tick (tallies_of self.old) number }
    {
        let tally = match self.tallies.standing().get(number) {
            Some(Some(tally)) if tally.until <= now.tick => *tally,
            _ => return None,
        };
        let _ = self.tallies.take(number);
        if 0 < tally.count {
            self.tallies.put(number, Tally::told(tally.peer, now));
        }
        Some(tally)
    }
}
