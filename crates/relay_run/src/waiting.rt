//! For what a relay waits, and for how long.
ghost use Rattle.std.specs.Prelude.{◌≡◌, ◌≤◌, ◌-◌, ℕ, List, true};
ghost use Rattle.relay_book.specs.declared.change.Change.{Change};
ghost use Rattle.relay_connections.specs.Carried.{Setting};
ghost use Rattle.relay_connections.specs.Served.{AreServed};
ghost use Rattle.relay_connections.specs.Readiness.{IsLeftClient, clients_of};
ghost use Rattle.relay_next_hops.specs.Lanes.{next_due_of};
ghost use Rattle.relay_next_hops.specs.Readiness.{IsLeftHop, hops_of};
ghost use Rattle.relay_run.specs.Hops.{HopsMatch};
ghost use Rattle.relay_run.specs.Room.{next_look};
ghost use Rattle.relay_run.specs.Steering.{MayBegin};
ghost use Rattle.relay_run.specs.declared.waiting.TheConstants.{LONGEST_WAIT};

use crate::acceptor::Acceptor;
use crate::shell::Shell;
use relay_connections::laws::noted_are_served;
use relay_connections::{Arrivals, Leaving, Now, Readiness, Stream};
use relay_disk::Disk;
use relay_next_hops::NextHops;

/// The longest wait, in milliseconds.
const LONGEST_WAIT: u64 = 60_000;

impl<S: Stream + Drop, D: Disk + Drop, F: Disk + Drop> Shell<S, D, F> {
    /// Notes what the connection of a token, or the listener, may be ready for, as the system reports it. Clients are
    /// served as before.
    pub fn note(&mut self, token: usize, ready: Readiness)
        ensures served { (changes : List Change) (setting : Setting)
            → AreServed D.honest D.words S.remaining S.contents changes setting (clients_of self.old.clients)
            self.old.relay → AreServed D.honest D.words S.remaining S.contents changes setting
            (clients_of self.new.clients) self.new.relay }
        ensures relay { self.new.relay ≡ self.old.relay }
        ensures matches { HopsMatch self.old.next_hops self.old.relay
            → HopsMatch self.new.next_hops self.new.relay }
    {
        noted_are_served::<S, D>();
        if token < NextHops::FIRST_TOKEN {
            self.clients.note(token, ready);
        } else if token < Leaving::FIRST_TOKEN {
            self.next_hops.note(token - NextHops::FIRST_TOKEN, ready);
        } else if token < Arrivals::FIRST_TOKEN {
            self.leaving.note(token - Leaving::FIRST_TOKEN, ready);
        } else if token < Acceptor::TOKEN {
            let number = token - Arrivals::FIRST_TOKEN;
            self.acceptor.note_arrival(number, ready);
        } else {
            self.acceptor.note();
        }
    }

    /// Returns whether something can be done at once.
    pub(crate) fn is_ready(&self, now: &Now) -> bool
        ensures client { (number : ℕ) → IsLeftClient (clients_of self.now.clients) self.now.relay number
            → result ≡ true }
        ensures hop { (number : ℕ) → IsLeftHop (hops_of self.now.next_hops) self.now.relay number
            → result ≡ true }
    {
        if self.clients.is_ready(&self.relay) {
            return true;
        }
        if self.next_hops.is_ready(&self.relay, self.may_start()) {
            return true;
        }
        if self.leaving.is_ready() || self.steering.socket.is_ready(now) {
            return true;
        }
        self.acceptor.is_ready(now) && !self.steering.is_reloading()
    }

    /// Returns the tick at which the acceptor has something to do, or `otherwise` if that is earlier. It has nothing to
    /// do while a reload waits.
    fn next_arrival(&self, otherwise: u64) -> u64
        ensures { result ≤ otherwise }
    {
        if self.steering.is_reloading() {
            otherwise
        } else {
            self.acceptor.next_deadline(otherwise)
        }
    }

    /// Returns how many milliseconds to wait for readiness, at most a minute: 0 while a connection has octets that
    /// weren't read to the end; and no longer than until the node's next work is due, if attempts may begin, and until
    /// the room is looked at again, or a drain or a reload has no time left.
    pub fn wait(&self, now: &Now) -> u64
        ensures client { (number : ℕ) → IsLeftClient (clients_of self.now.clients) self.now.relay number
            → result ≡ 0 }
        ensures hop { (number : ℕ) → IsLeftHop (hops_of self.now.next_hops) self.now.relay number
            → result ≡ 0 }
        ensures due { MayBegin self.now.steering self.now.room self.now.relay.node.records.spool.size
            → result ≤ next_due_of self.now.next_hops - now.now.tick }
        ensures look { result ≤ next_look self.now.room.standing self.now.room - now.now.tick }
        ensures longest { result ≤ LONGEST_WAIT }
    {
        if self.is_ready(now) {
            return 0;
        }
        let mut next = now.tick.saturating_add(LONGEST_WAIT);
        next = self.next_arrival(next);
        next = self.clients.next_deadline(next);
        next = self.leaving.next_deadline(next);
        next = self.tidying.next_deadline(next);
        next = self.room.next_deadline(next);
        next = self.steering.next_deadline(next);
        next = self.next_hops.next_deadline(self.may_start(), next);
        next.saturating_sub(now.tick)
    }
}
