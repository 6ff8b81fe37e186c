//! The end of a relay that a postmaster has asked for: it begins nothing more, and stops once its attempts have ended.
ghost use Rattle.std.specs.Prelude.{◌≡◌, ◌↔◌, ◌+◌, ◌*◌, ◌^◌, ◌-◌, IsTrue, Some, min};
ghost use Rattle.relay_connections.specs.Welcome.{stopped};
ghost use Rattle.relay_run.specs.Steering.{HasDrained, joined_drain};

use crate::answers::done_with_count;
use crate::shell::Shell;
use mio::Registry;
use relay_connections::{Now, Stream};
use relay_disk::Disk;

/// How many milliseconds longer than the drain may take its caller is kept.
const ANSWER_TIME: u64 = 5_000;

/// The drain that was asked for.
#[derive(Clone, Copy)]
pub(crate) struct Drain {
    /// The tick at which the relay stops at the latest.
    pub(crate) until: u64,
    /// The number of the caller that has asked for it first.
    caller: usize,
}

impl Drain {
    /// Returns the drain after one that ends at this tick at the latest was asked for. Who asks again may shorten it.
    fn joined(until: u64, caller: usize, earlier: Option<Drain>) -> Self
        ensures { result ≡ joined_drain until caller earlier }
    {
        match earlier {
            Some(drain) => Drain {
                until: drain.until.min(until),
                caller: drain.caller,
            },
            None => Drain { until, caller },
        }
    }
}

impl<S: Stream + Drop, D: Disk + Drop, F: Disk + Drop> Shell<S, D, F> {
    /// Serves no more clients and begins no more attempts. Of several callers that ask for it, the first is answered at
    /// the end, and the others find the connection closed.
    pub(crate) fn begin_drain(&mut self, caller: usize, seconds: u16, now: &Now)
        ensures drain { self.new.steering.drain ≡ Some (joined_drain
            (min (now.now.tick + seconds * 1000) (2 ^ 64 - 1)) caller self.old.steering.drain) }
        ensures reload { self.new.steering.reload ≡ self.old.steering.reload }
        ensures clients { self.new.clients ≡ stopped self.old.clients }
        ensures relay { self.new.relay ≡ self.old.relay }
        ensures rest { (self.new.next_hops ≡ self.old.next_hops) × (self.new.leaving ≡ self.old.leaving)
            × (self.new.acceptor ≡ self.old.acceptor) × (self.new.room ≡ self.old.room) }
    {
        let until = now.after(u64::from(seconds));
        let steering = &mut self.steering;
        steering
            .socket
            .keep(caller, until.saturating_add(ANSWER_TIME));
        steering.drain = Some(Drain::joined(until, caller, steering.drain));
        self.clients.stop();
    }

    /// Returns whether the relay has drained: no attempt runs any more, or its time is over. Answers the caller that
    /// has asked for it then.
    pub(crate) fn has_drained(&mut self, registry: &Registry, now: &Now) -> bool
        ensures drained { IsTrue result ↔ HasDrained self.new.steering self.new.next_hops now.now.tick }
        ensures steering { (self.new.steering.drain ≡ self.old.steering.drain)
            × (self.new.steering.reload ≡ self.old.steering.reload) }
        ensures hops { self.new.next_hops ≡ self.old.next_hops }
        ensures rest { (self.new.relay ≡ self.old.relay) × (self.new.clients ≡ self.old.clients)
            × (self.new.leaving ≡ self.old.leaving) × (self.new.acceptor ≡ self.old.acceptor) }
    {
        let Some(drain) = self.steering.drain else {
            return false;
        };
        let running = self.next_hops.running();
        if 0 < running && now.tick < drain.until {
            return false;
        }
        let steering = &mut self.steering;
        let answer = done_with_count(steering.alloc, "stopping; attempts cut=", running as u64);
        steering.socket.answer(drain.caller, answer);
        let _ = steering.socket.serve(registry, now);
        true
    }
}
