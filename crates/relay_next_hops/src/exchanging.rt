//! Octets to a next hop, and from it, while its attempt runs.
ghost use Rattle.std.specs.Prelude.{◌≡◌, ◌≢◌, ℕ, List};
ghost use Rattle.std.specs.Io.KnownBytes.{Keeps};
ghost use Rattle.relay_connections.specs.Channel.{KeepsOutput, unread_of};
ghost use Rattle.relay_connections.specs.Served.{LeavesClients};
ghost use Rattle.relay_next_hops.specs.Deliveries.{KeepsDelivery};
ghost use Rattle.relay_next_hops.specs.Sending.{sent_by};
ghost use Rattle.relay_next_hops.specs.Telling.{HasTold};
ghost use Rattle.relay_next_hops.specs.Waiting.{IdlesAnew, WaitsAfterRead, WaitsAfterWrite, writes_to};

use crate::delivery::Course;
use crate::hop::{ANSWER_SECONDS, Hop};
use relay_connections::{End, Now, Stream};
use relay_disk::Disk;
use relay_log::Loss;
use relay_loop::Relay;

/// The most writes on a connection in one turn, if each takes a part only.
const WRITE_LIMIT: usize = 16;

impl<S: Stream> Hop<S> {
    /// Writes, or, if nothing is unwritten, reads what its attempt may hear.
    pub(crate) fn exchange<D: Disk>(
        &mut self,
        relay: &mut Relay<D>,
        attempt: usize,
        now: &Now,
    ) -> Course
        ensures delivery { KeepsDelivery self.old self.new }
        ensures attempt { self.new.attempt ≡ self.old.attempt }
        ensures told { (used : List ℕ) → HasTold self.old used → HasTold self.new used }
        ensures sends { Keeps (sent_by S.remaining S.contents attempt relay.old self.old.channel)
            (sent_by S.remaining S.contents attempt relay.new self.new.channel) }
        ensures turned { result ≢ Course.TurnedAway }
        ensures leaves { LeavesClients D.honest D.words relay.old relay.new }
    {
        self.flush(relay, attempt, now);
        if self.channel.end() == Some(End::Broken) {
            return Course::Lost(Loss::Cut);
        }
        if !relay.to_hop(attempt).is_empty() {
            return Course::Stays;
        }
        self.read(relay, attempt, now);
        if !self.channel.piece().is_empty() {
            self.hears = true;
            return Course::Stays;
        }
        match self.channel.end() {
            Some(_) => Course::Lost(Loss::Cut),
            None => Course::Stays,
        }
    }

    /// Reads octets, if all that were read are used, and shows them to the log and the page.
    fn read<D: Disk>(&mut self, relay: &Relay<D>, attempt: usize, now: &Now)
        ensures delivery { KeepsDelivery self.old self.new }
        ensures attempt { self.new.attempt ≡ self.old.attempt }
        ensures told { (used : List ℕ) → HasTold self.old used → HasTold self.new used }
        ensures output { KeepsOutput S.remaining S.contents self.old.channel self.new.channel }
        ensures waits { WaitsAfterRead now.now.tick (writes_to relay.now attempt) self.old self.new }
    {
        if !self.channel.fill() {
            return;
        }
        self.has_spoken = true;
        self.wait_on(relay, attempt, now);
        self.talk.hear(self.channel.piece());
        self.heard.hear(self.channel.piece());
    }

    /// Renews the deadline without an octet, by what it waits for now.
    pub(crate) fn wait_on<D: Disk>(&mut self, relay: &Relay<D>, attempt: usize, now: &Now)
        ensures delivery { KeepsDelivery self.old self.new }
        ensures attempt { self.new.attempt ≡ self.old.attempt }
        ensures channel { (self.new.channel ≡ self.old.channel) × (self.new.hears ≡ self.old.hears) }
        ensures talk { self.new.talk ≡ self.old.talk }
        ensures waits { IdlesAnew now.now.tick (writes_to relay.now attempt) self.old self.new }
    {
        let writes = !relay.to_hop(attempt).is_empty();
        self.idle_deadline = now.after(self.phase.seconds(writes));
    }

    /// Writes as many unwritten octets as the next hop takes at once.
    pub(crate) fn flush<D: Disk>(&mut self, relay: &mut Relay<D>, attempt: usize, now: &Now)
        ensures delivery { KeepsDelivery self.old self.new }
        ensures attempt { self.new.attempt ≡ self.old.attempt }
        ensures unread { unread_of self.new.channel ≡ unread_of self.old.channel }
        ensures hears { self.new.hears ≡ self.old.hears }
        ensures talk { self.new.talk ≡ self.old.talk }
        ensures sends { Keeps (sent_by S.remaining S.contents attempt relay.old self.old.channel)
            (sent_by S.remaining S.contents attempt relay.new self.new.channel) }
        ensures waits { WaitsAfterWrite now.now.tick attempt relay.old relay.new self.old self.new }
        ensures leaves { LeavesClients D.honest D.words relay.old relay.new }
    {
        for _ in 0..WRITE_LIMIT {
            let count = self.channel.write(relay.to_hop(attempt));
            if count == 0 || relay.to_hop(attempt).len() < count {
                return;
            }
            relay.wrote_to_hop(attempt, count);
            self.wait_on(relay, attempt, now);
            self.answer_deadline = now.after(ANSWER_SECONDS);
        }
    }
}
