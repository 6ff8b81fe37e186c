//! The connection to a next hop after its attempt has heard replies.
ghost use Rattle.std.specs.Prelude.{◌≡◌, ◌++◌, ℕ, IfOk, List, Ok, OnOk, Some, drop, false, take};
ghost use Rattle.std.specs.Io.KnownBytes.{Keeps};
ghost use Rattle.relay_connections.specs.Channel.{unread_of};
ghost use Rattle.relay_connections.specs.Served.{LeavesClients};
ghost use Rattle.relay_next_hops.specs.Deliveries.{KeepsDelivery, left_of};
ghost use Rattle.relay_next_hops.specs.Hearing.{HearsOwn, IsAnswered, IsCourse};
ghost use Rattle.relay_next_hops.specs.Sending.{sent_by};
ghost use Rattle.relay_next_hops.specs.Telling.{HasTold, used_of};
ghost use Rattle.relay_next_hops.specs.Waiting.{IdlesFrom, IsInTime, writes_to};

use crate::delivery::Course;
use crate::hearing::{has_ended, was_left};
use crate::hop::Hop;
use relay_connections::{Now, Stream};
use relay_disk::Disk;
use relay_files::Fault;
use relay_loop::{Answered, Relay};
use relay_node::{NodeFault, Noted};

impl<S: Stream> Hop<S> {
    /// Takes the result of the octets that its attempt has heard, or has the attempt hear them in a call of its own if
    /// they were left unread.
    pub(crate) fn take_answer<D: Disk>(
        &mut self,
        relay: &mut Relay<D>,
        attempt: usize,
        answer: Result<Answered, NodeFault>,
        noted: Option<Noted>,
        now: &Now,
    ) -> Result<Course, Fault>
        ensures delivery { KeepsDelivery self.old self.new }
        ensures uses { IfOk result (λ course. IsAnswered now.now.tick answer (Some self.old)
            (left_of course self.new)) }
        ensures in_time { result ≡ Ok Course.Stays → IsInTime now.now.tick self.new }
        ensures told { OnOk result ((used : List ℕ) → HasTold self.old used → (count : ℕ)
            × HasTold self.new (used ++ take count (unread_of self.old.channel))) }
        ensures leaves { OnOk result (LeavesClients D.honest D.words relay.old relay.new) }
    {
        if was_left(&answer) {
            self.hear_alone(relay, attempt, now)
        } else {
            Ok(self.answer(relay, attempt, answer, noted, now))
        }
    }

    /// Takes the result of the octets that its attempt has heard, and writes the commands that follow. If the attempt
    /// has ended, `noted` is the note of its outcome.
    fn answer<D: Disk>(
        &mut self,
        relay: &mut Relay<D>,
        attempt: usize,
        answered: Result<Answered, NodeFault>,
        noted: Option<Noted>,
        now: &Now,
    ) -> Course
        ensures delivery { KeepsDelivery self.old self.new }
        ensures attempt { self.new.attempt ≡ self.old.attempt }
        ensures hears { self.new.hears ≡ false }
        ensures course { IsCourse now.now.tick answered self.old self.new result }
        ensures in_time { result ≡ Course.Stays → IsInTime now.now.tick self.new }
        ensures waits { result ≡ Course.Stays → IdlesFrom now.now.tick (writes_to relay.new attempt) self.new }
        ensures sends { Keeps (sent_by S.remaining S.contents attempt relay.old self.old.channel)
            (sent_by S.remaining S.contents attempt relay.new self.new.channel) }
        ensures told { (used : List ℕ) → HasTold self.old used
            → HasTold self.new (used ++ take (used_of answered) (unread_of self.old.channel)) }
        ensures leaves { LeavesClients D.honest D.words relay.old relay.new }
    {
        self.hears = false;
        // After a fault the attempt is gone, and its message stays due.
        let Ok(answered) = answered else {
            return Course::Void;
        };
        let Answered {
            used,
            change: _,
            last,
        } = answered;
        self.channel.used(used);
        if let Some(outbox) = last {
            self.phase = self.phase.after(outbox.as_slice());
            return Course::Ended(outbox, noted);
        }
        self.phase = self.phase.after(relay.to_hop(attempt));
        self.wait_on(relay, attempt, now);
        self.flush(relay, attempt, now);
        self.unless_late(Course::Stays, now)
    }

    /// Has its attempt hear what was read, in a call of its own.
    fn hear_alone<D: Disk>(
        &mut self,
        relay: &mut Relay<D>,
        attempt: usize,
        now: &Now,
    ) -> Result<Course, Fault>
        ensures delivery { KeepsDelivery self.old self.new }
        ensures attempt { self.new.attempt ≡ self.old.attempt }
        ensures used { IfOk result (λ course. course ≡ Course.Stays → (used : ℕ)
            × (unread_of self.new.channel ≡ drop used (unread_of self.old.channel))) }
        ensures heard { IfOk result (HearsOwn D.honest D.words now.now attempt relay.old relay.new self.old self.new) }
        ensures in_time { result ≡ Ok Course.Stays → IsInTime now.now.tick self.new }
        ensures told { OnOk result ((used : List ℕ) → HasTold self.old used → (count : ℕ)
            × HasTold self.new (used ++ take count (unread_of self.old.channel))) }
        ensures leaves { OnOk result (LeavesClients D.honest D.words relay.old relay.new) }
    {
        let answered = relay.reply(attempt, self.channel.piece(), now.moment);
        if answered.as_ref().err() == Some(&NodeFault::Stopped) {
            return Err(Fault::Device);
        }
        let noted = if has_ended(&answered) {
            relay.take_noted()
        } else {
            None
        };
        Ok(self.answer(relay, attempt, answered, noted, now))
    }
}
