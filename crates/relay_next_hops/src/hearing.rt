//! What attempts hear in a turn: the octets that were read from their own next hop.
ghost use Rattle.std.specs.Prelude.{◌≡◌, ◌≢◌, ◌↔◌, ◌<◌, ◌≤◌, ◌%◌, IfOk, IfSome, IsTrue, List, None, OnOk, map};
ghost use Rattle.std.specs.Prelude.{option_map};
ghost use Rattle.relay_routes.specs.Routes.{Route};
ghost use Rattle.relay_connections.specs.Served.{LeavesClients};
ghost use Rattle.relay_next_hops.specs.Counts.{CountsMatch};
ghost use Rattle.relay_next_hops.specs.Deliveries.{AreAimed};
ghost use Rattle.relay_next_hops.specs.Hearing.{AnswersEach, AnswersOne, WasLeft, hearing_at, order_of, replies_of};
ghost use Rattle.relay_next_hops.specs.Hearing.{reply_at, told_of};
ghost use Rattle.relay_next_hops.specs.Losses.{LosesOne};

use crate::delivery::Course;
use crate::hops::{Attended, Hops};
use crate::lanes::Lanes;
use relay_connections::{Leaving, Replied, Stream, Turn};
use relay_disk::Disk;
use relay_files::Fault;
use relay_log::{Log, Loss};
use relay_loop::{Answered, Relay, ReplyPiece};
use relay_node::{NodeFault, Noted};
use relay_slots::SLOT_COUNT;
use std::alloc::AllocError;

/// The most attempts that hear their replies in a call of their own in one turn, because the common call took no more.
/// Each may take two syncs.
const MOST_ALONE: usize = 4;

/// The result of a reply to an attempt.
#[derive(Drop)]
struct ReplyResult {
    attempt: usize,
    answer: Result<Answered, NodeFault>,
    /// The note of the attempt's outcome, if it has ended.
    noted: Option<Noted>,
}

impl<S: Stream + Drop> Hops<S> {
    /// Returns the number of the connection that is served first, of `count`: 0 if none comes after those that were
    /// served last.
    fn first_of(&self, count: usize) -> usize
        ensures first { self.now.first % 64 < count → result ≡ self.now.first % 64 }
        ensures over { count ≤ self.now.first % 64 → result ≡ 0 }
    {
        let first = self.first % SLOT_COUNT;
        if first < count { first } else { 0 }
    }

    /// Returns what was read from each connection whose attempt may hear it, the first one first. Fails if memory runs
    /// out.
    pub(crate) fn replies(&self) -> Result<Vec<ReplyPiece<'_>>, AllocError>
        ensures { IfOk result (λ replies. map told_of replies.items ≡ replies_of self.now) }
    {
        let mut replies = Vec::new(self.alloc);
        let count = self.hops.standing().len();
        let first = self.first_of(count);
        for step in 0..count {
            if let Some(reply) = self.reply_at((first + step) % count) {
                replies.push(reply)?;
            }
        }
        Ok(replies)
    }

    /// Returns what was read from the connection of a number, if its attempt may hear it.
    fn reply_at(&self, number: usize) -> Option<ReplyPiece<'_>>
        ensures { option_map told_of result ≡ reply_at self.now.hops number }
    {
        let Some(Some(hop)) = self.hops.standing().get(number) else {
            return None;
        };
        let attempt = hop.hearing()?;
        let octets = hop.channel.piece();
        Some(ReplyPiece { attempt, octets })
    }

    /// Takes the results of the replies, in the order in which they were handed over. Returns whether a connection was
    /// closed. If clients have brought so much that replies were left unread, a few are heard all the same, others each
    /// time. If there was no memory to hear them, the first one is lost.
    pub(crate) fn answer<D: Disk>(
        &mut self,
        replied: Option<Replied>,
        turn: Turn<'_, S::Registry>,
        relay: &mut Relay<D>,
        lanes: &mut Lanes,
        leaving: &mut Leaving<S>,
        log: &mut Log<'_, Vec<u8>>,
    ) -> Result<bool, Fault>
        ensures heard { IfSome replied (λ replied. OnOk result
            (AnswersEach turn.entry.now.now.tick (order_of self.old) replied.answered.items self.old.hops
            self.new.hops)) }
        ensures lost { replied ≡ None
            → IfOk result (LosesOne D.words turn.entry.now.now.moment self.old.hops relay.old relay.new) }
        ensures counts { CountsMatch self.old.hops lanes.old.paces
            → OnOk result (CountsMatch self.new.hops lanes.new.paces) }
        ensures aimed { (routes : List Route) → AreAimed routes self.old.hops → AreAimed routes self.new.hops }
        ensures leaves { OnOk result (LeavesClients D.honest D.words relay.old relay.new) }
    {
        let Some(Replied { answered, notes }) = replied else {
            return self.lose_one(turn, relay, lanes, leaving, log);
        };
        // The notes of the attempts' outcomes follow those of clients' mail.
        let others = notes.len().saturating_sub(count_ended(answered.as_slice()));
        let mut notes = notes.into_iter().skip(others);
        let mut answers = answered.into_iter();
        self.alone = MOST_ALONE;
        let mut closed = false;
        let count = self.hops.standing().len();
        let first = self.first_of(count);
        for step in 0..count {
            let number = (first + step) % count;
            let Some(attempt) = self.hearing_at(number) else {
                continue;
            };
            let Some(answer) = answers.next() else {
                return Ok(closed);
            };
            let noted = if has_ended(&answer) {
                notes.next()
            } else {
                None
            };
            let reply = ReplyResult {
                attempt,
                answer,
                noted,
            };
            closed |= !self.answer_one(number, reply, turn, relay, lanes, leaving, log)?;
        }
        Ok(closed)
    }

    /// Returns the attempt of a connection, if it may hear what was read.
    fn hearing_at(&self, number: usize) -> Option<usize>
        ensures { result ≡ hearing_at self.now.hops number }
    {
        match self.hops.standing().get(number) {
            Some(Some(hop)) => hop.hearing(),
            Some(None) => None,
            None => None,
        }
    }

    /// Takes the result of the reply to the attempt of a connection. If the reply was left unread, the attempt hears it
    /// in a call of its own, as long as more of these are allowed in this turn. Returns whether the connection stays.
    fn answer_one<D: Disk>(
        &mut self,
        number: usize,
        reply: ReplyResult,
        turn: Turn<'_, S::Registry>,
        relay: &mut Relay<D>,
        lanes: &mut Lanes,
        leaving: &mut Leaving<S>,
        log: &mut Log<'_, Vec<u8>>,
    ) -> Result<bool, Fault>
        ensures heard { OnOk result (AnswersOne turn.entry.now.now.tick number reply.answer self.old.hops
            self.new.hops) }
        ensures first { self.new.first ≡ self.old.first }
        ensures counts { CountsMatch self.old.hops lanes.old.paces
            → OnOk result (CountsMatch self.new.hops lanes.new.paces) }
        ensures aimed { (routes : List Route) → AreAimed routes self.old.hops → AreAimed routes self.new.hops }
        ensures leaves { OnOk result (LeavesClients D.honest D.words relay.old relay.new) }
    {
        let is_left = was_left(&reply.answer);
        if is_left && self.alone == 0 {
            return Ok(true);
        }
        let Some(taken) = self.hops.take(number) else {
            return Ok(true);
        };
        self.alone = self.alone.saturating_sub(usize::from(is_left));
        let mut hop = taken;
        let ReplyResult {
            attempt,
            answer,
            noted,
        } = reply;
        let course = hop.take_answer(relay, attempt, answer, noted, turn.now)?;
        let attended = Attended { hop, course };
        self.settle(number, attended, turn, relay, lanes, leaving, log)
    }

    /// Gives up the first connection whose attempt may hear something, because memory ran out. Returns whether there
    /// was one.
    fn lose_one<D: Disk>(
        &mut self,
        turn: Turn<'_, S::Registry>,
        relay: &mut Relay<D>,
        lanes: &mut Lanes,
        leaving: &mut Leaving<S>,
        log: &mut Log<'_, Vec<u8>>,
    ) -> Result<bool, Fault>
        ensures lost { IfOk result (LosesOne D.words turn.entry.now.now.moment self.old.hops relay.old relay.new) }
        ensures counts { CountsMatch self.old.hops lanes.old.paces
            → OnOk result (CountsMatch self.new.hops lanes.new.paces) }
        ensures aimed { (routes : List Route) → AreAimed routes self.old.hops → AreAimed routes self.new.hops }
        ensures leaves { OnOk result (LeavesClients D.honest D.words relay.old relay.new) }
    {
        let Some(number) = self.first_hearing() else {
            return Ok(false);
        };
        let Some(hop) = self.hops.take(number) else {
            return Ok(false);
        };
        let lost = Attended {
            hop,
            course: Course::Lost(Loss::Cut),
        };
        self.settle(number, lost, turn, relay, lanes, leaving, log)?;
        Ok(true)
    }

    /// Returns the number of the first connection whose attempt may hear something.
    fn first_hearing(&self) -> Option<usize>
        ensures { IfSome result (λ number. hearing_at self.now.hops number ≢ None) }
    {
        let count = self.hops.standing().len();
        let first = self.first_of(count);
        for step in 0..count {
            let number = (first + step) % count;
            if self.hearing_at(number).is_some() {
                return Some(number);
            }
        }
        None
    }
}

/// Returns how many attempts have ended with an outcome.
fn count_ended(answers: &[Result<Answered, NodeFault>]) -> usize {
    answers.iter().filter(|answer| has_ended(answer)).count()
}

/// Returns whether the attempt has ended with an outcome.
pub(crate) fn has_ended(answer: &Result<Answered, NodeFault>) -> bool {
    match answer {
        Ok(answered) => answered.change.is_some(),
        Err(_) => false,
    }
}

/// Returns whether the reply was left unread, because the call took no more.
pub(crate) fn was_left(answer: &Result<Answered, NodeFault>) -> bool
    ensures { IsTrue result ↔ WasLeft answer.now }
{
    match answer {
        Ok(answered) => answered.used == 0 && answered.last.is_none(),
        Err(_) => false,
    }
}
