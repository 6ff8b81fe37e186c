//! Mail of a session that stands outside of the node.
ghost use Rattle.std.specs.Prelude.{◌≡◌, ◌⊎◌, ◌<◌, ◌^◌, ℕ, List, Err, IfErr, IfOk, IsTrue};
ghost use Rattle.std.specs.Option.{option_copied};
ghost use Rattle.relay_attempts.specs.Attempts.{Serves};
ghost use Rattle.relay_book.specs.Book.{Rise};
ghost use Rattle.relay_book.specs.Queue.{Queue, message_of};
ghost use Rattle.relay_book.specs.declared.change.Change.{Change};
ghost use Rattle.relay_node.specs.Acceptance.{IsAcceptOf, IsStorable, acceptance_by};
ghost use Rattle.relay_node.specs.Admission.{Admits, CutsOffer, HasAnswered, RefusesToAdmit, StandsForOrAccepts};
ghost use Rattle.relay_node.specs.Admission.{TakesAnswer};
ghost use Rattle.relay_node.specs.Node.{RefusesToHear};
ghost use Rattle.relay_records.specs.Records.{Keeps};
ghost use Rattle.relay_server.specs.Session.{offered};
ghost use Rattle.relay_spool.specs.Pair.{HasBodies};
ghost use Rattle.relay_spool.specs.Spool.{AtEachMoment};

use crate::accept::accept_of;
use crate::intake::Intake;
use crate::node::Node;
use relay_attempts::Attempts;
use relay_book::{Accept, Message};
use relay_disk::Disk;
use relay_records::{NodeFault, Records};
use relay_routes::Config;
use relay_server::{Answer, Offer};
use relay_trace::Moment;
use std::alloc::{AllocError, Global};

impl<D: Disk> Node<D> {
    /// Takes an offer of a session that stands outside of the node, whose client is at this address; what
    /// [`Node::receive`] does to the records at that offer, this does. The answer `Queued` is handed out only
    /// after the append of its change: from then on every stop leaves it. The answer is `Full` where its
    /// record would bring the spool past the configured limit. The first fault in this order is answered:
    /// `Stopped`, where the node was; `NoMemory`; `Full`, where changes have no numbers any more; and
    /// `Stopped`, where the device fails. But for that last, a fault leaves all as it was.
    pub fn admit(
        &mut self,
        offer: &Offer<'_>,
        peer: [u8; 4],
        now: Moment,
    ) -> Result<Answer, NodeFault>
        requires { IsStorable (offered offer.now) }
        ensures admits { (changes : List Change) → Keeps D.honest D.words self.old.records changes
            → IfOk result (Admits D.honest D.words self.old.config changes peer now (offered offer.now)
            self.old.records self.new.records) }
        ensures cut { (changes : List Change) → Keeps D.honest D.words self.old.records changes
            → result ≡ Err NodeFault.Stopped
            → CutsOffer D.honest D.words self.old.config changes peer now (offered offer.now)
            self.old.records self.new.records }
        // A stop at any time of the call leaves the changes as they were or with the offer's accept.
        ensures stop { (changes : List Change) → Keeps D.honest D.words self.old.records changes → D.honest
            → AtEachMoment D.words self.old.records.spool.disk self.new.records.spool.disk
            (HasBodies (StandsForOrAccepts D.honest D.words self.old.config changes peer now
            (offered offer.now) self.old.records)) }
        ensures answers { IfOk result (HasAnswered D.words self.old.records self.new.records) }
        ensures rest { (self.new.config ≡ self.old.config) × (self.new.seats ≡ self.old.seats)
            × (self.new.attempts ≡ self.old.attempts) }
        ensures refused { RefusesToAdmit D.words self.old self.new result }
    {
        if !self.records.is_live() {
            return Err(NodeFault::Stopped);
        }
        self.attempts.reserve()?;
        self.records.numbers_rise();
        let answer = take_offer(
            self.alloc,
            &self.config,
            &mut self.records,
            offer,
            peer,
            now,
        )?;
        note_answer(&mut self.attempts, &self.config, &self.records, answer);
        Ok(answer)
    }

    /// Returns the accept that [`Node::admit`] would add of an offer, under the next number. Fails if memory runs out.
    pub fn accept_next(
        &self,
        offer: &Offer<'_>,
        peer: [u8; 4],
        now: Moment,
    ) -> Result<Accept, AllocError>
        ensures { IfOk result (IsAcceptOf
            (acceptance_by self.now.config peer self.now.records.queue.next now) (offered offer.now)) }
    {
        accept_of(
            self.alloc,
            &self.config,
            peer,
            self.records.next_number(),
            now,
            offer,
        )
    }

    /// Returns the message of a number, while a place of it is held, live or stopped. Allocates nothing.
    pub fn message(&self, number: u64) -> Option<&Message>
        ensures { option_copied result ≡ message_of self.now.records.queue.messages number }
    {
        self.records.message(number)
    }
}

/// Takes an offer into the records, if there is room for it.
fn take_offer<D: Disk>(
    alloc: Global,
    config: &Config,
    records: &mut Records<D>,
    offer: &Offer<'_>,
    peer: [u8; 4],
    now: Moment,
) -> Result<Answer, NodeFault>
    requires live { IsTrue records.old.spool.live }
    requires stored { IsStorable (offered offer.now) }
    ensures admits { (changes : List Change) → Keeps D.honest D.words records.old changes
        → IfOk result (Admits D.honest D.words config.now changes peer now (offered offer.now)
        records.old records.new) }
    ensures cut { (changes : List Change) → Keeps D.honest D.words records.old changes
        → result ≡ Err NodeFault.Stopped
        → CutsOffer D.honest D.words config.now changes peer now (offered offer.now)
        records.old records.new }
    ensures stop { (changes : List Change) → Keeps D.honest D.words records.old changes → D.honest
        → AtEachMoment D.words records.old.spool.disk records.new.spool.disk
        (HasBodies (StandsForOrAccepts D.honest D.words config.now changes peer now
        (offered offer.now) records.old)) }
    ensures answers { IfOk result (HasAnswered D.words records.old records.new) }
    ensures refused { IfErr result (RefusesToHear D.words records.old records.new) }
    ensures full { 2 ^ 62 < records.old.queue.next
        → (result ≡ Err NodeFault.NoMemory) ⊎ (result ≡ Err NodeFault.Full) }
{
    let intake = Intake {
        config,
        peer,
        number: records.next_number(),
        size: records.size(),
        at: now,
    };
    match intake.weigh(alloc, offer)? {
        None => Ok(Answer::Full),
        Some(taken) => match records.add(alloc, taken.change, taken.octets, 0) {
            Ok(number) => Ok(Answer::Queued(number)),
            Err(fault) => Err(fault),
        },
    }
}

/// Tells the attempts of the mail that an answer has accepted, if it accepted any. Allocates nothing.
pub(crate) fn note_answer<D: Disk>(
    attempts: &mut Attempts,
    config: &Config,
    records: &Records<D>,
    answer: Answer,
)
    requires { 0 < attempts.old.room }
    ensures serves { (host : List ℕ) (queue : Queue) → Rise 0 queue.next queue.messages
        → TakesAnswer queue answer records.now.queue
        → Serves host config.now.routes attempts.old queue
        → Serves host config.now.routes attempts.new records.now.queue }
    ensures runs { attempts.new.runs ≡ attempts.old.runs }
{
    match answer {
        Answer::Queued(number) => attempts.accepted(&config.routes, records, number),
        Answer::Full => {}
    }
}
