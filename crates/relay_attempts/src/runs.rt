//! The running attempts.
ghost use Rattle.std.specs.Prelude.{◌≡◌, ◌≢◌, ◌<◌, ◌≤◌, ◌^◌, ◌++◌, ℕ, List, None, Some, IfOk, length, take};
ghost use Rattle.relay_attempts.specs.Outcomes.{outcome_of, rulings_of};
ghost use Rattle.relay_attempts.specs.Runs.{is_run_for, is_running};
ghost use Rattle.relay_book.specs.Queue.{message_of};
ghost use Rattle.relay_book.specs.declared.message.Message.{Message};
ghost use Rattle.relay_envelope.specs.HostName.{IsHostName};
ghost use Rattle.relay_client.specs.Attempt.{Follows, FollowsOn, Turns};

use relay_book::{Outcome, Ruling, Rulings, Version};
use relay_client::{Attempt, Driven, MailObject, Verdicts};
use relay_disk::Disk;
use relay_octets::Octets;
use relay_records::Records;
use relay_routes::HostName;
use relay_slots::Slots;
use relay_trace::Moment;
use std::alloc::{AllocError, Global};

/// A running attempt.
pub(crate) struct Run {
    /// The number of its message.
    pub(crate) message: u64,
    /// The name of its hop.
    pub(crate) hop: HostName,
    /// The places that it is for, in order.
    pub(crate) places: Vec<u8>,
    /// The client's end of its connection.
    pub(crate) client: Attempt,
}

// Written out, so that the proof of a caller that drops an attempt stops at this function.
impl Drop for Run {
    fn drop(self) {
        let Run {
            message: _,
            hop: _hop,
            places: _places,
            client: _client,
        } = self;
    }
}

impl Run {
    /// Uses the next piece of what the server wrote. Fails if memory runs out.
    pub(crate) fn hear<D: Disk>(
        &mut self,
        records: &Records<D>,
        piece: &[u8],
    ) -> Result<Driven, AllocError>
        requires { message_of records.now.queue.messages self.old.message ≢ None }
        ensures same { (self.new.message ≡ self.old.message) × (self.new.hop ≡ self.old.hop)
            × (self.new.places ≡ self.old.places) }
        ensures follows { IfOk result (λ driven. (message : Message) (host places input output : List ℕ)
            → message_of records.now.queue.messages self.old.message ≡ Some message
            → Follows self.old.client host message.accept.envelope message.accept.stored_text places input
            output
            → FollowsOn self.new.client host message.accept.envelope message.accept.stored_text places
            (input ++ take driven.used piece.now) (output ++ driven.out.items) driven.verdicts) }
        ensures turns { IfOk result (λ driven. Turns self.old.client self.new.client driven (length piece.now)) }
        ensures within { IfOk result (λ driven. driven.used ≤ length piece.now) }
    {
        let Some(message) = records.message(self.message) else {
            unreachable!()
        };
        let mail = MailObject {
            envelope: &message.accept.envelope,
            stored_text: message.accept.stored_text.as_slice(),
        };
        self.client.feed(&mail, piece)
    }

    /// States that the message of the attempt has at most 100 places. Does nothing.
    pub(crate) fn has_few_places<D: Disk>(&self, records: &Records<D>)
        ensures { (message : Message) → message_of records.now.queue.messages self.now.message ≡ Some message
            → length message.places ≤ 100 }
    {
        if let Some(message) = records.message(self.message) {
            let _count = message.places.as_slice().len();
        }
    }

    /// Returns the outcome of the attempt where it has ended with these verdicts; its report isn't written yet. Fails
    /// if memory runs out.
    pub(crate) fn outcome(
        self,
        alloc: Global,
        verdicts: Verdicts,
        now: Moment,
    ) -> Result<Outcome, AllocError>
        ensures outcome { IfOk result (λ outcome. outcome
            ≡ outcome_of self.message now self.hop (rulings_of self.places.items verdicts)) }
        ensures number { IfOk result (λ _. self.message < 2 ^ 64) }
        ensures hop { IfOk result (λ _. IsHostName self.hop) }
    {
        Ok(Outcome {
            version: Version::WithDelay,
            message: self.message,
            at: now,
            hop: Octets::from_slice(alloc, self.hop.as_slice())?,
            rulings: rulings_of(alloc, self.places.as_slice(), verdicts)?,
            report: Octets::new(Vec::new(alloc)),
        })
    }
}

/// Returns the places, each with its verdict. Fails if memory runs out.
fn rulings_of(alloc: Global, places: &[u8], verdicts: Verdicts) -> Result<Rulings, AllocError>
    ensures { IfOk result (λ rulings. rulings ≡ rulings_of places.now verdicts) }
{
    let mut rulings = Rulings::new(alloc);
    let mut index = 0;
    for verdict in verdicts.into_vec() {
        if index < places.len() {
            rulings.push(Ruling {
                place: places[index],
                verdict,
            })?;
            index += 1;
        }
    }
    Ok(rulings)
}

/// Returns whether an attempt for this message and hop is running.
pub(crate) fn is_running(runs: &Slots<Run>, message: u64, hop: &HostName) -> bool
    ensures { result ≡ is_running runs.now message hop.now }
{
    runs.as_slice()
        .iter()
        .any(|run| is_run_for(run, message, hop))
}

/// Returns whether an attempt is for this message and hop.
fn is_run_for(run: &Option<Run>, message: u64, hop: &HostName) -> bool
    ensures { result ≡ is_run_for message hop.now run.now }
{
    match run {
        Some(run) => run.message == message && run.hop.as_slice() == hop.as_slice(),
        None => false,
    }
}
