//! Messages with recipients that have no next hop.
ghost use Rattle.std.specs.Prelude.{◌≡◌, List, Err, IfErr, IfOk};
ghost use Rattle.relay_report.specs.Report.{reporter_of};
ghost use Rattle.relay_attempts.specs.Attempts.{Serves};
ghost use Rattle.relay_attempts.specs.Outcomes.{AddsUnroutable, CutsUnroutable, EndsUnroutable, RefusesToGiveUp};
ghost use Rattle.relay_attempts.specs.Outcomes.{unroutable, unrouted};
ghost use Rattle.relay_book.specs.declared.change.Change.{Change};
ghost use Rattle.relay_records.specs.Records.{Keeps};

use crate::attempts::Attempts;
use crate::hops::{has_stranded, stranded_places};
use relay_book::{Message, Outcome, Ruling, Rulings, Verdict, Version};
use relay_disk::Disk;
use relay_octets::Octets;
use relay_records::{NodeFault, Records};
use relay_routes::{Config, Table};
use relay_trace::Moment;
use std::alloc::{AllocError, Global};

impl Attempts {
    /// Ends the held places of a message that have no hop (RFC 5321, section 6.1), all in one change with the report
    /// that is owed, whose number is the answer. The first fault in this order is answered: `Stopped`, `Unknown` where
    /// no such message is queued, `NotDue` where each held place has a hop; then `NoMemory` and `Full`, for lack of
    /// memory or of room. Nothing is changed then; the attempts go on at every answer.
    pub fn give_up_unroutable<D: Disk>(
        &mut self,
        alloc: Global,
        config: &Config,
        records: &mut Records<D>,
        number: u64,
        now: Moment,
    ) -> Result<u64, NodeFault>
        requires serves { Serves config.now.host config.now.routes self.old records.old.queue }
        ensures ok { (changes : List Change) → Keeps D.honest D.words records.old changes
            → IfOk result (AddsUnroutable D.honest D.words (reporter_of config.now) config.now.routes number now changes
            records.old records.new) }
        ensures cut { (changes : List Change) → Keeps D.honest D.words records.old changes
            → result ≡ Err NodeFault.Stopped
            → CutsUnroutable D.honest D.words (reporter_of config.now) config.now.routes number now changes
            records.old records.new }
        ensures ends { IfOk result (EndsUnroutable D.words (reporter_of config.now) config.now.routes number now
            records.old records.new) }
        ensures refused { IfErr result (RefusesToGiveUp D.words (reporter_of config.now) config.now.routes number now
            records.old records.new) }
        ensures runs { self.new.runs ≡ self.old.runs }
        ensures serves { Serves config.now.host config.now.routes self.new records.new.queue }
    {
        if !records.is_live() {
            return Err(NodeFault::Stopped);
        }
        let Some(message) = records.message(number) else {
            return Err(NodeFault::Unknown);
        };
        if !has_stranded(&config.routes, message) {
            return Err(NodeFault::NotDue);
        }
        let Ok(outcome) = unroutable(alloc, &config.routes, message, number, now) else {
            return Err(NodeFault::NoMemory);
        };
        match self.conclude(alloc, config, records, outcome, 0) {
            Ok(added) => Ok(added),
            Err(fault) => Err(fault),
        }
    }
}

/// Returns the outcome of the held places of a message that have no hop. Fails if memory runs out.
fn unroutable(
    alloc: Global,
    table: &Table,
    message: &Message,
    number: u64,
    now: Moment,
) -> Result<Outcome, AllocError>
    ensures { IfOk result (λ outcome. outcome ≡ unroutable table.now number now message.now) }
{
    let places = stranded_places(alloc, table, message)?;
    Ok(Outcome {
        version: Version::WithDelay,
        message: number,
        at: now,
        hop: Octets::new(Vec::new(alloc)),
        rulings: unrouted(alloc, places.as_slice())?,
        report: Octets::new(Vec::new(alloc)),
    })
}

/// Returns the verdict for each of these places that it has no hop. Fails if memory runs out.
fn unrouted(alloc: Global, places: &[u8]) -> Result<Rulings, AllocError>
    ensures { IfOk result (λ rulings. rulings ≡ unrouted places.now) }
{
    let mut rulings = Rulings::new(alloc);
    for place in places {
        rulings.push(Ruling {
            place: *place,
            verdict: Verdict::NoRoute,
        })?;
    }
    Ok(rulings)
}
