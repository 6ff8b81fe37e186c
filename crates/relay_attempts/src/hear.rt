//! Octets of a next hop, heard by its attempt.
ghost use Rattle.std.specs.Prelude.{◌≡◌, ℕ, List, IfErr, IfOk};
ghost use Rattle.relay_attempts.specs.Attempts.{Serves};
ghost use Rattle.relay_attempts.specs.Hearing.{GoesOnOrHasEnded, HearsNothing};
ghost use Rattle.relay_routes.specs.Routes.{RouteTable};
ghost use Rattle.relay_slots.specs.Slots.{OthersStay};

use crate::attempts::Attempts;
use relay_book::Outcome;
use relay_client::Driven;
use relay_disk::Disk;
use relay_records::{NodeFault, Records};
use relay_trace::Moment;
use std::alloc::Global;

/// The result of octets of a next hop.
#[derive(Drop)]
pub(crate) struct Hearing {
    /// How many octets of the piece were used: all, unless the attempt has ended.
    pub(crate) used: usize,
    /// The octets for the next hop.
    pub(crate) out: Vec<u8>,
    /// The outcome of the attempt, if it has ended. Its report isn't written yet.
    pub(crate) outcome: Option<Outcome>,
}

impl Attempts {
    /// Lets an attempt hear octets that its next hop wrote, all of them or up to its end. If it has ended it is gone,
    /// and its outcome is left to be recorded. `Unknown` is answered if there is no such attempt, and nothing is
    /// changed then; at `NoMemory` it is gone.
    pub(crate) fn hear<D: Disk>(
        &mut self,
        alloc: Global,
        records: &Records<D>,
        attempt: usize,
        piece: &[u8],
        now: Moment,
    ) -> Result<Hearing, NodeFault>
        requires serves { (host : List ℕ) × (table : RouteTable) × Serves host table self.old records.now.queue }
        ensures hears { (host : List ℕ) (table : RouteTable) → Serves host table self.old records.now.queue
            → IfOk result (λ hearing. GoesOnOrHasEnded host records.now.queue now attempt piece.now self.old
            self.new hearing hearing.outcome) }
        ensures refused { IfErr result (HearsNothing attempt self.old self.new) }
        ensures others { OthersStay self.old.runs self.new.runs attempt }
        ensures stranded { self.new.stranded ≡ self.old.stranded }
        ensures serves { (host : List ℕ) (table : RouteTable) → Serves host table self.old records.now.queue
            → Serves host table self.new records.now.queue }
    {
        let Some(run) = self.runs.take(attempt) else {
            return Err(NodeFault::Unknown);
        };
        let mut run = run;
        let Ok(driven) = run.hear(records, piece) else {
            return Err(NodeFault::NoMemory);
        };
        let Driven {
            used,
            out,
            verdicts,
        } = driven;
        let Some(verdicts) = verdicts else {
            self.runs.put(attempt, run);
            return Ok(Hearing {
                used,
                out,
                outcome: None,
            });
        };
        run.has_few_places(records);
        let Ok(outcome) = run.outcome(alloc, verdicts, now) else {
            return Err(NodeFault::NoMemory);
        };
        Ok(Hearing {
            used,
            out,
            outcome: Some(outcome),
        })
    }
}
