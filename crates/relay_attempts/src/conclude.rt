//! Outcomes, and what they leave of the attempts.
ghost use Rattle.std.specs.Prelude.{◌≡◌, List, Err, IfErr, IfOk, IsTrue};
ghost use Rattle.relay_report.specs.Report.{reporter_of};
ghost use Rattle.relay_attempts.specs.Attempts.{KnowsStranded};
ghost use Rattle.relay_book.specs.declared.change.Change.{Change};
ghost use Rattle.relay_attempts.specs.AddedOutcome.{AddsOutcome, CutsOutcome, GrowsBy, MayCome, RefusesOutcome};
ghost use Rattle.relay_attempts.specs.Staging.{GrowsRowBy, RefusesToStageOutcome, StagesOutcome};
ghost use Rattle.relay_records.specs.Records.{Keeps};
ghost use Rattle.relay_records.specs.Staged.{Awaits};

use crate::attempts::Attempts;
use crate::outcome::{add_outcome, stage_outcome};
use relay_book::Outcome;
use relay_disk::Disk;
use relay_records::{NodeFault, Records, Staged};
use relay_routes::Config;
use std::alloc::Global;

impl Attempts {
    /// Adds an outcome of a queued message, with the report that is owed, in one change; then it is known which
    /// messages are stranded by it, or by the report, and which are no more. All growths come before the append.
    pub(crate) fn conclude<D: Disk>(
        &mut self,
        alloc: Global,
        config: &Config,
        records: &mut Records<D>,
        outcome: Outcome,
        used: usize,
    ) -> Result<u64, NodeFault>
        requires live { IsTrue records.old.spool.live }
        requires comes { MayCome records.old.queue outcome }
        ensures ok { (changes : List Change) → Keeps D.honest D.words records.old changes
            → IfOk result (AddsOutcome D.honest D.words (reporter_of config.now) changes outcome used records.new) }
        ensures cut { (changes : List Change) → Keeps D.honest D.words records.old changes
            → result ≡ Err NodeFault.Stopped
            → CutsOutcome D.honest D.words (reporter_of config.now) changes outcome used records.new }
        ensures grows { IfOk result (GrowsBy D.words (reporter_of config.now) outcome records.old records.new) }
        ensures refused { IfErr result
            (RefusesOutcome D.words (reporter_of config.now) outcome records.old records.new) }
        ensures runs { self.new.runs ≡ self.old.runs }
        ensures known { KnowsStranded self.old config.now.routes records.old.queue
            → KnowsStranded self.new config.now.routes records.new.queue }
    {
        let Ok(()) = self.reserve() else {
            return Err(NodeFault::NoMemory);
        };
        records.numbers_rise();
        let message = outcome.message;
        match add_outcome(
            alloc,
            config.host.as_slice(),
            config.reports,
            records,
            outcome,
            used,
        ) {
            Ok(number) => {
                self.forget(&config.routes, records, message);
                self.note(&config.routes, records, number);
                Ok(number)
            }
            Err(fault) => Err(fault),
        }
    }

    /// Stages an outcome of a queued message after the changes of a row, with the report that is owed, in one change;
    /// then it is known which messages are stranded by it, or by the report, and which are no more. No device is
    /// called.
    pub(crate) fn conclude_into<D: Disk>(
        &mut self,
        alloc: Global,
        config: &Config,
        records: &mut Records<D>,
        row: &mut Staged,
        outcome: Outcome,
        used: usize,
    ) -> Result<u64, NodeFault>
        requires comes { MayCome records.old.queue outcome }
        ensures stages { (changes pending : List Change)
            → Awaits D.honest D.words records.old changes pending row.old
            → IfOk result (StagesOutcome D.honest D.words (reporter_of config.now) changes pending row.old outcome used
            records.new row.new) }
        ensures grows { IfOk result (GrowsRowBy (reporter_of config.now) outcome used records.old records.new row.old
            row.new) }
        ensures refused { IfErr result (RefusesToStageOutcome (reporter_of config.now) outcome records.old records.new
            row.old row.new) }
        ensures runs { self.new.runs ≡ self.old.runs }
        ensures known { KnowsStranded self.old config.now.routes records.old.queue
            → KnowsStranded self.new config.now.routes records.new.queue }
    {
        let Ok(()) = self.reserve() else {
            return Err(NodeFault::NoMemory);
        };
        records.numbers_rise();
        let message = outcome.message;
        match stage_outcome(
            alloc,
            config.host.as_slice(),
            config.reports,
            records,
            row,
            outcome,
            used,
        ) {
            Ok(number) => {
                self.forget(&config.routes, records, message);
                self.note(&config.routes, records, number);
                Ok(number)
            }
            Err(fault) => Err(fault),
        }
    }
}
