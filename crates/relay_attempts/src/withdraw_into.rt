//! Withdrawals of several messages, whose changes come into the spool together.
ghost use Rattle.std.specs.Prelude.{◌≡◌, IfErr, IfOk};
ghost use Rattle.relay_attempts.specs.Attempts.{Serves};
ghost use Rattle.relay_attempts.specs.StagedWithdrawals.{RefusesToStageWithdrawal, StagesWithdrawal};
ghost use Rattle.relay_report.specs.Report.{reporter_of};

use crate::attempts::Attempts;
use crate::withdraw::{is_tried, names_held, withdrawal_of};
use relay_book::Withdrawal;
use relay_disk::Disk;
use relay_records::{NodeFault, Records, Staged};
use relay_routes::Config;
use relay_trace::Moment;
use std::alloc::Global;

/// Places of a message that the postmaster withdraws.
#[derive(Clone, Copy, Drop)]
pub struct WithdrawnPlaces<'a> {
    /// The places of recipients in its envelope, in any order; one may be named more than once.
    pub places: &'a [u8],
    /// What becomes of them.
    pub withdrawal: Withdrawal,
}

impl Attempts {
    /// Ends places of a message as [`Attempts::withdraw`] does, but puts the outcome after the changes of a row, in one
    /// change with the report that is owed, and returns its number. No device is called: until the row has come into
    /// the spool, a stop leaves nothing of the outcome. Fails as [`Attempts::withdraw`] does, without `Stopped`;
    /// records and row are unchanged then.
    pub fn withdraw_into<D: Disk>(
        &mut self,
        alloc: Global,
        config: &Config,
        records: &mut Records<D>,
        row: &mut Staged,
        number: u64,
        withdrawn: WithdrawnPlaces<'_>,
        now: Moment,
    ) -> Result<u64, NodeFault>
        requires serves { Serves config.now.host config.now.routes self.old records.old.queue }
        ensures stages { IfOk result (StagesWithdrawal D.words (reporter_of config.now) self.old.runs number now
            withdrawn.entry.withdrawal withdrawn.entry.places.now records.old records.new row.old row.new) }
        ensures refused { IfErr result (RefusesToStageWithdrawal D.words (reporter_of config.now) self.old.runs number
            now withdrawn.entry.withdrawal withdrawn.entry.places.now records.old records.new row.old row.new) }
        ensures runs { self.new.runs ≡ self.old.runs }
        ensures serves { Serves config.now.host config.now.routes self.new records.new.queue }
    {
        let WithdrawnPlaces { places, withdrawal } = withdrawn;
        let Some(message) = records.message(number) else {
            return Err(NodeFault::Unknown);
        };
        if !names_held(message, places) {
            return Err(NodeFault::Unknown);
        }
        if is_tried(&self.runs, number, places) {
            return Err(NodeFault::Busy);
        }
        let Ok(outcome) = withdrawal_of(alloc, message, number, places, withdrawal, now) else {
            return Err(NodeFault::NoMemory);
        };
        match self.conclude_into(alloc, config, records, row, outcome, 0) {
            Ok(staged) => Ok(staged),
            Err(fault) => Err(fault),
        }
    }
}
