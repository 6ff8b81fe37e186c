//! Withdrawals of several messages, whose changes come into the records together.
ghost use Rattle.std.specs.Prelude.{◌≡◌, Err, IfErr, IfOk, false, true};
ghost use Rattle.relay_attempts.specs.StagedWithdrawals.{RefusesToStageWithdrawal, StagesWithdrawal};
ghost use Rattle.relay_report.specs.Report.{reporter_of};

use crate::node::Node;
use relay_attempts::WithdrawnPlaces;
use relay_book::Withdrawal;
use relay_disk::Disk;
use relay_records::{NodeFault, Staged};
use relay_trace::Moment;

impl<D: Disk> Node<D> {
    /// Ends places of a message as [`Node::withdraw`] does, but puts the outcome after the changes of a row: it is
    /// numbered after them. Until [`Node::settle`] has taken the row, a stop leaves nothing of it. Fails as
    /// [`Node::withdraw`] does; node and row are unchanged then. No device is called.
    pub fn withdraw_into(
        &mut self,
        row: &mut Staged,
        message: u64,
        places: &[u8],
        withdrawal: Withdrawal,
        now: Moment,
    ) -> Result<u64, NodeFault>
        ensures stages { IfOk result (StagesWithdrawal D.words (reporter_of self.old.config) self.old.attempts message
            now withdrawal places.now self.old.records self.new.records row.old row.new) }
        ensures rest { (self.new.config ≡ self.old.config) × (self.new.seats ≡ self.old.seats)
            × (self.new.attempts ≡ self.old.attempts) }
        ensures refused { self.old.records.spool.live ≡ true
            → IfErr result (RefusesToStageWithdrawal D.words (reporter_of self.old.config) self.old.attempts message
            now withdrawal places.now self.old.records self.new.records row.old row.new) }
        ensures stopped { self.old.records.spool.live ≡ false
            → (result ≡ Err NodeFault.Stopped) × (self.new ≡ self.old) × (row.new ≡ row.old) }
    {
        if !self.records.is_live() {
            return Err(NodeFault::Stopped);
        }
        let withdrawn = WithdrawnPlaces { places, withdrawal };
        self.attempts.withdraw_into(
            self.alloc,
            &self.config,
            &mut self.records,
            row,
            message,
            withdrawn,
            now,
        )
    }
}
