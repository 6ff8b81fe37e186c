//! Lines of the ledger.
ghost use Rattle.std.specs.Prelude.{◌≡◌, ◌+◌, ◌++◌, ◌≤◌, length, vec_capacity, vec_len};
ghost use Rattle.relay_world.specs.Ledger.{left_lines, report_told};
ghost use Rattle.relay_events.specs.Relays.{world_of};

use crate::relays::Relays;
use relay_disk::Disk;
use relay_hosts::Recorded;
use relay_hosts::ledger::{push_left, report_told};

impl<D: Disk> Relays<D> {
    /// Adds a line for each place of a message that left or was delayed on this link, by the change of this number.
    /// There is room for them.
    pub(crate) fn note_left(
        &mut self,
        node: usize,
        message: u64,
        link: usize,
        change: u64,
        recorded: &Recorded,
    )
        requires { vec_len self.old.ledger + length recorded.now.left.items ≤ vec_capacity self.old.ledger }
        ensures world { world_of self.new ≡ record (world_of self.old) {
          ledger = self.old.ledger.items ++ left_lines node message link (report_told change recorded.now.report)
              recorded.now.left.items;
        } }
        ensures len { vec_len self.new.ledger ≡ vec_len self.old.ledger + length recorded.now.left.items }
        ensures capacity { vec_capacity self.old.ledger ≤ vec_capacity self.new.ledger }
    {
        let report = report_told(change, recorded.report);
        let left = recorded.left.as_slice();
        push_left(&mut self.ledger, node, message, link, report, left);
    }
}
