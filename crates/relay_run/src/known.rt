//! What is known of a spool, and must be there when it is opened again.
ghost use Rattle.std.specs.Prelude.{◌≡◌, ◌↔◌, IsTrue, None, Some};
ghost use Rattle.relay_run.specs.Reopening.{HasAll, IsEither, IsWhole};

use relay_disk::Disk;
use relay_loop::Relay;

/// What was known of a spool after the last turn without a fault. A change that a failed call was adding counts as
/// added in the relay itself, so the relay can't be asked for this.
#[derive(Clone, Copy)]
pub(crate) struct Known {
    /// The number of the next change.
    next_number: u64,
    /// The size of the spool in octets.
    size: usize,
    /// Its size after a compaction that may have begun since.
    compacted: Option<usize>,
}

impl Known {
    /// Returns what a relay knows of its spool.
    pub(crate) fn of<D: Disk>(relay: &Relay<D>) -> Self
        ensures number { result.next_number ≡ relay.now.node.records.queue.next }
        ensures size { result.size ≡ relay.now.node.records.spool.size }
        ensures compacted { result.compacted ≡ None }
    {
        let node = relay.node();
        Known {
            next_number: node.next_number(),
            size: node.size(),
            compacted: None,
        }
    }

    /// Returns the same, given that the spool is about to be compacted to `left` octets.
    pub(crate) fn compacting(self, left: usize) -> Self
        ensures number { result.next_number ≡ self.next_number }
        ensures size { result.size ≡ self.size }
        ensures compacted { result.compacted ≡ Some left }
    {
        Known {
            compacted: Some(left),
            ..self
        }
    }

    /// Returns the size of the spool in octets.
    pub(crate) fn size(&self) -> usize
        ensures { result ≡ self.now.size }
    {
        self.size
    }

    /// Returns whether the opened spool may be this one.
    pub(crate) fn is_in(&self, found: &Known) -> bool
        ensures { IsTrue result ↔ IsWhole self.now found.now.next_number found.now.size }
    {
        match self.compacted {
            None => self.is_all_in(found),
            Some(left) => self.is_either(left, found),
        }
    }

    /// Returns whether the opened spool has all that was known.
    fn is_all_in(&self, found: &Known) -> bool
        ensures { IsTrue result ↔ HasAll self.now.next_number self.now.size found.now.next_number found.now.size }
    {
        self.next_number <= found.next_number && self.size <= found.size
    }

    /// Returns whether the opened spool is the one before a compaction, or the one after it.
    fn is_either(&self, left: usize, found: &Known) -> bool
        ensures { IsTrue result ↔ IsEither self.now.next_number self.now.size left
            found.now.next_number found.now.size }
    {
        self.next_number == found.next_number && (found.size == self.size || found.size == left)
    }
}
