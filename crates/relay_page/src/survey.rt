//! The queue by next hop. It is counted in parts, so that mail never waits while a long queue is counted.
ghost use Rattle.std.specs.Prelude.{◌≡◌};

use indexmap::IndexMap;
use relay_book::Message;
use relay_listing::{Loads, count_row, row_in};
use relay_routes::Table;
use std::alloc::{AllocError, Global};
use std::mem;

/// How many recipients are counted in one turn.
pub const PART: usize = 2_000;

/// For how many milliseconds a count is shown before the next one begins.
const FRESH: u64 = 1_000;

/// A queued recipient: the number of its message, and its place there.
pub type Mark = (u64, u8);

/// The last complete count of the queue, and a count in progress.
pub struct Survey {
    alloc: Global,
    /// The recipients that were queued when the last count began, in the order of the queue.
    marks: Vec<Mark>,
    /// How many of them are counted; `None` if no count is in progress.
    counted: Option<usize>,
    /// The count in progress.
    counting: Loads,
    /// The last complete count.
    found: Loads,
    /// The tick until which the last complete count is shown.
    fresh_until: u64,
}

// Written out, so that the proof of a caller that drops a survey stops at this function.
impl Drop for Survey {
    fn drop(self) {
        let Survey {
            alloc: _,
            marks: _marks,
            counted: _,
            counting: _counting,
            found: _found,
            fresh_until: _,
        } = self;
    }
}

impl Survey {
    /// Returns a survey that has counted nothing. Allocates nothing.
    pub fn new(alloc: Global) -> Self {
        Survey {
            alloc,
            marks: Vec::new(alloc),
            counted: None,
            counting: IndexMap::new(alloc),
            found: IndexMap::new(alloc),
            fresh_until: 0,
        }
    }

    /// Returns whether the last complete count is still to be shown at this tick.
    pub fn is_fresh(&self, tick: u64) -> bool {
        tick < self.fresh_until
    }

    /// Returns whether a count is in progress.
    pub fn is_counting(&self) -> bool {
        self.counted.is_some()
    }

    /// Begins to count these recipients.
    pub fn begin(&mut self, marks: Vec<Mark>) {
        self.marks = marks;
        self.counting = IndexMap::new(self.alloc);
        self.counted = Some(0);
    }

    /// Returns the next recipient to be counted.
    pub fn next(&mut self) -> Option<Mark> {
        let counted = self.counted?;
        let mark = *self.marks.get(counted)?;
        self.counted = Some(counted.saturating_add(1));
        Some(mark)
    }

    /// Counts a recipient of this message, if it is still queued.
    pub fn count(&mut self, table: &Table, place: u8, message: &Message) -> Result<(), AllocError> {
        match row_in(table, message.number, place, message) {
            Some(row) => count_row(self.alloc, &mut self.counting, &row),
            None => Ok(()),
        }
    }

    /// Completes the count at this tick, from which it is shown for a second.
    pub fn end(&mut self, tick: u64) {
        self.counted = None;
        self.found = mem::replace(&mut self.counting, IndexMap::new(self.alloc));
        self.fresh_until = tick.saturating_add(FRESH);
    }

    /// Returns the queue by next hop, according to the last complete count.
    pub fn loads(&self) -> &Loads {
        &self.found
    }

    /// Returns the recipients that were queued when the last count began, in the order of the queue.
    pub fn marks(&self) -> &[Mark]
        ensures { result.now ≡ self.now.marks.items }
    {
        self.marks.as_slice()
    }
}
