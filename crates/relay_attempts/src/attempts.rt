//! The attempts of a node.
ghost use Rattle.std.specs.Prelude.{◌≡◌, ◌↔◌, [], ℕ, List, IfOk, IsTrue};
ghost use Rattle.relay_book.specs.Queue.{Queue};
ghost use Rattle.relay_routes.specs.Routes.{RouteTable};
ghost use Rattle.relay_slots.specs.Slots.{AreFree, HasPlaces, IsFull};
ghost use Rattle.relay_attempts.specs.Attempts.{KnowsStranded, Serves};
ghost use Rattle.relay_attempts.specs.Work.{works_of};

use crate::gathering::gathered;
use crate::runs::Run;
use crate::stranded::Stranded;
use crate::work::{Finder, Work};
use relay_disk::Disk;
use relay_records::Records;
use relay_routes::Table;
use relay_slots::Slots;
use relay_trace::Moment;
use std::alloc::{AllocError, Global};
use std::marker::Model;

/// The attempts of a node that are running, up to 64, and the messages with a held place that has no hop.
pub struct Attempts {
    pub(crate) runs: Slots<Run>,
    /// The numbers of the messages with a held place that has no hop, in order.
    pub(crate) stranded: Vec<u64>,
}

// Written out, so that the proof of a caller that drops the attempts of a node stops at this function.
impl Drop for Attempts {
    fn drop(self) {
        let Attempts {
            runs: _runs,
            stranded: _stranded,
        } = self;
    }
}

impl Model for Attempts {
    ghost use Rattle.std.specs.Prelude.{◌-◌, vec_capacity, vec_len};
    ghost use Rattle.relay_attempts.specs.Attempts.{AttemptTable};

    ghost Value = { AttemptTable };

    ghost view = { λ attempts. record {
      runs = attempts.runs;
      stranded = attempts.stranded.items;
      room = vec_capacity attempts.stranded - vec_len attempts.stranded;
    } };
}

impl Attempts {
    /// No attempt, for a node without messages. Fails if memory runs out.
    pub fn idle(alloc: Global) -> Result<Self, AllocError>
        ensures idle { IfOk result (λ attempts. AreFree attempts.runs × HasPlaces attempts.runs) }
        ensures serves { IfOk result (λ attempts. (host : List ℕ) (table : RouteTable) (queue : Queue)
            → queue.messages ≡ [] → Serves host table attempts queue) }
    {
        Ok(Attempts {
            runs: Slots::new(alloc)?,
            stranded: Vec::new(alloc),
        })
    }

    /// No attempt, beside the messages of these records that have a held place without a hop. Fails if memory runs out.
    pub fn new<D: Disk>(
        alloc: Global,
        table: &Table,
        records: &Records<D>,
    ) -> Result<Self, AllocError>
        ensures idle { IfOk result (λ attempts. AreFree attempts.runs × HasPlaces attempts.runs) }
        ensures serves { IfOk result (λ attempts. (host : List ℕ)
            → Serves host table.now attempts records.now.queue) }
    {
        let stranded = records.numbers_where(alloc, &Stranded { table })?;
        Ok(Attempts {
            runs: Slots::new(alloc)?,
            stranded,
        })
    }

    /// Returns whether 64 attempts are running, so that none can be started.
    pub fn is_full(&self) -> bool
        ensures { IsTrue result ↔ IsFull self.now.runs }
    {
        self.runs.free().is_none()
    }

    /// Returns what there is to do at a time, in order of the messages' numbers: that a held place has no hop, and then
    /// each hop with a due place for which no attempt is running, in the order of their first due places. Fails if
    /// memory runs out.
    pub fn due<D: Disk>(
        &self,
        alloc: Global,
        table: &Table,
        records: &Records<D>,
        now: Moment,
    ) -> Result<Vec<Work>, AllocError>
        ensures { KnowsStranded self.now table.now records.now.queue
            → IfOk result (λ works. works.items ≡ works_of table.now self.now.runs now records.now.queue) }
    {
        records.numbers_rise();
        let marks = records.due(alloc, now)?;
        let numbers = gathered(alloc, marks.as_slice(), self.stranded.as_slice())?;
        let finder = Finder {
            alloc,
            table,
            runs: &self.runs,
            at: now,
        };
        finder.works(records, &numbers)
    }
}
