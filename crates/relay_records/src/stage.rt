//! Adding several changes together: each to the queue, one by one, and then all to the spool.
ghost use Rattle.std.specs.Prelude.{◌≡◌, ◌↔◌, ◌⊎◌, ◌+◌, ◌<◌, ◌≤◌, ◌^◌, ◌∷◌, [], ◌++◌, List, length, Err, IfErr, IfOk};
ghost use Rattle.std.specs.Prelude.{IsTrue, MatchResult, OnOk};
ghost use Rattle.relay_spool.specs.Image.{room_of};
ghost use Rattle.relay_spool.specs.Pair.{HasBodies};
ghost use Rattle.relay_spool.specs.Spool.{AtEachMoment};
ghost use Rattle.relay_book.specs.declared.change.Change.{Change};
ghost use Rattle.relay_book.specs.Queue.{FitsQueue};
ghost use Rattle.relay_book.specs.Record.{encode};
ghost use Rattle.relay_records.specs.Staged.{Awaits, CutsAll, GrowsAll, RefusesToSettle, RefusesToStage, Settles};
ghost use Rattle.relay_records.specs.Staged.{Stages, StandsForOrWithAll};

use crate::add::ready_of;
use crate::fault::NodeFault;
use crate::noted::{Noted, note_of};
use crate::records::Records;
use crate::staged::{Staged, Unsettled};
use relay_book::Change;
use relay_disk::Disk;
use relay_octets::Octets;
use relay_spool::{BODY_OVERHEAD, SIZE_LIMIT, SpoolFault};
use std::alloc::Global;

impl<D: Disk> Records<D> {
    /// Takes a change into the queue, of which these octets are the record, and puts it after the changes of a
    /// row. It is judged after those, and the answer is its number; `used` is how many octets of its piece the
    /// call had used. No device is called. `NoMemory` and `Full` leave records and row as they were.
    pub fn stage(
        &mut self,
        alloc: Global,
        row: &mut Staged,
        change: Change,
        octets: Octets,
        used: usize,
    ) -> Result<u64, NodeFault>
        requires fits { self.old.queue.next ≤ 2 ^ 62 → FitsQueue self.old.queue change }
        requires octets { octets ≡ encode change }
        ensures stages { IfOk result (Stages self.old self.new row.old row.new change used) }
        ensures awaits { (changes pending : List Change) → Awaits D.honest D.words self.old changes pending row.old
            → OnOk result (Awaits D.honest D.words self.new changes (pending ++ change ∷ []) row.new) }
        ensures refused { IfErr result (RefusesToStage self.old self.new row.old row.new) }
        ensures full { (result ≡ Err NodeFault.Full) ↔ ((2 ^ 62 < self.old.queue.next)
            ⊎ (2 ^ 40 < self.old.spool.size + room_of row.old.bodies + 5 + length octets)) }
    {
        if !self.has_number() || !self.has_room_after(row, &octets) {
            return Err(NodeFault::Full);
        }
        let noted = note_of(alloc, &self.book, &change, octets, used)?;
        let ready = ready_of(alloc, &mut self.book, change)?;
        let number = noted.number;
        row.push(noted)?;
        self.book.commit(ready);
        Ok(number)
    }

    /// Returns whether the spool may grow by the bodies of a row and by this one after them.
    fn has_room_after(&self, row: &Staged, octets: &Octets) -> bool
        ensures { IsTrue result
            ↔ (self.now.spool.size + room_of row.now.bodies + 5 + length octets.now ≤ 2 ^ 40) }
    {
        let left = SIZE_LIMIT - self.spool.size();
        let room = row.room();
        room <= left && BODY_OVERHEAD <= left - room && octets.len() <= left - room - BODY_OVERHEAD
    }

    /// Brings the records of a row into the spool, after one pair of syncs, and returns the note of each change. At
    /// `Stopped` the device failed: a stop leaves the changes as they were or with all of the row. At `Full` the
    /// records are unchanged, whose queue has the changes and whose spool has not: no row that was staged for these
    /// records is too large for them. Allocates nothing.
    pub fn settle(&mut self, row: Staged) -> Result<Vec<Noted>, Unsettled>
        requires { IsTrue self.old.spool.live }
        ensures settles { (changes pending : List Change) → Awaits D.honest D.words self.old changes pending row
            → IfOk result (λ notes. Settles D.honest D.words self.new changes pending notes.items) }
        ensures cut { (changes pending : List Change) → Awaits D.honest D.words self.old changes pending row
            → IfErr result (λ unsettled. unsettled.fault ≡ NodeFault.Stopped
            → CutsAll D.honest D.words self.new changes pending unsettled.notes.items) }
        // A stop at any time of the call leaves the changes as they were or with all of the row.
        ensures stop { (changes pending : List Change) → Awaits D.honest D.words self.old changes pending row
            → D.honest → AtEachMoment D.words self.old.spool.disk self.new.spool.disk
            (HasBodies (StandsForOrWithAll changes pending)) }
        ensures grows { OnOk result (GrowsAll D.words self.old row self.new) }
        ensures refused { IfErr result (λ unsettled. RefusesToSettle D.words self.old self.new unsettled.fault) }
        ensures notes { MatchResult result (λ notes. notes.items ≡ row.notes)
            (λ unsettled. unsettled.notes.items ≡ row.notes) }
        ensures full { MatchResult result (λ _. self.old.spool.size + room_of row.bodies ≤ 2 ^ 40)
            (λ unsettled. (unsettled.fault ≡ NodeFault.Full)
            ↔ (2 ^ 40 < self.old.spool.size + room_of row.bodies)) }
    {
        let Staged { bodies, notes } = row;
        match self.spool.append_all(bodies) {
            Ok(()) => Ok(notes),
            Err(SpoolFault::Device) => Err(Unsettled {
                fault: NodeFault::Stopped,
                notes,
            }),
            Err(_) => Err(Unsettled {
                fault: NodeFault::Full,
                notes,
            }),
        }
    }
}
