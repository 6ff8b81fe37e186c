//! The one way to add a change to records.
ghost use Rattle.std.specs.Prelude.{◌≡◌, ◌↔◌, ◌⊎◌, ◌+◌, ◌<◌, ◌≤◌, ◌^◌, ◌≢◌, List, false, length, Err, Some, IfErr};
ghost use Rattle.std.specs.Prelude.{IfOk, IsErrOf, IsTrue, MatchResult, OnOk};
ghost use Rattle.relay_disk.specs.Disks.{Fails};
ghost use Rattle.relay_spool.specs.Pair.{HasBodies};
ghost use Rattle.relay_spool.specs.Spool.{AtEachMoment, CallsUpTo, IsAppended, IsBeforeOrWith, Passes};
ghost use Rattle.relay_book.specs.declared.change.Change.{Change};
ghost use Rattle.relay_book.specs.Queue.{FitsQueue, step};
ghost use Rattle.relay_book.specs.Ready.{IsReady};
ghost use Rattle.relay_book.specs.Record.{encode};
ghost use Rattle.relay_records.specs.Records.{Adds, Cuts, Grows, Keeps, RefusesToAdd, StandsForOrWith};

use crate::fault::NodeFault;
use crate::noted::note_of;
use crate::records::Records;
use relay_book::{Book, BookFault, Change, Ready};
use relay_disk::Disk;
use relay_octets::Octets;
use relay_spool::{BODY_OVERHEAD, SIZE_LIMIT, Spool, SpoolFault};
use std::alloc::{AllocError, Global};

impl<D: Disk> Records<D> {
    /// Adds a change, of which these octets are the record. It goes to the spool first, and then into the queue, and
    /// the answer is its number; `used` is how many octets of its piece the call had used. All growths come before the
    /// append. `NoMemory` and `Full` change nothing. At `Stopped` the device failed: a stop leaves the changes as they
    /// were or with this one, and it is noted.
    pub fn add(
        &mut self,
        alloc: Global,
        change: Change,
        octets: Octets,
        used: usize,
    ) -> Result<u64, NodeFault>
        requires live { IsTrue self.old.spool.live }
        requires fits { self.old.queue.next ≤ 2 ^ 62 → FitsQueue self.old.queue change }
        requires octets { octets ≡ encode change }
        ensures ok { (changes : List Change) → Keeps D.honest D.words self.old changes
            → IfOk result (λ number. (number ≡ length changes + 1)
            × Adds D.honest D.words self.new changes change used) }
        ensures cut { (changes : List Change) → Keeps D.honest D.words self.old changes
            → result ≡ Err NodeFault.Stopped → Cuts D.honest D.words self.new changes change used }
        // A stop at any time of the call leaves the changes as they were or with this one.
        ensures stop { (changes : List Change) → Keeps D.honest D.words self.old changes → D.honest
            → AtEachMoment D.words self.old.spool.disk self.new.spool.disk
            (HasBodies (StandsForOrWith changes (Some change))) }
        ensures grows { IfOk result (λ number. Grows D.words self.old change number self.new) }
        ensures refused { IfErr result (RefusesToAdd D.words self.old self.new) }
        ensures full { (result ≡ Err NodeFault.Full)
            ↔ ((2 ^ 62 < self.old.queue.next) ⊎ (2 ^ 40 < self.old.spool.size + 5 + length octets)) }
    {
        if !self.has_number() || !self.has_room(&octets) {
            return Err(NodeFault::Full);
        }
        let noted = note_of(alloc, &self.book, &change, octets, used)?;
        let ready = ready_of(alloc, &mut self.book, change)?;
        let number = noted.number;
        match append(
            &mut self.spool,
            &mut self.book,
            ready,
            noted.octets.as_slice(),
        ) {
            Ok(()) => {}
            Err(SpoolFault::Device) => {
                self.noted = Some(noted);
                return Err(NodeFault::Stopped);
            }
            Err(_) => return Err(NodeFault::NoMemory),
        }
        self.noted = Some(noted);
        Ok(number)
    }

    /// Returns whether the spool may grow by this body.
    fn has_room(&self, octets: &Octets) -> bool
        ensures { IsTrue result ↔ (self.now.spool.size + 5 + length octets.now ≤ 2 ^ 40) }
    {
        let left = SIZE_LIMIT - self.spool.size();
        BODY_OVERHEAD <= left && octets.len() <= left - BODY_OVERHEAD
    }
}

/// Makes a change that fits ready to be committed. Fails if memory runs out.
pub(crate) fn ready_of(alloc: Global, book: &mut Book, change: Change) -> Result<Ready, AllocError>
    requires { FitsQueue book.old.queue change }
    ensures queue { book.new.queue ≡ book.old.queue }
    ensures ready { IfOk result (λ ready. IsReady book.new ready) }
    ensures change { IfOk result (λ ready. ready.change ≡ change) }
{
    match book.prepare(alloc, change) {
        Ok(ready) => Ok(ready),
        Err(BookFault::NoMemory) => Err(AllocError),
        Err(BookFault::BadRecord) => unreachable!(),
    }
}

/// Appends the record of a change that is ready, and commits the change after it.
fn append<D: Disk>(
    spool: &mut Spool<D>,
    book: &mut Book,
    ready: Ready,
    octets: &[u8],
) -> Result<(), SpoolFault>
    requires live { IsTrue spool.old.live }
    requires short { length octets.now < 2 ^ 32 }
    requires ready { IsReady book.old ready }
    ensures appended { OnOk result (IsAppended D.honest D.words spool.old octets.now spool.new) }
    ensures calls { OnOk result (Passes D.words 4 spool.old.disk spool.new.disk) }
    ensures at_most { CallsUpTo D.words 4 spool.old.disk spool.new.disk }
    ensures committed { MatchResult result (λ _. book.new.queue ≡ step book.old.queue ready.change)
        (λ _. book.new.queue ≡ book.old.queue) }
    ensures stop { D.honest → AtEachMoment D.words spool.old.disk spool.new.disk
        (HasBodies (IsBeforeOrWith spool.old.bodies octets.now)) }
    ensures device { IsErrOf result SpoolFault.Device
        → (spool.new.live ≡ false) × Fails D.words spool.old.disk spool.new.disk }
    ensures other { IfErr result (λ fault. fault ≢ SpoolFault.Device → spool.new ≡ spool.old) }
{
    match spool.append(octets) {
        Ok(()) => {
            book.commit(ready);
            Ok(())
        }
        Err(fault) => Err(fault),
    }
}
