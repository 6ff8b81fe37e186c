//! The first body of a spool: a snapshot, or the record of a first change.
ghost use Rattle.std.specs.Prelude.{◌≡◌, IfOk, OnOk, IsErrOf};
ghost use Rattle.relay_pieces.specs.Pieces.{text_of};
ghost use Rattle.relay_book.specs.Snapshot.{IsQueue};
ghost use Rattle.relay_book.specs.SnapshotFields.{is_of_snapshot};
ghost use Rattle.relay_book.specs.StandsFor.{ReadsBody, ReadsFirst, ReadsNoBody, ReadsNoFirst};

use crate::book::Book;
use crate::decode::decode_record;
use crate::fault::BookFault;
use relay_pieces::Pieces;
use std::alloc::Global;

impl Book {
    /// Returns the book that a first body leaves: of the queue of which it is the snapshot, or of the one change that
    /// it records. It fails with `BadRecord` exactly if it is neither, and if memory runs out.
    #[tactic(auto, using(crate::proofs::FirstLemmas::first_records))]
    pub fn read_first(alloc: Global, mut body: Pieces) -> Result<Self, BookFault>
        ensures reads { IfOk result (λ book. ReadsFirst (text_of body) book.queue) }
        ensures queue { IfOk result (λ book. IsQueue book.queue) }
        ensures bad { IsErrOf result BookFault.BadRecord → ReadsNoFirst (text_of body) }
    {
        body.hold_first(1)?;
        if is_of_snapshot(body.front()) {
            return Book::decode_snapshot(alloc, body);
        }
        let mut book = Book::new(alloc);
        book.read_next(alloc, body.into_vec()?)?;
        Ok(book)
    }

    /// Applies the change that a body records; a message that it queues keeps the body's memory. It fails with
    /// `BadRecord` exactly if the body records none that fits, and if memory runs out.
    #[tactic(auto, using(crate::proofs::FirstLemmas::no_record))]
    pub fn read_next(&mut self, alloc: Global, body: Vec<u8>) -> Result<(), BookFault>
        ensures reads { OnOk result (ReadsBody self.old.queue body.items self.new.queue) }
        ensures queue { OnOk result (IsQueue self.old.queue → IsQueue self.new.queue) }
        ensures bad { IsErrOf result BookFault.BadRecord → ReadsNoBody self.old.queue body.items }
    {
        let change = decode_record(alloc, body)?;
        self.apply_decoded(alloc, change)
    }
}

/// Returns whether the first octet is that of a snapshot.
pub(super) fn is_of_snapshot(octets: &[u8]) -> bool
    ensures { result ≡ is_of_snapshot octets.now }
{
    match octets {
        [] => false,
        [kind, ..] => *kind == 3 || *kind == 5,
    }
}
