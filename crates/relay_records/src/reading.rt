//! The queue that the bodies of a spool leave.
ghost use Rattle.std.specs.Prelude.{IfErr, IfOk, IsErrOf};
ghost use Rattle.relay_pieces.specs.Pieces.{text_of};
ghost use Rattle.relay_book.specs.Snapshot.{IsQueue};
ghost use Rattle.relay_book.specs.StandsFor.{ReadsAll};
ghost use Rattle.relay_spool.specs.Spool.{texts_of};
ghost use Rattle.relay_records.specs.Open.{RefusesBodies};
ghost use Rattle.relay_records.specs.Reading.{ReadsAt, ReadsNoneAt};

use crate::fault::Cause;
use relay_book::{Book, BookFault};
use relay_pieces::Pieces;
use relay_spool::SpoolFault;
use std::alloc::Global;

/// Returns the book that a body leaves after this many others, which left this book. It fails with `BadRecord` exactly
/// if it leaves none, and if memory runs out.
#[tactic(auto, using(crate::proofs::ReadLemmas::read_by_place))]
fn read_body(alloc: Global, mut book: Book, before: usize, body: Pieces) -> Result<Book, BookFault>
    ensures reads { IfOk result (λ left. ReadsAt before book.queue (text_of body) left.queue) }
    ensures bad { IsErrOf result BookFault.BadRecord → ReadsNoneAt before book.queue (text_of body) }
{
    if before == 0 {
        return Book::read_first(alloc, body);
    }
    book.read_next(alloc, body.into_vec()?)?;
    Ok(book)
}

/// Returns the book that the bodies leave, of a queue that may be stored. Each body is let go, or kept by its message,
/// when it has been read.
#[tactic(auto, using(crate::proofs::ReadLemmas::read_queue))]
pub(crate) fn read_bodies(alloc: Global, bodies: Vec<Pieces>) -> Result<Book, Cause>
    ensures reads { IfOk result (λ book. ReadsAll (texts_of bodies) book.queue) }
    ensures queue { IfOk result (λ book. IsQueue book.queue) }
    ensures refused { IfErr result (RefusesBodies (texts_of bodies)) }
{
    let mut book = Book::new(alloc);
    let mut before: usize = 0;
    for body in bodies {
        match read_body(alloc, book, before, body) {
            Ok(left) => book = left,
            Err(BookFault::BadRecord) => return Err(Cause::BadRecord(before + 1)),
            Err(BookFault::NoMemory) => return Err(Cause::Spool(SpoolFault::NoMemory)),
        }
        before += 1;
    }
    Ok(book)
}
