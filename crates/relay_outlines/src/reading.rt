//! A spool read to its end, body by body, of which only the outline is kept.
ghost use Rattle.std.specs.Prelude.{◌≡◌, ◌≤◌, ℕ, List, [], IfErr, IfOk, IsErrOf, IsTrue, MatchResult, OnOk};
ghost use Rattle.relay_disk.specs.Disks.{FailsNot, seen_of};
ghost use Rattle.relay_pieces.specs.Pieces.{text_of};
ghost use Rattle.relay_spool.specs.Cursor.{HasRead};
ghost use Rattle.relay_spool.specs.Run.{EachOnlyReads};
ghost use Rattle.relay_spool.specs.Spool.{FailsBy, RefusesToOpen};
ghost use Rattle.relay_book.specs.Outline.{ReadsOutline, outline_of};
ghost use Rattle.relay_book.specs.Queue.{Queue};
ghost use Rattle.relay_book.specs.StandsFor.{ReadsNoBody};
ghost use Rattle.relay_outlines.specs.Reading.{HasFirst, HasMore, IsReadTo};

use crate::first::{First, read_first};
use relay_book::{Book, BookFault};
use relay_disk::Disk;
use relay_pieces::Pieces;
use relay_spool::{Cursor, SpoolFault};
use std::alloc::Global;

/// What the bodies of a spool leave.
#[derive(Drop)]
pub(crate) enum Reading {
    /// A queue of this outline.
    Outline(Book),
    /// No queue: the body of this number, from 1, is the first that records no change which fits those before it.
    Bad(usize),
}

/// Reads a spool to its end. A fault of the spool comes before a bad record, wherever both are, as if all bodies were
/// read first.
pub(crate) fn read_outline<D: Disk>(
    alloc: Global,
    cursor: &mut Cursor<D>,
) -> Result<Reading, SpoolFault>
    requires live { IsTrue cursor.old.live }
    requires start { D.honest → HasRead (seen_of D.words cursor.old.disk) cursor.old.side cursor.old.place [] }
    ensures reads { IfOk result
        (IsReadTo D.honest (seen_of D.words cursor.old.disk) cursor.new.place) }
    ensures refused { IfErr result (RefusesToOpen D.honest (seen_of D.words cursor.old.disk)) }
    ensures keeps { D.honest → EachOnlyReads D.words cursor.old.disk cursor.new.disk }
    ensures failures { MatchResult result (λ _. FailsNot D.words cursor.old.disk cursor.new.disk)
        (FailsBy D.words cursor.old.disk cursor.new.disk) }
{
    match read_first(alloc, cursor)? {
        First::Missing => Ok(Reading::Outline(Book::new(alloc))),
        First::Leaves(book) => read_others(alloc, cursor, book),
        First::LeavesNone => {
            read_rest(cursor)?;
            Ok(Reading::Bad(1))
        }
    }
}

/// Reads the bodies that follow the first, which left a queue of this outline.
fn read_others<D: Disk>(
    alloc: Global,
    cursor: &mut Cursor<D>,
    mut book: Book,
) -> Result<Reading, SpoolFault>
    requires live { IsTrue cursor.old.live }
    requires some { 1 ≤ cursor.old.place }
    requires first { HasFirst
        D.honest (seen_of D.words cursor.old.disk) cursor.old.side cursor.old.place book.queue }
    ensures reads { IfOk result
        (IsReadTo D.honest (seen_of D.words cursor.old.disk) cursor.new.place) }
    ensures refused { IfErr result (RefusesToOpen D.honest (seen_of D.words cursor.old.disk)) }
    ensures keeps { D.honest → EachOnlyReads D.words cursor.old.disk cursor.new.disk }
    ensures failures { MatchResult result (λ _. FailsNot D.words cursor.old.disk cursor.new.disk)
        (FailsBy D.words cursor.old.disk cursor.new.disk) }
{
    let mut before: usize = 1;
    while let Some(body) = cursor.next()? {
        match read_body(alloc, book, body) {
            Ok(left) => book = left,
            Err(BookFault::BadRecord) => {
                read_rest(cursor)?;
                return Ok(Reading::Bad(before + 1));
            }
            Err(BookFault::NoMemory) => return Err(SpoolFault::NoMemory),
        }
        before += 1;
    }
    Ok(Reading::Outline(book))
}

/// Returns the outline that a body leaves after others, which left a queue of this outline. It fails with `BadRecord`
/// exactly if the body leaves no queue, and if memory runs out.
fn read_body(alloc: Global, mut book: Book, body: Pieces) -> Result<Book, BookFault>
    ensures reads { (queue : Queue) → book.queue ≡ outline_of queue
        → IfOk result (λ left. ReadsOutline queue (text_of body) left.queue) }
    ensures bad { (queue : Queue) → book.queue ≡ outline_of queue
        → IsErrOf result BookFault.BadRecord → ReadsNoBody queue (text_of body) }
{
    book.read_next_outline(alloc, body.into_vec()?)?;
    Ok(book)
}

/// Reads the bodies that follow, and keeps none.
fn read_rest<D: Disk>(cursor: &mut Cursor<D>) -> Result<(), SpoolFault>
    requires live { IsTrue cursor.old.live }
    ensures more { D.honest → (bodies : List (List ℕ))
        → HasRead (seen_of D.words cursor.old.disk) cursor.old.side cursor.old.place bodies
        → OnOk result (HasMore (seen_of D.words cursor.old.disk) bodies) }
    ensures refused { (bodies : List (List ℕ))
        → (D.honest → HasRead (seen_of D.words cursor.old.disk) cursor.old.side cursor.old.place bodies)
        → IfErr result (RefusesToOpen D.honest (seen_of D.words cursor.old.disk)) }
    ensures keeps { D.honest → EachOnlyReads D.words cursor.old.disk cursor.new.disk }
    ensures failures { MatchResult result (λ _. FailsNot D.words cursor.old.disk cursor.new.disk)
        (FailsBy D.words cursor.old.disk cursor.new.disk) }
{
    while let Some(_body) = cursor.next()? {}
    Ok(())
}
