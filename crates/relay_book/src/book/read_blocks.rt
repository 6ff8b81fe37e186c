//! The outline of a first body that is read block by block.
ghost use Rattle.std.specs.Prelude.{◌≡◌, ◌≤◌, ◌<◌, ◌+◌, ◌++◌, [], ℕ, List, length, IfOk, IsErrOf, OnOk};
ghost use Rattle.relay_pieces.specs.Pieces.{text_of};
ghost use Rattle.relay_book.specs.Fields.{HasNone};
ghost use Rattle.relay_book.specs.FirstOutline.{BeginsSnapshot, HasReadOctets, IsReading, ReadsSoFar};
ghost use Rattle.relay_book.specs.Outline.{ReadsFirstOutline};
ghost use Rattle.relay_book.specs.Queue.{last_number};
ghost use Rattle.relay_book.specs.Snapshot.{entry_octets};
ghost use Rattle.relay_book.specs.SnapshotFields.{IsQueuedIn};
ghost use Rattle.relay_book.specs.StandsFor.{ReadsNoFirst};

use super::first_outline::{FirstOutline, SnapshotHead};
use super::snapshot::{HEAD_LENGTH, read_head};
use crate::book::Book;
use crate::decode::{after, next_outlined};
use crate::fault::BookFault;
use crate::limits::LAST_NUMBER;
use relay_pieces::Pieces;
use std::alloc::{AllocError, Global};

impl FirstOutline {
    /// Makes the outline of a body of which nothing was read. Allocates nothing.
    pub fn new(alloc: Global) -> Self
        ensures { HasReadOctets result [] }
    {
        FirstOutline {
            book: Book::new(alloc),
            head: None,
            text: Pieces::new(alloc),
        }
    }

    /// Reads the next octets of the body, which may be cut anywhere. If memory runs out, nothing more can be read.
    pub fn read(&mut self, alloc: Global, block: Vec<u8>) -> Result<(), AllocError>
        ensures { (octets : List ℕ) → HasReadOctets self.old octets
            → OnOk result (HasReadOctets self.new (octets ++ block.items)) }
    {
        match self.head {
            Some(head) => self.read_more(alloc, head, block),
            None => self.read_front(alloc, block),
        }
    }

    /// Reads the next octets after the head of a snapshot.
    fn read_more(
        &mut self,
        alloc: Global,
        head: SnapshotHead,
        block: Vec<u8>,
    ) -> Result<(), AllocError>
        ensures { (octets : List ℕ) → IsReading head octets self.old.book.queue (text_of self.old.text)
            → OnOk result (HasReadOctets self.new (octets ++ block.items)) }
    {
        if head.skip > block.len() {
            self.head = Some(SnapshotHead {
                version: head.version,
                next: head.next,
                left: head.left,
                skip: head.skip - block.len(),
            });
            return Ok(());
        }
        let rest = after(block, head.skip);
        self.text.push(rest)?;
        let read = read_ready(alloc, head, &mut self.book, &mut self.text)?;
        self.head = Some(read);
        Ok(())
    }

    /// Reads the next octets where no head was read.
    fn read_front(&mut self, alloc: Global, block: Vec<u8>) -> Result<(), AllocError>
        ensures { (octets : List ℕ) → text_of self.old.text ≡ octets
            → OnOk result (HasReadOctets self.new (octets ++ block.items)) }
    {
        self.text.push(block)?;
        match next_begun(&mut self.text)? {
            Some(head) => {
                let mut book = Book::new(alloc);
                let read = read_ready(alloc, head, &mut book, &mut self.text)?;
                self.book = book;
                self.head = Some(read);
                Ok(())
            }
            None => {
                self.head = None;
                Ok(())
            }
        }
    }

    /// Returns the book that keeps the outline of the queue that the body leaves, as [`Book::read_first_outline`] does
    /// of a whole body. It fails as that does.
    pub fn finish(self, alloc: Global) -> Result<Book, BookFault>
        ensures reads { (octets : List ℕ) → HasReadOctets self octets
            → IfOk result (λ book. ReadsFirstOutline octets book.queue) }
        ensures bad { (octets : List ℕ) → HasReadOctets self octets
            → IsErrOf result BookFault.BadRecord → ReadsNoFirst octets }
    {
        let FirstOutline {
            mut book,
            head,
            text,
        } = self;
        match head {
            Some(head) => {
                end_snapshot(head, &mut book, &text)?;
                Ok(book)
            }
            None => Book::read_first_outline(alloc, text),
        }
    }
}

/// Gives a book the next number of a snapshot, if all of its messages were read, and nothing follows them.
fn end_snapshot(head: SnapshotHead, book: &mut Book, text: &Pieces) -> Result<(), BookFault>
    ensures reads { (octets : List ℕ) → IsReading head octets book.old.queue (text_of text.now)
        → OnOk result (ReadsFirstOutline octets book.new.queue) }
    ensures bad { (octets : List ℕ) → IsReading head octets book.old.queue (text_of text.now)
        → IsErrOf result BookFault.BadRecord → ReadsNoFirst octets }
{
    if head.skip > 0 {
        return Err(BookFault::BadRecord);
    }
    if head.left > 0 {
        return Err(BookFault::BadRecord);
    }
    if text.len() > 0 || book.next_number() > head.next {
        return Err(BookFault::BadRecord);
    }
    book.skip_to(head.next);
    Ok(())
}

/// Reads the head of a snapshot at the front of a text, if one is there, and lets go of it.
fn next_begun(text: &mut Pieces) -> Result<Option<SnapshotHead>, AllocError>
    ensures { IfOk result (BeginsSnapshot (text_of text.old) (text_of text.new)) }
{
    text.hold_first(HEAD_LENGTH)?;
    let front = text.front();
    let Some((version, next, count, rest)) = read_head(front) else {
        return Ok(None);
    };
    if next < 1 || next > LAST_NUMBER + 1 {
        return Ok(None);
    }
    let used = front.len() - rest.len();
    text.advance(used);
    Ok(Some(SnapshotHead {
        version,
        next,
        left: count,
        skip: 0,
    }))
}

/// Reads the messages that begin a text, at most as many as are left, and puts their outlines into a book. Returns how
/// far the snapshot is read then.
fn read_ready(
    alloc: Global,
    head: SnapshotHead,
    book: &mut Book,
    text: &mut Pieces,
) -> Result<SnapshotHead, AllocError>
    ensures { (octets : List ℕ)
        → ReadsSoFar head.version head.next head.left octets book.old.queue (text_of text.old)
        → IfOk result (λ read. IsReading read octets book.new.queue (text_of text.new)) }
{
    for index in 0..head.left {
        let least = book.next_number();
        match next_outlined(alloc, head.version, least, head.next, text) {
            Ok((outline, missing)) => {
                book.restore(outline)?;
                if missing > 0 {
                    return Ok(SnapshotHead {
                        version: head.version,
                        next: head.next,
                        left: head.left - index - 1,
                        skip: missing,
                    });
                }
            }
            Err(BookFault::BadRecord) => {
                return Ok(SnapshotHead {
                    version: head.version,
                    next: head.next,
                    left: head.left - index,
                    skip: 0,
                });
            }
            Err(BookFault::NoMemory) => return Err(AllocError),
        }
    }
    Ok(SnapshotHead {
        version: head.version,
        next: head.next,
        left: 0,
        skip: 0,
    })
}
