//! A book that keeps the outline of a queue: of each text its length alone.
ghost use Rattle.std.specs.Prelude.{◌≡◌, ◌≤◌, ◌+◌, ◌++◌, ◌∷◌, [], IfOk, IsErrOf, OnOk, OnErr};
ghost use Rattle.relay_pieces.specs.Pieces.{text_of};
ghost use Rattle.relay_book.specs.Outline.{OutlinesEntries, OutlinesSnapshot, ReadsFirstOutline, ReadsOutline};
ghost use Rattle.relay_book.specs.Outline.{outline_message, outline_of};
ghost use Rattle.relay_book.specs.Queue.{Queue, empty_queue, last_number};
ghost use Rattle.relay_book.specs.Snapshot.{IsNoSnapshot};
ghost use Rattle.relay_book.specs.SnapshotFields.{HasNoEntries};
ghost use Rattle.relay_book.specs.StandsFor.{ReadsNoBody, ReadsNoFirst};

use super::first::is_of_snapshot;
use super::snapshot::next_head;
use crate::book::Book;
use crate::decode::{decode_record, next_entry};
use crate::fault::BookFault;
use crate::length::ENTRY_HEAD;
use crate::limits::LAST_NUMBER;
use crate::message::Message;
use crate::outline::{outline_change, outline_message};
use crate::version::SnapshotVersion;
use relay_pieces::Pieces;
use std::alloc::{AllocError, Global};

impl Book {
    /// Returns the book that keeps the outline of the queue that a first body leaves, which [`Book::read_first`] would
    /// return: of each text it has the length alone. It fails as that does.
    #[tactic(auto, using(crate::proofs::FirstLemmas::first_records, crate::proofs::OutlineReadLemmas::first_snapshot))]
    pub fn read_first_outline(alloc: Global, mut body: Pieces) -> Result<Self, BookFault>
        ensures reads { IfOk result (λ book. ReadsFirstOutline (text_of body) book.queue) }
        ensures bad { IsErrOf result BookFault.BadRecord → ReadsNoFirst (text_of body) }
    {
        body.hold_first(1)?;
        if is_of_snapshot(body.front()) {
            return Book::decode_snapshot_outline(alloc, body);
        }
        let mut book = Book::new(alloc);
        book.read_next_outline(alloc, body.into_vec()?)?;
        Ok(book)
    }

    /// Applies the change that a body records to the outline of a queue, as [`Book::read_next`] does to a queue: the
    /// book keeps the outline of the queue that the change leaves, and the body is let go. It fails with `BadRecord`
    /// exactly if the body records no change that fits the queue, and if memory runs out.
    #[tactic(auto, using(crate::proofs::FirstLemmas::no_record))]
    pub fn read_next_outline(&mut self, alloc: Global, body: Vec<u8>) -> Result<(), BookFault>
        ensures reads { (queue : Queue) → self.old.queue ≡ outline_of queue
            → OnOk result (ReadsOutline queue body.items self.new.queue) }
        ensures bad { (queue : Queue) → self.old.queue ≡ outline_of queue
            → IsErrOf result BookFault.BadRecord → ReadsNoBody queue body.items }
        ensures err { OnErr result (self.new.queue ≡ self.old.queue) }
    {
        let change = decode_record(alloc, body)?;
        let outline = outline_change(alloc, change)?;
        self.apply_decoded(alloc, outline)
    }

    /// Returns the book of the outline of the queue of which these octets are the snapshot. A text is let go before the
    /// next is read, and so are the pieces of the octets. It fails as `decode_snapshot` does.
    #[tactic(auto, using(crate::proofs::SnapshotReadLemmas::refused_snapshots))]
    fn decode_snapshot_outline(alloc: Global, mut octets: Pieces) -> Result<Self, BookFault>
        ensures snapshot { IfOk result (λ book. OutlinesSnapshot (text_of octets) book.queue) }
        ensures bad { IsErrOf result BookFault.BadRecord → IsNoSnapshot (text_of octets) }
    {
        let (version, next, count) = next_head(&mut octets)?;
        if next < 1 || next > LAST_NUMBER + 1 {
            return Err(BookFault::BadRecord);
        }
        let mut book = Book::new(alloc);
        book.read_entries_outline(alloc, version, next, count, octets)?;
        Ok(book)
    }

    /// Reads this many messages into an empty book, as `read_entries` does, and outlines each.
    #[tactic(auto, using(crate::proofs::SnapshotReadLemmas::counted_entries))]
    fn read_entries_outline(
        &mut self,
        alloc: Global,
        version: SnapshotVersion,
        next: u64,
        count: u32,
        mut text: Pieces,
    ) -> Result<(), BookFault>
        requires empty { self.old.queue ≡ empty_queue }
        requires some { 1 ≤ next }
        requires few { next ≤ last_number + 1 }
        ensures next { OnOk result (self.new.queue.next ≡ next) }
        ensures entries { OnOk result (OutlinesEntries version count next (text_of text) self.new.queue.messages) }
        ensures bad { IsErrOf result BookFault.BadRecord → HasNoEntries version count next (text_of text) }
    {
        if count as usize > text.len() / ENTRY_HEAD {
            return Err(BookFault::BadRecord);
        }
        self.make_room(count as usize)?;
        for index in 0..count {
            match next_entry(alloc, version, self.next_number(), next, &mut text) {
                Err(fault) => return Err(fault),
                Ok(message) => self.restore_outline(alloc, message)?,
            }
        }
        if text.len() > 0 {
            return Err(BookFault::BadRecord);
        }
        self.skip_to(next);
        Ok(())
    }

    /// Puts the outline of a message after the others, with its own number and places.
    fn restore_outline(&mut self, alloc: Global, message: Message) -> Result<(), AllocError>
        requires rise { self.old.queue.next ≤ message.number }
        requires few { message.number ≤ last_number }
        ensures next { OnOk result (self.new.queue.next ≡ message.number + 1) }
        ensures messages { OnOk result (self.new.queue.messages
            ≡ self.old.queue.messages ++ (message.number, outline_message message) ∷ []) }
    {
        let outline = outline_message(alloc, message)?;
        self.restore(outline)
    }
}
