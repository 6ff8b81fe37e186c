// What is read of a first body so far.
ghost use Rattle.std.specs.Prelude.{◌≤◌, ◌+◌};
ghost use Rattle.relay_book.specs.Queue.{last_number};

use crate::book::Book;
use crate::version::SnapshotVersion;
use relay_pieces::Pieces;

/// The head of a snapshot, and how far its messages were read.
#[derive(Clone, Copy)]
pub(crate) struct SnapshotHead {
    pub(crate) version: SnapshotVersion,
    /// The next number of the queue.
    pub(crate) next: u64,
    /// The number of messages that are still to be read.
    pub(crate) left: u32,
    /// The number of octets still to come of the stored text of the message that was read last.
    pub(crate) skip: usize,
    ghost few: { next ≤ last_number + 1 },
}

/// Reads the first body of a spool, block by block, into the outline of the queue that it leaves. Of a snapshot it
/// holds one block, or the envelope of one message; the octets of stored texts are let go. A body that isn't a snapshot
/// is held whole.
#[derive(Drop)]
pub struct FirstOutline {
    /// The outlines of the messages that were read.
    pub(super) book: Book,
    /// The head of a snapshot, if one was read.
    pub(super) head: Option<SnapshotHead>,
    /// What follows that.
    pub(super) text: Pieces,
}
