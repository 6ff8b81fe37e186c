ghost use Rattle.std.specs.Prelude.{◌≡◌, ◌<◌};
ghost use Rattle.relay_body.specs.ChunkText.{IsBetweenChunks};
ghost use Rattle.relay_body.specs.DotReading.{IsDone};

use crate::reply_table::Row;
use crate::state::{CommandState, Transaction};
use relay_body::{ChunkReader, DotReader};
use relay_octets::Octets;

/// Mail data that is coming in.
pub(crate) struct MailData {
    pub(crate) transaction: Transaction,
    pub(crate) reader: DotReader,
    ghost reading: { ¬ IsDone reader },
}

// Written out, so that the proof of a caller that drops mail data stops at this function.
impl Drop for MailData {
    fn drop(self) {
        let MailData {
            transaction: _transaction,
            reader: _reader,
        } = self;
    }
}

impl MailData {
    /// Returns the transaction, and the reader of its content.
    pub(crate) fn into_parts(self) -> (Transaction, DotReader)
        ensures { (result.0 ≡ self.transaction) × (result.1 ≡ self.reader) }
    {
        let MailData {
            transaction,
            reader,
        } = self;
        (transaction, reader)
    }
}

/// A chunk that is coming in.
pub(crate) struct Chunk {
    pub(crate) transaction: Transaction,
    pub(crate) reader: ChunkReader,
    /// Whether it ends the content.
    pub(crate) is_last: bool,
    ghost reading: { ¬ IsBetweenChunks reader },
}

// Written out, so that the proof of a caller that drops a chunk on its way stops at this function.
impl Drop for Chunk {
    fn drop(self) {
        let Chunk {
            transaction: _transaction,
            reader: _reader,
            is_last: _,
        } = self;
    }
}

impl Chunk {
    /// Returns the transaction, the reader of its chunks, and whether this one ends the content.
    pub(crate) fn into_parts(self) -> (Transaction, ChunkReader, bool)
        ensures { (result.0 ≡ self.transaction) × (result.1 ≡ self.reader) × (result.2 ≡ self.is_last) }
    {
        let Chunk {
            transaction,
            reader,
            is_last,
        } = self;
        (transaction, reader, is_last)
    }
}

/// A refused chunk that is coming in.
pub(crate) struct Skipped {
    /// The row that answers it.
    pub(crate) row: Row,
    /// The state after it.
    pub(crate) state: CommandState,
    /// The number of its octets that are still to come.
    pub(crate) missing: u32,
    ghost some: { 0 < missing },
}

// Written out, so that the proof of a caller that drops a refused chunk stops at this function.
impl Drop for Skipped {
    fn drop(self) {
        let Skipped {
            row: _,
            state: _state,
            missing: _,
        } = self;
    }
}

impl Skipped {
    /// Returns the row that answers it, the state after it, and how many octets are to come.
    pub(crate) fn into_parts(self) -> (Row, CommandState, u32)
        ensures { (result.0 ≡ self.row) × (result.1 ≡ self.state) × (result.2 ≡ self.missing) }
    {
        let Skipped {
            row,
            state,
            missing,
        } = self;
        (row, state, missing)
    }
}

/// What a session does with the next octets.
#[derive(Drop)]
pub(crate) enum Stage {
    /// They belong to a command line.
    Command(CommandState),
    /// They belong to mail data.
    Receiving(MailData),
    /// They belong to a chunk.
    Chunk(Chunk),
    /// They belong to a chunk that is refused, and are dropped.
    Skipping(Skipped),
    /// They wait until the offer of this content is answered.
    Offering(Transaction, Octets),
    /// They aren't read.
    Closed,
    /// Memory ran out, and each call answers that.
    Failed,
}
