//! Laws of chunks, whoever reads them.
ghost use Rattle.relay_body.specs.ChunkText.{ChunksHaveMemory, ChunksWithinLimit, CuttingSaysNothing};
ghost use Rattle.relay_body.specs.ChunkText.{EachReaderWasGivenChunks, NoMoreThanItsSize, SizesCutOnce, WholeIsBetween};
ghost use Rattle.relay_body.specs.ChunkText.{WholeIsOneMore};

/// A chunk in hand has come whole exactly if its reader is between chunks.
pub fn whole_is_between()
    ensures { WholeIsBetween }
{}

/// A chunk that has come whole is one more of the chunks.
pub fn whole_is_one_more()
    ensures { WholeIsOneMore }
{}

/// Of a chunk no more comes than its size says.
pub fn no_more_than_its_size()
    ensures { NoMoreThanItsSize }
{}

/// Octets fall in one way into whole chunks of given sizes.
pub fn sizes_cut_once()
    ensures { SizesCutOnce }
{}

/// The same octets, cut into any pieces, leave the same reader after.
pub fn cutting_says_nothing()
    ensures { CuttingSaysNothing }
{}

/// A reader of chunks holds no more octets of content than its limit.
pub fn chunks_within_limit()
    ensures { ChunksWithinLimit }
{}

/// A reader of chunks has met no lack of memory.
pub fn chunks_have_memory()
    ensures { ChunksHaveMemory }
{}

/// Each reader that has met no lack of memory was given chunks.
pub fn each_reader_was_given_chunks()
    ensures { EachReaderWasGivenChunks }
{}
