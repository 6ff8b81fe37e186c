ghost use Rattle.std.specs.Prelude.{◌≡◌, ◌<◌, ◌≤◌, ◌↔◌, ℕ, List, [], true, false, length, nat_lt, Ok, IfOk, OnErr};
ghost use Rattle.std.specs.Prelude.{IsErr};
ghost use Rattle.std.specs.Prelude.{IsTrue};
ghost use Rattle.relay_body.specs.ChunkText.{Chunk, BeginsChunk, FeedsChunk, Gathers, HasChunks, HasNoMemory};
ghost use Rattle.relay_body.specs.ChunkText.{IsBetweenChunks, KeepsAll, chunk_limit_of, content_of_chunks};
ghost use Rattle.relay_body.specs.Gathering.{IsWithin, gathered_of};

use crate::gathered::{BodyFault, Gathered, Gathering};
use std::alloc::Global;

/// What a reader of chunks waits for.
#[derive(Clone, Copy, PartialEq, Eq)]
enum Stage {
    /// This many octets of the current chunk. At 0 it is whole.
    Awaits(u32),
    /// Memory ran out.
    Failed,
}

/// What a feed has done.
#[derive(Clone, Copy, PartialEq, Eq)]
pub struct ChunkCut {
    /// How many octets of the piece belong to the chunk.
    pub used: usize,
    /// Whether the chunk ends with them.
    pub done: bool,
}

/// A reader of the chunks of one message, which may come in any pieces (RFC 3030, section 2).
pub struct ChunkReader {
    stage: Stage,
    gathering: Gathering,
}

// Written out, so that the proof of a caller that drops a reader stops at this function.
impl Drop for ChunkReader {
    fn drop(self) {
        let ChunkReader {
            stage: _,
            gathering: _gathering,
        } = self;
    }
}

impl ChunkReader {
    /// Makes a reader that awaits no chunk yet. `limit` is the most octets of the content, all chunks together.
    /// Allocates nothing.
    pub fn new(alloc: Global, limit: usize) -> Self
        ensures { HasChunks result limit [] }
    {
        ChunkReader {
            stage: Stage::Awaits(0),
            gathering: Gathering::new(alloc, limit),
        }
    }

    /// Returns whether each chunk that was begun has come whole.
    pub fn is_done(&self) -> bool
        ensures { IsTrue result ↔ IsBetweenChunks self.now }
    {
        self.stage == Stage::Awaits(0)
    }

    /// Returns whether the octets that have come pass the limit.
    pub fn is_too_large(&self) -> bool
        ensures passes { (limit : ℕ) (content : List ℕ)
            → Gathers self.now limit content → result ≡ nat_lt limit (length content) }
        ensures kept { result ≡ false → KeepsAll self.now }
    {
        self.gathering.is_too_large()
    }

    /// Begins a chunk of this many octets. Allocates nothing, whatever the size.
    pub fn begin(&mut self, size: u32)
        requires { IsBetweenChunks self.old }
        ensures begins { BeginsChunk self.old self.new size }
        ensures limit { chunk_limit_of self.new ≡ chunk_limit_of self.old }
    {
        self.stage = Stage::Awaits(size);
    }

    /// Uses the next piece up to the end of the chunk, or nothing if no chunk is awaited. If the content passes the
    /// limit, it is dropped, and the rest of the chunk is discarded. If memory runs out, this call fails and every
    /// later one.
    pub fn feed(&mut self, piece: &[u8]) -> Result<ChunkCut, BodyFault>
        ensures feeds { IfOk result (FeedsChunk self.old self.new piece.now) }
        ensures within { IfOk result (λ cut. cut.used ≤ length piece.now) }
        ensures progress { 0 < length piece.now → ¬ IsBetweenChunks self.old
            → IfOk result (λ cut. 0 < cut.used) }
        ensures after { IsBetweenChunks self.old
            → (result ≡ Ok (record { used = 0; done = true })) × (self.new ≡ self.old) }
        ensures failed { OnErr result (HasNoMemory self.new) }
        ensures again { HasNoMemory self.old → IsErr result }
        ensures limit { chunk_limit_of self.new ≡ chunk_limit_of self.old }
    {
        match self.stage {
            Stage::Failed => Err(BodyFault::NoMemory),
            Stage::Awaits(0) => Ok(ChunkCut {
                used: 0,
                done: true,
            }),
            Stage::Awaits(missing) => self.take(missing, piece),
        }
    }

    /// Returns the content of the chunks, or that it was too large.
    pub fn finish(self) -> Gathered
        requires { IsBetweenChunks self }
        ensures content { (limit : ℕ) (chunks : List Chunk)
            → HasChunks self limit chunks → result ≡ gathered_of limit (content_of_chunks chunks) }
        ensures within { IsWithin (chunk_limit_of self) result }
    {
        let ChunkReader {
            stage: _,
            gathering,
        } = self;
        gathering.finish()
    }

    /// Uses the piece as far as octets are missing.
    fn take(&mut self, missing: u32, piece: &[u8]) -> Result<ChunkCut, BodyFault>
        requires stage { self.old.stage ≡ Stage.Awaits missing }
        requires some { 0 < missing }
        ensures feeds { IfOk result (FeedsChunk self.old self.new piece.now) }
        ensures within { IfOk result (λ cut. cut.used ≤ length piece.now) }
        ensures progress { 0 < length piece.now → IfOk result (λ cut. 0 < cut.used) }
        ensures failed { OnErr result (HasNoMemory self.new) }
        ensures limit { chunk_limit_of self.new ≡ chunk_limit_of self.old }
    {
        let used = piece.len().min(missing as usize);
        match self.gathering.keep(&piece[..used]) {
            Ok(()) => {
                let left = missing - used as u32;
                self.stage = Stage::Awaits(left);
                Ok(ChunkCut {
                    used,
                    done: left == 0,
                })
            }
            Err(_) => {
                self.stage = Stage::Failed;
                Err(BodyFault::NoMemory)
            }
        }
    }
}
