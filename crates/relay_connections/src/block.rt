ghost use Rattle.std.specs.Prelude.{◌≡◌, ◌↔◌, [], IsTrue, drop, length, IfOk, OnErr};
ghost use Rattle.std.specs.Io.KnownBytes.{Consumes, IsAtEnd};

use crate::stream::Stream;
use std::alloc::{AllocError, Global};
use std::io;
use std::marker::Model;

/// How many octets are read from a connection at a time.
pub(crate) const BLOCK_SIZE: usize = 65_536;

/// The octets that were read from a connection and aren't used yet, at most one block. Allocates nothing before the
/// first read.
pub(crate) struct Block {
    octets: Vec<u8>,
    start: usize,
    end: usize,
}

// Written out, so that the proof of a caller that drops a block stops at this function.
impl Drop for Block {
    fn drop(self) {
        let Block {
            octets: _octets,
            start: _,
            end: _,
        } = self;
    }
}

impl Model for Block {
    ghost use Rattle.std.specs.Prelude.{◌≤◌, ◌-◌, ℕ, List, drop, length, take};

    ghost Value = { List ℕ };

    ghost view = { λ block. take (block.end - block.start) (drop block.start block.octets.items) };

    ghost invariant = { λ block. (block.start ≤ block.end) × (block.end ≤ length block.octets.items) };
}

impl Block {
    /// Returns an empty block.
    pub(crate) fn new(alloc: Global) -> Self
        ensures { result ≡ [] }
    {
        Block {
            octets: Vec::new(alloc),
            start: 0,
            end: 0,
        }
    }

    /// Returns the octets that aren't used yet.
    pub(crate) fn piece(&self) -> &[u8]
        ensures { result.now ≡ self.now }
    {
        &self.octets[self.start..self.end]
    }

    /// Returns whether all octets are used.
    pub(crate) fn is_empty(&self) -> bool
        ensures { IsTrue result ↔ (self.now ≡ []) }
    {
        self.piece().is_empty()
    }

    /// Marks `count` more octets as used, or all if there are fewer.
    pub(crate) fn used(&mut self, count: usize)
        ensures { self.new ≡ drop count self.old }
    {
        if count < self.end - self.start {
            self.start += count;
        } else {
            self.start = self.end;
        }
    }

    /// Reads the next octets of a stream, after all earlier ones were used, and returns how many; 0 means the end of
    /// the input. Fails as the stream does, or if memory runs out.
    pub(crate) fn fill<S: Stream>(&mut self, alloc: Global, stream: &mut S) -> io::Result<usize>
        requires { self.old ≡ [] }
        ensures came { Consumes (S.remaining stream.old) (S.remaining stream.new) self.new }
        ensures count { IfOk result (λ count. count ≡ length self.new) }
        ensures end { IfOk result (λ count. count ≡ 0 → IsAtEnd (S.remaining stream.new)) }
        ensures fault { OnErr result (self.new ≡ []) }
        ensures contents { S.contents stream.new ≡ S.contents stream.old }
    {
        self.start = 0;
        self.end = 0;
        if self.octets.is_empty() {
            self.octets = zeros(alloc, BLOCK_SIZE)?;
        }
        let count = stream.try_read(self.octets.as_mut_slice())?;
        self.end = count;
        Ok(count)
    }
}

/// Returns `count` zeros.
fn zeros(alloc: Global, count: usize) -> Result<Vec<u8>, AllocError>
    ensures { IfOk result (λ zeros. length zeros.items ≡ count) }
{
    vec![in alloc; 0; count]
}
