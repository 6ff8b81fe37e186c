ghost use Rattle.std.specs.Prelude.{◌≡◌, ◌↔◌, [], ◌++◌, IsTrue, drop, false, true};

use std::alloc::Global;
use std::marker::Model;

/// The most octets that are held back.
const HELD_SIZE: usize = 4_096;

/// Octets that are held back, so that they go in one write with those that come next. Allocates nothing before the
/// first.
pub(crate) struct Held {
    octets: Vec<u8>,
    /// How many of them were written.
    written: usize,
}

// Written out, so that the proof of a caller that drops them stops at this function.
impl Drop for Held {
    fn drop(self) {
        let Held {
            octets: _octets,
            written: _,
        } = self;
    }
}

impl Model for Held {
    ghost use Rattle.std.specs.Prelude.{◌≤◌, ℕ, List, drop, length};

    ghost Value = { List ℕ };

    ghost view = { λ held. drop held.written held.octets.items };

    ghost invariant = { λ held. held.written ≤ length held.octets.items };
}

impl Held {
    /// Returns no octets.
    pub(crate) fn new(alloc: Global) -> Self
        ensures { result ≡ [] }
    {
        Held {
            octets: Vec::new(alloc),
            written: 0,
        }
    }

    /// Returns the unwritten octets.
    pub(crate) fn as_slice(&self) -> &[u8]
        ensures { result.now ≡ self.now }
    {
        &self.octets[self.written..]
    }

    /// Returns whether there are no unwritten octets.
    pub(crate) fn is_empty(&self) -> bool
        ensures { IsTrue result ↔ (self.now ≡ []) }
    {
        self.as_slice().is_empty()
    }

    /// Appends octets. Returns false if they are too many or memory runs out; none are appended then.
    pub(crate) fn push(&mut self, octets: &[u8]) -> bool
        ensures held { result ≡ true → self.new ≡ self.old ++ octets.now }
        ensures same { result ≡ false → self.new ≡ self.old }
    {
        if self.is_empty() {
            self.octets.clear();
            self.written = 0;
        }
        self.octets.len().saturating_add(octets.len()) <= HELD_SIZE
            && self.octets.extend_from_slice(octets).is_ok()
    }

    /// Counts octets as written; all if there are fewer.
    pub(crate) fn wrote(&mut self, count: usize)
        ensures { self.new ≡ drop count self.old }
    {
        self.written = self.written.saturating_add(count).min(self.octets.len());
    }
}
