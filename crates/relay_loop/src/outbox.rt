ghost use Rattle.std.specs.Prelude.{◌≡◌, ◌↔◌, ◌≤◌, [], length, drop, IsTrue};

use std::marker::Model;

/// Octets to be written to a connection.
pub struct Outbox {
    octets: Vec<u8>,
    /// How many of them were written.
    written: usize,
}

// Written out, so that the proof of a caller that drops an outbox stops at this function.
impl Drop for Outbox {
    fn drop(self) {
        let Outbox {
            octets: _octets,
            written: _,
        } = self;
    }
}

impl Model for Outbox {
    ghost use Rattle.std.specs.Prelude.{◌≤◌, ℕ, List, length, drop};

    ghost Value = { List ℕ };

    ghost view = { λ outbox. drop outbox.written outbox.octets.items };

    ghost invariant = { λ outbox. outbox.written ≤ length outbox.octets.items };
}

impl Outbox {
    /// Makes an outbox of these octets, all unwritten. Allocates nothing.
    pub fn new(octets: Vec<u8>) -> Self
        ensures { result ≡ octets.items }
    {
        Outbox { octets, written: 0 }
    }

    /// Returns the unwritten octets.
    pub fn as_slice(&self) -> &[u8]
        ensures { result.now ≡ self.now }
    {
        &self.octets[self.written..]
    }

    /// Returns whether all octets are written.
    pub fn is_empty(&self) -> bool
        ensures { IsTrue result ↔ (self.now ≡ []) }
    {
        self.as_slice().is_empty()
    }

    /// Drops the first `count` unwritten octets, which were written. Allocates nothing.
    pub fn wrote(&mut self, count: usize)
        requires { count ≤ length self.old }
        ensures { self.new ≡ drop count self.old }
    {
        self.written += count;
    }

    /// Returns the same outbox without its first `count` unwritten octets.
    pub(crate) fn after(self, count: usize) -> Self
        requires { count ≤ length self }
        ensures { result ≡ drop count self }
    {
        let mut outbox = self;
        outbox.wrote(count);
        outbox
    }
}
