ghost use Rattle.std.specs.Prelude.{◌≡◌, ℕ, ◌∷◌, ◌++◌, ◌<◌, ◌≤◌, ◌↔◌, ◌||◌, ◌&&◌, nat_lt, List, [], length, take};
ghost use Rattle.std.specs.Prelude.{MatchOption, IsTrue};
ghost use Rattle.relay_octets.specs.Line.{begins_with_lf};
ghost use Rattle.relay_lines.specs.HeldLine.{HeldLine, Holds, HoldsLine, EndsLine, GoesOn};

use relay_octets::find_crlf;
use std::marker::Model;

/// The most octets of a command line or a reply line, with its CR LF: more than the 512 of RFC 5321, 4.5.3.1.4, which
/// the extensions raise.
pub const LINE_LIMIT: usize = 2048;

/// A line that comes in pieces, in a fixed array: the octets of a line after the first 2,048 are dropped.
pub struct LineBuffer {
    octets: [u8; LINE_LIMIT],
    len: usize,
    is_long: bool,
    after_cr: bool,
}

// Written out, so that the proof of a caller that drops a buffer stops at this function.
impl Drop for LineBuffer {
    fn drop(self) {
        let LineBuffer {
            octets: _,
            len: _,
            is_long: _,
            after_cr: _,
        } = self;
    }
}

impl Model for LineBuffer {
    ghost Value = { HeldLine };

    ghost view = { λ b. record { kept = take b.len b.octets; is_long = b.is_long; after_cr = b.after_cr } };

    ghost invariant = { λ b. b.len ≤ 2048 };
}

impl LineBuffer {
    /// Makes an empty buffer.
    pub fn new() -> Self
        ensures { Holds result [] }
    {
        LineBuffer {
            octets: [0; LINE_LIMIT],
            len: 0,
            is_long: false,
            after_cr: false,
        }
    }

    /// Takes octets up to the line's end, and returns how many it took, or takes the whole piece and returns `None` if
    /// the line goes on. Clear a buffer whose line has ended before you feed it again.
    pub fn feed(&mut self, piece: &[u8]) -> Option<usize>
        ensures taken { (octets : List ℕ) → Holds self.old octets
            → MatchOption result (Holds self.new (octets ++ piece.now))
            (λ used. EndsLine octets (take used piece.now) self.new) }
        ensures within { MatchOption result (Unit {0})
            (λ used. (0 < used) × (used ≤ length piece.now)) }
    {
        if self.is_ended_by(piece) {
            self.drop_cr();
            return Some(1);
        }
        match find_crlf(piece) {
            Some(place) => {
                self.push(&piece[..place]);
                self.end();
                Some(place + 2)
            }
            None => {
                self.push(piece);
                None
            }
        }
    }

    /// Returns whether the piece begins with the LF of a CR LF whose CR has come already.
    fn is_ended_by(&self, piece: &[u8]) -> bool
        ensures { result ≡ self.now.after_cr && begins_with_lf piece.now }
    {
        match piece {
            [first, ..] => self.after_cr && *first == b'\n',
            [] => false,
        }
    }

    /// Appends the octets that fit.
    fn push(&mut self, octets: &[u8])
        ensures { GoesOn self.old self.new octets.now }
    {
        let room = LINE_LIMIT - self.len;
        let Some(last) = octets.last() else {
            return;
        };
        let count = room.min(octets.len());
        let end = self.len + count;
        self.octets[self.len..end].copy_from_slice(&octets[..count]);
        self.len = end;
        self.is_long |= room < octets.len();
        self.after_cr = *last == b'\r';
    }

    /// Ends the line, whose CR LF counts among its octets.
    fn end(&mut self)
        ensures kept { self.new.kept ≡ self.old.kept }
        ensures is_long { self.new.is_long ≡ self.old.is_long || nat_lt 2046 (length self.old.kept) }
    {
        self.is_long |= LINE_LIMIT - 2 < self.len;
    }

    /// Ends the line where its CR has come already.
    fn drop_cr(&mut self)
        ensures { (line : List ℕ) → Holds self.old (line ++ 13 ∷ []) → HoldsLine self.new line }
    {
        if !self.is_long {
            self.len = self.len.saturating_sub(1);
        }
        self.end();
    }

    /// Returns whether the line has more than [`LINE_LIMIT`] octets. The first ones are in the buffer.
    pub fn is_long(&self) -> bool
        ensures { result ≡ self.now.is_long }
    {
        self.is_long
    }

    /// Returns the buffered octets.
    pub fn octets(&self) -> &[u8]
        ensures { result.now ≡ self.now.kept }
    {
        &self.octets[..self.len]
    }

    /// Returns whether the buffer is empty.
    pub fn is_empty(&self) -> bool
        ensures { IsTrue result ↔ (self.now.kept ≡ []) }
    {
        self.len == 0
    }

    /// Empties the buffer for the next line.
    pub fn clear(&mut self)
        ensures { Holds self.new [] }
    {
        self.len = 0;
        self.is_long = false;
        self.after_cr = false;
    }
}
