// The readable octets of a text in pieces.
ghost use Rattle.std.specs.Prelude.{◌≡◌, ◌≤◌, drop, length};

use std::alloc::AllocError;

/// The octets of a piece that are copied to the rest of the piece before it, unless that rest is longer. A message of
/// usual size is whole then, and few octets are copied twice.
const SEAM: usize = 1 << 12;

/// The readable octets: those of a piece, or the last ones of a piece and a copy of the next piece's first ones.
#[derive(Drop)]
pub(crate) struct Window {
    pub(crate) held: Vec<u8>,
    /// The number of held octets that were released.
    pub(crate) used: usize,
    /// The number of held octets, the last ones, that are copies of the next piece's first ones.
    pub(crate) ahead: usize,
    ghost within: { used ≤ length held.items },
}

impl Window {
    ghost use Rattle.std.specs.Prelude.{◌<◌, ◌++◌, OnOk};
    ghost use Rattle.relay_pieces.specs.Window.{Overlaps, front_of};

    /// Copies octets of the next piece to the readable ones: as many as these are, or as the piece has.
    pub(crate) fn join(&mut self, piece: &[u8]) -> Result<(), AllocError>
        requires overlaps { Overlaps self.old piece.now }
        requires left { self.old.ahead ≤ length (front_of self.old) }
        ensures overlaps { Overlaps self.new piece.now }
        ensures text { OnOk result
            (front_of self.new ++ drop self.new.ahead piece.now ≡ front_of self.old ++ drop self.old.ahead piece.now) }
        ensures no_less { OnOk result (self.old.ahead ≤ self.new.ahead) }
        ensures more { OnOk result (self.old.ahead < length piece.now → self.old.ahead < self.new.ahead) }
    {
        self.settle(piece);
        let after = &piece[self.ahead..];
        let count = self.held.len().max(SEAM).min(after.len());
        self.held.extend_from_slice(&after[..count])?;
        self.ahead += count;
        Ok(())
    }

    /// Moves the readable octets to the start of the buffer.
    fn settle(&mut self, piece: &[u8])
        requires overlaps { Overlaps self.old piece.now }
        requires left { self.old.ahead ≤ length (front_of self.old) }
        ensures overlaps { Overlaps self.new piece.now }
        ensures text { self.new.held.items ≡ front_of self.old }
        ensures used { self.new.used ≡ 0 }
        ensures ahead { self.new.ahead ≡ self.old.ahead }
    {
        drop_front(&mut self.held, self.used);
        self.used = 0;
    }

    /// Goes on in the next piece itself, if all readable octets are copies of its octets.
    pub(crate) fn turn(&mut self, piece: Vec<u8>)
        requires overlaps { Overlaps self.old piece.items }
        requires left { length (front_of self.old) ≤ self.old.ahead }
        ensures text { front_of self.new ≡ front_of self.old ++ drop self.old.ahead piece.items }
        ensures ahead { self.new.ahead ≡ 0 }
    {
        self.used = self.ahead - (self.held.len() - self.used);
        self.ahead = 0;
        self.held = piece;
    }

    /// Returns the readable octets in the buffer's own memory.
    pub(crate) fn into_vec(self) -> Vec<u8>
        ensures { result.items ≡ front_of self }
    {
        let Window {
            mut held,
            used,
            ahead: _,
        } = self;
        drop_front(&mut held, used);
        held
    }
}

/// Removes the first `count` octets.
fn drop_front(octets: &mut Vec<u8>, count: usize)
    requires { count ≤ length octets.old.items }
    ensures { octets.new.items ≡ drop count octets.old.items }
{
    if count == 0 {
        return;
    }
    let left = octets.len() - count;
    octets.copy_within(count.., 0);
    octets.truncate(left);
}
