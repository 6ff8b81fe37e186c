ghost use Rattle.std.specs.Prelude.{◌≡◌, ◌+◌, ◌-◌, ◌^◌, ◌<◌, ◌≤◌, [], ◌++◌, drop, length, min, IfOk, OnErr, OnOk};
ghost use Rattle.relay_pieces.specs.Pieces.{TakesUp, first_of, in_pieces, text_of};
ghost use Rattle.relay_pieces.specs.Window.{Overlaps, front_of};

use crate::window::Window;
use std::alloc::{AllocError, Global};
use std::collections::VecDeque;
use std::marker::Model;

/// A text in pieces, read from its front: `advance` releases what was read, and `take_up` makes more readable. A
/// piece is read in place; octets are copied only at the seam of two pieces.
#[derive(Drop)]
pub struct Pieces {
    window: Window,
    rest: VecDeque<Vec<u8>>,
}

impl Model for Pieces {
    ghost use Rattle.relay_pieces.specs.Pieces.{InPieces, first_of, in_pieces};
    ghost use Rattle.relay_pieces.specs.Window.{Overlaps};

    ghost Value = { InPieces };

    ghost view = { λ pieces. in_pieces pieces.window pieces.rest.items };

    ghost invariant = { λ pieces. Overlaps pieces.window (first_of pieces.rest.items) };
}

impl Pieces {
    /// Makes an empty text. Allocates nothing.
    pub fn new(alloc: Global) -> Self
        ensures { text_of result ≡ [] }
    {
        Pieces::of_one(alloc, Vec::new(alloc))
    }

    /// Makes a text of one readable piece. Allocates nothing.
    pub fn of_one(alloc: Global, text: Vec<u8>) -> Self
        ensures { result ≡ record { front = text.items; after = []; left = 0 } }
    {
        Pieces {
            window: Window {
                held: text,
                used: 0,
                ahead: 0,
            },
            rest: VecDeque::new(alloc),
        }
    }

    /// Appends a piece. Fails if memory runs out.
    pub fn push(&mut self, piece: Vec<u8>) -> Result<(), AllocError>
        ensures { OnOk result (text_of self.new ≡ text_of self.old ++ piece.items) }
    {
        self.rest.push_back(piece)?;
        Ok(())
    }

    /// Returns the readable octets.
    pub fn front(&self) -> &[u8]
        ensures { result.now ≡ self.now.front }
    {
        &self.window.held[self.window.used..]
    }

    /// Returns the length of the text, at most 2^64 - 1.
    pub fn len(&self) -> usize
        ensures { result ≡ min (length (text_of self.now)) (2 ^ 64 - 1) }
    {
        let mut total = self.window.held.len() - self.window.used;
        let Some(next) = self.rest.front() else {
            return total;
        };
        total = total.saturating_add(next.len() - self.window.ahead);
        for index in 1..self.rest.len() {
            total = total.saturating_add(self.rest[index].len());
        }
        total
    }

    /// Releases `count` readable octets.
    pub fn advance(&mut self, count: usize)
        requires { count ≤ length self.old.front }
        ensures { self.new ≡ record self.old { front = drop count self.old.front } }
    {
        self.window.used += count;
    }

    /// Makes `count` octets readable, or all if the text has fewer. Needs memory only if fewer were readable and more
    /// follow them; if it runs out, the text is lost.
    pub fn hold_first(&mut self, count: usize) -> Result<(), AllocError>
        ensures text { OnOk result (text_of self.new ≡ text_of self.old) }
        ensures held { OnOk result (length self.new.front < count → self.new.after ≡ []) }
        ensures memory { OnErr result ((length self.old.front < count) × (0 < self.old.left)) }
    {
        if self.front().len() >= count {
            return Ok(());
        }
        self.take_up_to(count)
    }

    /// Takes up pieces until `count` octets are readable or none is left.
    fn take_up_to(&mut self, count: usize) -> Result<(), AllocError>
        ensures text { OnOk result (text_of self.new ≡ text_of self.old) }
        ensures held { OnOk result (length self.new.front < count → self.new.after ≡ []) }
        ensures memory { OnErr result (0 < self.old.left) }
    {
        while self.front().len() < count {
            if !self.take_up()? {
                return Ok(());
            }
        }
        Ok(())
    }

    /// Makes more octets readable, and returns whether any followed. Needs memory only if some did; if it runs out, the
    /// text is lost.
    pub fn take_up(&mut self) -> Result<bool, AllocError>
        ensures next { IfOk result (TakesUp self.old self.new) }
        ensures memory { OnErr result (0 < self.old.left) }
    {
        if self.window.held.len() - self.window.used > self.window.ahead {
            return join(&mut self.window, &mut self.rest);
        }
        let Some(piece) = self.rest.pop_front() else {
            return Ok(false);
        };
        self.window.turn(piece);
        Ok(true)
    }

    /// Returns the text as one `Vec`. A single piece isn't copied; joining several fails if memory runs out.
    pub fn into_vec(mut self) -> Result<Vec<u8>, AllocError>
        ensures { IfOk result (λ text. text.items ≡ text_of self) }
    {
        while self.take_up()? {}
        let Pieces { window, rest: _ } = self;
        Ok(window.into_vec())
    }
}

/// Copies octets of the next piece to the readable ones, and drops that piece once all of it is copied. Returns
/// whether there was one.
fn join(window: &mut Window, rest: &mut VecDeque<Vec<u8>>) -> Result<bool, AllocError>
    requires overlaps { Overlaps window.old (first_of rest.old.items) }
    requires left { window.old.ahead ≤ length (front_of window.old) }
    ensures overlaps { Overlaps window.new (first_of rest.new.items) }
    ensures next { IfOk result
        (TakesUp (in_pieces window.old rest.old.items) (in_pieces window.new rest.new.items)) }
    ensures memory { OnErr result (0 < length rest.old.items) }
{
    let Some(piece) = rest.front() else {
        return Ok(false);
    };
    window.join(piece)?;
    if window.ahead == piece.len() {
        window.ahead = 0;
        rest.pop_front();
    }
    Ok(true)
}
