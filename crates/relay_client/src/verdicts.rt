ghost use Rattle.std.specs.Prelude.{◌≡◌, [], ◌++◌, ◌∷◌, IfOk, OnOk};

use relay_book::Verdict;
use std::alloc::{AllocError, Global};
use std::marker::Model;

/// The verdicts of an attempt, one for each of its places and in their order.
pub struct Verdicts {
    items: Vec<Verdict>,
}

// Written out, so that the proof of a caller that drops verdicts stops at this function.
impl Drop for Verdicts {
    fn drop(self) {
        let Verdicts { items: _items } = self;
    }
}

impl Model for Verdicts {
    ghost use Rattle.std.specs.Prelude.{List};
    ghost use Rattle.relay_book.specs.declared.change.Verdict.{Verdict};

    ghost Value = { List Verdict };

    ghost view = { λ verdicts. verdicts.items.items };
}

impl Verdicts {
    /// No verdict yet, and room for this many. Fails if memory runs out.
    pub(crate) fn with_capacity(alloc: Global, count: usize) -> Result<Self, AllocError>
        ensures { IfOk result (λ verdicts. verdicts ≡ []) }
    {
        Ok(Verdicts {
            items: Vec::with_capacity(alloc, count)?,
        })
    }

    /// Adds the verdict of the next place. Fails if memory runs out.
    pub(crate) fn push(&mut self, verdict: Verdict) -> Result<(), AllocError>
        ensures { OnOk result (self.new ≡ self.old ++ verdict ∷ []) }
    {
        self.items.push(verdict)?;
        Ok(())
    }

    /// Returns the verdicts, in the order of the places.
    pub fn as_slice(&self) -> &[Verdict]
        ensures { result.now ≡ self.now }
    {
        self.items.as_slice()
    }

    /// Returns the verdicts as a `Vec`, without memory.
    pub fn into_vec(self) -> Vec<Verdict>
        ensures { result.items ≡ self }
    {
        let Verdicts { items } = self;
        items
    }
}
