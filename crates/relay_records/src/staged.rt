//! Changes that are in the queue, and whose records are added to the spool together.
ghost use Rattle.std.specs.Prelude.{◌≡◌, ◌<◌, ◌^◌, ◌∷◌, [], ◌++◌, length, OnErr, OnOk};

use crate::fault::NodeFault;
use crate::noted::Noted;
use relay_spool::BodyRow;
use std::alloc::{AllocError, Global};
use std::marker::Model;

/// A row of changes that `Records::stage` took into the queue, and that no disk has yet. It isn't dropped:
/// `Records::settle` takes it, or `let_go`, where the records are given up.
pub struct Staged {
    pub(crate) bodies: BodyRow,
    /// The note of each, in order.
    pub(crate) notes: Vec<Noted>,
}

/// A row that wasn't added to the spool, with the reason.
#[derive(Drop)]
pub struct Unsettled {
    pub fault: NodeFault,
    /// The note of each change of the row, in order.
    pub notes: Vec<Noted>,
}

impl Model for Staged {
    ghost use Rattle.relay_records.specs.Staged.{Row};

    ghost Value = { Row };

    ghost view = { λ staged. record { bodies = staged.bodies; notes = staged.notes.items } };
}

impl Staged {
    ghost use Rattle.relay_spool.specs.Image.{room_of};
    ghost use Rattle.relay_records.specs.Staged.{no_row};

    /// Makes a row without a change. Allocates nothing.
    pub fn new(alloc: Global) -> Staged
        ensures { result ≡ no_row }
    {
        Staged {
            bodies: BodyRow::new(alloc),
            notes: Vec::new(alloc),
        }
    }

    /// Returns how many changes are staged.
    pub fn len(&self) -> usize
        ensures { result ≡ length self.now.notes }
    {
        self.notes.len()
    }

    /// Returns how many octets of a spool their records take.
    pub fn room(&self) -> usize
        ensures room { result ≡ room_of self.now.bodies }
        ensures limit { result < 2 ^ 63 }
    {
        self.bodies.room()
    }

    /// Puts a change after the others. If memory runs out, the row is unchanged.
    pub(crate) fn push(&mut self, noted: Noted) -> Result<(), AllocError>
        requires { length noted.octets < 2 ^ 32 }
        ensures bodies { OnOk result (self.new.bodies ≡ self.old.bodies ++ noted.octets ∷ []) }
        ensures notes { OnOk result (self.new.notes ≡ self.old.notes ++ noted ∷ []) }
        ensures same { OnErr result (self.new ≡ self.old) }
    {
        self.notes.reserve(1)?;
        self.bodies.push(noted.octets.as_slice())?;
        match self.notes.push(noted) {
            Ok(()) => Ok(()),
            Err(_) => unreachable!(),
        }
    }

    /// Gives the row up, and returns the notes.
    pub fn let_go(self) -> Vec<Noted>
        ensures { result.items ≡ self.notes }
    {
        let Staged {
            bodies: _bodies,
            notes,
        } = self;
        notes
    }
}
