//! Bodies that are added to a spool together.
ghost use Rattle.std.specs.Prelude.{◌≡◌, ◌≢◌, ◌↔◌, ◌+◌, ◌<◌, ◌^◌, [], ◌∷◌, ◌++◌, length, IsTrue, OnErr, OnOk};

use crate::gate::CLOSED;
use crate::link::{BODY_OVERHEAD, push_link};
use std::alloc::{AllocError, Global};
use std::marker::Model;

/// A row of bodies, which `Spool::append_all` adds together: whenever a stop comes, all of them or none.
#[derive(Drop)]
pub struct BodyRow {
    /// A link for each body, with room after them for the gate that closes the chain.
    links: Vec<u8>,
}

impl Model for BodyRow {
    ghost use Rattle.std.specs.Prelude.{ℕ, List};
    ghost use Rattle.relay_spool.specs.Row.{HasRoomToClose, bodies_of_chain};
    ghost use Rattle.relay_spool.specs.Image.{IsChain};

    ghost Value = { List (List ℕ) };

    ghost view = { λ row. bodies_of_chain row.links.items };

    ghost invariant = { λ row. IsChain row.links.items (bodies_of_chain row.links.items)
        × HasRoomToClose row.links };
}

impl BodyRow {
    ghost use Rattle.relay_spool.specs.Head.{AreAdded};
    ghost use Rattle.relay_spool.specs.Image.{room_of};

    /// Makes a row without a body. Allocates nothing.
    pub fn new(alloc: Global) -> BodyRow
        ensures { result ≡ [] }
    {
        BodyRow {
            links: Vec::new(alloc),
        }
    }

    /// Puts a body of at most 4,294,967,295 octets after the others. If memory runs out, the row is unchanged.
    pub fn push(&mut self, body: &[u8]) -> Result<(), AllocError>
        requires { length body.now < 2 ^ 32 }
        ensures pushed { OnOk result (self.new ≡ self.old ++ body.now ∷ []) }
        ensures same { OnErr result (self.new ≡ self.old) }
    {
        self.links.reserve(BODY_OVERHEAD + body.len() + 1)?;
        match push_link(&mut self.links, body) {
            Ok(()) => Ok(()),
            Err(_) => unreachable!(),
        }
    }

    /// Returns how many octets of a spool the bodies take.
    pub fn room(&self) -> usize
        ensures room { result ≡ room_of self.now }
        ensures limit { result < 2 ^ 63 }
    {
        self.links.as_slice().len()
    }

    pub fn is_empty(&self) -> bool
        ensures { IsTrue result ↔ (self.now ≡ []) }
    {
        self.links.is_empty()
    }

    /// What is written for the bodies of a row that has any: their links, and a closed gate. Allocates nothing.
    pub(crate) fn closed(self) -> Vec<u8>
        requires { self ≢ [] }
        ensures { AreAdded result.items self }
    {
        let BodyRow { mut links } = self;
        match links.push(CLOSED) {
            Ok(()) => links,
            Err(_) => unreachable!(),
        }
    }
}
