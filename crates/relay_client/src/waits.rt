ghost use Rattle.std.specs.Prelude.{◌≡◌, [], ◌∷◌, ◌++◌, OnOk, MatchOption, IsTrue, ◌↔◌};

use relay_course::Awaited;
use std::alloc::{AllocError, Global};
use std::collections::VecDeque;
use std::marker::Model;

/// The commands that await a reply, the earliest first (RFC 2920, section 3.1).
#[derive(Drop)]
pub(crate) struct Waits {
    queue: VecDeque<Awaited>,
}

impl Model for Waits {
    ghost use Rattle.std.specs.Prelude.{List};
    ghost use Rattle.relay_course.specs.declared.awaited.Awaited.{Awaited};

    ghost Value = { List Awaited };

    ghost view = { λ waits. waits.queue.items };
}

impl Waits {
    /// Nothing waits. Allocates nothing.
    pub(crate) fn new(alloc: Global) -> Self
        ensures { result ≡ [] }
    {
        Waits {
            queue: VecDeque::new(alloc),
        }
    }

    /// A command was written, and waits after the others. Fails if memory runs out.
    pub(crate) fn push(&mut self, waited: Awaited) -> Result<(), AllocError>
        ensures { OnOk result (self.new ≡ self.old ++ waited ∷ []) }
    {
        self.queue.push_back(waited)?;
        Ok(())
    }

    /// Takes the earliest, to which a reply has come.
    pub(crate) fn take_first(&mut self) -> Option<Awaited>
        ensures { MatchOption result ((self.old ≡ []) × (self.new ≡ []))
            (λ waited. self.old ≡ waited ∷ self.new) }
    {
        self.queue.pop_front()
    }

    /// Returns whether nothing waits.
    pub(crate) fn is_empty(&self) -> bool
        ensures { IsTrue result ↔ (self.now ≡ []) }
    {
        self.queue.is_empty()
    }
}
