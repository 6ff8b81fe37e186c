//! What callers ask for.
ghost use Rattle.std.specs.Prelude.{ℕ, List, IfOk};

use std::alloc::{AllocError, Global};

/// What the octets of a caller say.
#[derive(Drop)]
pub enum Heard<Q> {
    /// They may become a request.
    More,
    /// They ask for this.
    Asks(Q),
    /// They are refused, with this answer.
    Refused(Vec<u8>),
}

/// What a caller can ask for.
pub trait Question: Drop + Sized {
    ghost use Rattle.relay_callers.specs.declared.question.Heard.{Heard};

    /// What octets say.
    ghost says: { List ℕ → Heard Self → Type 0 };

    /// Judges the octets that a caller has sent so far, 4,096 at most. Fails if memory runs out.
    fn judge(alloc: Global, octets: &[u8]) -> Result<Heard<Self>, AllocError>
        ensures { IfOk result (says octets.now) };
}
