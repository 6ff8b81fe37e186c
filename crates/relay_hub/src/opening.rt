//! What the contracts of a hub's threads refer to.
use std::marker::Brand;
use std::sync::ledger::Ledger;

/// Names the ledger of a hub, the lists of changes that its node kept when threads began to share it, and the answers
/// that it has given: to which client, when, to which offer. Exists in proofs alone. A contract learns of an answer in
/// no other way, so whoever claims one must have asked the hub.
pub trait Opening: Ledger {
    ghost use Rattle.std.specs.Prelude.{List, ℕ};
    ghost use Rattle.relay_book.specs.declared.change.Change.{Change};
    ghost use Rattle.relay_server.specs.declared.offer.Answer.{Answer};
    ghost use Rattle.relay_server.specs.Dialogue.{Offered};

    ghost starts: { List Change → Type 0 };

    ghost has_answered: { List ℕ → ℕ → Offered → Answer → Type 0 };
}

impl Opening for Brand {
    ghost starts = { λ _. Unit {0} };

    ghost has_answered = { λ _ _ _ _. Unit {0} };
}
