//! Laws of what the log tells.
ghost use Rattle.relay_log.specs.Talk.{ToldHasSettled};

/// What is told as the reply that settled a place is the reply that did.
#[tactic(auto, using(crate::proofs::ToldLemmas::told_has_settled))]
pub fn told_has_settled()
    ensures { ToldHasSettled }
{}
