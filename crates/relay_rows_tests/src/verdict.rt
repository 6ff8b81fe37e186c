ghost use Rattle.std.specs.Prelude.{◌≡◌, ◌↔◌, IfOk, IsTrue};
ghost use Rattle.relay_rows_tests.specs.PlayOutcome.{IsVerdict};

use crate::answer::Answer;
use crate::play::{Play, outcome_of};
use relay_octets::Octets;
use std::alloc::{AllocError, Global};

/// What a row came to.
#[derive(Drop)]
pub enum Verdict {
    /// What is written down, in pieces of every length.
    Equal,
    /// Something else, in pieces of this length.
    Differs(usize, Octets),
}

impl Verdict {
    /// Tells it in words.
    pub fn tell(&self, answer: &mut Answer) {
        match self {
            Verdict::Equal => answer.say("as written down"),
            Verdict::Differs(size, _) => answer.count("differs, in pieces of ", *size as u64),
        }
    }
}

/// Plays a row in pieces of every length, and compares what it comes to with what is wanted.
pub fn verdict_of(alloc: Global, play: &Play, wanted: &[u8]) -> Result<Verdict, AllocError>
    ensures { IfOk result (IsVerdict play.now wanted.now) }
{
    let sizes = play.sizes();
    for size in 1..sizes {
        let outcome = outcome_of(alloc, play, size)?;
        if !is_text(&outcome, wanted) {
            return Ok(Verdict::Differs(size, outcome));
        }
    }
    let whole = sizes.max(1);
    let outcome = outcome_of(alloc, play, whole)?;
    if !is_text(&outcome, wanted) {
        return Ok(Verdict::Differs(whole, outcome));
    }
    Ok(Verdict::Equal)
}

/// Returns whether the octets are this text.
pub fn is_text(octets: &Octets, text: &[u8]) -> bool
    ensures { IsTrue result ↔ (octets.now ≡ text.now) }
{
    octets.as_slice() == text
}
