//! The line of an envelope's row: its outcome, beside what is written down.
ghost use Rattle.std.specs.Prelude.{◌≡◌, IfOk, IsTrue, ◌↔◌};
ghost use Rattle.relay_rows_tests.specs.Outcome.{IsLine};

use crate::envelope::outcome_of;
use relay_octets::Octets;
use std::alloc::{AllocError, Global};

/// Returns the outcome of the row, and what is written down for it where that is another text. Fails if memory runs
/// out.
pub fn line_of(alloc: Global, row: &str, wanted: &str) -> Result<Octets, AllocError>
    ensures { IfOk result (IsLine row.now wanted.now) }
{
    let outcome = outcome_of(alloc, row)?;
    let mut line = Octets::from_slice(alloc, row.as_bytes())?;
    line.push_slice(b" => ")?;
    line.push_slice(outcome.as_slice())?;
    if !agrees(outcome.as_slice(), wanted.as_bytes()) {
        line.push_slice(b" DIFFERS FROM ")?;
        line.push_slice(wanted.as_bytes())?;
    }
    Ok(line)
}

/// Returns whether the outcome of a row is what is written down.
fn agrees(outcome: &[u8], wanted: &[u8]) -> bool
    ensures { IsTrue result ↔ (outcome.now ≡ wanted.now) }
{
    outcome == wanted
}
