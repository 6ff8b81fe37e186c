//! What a line buffer holds of a line that comes in pieces.
ghost use Rattle.std.specs.Prelude.{◌≡◌, ◌<◌, ◌++◌, IfOk, OnOk};
ghost use Rattle.relay_rows_tests.specs.PlayOutcome.{IsLineOutcome, ended_text, held_text, open_text};

use crate::pieces::next_piece;
use itoa::Buffer;
use relay_lines::LineBuffer;
use relay_octets::Octets;
use std::alloc::{AllocError, Global};

/// Returns the first line of the octets, and how many it has used, or all of them where none ends.
pub fn line_outcome(alloc: Global, octets: &[u8], size: usize) -> Result<Octets, AllocError>
    requires { 0 < size }
    ensures { IfOk result (IsLineOutcome octets.now) }
{
    let mut buffer = LineBuffer::new();
    let mut rest = octets;
    let mut come = 0;
    while !rest.is_empty() {
        let piece = next_piece(rest, size);
        if let Some(used) = buffer.feed(piece) {
            let outcome = ended(alloc, &buffer, come + used)?;
            return Ok(outcome);
        }
        come += piece.len();
        rest = &rest[piece.len()..];
    }
    let outcome = open(alloc, &buffer)?;
    Ok(outcome)
}

/// Returns how many octets a line has used that has ended, and what is held of it.
fn ended(alloc: Global, buffer: &LineBuffer, used: usize) -> Result<Octets, AllocError>
    ensures { IfOk result (λ outcome. outcome ≡ ended_text used buffer.now) }
{
    let mut outcome = Octets::from_slice(alloc, b"used ")?;
    outcome.push_slice(Buffer::new().format(used).as_bytes())?;
    outcome.push_slice(b": ")?;
    push_held(&mut outcome, buffer)?;
    Ok(outcome)
}

/// Returns what is held of a line that hasn't ended.
fn open(alloc: Global, buffer: &LineBuffer) -> Result<Octets, AllocError>
    ensures { IfOk result (λ outcome. outcome ≡ open_text buffer.now) }
{
    let mut outcome = Octets::from_slice(alloc, b"open: ")?;
    push_held(&mut outcome, buffer)?;
    Ok(outcome)
}

/// Returns what is held, after a word where it is none or too long.
fn push_held(out: &mut Octets, buffer: &LineBuffer) -> Result<(), AllocError>
    ensures { OnOk result (out.new ≡ out.old ++ held_text buffer.now) }
{
    if buffer.is_long() {
        out.push_slice(b"long ")?;
    }
    if buffer.is_empty() {
        return out.push_slice(b"nothing");
    }
    out.push_slice(buffer.octets())
}
