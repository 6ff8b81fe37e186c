//! The line that a caller sends.
ghost use Rattle.std.specs.Prelude.{IfOk, MatchOption};
ghost use Rattle.relay_control.specs.Request.{BeginsWithLine, HasNo, Judges};

use crate::refusal::Refusal;
use crate::request::{Request, read_request};
use memchr::memchr;
use relay_callers::MOST_OCTETS;
use std::alloc::{AllocError, Global};

/// Returns what the octets of a connection ask for, or why they are refused: `None` while more must come first. What
/// follows the first line is ignored. Fails if memory runs out.
pub fn judge(alloc: Global, octets: &[u8]) -> Result<Option<Result<Request, Refusal>>, AllocError>
    ensures { IfOk result (Judges octets.now) }
{
    match first_line(octets) {
        Some((line, _rest)) => Ok(Some(read_request(alloc, line)?)),
        None if octets.len() < MOST_OCTETS => Ok(None),
        None => Ok(Some(Err(Refusal::TooLong))),
    }
}

/// Returns the first line of octets, without its LF, and what follows that.
fn first_line(octets: &[u8]) -> Option<(&[u8], &[u8])>
    ensures { MatchOption result (HasNo 10 octets.now)
        (λ parts. BeginsWithLine octets.now parts.0.now parts.1.now) }
{
    match memchr(b'\n', octets) {
        Some(end) => Some((&octets[..end], &octets[end + 1..])),
        None => None,
    }
}
