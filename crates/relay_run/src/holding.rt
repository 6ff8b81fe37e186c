//! What the answer to a request to hold mail says.
ghost use Rattle.std.specs.Prelude.{◌≡◌, ◌++◌, IfOk, List, OnOk, ℕ};
ghost use Rattle.relay_trace.specs.DateTime.{IsDateText};
ghost use Rattle.relay_run.specs.Holding.{IsHeldLine, SaysExpiry, beginning_of, expiry_of};

use relay_book::PATIENCE;
use relay_control::Scope;
use relay_disk::Disk;
use relay_loop::Relay;
use relay_trace::{Moment, date_text};
use std::alloc::{AllocError, Global};

/// Returns the line of the answer to a request that has held mail: whether it was held before, and when it expires.
pub(crate) fn held_line<D: Disk>(
    alloc: Global,
    relay: &Relay<D>,
    scope: &Scope,
    is_new: bool,
) -> Result<Vec<u8>, AllocError>
    ensures { IfOk result (λ line. IsHeldLine is_new (expiry_of relay.now.node scope.now) line.items) }
{
    let mut line = Vec::new(alloc);
    line.extend_from_slice(beginning(is_new))?;
    push_expiry(alloc, &mut line, expiry_of(relay, scope))?;
    Ok(line)
}

/// Returns how that line begins.
fn beginning(is_new: bool) -> &'static [u8]
    ensures { result.now ≡ beginning_of is_new }
{
    if is_new { b"held; " } else { b"held before; " }
}

/// Adds when held mail expires.
fn push_expiry(alloc: Global, line: &mut Vec<u8>, expiry: Option<Moment>) -> Result<(), AllocError>
    ensures { OnOk result ((rest : List ℕ) × SaysExpiry expiry rest × (line.new.items ≡ line.old.items ++ rest)) }
{
    match expiry {
        Some(moment) => {
            line.extend_from_slice(b"it still expires, on ")?;
            push_date(alloc, line, moment)
        }
        None => line.extend_from_slice(b"mail still expires 5 days after it was accepted"),
    }
}

/// Returns when a message expires; `None` for a next hop, or if the message isn't queued.
fn expiry_of<D: Disk>(relay: &Relay<D>, scope: &Scope) -> Option<Moment>
    ensures { result ≡ expiry_of relay.now.node scope.now }
{
    match scope {
        Scope::Hop(_) => None,
        Scope::Message(number) => {
            let message = relay.node().message(*number)?;
            let accepted = message.accept.at.seconds();
            Some(Moment::nearest(accepted.saturating_add(PATIENCE)))
        }
    }
}

/// Adds a date as a header has it (RFC 5322, 3.3).
fn push_date(alloc: Global, line: &mut Vec<u8>, moment: Moment) -> Result<(), AllocError>
    ensures { OnOk result ((date : List ℕ) × IsDateText moment date × (line.new.items ≡ line.old.items ++ date)) }
{
    match date_text(alloc, moment) {
        Ok(text) => line.extend_from_slice(text.as_slice()),
        Err(_) => Err(AllocError),
    }
}
