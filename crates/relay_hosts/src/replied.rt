//! The effect of replies that an attempt has read on the attempt, its link and the ledger.
ghost use Rattle.std.specs.Prelude.{◌≡◌, ◌+◌, ◌++◌, ◌<◌, ◌≤◌, OnErr, OnOk, true, length, vec_capacity, vec_len};
ghost use Rattle.relay_world.specs.Steps.{waiting_down};
ghost use Rattle.relay_hosts.specs.Replied.{replied_attempt, replied_lines};

use crate::heard::waiting;
use crate::ledger::{push_left, report_told};
use crate::recorded::Recorded;
use relay_world::{Attempt, Fate, Line, Link};
use std::alloc::AllocError;

/// Returns the unread octets at the client end of a link, at most `count` of them.
pub fn waiting_down(link: &Link, count: usize) -> &[u8]
    requires { link.now.down_read ≤ length link.now.down }
    ensures { result.now ≡ waiting_down count link.now }
{
    waiting(link.down.as_slice(), link.down_read, count)
}

/// Ends an attempt if its replies led to a change, and adds the places that left or were delayed to the ledger, which
/// has room for them.
pub fn end_by_replies(
    attempt: &mut Attempt,
    ledger: &mut Vec<Line>,
    number: usize,
    change: Option<u64>,
    recorded: &Option<Recorded>,
)
    requires { vec_len ledger.old + length (replied_lines number attempt.old change recorded.now)
        ≤ vec_capacity ledger.old }
    ensures attempt { attempt.new ≡ replied_attempt attempt.old change }
    ensures items { ledger.new.items ≡ ledger.old.items ++ replied_lines number attempt.old change recorded.now }
    ensures len { vec_len ledger.new
        ≡ vec_len ledger.old + length (replied_lines number attempt.old change recorded.now) }
    ensures capacity { vec_capacity ledger.old ≤ vec_capacity ledger.new }
{
    let Some(change) = change else {
        return;
    };
    attempt.fate = Fate::Replied(change);
    let Some(recorded) = recorded else {
        return;
    };
    let report = report_told(change, recorded.report);
    let left = recorded.left.as_slice();
    push_left(ledger, attempt.node, attempt.message, number, report, left);
}

/// Writes octets at the client end of a link, if there are any. If memory for them runs out, the link breaks.
pub fn write_up(link: &mut Link, octets: &[u8]) -> Result<(), AllocError>
    ensures ok { OnOk result (link.new ≡ record link.old { up = link.old.up ++ octets.now }) }
    ensures err { OnErr result (link.new ≡ record link.old { broken = true }) }
    ensures some { OnErr result (0 < length octets.now) }
{
    if octets.is_empty() {
        return Ok(());
    }
    match link.up.push_slice(octets) {
        Ok(()) => Ok(()),
        Err(fault) => {
            link.broken = true;
            Err(fault)
        }
    }
}
