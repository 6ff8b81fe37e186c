//! The effect of heard octets on their link and on the ledger.
ghost use Rattle.std.specs.Prelude.{◌≡◌, ◌+◌, ◌++◌, ◌<◌, ◌≤◌, false, OnErr, OnOk, drop, length, take, vec_capacity};
ghost use Rattle.std.specs.Prelude.{vec_len};
ghost use Rattle.std.specs.Option.{option_map};
ghost use Rattle.relay_world.specs.HangUp.{broken_link};
ghost use Rattle.relay_hosts.specs.Heard.{accept_lines, cut_off, end_after, heard_on};

use crate::links::{break_off, read_up};
use crate::recorded::Recorded;
use relay_node::Received;
use relay_world::{Line, Link, ServerEnd};
use std::alloc::AllocError;

/// Returns the octets after the first `read`, at most `count` of them.
pub fn waiting(octets: &[u8], read: usize, count: usize) -> &[u8]
    requires { read ≤ length octets.now }
    ensures { result.now ≡ take count (drop read octets.now) }
{
    let rest = &octets[read..];
    if rest.len() <= count {
        return rest;
    }
    &rest[..count]
}

/// Marks the heard octets as read, and writes the replies on the link. If memory for the replies runs out, the link
/// breaks.
pub fn answer_on(link: &mut Link, received: &Received) -> Result<(), AllocError>
    requires whole { link.old.broken ≡ false }
    requires within { link.old.up_read + received.now.used ≤ length link.old.up }
    ensures ok { OnOk result (link.new ≡ heard_on link.old received.now) }
    ensures err { OnErr result (link.new ≡ heard_on (broken_link link.old) received.now) }
    ensures answers { OnErr result (0 < length received.now.out.items) }
{
    read_up(link, received.used);
    close_server(link, received.close);
    if received.out.is_empty() {
        return Ok(());
    }
    match link.down.push_slice(received.out.as_slice()) {
        Ok(()) => Ok(()),
        Err(fault) => {
            link.broken = true;
            Err(fault)
        }
    }
}

/// Ends the session at the server end of a link, and breaks the link.
pub fn cut_off(link: &mut Link)
    ensures { link.new ≡ cut_off link.old }
{
    close_server(link, true);
    break_off(link);
}

/// Closes the server end of a link if `close` is set: its session is over then.
pub fn close_server(link: &mut Link, close: bool)
    ensures { link.new ≡ record link.old { server = option_map (end_after close) link.old.server } }
{
    if let Some(end) = &mut link.server {
        close_end(end, close);
    }
}

/// Ends the session of a server end if `close` is set.
fn close_end(end: &mut ServerEnd, close: bool)
    ensures { end.new ≡ end_after close end.old }
{
    if close {
        end.session = None;
    }
}

/// Adds a line to the ledger if the node has accepted a message. There is room for it.
pub fn push_accept(
    ledger: &mut Vec<Line>,
    node: usize,
    link: usize,
    change: Option<u64>,
    recorded: &Option<Recorded>,
)
    requires { vec_len ledger.old + 1 ≤ vec_capacity ledger.old }
    ensures items { ledger.new.items ≡ ledger.old.items ++ accept_lines node link change recorded.now }
    ensures len { vec_len ledger.new ≤ vec_len ledger.old + 1 }
    ensures capacity { vec_capacity ledger.old ≤ vec_capacity ledger.new }
{
    let Some(number) = change else {
        return;
    };
    let Some(recorded) = recorded else {
        return;
    };
    let line = Line::Accepted {
        node,
        number,
        places: recorded.accepted,
        link,
    };
    ledger.push(line).unwrap();
}
