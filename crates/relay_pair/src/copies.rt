//! How many copies of a message reach a recipient from a node.
ghost use Rattle.std.specs.Prelude.{◌≡◌, ◌==◌, ◌&&◌, ◌≤◌, [], ◌∷◌, length, slice_get, Some, IfOk};
ghost use Rattle.relay_course.specs.VerdictTable.{is_accepted};
ghost use Rattle.relay_pair.specs.Copied.{AreReplies, CountsBy, CountsCopies, accepts_place, after_mail};
ghost use Rattle.relay_pair.specs.Copied.{is_greeted_again, is_no_memory};
ghost use Rattle.relay_events.specs.Relays.{AreBound, world_of};
ghost use Rattle.relay_world.specs.Ledger.{accepts_on};

use relay_course::{ReplyKind, kind_of};
use relay_disk::Disk;
use relay_events::Relays;
use relay_hosts::links::place_of;
use relay_lines::{Reply, ReplyFault, ReplyReader};
use relay_world::passing::copies_are_few;
use relay_world::{Attempt, Line};
use std::alloc::{AllocError, Global};

/// Returns how many copies of a node's message hold a place of it: the messages that were accepted on the links of
/// attempts whose RCPT for the place got a 2yz reply. Fails if memory runs out.
pub(crate) fn count_copies<D: Disk>(
    relays: &Relays<D>,
    alloc: Global,
    node: usize,
    message: u64,
    place: u64,
) -> Result<usize, AllocError>
    requires { AreBound D.honest D.words (world_of relays.now) }
    ensures { IfOk result (CountsCopies D.honest D.words (world_of relays.now) node message place) }
{
    copies_are_few::<D>();
    let mut count: usize = 0;
    for (at, attempt) in relays.attempts.iter().enumerate() {
        count += count_copies_by(relays, alloc, node, message, place, at, attempt)?;
    }
    Ok(count)
}

/// Returns how many of the copies this attempt has made.
fn count_copies_by<D: Disk>(
    relays: &Relays<D>,
    alloc: Global,
    node: usize,
    message: u64,
    place: u64,
    at: usize,
    attempt: &Attempt,
) -> Result<usize, AllocError>
    requires bound { AreBound D.honest D.words (world_of relays.now) }
    requires is_there { slice_get relays.now.attempts.items at ≡ Some attempt.now }
    ensures { IfOk result (CountsBy D.honest D.words (world_of relays.now) node message place attempt.now) }
{
    if attempt.node != node || attempt.message != message {
        return Ok(0);
    }
    let Some(link) = place_of(relays.links.as_slice(), attempt.link) else {
        unreachable!()
    };
    let link = &relays.links[link];
    let replies = replies_in(alloc, &link.down.as_slice()[..link.down_read])?;
    if accepts_place(
        place,
        attempt.places.as_slice(),
        rcpt_replies(replies.as_slice()),
    ) {
        return Ok(accepts_on(relays.ledger.as_slice(), attempt.link));
    }
    Ok(0)
}

/// Returns how many messages were accepted on a link.
fn accepts_on(ledger: &[Line], link: usize) -> usize
    ensures { result ≡ length (accepts_on link ledger.now) }
{
    let mut count: usize = 0;
    for line in ledger {
        count += accepts_by(line, link);
    }
    count
}

/// Returns 1 if the ledger line accepts a message on the link, else 0.
fn accepts_by(line: &Line, link: usize) -> usize
    ensures count { result ≡ length (accepts_on link (line.now ∷ [])) }
    ensures few { result ≤ 1 }
{
    match *line {
        Line::Accepted { link: other, .. } => { if other == link { 1 } else { 0 } }
        Line::Became { .. } => 0,
    }
}

/// Returns the replies at the start of the octets, as many as are whole. Fails if memory runs out.
fn replies_in(alloc: Global, octets: &[u8]) -> Result<Vec<Reply>, AllocError>
    ensures { IfOk result (λ replies. AreReplies octets.now replies.items) }
{
    let mut reader = ReplyReader::new(alloc);
    let mut replies = Vec::new(alloc);
    let mut used = 0;
    while used < octets.len() {
        let cut = match reader.feed(&octets[used..]) {
            Ok(cut) => cut,
            Err(fault) => {
                if is_no_memory(fault) {
                    return Err(AllocError);
                }
                return Ok(replies);
            }
        };
        used += cut.used;
        if let Some(reply) = cut.reply {
            replies.push(reply)?;
        }
    }
    Ok(replies)
}

/// Returns whether this fault means that memory ran out.
fn is_no_memory(fault: ReplyFault) -> bool
    ensures { result ≡ is_no_memory fault }
{
    match fault {
        ReplyFault::NoMemory => true,
        ReplyFault::BadLine => false,
        ReplyFault::MixedCodes => false,
        ReplyFault::TooLong => false,
    }
}

/// Returns the replies to the RCPTs of an attempt, and all that follow.
fn rcpt_replies(replies: &[Reply]) -> &[Reply]
    ensures { result.now ≡ after_mail replies.now }
{
    if replies.len() < 2 {
        return &[];
    }
    let first = if is_greeted_again(kind_of(replies[1].code())) {
        4
    } else {
        3
    };
    if replies.len() < first {
        return &[];
    }
    &replies[first..]
}

/// Returns whether this reply to EHLO makes the client send HELO.
fn is_greeted_again(kind: ReplyKind) -> bool
    ensures { result ≡ is_greeted_again kind }
{
    match kind {
        ReplyKind::Completion => false,
        ReplyKind::Intermediate => false,
        ReplyKind::Transient => false,
        ReplyKind::Permanent => true,
    }
}

/// Returns whether the RCPT of a place was accepted, given the replies in the order of the places.
fn accepts_place(place: u64, places: &[u8], replies: &[Reply]) -> bool
    ensures { result ≡ accepts_place place places.now replies.now }
{
    for (index, reply) in replies.iter().enumerate() {
        if index == places.len() {
            return false;
        }
        if accepts(place, places[index], reply) {
            return true;
        }
    }
    false
}

/// Returns whether this is the tried place, and the reply accepts its RCPT.
fn accepts(place: u64, tried: u8, reply: &Reply) -> bool
    ensures { result ≡ (tried == place && is_accepted reply.now) }
{
    tried as u64 == place && reply.code() < 300
}
