//! A client's link on a thread: the session belongs to the thread, which locks the node once for each offer.
ghost use Rattle.std.specs.Prelude.{◌≡◌, ◌≤◌, ◌<◌, [], ℕ, List, Option, drop, length, true, false, IfErr, IfOk, OnOk};
ghost use Rattle.std.specs.Prelude.{MatchResult};
ghost use Rattle.relay_server.specs.Session.{HasOffer, IsClosed, offered};
ghost use Rattle.relay_node.specs.Acceptance.{IsStorable};
ghost use Rattle.relay_node.specs.Node.{HasHistory};
ghost use Rattle.relay_hub.specs.Admission.{Notes};
ghost use Rattle.relay_hub.specs.Link.{HasBegun, HasEnded, HasGone, HasSaid, IsRefusal, IsStanding, LinkStart};
ghost use Rattle.relay_hub.specs.Link.{link_start};

use crate::hub::Hub;
use crate::opening::Opening;
use crate::pass::Pass;
use relay_disk::Disk;
use relay_links::send::send;
use relay_links::{LinkFault, link_fault, read_block};
use relay_routes::Config;
use relay_server::{Answer, Next, Offer, Session};
use relay_trace::Moment;
use std::alloc::Global;
use std::io::{ErrorKind, Read, Write};
use std::sync::Wait;

/// The most reads of one link: 2^40.
const READS: u64 = 1_099_511_627_776;

/// What a link needs beside its session, reader and writer.
#[derive(Drop)]
struct Terms<'a> {
    alloc: Global,
    config: &'a Config,
    /// The IPv4 address of the client.
    peer: [u8; 4],
    /// The acceptance time of its mail.
    at: Moment,
}

/// Serves a client: writes the greeting, reads commands and mail from `reader`, and writes the replies to `writer`.
/// Replies are written before the next read and after each message. Each message is offered to the hub, whose answer
/// the client gets; a queued message adds its receipt to the pass, in order.
///
/// Returns when the session closes or the input ends. If the hub refuses to take a message, fails without writing
/// another octet. If memory runs out after the hub has answered, the client gets no reply, but the message stays
/// queued. `now` is the acceptance time of all mail.
pub fn hub_link<D: Disk, J: Opening, T: Wait, R: Read, W: Write>(
    rt: &T,
    alloc: Global,
    hub: &Hub<D, J>,
    pass: &mut Pass<J>,
    config: &Config,
    peer: [u8; 4],
    reader: &mut R,
    writer: &mut W,
    now: Moment,
) -> Result<(), LinkFault>
    ensures { HasEnded J.has_answered config.now peer now
        (link_start (R.remaining reader.old) (W.contents writer.old) pass.old)
        (R.remaining reader.new) (W.contents writer.new) pass.new result }
{
    let terms = Terms {
        alloc,
        config,
        peer,
        at: now,
    };
    let (mut session, greeting) = Session::new(alloc, config, peer)?;
    send(writer, greeting.as_slice())?;
    converse(rt, hub, pass, &terms, &mut session, reader, writer)
}

/// Serves a session, whose greeting is written, until it closes or the input ends.
fn converse<D: Disk, J: Opening, T: Wait, R: Read, W: Write>(
    rt: &T,
    hub: &Hub<D, J>,
    pass: &mut Pass<J>,
    terms: &Terms<'_>,
    session: &mut Session,
    reader: &mut R,
    writer: &mut W,
) -> Result<(), LinkFault>
    requires { HasHistory terms.now.config.now terms.now.peer session.old }
    ensures { (start : LinkStart)
        → HasSaid J.has_answered terms.now.config.now terms.now.peer terms.now.at start session.old
        (R.remaining reader.old) (W.contents writer.old) [] [] pass.old
        → HasEnded J.has_answered terms.now.config.now terms.now.peer terms.now.at start (R.remaining reader.new)
        (W.contents writer.new) pass.new result }
{
    let mut block = read_block(terms.alloc)?;
    for _ in 0..READS {
        if exchange_block(
            rt,
            hub,
            pass,
            terms,
            session,
            block.as_mut_slice(),
            reader,
            writer,
        )? {
            return Ok(());
        }
    }
    Err(LinkFault::Input)
}

/// Reads once into the block, and answers what was read. Returns whether the link has ended, by a close or by the end
/// of the input. An interrupted read counts as no octets.
fn exchange_block<D: Disk, J: Opening, T: Wait, R: Read, W: Write>(
    rt: &T,
    hub: &Hub<D, J>,
    pass: &mut Pass<J>,
    terms: &Terms<'_>,
    session: &mut Session,
    block: &mut [u8],
    reader: &mut R,
    writer: &mut W,
) -> Result<bool, LinkFault>
    requires room { 0 < length block.old }
    requires history { HasHistory terms.now.config.now terms.now.peer session.old }
    ensures goes_on { (start : LinkStart)
        → HasSaid J.has_answered terms.now.config.now terms.now.peer terms.now.at start session.old
        (R.remaining reader.old) (W.contents writer.old) [] [] pass.old
        → HasGone J.has_answered terms.now.config.now terms.now.peer terms.now.at start session.new
        (R.remaining reader.new) (W.contents writer.new) [] pass.new result }
    ensures block { length block.new ≡ length block.old }
    ensures history { IfOk result (λ is_last. is_last ≡ false
        → HasHistory terms.now.config.now terms.now.peer session.new) }
{
    let count = match reader.read(block) {
        Ok(0) => return Ok(true),
        Ok(count) => count,
        Err(error) => {
            if error.kind() == ErrorKind::Interrupted {
                return Ok(false);
            }
            return Err(LinkFault::Input);
        }
    };
    answer_block(rt, hub, pass, terms, session, &block[..count], writer)
}

/// Answers the octets of a block up to its end or a close. Returns whether the session closed.
fn answer_block<D: Disk, J: Opening, T: Wait, W: Write>(
    rt: &T,
    hub: &Hub<D, J>,
    pass: &mut Pass<J>,
    terms: &Terms<'_>,
    session: &mut Session,
    octets: &[u8],
    writer: &mut W,
) -> Result<bool, LinkFault>
    requires { HasHistory terms.now.config.now terms.now.peer session.old }
    ensures goes_on { (start : LinkStart) (left : Option (List ℕ))
        → HasSaid J.has_answered terms.now.config.now terms.now.peer terms.now.at start session.old left
        (W.contents writer.old) octets.now [] pass.old
        → HasGone J.has_answered terms.now.config.now terms.now.peer terms.now.at start session.new left
        (W.contents writer.new) [] pass.new result }
    ensures history { IfOk result (λ is_last. is_last ≡ false
        → HasHistory terms.now.config.now terms.now.peer session.new) }
{
    let mut used = 0;
    while used < octets.len() {
        if answer(rt, hub, pass, terms, session, octets, &mut used, writer)? {
            return Ok(true);
        }
    }
    Ok(false)
}

/// Answers octets from `used` on, up to their end, an offer or a close, and writes the replies. Returns whether the
/// session closed.
fn answer<D: Disk, J: Opening, T: Wait, W: Write>(
    rt: &T,
    hub: &Hub<D, J>,
    pass: &mut Pass<J>,
    terms: &Terms<'_>,
    session: &mut Session,
    octets: &[u8],
    used: &mut usize,
    writer: &mut W,
) -> Result<bool, LinkFault>
    requires used { used.old < length octets.now }
    requires history { HasHistory terms.now.config.now terms.now.peer session.old }
    ensures goes_on { (start : LinkStart) (left : Option (List ℕ))
        → HasSaid J.has_answered terms.now.config.now terms.now.peer terms.now.at start session.old left
        (W.contents writer.old) (drop used.old octets.now) [] pass.old
        → HasGone J.has_answered terms.now.config.now terms.now.peer terms.now.at start session.new left
        (W.contents writer.new) (drop used.new octets.now) pass.new result }
    ensures used { IfOk result (λ is_last. (used.new ≤ length octets.now)
        × (is_last ≡ false → used.old < used.new)) }
    ensures history { IfOk result (λ is_last. is_last ≡ false
        → HasHistory terms.now.config.now terms.now.peer session.new) }
{
    let mut out = Vec::new(terms.alloc);
    let is_last = hear(rt, hub, pass, terms, session, octets, used, &mut out)?;
    send(writer, out.as_slice())?;
    Ok(is_last)
}

/// Feeds octets from `used` on to the session, up to their end, an offer or a close, and appends the replies to `out`.
/// Returns whether the session closed.
fn hear<D: Disk, J: Opening, T: Wait>(
    rt: &T,
    hub: &Hub<D, J>,
    pass: &mut Pass<J>,
    terms: &Terms<'_>,
    session: &mut Session,
    octets: &[u8],
    used: &mut usize,
    out: &mut Vec<u8>,
) -> Result<bool, LinkFault>
    requires used { used.old < length octets.now }
    requires history { HasHistory terms.now.config.now terms.now.peer session.old }
    ensures hears { (start : LinkStart) (left held : Option (List ℕ))
        → HasSaid J.has_answered terms.now.config.now terms.now.peer terms.now.at start session.old left held
        (drop used.old octets.now) out.old.items pass.old
        → MatchResult result
        (λ _. HasSaid J.has_answered terms.now.config.now terms.now.peer terms.now.at start session.new left held
        (drop used.new octets.now) out.new.items pass.new)
        (HasBegun J.has_answered terms.now.config.now terms.now.peer terms.now.at start left held pass.new) }
    ensures used { IfOk result (λ is_last. (used.new ≤ length octets.now)
        × (is_last ≡ false → used.old < used.new)) }
    ensures history { IfOk result (λ is_last. HasHistory terms.now.config.now terms.now.peer session.new
        × (is_last ≡ true → IsClosed session.new)) }
{
    let table = terms.config.accepted_table(terms.peer);
    match session.hear(table, octets, used, out) {
        Ok(Next::More) => Ok(false),
        Ok(Next::Close) => Ok(true),
        Ok(Next::Offer) => match take_offer(rt, hub, pass, terms, session, out) {
            Ok(()) => Ok(false),
            Err(fault) => Err(fault),
        },
        Err(_) => Err(LinkFault::NoMemory),
    }
}

/// Gives the open offer to the hub, and appends the reply to `out`.
fn take_offer<D: Disk, J: Opening, T: Wait>(
    rt: &T,
    hub: &Hub<D, J>,
    pass: &mut Pass<J>,
    terms: &Terms<'_>,
    session: &mut Session,
    out: &mut Vec<u8>,
) -> Result<(), LinkFault>
    requires offer { HasOffer session.old }
    requires stands { IsStanding terms.now.config.now terms.now.peer session.old }
    ensures takes { (start : LinkStart) (left held : Option (List ℕ)) (waiting : List ℕ)
        → HasSaid J.has_answered terms.now.config.now terms.now.peer terms.now.at start session.old left held waiting
        out.old.items pass.old
        → MatchResult result
        (λ _. HasSaid J.has_answered terms.now.config.now terms.now.peer terms.now.at start session.new left held
        waiting out.new.items pass.new)
        (HasBegun J.has_answered terms.now.config.now terms.now.peer terms.now.at start left held pass.new) }
    ensures history { OnOk result (HasHistory terms.now.config.now terms.now.peer session.new) }
{
    let Some(offer) = session.offer() else {
        unreachable!()
    };
    let answer = match ask(rt, hub, pass, terms, &offer) {
        Ok(answer) => answer,
        Err(fault) => return Err(fault),
    };
    match session.reply(answer, out) {
        Ok(()) => Ok(()),
        Err(_) => Err(LinkFault::NoMemory),
    }
}

/// Returns the hub's answer to an offer. Fails if the hub doesn't take the offer, which ends the link.
#[tactic(auto, using(crate::proofs::LinkLemmas::refusal_of))]
fn ask<D: Disk, J: Opening, T: Wait>(
    rt: &T,
    hub: &Hub<D, J>,
    pass: &mut Pass<J>,
    terms: &Terms<'_>,
    offer: &Offer<'_>,
) -> Result<Answer, LinkFault>
    requires { IsStorable (offered offer.now) }
    ensures notes { MatchResult result
        (λ answer. Notes (offered offer.now) terms.now.peer terms.now.at pass.old answer pass.new)
        (λ _. pass.new ≡ pass.old) }
    ensures answered { IfOk result (J.has_answered terms.now.peer terms.now.at (offered offer.now)) }
    ensures refused { IfErr result IsRefusal }
{
    match hub.admit(rt, pass, offer, terms.peer, terms.at) {
        Ok(answer) => Ok(answer),
        Err(fault) => Err(link_fault(fault)),
    }
}
