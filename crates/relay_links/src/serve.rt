ghost use Rattle.std.specs.Prelude.{◌≡◌, ◌≤◌, ◌<◌, [], ℕ, List, Option, None, drop, length, true, false, IfOk};
ghost use Rattle.relay_book.specs.declared.change.Change.{Change};
ghost use Rattle.relay_node.specs.Node.{SeatHasSaid, greeted_by};
ghost use Rattle.relay_slots.specs.Slots.{OthersStay, slot_at};
ghost use Rattle.relay_records.specs.Records.{Keeps};
ghost use Rattle.relay_links.specs.Link.{LinkHasEnded, HasGone, HasSaid, Start, start_at};

use crate::block::read_block;
use crate::fault::{LinkFault, link_fault};
use crate::send::send;
use relay_disk::Disk;
use relay_node::{Connected, Node};
use relay_trace::Moment;
use std::alloc::Global;
use std::io::{ErrorKind, Read, Write};

/// How many reads a link does at most: 2^40.
const READS: u64 = 1_099_511_627_776;

/// Serves the session that `connect` has opened: writes the greeting, reads commands and mail from `reader`, and writes
/// the replies to `writer`, all of them before the next read and after each message that the node takes. It ends at a
/// close, and at the end of the input, and the session is then gone. After a fault a prefix of the replies was written,
/// and all of them where nothing more could be read. All mail counts as accepted at `now`.
pub fn serve_link<D: Disk, R: Read, W: Write>(
    alloc: Global,
    node: &mut Node<D>,
    connected: Connected,
    reader: &mut R,
    writer: &mut W,
    now: Moment,
) -> Result<(), LinkFault>
    ensures served { (changes : List Change) (peer : List ℕ) → Keeps D.honest D.words node.old.records changes
        → SeatHasSaid node.old.config node.old.seats connected.session peer (greeted_by connected.out.items)
        → LinkHasEnded D.honest D.words
        (start_at (R.remaining reader.old) (W.contents writer.old) peer node.old changes) now
        (R.remaining reader.new) (W.contents writer.new) node.new.records result }
    ensures gone { node.new.records.spool.live ≡ true → slot_at node.new.seats connected.session ≡ None }
    ensures rest { OthersStay node.old.seats node.new.seats connected.session
        × (node.new.config ≡ node.old.config)
        × (node.new.attempts ≡ node.old.attempts) }
{
    let session = connected.session;
    let result = greet(alloc, node, &connected, reader, writer, now);
    hang_up(node, session);
    result
}

/// Writes the greeting, and goes on to a close or the end of the input.
fn greet<D: Disk, R: Read, W: Write>(
    alloc: Global,
    node: &mut Node<D>,
    connected: &Connected,
    reader: &mut R,
    writer: &mut W,
    now: Moment,
) -> Result<(), LinkFault>
    ensures served { (changes : List Change) (peer : List ℕ) → Keeps D.honest D.words node.old.records changes
        → SeatHasSaid node.old.config node.old.seats connected.now.session peer (greeted_by connected.now.out.items)
        → LinkHasEnded D.honest D.words
        (start_at (R.remaining reader.old) (W.contents writer.old) peer node.old changes) now
        (R.remaining reader.new) (W.contents writer.new) node.new.records result }
    ensures rest { OthersStay node.old.seats node.new.seats connected.now.session
        × (node.new.config ≡ node.old.config)
        × (node.new.attempts ≡ node.old.attempts) }
{
    match send(writer, connected.out.as_slice()) {
        Ok(()) => converse(alloc, node, connected.session, reader, writer, now),
        Err(fault) => Err(fault),
    }
}

/// Goes on after what was said, up to a close or the end of the input.
fn converse<D: Disk, R: Read, W: Write>(
    alloc: Global,
    node: &mut Node<D>,
    session: usize,
    reader: &mut R,
    writer: &mut W,
    now: Moment,
) -> Result<(), LinkFault>
    ensures served { (start : Start)
        → HasSaid D.honest D.words start now session (R.remaining reader.old) (W.contents writer.old)
        [] node.old
        → LinkHasEnded D.honest D.words start now (R.remaining reader.new) (W.contents writer.new)
        node.new.records result }
    ensures rest { OthersStay node.old.seats node.new.seats session × (node.new.config ≡ node.old.config)
        × (node.new.attempts ≡ node.old.attempts) }
{
    let Ok(block) = read_block(alloc) else {
        return Err(LinkFault::NoMemory);
    };
    let mut block = block;
    for _ in 0..READS {
        match exchange_block(node, session, block.as_mut_slice(), reader, writer, now) {
            Ok(true) => return Ok(()),
            Ok(false) => {}
            Err(fault) => return Err(fault),
        }
    }
    Err(LinkFault::Input)
}

/// Reads once into the block, and returns what was read. Returns whether the link has come to its end: by a close, or
/// by the end of the input. A read that was interrupted has read nothing.
fn exchange_block<D: Disk, R: Read, W: Write>(
    node: &mut Node<D>,
    session: usize,
    block: &mut [u8],
    reader: &mut R,
    writer: &mut W,
    now: Moment,
) -> Result<bool, LinkFault>
    requires { 0 < length block.old }
    ensures goes_on { (start : Start)
        → HasSaid D.honest D.words start now session (R.remaining reader.old) (W.contents writer.old)
        [] node.old
        → HasGone D.honest D.words start now session (R.remaining reader.new) (W.contents writer.new)
        [] node.new result }
    ensures block { length block.new ≡ length block.old }
    ensures rest { OthersStay node.old.seats node.new.seats session × (node.new.config ≡ node.old.config)
        × (node.new.attempts ≡ node.old.attempts) }
{
    let count = match reader.read(block) {
        Ok(0) => return Ok(true),
        Ok(count) => count,
        Err(error) => {
            if error.kind() == ErrorKind::Interrupted {
                return Ok(false);
            }
            return Err(LinkFault::Input);
        }
    };
    answer_block(node, session, &block[..count], writer, now)
}

/// Answers octets that were read, all of them or up to a close. Returns whether there was one.
fn answer_block<D: Disk, W: Write>(
    node: &mut Node<D>,
    session: usize,
    octets: &[u8],
    writer: &mut W,
    now: Moment,
) -> Result<bool, LinkFault>
    ensures goes_on { (start : Start) (left : Option (List ℕ))
        → HasSaid D.honest D.words start now session left (W.contents writer.old) octets.now node.old
        → HasGone D.honest D.words start now session left (W.contents writer.new)
        [] node.new result }
    ensures rest { OthersStay node.old.seats node.new.seats session × (node.new.config ≡ node.old.config)
        × (node.new.attempts ≡ node.old.attempts) }
{
    let mut used = 0;
    while used < octets.len() {
        if answer(node, session, octets, &mut used, writer, now)? {
            return Ok(true);
        }
    }
    Ok(false)
}

/// Answers octets after those that are used, all of them or up to a change or a close. Returns whether there was a
/// close.
fn answer<D: Disk, W: Write>(
    node: &mut Node<D>,
    session: usize,
    octets: &[u8],
    used: &mut usize,
    writer: &mut W,
    now: Moment,
) -> Result<bool, LinkFault>
    requires { used.old < length octets.now }
    ensures goes_on { (start : Start) (left : Option (List ℕ))
        → HasSaid D.honest D.words start now session left (W.contents writer.old)
        (drop used.old octets.now) node.old
        → HasGone D.honest D.words start now session left (W.contents writer.new)
        (drop used.new octets.now) node.new result }
    ensures used { IfOk result (λ is_last. (used.new ≤ length octets.now)
        × (is_last ≡ false → used.old < used.new)) }
    ensures rest { OthersStay node.old.seats node.new.seats session × (node.new.config ≡ node.old.config)
        × (node.new.attempts ≡ node.old.attempts) }
{
    let received = match node.receive(session, &octets[*used..], now) {
        Ok(received) => received,
        Err(fault) => return Err(link_fault(fault)),
    };
    *used += received.used;
    match send(writer, received.out.as_slice()) {
        Ok(()) => Ok(received.close),
        Err(fault) => Err(fault),
    }
}

/// Tells the node that the connection has ended.
fn hang_up<D: Disk>(node: &mut Node<D>, session: usize)
    ensures gone { node.new.records.spool.live ≡ true → slot_at node.new.seats session ≡ None }
    ensures records { node.new.records ≡ node.old.records }
    ensures rest { OthersStay node.old.seats node.new.seats session × (node.new.config ≡ node.old.config)
        × (node.new.attempts ≡ node.old.attempts) }
{
    // A session that has closed is gone already, and a node that is stopped has none.
    let _ = node.ended(session);
}
