ghost use Rattle.std.specs.Prelude.{◌≡◌, ◌<◌, [], ℕ, true, List, Option, None, length};
ghost use Rattle.relay_attempts.specs.Reply.{Told};
ghost use Rattle.relay_book.specs.declared.change.Change.{Change};
ghost use Rattle.relay_node.specs.Attempts.{Tells};
ghost use Rattle.relay_records.specs.Records.{Keeps};
ghost use Rattle.relay_slots.specs.Slots.{OthersStay, slot_at};
ghost use Rattle.relay_links.specs.Push.{Ends, IsAt, IsGoneBy, Moves, PushStart, PushesTo, WaysTo, push_start_at};

use crate::block::read_block;
use crate::fault::{LinkFault, link_fault};
use crate::send::{send, send_last};
use relay_disk::Disk;
use relay_node::Node;
use relay_trace::Moment;
use std::alloc::Global;
use std::io::{ErrorKind, Read, Write};

/// How many reads a link does at most: 2^40.
const READS: u64 = 1_099_511_627_776;

/// How the link of an attempt has ended.
#[derive(Clone, Copy, Drop, PartialEq, Eq)]
pub enum Pushed {
    /// The attempt has ended, and all that it wrote was written.
    Ended,
    /// The attempt has ended, but an octet at least of what it wrote last couldn't be written.
    Unwritten,
    /// The connection was lost before the attempt's end.
    Lost,
}

/// How a link goes on.
#[derive(Clone, Copy, Drop)]
pub(crate) enum Way {
    /// The attempt waits for more.
    On,
    /// The attempt has ended, and all that it wrote was written.
    Ended,
    /// The attempt has ended, but an octet at least of what it wrote last couldn't be written.
    Unwritten,
    /// The input has come to its end before the attempt has.
    AtEnd,
    /// Nothing more can be read, or what the attempt wrote couldn't be written whole.
    Broken,
}

/// Relays mail by an attempt that `start` has begun: reads what the next hop says from `reader`, and writes the
/// attempt's commands and mail to `writer`, all that a read led to before the next. It ends where the attempt does. The
/// end of the input before that, a fault of the reader or the writer, and lack of memory for reading are a loss of the
/// connection, of which the node is told. Its outcome counts at `now`. Where the node answers a fault the attempt is
/// gone without an outcome; after a fault of the device a stop may leave the outcome, or not. An attempt that the node
/// doesn't have is `Input`.
pub fn push_link<D: Disk, R: Read, W: Write>(
    alloc: Global,
    node: &mut Node<D>,
    attempt: usize,
    reader: &mut R,
    writer: &mut W,
    now: Moment,
) -> Result<Pushed, LinkFault>
    ensures pushed { (changes : List Change) (told : Told) → Keeps D.honest D.words node.old.records changes
        → Tells node.old.config.host changes node.old.attempts attempt told
        → PushesTo D.honest D.words
        (push_start_at (R.remaining reader.old) (W.contents writer.old) node.old changes told) now
        (R.remaining reader.new) (W.contents writer.new) node.new.records result }
    ensures gone { node.new.records.spool.live ≡ true → slot_at node.new.attempts attempt ≡ None }
    ensures ends { Ends D.words node.old node.new result }
    ensures rest { OthersStay node.old.attempts node.new.attempts attempt
        × (node.new.config ≡ node.old.config) × (node.new.seats ≡ node.old.seats) }
{
    match converse(alloc, node, attempt, reader, writer, now) {
        Ok(Way::Ended) => Ok(Pushed::Ended),
        Ok(Way::Unwritten) => Ok(Pushed::Unwritten),
        Ok(Way::On) => lose_link(node, attempt, now),
        Ok(Way::AtEnd) => lose_link(node, attempt, now),
        Ok(Way::Broken) => lose_link(node, attempt, now),
        Err(fault) => Err(fault),
    }
}

/// Goes on to the attempt's end, or to where its connection is of no use any more.
fn converse<D: Disk, R: Read, W: Write>(
    alloc: Global,
    node: &mut Node<D>,
    attempt: usize,
    reader: &mut R,
    writer: &mut W,
    now: Moment,
) -> Result<Way, LinkFault>
    ensures goes { (start : PushStart)
        → IsAt D.honest D.words start now attempt (R.remaining reader.old) (W.contents writer.old) [] []
        node.old
        → WaysTo D.honest D.words start now attempt (R.remaining reader.new) (W.contents writer.new)
        node.new result }
    ensures gone { IsGoneBy attempt node.new result }
    ensures moves { Moves D.words node.old node.new result }
    ensures rest { OthersStay node.old.attempts node.new.attempts attempt
        × (node.new.config ≡ node.old.config) × (node.new.seats ≡ node.old.seats) }
{
    let Ok(block) = read_block(alloc) else {
        return Ok(Way::Broken);
    };
    let mut block = block;
    for _ in 0..READS {
        match exchange_block(node, attempt, block.as_mut_slice(), reader, writer, now) {
            Ok(Way::On) => {}
            Ok(way) => return Ok(way),
            Err(fault) => return Err(fault),
        }
    }
    Ok(Way::Broken)
}

/// Reads once into the block, and hands what was read to the attempt. A read that was interrupted has read
/// nothing.
fn exchange_block<D: Disk, R: Read, W: Write>(
    node: &mut Node<D>,
    attempt: usize,
    block: &mut [u8],
    reader: &mut R,
    writer: &mut W,
    now: Moment,
) -> Result<Way, LinkFault>
    requires { 0 < length block.old }
    ensures goes { (start : PushStart)
        → IsAt D.honest D.words start now attempt (R.remaining reader.old) (W.contents writer.old) [] []
        node.old
        → WaysTo D.honest D.words start now attempt (R.remaining reader.new) (W.contents writer.new)
        node.new result }
    ensures gone { IsGoneBy attempt node.new result }
    ensures moves { Moves D.words node.old node.new result }
    ensures block { length block.new ≡ length block.old }
    ensures rest { OthersStay node.old.attempts node.new.attempts attempt
        × (node.new.config ≡ node.old.config) × (node.new.seats ≡ node.old.seats) }
{
    let count = match reader.read(block) {
        Ok(0) => return Ok(Way::AtEnd),
        Ok(count) => count,
        Err(error) => {
            if error.kind() == ErrorKind::Interrupted {
                return Ok(Way::On);
            }
            return Ok(Way::Broken);
        }
    };
    answer(node, attempt, &block[..count], writer, now)
}

/// Hands what was read to the attempt, and writes what that leads to.
fn answer<D: Disk, W: Write>(
    node: &mut Node<D>,
    attempt: usize,
    octets: &[u8],
    writer: &mut W,
    now: Moment,
) -> Result<Way, LinkFault>
    ensures goes { (start : PushStart) (left : Option (List ℕ))
        → IsAt D.honest D.words start now attempt left (W.contents writer.old) octets.now [] node.old
        → WaysTo D.honest D.words start now attempt left (W.contents writer.new) node.new result }
    ensures gone { IsGoneBy attempt node.new result }
    ensures moves { Moves D.words node.old node.new result }
    ensures rest { OthersStay node.old.attempts node.new.attempts attempt
        × (node.new.config ≡ node.old.config) × (node.new.seats ≡ node.old.seats) }
{
    let replied = match node.reply(attempt, octets, now) {
        Ok(replied) => replied,
        Err(fault) => return Err(link_fault(fault)),
    };
    match replied.change {
        Some(_) => match send_last(writer, replied.out.as_slice()) {
            Ok(()) => Ok(Way::Ended),
            Err(_) => Ok(Way::Unwritten),
        },
        None => match send(writer, replied.out.as_slice()) {
            Ok(()) => Ok(Way::On),
            Err(_) => Ok(Way::Broken),
        },
    }
}

/// Tells the node that the connection is lost.
pub fn lose_link<D: Disk>(
    node: &mut Node<D>,
    attempt: usize,
    now: Moment,
) -> Result<Pushed, LinkFault>
    ensures pushed { (start : PushStart) (left held : Option (List ℕ)) (waiting unwritten : List ℕ)
        → IsAt D.honest D.words start now attempt left held waiting unwritten node.old
        → PushesTo D.honest D.words start now left held node.new.records result }
    ensures gone { node.new.records.spool.live ≡ true → slot_at node.new.attempts attempt ≡ None }
    ensures ends { Ends D.words node.old node.new result }
    ensures rest { OthersStay node.old.attempts node.new.attempts attempt
        × (node.new.config ≡ node.old.config) × (node.new.seats ≡ node.old.seats) }
{
    match node.lost(attempt, now) {
        Ok(_) => Ok(Pushed::Lost),
        Err(fault) => Err(link_fault(fault)),
    }
}
