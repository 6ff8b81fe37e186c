//! An event of a script, and its result.
ghost use Rattle.std.specs.Prelude.{◌≡◌, Result, min};
ghost use Rattle.relay_events.specs.Happened.{HasHappenedFor};
ghost use Rattle.relay_events.specs.Step.{Steps};
ghost use Rattle.relay_play.specs.Script.{event_in};
ghost use Rattle.relay_world.specs.Leaks.{NothingLeaks};

use crate::print::{print_refused, print_seen};
use relay_book::Withdrawal;
use relay_disk::{Disk, MemoryDisk};
use relay_pair::{Event, Pair, PairFault, Seen};
use relay_script::{Event as Said, NodeIndex};
use std::io;

/// Does an event, and adds a line with its result or its fault, or a line for each node that has stopped. Fails if
/// memory runs out.
pub(crate) fn happen(pair: &mut Pair<MemoryDisk>, said: Said, out: &mut Vec<u8>) -> io::Result<()>
    ensures steps { (answer : Result Seen PairFault) × Steps ⟦<MemoryDisk as Disk>⟧.honest
        ⟦<MemoryDisk as Disk>⟧.words pair.old (event_in said) pair.new answer }
    ensures happened { HasHappenedFor ⟦<MemoryDisk as Disk>⟧.honest ⟦<MemoryDisk as Disk>⟧.words (event_in said)
        pair.old pair.new }
    ensures leaks { NothingLeaks pair.new }
{
    let event = event_of(said);
    match pair.step(&event) {
        Ok(seen) => print_seen(pair, &event, &seen, out),
        Err(fault) => print_refused(fault, out),
    }
}

/// Returns the event in a line of a script.
fn event_of(said: Said) -> Event
    ensures { result ≡ event_in said }
{
    match said {
        Said::Connect { node } => Event::Connect(node.index()),
        Said::Send { link, text } => Event::Send(link as usize, text),
        Said::Carry { link, node, count } => Event::Carry {
            link: link as usize,
            node: node.index(),
            count: count as usize,
        },
        Said::Break { link } => Event::Break(link as usize),
        Said::Tick { moment } => Event::Tick(moment),
        Said::Give { node } => Event::Give(node.index()),
        Said::Compact { node } => Event::Compact(node.index()),
        Said::Stop { node, calls, pick } => Event::Stop {
            node: node.index(),
            calls,
            pick,
        },
        Said::Return {
            node,
            number,
            place,
        } => withdraw(node, number, place, Withdrawal::Return),
        Said::Discard {
            node,
            number,
            place,
        } => withdraw(node, number, place, Withdrawal::Discard),
    }
}

/// Returns the event by which the postmaster withdraws a place. No message has as many as 256 places, so a place past
/// 255 is named as 255, which is none either.
fn withdraw(node: NodeIndex, number: u64, place: u64, withdrawal: Withdrawal) -> Event
    ensures { result ≡ Event.Withdraw node number (min place 255) withdrawal }
{
    Event::Withdraw {
        node: node.index(),
        message: number,
        place: place.min(255) as u8,
        withdrawal,
    }
}
