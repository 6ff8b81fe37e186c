//! The lines for the results of events.
use relay_book::Withdrawal;
use relay_disk::Disk;
use relay_node::NodeFault;
use relay_pair::{Event, Pair, PairFault, Seen};
use relay_script::push_text;
use relay_world::Link;
use std::io::{self, Write};

/// Returns the letter of a node, from `a` on.
pub(crate) fn letter(node: usize) -> char {
    // A play has at most 16 nodes, up to `p`.
    char::from(b'a' + node.min(15) as u8)
}

/// Adds the line for the result of an event.
pub(crate) fn print_seen<D: Disk>(
    pair: &Pair<D>,
    event: &Event,
    seen: &Seen,
    out: &mut Vec<u8>,
) -> io::Result<()> {
    match (seen, event) {
        (Seen::Linked(link, count), _) => print_linked(pair, *link, *count, out),
        (Seen::Sent, _) => writeln!(out, "ok"),
        (
            Seen::Carried {
                used,
                out: count,
                change,
                end,
            },
            Event::Carry { link, node, .. },
        ) => {
            write!(out, "node {} link {link} used {used} out ", letter(*node))?;
            print_last(written_by(pair, *link, *node), *count, out)?;
            print_change(*change, *end, out)
        }
        (Seen::Broken(link), _) => writeln!(out, "broken {link}"),
        (Seen::Set(now), _) => writeln!(out, "now {}", now.seconds()),
        (Seen::Started(place), _) => print_started(pair, *place, out),
        (Seen::NoRoute(number, change), Event::Give(node)) => {
            writeln!(out, "noroute {} {number} change {change}", letter(*node))
        }
        (
            Seen::Withdrawn(change),
            Event::Withdraw {
                node,
                message,
                place,
                withdrawal,
            },
        ) => {
            let word = match withdrawal {
                Withdrawal::Return => "return",
                Withdrawal::Discard => "discard",
            };
            writeln!(
                out,
                "{word} {} {message} {place} change {change}",
                letter(*node)
            )
        }
        (Seen::Compacted(node, size), _) => writeln!(out, "compact {} size {size}", letter(*node)),
        (Seen::Armed(node), _) => writeln!(out, "armed {}", letter(*node)),
        (Seen::Stopped(nodes), _) => print_stopped(nodes.as_slice(), out),
        // No other event has this result.
        _ => Ok(()),
    }
}

/// Adds the line for an event that was refused.
pub(crate) fn print_refused(fault: PairFault, out: &mut Vec<u8>) -> io::Result<()> {
    let name = match fault {
        PairFault::NoMemory => "NoMemory",
        PairFault::NoLink => "NoLink",
        PairFault::NotYours => "NotYours",
        PairFault::Nothing => "Nothing",
        PairFault::Node(fault) => name_of(fault),
        PairFault::Down => "Down",
    };
    writeln!(out, "refused {name}")
}

/// Returns the name of a node's fault.
fn name_of(fault: NodeFault) -> &'static str {
    match fault {
        NodeFault::NoMemory => "NoMemory",
        NodeFault::Stopped => "Stopped",
        NodeFault::Unknown => "Unknown",
        NodeFault::TooMany => "TooMany",
        NodeFault::NotDue => "NotDue",
        NodeFault::Busy => "Busy",
        NodeFault::Open(_) => "Open",
        NodeFault::Full => "Full",
        NodeFault::NoSecond => "NoSecond",
    }
}

/// Adds the line for a link that outside has opened, with its greeting.
fn print_linked<D: Disk>(
    pair: &Pair<D>,
    number: usize,
    count: usize,
    out: &mut Vec<u8>,
) -> io::Result<()> {
    write!(out, "link {number} out ")?;
    let greeting = match link_at(pair, number) {
        Some(link) => link.down.as_slice(),
        None => b"",
    };
    print_last(greeting, count, out)?;
    writeln!(out)
}

/// Returns the link of a number.
fn link_at<D: Disk>(pair: &Pair<D>, number: usize) -> Option<&Link> {
    pair.links().get(number.checked_sub(1)?)
}

/// Returns what a node has written on a link: as its server, else as its client.
fn written_by<D: Disk>(pair: &Pair<D>, number: usize, node: usize) -> &[u8] {
    let Some(link) = link_at(pair, number) else {
        return b"";
    };
    match &link.server {
        Some(end) if end.node == node => link.down.as_slice(),
        _ => link.up.as_slice(),
    }
}

/// Adds the last `count` octets as text.
fn print_last(octets: &[u8], count: usize, out: &mut Vec<u8>) -> io::Result<()> {
    let first = octets.len().saturating_sub(count);
    Ok(push_text(out, &octets[first..])?)
}

/// Ends the line for carried octets with the change that was added, if any, and whether the end has closed.
fn print_change(change: Option<u64>, end: bool, out: &mut Vec<u8>) -> io::Result<()> {
    if let Some(number) = change {
        write!(out, " change {number}")?;
    }
    if end {
        write!(out, " end")?;
    }
    writeln!(out)
}

/// Adds the line for an attempt that has begun.
fn print_started<D: Disk>(pair: &Pair<D>, place: usize, out: &mut Vec<u8>) -> io::Result<()> {
    let Some(attempt) = pair.attempts().get(place) else {
        return Ok(());
    };
    write!(out, "start {} {} ", letter(attempt.node), attempt.message)?;
    out.extend_from_slice(attempt.hop.as_slice())?;
    writeln!(out, " link {}", attempt.link)
}

/// Adds a line for each node that has stopped.
fn print_stopped(nodes: &[usize], out: &mut Vec<u8>) -> io::Result<()> {
    for node in nodes {
        writeln!(out, "stopped {}", letter(*node))?;
    }
    Ok(())
}
