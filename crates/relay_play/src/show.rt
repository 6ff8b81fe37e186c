//! The lines that a script asks for: the ledger, held places, copies, and lost replies.
use crate::print::letter;
use relay_book::{PlaceStep, Way, Withdrawal};
use relay_disk::Disk;
use relay_pair::Pair;
use relay_script::NodeIndex;
use relay_world::Line;
use std::alloc::Global;
use std::io::{self, Write};

/// Adds the lines of the ledger. Fails if memory runs out.
pub(crate) fn show_ledger<D: Disk>(pair: &Pair<D>, out: &mut Vec<u8>) -> io::Result<()> {
    for line in pair.ledger() {
        show_line(line, out)?;
    }
    Ok(())
}

/// Adds a line of the ledger.
fn show_line(line: &Line, out: &mut Vec<u8>) -> io::Result<()> {
    match *line {
        Line::Accepted {
            node,
            number,
            places,
            link,
        } => writeln!(out, "accept {} {number} {places} link {link}", letter(node)),
        Line::Became {
            step: PlaceStep::Left(Way::ByTransfer),
            node,
            number,
            place,
            link,
            report,
        } => writeln!(
            out,
            "transfer {} {number} {place} link {link} report {report}",
            letter(node)
        ),
        Line::Became {
            step: PlaceStep::Left(Way::ByEnd),
            node,
            number,
            place,
            link,
            report,
        } => writeln!(
            out,
            "end {} {number} {place} failed link {link} report {report}",
            letter(node)
        ),
        Line::Became {
            step: PlaceStep::Left(Way::ByWithdrawal(Withdrawal::Return)),
            node,
            number,
            place,
            link,
            report,
        } => writeln!(
            out,
            "return {} {number} {place} link {link} report {report}",
            letter(node)
        ),
        Line::Became {
            step: PlaceStep::Left(Way::ByWithdrawal(Withdrawal::Discard)),
            node,
            number,
            place,
            link,
            report,
        } => writeln!(
            out,
            "discard {} {number} {place} link {link} report {report}",
            letter(node)
        ),
        Line::Became {
            step: PlaceStep::Delayed,
            node,
            number,
            place,
            link,
            report,
        } => writeln!(
            out,
            "delay {} {number} {place} link {link} report {report}",
            letter(node)
        ),
    }
}

/// Adds a line for each held place of the nodes that are up. Fails if memory runs out.
pub(crate) fn show_marks<D: Disk>(
    alloc: Global,
    pair: &Pair<D>,
    out: &mut Vec<u8>,
) -> io::Result<()> {
    for (node, number, place) in pair.marks(alloc)? {
        writeln!(out, "{} {number} {place}", letter(node))?;
    }
    Ok(())
}

/// Adds the line with the number of copies of a place of a message. Fails if memory runs out.
pub(crate) fn show_copies<D: Disk>(
    alloc: Global,
    pair: &Pair<D>,
    node: NodeIndex,
    number: u64,
    place: u64,
    out: &mut Vec<u8>,
) -> io::Result<()> {
    writeln!(out, "{}", pair.copies(alloc, node.index(), number, place)?)
}

/// Adds the line with the number of lost replies to attempts for a place of a message. Fails if memory runs out.
pub(crate) fn show_lost<D: Disk>(
    pair: &Pair<D>,
    node: NodeIndex,
    number: u64,
    place: u64,
    out: &mut Vec<u8>,
) -> io::Result<()> {
    writeln!(out, "{}", pair.lost_replies(node.index(), number, place))
}
