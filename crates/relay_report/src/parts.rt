//! The three parts of a report.
ghost use Rattle.std.specs.Prelude.{◌≡◌, ◌↔◌, ◌+◌, ◌<◌, ◌≤◌, ◌++◌, [], drop, length, IsTrue, MatchOption};
ghost use Rattle.relay_octets.specs.Line.{ReadsLine, crlf};
ghost use Rattle.relay_report.specs.Boundary.{StandsNowhere};
ghost use Rattle.relay_report.specs.Split.{Delimits, HasNoEmptyLine, HasNoParts, HasParts, OpensWithNone, part_of};
ghost use Rattle.relay_report.specs.Parts.{CutsAt, BeginsOnce, HasNoThree, IsThreeOf};

use memchr::{memchr, memmem};
use relay_octets::find_crlf;
use relay_trace::header_end;

/// The three parts of a report, without what is between them.
#[derive(Clone, Copy)]
pub struct Parts<'a> {
    /// The part for people.
    pub first: &'a [u8],
    /// The delivery status.
    pub second: &'a [u8],
    /// The returned message, or its header section.
    pub third: &'a [u8],
}
/// Returns the three parts of a report (RFC 2046, section 5.1.1): slices of its text. None if the text has no three
/// parts: a boundary's line after its header section that cuts what follows in three. Allocates nothing.
pub fn split_report(text: &[u8]) -> Option<Parts<'_>>
    ensures { MatchOption result (HasNoParts text.now)
        (λ parts. HasParts text.now parts.first.now parts.second.now parts.third.now) }
{
    let start = after(text, header_end(text));
    match delimiter(start) {
        None => None,
        Some((mark, pieces)) => match split_in_three(pieces, mark) {
            None => None,
            Some((first, second, third)) => Some(Parts {
                first: part_of(first),
                second: part_of(second),
                third: part_of(third),
            }),
        },
    }
}

/// Returns the boundary's line that is after an empty line, with the line end before it, and what follows.
fn delimiter(text: &[u8]) -> Option<(&[u8], &[u8])>
    ensures delimiter { MatchOption result (OpensWithNone text.now)
        (λ parts. Delimits text.now parts.0.now parts.1.now) }
    ensures once { MatchOption result (Unit {0}) (λ parts. BeginsOnce parts.0.now) }
{
    match after_empty_line(text) {
        None => None,
        Some(after) => match find_crlf(after) {
            None => None,
            Some(size) => {
                let (line, _) = after.split_at(size);
                if has_no_cr(line) {
                    Some(text.split_at(size + 2))
                } else {
                    None
                }
            }
        },
    }
}

/// Returns what is after an empty line at the front.
fn after_empty_line(text: &[u8]) -> Option<&[u8]>
    ensures line { MatchOption result (HasNoEmptyLine text.now) (λ after. ReadsLine text.now [] after.now) }
    ensures shorter { MatchOption result (Unit {0}) (λ after. length after.now + 2 ≤ length text.now) }
{
    match find_crlf(text) {
        None => None,
        Some(size) => {
            if size == 0 {
                Some(after(text, 2))
            } else {
                None
            }
        }
    }
}

/// Returns whether a line has no CR, so that a CR LF is before it alone.
fn has_no_cr(line: &[u8]) -> bool
    ensures { IsTrue result ↔ BeginsOnce (crlf ++ line.now) }
{
    match memchr(b'\r', line) {
        Some(_) => false,
        None => true,
    }
}

/// Returns the part of a piece: what is after the end of the boundary's line, the header section, and its empty line.
fn part_of(piece: &[u8]) -> &[u8]
    ensures { result.now ≡ part_of piece.now }
{
    let headed = after(piece, 2);
    after(headed, header_end(headed).saturating_add(2))
}

/// Returns what is after this many octets: nothing if there are fewer.
fn after(text: &[u8], size: usize) -> &[u8]
    ensures { result.now ≡ drop size text.now }
{
    if size < text.len() {
        &text[size..]
    } else {
        &text[text.len()..]
    }
}

/// Returns what is before the first mark, and after it.
pub(crate) fn cut_at<'a>(text: &'a [u8], mark: &[u8]) -> Option<(&'a [u8], &'a [u8])>
    requires { BeginsOnce mark.now }
    ensures { MatchOption result (StandsNowhere mark.now text.now)
        (λ parts. CutsAt mark.now text.now parts.0.now parts.1.now) }
{
    match memmem::find(text, mark) {
        None => None,
        Some(place) => {
            let (piece, after) = text.split_at(place);
            let (_, rest) = after.split_at(mark.len());
            Some((piece, rest))
        }
    }
}

/// Returns the three pieces between the marks, and what is after the last one.
pub(crate) fn split_in_three<'a>(
    text: &'a [u8],
    mark: &[u8],
) -> Option<(&'a [u8], &'a [u8], &'a [u8])>
    requires { BeginsOnce mark.now }
    ensures { MatchOption result (HasNoThree mark.now text.now)
        (λ parts. IsThreeOf mark.now text.now parts.0.now parts.1.now parts.2.now) }
{
    match cut_at(text, mark) {
        None => None,
        Some((one, after)) => match cut_at(after, mark) {
            None => None,
            Some((two, more)) => match cut_at(more, mark) {
                None => None,
                Some((three, _)) => Some((one, two, three)),
            },
        },
    }
}
