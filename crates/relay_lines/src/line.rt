ghost use Rattle.std.specs.Prelude.{◌≡◌, ◌++◌, OnOk};
ghost use Rattle.relay_octets.specs.Beginning.{Begins};
ghost use Rattle.relay_octets.specs.Line.{line_text};
ghost use Rattle.relay_lines.specs.LineCut.{CutsLine};

use relay_octets::find_crlf;
use std::alloc::AllocError;

/// The state of a stream's next line.
#[derive(Clone, Copy, PartialEq, Eq)]
pub enum LineCut {
    /// It is whole, and has this many octets with its CR LF.
    Whole(usize),
    /// It has the most octets of a line without a CR LF among them.
    TooLong,
    /// Whether it is whole or too long depends on further octets.
    More,
}

/// Cuts the first line off a stream (RFC 5321, 2.3.8), where a line has at most `limit` octets with its CR LF.
/// Allocates nothing.
pub fn next_line(octets: &[u8], limit: usize) -> LineCut
    ensures { CutsLine result octets.now limit }
{
    if octets.len() < limit {
        return match find_crlf(octets) {
            Some(place) => LineCut::Whole(place + 2),
            None => LineCut::More,
        };
    }
    match find_crlf(&octets[..limit]) {
        Some(place) => LineCut::Whole(place + 2),
        None => LineCut::TooLong,
    }
}

/// Writes a line in three parts, each of which may be empty, and CR LF.
pub(crate) fn push_line(
    out: &mut Vec<u8>,
    front: &[u8],
    text: &[u8],
    more: &[u8],
) -> Result<(), AllocError>
    ensures ok { OnOk result (out.new.items ≡ out.old.items
        ++ line_text (front.now ++ (text.now ++ more.now))) }
    ensures front { Begins out.old.items out.new.items }
{
    out.extend_from_slice(front)?;
    out.extend_from_slice(text)?;
    out.extend_from_slice(more)?;
    out.extend_from_slice(b"\r\n")
}
