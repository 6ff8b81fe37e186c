//! Text in pieces: that of the page, and of metrics.
ghost use Rattle.std.specs.Prelude.{◌≡◌, ◌++◌, OnOk, decimal};
ghost use Rattle.relay_listing.specs.Pieces.{all_spelled, escaped, escaped_octet, is_plain, spelled};

use crate::amounts::{Amount, push_amount, push_wait};
use itoa::Buffer;
use relay_lines::word::is_printable;
use std::alloc::AllocError;

/// A piece of a text.
#[derive(Clone, Copy)]
pub enum Piece<'a> {
    /// The relay's own markup, unchanged.
    Markup(&'static [u8]),
    /// Octets from elsewhere, escaped so that none is markup.
    Text(&'a [u8]),
    /// A number in decimal.
    Number(u64),
    /// A size in octets, in its largest unit.
    Size(u64),
    /// A span of this many seconds, in its largest unit.
    Span(u64),
    /// The time until something happens, in seconds; `now` if it is 0.
    Wait(u64),
}

/// Adds the text of these pieces.
pub fn push_pieces(text: &mut Vec<u8>, pieces: &[Piece<'_>]) -> Result<(), AllocError>
    ensures { OnOk result (text.new.items ≡ text.old.items ++ all_spelled pieces.now) }
{
    for piece in pieces {
        push_piece(text, piece)?;
    }
    Ok(())
}

fn push_piece(text: &mut Vec<u8>, piece: &Piece<'_>) -> Result<(), AllocError>
    ensures { OnOk result (text.new.items ≡ text.old.items ++ spelled piece.now) }
{
    match piece {
        Piece::Markup(markup) => text.extend_from_slice(markup),
        Piece::Text(octets) => push_escaped(text, octets),
        Piece::Number(number) => push_number(text, *number),
        Piece::Size(octets) => push_amount(text, Amount::of_size(*octets)),
        Piece::Span(seconds) => push_amount(text, Amount::of_span(*seconds)),
        Piece::Wait(seconds) => push_wait(text, *seconds),
    }
}

/// Adds octets as text: an octet that has a meaning in HTML, or isn't printable ASCII, becomes a character reference.
fn push_escaped(text: &mut Vec<u8>, octets: &[u8]) -> Result<(), AllocError>
    ensures { OnOk result (text.new.items ≡ text.old.items ++ escaped octets.now) }
{
    for octet in octets {
        push_octet(text, *octet)?;
    }
    Ok(())
}

fn push_octet(text: &mut Vec<u8>, octet: u8) -> Result<(), AllocError>
    ensures { OnOk result (text.new.items ≡ text.old.items ++ escaped_octet octet) }
{
    if is_plain(octet) {
        text.push(octet)?;
        return Ok(());
    }
    text.extend_from_slice(b"&#")?;
    push_number(text, u64::from(octet))?;
    text.push(b';')?;
    Ok(())
}

fn is_plain(octet: u8) -> bool
    ensures { result ≡ is_plain octet }
{
    is_printable(octet) && !matches!(octet, b'<' | b'>' | b'&' | b'"' | b'\'')
}

pub(crate) fn push_number(text: &mut Vec<u8>, number: u64) -> Result<(), AllocError>
    ensures { OnOk result (text.new.items ≡ text.old.items ++ decimal number) }
{
    text.extend_from_slice(Buffer::new().format(number).as_bytes())
}
