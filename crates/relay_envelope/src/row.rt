//! Rows of plain octets and quoted strings (RFC 5321, section 4.1.2).
ghost use Rattle.std.specs.Prelude.{◌≡◌, ◌≢◌, ◌≤◌, ◌↔◌, ◌==◌, ◌&&◌, ◌++◌, ◌∷◌, ℕ, List, length, IfSome, IsTrue};
ghost use Rattle.std.specs.Prelude.{MatchOption};
ghost use Rattle.relay_envelope.specs.Row.{IsRow, RowBefore, is_plain as plain, is_text_octet as text_octet};
ghost use Rattle.relay_envelope.specs.RowScan.{is_outside, place_after, row_len_from};

use relay_lines::word::is_printable;

/// Where in a row an octet stands.
#[derive(Clone, Copy)]
enum Place {
    /// Outside a quoted string.
    Outside,
    /// Inside a quoted string.
    Inside,
    /// After a `\` in a quoted string.
    Escaped,
}

/// Returns the length of the row that is before the text's first `stop` outside a quoted string.
pub(crate) fn row_before(stop: u8, text: &[u8]) -> Option<usize>
    requires { stop ≢ 34 }
    ensures { MatchOption result
        ((row : List ℕ) (rest : List ℕ) → IsRow stop row → text.now ≢ row ++ stop ∷ rest)
        (λ len. RowBefore stop text.now len) }
{
    let len = row_len(stop, text)?;
    if len < text.len() { Some(len) } else { None }
}

/// Returns whether the whole text is a row.
pub(crate) fn is_row(text: &[u8]) -> bool
    ensures { IsTrue result ↔ IsRow 62 text.now }
{
    match row_len(b'>', text) {
        Some(len) => len == text.len(),
        None => false,
    }
}

/// Returns how long the row is that the text begins with, to the first `stop` outside a quoted string or the text's
/// end.
fn row_len(stop: u8, text: &[u8]) -> Option<usize>
    ensures value { result ≡ row_len_from stop Place.Outside text.now }
    ensures within { IfSome result (λ len. len ≤ length text.now) }
{
    let mut place = Place::Outside;
    for (i, octet) in text.iter().enumerate() {
        let octet = *octet;
        if is_end(stop, place, octet) {
            return Some(i);
        }
        place = place_after(place, octet)?;
    }
    if is_outside(place) {
        Some(text.len())
    } else {
        None
    }
}

/// Returns whether the octet ends a row.
fn is_end(stop: u8, place: Place, octet: u8) -> bool
    ensures { result ≡ is_outside place && (octet == stop) }
{
    is_outside(place) && octet == stop
}

/// Returns the state after an octet, if a row may have it here.
fn place_after(place: Place, octet: u8) -> Option<Place>
    ensures { result ≡ place_after place octet }
{
    match (place, octet) {
        (Place::Outside, b'"') => Some(Place::Inside),
        (Place::Outside, _) if is_plain(octet) => Some(Place::Outside),
        (Place::Outside, _) => None,
        (Place::Inside, b'"') => Some(Place::Outside),
        (Place::Inside, b'\\') => Some(Place::Escaped),
        (Place::Inside, _) if is_text_octet(octet) => Some(Place::Inside),
        (Place::Inside, _) => None,
        (Place::Escaped, _) if is_printable(octet) => Some(Place::Inside),
        (Place::Escaped, _) => None,
    }
}

/// Returns whether a row may end here.
fn is_outside(place: Place) -> bool
    ensures { result ≡ is_outside place }
{
    matches!(place, Place::Outside)
}

fn is_plain(octet: u8) -> bool
    ensures { result ≡ plain octet }
{
    matches!(octet, 33..=126) && !matches!(octet, b'<' | b'>' | b'"' | b'\\')
}

fn is_text_octet(octet: u8) -> bool
    ensures { result ≡ text_octet octet }
{
    is_printable(octet) && !matches!(octet, b'"' | b'\\')
}
