ghost use Rattle.std.specs.Prelude.{◌≡◌};
ghost use Rattle.relay_trace.specs.HeaderSection.{header_end_of, is_received, received_count_of};

use memchr::memmem;
use relay_octets::find_crlf;

/// The field name of a time stamp line (RFC 5321, section 4.4), with its colon.
const RECEIVED: &[u8; 9] = b"Received:";

/// Counts the lines of the header section that begin with `Received:`, in any letter case. The header section is the
/// lines before the first empty one; octets after the last CR LF are a line too.
pub fn received_count(text: &[u8]) -> usize
    ensures { result ≡ received_count_of text.now }
{
    let mut count = 0;
    let mut rest = text;
    while let Some(place) = find_crlf(rest) {
        if place == 0 {
            return count;
        }
        if is_received(&rest[..place]) {
            count += 1;
        }
        rest = &rest[place + 2..];
    }
    if is_received(rest) { count + 1 } else { count }
}

/// Returns the index of the first empty line, which ends the header section, or the text's length if there is none.
pub fn header_end(text: &[u8]) -> usize
    ensures { result ≡ header_end_of text.now }
{
    if text.starts_with(b"\r\n") {
        return 0;
    }
    match memmem::find(text, b"\r\n\r\n") {
        Some(place) => place + 2,
        None => text.len(),
    }
}

/// Returns whether a line begins with `Received:`, in any letter case (RFC 5322, section 1.2.2).
#[tactic(auto, unfolding(crate::specs::HeaderSection::is_received))]
fn is_received(line: &[u8]) -> bool
    ensures { result ≡ is_received line.now }
{
    line.len() >= RECEIVED.len() && line[..RECEIVED.len()].eq_ignore_ascii_case(RECEIVED)
}
