//! How much a client's session hears in one call: a bounded number of lines, so that no client makes others wait for
//! the replies to thousands of commands. Lines of mail data count too, so that the session's state needn't be known.
ghost use Rattle.std.specs.Prelude.{◌≡◌, ◌≤◌, length};
ghost use Rattle.relay_connections.specs.Share.{line_length as length_of_line, lines_length as length_of_lines};
ghost use Rattle.relay_connections.specs.Share.{share_of};

use memchr::memchr;

/// The most lines that a session hears in one call.
const LINES_AT_ONCE: usize = 256;

/// Returns the octets that a session hears in one call: the first 256 lines, or all.
pub(crate) fn share(octets: &[u8]) -> &[u8]
    ensures { result.now ≡ share_of octets.now }
{
    &octets[..lines_length(octets)]
}

/// Returns the length of the first 256 lines, or of all octets if there are fewer.
fn lines_length(octets: &[u8]) -> usize
    ensures lines { result ≡ length_of_lines LINES_AT_ONCE octets.now }
    ensures within { result ≤ length octets.now }
{
    let mut end = 0;
    for _ in 0..LINES_AT_ONCE {
        if end == octets.len() {
            return end;
        }
        end += line_length(&octets[end..]);
    }
    end
}

/// Returns the length of the first line with its LF, or of all octets if there is no LF.
fn line_length(octets: &[u8]) -> usize
    ensures line { result ≡ length_of_line octets.now }
    ensures within { result ≤ length octets.now }
{
    match memchr(b'\n', octets) {
        Some(place) => place + 1,
        None => octets.len(),
    }
}
