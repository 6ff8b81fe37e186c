ghost use Rattle.std.specs.Prelude.{◌+◌, ◌≤◌, length, take, drop, MatchOption};
ghost use Rattle.relay_octets.specs.Line.{HasNoCrlf, ReadsLine};

use memchr::memchr;

/// Returns the index of the first CR LF. A bare LF is rare in mail, so it searches for LFs and checks the octet before
/// each.
pub fn find_crlf(octets: &[u8]) -> Option<usize>
    ensures first { MatchOption result (HasNoCrlf octets.now)
        (λ place. ReadsLine octets.now (take place octets.now) (drop (place + 2) octets.now)) }
    ensures within { MatchOption result (Unit {0}) (λ place. place + 2 ≤ length octets.now) }
{
    let mut from = 0;
    while let Some(place) = memchr(b'\n', &octets[from..]) {
        let line_feed = from + place;
        if line_feed > 0 && octets[line_feed - 1] == b'\r' {
            return Some(line_feed - 1);
        }
        from = line_feed + 1;
    }
    None
}
