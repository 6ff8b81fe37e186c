//! What octets begin with.
ghost use Rattle.std.specs.Prelude.{◌≡◌, ◌++◌, MatchOption, option_map};
ghost use Rattle.relay_control.specs.Request.{IsCut};
ghost use Rattle.relay_octets.specs.Beginning.{Begins};

use memchr::memchr;

/// Returns what follows this front of the octets, if they begin so.
pub(crate) fn after<'a>(octets: &'a [u8], front: &[u8]) -> Option<&'a [u8]>
    ensures { MatchOption result (¬ Begins front.now octets.now) (λ rest. octets.now ≡ front.now ++ rest.now) }
{
    octets.strip_prefix(front)
}

/// Returns what stands before the first such octet, and what follows it: nothing follows if there is none.
pub(crate) fn cut(octets: &[u8], stop: u8) -> (&[u8], Option<&[u8]>)
    ensures { IsCut stop octets.now result.0.now (option_map (λ text. text.now) result.1) }
{
    match memchr(stop, octets) {
        Some(place) => (&octets[..place], Some(&octets[place + 1..])),
        None => (octets, None),
    }
}
