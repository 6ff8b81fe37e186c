//! The lines of an answer.
ghost use Rattle.std.specs.Prelude.{option_map};
ghost use Rattle.relay_control.specs.Request.{IsCut};

use memchr::memchr;

/// Returns the first line, without its LF, and what follows that: nothing follows if there is no LF.
pub(crate) fn cut_line(octets: &[u8]) -> (&[u8], Option<&[u8]>)
    ensures { IsCut 10 octets.now result.0.now (option_map (λ text. text.now) result.1) }
{
    match memchr(b'\n', octets) {
        Some(place) => (&octets[..place], Some(&octets[place + 1..])),
        None => (octets, None),
    }
}
