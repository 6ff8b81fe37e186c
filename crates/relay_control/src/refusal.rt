//! Why a request is refused.
ghost use Rattle.std.specs.Prelude.{◌≡◌};
ghost use Rattle.relay_control.specs.Answer.{refusal_text};

use crate::verb::Verb;

/// Why a request is refused, before anything is done.
#[derive(Clone, Copy, Drop, PartialEq, Eq)]
pub enum Refusal {
    /// No line of it ends within 4,096 octets.
    TooLong,
    /// Its first word is no verb.
    Unknown,
    /// What follows its verb isn't what that takes.
    Usage(Verb),
}

impl Refusal {
    /// Returns what the answer says of it.
    pub fn text(self) -> &'static [u8]
        ensures { result.now ≡ refusal_text self }
    {
        match self {
            Refusal::TooLong => b"request too long: no line ends within 4096 octets",
            Refusal::Unknown => {
                b"unknown request: send flush, hold, release, return, discard, reload or drain"
            }
            Refusal::Usage(Verb::Flush) => {
                b"usage: flush, flush hop NAME or flush message NUMBER"
            }
            Refusal::Usage(Verb::Hold) => b"usage: hold hop NAME or hold message NUMBER",
            Refusal::Usage(Verb::Release) => b"usage: release hop NAME or release message NUMBER",
            Refusal::Usage(Verb::Return) => b"usage: return NUMBER:PLACE,.. ..",
            Refusal::Usage(Verb::Discard) => b"usage: discard NUMBER:PLACE,.. ..",
            Refusal::Usage(Verb::Reload) => b"usage: reload",
            Refusal::Usage(Verb::Drain) => b"usage: drain SECONDS, from 0 to 65535",
        }
    }
}
