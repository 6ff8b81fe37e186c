//! Which command a reply to a client refuses.
ghost use Rattle.std.specs.Prelude.{◌≡◌, ◌↔◌, IsTrue};
ghost use Rattle.relay_log.specs.Refused.{NamesRefused, Refuses};
ghost use Rattle.relay_log.specs.declared.refused.Refused.TheVariants.{Bdat, Rcpt, Unknown};

/// A command that one can tell by the reply that refuses it.
#[derive(Clone, Copy, Debug, PartialEq, Eq)]
pub(crate) enum Refused {
    /// RCPT.
    Rcpt,
    /// BDAT.
    Bdat,
    /// A verb that the relay doesn't know.
    Unknown,
}

impl Refused {
    /// Returns the command that a reply refuses, if the relay gives that reply to one command alone. The reply is a
    /// line without its CR LF.
    pub(crate) fn by_reply(reply: &[u8]) -> Option<Self>
        ensures { NamesRefused reply.now result }
    {
        if refuses_rcpt(reply) {
            Some(Refused::Rcpt)
        } else if refuses_bdat(reply) {
            Some(Refused::Bdat)
        } else if refuses_unknown(reply) {
            Some(Refused::Unknown)
        } else {
            None
        }
    }

    /// Returns the word of the log for it.
    pub(crate) fn word(self) -> &'static [u8] {
        match self {
            Refused::Rcpt => b"rcpt",
            Refused::Bdat => b"bdat",
            Refused::Unknown => b"unknown",
        }
    }
}

/// Returns whether a line has this text.
fn is_line(line: &[u8], text: &[u8]) -> bool
    ensures { IsTrue result ↔ (line.now ≡ text.now) }
{
    line == text
}

fn refuses_rcpt(reply: &[u8]) -> bool
    ensures { IsTrue result ↔ Refuses reply.now Rcpt }
{
    is_line(reply, b"550 no route")
        || is_line(reply, b"553 routed address refused")
        || is_line(reply, b"452 too many recipients")
}

fn refuses_unknown(reply: &[u8]) -> bool
    ensures { IsTrue result ↔ Refuses reply.now Unknown }
{
    is_line(reply, b"500 unknown command")
}

/// The relay's name stands before the words of that reply.
fn refuses_bdat(reply: &[u8]) -> bool
    ensures { IsTrue result ↔ Refuses reply.now Bdat }
{
    match reply.strip_prefix(b"421 ") {
        Some(text) => text.ends_with(b" bad chunk size, closing"),
        None => false,
    }
}
