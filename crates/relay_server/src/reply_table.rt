ghost use Rattle.std.specs.Prelude.{◌≡◌, ◌++◌, codes, decimal, OnOk, OnErr};
ghost use Rattle.relay_octets.specs.Beginning.{Begins};
ghost use Rattle.relay_lines.specs.Reply.{one_line, reply_text};
ghost use Rattle.relay_server.specs.Reply.{IsTextOf, reply_of};

use itoa::Buffer;
use relay_lines::{write_line, write_middle_line};
use std::alloc::AllocError;

/// The reply table: a row for each reply of the server.
#[derive(Clone, Copy, Drop)]
pub(crate) enum Row {
    /// The greeting.
    Greeting,
    /// HELO.
    Hello,
    /// EHLO: what is offered beside what the standard asks for.
    Extensions,
    /// MAIL has opened a transaction.
    SenderOk,
    /// RCPT has added a recipient.
    RecipientOk,
    /// The transaction has 100 recipients already.
    TooManyRecipients,
    /// The recipient's path is routed, and the configuration refuses that.
    RoutedAddress,
    /// No next hop takes the recipient's domain.
    NoRoute,
    /// The command is out of sequence.
    BadSequence,
    /// DATA, and no recipient was accepted.
    NoValidRecipients,
    /// DATA: mail data follows.
    StartMailInput,
    /// BDAT: the chunk has joined the content.
    ChunkOk,
    /// The content has more octets than the configuration allows.
    ContentTooLarge,
    /// The content has come in a circle: it has 100 `Received:` fields or more.
    TooManyReceived,
    /// The content has a bare CR or LF, and the configuration refuses that.
    BareLineEnd,
    /// NUL is in the content, and the configuration refuses that.
    NulInContent,
    /// The message is in the queue, under this number.
    Queued(u64),
    /// The message was not stored, for lack of room.
    SpoolFull,
    /// RSET and NOOP.
    Done,
    /// VRFY (RFC 5321, section 3.5.3).
    NotVerified,
    /// HELP.
    SeeStandard,
    /// QUIT.
    Closing,
    /// The verb is unknown.
    UnknownCommand,
    /// The line holds an octet outside 32 to 126.
    BadOctet,
    /// The line has more than 2,048 octets.
    LineTooLong,
    /// The verb doesn't take this argument.
    BadArgument,
    /// The path is malformed.
    BadPath,
    /// A parameter has a value that its keyword doesn't take.
    BadValue,
    /// A parameter is given twice.
    Repeated,
    /// A parameter that isn't offered.
    UnknownParameter,
    /// A command that isn't offered.
    NotOffered,
    /// BDAT, and nobody knows how many octets follow.
    BadChunkSize,
}

/// What a reply is made of.
#[derive(Drop)]
enum Text {
    /// A line of this code and text.
    Line(u16, &'static [u8]),
    /// A line of this code: the name of the host, and this text.
    HostLine(u16, &'static [u8]),
    /// The name of the host, and a keyword a line.
    Extensions,
    /// A line that tells the number of a message in the queue.
    Queued(u64),
}

impl Row {
    /// Writes the reply at the end of `out`. If memory runs out, nothing is written.
    pub(crate) fn write(self, host: &[u8], out: &mut Vec<u8>) -> Result<(), AllocError>
        ensures ok { OnOk result (out.new.items ≡ out.old.items ++ reply_text (reply_of host.now self)) }
        ensures err { OnErr result (out.new.items ≡ out.old.items) }
    {
        match self.text() {
            Text::Line(code, text) => write_line(out, code, text, b""),
            Text::HostLine(code, text) => write_line(out, code, host, text),
            Text::Extensions => write_extensions(host, out),
            Text::Queued(number) => write_queued(number, out),
        }
    }

    /// Returns what the reply is made of.
    #[tactic(auto, unfolding(crate::specs::Reply::reply_of))]
    fn text(self) -> Text
        ensures { IsTextOf self result }
    {
        match self {
            Row::Greeting => Text::HostLine(220, b" ESMTP relay ready"),
            Row::Hello => Text::HostLine(250, b""),
            Row::Extensions => Text::Extensions,
            Row::SenderOk => Text::Line(250, b"sender OK"),
            Row::RecipientOk => Text::Line(250, b"recipient OK"),
            Row::TooManyRecipients => Text::Line(452, b"too many recipients"),
            Row::RoutedAddress => Text::Line(553, b"routed address refused"),
            Row::NoRoute => Text::Line(550, b"no route"),
            Row::BadSequence => Text::Line(503, b"bad sequence"),
            Row::NoValidRecipients => Text::Line(554, b"no valid recipients"),
            Row::StartMailInput => Text::Line(354, b"end with a line of one period"),
            Row::ChunkOk => Text::Line(250, b"chunk OK"),
            Row::ContentTooLarge => Text::Line(552, b"content too large"),
            Row::TooManyReceived => Text::Line(554, b"too many Received fields"),
            Row::BareLineEnd => Text::Line(554, b"bare line end in content"),
            Row::NulInContent => Text::Line(554, b"NUL in content"),
            Row::Queued(number) => Text::Queued(number),
            Row::SpoolFull => Text::Line(452, b"spool full"),
            Row::Done => Text::Line(250, b"OK"),
            Row::NotVerified => Text::Line(252, b"not verified"),
            Row::SeeStandard => Text::Line(214, b"see RFC 5321"),
            Row::Closing => Text::HostLine(221, b" closing"),
            Row::UnknownCommand => Text::Line(500, b"unknown command"),
            Row::BadOctet => Text::Line(500, b"bad octet in line"),
            Row::LineTooLong => Text::Line(500, b"line too long"),
            Row::BadArgument => Text::Line(501, b"bad argument"),
            Row::BadPath => Text::Line(501, b"bad path"),
            Row::BadValue => Text::Line(501, b"bad parameter value"),
            Row::Repeated => Text::Line(501, b"parameter given twice"),
            Row::UnknownParameter => Text::Line(555, b"unknown parameter"),
            Row::NotOffered => Text::Line(502, b"not implemented"),
            Row::BadChunkSize => Text::HostLine(421, b" bad chunk size, closing"),
        }
    }
}

/// Writes that a message is in the queue, under this number. If memory runs out, nothing is written.
fn write_queued(number: u64, out: &mut Vec<u8>) -> Result<(), AllocError>
    ensures ok { OnOk result (out.new.items ≡ out.old.items
        ++ reply_text (one_line 250 (codes "queued as " ++ decimal number))) }
    ensures err { OnErr result (out.new.items ≡ out.old.items) }
{
    let mut digits = Buffer::new();
    write_line(out, 250, b"queued as ", digits.format(number).as_bytes())
}

/// Writes the reply to EHLO (RFC 5321, section 4.1.1.1): the name of the host, and a keyword a line. If memory runs
/// out, nothing is written.
#[tactic(auto, unfolding(crate::specs::Reply::reply_of))]
fn write_extensions(host: &[u8], out: &mut Vec<u8>) -> Result<(), AllocError>
    ensures ok { OnOk result (out.new.items
        ≡ out.old.items ++ reply_text (reply_of host.now Row.Extensions)) }
    ensures err { OnErr result (out.new.items ≡ out.old.items) }
{
    let start = out.len();
    let written = push_extensions(host, out);
    if written.is_err() {
        out.truncate(start);
    }
    written
}

/// Writes the reply to EHLO, or a prefix of it if memory runs out.
#[tactic(auto, unfolding(crate::specs::Reply::reply_of))]
fn push_extensions(host: &[u8], out: &mut Vec<u8>) -> Result<(), AllocError>
    ensures ok { OnOk result (out.new.items
        ≡ out.old.items ++ reply_text (reply_of host.now Row.Extensions)) }
    ensures front { Begins out.old.items out.new.items }
{
    write_middle_line(out, 250, host)?;
    write_middle_line(out, 250, b"PIPELINING")?;
    write_middle_line(out, 250, b"CHUNKING")?;
    write_line(out, 250, b"DSN", b"")
}
