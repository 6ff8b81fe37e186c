ghost use Rattle.std.specs.Prelude.{◌≡◌, ◌++◌, OnOk, OnErr};
ghost use Rattle.relay_octets.specs.Beginning.{Begins};
ghost use Rattle.relay_octets.specs.Line.{crlf, line_text};
ghost use Rattle.relay_lines.specs.Command.{verb_of, command_of, reading_of, reading_of_words, answer_of, value_of};
ghost use Rattle.relay_lines.specs.Command.{Bdat};
ghost use Rattle.relay_lines.specs.WrittenCommand.{written_command};

use crate::chunk_argument::{BadChunkSize, BdatArgument};
use crate::line::push_line;
use crate::word::{
    after_keyword, are_printable, argument_of, first_word, is_host_word, is_word,
    without_trailing_blanks,
};
use itoa::Buffer;
use std::alloc::AllocError;
use thiserror::Error;

/// A command (RFC 5321, section 4.1.1), with its parts as they came.
#[derive(Clone, Copy, PartialEq, Eq)]
pub enum Command<'a> {
    /// The word of the client: 1 to 255 octets.
    Helo(&'a [u8]),
    /// The same, of a client that asks for the service extensions.
    Ehlo(&'a [u8]),
    /// The text after the colon of `FROM:`.
    Mail(&'a [u8]),
    /// The text after the colon of `TO:`.
    Rcpt(&'a [u8]),
    /// The mail data comes next.
    Data,
    /// A chunk of the content follows at once (RFC 3030, section 2).
    Bdat(BdatArgument),
    /// The mail transaction is dropped.
    Rset,
    /// Nothing is done, whatever its argument.
    Noop,
    /// A mailbox is asked for, whatever its argument.
    Vrfy,
    /// Help is asked for, whatever its argument.
    Help,
    /// The client ends the session.
    Quit,
}

/// Why a line is no command. `BadByte` comes before `Unknown`, and both before a fault of the argument. After BDAT a
/// bad octet is a bad chunk size.
#[derive(Clone, Copy, Debug, PartialEq, Eq, Error)]
pub enum LineFault {
    /// The line begins with no verb.
    #[error("unknown command")]
    Unknown,
    /// An octet of the line is outside 32 to 126.
    #[error("bad octet in line")]
    BadByte,
    /// The verb doesn't take this argument.
    #[error("bad argument")]
    BadArgument,
    /// The verb is EXPN or TURN, whatever its argument.
    #[error("not implemented")]
    NotOffered,
    /// The argument of BDAT is neither a size nor a size and LAST, so nobody knows how many octets follow the line.
    #[error("bad chunk size")]
    BadChunkSize,
}

/// The verb of a command line.
#[derive(Clone, Copy)]
enum Verb {
    Helo,
    Ehlo,
    Mail,
    Rcpt,
    Data,
    Bdat,
    Rset,
    Noop,
    Vrfy,
    Help,
    Expn,
    Turn,
    Quit,
}

/// Returns the verb that a word spells, in any letter case.
#[tactic(auto, unfolding(crate::specs::Command::verb_of))]
fn verb_of(word: &[u8]) -> Option<Verb>
    ensures { result ≡ verb_of word.now }
{
    if is_word(word, b"HELO") {
        Some(Verb::Helo)
    } else if is_word(word, b"EHLO") {
        Some(Verb::Ehlo)
    } else if is_word(word, b"MAIL") {
        Some(Verb::Mail)
    } else if is_word(word, b"RCPT") {
        Some(Verb::Rcpt)
    } else if is_word(word, b"DATA") {
        Some(Verb::Data)
    } else if is_word(word, b"BDAT") {
        Some(Verb::Bdat)
    } else if is_word(word, b"RSET") {
        Some(Verb::Rset)
    } else if is_word(word, b"NOOP") {
        Some(Verb::Noop)
    } else if is_word(word, b"VRFY") {
        Some(Verb::Vrfy)
    } else if is_word(word, b"HELP") {
        Some(Verb::Help)
    } else if is_word(word, b"EXPN") {
        Some(Verb::Expn)
    } else if is_word(word, b"TURN") {
        Some(Verb::Turn)
    } else if is_word(word, b"QUIT") {
        Some(Verb::Quit)
    } else {
        None
    }
}

impl<'a> Command<'a> {
    /// Reads a line without its CR LF. The parts of the command are slices of the line. The caller enforces the limit
    /// of a command line (RFC 5321, section 4.5.3.1.4): a line may have any length here.
    ///
    /// Spaces and tabs at the end of the line are dropped. The verb ends at the first space, and several spaces may
    /// follow it. The verb, `FROM:` and `TO:` may be in any letter case (RFC 5321, section 2.4).
    #[tactic(auto, unfolding(crate::specs::Command::reading_of, crate::specs::Command::reading_of_text))]
    pub fn parse(line: &'a [u8]) -> Result<Command<'a>, LineFault>
        ensures { answer_of result ≡ reading_of line.now }
    {
        let text = without_trailing_blanks(line);
        let word = first_word(text);
        if !are_printable(text) && !is_word(word, b"BDAT") {
            return Err(LineFault::BadByte);
        }
        Command::of_words(word, argument_of(text))
    }

    /// Reads a word as a verb, with an argument.
    #[tactic(auto, unfolding(crate::specs::Command::reading_of_words))]
    fn of_words(word: &[u8], argument: &'a [u8]) -> Result<Command<'a>, LineFault>
        ensures { answer_of result ≡ reading_of_words word.now argument.now }
    {
        match verb_of(word) {
            Some(verb) => Command::of_verb(verb, argument),
            None => Err(LineFault::Unknown),
        }
    }

    /// Reads the argument of a verb.
    #[tactic(auto, unfolding(crate::specs::Command::command_of))]
    fn of_verb(verb: Verb, argument: &'a [u8]) -> Result<Command<'a>, LineFault>
        ensures { answer_of result ≡ command_of verb argument.now }
    {
        match verb {
            Verb::Helo if is_host_word(argument) => Ok(Command::Helo(argument)),
            Verb::Ehlo if is_host_word(argument) => Ok(Command::Ehlo(argument)),
            Verb::Mail => match after_keyword(b"FROM:", argument) {
                Some(path) => Ok(Command::Mail(path)),
                None => Err(LineFault::BadArgument),
            },
            Verb::Rcpt => match after_keyword(b"TO:", argument) {
                Some(path) => Ok(Command::Rcpt(path)),
                None => Err(LineFault::BadArgument),
            },
            Verb::Data if argument.is_empty() => Ok(Command::Data),
            Verb::Bdat => match BdatArgument::parse(argument) {
                Ok(argument) => Ok(Command::Bdat(argument)),
                Err(BadChunkSize) => Err(LineFault::BadChunkSize),
            },
            Verb::Rset if argument.is_empty() => Ok(Command::Rset),
            Verb::Noop => Ok(Command::Noop),
            Verb::Vrfy => Ok(Command::Vrfy),
            Verb::Help => Ok(Command::Help),
            Verb::Expn | Verb::Turn => Err(LineFault::NotOffered),
            Verb::Quit if argument.is_empty() => Ok(Command::Quit),
            Verb::Helo | Verb::Ehlo | Verb::Data | Verb::Rset | Verb::Quit => {
                Err(LineFault::BadArgument)
            }
        }
    }

    /// Appends the command's line and its CR LF to `out`, with the verb in upper case. If memory runs out, nothing is
    /// written. The line is read as this command if its parts may be in a line: a host word, or a printable text that
    /// isn't too long and ends in no blank.
    pub fn write(&self, out: &mut Vec<u8>) -> Result<(), AllocError>
        ensures ok { OnOk result (out.new.items ≡ out.old.items
            ++ line_text (written_command (value_of self.now))) }
        ensures err { OnErr result (out.new.items ≡ out.old.items) }
    {
        let start = out.len();
        let written = self.push(out);
        if written.is_err() {
            out.truncate(start);
        }
        written
    }

    /// Writes the command's line and its CR LF, or a prefix of them if memory runs out.
    fn push(&self, out: &mut Vec<u8>) -> Result<(), AllocError>
        ensures ok { OnOk result (out.new.items ≡ out.old.items
            ++ line_text (written_command (value_of self.now))) }
        ensures front { Begins out.old.items out.new.items }
    {
        match *self {
            Command::Helo(host) => push_line(out, b"HELO ", host, b""),
            Command::Ehlo(host) => push_line(out, b"EHLO ", host, b""),
            Command::Mail(text) => push_line(out, b"MAIL FROM:", text, b""),
            Command::Rcpt(text) => push_line(out, b"RCPT TO:", text, b""),
            Command::Data => push_line(out, b"DATA", b"", b""),
            Command::Bdat(argument) => push_bdat(out, argument),
            Command::Rset => push_line(out, b"RSET", b"", b""),
            Command::Noop => push_line(out, b"NOOP", b"", b""),
            Command::Vrfy => push_line(out, b"VRFY", b"", b""),
            Command::Help => push_line(out, b"HELP", b"", b""),
            Command::Quit => push_line(out, b"QUIT", b"", b""),
        }
    }
}

/// Writes a line of BDAT: the size, and LAST where it announces the last chunk.
fn push_bdat(out: &mut Vec<u8>, argument: BdatArgument) -> Result<(), AllocError>
    ensures ok { OnOk result (out.new.items ≡ out.old.items
        ++ line_text (written_command (Bdat argument))) }
    ensures front { Begins out.old.items out.new.items }
{
    let mut digits = Buffer::new();
    let size = digits.format(argument.size).as_bytes();
    if argument.last {
        push_line(out, b"BDAT ", size, b" LAST")
    } else {
        push_line(out, b"BDAT ", size, b"")
    }
}
