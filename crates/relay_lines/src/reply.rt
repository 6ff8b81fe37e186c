ghost use Rattle.std.specs.Prelude.{◌≡◌, ◌<◌, ◌↔◌, ◌++◌, IsTrue, OnOk, OnErr};
ghost use Rattle.std.specs.List.{AllByRecursion};
ghost use Rattle.relay_octets.specs.Beginning.{Begins};
ghost use Rattle.relay_octets.specs.Line.{crlf};
ghost use Rattle.relay_lines.specs.Reply.{IsReplyLine, code_digits, last_line, lines_of_reply, middle_line, one_line};
ghost use Rattle.relay_lines.specs.Reply.{reply_text};

use crate::line::push_line;
use crate::line_buffer::LINE_LIMIT;
use relay_octets::{Octets, find_crlf};
use std::alloc::AllocError;
use std::marker::Model;

/// The most lines that a reply has.
pub const REPLY_LINES: usize = 100;

/// The octets of a reply line beside its text: the code, the mark after it, and CR LF.
const LINE_FRAME: usize = 6;

/// A reply (RFC 5321, 4.2): a code of three digits, the first 2 to 5, and 1 to 100 lines of text. A
/// text is any octets but CR LF, 2,042 of them at most.
pub struct Reply {
    code: u16,
    lines: Vec<Octets>,
}

// Written out, so that the proof of a caller that drops a reply stops at this function.
impl Drop for Reply {
    fn drop(self) {
        let Reply {
            code: _,
            lines: _lines,
        } = self;
    }
}

impl Model for Reply {
    ghost use Rattle.relay_lines.specs.Reply.{Reply as Coded, IsReply, made_of};

    ghost Value = { Coded };

    ghost view = { λ r. made_of r.code r.lines.items };

    ghost invariant = { λ r. IsReply (made_of r.code r.lines.items) };
}

impl Reply {
    ghost use Rattle.std.specs.Prelude.{◌≡◌, ◌++◌, MatchOption, OnOk, OnErr};
    ghost use Rattle.relay_lines.specs.Reply.{IsReply, reply_text, last_text, made_of};

    /// Makes a reply of a code and lines, or returns `None` if a reply can't have them.
    pub fn new(code: u16, lines: Vec<Octets>) -> Option<Self>
        ensures { MatchOption result (¬ IsReply (made_of code lines.items))
            (λ reply. (reply ≡ made_of code lines.items) × IsReply reply) }
    {
        let has_code = 200 <= code && code < 600;
        let has_lines = !lines.is_empty() && lines.len() <= REPLY_LINES;
        if has_code && has_lines && are_reply_lines(&lines) {
            Some(Reply { code, lines })
        } else {
            None
        }
    }

    /// Returns the code: 200 to 599.
    pub fn code(&self) -> u16
        ensures value { result ≡ self.now.code }
        ensures valid { IsReply self.now }
    {
        self.code
    }

    /// Returns the text of each line. There are 1 to 100.
    pub fn lines(&self) -> &[Octets]
        ensures value { result.now ≡ self.now.lines }
        ensures valid { IsReply self.now }
    {
        self.lines.as_slice()
    }

    /// Returns the text of the last line.
    #[tactic(auto, using(crate::proofs::ReplyLemmas::last_is))]
    pub fn last_text(&self) -> &[u8]
        ensures { result.now ≡ last_text self.now.lines }
    {
        match self.lines.split_last() {
            Some((last, _)) => last.as_slice(),
            None => &[],
        }
    }

    /// Appends the reply to `out`. If memory runs out, nothing is written.
    pub fn write(&self, out: &mut Vec<u8>) -> Result<(), AllocError>
        ensures ok { OnOk result (out.new.items ≡ out.old.items ++ reply_text self.now) }
        ensures err { OnErr result (out.new.items ≡ out.old.items) }
    {
        let start = out.len();
        let written = push_lines(out, self.code, self.lines.as_slice());
        if written.is_err() {
            out.truncate(start);
        }
        written
    }
}

/// Returns whether each of the texts may be in a reply.
fn are_reply_lines(lines: &[Octets]) -> bool
    ensures { IsTrue result ↔ AllByRecursion IsReplyLine lines.now }
{
    for text in lines {
        if !is_reply_line(text.as_slice()) {
            return false;
        }
    }
    true
}

/// Returns whether the text may be in a reply.
fn is_reply_line(text: &[u8]) -> bool
    ensures { IsTrue result ↔ IsReplyLine text.now }
{
    text.len() <= LINE_LIMIT - LINE_FRAME && find_crlf(text).is_none()
}

/// Appends a reply of one line to `out`: the code, and the text in two parts, each of which may be empty. If memory
/// runs out, nothing is written.
pub fn write_line(out: &mut Vec<u8>, code: u16, text: &[u8], more: &[u8]) -> Result<(), AllocError>
    requires { code < 1000 }
    ensures ok { OnOk result (out.new.items ≡ out.old.items
        ++ reply_text (one_line code (text.now ++ more.now))) }
    ensures err { OnErr result (out.new.items ≡ out.old.items) }
{
    let start = out.len();
    let written = push_last(out, code, text, more);
    if written.is_err() {
        out.truncate(start);
    }
    written
}

/// Appends a line of a reply that isn't the last to `out`: the code, a hyphen, and the text. If memory runs out,
/// nothing is written.
pub fn write_middle_line(out: &mut Vec<u8>, code: u16, text: &[u8]) -> Result<(), AllocError>
    requires { code < 1000 }
    ensures ok { OnOk result (out.new.items ≡ out.old.items ++ middle_line code text.now) }
    ensures err { OnErr result (out.new.items ≡ out.old.items) }
{
    let start = out.len();
    let written = push_reply_line(out, code, b"-", text, b"");
    if written.is_err() {
        out.truncate(start);
    }
    written
}

/// Writes the lines of a reply: all but the last are marked by a hyphen.
fn push_lines(out: &mut Vec<u8>, code: u16, lines: &[Octets]) -> Result<(), AllocError>
    requires { code < 1000 }
    ensures ok { OnOk result (out.new.items ≡ out.old.items ++ lines_of_reply code lines.now) }
    ensures front { Begins out.old.items out.new.items }
{
    let Some((last, middle)) = lines.split_last() else {
        return Ok(());
    };
    for text in middle {
        push_reply_line(out, code, b"-", text.as_slice(), b"")?;
    }
    push_last(out, code, last.as_slice(), b"")
}

/// Writes the last line of a reply, without a space if it has no text.
fn push_last(out: &mut Vec<u8>, code: u16, text: &[u8], more: &[u8]) -> Result<(), AllocError>
    requires { code < 1000 }
    ensures ok { OnOk result (out.new.items ≡ out.old.items ++ last_line code (text.now ++ more.now)) }
    ensures front { Begins out.old.items out.new.items }
{
    if text.is_empty() && more.is_empty() {
        push_reply_line(out, code, b"", b"", b"")
    } else {
        push_reply_line(out, code, b" ", text, more)
    }
}

/// Writes the code, the mark after it, the text in two parts, and CR LF.
fn push_reply_line(
    out: &mut Vec<u8>,
    code: u16,
    mark: &[u8],
    text: &[u8],
    more: &[u8],
) -> Result<(), AllocError>
    requires { code < 1000 }
    ensures ok { OnOk result (out.new.items ≡ out.old.items
        ++ (code_digits code ++ mark.now ++ text.now ++ more.now ++ crlf)) }
    ensures front { Begins out.old.items out.new.items }
{
    out.extend_from_slice(&code_digits(code))?;
    push_line(out, mark, text, more)
}

/// Returns the code's three digits.
fn code_digits(code: u16) -> [u8; 3]
    requires { code < 1000 }
    ensures { result ≡ code_digits code }
{
    [
        b'0' + (code / 100) as u8,
        b'0' + (code / 10 % 10) as u8,
        b'0' + (code % 10) as u8,
    ]
}
