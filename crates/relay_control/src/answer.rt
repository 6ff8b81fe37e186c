//! Answers of the control socket: lines, the last of which says how the request ended.
ghost use Rattle.std.specs.Prelude.{◌≡◌, ◌++◌, ◌∷◌, [], MatchOption, OnOk, map};
ghost use Rattle.relay_lines.specs.Word.{shown};
ghost use Rattle.relay_control.specs.Answer.{EndsInNoLf, HasNoAnswer, IsEnd, IsNoEnd, IsWhole, ReadsAnswer, end_text};
ghost use Rattle.relay_control.specs.Answer.{line_text};
ghost use Rattle.relay_control.specs.Request.{HasNo};

use crate::front::after;
use memchr::memrchr;
use relay_lines::word::is_printable;
use std::alloc::AllocError;

/// How a request ended.
#[derive(Clone, Copy, Drop)]
pub enum End<'a> {
    /// It was done.
    Done,
    /// It wasn't done, for this reason.
    Refused(&'a [u8]),
}

/// A whole answer.
#[derive(Clone, Copy, Drop)]
pub struct Reply<'a> {
    /// The lines before the last one, each with its LF. They begin with a space.
    pub lines: &'a [u8],
    pub end: End<'a>,
}

/// Adds a line to an answer, with `?` in place of each octet that isn't printable. Fails if memory runs out.
pub fn push_line(answer: &mut Vec<u8>, line: &[u8]) -> Result<(), AllocError>
    ensures { OnOk result (answer.new.items ≡ answer.old.items ++ line_text line.now) }
{
    answer.push(b' ')?;
    push_shown(answer, line)?;
    answer.push(b'\n')?;
    Ok(())
}

/// Adds the last line of an answer. Fails if memory runs out.
pub fn push_end(answer: &mut Vec<u8>, end: End<'_>) -> Result<(), AllocError>
    ensures { OnOk result (answer.new.items ≡ answer.old.items ++ end_text end.entry) }
{
    match end {
        End::Done => answer.extend_from_slice(b"ok\n"),
        End::Refused(reason) => {
            answer.extend_from_slice(b"error ")?;
            push_shown(answer, reason)?;
            answer.push(b'\n')?;
            Ok(())
        }
    }
}

/// Adds octets, with `?` in place of each that isn't printable. Fails if memory runs out.
fn push_shown(answer: &mut Vec<u8>, octets: &[u8]) -> Result<(), AllocError>
    ensures { OnOk result (answer.new.items ≡ answer.old.items ++ map shown octets.now) }
{
    for octet in octets {
        answer.push(shown(*octet))?;
    }
    Ok(())
}

/// Reads a whole answer: `None` where its last line is missing or cut, as where the connection broke.
pub fn read_answer(octets: &[u8]) -> Option<Reply<'_>>
    ensures { MatchOption result (HasNoAnswer octets.now) (ReadsAnswer octets.now) }
{
    let body = before_last_lf(octets)?;
    let (lines, last) = cut_last(body);
    match end_of(last) {
        Some(end) => Some(Reply { lines, end }),
        None => None,
    }
}

/// Returns what is before the LF with which octets end.
fn before_last_lf(octets: &[u8]) -> Option<&[u8]>
    ensures { MatchOption result (EndsInNoLf octets.now) (λ body. octets.now ≡ body.now ++ 10 ∷ []) }
{
    octets.strip_suffix(b"\n")
}

/// Returns the whole lines of octets, and what follows them.
fn cut_last(octets: &[u8]) -> (&[u8], &[u8])
    ensures parts { octets.now ≡ result.0.now ++ result.1.now }
    ensures whole { IsWhole result.0.now }
    ensures last { HasNo 10 result.1.now }
{
    match memrchr(b'\n', octets) {
        Some(place) => octets.split_at(place + 1),
        None => (&[], octets),
    }
}

/// How a request ended whose answer has this last line.
fn end_of(last: &[u8]) -> Option<End<'_>>
    ensures { MatchOption result (IsNoEnd last.now) (IsEnd last.now) }
{
    if last == b"ok".as_slice() {
        return Some(End::Done);
    }
    match after(last, b"error ") {
        Some(reason) => Some(End::Refused(reason)),
        None => None,
    }
}

/// Returns the octet, or `?` where it isn't printable.
fn shown(octet: u8) -> u8
    ensures { result ≡ shown octet }
{
    if is_printable(octet) { octet } else { b'?' }
}
