ghost use Rattle.std.specs.Prelude.{◌≡◌, ◌<◌, ◌≤◌, ◌⊎◌, ℕ, List, [], ◌∷◌, ◌++◌, length, take, drop, Err, IfOk, IfErr};
ghost use Rattle.std.specs.Prelude.{OnOk, OnErr, OnSome, MatchOption, IsTrue, true, false};
ghost use Rattle.relay_octets.specs.Line.{crlf};
ghost use Rattle.relay_lines.specs.Reply.{Reply as Coded, IsReply, SpellsLine, followed_lines, made_of};
ghost use Rattle.relay_lines.specs.ReplyReading.{Breaks, HasFault, IsNoReplyLine};
ghost use Rattle.relay_lines.specs.ReplySteps.{HasFailed, HasRead, GivesLines, HasCode, HasMade, HasNoCode, HoldsEnded};
ghost use Rattle.relay_lines.specs.ReplySteps.{HoldsRest, IsNextLine, KeepsLine};

use crate::line_buffer::{LINE_LIMIT, LineBuffer};
use crate::reply::{REPLY_LINES, Reply};
use relay_octets::Octets;
use std::alloc::{AllocError, Global};
use std::mem;
use thiserror::Error;

/// How many digits a code has.
const CODE_LEN: usize = 3;

/// Where the text of a line begins: after the code, and a hyphen or a space.
const TEXT_START: usize = 4;

/// Why octets are no reply. A line is judged when it is whole, or has 2,048 octets without an end. If it breaks two
/// rules, the first of this list is the fault.
#[derive(Clone, Copy, Debug, PartialEq, Eq, Error)]
pub enum ReplyFault {
    /// The line begins with no code, or neither a hyphen nor a space follows that. Each call after
    /// a fault answers this too.
    #[error("bad line in reply")]
    BadLine,
    /// The line has another code than the lines before it.
    #[error("two codes in reply")]
    MixedCodes,
    /// The line has more than 2,048 octets with its CR LF, or it is the 101st of its reply.
    #[error("reply too long")]
    TooLong,
    /// Memory ran out.
    #[error("no memory")]
    NoMemory,
}

impl From<AllocError> for ReplyFault {
    ghost use Rattle.std.specs.Prelude.{◌≡◌};
    ghost use Rattle.relay_lines.specs.declared.reply_reader.ReplyFault.TheVariants.{NoMemory};

    ghost from_gives = { λ _ fault. fault ≡ NoMemory };

    fn from(_fault: AllocError) -> ReplyFault {
        ReplyFault::NoMemory
    }
}

/// What a feed has done.
#[derive(Drop)]
pub struct ReplyCut {
    /// The number of octets used: up to a reply's end, or the whole piece.
    pub used: usize,
    /// The reply that ends there.
    pub reply: Option<Reply>,
}

/// What is in front of a line's text.
#[derive(Clone, Copy)]
struct Front {
    code: u16,
    is_last: bool,
}

/// A reader of replies (RFC 5321, section 4.2), which may come in any pieces. It holds at most 2,048 octets of an
/// unfinished line.
pub struct ReplyReader {
    alloc: Global,
    /// The code of the lines; while there are none, any code.
    code: u16,
    /// The texts of the reply's lines so far, none of which is the last.
    lines: Vec<Octets>,
    /// The octets of the next line that have come.
    line: LineBuffer,
    has_failed: bool,
}

// Written out, so that the proof of a caller that drops a reader stops at this function.
impl Drop for ReplyReader {
    fn drop(self) {
        let ReplyReader {
            alloc: _,
            code: _,
            lines: _lines,
            line: _line,
            has_failed: _,
        } = self;
    }
}

impl ReplyReader {
    /// Makes a reader that has used nothing yet. Allocates nothing.
    pub fn new(alloc: Global) -> Self
        ensures { HasRead result [] [] [] }
    {
        ReplyReader {
            alloc,
            code: 200,
            lines: Vec::new(alloc),
            line: LineBuffer::new(),
            has_failed: false,
        }
    }

    /// Uses the next piece up to the end of a reply, and returns that reply, or uses all of the piece. Fails at the
    /// first fault. After a fault each call returns [`ReplyFault::BadLine`], and uses nothing.
    pub fn feed(&mut self, piece: &[u8]) -> Result<ReplyCut, ReplyFault>
        ensures reads { IfOk result (λ cut. (octets : List ℕ) (replies : List Coded) (rest : List ℕ)
            → HasRead self.old octets replies rest
            → MatchOption cut.reply (HasRead self.new (octets ++ piece.now) replies (rest ++ piece.now))
            (λ reply. HasRead self.new (octets ++ take cut.used piece.now) (replies ++ reply ∷ []) [])) }
        ensures whole { IfOk result (λ cut. MatchOption cut.reply (cut.used ≡ length piece.now)
            (λ _. (0 < cut.used) × (cut.used ≤ length piece.now))) }
        ensures faults { IfErr result (λ fault. (octets : List ℕ) (replies : List Coded) (rest : List ℕ)
            → HasRead self.old octets replies rest
            → (fault ≡ ReplyFault.NoMemory) ⊎ HasFault (rest ++ piece.now) fault) }
        ensures failed { OnErr result (HasFailed self.new) }
        ensures again { HasFailed self.old → (result ≡ Err ReplyFault.BadLine) × (self.new ≡ self.old) }
    {
        if self.has_failed {
            return Err(ReplyFault::BadLine);
        }
        match self.read(piece) {
            Ok(cut) => Ok(cut),
            Err(fault) => {
                self.has_failed = true;
                Err(fault)
            }
        }
    }

    /// Uses the piece up to the end of a reply, or all of it.
    fn read(&mut self, piece: &[u8]) -> Result<ReplyCut, ReplyFault>
        ensures reads { IfOk result (λ cut. (rest : List ℕ) → HoldsRest self.old rest
            → HasMade self.new cut.reply (rest ++ take cut.used piece.now)) }
        ensures whole { IfOk result (λ cut. MatchOption cut.reply (cut.used ≡ length piece.now)
            (λ _. (0 < cut.used) × (cut.used ≤ length piece.now))) }
        ensures faults { IfErr result (λ fault. (rest : List ℕ) → HoldsRest self.old rest
            → (fault ≡ ReplyFault.NoMemory) ⊎ HasFault (rest ++ piece.now) fault) }
    {
        let mut used = 0;
        while used < piece.len() {
            let cut = self.step(&piece[used..])?;
            used += cut.used;
            if cut.reply.is_some() {
                return Ok(ReplyCut {
                    used,
                    reply: cut.reply,
                });
            }
        }
        Ok(ReplyCut { used, reply: None })
    }

    /// Uses the octets of one line, or the next ones of it.
    fn step(&mut self, octets: &[u8]) -> Result<ReplyCut, ReplyFault>
        requires { 0 < length octets.now }
        ensures reads { IfOk result (λ cut. (rest : List ℕ) → HoldsRest self.old rest
            → HasMade self.new cut.reply (rest ++ take cut.used octets.now)) }
        ensures within { IfOk result (λ cut. (0 < cut.used) × (cut.used ≤ length octets.now)) }
        ensures faults { IfErr result (λ fault. (rest : List ℕ) → HoldsRest self.old rest
            → (fault ≡ ReplyFault.NoMemory) ⊎ HasFault (rest ++ octets.now) fault) }
    {
        let Some(used) = self.line.feed(octets) else {
            self.judge_part()?;
            return Ok(ReplyCut {
                used: octets.len(),
                reply: None,
            });
        };
        let reply = self.end_line()?;
        Ok(ReplyCut { used, reply })
    }

    /// Returns the fault of a line that has 2,048 octets and no end.
    fn judge_part(&self) -> Result<(), ReplyFault>
        ensures ok { OnOk result (length self.now.line.kept < 2048) }
        ensures err { IfErr result (λ fault.
            Breaks fault self.now.code self.now.lines.items self.now.line.kept) }
        ensures long { OnErr result (2048 ≤ length self.now.line.kept) }
    {
        let octets = self.line.octets();
        if octets.len() < LINE_LIMIT {
            return Ok(());
        }
        self.judge(octets)?;
        Ok(())
    }

    /// Adds the ended line to the reply, and returns the reply if it is the last one.
    fn end_line(&mut self) -> Result<Option<Reply>, ReplyFault>
        ensures made { IfOk result (λ reply. (line : List ℕ) → HoldsEnded self.old line
            → HasMade self.new reply (followed_lines self.old.code self.old.lines.items ++ (line ++ crlf))) }
        ensures err { IfErr result (λ fault. (line : List ℕ) → HoldsEnded self.old line
            → (fault ≡ ReplyFault.NoMemory)
            ⊎ Breaks fault self.old.code self.old.lines.items self.old.line.kept) }
    {
        let front = self.judge(self.line.octets())?;
        self.keep_line(front.code)?;
        if front.is_last {
            let reply = self.take_reply();
            // Judged lines make a reply, so this doesn't happen.
            if reply.is_none() {
                return Err(ReplyFault::BadLine);
            }
            return Ok(reply);
        }
        Ok(None)
    }

    /// Returns what is in front of the line's text, where the line breaks no rule.
    fn judge(&self, line: &[u8]) -> Result<Front, ReplyFault>
        ensures ok { IfOk result (λ front.
            IsNextLine self.now.code self.now.lines.items line.now front.code front.is_last) }
        ensures err { IfErr result (λ fault.
            Breaks fault self.now.code self.now.lines.items line.now) }
    {
        let Some(front) = front_of(line) else {
            return Err(ReplyFault::BadLine);
        };
        if !self.lines.is_empty() && front.code != self.code {
            return Err(ReplyFault::MixedCodes);
        }
        if LINE_LIMIT - 2 < line.len() || REPLY_LINES <= self.lines.len() {
            return Err(ReplyFault::TooLong);
        }
        Ok(front)
    }

    /// Keeps the text of the line that has ended.
    fn keep_line(&mut self, code: u16) -> Result<(), AllocError>
        ensures { OnOk result (KeepsLine self.old self.new code) }
    {
        let text = Octets::from_slice(self.alloc, text_of(self.line.octets()))?;
        self.lines.push(text)?;
        self.code = code;
        self.line.clear();
        Ok(())
    }

    /// Returns the reply of the lines that have come. The next reply has none of them.
    fn take_reply(&mut self) -> Option<Reply>
        ensures reply { MatchOption result (¬ IsReply (made_of self.old.code self.old.lines.items))
            (λ reply. reply ≡ made_of self.old.code self.old.lines.items) }
        ensures gives { GivesLines self.old self.new }
    {
        let lines = mem::replace(&mut self.lines, Vec::new(self.alloc));
        Reply::new(self.code, lines)
    }
}

/// Returns what is in front of the text of a reply's line.
fn front_of(line: &[u8]) -> Option<Front>
    ensures { MatchOption result (IsNoReplyLine line.now)
        (λ front. SpellsLine line.now front.code front.is_last (drop 4 line.now)) }
{
    let code = code_of(line)?;
    if line.len() == CODE_LEN {
        return Some(Front {
            code,
            is_last: true,
        });
    }
    match line[CODE_LEN] {
        b' ' => Some(Front {
            code,
            is_last: true,
        }),
        b'-' => Some(Front {
            code,
            is_last: false,
        }),
        _ => None,
    }
}

/// Returns the code that a line begins with.
fn code_of(line: &[u8]) -> Option<u16>
    ensures { MatchOption result (HasNoCode line.now) (λ code. HasCode line.now code) }
{
    if line.len() < CODE_LEN {
        return None;
    }
    let (first, second, third) = (line[0], line[1], line[2]);
    let has_code = (b'2'..=b'5').contains(&first)
        && second.is_ascii_digit()
        && third.is_ascii_digit();
    if !has_code {
        return None;
    }
    let hundreds = u16::from(first - b'0') * 100;
    Some(hundreds + u16::from(second - b'0') * 10 + u16::from(third - b'0'))
}

/// Returns the text of a reply's line.
fn text_of(line: &[u8]) -> &[u8]
    ensures { result.now ≡ drop 4 line.now }
{
    if line.len() < TEXT_START {
        return &[];
    }
    &line[TEXT_START..]
}
