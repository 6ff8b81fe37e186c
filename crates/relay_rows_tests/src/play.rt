ghost use Rattle.std.specs.Prelude.{◌<◌, IfOk};
ghost use Rattle.relay_rows_tests.specs.PlayOutcome.{IsOutcome};

use crate::command_play::{command_outcome, cut_outcome, word_outcome};
use crate::line_play::line_outcome;
use crate::reply_play::{last_line_outcome, replies_outcome, reply_outcome};
use relay_octets::Octets;
use std::alloc::{AllocError, Global};

/// What is asked of a text.
#[derive(Clone, Copy, Drop)]
pub enum Question {
    /// Does it begin with BDAT and a space?
    BeginsWithBdat,
    /// Is it the word of HELO?
    IsHostWord,
    /// Is each octet one of a domain?
    AreDomainOctets,
    /// Is it an address literal?
    IsAddressLiteral,
}

/// What is done in a row, and with which octets.
#[derive(Drop)]
pub enum Play {
    /// The first line is cut off the octets, if it has this many octets at most.
    Cut(usize, Octets),
    /// A line comes in pieces.
    Line(Octets),
    /// A command line is read, and the command is written.
    Command(Octets),
    /// A question is answered.
    Word(Question, Octets),
    /// A reply of this code and these texts is made, and written after another.
    Reply(u16, Vec<Octets>),
    /// The last line of a reply is written, whose text has two parts.
    LastLine(u16, Octets, Octets),
    /// Replies come in pieces, and are written again.
    Replies(Octets),
}

impl Play {
    /// Returns how many lengths of pieces there are.
    pub fn sizes(&self) -> usize {
        match self {
            Play::Line(octets) => octets.len(),
            Play::Replies(octets) => octets.len(),
            _ => 1,
        }
    }
}

/// Returns what the play comes to, where octets come in pieces of this length. Fails if memory runs out.
pub fn outcome_of(alloc: Global, play: &Play, size: usize) -> Result<Octets, AllocError>
    requires { 0 < size }
    ensures { IfOk result (λ outcome. IsOutcome play.now outcome) }
{
    match play {
        Play::Cut(limit, octets) => cut_outcome(alloc, octets.as_slice(), *limit),
        Play::Line(octets) => line_outcome(alloc, octets.as_slice(), size),
        Play::Command(octets) => command_outcome(alloc, octets.as_slice()),
        Play::Word(question, octets) => word_outcome(alloc, *question, octets.as_slice()),
        Play::Reply(code, texts) => reply_outcome(alloc, *code, texts.as_slice()),
        Play::LastLine(code, front, back) => {
            last_line_outcome(alloc, *code, front.as_slice(), back.as_slice())
        }
        Play::Replies(octets) => replies_outcome(alloc, octets.as_slice(), size),
    }
}
