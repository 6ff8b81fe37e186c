//! The outcome of octets that are one line: its cut, its command, or the answer to a question.
ghost use Rattle.std.specs.Prelude.{◌≡◌, IfOk};
ghost use Rattle.relay_lines.specs.Command.{reading_of};
ghost use Rattle.relay_rows_tests.specs.PlayOutcome.{IsCutOutcome, answer_of, fault_word, reading_text, yes_or_no};

use crate::play::Question;
use itoa::Buffer;
use relay_lines::{Command, LineCut, LineFault, begins_with_bdat, next_line, word};
use relay_octets::Octets;
use std::alloc::{AllocError, Global};

/// Returns what is cut off as the first line of octets.
pub fn cut_outcome(alloc: Global, octets: &[u8], limit: usize) -> Result<Octets, AllocError>
    ensures { IfOk result (IsCutOutcome octets.now limit) }
{
    match next_line(octets, limit) {
        LineCut::Whole(end) => {
            let mut outcome = Octets::from_slice(alloc, b"whole ")?;
            outcome.push_slice(Buffer::new().format(end).as_bytes())?;
            Ok(outcome)
        }
        LineCut::TooLong => Octets::from_slice(alloc, b"too long"),
        LineCut::More => Octets::from_slice(alloc, b"more"),
    }
}

/// Returns the line of the command that a line gives, or the word of its fault.
pub fn command_outcome(alloc: Global, line: &[u8]) -> Result<Octets, AllocError>
    ensures { IfOk result (λ outcome. outcome ≡ reading_text (reading_of line.now)) }
{
    match Command::parse(line) {
        Ok(command) => {
            let mut out = Vec::new(alloc);
            command.write(&mut out)?;
            Ok(Octets::new(out))
        }
        Err(fault) => Octets::from_slice(alloc, text_of(fault)),
    }
}

/// Returns the word of a fault.
fn text_of(fault: LineFault) -> &'static [u8]
    ensures { result.now ≡ fault_word fault }
{
    match fault {
        LineFault::Unknown => b"Unknown",
        LineFault::BadByte => b"BadByte",
        LineFault::BadArgument => b"BadArgument",
        LineFault::NotOffered => b"NotOffered",
        LineFault::BadChunkSize => b"BadChunkSize",
    }
}

/// Returns the answer to a question.
pub fn word_outcome(alloc: Global, question: Question, text: &[u8]) -> Result<Octets, AllocError>
    ensures { IfOk result (λ outcome. outcome ≡ yes_or_no (answer_of question text.now)) }
{
    let answer = match question {
        Question::BeginsWithBdat => begins_with_bdat(text),
        Question::IsHostWord => word::is_host_word(text),
        Question::AreDomainOctets => word::are_domain_octets(text),
        Question::IsAddressLiteral => word::is_address_literal(text),
    };
    Octets::from_slice(alloc, if answer { b"yes" } else { b"no" })
}
