//! Answers of the control socket.
ghost use Rattle.std.specs.Prelude.{◌≡◌, ◌++◌, ◌-◌, IfOk, OnOk, codes, decimal, if◌then◌else◌};
ghost use Rattle.relay_control.specs.Answer.{end_text, error_text, line_text};
ghost use Rattle.relay_run.specs.Answers.{count_line, done_word, refused_line, withdrawn_of, withdrawn_text};

use crate::withdrawing::Outcome;
use relay_book::Withdrawal;
use relay_control::{End, Named, push_end, push_line};
use std::alloc::{AllocError, Global};

/// The octets of an answer of the control socket; an error if there was no memory for one.
pub type Answer = Result<Vec<u8>, AllocError>;

/// Returns the answer to a request that was done.
pub(crate) fn done(alloc: Global, line: &[u8]) -> Answer
    ensures { IfOk result (λ answer. answer.items ≡ line_text line.now ++ end_text End.Done) }
{
    let mut answer = Vec::new(alloc);
    push_line(&mut answer, line)?;
    push_end(&mut answer, End::Done)?;
    Ok(answer)
}

/// Returns the answer to a request that was done, with a number in its line.
pub(crate) fn done_with_count(alloc: Global, text: &str, count: u64) -> Answer
    ensures { IfOk result (λ answer. answer.items ≡ line_text (text.now ++ decimal count) ++ end_text End.Done) }
{
    let line = format!(in alloc; "{text}{count}")?;
    done(alloc, line.as_str().as_bytes())
}

/// Returns the answer to a request that was refused.
pub(crate) fn refused(alloc: Global, reason: &[u8]) -> Answer
    ensures { IfOk result (λ answer. answer.items ≡ error_text reason.now) }
{
    let mut answer = Vec::new(alloc);
    push_end(&mut answer, End::Refused(reason))?;
    Ok(answer)
}

/// Returns the answer to a request that has withdrawn places: a line for each message that was refused, and one with
/// the number of recipients. It ends with `error no memory` if memory ran out before the last message.
pub(crate) fn withdrawn(
    alloc: Global,
    withdrawal: Withdrawal,
    names: &[Named],
    outcomes: &[Outcome],
) -> Answer
    ensures { IfOk result (λ answer. answer.items ≡ withdrawn_text withdrawal names.now outcomes.now) }
{
    let mut answer = Vec::new(alloc);
    let mut recipients = 0_u64;
    for (named, outcome) in names.iter().zip(outcomes) {
        push_refused(alloc, &mut answer, named, *outcome)?;
        recipients = recipients.saturating_add(withdrawn_of(named, *outcome));
    }
    push_count(alloc, &mut answer, withdrawal, recipients)?;
    push_last(&mut answer, outcomes.len() < names.len())?;
    Ok(answer)
}

/// Adds the line of a message, if it was refused.
fn push_refused(
    alloc: Global,
    answer: &mut Vec<u8>,
    named: &Named,
    outcome: Outcome,
) -> Result<(), AllocError>
    ensures { OnOk result (answer.new.items ≡ answer.old.items ++ refused_line named.now outcome) }
{
    match outcome {
        Outcome::Withdrawn => Ok(()),
        Outcome::Unknown => push_reason(alloc, answer, named.message, " unknown"),
        Outcome::Busy => push_reason(alloc, answer, named.message, " busy"),
        Outcome::Full => push_reason(alloc, answer, named.message, " full"),
    }
}

/// Adds the line of a message that was refused for this reason.
fn push_reason(
    alloc: Global,
    answer: &mut Vec<u8>,
    message: u64,
    reason: &str,
) -> Result<(), AllocError>
    ensures { OnOk result (answer.new.items ≡ answer.old.items ++ line_text (decimal message ++ reason.now)) }
{
    let line = format!(in alloc; "{message}{reason}")?;
    push_line(answer, line.as_str().as_bytes())
}

/// Returns how many recipients of a message were withdrawn.
fn withdrawn_of(named: &Named, outcome: Outcome) -> u64
    ensures { result ≡ withdrawn_of named.now outcome }
{
    match outcome {
        Outcome::Withdrawn => named.places.len() as u64,
        Outcome::Unknown | Outcome::Busy | Outcome::Full => 0,
    }
}

/// Adds the line with the number of recipients.
fn push_count(
    alloc: Global,
    answer: &mut Vec<u8>,
    withdrawal: Withdrawal,
    count: u64,
) -> Result<(), AllocError>
    ensures { OnOk result (answer.new.items ≡ answer.old.items ++ count_line withdrawal count) }
{
    let line = format!(in alloc; "{} recipients={count}", done_word(withdrawal))?;
    push_line(answer, line.as_str().as_bytes())
}

/// Returns the word for what was done.
fn done_word(withdrawal: Withdrawal) -> &'static str
    ensures { result.now ≡ done_word withdrawal }
{
    match withdrawal {
        Withdrawal::Return => "returned",
        Withdrawal::Discard => "discarded",
    }
}

/// Adds the last line.
fn push_last(answer: &mut Vec<u8>, is_short: bool) -> Result<(), AllocError>
    ensures { OnOk result (answer.new.items
        ≡ answer.old.items ++ (if is_short then error_text (codes "no memory") else end_text End.Done)) }
{
    if is_short {
        push_end(answer, End::Refused(b"no memory"))
    } else {
        push_end(answer, End::Done)
    }
}
