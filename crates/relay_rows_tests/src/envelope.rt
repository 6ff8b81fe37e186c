//! The outcome of an envelope's row: a text of MAIL or RCPT is read and written again, xtext is decoded, octets are
//! encoded, and a text is said to be a path or a host's name, or not.
ghost use Rattle.std.specs.Prelude.{◌≡◌, IfOk};
ghost use Rattle.relay_envelope.specs.Xtext.{decoded as decoded_octets};
ghost use Rattle.relay_rows_tests.specs.Outcome.{IsAnswer, IsDecision, IsMailOutcome, IsOutcome, IsRcptOutcome};
ghost use Rattle.relay_rows_tests.specs.Outcome.{decision_text, decoding_outcome, word_of};

use relay_envelope::{
    Envelope, EnvelopeFault, Recipient, Xtext, XtextFault, is_forward_path, is_host_name,
    is_reverse_path, read_mail, read_rcpt, write_mail, write_rcpt,
};
use relay_octets::Octets;
use std::alloc::{AllocError, Global};

/// Returns the outcome of a row. Fails if memory runs out.
pub fn outcome_of(alloc: Global, row: &str) -> Result<Octets, AllocError>
    ensures { IfOk result (IsOutcome row.now) }
{
    if let Some(text) = row.strip_prefix("MAIL FROM:") {
        written_mail(alloc, text.as_bytes())
    } else if let Some(text) = row.strip_prefix("RCPT TO:") {
        written_rcpt(alloc, text.as_bytes())
    } else if let Some(text) = row.strip_prefix("DECODE ") {
        decoded(alloc, text.as_bytes())
    } else if let Some(text) = row.strip_prefix("ENCODE ") {
        let xtext = Xtext::encode(alloc, text.as_bytes())?;
        Octets::from_slice(alloc, xtext.as_slice())
    } else {
        answer_of(alloc, row)
    }
}

/// Returns whether the text of a row is what its first word names, in a word.
fn answer_of(alloc: Global, row: &str) -> Result<Octets, AllocError>
    ensures { IfOk result (IsAnswer row.now) }
{
    let text = decision_text(decision_of(row));
    Octets::from_slice(alloc, text)
}

/// Returns whether the text of a row is what its first word names, where that is a word of these.
fn decision_of(row: &str) -> Option<bool>
    ensures { IsDecision row.now result }
{
    if let Some(text) = row.strip_prefix("REVERSE ") {
        Some(is_reverse_path(text.as_bytes()))
    } else if let Some(text) = row.strip_prefix("FORWARD ") {
        Some(is_forward_path(text.as_bytes()))
    } else if let Some(text) = row.strip_prefix("HOST ") {
        Some(is_host_name(text.as_bytes()))
    } else {
        None
    }
}

/// Returns a decision in a word.
fn decision_text(decision: Option<bool>) -> &'static [u8]
    ensures { result.now ≡ decision_text decision }
{
    match decision {
        Some(true) => b"yes",
        Some(false) => b"no",
        None => b"no row",
    }
}

/// Returns a text of MAIL, read and written again, or the word of its fault.
fn written_mail(alloc: Global, text: &[u8]) -> Result<Octets, AllocError>
    ensures { IfOk result (IsMailOutcome text.now) }
{
    match read_mail(text) {
        Ok(mail) => {
            let envelope = Envelope::new(alloc, mail)?;
            write_mail(alloc, &envelope)
        }
        Err(fault) => Octets::from_slice(alloc, text_of(fault)),
    }
}

/// Returns a text of RCPT, read and written again, or the word of its fault.
fn written_rcpt(alloc: Global, text: &[u8]) -> Result<Octets, AllocError>
    ensures { IfOk result (IsRcptOutcome text.now) }
{
    match read_rcpt(text) {
        Ok(rcpt) => {
            let recipient = Recipient::new(alloc, rcpt)?;
            write_rcpt(alloc, &recipient)
        }
        Err(fault) => Octets::from_slice(alloc, text_of(fault)),
    }
}

/// Returns the octets that an xtext stands for, or a word where the text is none.
fn decoded(alloc: Global, text: &[u8]) -> Result<Octets, AllocError>
    ensures { IfOk result (λ outcome. outcome ≡ decoding_outcome (decoded_octets text.now)) }
{
    match Xtext::decode(alloc, text) {
        Ok(octets) => Ok(octets),
        Err(XtextFault::NotXtext) => Octets::from_slice(alloc, b"NotXtext"),
        Err(XtextFault::NoMemory) => Err(AllocError),
    }
}

/// Returns the word of a fault.
fn text_of(fault: EnvelopeFault) -> &'static [u8]
    ensures { result.now ≡ word_of fault }
{
    match fault {
        EnvelopeFault::BadPath => b"BadPath",
        EnvelopeFault::BadValue => b"BadValue",
        EnvelopeFault::Repeated => b"Repeated",
        EnvelopeFault::UnknownParameter => b"UnknownParameter",
    }
}
