//! The fields of a delivery status (RFC 3464, sections 2.2 and 2.3).
ghost use Rattle.std.specs.Prelude.{◌≡◌, ◌++◌, OnOk};
ghost use Rattle.std.specs.Option.{option_copied};
ghost use Rattle.relay_report.specs.StatusFields.{action_of, address_in, attempt_fields, diagnostic_code};
ghost use Rattle.relay_report.specs.StatusFields.{diagnostic_of, last_attempt_date, message_fields};
ghost use Rattle.relay_report.specs.StatusFields.{original_envelope_id, original_recipient, recipient_fields};
ghost use Rattle.relay_report.specs.StatusFields.{remote_mta, reply_words, retry_until, returned_diagnostic};
ghost use Rattle.relay_report.specs.StatusFields.{status_of, status_of_left, status_of_refused, will_retry_until};

use crate::field::{begin_typed_field, plain_of, push_field, push_typed_field};
use crate::status_code::refusal_status;
use itoa::Buffer;
use relay_book::{DueReport, Verdict, Withdrawal};
use relay_envelope::{Orcpt, Recipient, Xtext};
use relay_routes::ReportForm;
use std::alloc::{AllocError, Global};

/// In which form is reported, what the hop said, when the report is made, and until when what is late is tried.
#[derive(Clone, Copy)]
pub(crate) struct Attempt<'a> {
    /// The form of the report.
    pub(crate) form: ReportForm,
    /// The name of the hop.
    pub(crate) hop: &'a [u8],
    /// The date of the report.
    pub(crate) date: &'a [u8],
    /// The date until which a place is tried; none if it can't be written.
    pub(crate) until: Option<&'a [u8]>,
}

/// Adds the fields of the message: this host, the date of arrival, and ENVID where it was given.
pub(crate) fn push_message_fields(
    alloc: Global,
    out: &mut Vec<u8>,
    host: &[u8],
    arrival: &[u8],
    envid: Option<&Xtext>,
) -> Result<(), AllocError>
    ensures { OnOk result
        (out.new.items ≡ out.old.items ++ message_fields host.now arrival.now (option_copied envid.entry)) }
{
    push_original_envelope_id(alloc, out, envid)?;
    push_typed_field(out, b"Reporting-MTA", b"dns", host)?;
    push_field(out, b"Arrival-Date", arrival)
}

fn push_original_envelope_id(
    alloc: Global,
    out: &mut Vec<u8>,
    envid: Option<&Xtext>,
) -> Result<(), AllocError>
    ensures { OnOk result (out.new.items ≡ out.old.items ++ original_envelope_id (option_copied envid.entry)) }
{
    match envid {
        Some(envid) => {
            let plain = plain_of(alloc, envid.as_slice())?;
            push_field(out, b"Original-Envelope-Id", plain.as_slice())
        }
        None => Ok(()),
    }
}

/// Adds the fields of a recipient after an empty line.
pub(crate) fn push_recipient_fields(
    alloc: Global,
    out: &mut Vec<u8>,
    attempt: Attempt<'_>,
    recipient: &Recipient,
    due: DueReport,
    verdict: &Verdict,
) -> Result<(), AllocError>
    ensures { OnOk result (out.new.items ≡ out.old.items
        ++ recipient_fields attempt.entry.form attempt.entry.hop.now attempt.entry.date.now
        (option_copied attempt.entry.until) recipient.now due verdict.now) }
{
    out.extend_from_slice(b"\r\n")?;
    push_original_recipient(alloc, out, recipient.orcpt.as_ref())?;
    push_typed_field(
        out,
        b"Final-Recipient",
        b"rfc822",
        address_in(recipient.path.as_slice()),
    )?;
    push_field(out, b"Action", action_of(due))?;
    push_attempt_fields(out, attempt, due, verdict)?;
    push_will_retry_until(out, attempt.until, due)
}

fn push_original_recipient(
    alloc: Global,
    out: &mut Vec<u8>,
    orcpt: Option<&Orcpt>,
) -> Result<(), AllocError>
    ensures { OnOk result (out.new.items ≡ out.old.items ++ original_recipient (option_copied orcpt.entry)) }
{
    match orcpt {
        Some(orcpt) => {
            let plain = plain_of(alloc, orcpt.address())?;
            push_typed_field(
                out,
                b"Original-Recipient",
                orcpt.address_type(),
                plain.as_slice(),
            )
        }
        None => Ok(()),
    }
}

/// Returns the address in a path: what is between its brackets.
fn address_in(path: &[u8]) -> &[u8]
    ensures { result.now ≡ address_in path.now }
{
    if path.len() < 2 {
        return &path[..0];
    }
    &path[1..path.len() - 1]
}

/// Returns the action of a report (RFC 3464, section 2.3.3).
pub(crate) fn action_of(due: DueReport) -> &'static [u8]
    ensures { result.now ≡ action_of due }
{
    match due {
        DueReport::OfFailure => b"failed",
        DueReport::OfRelay => b"relayed",
        DueReport::OfDelay => b"delayed",
    }
}

/// Adds what the hop said of a place, and when.
fn push_attempt_fields(
    out: &mut Vec<u8>,
    attempt: Attempt<'_>,
    due: DueReport,
    verdict: &Verdict,
) -> Result<(), AllocError>
    ensures { OnOk result (out.new.items ≡ out.old.items
        ++ attempt_fields attempt.entry.form attempt.entry.hop.now attempt.entry.date.now due verdict.now) }
{
    push_field(out, b"Status", status_of(attempt.form, due, verdict))?;
    push_remote_mta(out, attempt.hop, verdict)?;
    push_diagnostic_code(out, verdict)?;
    push_last_attempt_date(out, attempt.date, verdict)
}

/// Returns the status code of a place of which a report is due by a verdict (RFC 3463).
fn status_of(form: ReportForm, due: DueReport, verdict: &Verdict) -> &[u8]
    ensures { result.now ≡ status_of form due verdict.now }
{
    match due {
        DueReport::OfFailure => status_of_left(form, verdict),
        DueReport::OfRelay => status_of_left(form, verdict),
        DueReport::OfDelay => b"4.0.0",
    }
}

/// That of a place that left.
fn status_of_left(form: ReportForm, verdict: &Verdict) -> &[u8]
    ensures { result.now ≡ status_of_left form verdict.now }
{
    match verdict {
        Verdict::Taken { .. } => b"2.0.0",
        Verdict::Refused { code, text } => status_of_refused(form, *code, text.as_slice()),
        Verdict::Later => b"4.4.7",
        Verdict::CantSend => b"5.6.3",
        Verdict::NoRoute => b"5.1.2",
        Verdict::Withdrawn(_) => b"5.0.0",
    }
}

/// That of a refused place: one for all in a plain report, that of the reply in a rich one.
fn status_of_refused(form: ReportForm, code: u16, text: &[u8]) -> &[u8]
    ensures { result.now ≡ status_of_refused form code text.now }
{
    match form {
        ReportForm::Plain => b"5.0.0",
        ReportForm::Rich => refusal_status(code, text),
    }
}

fn push_remote_mta(out: &mut Vec<u8>, hop: &[u8], verdict: &Verdict) -> Result<(), AllocError>
    ensures { OnOk result (out.new.items ≡ out.old.items ++ remote_mta hop.now verdict.now) }
{
    match verdict {
        Verdict::Taken { .. } => push_typed_field(out, b"Remote-MTA", b"dns", hop),
        Verdict::Refused { .. } => push_typed_field(out, b"Remote-MTA", b"dns", hop),
        Verdict::Later => Ok(()),
        Verdict::CantSend => Ok(()),
        Verdict::NoRoute => Ok(()),
        Verdict::Withdrawn(_) => Ok(()),
    }
}

fn push_diagnostic_code(out: &mut Vec<u8>, verdict: &Verdict) -> Result<(), AllocError>
    ensures { OnOk result (out.new.items ≡ out.old.items ++ diagnostic_code verdict.now) }
{
    match verdict {
        Verdict::Taken { .. } => Ok(()),
        Verdict::Refused { code, text } => push_diagnostic_of(out, *code, text.as_slice()),
        Verdict::Later => Ok(()),
        Verdict::CantSend => Ok(()),
        Verdict::NoRoute => Ok(()),
        Verdict::Withdrawn(Withdrawal::Return) => push_returned(out),
        Verdict::Withdrawn(Withdrawal::Discard) => Ok(()),
    }
}

/// Adds that the postmaster has returned a place.
fn push_returned(out: &mut Vec<u8>) -> Result<(), AllocError>
    ensures { OnOk result (out.new.items ≡ out.old.items ++ returned_diagnostic) }
{
    push_typed_field(
        out,
        b"Diagnostic-Code",
        b"X-Postmaster",
        b"returned by the postmaster",
    )
}

fn push_diagnostic_of(out: &mut Vec<u8>, code: u16, text: &[u8]) -> Result<(), AllocError>
    ensures { OnOk result (out.new.items ≡ out.old.items ++ diagnostic_of code text.now) }
{
    begin_typed_field(out, b"Diagnostic-Code", b"smtp")?;
    push_reply_words(out, code, text)?;
    out.extend_from_slice(b"\r\n")
}

/// Adds a reply's code, and its text if there is one.
pub(crate) fn push_reply_words(out: &mut Vec<u8>, code: u16, text: &[u8]) -> Result<(), AllocError>
    ensures { OnOk result (out.new.items ≡ out.old.items ++ reply_words code text.now) }
{
    out.extend_from_slice(Buffer::new().format(code).as_bytes())?;
    match text {
        [] => Ok(()),
        [_, ..] => {
            out.extend_from_slice(b" ")?;
            out.extend_from_slice(text)
        }
    }
}

fn push_last_attempt_date(
    out: &mut Vec<u8>,
    date: &[u8],
    verdict: &Verdict,
) -> Result<(), AllocError>
    ensures { OnOk result (out.new.items ≡ out.old.items ++ last_attempt_date date.now verdict.now) }
{
    match verdict {
        Verdict::Taken { .. } => push_field(out, b"Last-Attempt-Date", date),
        Verdict::Refused { .. } => push_field(out, b"Last-Attempt-Date", date),
        Verdict::Later => push_field(out, b"Last-Attempt-Date", date),
        Verdict::CantSend => push_field(out, b"Last-Attempt-Date", date),
        Verdict::NoRoute => Ok(()),
        Verdict::Withdrawn(_) => Ok(()),
    }
}

/// Adds `Will-Retry-Until` for a late place that stays queued.
fn push_will_retry_until(
    out: &mut Vec<u8>,
    until: Option<&[u8]>,
    due: DueReport,
) -> Result<(), AllocError>
    ensures { OnOk result (out.new.items ≡ out.old.items ++ will_retry_until (option_copied until.entry) due) }
{
    match due {
        DueReport::OfFailure => Ok(()),
        DueReport::OfRelay => Ok(()),
        DueReport::OfDelay => push_retry_until(out, until),
    }
}

fn push_retry_until(out: &mut Vec<u8>, until: Option<&[u8]>) -> Result<(), AllocError>
    ensures { OnOk result (out.new.items ≡ out.old.items ++ retry_until (option_copied until.entry)) }
{
    match until {
        Some(date) => push_field(out, b"Will-Retry-Until", date),
        None => Ok(()),
    }
}
