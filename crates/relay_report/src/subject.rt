//! The subject of a rich report.
ghost use Rattle.std.specs.Prelude.{◌≡◌, ◌++◌, OnOk};
ghost use Rattle.std.specs.List.{find};
ghost use Rattle.std.specs.Option.{option_copied};
ghost use Rattle.relay_report.specs.Multipart.{due_at, first_of, is_kind, is_same, late_subject, relayed_subject};
ghost use Rattle.relay_report.specs.Multipart.{rich_subject, subject_line};
ghost use Rattle.relay_report.specs.Report.{told_of};

use crate::due::{due_at, recipient_at};
use crate::report::Report;
use crate::status_fields::action_of;
use relay_book::{DueReport, Message, Ruling};
use relay_envelope::Recipient;
use relay_trace::Moment;
use std::alloc::AllocError;

/// Adds the subject: the first recipient that failed, else the first that is late, else the first that was relayed.
pub(crate) fn push_rich_subject(out: &mut Vec<u8>, report: &Report<'_>) -> Result<(), AllocError>
    ensures { OnOk result (out.new.items ≡ out.old.items ++ rich_subject (told_of report.now)) }
{
    match first_of(
        report.message,
        report.at,
        report.rulings,
        DueReport::OfFailure,
    ) {
        Some(recipient) => push_subject_line(out, DueReport::OfFailure, recipient),
        None => push_late_subject(out, report),
    }
}

/// Adds that of a report where none failed.
fn push_late_subject(out: &mut Vec<u8>, report: &Report<'_>) -> Result<(), AllocError>
    ensures { OnOk result (out.new.items ≡ out.old.items ++ late_subject (told_of report.now)) }
{
    match first_of(
        report.message,
        report.at,
        report.rulings,
        DueReport::OfDelay,
    ) {
        Some(recipient) => push_subject_line(out, DueReport::OfDelay, recipient),
        None => push_relayed_subject(out, report),
    }
}

/// Adds that of a report where none is late either.
fn push_relayed_subject(out: &mut Vec<u8>, report: &Report<'_>) -> Result<(), AllocError>
    ensures { OnOk result (out.new.items ≡ out.old.items ++ relayed_subject (told_of report.now)) }
{
    match first_of(
        report.message,
        report.at,
        report.rulings,
        DueReport::OfRelay,
    ) {
        Some(recipient) => push_subject_line(out, DueReport::OfRelay, recipient),
        None => out.extend_from_slice(b"Delivery report"),
    }
}

/// Returns the first recipient that is reported so.
fn first_of<'a>(
    message: &'a Message,
    now: Moment,
    rulings: &[Ruling],
    due: DueReport,
) -> Option<&'a Recipient>
    ensures { option_copied result ≡ first_of message.now now rulings.now due }
{
    match ruling_of(message, now, rulings, due) {
        Some(ruling) => recipient_at(message, ruling.place),
        None => None,
    }
}

/// Returns the first verdict whose place is reported so.
fn ruling_of<'a>(
    message: &Message,
    now: Moment,
    rulings: &'a [Ruling],
    due: DueReport,
) -> Option<&'a Ruling>
    ensures { option_copied result ≡ find (λ ruling. is_kind due (due_at message.now now ruling)) rulings.now }
{
    rulings
        .iter()
        .find(|ruling| is_reported_so(message, now, ruling, due))
}

/// Returns whether the place of a verdict is reported so.
fn is_reported_so(message: &Message, now: Moment, ruling: &Ruling, due: DueReport) -> bool
    ensures { result ≡ is_kind due (due_at message.now now ruling.now) }
{
    is_kind(due, due_at(message, ruling, now))
}

fn is_kind(wanted: DueReport, due: Option<DueReport>) -> bool
    ensures { result ≡ is_kind wanted due }
{
    match due {
        None => false,
        Some(due) => is_same(wanted, due),
    }
}

fn is_same(one: DueReport, other: DueReport) -> bool
    ensures { result ≡ is_same one other }
{
    match one {
        DueReport::OfFailure => match other {
            DueReport::OfFailure => true,
            DueReport::OfRelay => false,
            DueReport::OfDelay => false,
        },
        DueReport::OfRelay => match other {
            DueReport::OfFailure => false,
            DueReport::OfRelay => true,
            DueReport::OfDelay => false,
        },
        DueReport::OfDelay => match other {
            DueReport::OfFailure => false,
            DueReport::OfRelay => false,
            DueReport::OfDelay => true,
        },
    }
}

fn push_subject_line(
    out: &mut Vec<u8>,
    due: DueReport,
    recipient: &Recipient,
) -> Result<(), AllocError>
    ensures { OnOk result (out.new.items ≡ out.old.items ++ subject_line due recipient.now) }
{
    out.extend_from_slice(b"Delivery ")?;
    out.extend_from_slice(action_of(due))?;
    out.extend_from_slice(b": ")?;
    out.extend_from_slice(recipient.path.as_slice())
}
