//! The texts of the three parts.
ghost use Rattle.std.specs.Prelude.{◌≡◌, ◌++◌, IfOk, OnOk};
ghost use Rattle.std.specs.List.{flat_map, list_any};
ghost use Rattle.std.specs.Option.{option_copied};
ghost use Rattle.relay_report.specs.Multipart.{fails_at, fields_of, first_part, is_full, line_of, plain_first_part};
ghost use Rattle.relay_report.specs.Multipart.{recipient_line, returned, returns_whole, rich_first_part, second_part};
ghost use Rattle.relay_report.specs.Multipart.{sentences_of, title_line};
ghost use Rattle.relay_report.specs.Report.{told_of};

use crate::due::{due_at, fails_at, recipient_at};
use crate::field::push_decimal;
use crate::report::Report;
use crate::sentences::{push_greeting, push_place};
use crate::status_fields::{Attempt, action_of, push_message_fields, push_recipient_fields};
use relay_book::{DueReport, Message, Ruling};
use relay_envelope::{Recipient, Ret};
use relay_routes::ReportForm;
use relay_trace::{Moment, header_end};
use std::alloc::{AllocError, Global};

/// Returns the first part, for people.
pub(crate) fn first_part(
    alloc: Global,
    report: &Report<'_>,
    arrival: &[u8],
    until: Option<&[u8]>,
) -> Result<Vec<u8>, AllocError>
    ensures { IfOk result (λ part.
        part.items ≡ first_part (told_of report.now) arrival.now (option_copied until.entry)) }
{
    match report.form {
        ReportForm::Plain => plain_first_part(alloc, report),
        ReportForm::Rich => rich_first_part(alloc, report, arrival, until),
    }
}

/// That of a rich report: who reports, and sentences about each place of which a report is due.
#[tactic(auto, unfolding(crate::specs::Multipart::rich_first_part))]
fn rich_first_part(
    alloc: Global,
    report: &Report<'_>,
    arrival: &[u8],
    until: Option<&[u8]>,
) -> Result<Vec<u8>, AllocError>
    ensures { IfOk result (λ part.
        part.items ≡ rich_first_part (told_of report.now) arrival.now (option_copied until.entry)) }
{
    let mut part = Vec::new(alloc);
    push_greeting(&mut part, report.host, report.message.number, arrival)?;
    push_sentences(
        &mut part,
        report.message,
        report.hop,
        until,
        report.rulings,
        report.at,
    )?;
    Ok(part)
}

/// That of a plain report: a title, and a line for each place of which a report is due.
#[tactic(auto, unfolding(crate::specs::Multipart::plain_first_part))]
fn plain_first_part(alloc: Global, report: &Report<'_>) -> Result<Vec<u8>, AllocError>
    ensures { IfOk result (λ part. part.items ≡ plain_first_part (told_of report.now)) }
{
    let mut part = Vec::new(alloc);
    push_title(&mut part, report.host, report.message.number)?;
    push_lines(&mut part, report.message, report.rulings, report.at)?;
    Ok(part)
}

/// Returns the second part: the fields of the message, and those of each place of which a report is due.
#[tactic(auto, unfolding(crate::specs::Multipart::second_part))]
pub(crate) fn second_part(
    alloc: Global,
    report: &Report<'_>,
    date: &[u8],
    arrival: &[u8],
    until: Option<&[u8]>,
) -> Result<Vec<u8>, AllocError>
    ensures { IfOk result (λ part.
        part.items ≡ second_part (told_of report.now) date.now arrival.now (option_copied until.entry)) }
{
    let mut part = Vec::new(alloc);
    let attempt = Attempt {
        form: report.form,
        hop: report.hop,
        date,
        until,
    };
    let message = report.message;
    let envid = message.accept.envelope.envid.as_ref();
    push_message_fields(alloc, &mut part, report.host, arrival, envid)?;
    push_fields(
        alloc,
        &mut part,
        message,
        attempt,
        report.rulings,
        report.at,
    )?;
    Ok(part)
}

/// Returns whether the third part is the whole stored text: RET=FULL was given, and a failure is reported.
pub(crate) fn returns_whole(report: &Report<'_>) -> bool
    ensures { result ≡ returns_whole (told_of report.now) }
{
    is_full(report.message.accept.envelope.ret)
        && any_fails(report.message, report.rulings, report.at)
}

fn is_full(ret: Option<Ret>) -> bool
    ensures { result ≡ is_full ret }
{
    match ret {
        None => false,
        Some(Ret::Full) => true,
        Some(Ret::Hdrs) => false,
    }
}

/// Returns whether a failure is reported of a place.
fn any_fails(message: &Message, rulings: &[Ruling], now: Moment) -> bool
    ensures { result ≡ list_any (fails_at message.now now) rulings.now }
{
    rulings.iter().any(|ruling| fails_at(message, ruling, now))
}

/// Returns what is returned of a stored text: all of it, or its header section.
#[tactic(auto, unfolding(crate::specs::Multipart::returned, relay_trace::specs::HeaderSection::header_end_of))]
pub(crate) fn returned(whole: bool, text: &[u8]) -> &[u8]
    ensures { result.now ≡ returned whole text.now }
{
    if whole {
        text
    } else {
        &text[..header_end(text)]
    }
}

/// Adds the title of a report.
fn push_title(out: &mut Vec<u8>, host: &[u8], number: u64) -> Result<(), AllocError>
    ensures { OnOk result (out.new.items ≡ out.old.items ++ title_line host.now number) }
{
    out.extend_from_slice(b"Delivery report of ")?;
    out.extend_from_slice(host)?;
    out.extend_from_slice(b" for message ")?;
    push_decimal(out, number)?;
    out.extend_from_slice(b".\r\n")
}

/// Adds a line for each place of which a report is due.
fn push_lines(
    out: &mut Vec<u8>,
    message: &Message,
    rulings: &[Ruling],
    now: Moment,
) -> Result<(), AllocError>
    ensures { OnOk result (out.new.items ≡ out.old.items ++ flat_map (line_of message.now now) rulings.now) }
{
    for ruling in rulings {
        push_line(out, message, ruling, now)?;
    }
    Ok(())
}

fn push_line(
    out: &mut Vec<u8>,
    message: &Message,
    ruling: &Ruling,
    now: Moment,
) -> Result<(), AllocError>
    ensures { OnOk result (out.new.items ≡ out.old.items ++ line_of message.now now ruling.now) }
{
    match recipient_at(message, ruling.place) {
        Some(recipient) => match due_at(message, ruling, now) {
            Some(due) => push_recipient_line(out, recipient, due),
            None => Ok(()),
        },
        None => Ok(()),
    }
}

/// Adds the line of a recipient: the action and the path.
fn push_recipient_line(
    out: &mut Vec<u8>,
    recipient: &Recipient,
    due: DueReport,
) -> Result<(), AllocError>
    ensures { OnOk result (out.new.items ≡ out.old.items ++ recipient_line recipient.now due) }
{
    out.extend_from_slice(action_of(due))?;
    out.extend_from_slice(b" ")?;
    out.extend_from_slice(recipient.path.as_slice())?;
    out.extend_from_slice(b"\r\n")
}

/// Adds the sentences about each place of which a report is due.
fn push_sentences(
    out: &mut Vec<u8>,
    message: &Message,
    hop: &[u8],
    until: Option<&[u8]>,
    rulings: &[Ruling],
    now: Moment,
) -> Result<(), AllocError>
    ensures { OnOk result (out.new.items ≡ out.old.items
        ++ flat_map (sentences_of message.now hop.now now (option_copied until.entry)) rulings.now) }
{
    for ruling in rulings {
        push_sentences_of(out, message, hop, until, ruling, now)?;
    }
    Ok(())
}

fn push_sentences_of(
    out: &mut Vec<u8>,
    message: &Message,
    hop: &[u8],
    until: Option<&[u8]>,
    ruling: &Ruling,
    now: Moment,
) -> Result<(), AllocError>
    ensures { OnOk result (out.new.items ≡ out.old.items
        ++ sentences_of message.now hop.now now (option_copied until.entry) ruling.now) }
{
    match recipient_at(message, ruling.place) {
        Some(recipient) => match due_at(message, ruling, now) {
            Some(due) => push_place(out, hop, until, recipient, due, &ruling.verdict),
            None => Ok(()),
        },
        None => Ok(()),
    }
}

/// Adds the fields of each place of which a report is due.
fn push_fields(
    alloc: Global,
    out: &mut Vec<u8>,
    message: &Message,
    attempt: Attempt<'_>,
    rulings: &[Ruling],
    now: Moment,
) -> Result<(), AllocError>
    ensures { OnOk result (out.new.items ≡ out.old.items
        ++ flat_map
        (fields_of attempt.entry.form message.now attempt.entry.hop.now now attempt.entry.date.now
        (option_copied attempt.entry.until)) rulings.now) }
{
    for ruling in rulings {
        push_fields_of(alloc, out, message, attempt, ruling, now)?;
    }
    Ok(())
}

fn push_fields_of(
    alloc: Global,
    out: &mut Vec<u8>,
    message: &Message,
    attempt: Attempt<'_>,
    ruling: &Ruling,
    now: Moment,
) -> Result<(), AllocError>
    ensures { OnOk result (out.new.items ≡ out.old.items
        ++ fields_of attempt.entry.form message.now attempt.entry.hop.now now attempt.entry.date.now
        (option_copied attempt.entry.until) ruling.now) }
{
    match recipient_at(message, ruling.place) {
        Some(recipient) => match due_at(message, ruling, now) {
            Some(due) => push_recipient_fields(
                alloc,
                out,
                attempt,
                recipient,
                due,
                &ruling.verdict,
            ),
            None => Ok(()),
        },
        None => Ok(()),
    }
}
