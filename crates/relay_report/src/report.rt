//! The text of a report.
ghost use Rattle.std.specs.Prelude.{◌≡◌, ◌++◌, IfOk, OnOk, codes};
ghost use Rattle.std.specs.Option.{option_copied};
ghost use Rattle.relay_octets.specs.Line.{crlf};
ghost use Rattle.relay_trace.specs.DateTime.{IsDateText};
ghost use Rattle.relay_report.specs.StatusFields.{field};
ghost use Rattle.relay_report.specs.Multipart.{body_part, closing_line, header_fields, multipart_text};
ghost use Rattle.relay_report.specs.Multipart.{part_fields, part_head, report_type, returned_type};
ghost use Rattle.relay_report.specs.Report.{IsDueReport, IsReport, IsUntil, told_of};

use crate::boundary::boundary_for;
use crate::due::is_due;
use crate::field::push_field;
use crate::header::{encoding_of, push_header, push_report_type};
use crate::part_text::{first_part, returned, returns_whole, second_part};
use crate::parts::Parts;
use relay_book::{Message, PATIENCE, Ruling};
use relay_octets::Octets;
use relay_routes::ReportForm;
use relay_trace::{Moment, date_text};
use std::alloc::{AllocError, Global};

/// The octets that most reports take beside their parts.
const USUAL_LEN: usize = 1024;

/// The values that a report is made of.
#[derive(Clone, Copy)]
pub struct Report<'a> {
    /// In which form it is written.
    pub form: ReportForm,
    /// The name of this host.
    pub host: &'a [u8],
    /// The number of the report: that of the change which queues it.
    pub number: u64,
    /// The message that is reported.
    pub message: &'a Message,
    /// The name of the hop; empty where no attempt was made.
    pub hop: &'a [u8],
    /// The verdicts of the places.
    pub rulings: &'a [Ruling],
    /// When the report is made.
    pub at: Moment,
}

/// Returns the report that is owed (RFC 3461, section 5.2), or no octets if none is. Fails if memory runs out.
pub fn report_if_due(alloc: Global, report: &Report<'_>) -> Result<Octets, AllocError>
    ensures { IfOk result (λ text. IsDueReport (told_of report.now) text) }
{
    if is_due(report.message, report.rulings, report.at) {
        Ok(report_content(alloc, report)?)
    } else {
        Ok(Octets::new(Vec::new(alloc)))
    }
}

/// Returns the text of a report: a multipart/report of three parts, each line with its CR LF (RFC 3461, section 6; RFC
/// 3464). The stored text of the message is copied once, as it is. Fails if memory runs out.
pub fn report_content(alloc: Global, report: &Report<'_>) -> Result<Octets, AllocError>
    ensures { IfOk result (λ text. IsReport (told_of report.now) text) }
{
    let date = date_of(alloc, report.at)?;
    let arrival = date_of(alloc, report.message.accept.at)?;
    let until = until_of(alloc, report.message.accept.at)?;
    let first = first_part(alloc, report, arrival.as_slice(), as_octets(&until))?;
    let second = second_part(
        alloc,
        report,
        date.as_slice(),
        arrival.as_slice(),
        as_octets(&until),
    )?;
    let whole = returns_whole(report);
    let parts = Parts {
        first: first.as_slice(),
        second: second.as_slice(),
        third: returned(whole, report.message.accept.stored_text.as_slice()),
    };
    let encoding = encoding_of(report.form, parts.third);
    let boundary = boundary_for(alloc, report.number, &parts)?;
    let text = joined(
        alloc,
        report,
        date.as_slice(),
        boundary.as_slice(),
        &parts,
        whole,
        encoding,
    )?;
    Ok(Octets::new(text))
}

fn date_of(alloc: Global, moment: Moment) -> Result<Vec<u8>, AllocError>
    ensures { IfOk result (λ date. IsDateText moment date.items) }
{
    match date_text(alloc, moment) {
        Ok(date) => Ok(date),
        Err(_) => Err(AllocError),
    }
}

/// Returns the date until which a place is tried that was accepted at a time, and none if it passes the range of times.
fn until_of(alloc: Global, accepted: Moment) -> Result<Option<Octets>, AllocError>
    ensures { IfOk result (λ until. IsUntil accepted until) }
{
    match Moment::new(accepted.seconds() + PATIENCE) {
        Ok(moment) => {
            let date = date_of(alloc, moment)?;
            Ok(Some(Octets::new(date)))
        }
        Err(_) => Ok(None),
    }
}

/// Returns the octets of a date that may be there.
fn as_octets(date: &Option<Octets>) -> Option<&[u8]>
    ensures { option_copied result ≡ date.now }
{
    match date {
        Some(date) => Some(date.as_slice()),
        None => None,
    }
}

/// Returns the text of a report of these parts.
fn joined(
    alloc: Global,
    report: &Report<'_>,
    date: &[u8],
    boundary: &[u8],
    parts: &Parts<'_>,
    whole: bool,
    encoding: &[u8],
) -> Result<Vec<u8>, AllocError>
    ensures { IfOk result (λ text. text.items
        ≡ header_fields (told_of report.now) date.now encoding.now
        ++ field (codes "Content-Type") (report_type boundary.now) ++ crlf
        ++ multipart_text boundary.now parts.now.first.now parts.now.second.now (returned_type whole) encoding.now
        parts.now.third.now) }
{
    let in_parts = parts
        .first
        .len()
        .saturating_add(parts.second.len())
        .saturating_add(parts.third.len());
    let mut text = Vec::with_capacity(alloc, in_parts.saturating_add(USUAL_LEN))?;
    push_header(&mut text, report, date, encoding)?;
    push_report_type(&mut text, boundary)?;
    text.extend_from_slice(b"\r\n")?;
    push_multipart(&mut text, boundary, parts, whole, encoding)?;
    Ok(text)
}

/// Adds the three parts between their boundaries.
fn push_multipart(
    out: &mut Vec<u8>,
    boundary: &[u8],
    parts: &Parts<'_>,
    whole: bool,
    encoding: &[u8],
) -> Result<(), AllocError>
    ensures { OnOk result (out.new.items ≡ out.old.items
        ++ multipart_text boundary.now parts.now.first.now parts.now.second.now (returned_type whole) encoding.now
        parts.now.third.now) }
{
    push_body_part(
        out,
        boundary,
        b"text/plain; charset=us-ascii",
        b"",
        parts.first,
    )?;
    push_body_part(out, boundary, b"message/delivery-status", b"", parts.second)?;
    push_body_part(out, boundary, returned_type(whole), encoding, parts.third)?;
    push_closing_line(out, boundary)
}

/// Returns the type of what is returned (RFC 3462, section 2).
fn returned_type(whole: bool) -> &'static [u8]
    ensures { result.now ≡ returned_type whole }
{
    if whole {
        b"message/rfc822"
    } else {
        b"text/rfc822-headers"
    }
}

/// Adds a part after its head, and the line end that belongs to the next boundary.
fn push_body_part(
    out: &mut Vec<u8>,
    boundary: &[u8],
    kind: &[u8],
    encoding: &[u8],
    part: &[u8],
) -> Result<(), AllocError>
    ensures { OnOk result (out.new.items ≡ out.old.items
        ++ body_part boundary.now (part_fields kind.now encoding.now) part.now) }
{
    push_part_head(out, boundary, kind, encoding)?;
    out.extend_from_slice(part)?;
    out.extend_from_slice(b"\r\n")
}

/// Adds the boundary's line, the type of a part, the field of its encoding, and an empty line.
fn push_part_head(
    out: &mut Vec<u8>,
    boundary: &[u8],
    kind: &[u8],
    encoding: &[u8],
) -> Result<(), AllocError>
    ensures { OnOk result (out.new.items
        ≡ out.old.items ++ part_head boundary.now (part_fields kind.now encoding.now)) }
{
    out.extend_from_slice(b"--")?;
    out.extend_from_slice(boundary)?;
    out.extend_from_slice(b"\r\n")?;
    push_part_fields(out, kind, encoding)?;
    out.extend_from_slice(b"\r\n")
}

fn push_part_fields(out: &mut Vec<u8>, kind: &[u8], encoding: &[u8]) -> Result<(), AllocError>
    ensures { OnOk result (out.new.items ≡ out.old.items ++ part_fields kind.now encoding.now) }
{
    push_field(out, b"Content-Type", kind)?;
    out.extend_from_slice(encoding)
}

/// Adds the boundary's line after the last part.
fn push_closing_line(out: &mut Vec<u8>, boundary: &[u8]) -> Result<(), AllocError>
    ensures { OnOk result (out.new.items ≡ out.old.items ++ closing_line boundary.now) }
{
    out.extend_from_slice(b"--")?;
    out.extend_from_slice(boundary)?;
    out.extend_from_slice(b"--\r\n")
}
