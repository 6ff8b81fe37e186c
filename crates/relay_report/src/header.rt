//! The header section of a report.
ghost use Rattle.std.specs.Prelude.{◌≡◌, ◌++◌, OnOk, codes};
ghost use Rattle.std.specs.List.{list_any};
ghost use Rattle.relay_report.specs.StatusFields.{field};
ghost use Rattle.relay_report.specs.Multipart.{auto_submitted, encoding_field, encoding_of, header_fields, id_front};
ghost use Rattle.relay_report.specs.Multipart.{is_eight_bit, message_id, moment_front, origin_fields, postmaster_at};
ghost use Rattle.relay_report.specs.Multipart.{report_type, subject_as};
ghost use Rattle.relay_report.specs.Report.{told_of};

use crate::field::{begin_field, push_decimal, push_field};
use crate::report::Report;
use crate::subject::push_rich_subject;
use relay_routes::ReportForm;
use relay_trace::Moment;
use std::alloc::AllocError;

/// The field of what has octets above 127 (RFC 2045, section 6.2).
const EIGHT_BIT: &[u8] = b"Content-Transfer-Encoding: 8bit\r\n";

/// Adds the header fields but for the one that names the boundary, where this field of the encoding ends them.
pub(crate) fn push_header(
    out: &mut Vec<u8>,
    report: &Report<'_>,
    date: &[u8],
    encoding: &[u8],
) -> Result<(), AllocError>
    ensures { OnOk result (out.new.items
        ≡ out.old.items ++ header_fields (told_of report.now) date.now encoding.now) }
{
    push_origin(out, report, date)?;
    push_auto_submitted(out, report.form)?;
    out.extend_from_slice(encoding)
}

/// Adds from whom the report is, to whom, on what, and when.
fn push_origin(out: &mut Vec<u8>, report: &Report<'_>, date: &[u8]) -> Result<(), AllocError>
    ensures { OnOk result (out.new.items ≡ out.old.items ++ origin_fields (told_of report.now) date.now) }
{
    push_from(out, report.host)?;
    push_field(
        out,
        b"To",
        report.message.accept.envelope.reverse_path.as_slice(),
    )?;
    push_subject(out, report)?;
    push_field(out, b"Date", date)?;
    push_message_id(out, report.form, report.at, report.number, report.host)?;
    push_field(out, b"MIME-Version", b"1.0")
}

fn push_from(out: &mut Vec<u8>, host: &[u8]) -> Result<(), AllocError>
    ensures { OnOk result (out.new.items ≡ out.old.items ++ field (codes "From") (postmaster_at host.now)) }
{
    begin_field(out, b"From")?;
    push_postmaster(out, host)?;
    out.extend_from_slice(b"\r\n")
}

fn push_postmaster(out: &mut Vec<u8>, host: &[u8]) -> Result<(), AllocError>
    ensures { OnOk result (out.new.items ≡ out.old.items ++ postmaster_at host.now) }
{
    out.extend_from_slice(b"<postmaster@")?;
    out.extend_from_slice(host)?;
    out.extend_from_slice(b">")
}

fn push_subject(out: &mut Vec<u8>, report: &Report<'_>) -> Result<(), AllocError>
    ensures { OnOk result (out.new.items
        ≡ out.old.items ++ field (codes "Subject") (subject_as report.now.form (told_of report.now))) }
{
    begin_field(out, b"Subject")?;
    push_subject_text(out, report.form, report)?;
    out.extend_from_slice(b"\r\n")
}

fn push_subject_text(
    out: &mut Vec<u8>,
    form: ReportForm,
    report: &Report<'_>,
) -> Result<(), AllocError>
    ensures { OnOk result (out.new.items ≡ out.old.items ++ subject_as form (told_of report.now)) }
{
    match form {
        ReportForm::Plain => out.extend_from_slice(b"Delivery report"),
        ReportForm::Rich => push_rich_subject(out, report),
    }
}

fn push_message_id(
    out: &mut Vec<u8>,
    form: ReportForm,
    at: Moment,
    number: u64,
    host: &[u8],
) -> Result<(), AllocError>
    ensures { OnOk result (out.new.items
        ≡ out.old.items ++ field (codes "Message-ID") (message_id form at number host.now)) }
{
    begin_field(out, b"Message-ID")?;
    push_message_id_text(out, form, at, number, host)?;
    out.extend_from_slice(b"\r\n")
}

fn push_message_id_text(
    out: &mut Vec<u8>,
    form: ReportForm,
    at: Moment,
    number: u64,
    host: &[u8],
) -> Result<(), AllocError>
    ensures { OnOk result (out.new.items ≡ out.old.items ++ message_id form at number host.now) }
{
    out.extend_from_slice(b"<")?;
    push_id_front(out, form, at)?;
    push_decimal(out, number)?;
    out.extend_from_slice(b"@")?;
    out.extend_from_slice(host)?;
    out.extend_from_slice(b">")
}

/// Adds the time of a rich report, since two spools at one host give the same numbers.
fn push_id_front(out: &mut Vec<u8>, form: ReportForm, at: Moment) -> Result<(), AllocError>
    ensures { OnOk result (out.new.items ≡ out.old.items ++ id_front form at) }
{
    match form {
        ReportForm::Plain => Ok(()),
        ReportForm::Rich => push_moment(out, at),
    }
}

fn push_moment(out: &mut Vec<u8>, at: Moment) -> Result<(), AllocError>
    ensures { OnOk result (out.new.items ≡ out.old.items ++ moment_front at) }
{
    push_decimal(out, at.seconds())?;
    out.extend_from_slice(b".")
}

/// Adds that a program has written a rich report, so that none answers it (RFC 3834, section 5).
fn push_auto_submitted(out: &mut Vec<u8>, form: ReportForm) -> Result<(), AllocError>
    ensures { OnOk result (out.new.items ≡ out.old.items ++ auto_submitted form) }
{
    match form {
        ReportForm::Plain => Ok(()),
        ReportForm::Rich => push_field(out, b"Auto-Submitted", b"auto-replied"),
    }
}

/// Returns the field of the encoding of what is returned, and so of the whole report: none in a plain one.
pub(crate) fn encoding_of(form: ReportForm, part: &[u8]) -> &'static [u8]
    ensures { result.now ≡ encoding_of form part.now }
{
    match form {
        ReportForm::Plain => b"",
        ReportForm::Rich => encoding_field(is_eight_bit(part)),
    }
}

#[tactic(auto, unfolding(crate::specs::StatusFields::field))]
fn encoding_field(is_eight_bit: bool) -> &'static [u8]
    ensures { result.now ≡ encoding_field is_eight_bit }
{
    if is_eight_bit { EIGHT_BIT } else { b"" }
}

/// Returns whether an octet stands above 127.
fn is_eight_bit(part: &[u8]) -> bool
    ensures { result ≡ list_any is_eight_bit part.now }
{
    part.iter().any(|octet| 127 < *octet)
}

/// Adds the field that names the boundary.
pub(crate) fn push_report_type(out: &mut Vec<u8>, boundary: &[u8]) -> Result<(), AllocError>
    ensures { OnOk result (out.new.items ≡ out.old.items ++ field (codes "Content-Type") (report_type boundary.now)) }
{
    begin_field(out, b"Content-Type")?;
    push_report_type_text(out, boundary)?;
    out.extend_from_slice(b"\r\n")
}

fn push_report_type_text(out: &mut Vec<u8>, boundary: &[u8]) -> Result<(), AllocError>
    ensures { OnOk result (out.new.items ≡ out.old.items ++ report_type boundary.now) }
{
    out.extend_from_slice(b"multipart/report; report-type=delivery-status;\r\n boundary=\"")?;
    out.extend_from_slice(boundary)?;
    out.extend_from_slice(b"\"")
}
