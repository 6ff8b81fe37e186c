//! What a client writes (RFC 5321, section 4.1.1; RFC 3030, section 2; RFC 3461, section 4). If memory runs out, part
//! of it may have been written.
ghost use Rattle.std.specs.Prelude.{◌≡◌, ◌++◌, ℕ, List, OnOk, if◌then◌else◌};
ghost use Rattle.relay_envelope.specs.Envelope.{mail_text, rcpt_text};
ghost use Rattle.relay_course.specs.Course.{IsSentAs};
ghost use Rattle.relay_course.specs.WrittenLine.{data_line, ehlo_line, helo_line, last_chunk, mail_line, quit_line};
ghost use Rattle.relay_course.specs.WrittenLine.{rcpt_line, rcpt_line_at};

use itoa::Buffer;
use relay_body::{ends_in_line_end, push_dots};
use relay_envelope::{Envelope, Recipient, write_mail, write_rcpt};
use std::alloc::{AllocError, Global};

/// Writes EHLO with this host's name.
pub(crate) fn write_ehlo(out: &mut Vec<u8>, host: &[u8]) -> Result<(), AllocError>
    ensures { OnOk result (out.new.items ≡ out.old.items ++ ehlo_line host.now) }
{
    out.extend_from_slice(b"EHLO ")?;
    out.extend_from_slice(host)?;
    out.extend_from_slice(b"\r\n")
}

/// Writes HELO with this host's name.
pub(crate) fn write_helo(out: &mut Vec<u8>, host: &[u8]) -> Result<(), AllocError>
    ensures { OnOk result (out.new.items ≡ out.old.items ++ helo_line host.now) }
{
    out.extend_from_slice(b"HELO ")?;
    out.extend_from_slice(host)?;
    out.extend_from_slice(b"\r\n")
}

/// Writes MAIL, with its parameters where the server offers DSN.
pub(crate) fn write_mail_line(
    alloc: Global,
    out: &mut Vec<u8>,
    dsn: bool,
    envelope: &Envelope,
) -> Result<(), AllocError>
    ensures { OnOk result (out.new.items ≡ out.old.items ++ mail_line dsn envelope.now) }
{
    out.extend_from_slice(b"MAIL FROM:")?;
    write_reverse_path(alloc, out, dsn, envelope)?;
    out.extend_from_slice(b"\r\n")
}

/// Writes the reverse path, with the parameters of MAIL where the server offers DSN.
fn write_reverse_path(
    alloc: Global,
    out: &mut Vec<u8>,
    dsn: bool,
    envelope: &Envelope,
) -> Result<(), AllocError>
    ensures { OnOk result (out.new.items
        ≡ out.old.items ++ (if dsn then mail_text envelope.now else envelope.now.reverse_path)) }
{
    if dsn {
        let text = write_mail(alloc, envelope)?;
        out.extend_from_slice(text.as_slice())
    } else {
        out.extend_from_slice(envelope.reverse_path.as_slice())
    }
}

/// Writes RCPT, with its parameters where the server offers DSN.
fn write_rcpt_line(
    alloc: Global,
    out: &mut Vec<u8>,
    dsn: bool,
    recipient: &Recipient,
) -> Result<(), AllocError>
    ensures { OnOk result (out.new.items ≡ out.old.items ++ rcpt_line dsn recipient.now) }
{
    out.extend_from_slice(b"RCPT TO:")?;
    write_forward_path(alloc, out, dsn, recipient)?;
    out.extend_from_slice(b"\r\n")
}

/// Writes a forward path, with the parameters of RCPT where the server offers DSN.
fn write_forward_path(
    alloc: Global,
    out: &mut Vec<u8>,
    dsn: bool,
    recipient: &Recipient,
) -> Result<(), AllocError>
    ensures { OnOk result (out.new.items
        ≡ out.old.items ++ (if dsn then rcpt_text recipient.now else recipient.now.path)) }
{
    if dsn {
        let text = write_rcpt(alloc, recipient)?;
        out.extend_from_slice(text.as_slice())
    } else {
        out.extend_from_slice(recipient.path.as_slice())
    }
}

/// Writes the RCPT of a place, from 0, if the envelope has it.
#[tactic(auto, using(crate::proofs::WrittenLemmas::rcpt_at, crate::proofs::WrittenLemmas::rcpt_past))]
pub(crate) fn write_rcpt_at(
    alloc: Global,
    out: &mut Vec<u8>,
    dsn: bool,
    recipients: &[Recipient],
    place: usize,
) -> Result<(), AllocError>
    ensures { OnOk result (out.new.items ≡ out.old.items ++ rcpt_line_at dsn recipients.now place) }
{
    if place < recipients.len() {
        write_rcpt_line(alloc, out, dsn, &recipients[place])
    } else {
        Ok(())
    }
}

/// Writes DATA.
pub(crate) fn write_data(out: &mut Vec<u8>) -> Result<(), AllocError>
    ensures { OnOk result (out.new.items ≡ out.old.items ++ data_line) }
{
    out.extend_from_slice(b"DATA\r\n")
}

/// Writes the dot text of a text that ends in CR LF; another isn't sent after DATA, and nothing is written.
#[tactic(auto, using(crate::proofs::WrittenLemmas::dots_written, crate::proofs::WrittenLemmas::none_written))]
pub(crate) fn write_dot_text(out: &mut Vec<u8>, text: &[u8]) -> Result<(), AllocError>
    ensures { OnOk result ((dot_text : List ℕ) → IsSentAs text.now dot_text
        → out.new.items ≡ out.old.items ++ dot_text) }
{
    if ends_in_line_end(text) {
        push_dots(out, text)
    } else {
        Ok(())
    }
}

/// Writes the text as the one and last chunk.
pub(crate) fn write_last_chunk(out: &mut Vec<u8>, text: &[u8]) -> Result<(), AllocError>
    ensures { OnOk result (out.new.items ≡ out.old.items ++ last_chunk text.now) }
{
    let mut digits = Buffer::new();
    out.extend_from_slice(b"BDAT ")?;
    out.extend_from_slice(digits.format(text.len()).as_bytes())?;
    out.extend_from_slice(b" LAST\r\n")?;
    out.extend_from_slice(text)
}

/// Writes QUIT.
pub(crate) fn write_quit(out: &mut Vec<u8>) -> Result<(), AllocError>
    ensures { OnOk result (out.new.items ≡ out.old.items ++ quit_line) }
{
    out.extend_from_slice(b"QUIT\r\n")
}
