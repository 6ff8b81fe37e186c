//! What a rich report says to people.
ghost use Rattle.std.specs.Prelude.{◌≡◌, ◌++◌, OnOk};
ghost use Rattle.std.specs.Option.{option_copied};
ghost use Rattle.relay_report.specs.Sentences.{event_lines, greeting, left_lines, next_lines, place_lines};
ghost use Rattle.relay_report.specs.Sentences.{refusal_lines};
ghost use Rattle.relay_report.specs.Sentences.{reply_line, trying_line, trying_lines};

use crate::field::push_sentence;
use crate::status_fields::push_reply_words;
use itoa::Buffer;
use relay_book::{DueReport, Verdict};
use relay_envelope::Recipient;
use std::alloc::AllocError;

/// Adds who reports, and of which message.
pub(crate) fn push_greeting(
    out: &mut Vec<u8>,
    host: &[u8],
    number: u64,
    arrival: &[u8],
) -> Result<(), AllocError>
    ensures { OnOk result (out.new.items ≡ out.old.items ++ greeting host.now number arrival.now) }
{
    push_sentence(out, b"This is the mail relay at ", host, b".")?;
    push_sentence(
        out,
        b"It reports about your message, which it accepted as number ",
        Buffer::new().format(number).as_bytes(),
        b",",
    )?;
    push_sentence(out, b"at ", arrival, b":")
}

/// Adds all that is said of a place, after an empty line.
pub(crate) fn push_place(
    out: &mut Vec<u8>,
    hop: &[u8],
    until: Option<&[u8]>,
    recipient: &Recipient,
    due: DueReport,
    verdict: &Verdict,
) -> Result<(), AllocError>
    ensures { OnOk result (out.new.items ≡ out.old.items
        ++ place_lines hop.now (option_copied until.entry) recipient.now due verdict.now) }
{
    out.extend_from_slice(b"\r\n")?;
    push_sentence(out, b"For ", recipient.path.as_slice(), b":")?;
    push_event(out, hop, due, verdict)?;
    push_next(out, until, due)
}

/// Adds what happened.
fn push_event(
    out: &mut Vec<u8>,
    hop: &[u8],
    due: DueReport,
    verdict: &Verdict,
) -> Result<(), AllocError>
    ensures { OnOk result (out.new.items ≡ out.old.items ++ event_lines hop.now due verdict.now) }
{
    match due {
        DueReport::OfFailure => push_left(out, hop, verdict),
        DueReport::OfRelay => push_left(out, hop, verdict),
        DueReport::OfDelay => push_sentence(
            out,
            b"  It has not been delivered yet. The last attempt was made at ",
            hop,
            b".",
        ),
    }
}

/// Adds what happened to a place that left.
fn push_left(out: &mut Vec<u8>, hop: &[u8], verdict: &Verdict) -> Result<(), AllocError>
    ensures { OnOk result (out.new.items ≡ out.old.items ++ left_lines hop.now verdict.now) }
{
    match verdict {
        Verdict::Taken { .. } => {
            push_sentence(
                out,
                b"  It was handed to ",
                hop,
                b", which sends no reports.",
            )
        }
        Verdict::Refused { code, text } => push_refusal(out, hop, *code, text.as_slice()),
        Verdict::Later => push_sentence(
            out,
            b"  It could not be delivered in time. The last attempt was made at ",
            hop,
            b".",
        ),
        Verdict::CantSend => push_sentence(
            out,
            b"  It could not be delivered: its last line has no end, which ",
            hop,
            b" does not take.",
        ),
        Verdict::NoRoute => out.extend_from_slice(
            b"  It could not be delivered: this relay has no route for it.\r\n",
        ),
        Verdict::Withdrawn(_) => {
            out.extend_from_slice(b"  It was removed from the queue by the postmaster.\r\n")
        }
    }
}

/// Adds what the hop answered.
fn push_refusal(out: &mut Vec<u8>, hop: &[u8], code: u16, text: &[u8]) -> Result<(), AllocError>
    ensures { OnOk result (out.new.items ≡ out.old.items ++ refusal_lines hop.now code text.now) }
{
    push_sentence(out, b"  It could not be delivered. ", hop, b" answered:")?;
    push_reply_line(out, code, text)
}

fn push_reply_line(out: &mut Vec<u8>, code: u16, text: &[u8]) -> Result<(), AllocError>
    ensures { OnOk result (out.new.items ≡ out.old.items ++ reply_line code text.now) }
{
    out.extend_from_slice(b"    ")?;
    push_reply_words(out, code, text)?;
    out.extend_from_slice(b"\r\n")
}

/// Adds what happens next.
fn push_next(out: &mut Vec<u8>, until: Option<&[u8]>, due: DueReport) -> Result<(), AllocError>
    ensures { OnOk result (out.new.items ≡ out.old.items ++ next_lines (option_copied until.entry) due) }
{
    match due {
        DueReport::OfFailure => out.extend_from_slice(b"  The relay will not try again.\r\n"),
        DueReport::OfRelay => {
            out.extend_from_slice(b"  The relay will send no further report about it.\r\n")
        }
        DueReport::OfDelay => push_trying(out, until),
    }
}

/// Adds that a place is tried again.
fn push_trying(out: &mut Vec<u8>, until: Option<&[u8]>) -> Result<(), AllocError>
    ensures { OnOk result (out.new.items ≡ out.old.items ++ trying_lines (option_copied until.entry)) }
{
    push_trying_line(out, until)?;
    out.extend_from_slice(b"  You need not send the message again.\r\n")
}

/// Adds until when it is tried, where that date can be written.
fn push_trying_line(out: &mut Vec<u8>, until: Option<&[u8]>) -> Result<(), AllocError>
    ensures { OnOk result (out.new.items ≡ out.old.items ++ trying_line (option_copied until.entry)) }
{
    match until {
        None => out.extend_from_slice(b"  The relay keeps trying.\r\n"),
        Some(date) => push_sentence(out, b"  The relay keeps trying until ", date, b"."),
    }
}
