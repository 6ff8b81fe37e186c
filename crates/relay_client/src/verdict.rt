//! The verdict of a reply on a place.
ghost use Rattle.std.specs.Prelude.{◌≡◌, ◌≤◌, length, map, take, IfOk};
ghost use Rattle.relay_lines.specs.Reply.{last_text};
ghost use Rattle.relay_book.specs.Record.{refusal_limit};
ghost use Rattle.relay_course.specs.VerdictTable.{content_verdict_by, rcpt_verdict, refusal};
ghost use Rattle.relay_lines.specs.Word.{shown};
ghost use Rattle.relay_client.specs.Settled.{verdict_as};

use relay_book::{REFUSAL_LIMIT, Verdict};
use relay_course::{ReplyKind, kind_of};
use relay_lines::Reply;
use relay_lines::word::all_shown;
use relay_octets::Octets;
use std::alloc::{AllocError, Global};

/// The reply code of a server whose storage for this mail is exceeded (RFC 5321, section 4.5.3.1.10):
/// at a RCPT it means that there are too many of them for now.
const STORAGE_EXCEEDED: u16 = 552;

/// The effect of a reply to RCPT on its place.
#[derive(Clone, Copy)]
pub(crate) enum RcptAnswer {
    /// The place is accepted: the reply to the content decides.
    Accepts,
    /// The place may be tried again.
    Delays,
    /// The place is refused for good.
    Rejects,
}

/// Returns what this reply to a RCPT does with its place. Allocates nothing.
pub(crate) fn rcpt_answer(reply: &Reply) -> RcptAnswer
    ensures { verdict_as result reply.now ≡ rcpt_verdict reply.now }
{
    match kind_of(reply.code()) {
        ReplyKind::Completion => RcptAnswer::Accepts,
        ReplyKind::Intermediate => RcptAnswer::Delays,
        ReplyKind::Transient => RcptAnswer::Delays,
        ReplyKind::Permanent => {
            if reply.code() == STORAGE_EXCEEDED {
                RcptAnswer::Delays
            } else {
                RcptAnswer::Rejects
            }
        }
    }
}

/// Returns a copy of a verdict. Fails if memory runs out.
pub(crate) fn copy_of(alloc: Global, verdict: &Verdict) -> Result<Verdict, AllocError>
    ensures { IfOk result (λ copy. copy ≡ verdict.now) }
{
    match verdict {
        Verdict::Taken { dsn } => Ok(Verdict::Taken { dsn: *dsn }),
        Verdict::Refused { code, text } => Ok(Verdict::Refused {
            code: *code,
            text: Octets::from_slice(alloc, text.as_slice())?,
        }),
        Verdict::Later => Ok(Verdict::Later),
        Verdict::CantSend => Ok(Verdict::CantSend),
        Verdict::NoRoute => Ok(Verdict::NoRoute),
        Verdict::Withdrawn(withdrawal) => Ok(Verdict::Withdrawn(*withdrawal)),
    }
}

/// Returns the refusal that a reply is. Fails if memory runs out.
pub(crate) fn refusal(alloc: Global, reply: &Reply) -> Result<Verdict, AllocError>
    ensures { IfOk result (λ verdict. verdict ≡ refusal reply.now) }
{
    let text = kept_text(alloc, reply)?;
    Ok(Verdict::Refused {
        code: reply.code(),
        text: Octets::new(text),
    })
}

/// The text of a refusal as it is kept. Fails if memory runs out.
pub(crate) fn kept_text(alloc: Global, reply: &Reply) -> Result<Vec<u8>, AllocError>
    ensures shown { IfOk result (λ text.
        text.items ≡ map shown (take refusal_limit (last_text reply.now.lines))) }
    ensures short { IfOk result (λ text. length text.items ≤ refusal_limit) }
{
    all_shown(alloc, kept_of(reply.last_text()))
}

/// What is kept of a text.
#[tactic(auto, using(crate::proofs::SettledLemmas::take_short))]
fn kept_of(text: &[u8]) -> &[u8]
    ensures { result.now ≡ take refusal_limit text.now }
{
    if text.len() < REFUSAL_LIMIT {
        text
    } else {
        &text[..REFUSAL_LIMIT]
    }
}

/// Returns what the reply to the content says of the places that are left, at a server that offers DSN or doesn't.
/// Fails if memory runs out.
pub(crate) fn content_verdict(
    alloc: Global,
    dsn: bool,
    kind: ReplyKind,
    reply: &Reply,
) -> Result<Verdict, AllocError>
    ensures { IfOk result (λ verdict. verdict ≡ content_verdict_by dsn kind reply.now) }
{
    match kind {
        ReplyKind::Completion => Ok(Verdict::Taken { dsn }),
        ReplyKind::Intermediate => Ok(Verdict::Later),
        ReplyKind::Transient => Ok(Verdict::Later),
        ReplyKind::Permanent => refusal(alloc, reply),
    }
}
