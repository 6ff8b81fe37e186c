//! The messages of a snapshot, without their stored texts.
ghost use Rattle.std.specs.Prelude.{◌≡◌, ◌++◌, ◌+◌, ◌≤◌, ◌<◌, [], ℕ, List, length, IfOk, IsErrOf, OnErr};
ghost use Rattle.relay_pieces.specs.Pieces.{text_of};
ghost use Rattle.relay_book.specs.Fields.{HasNone};
ghost use Rattle.relay_book.specs.FirstOutline.{HasOutlined, OutlinesHead, PassesOver};
ghost use Rattle.relay_book.specs.Snapshot.{entry_octets};
ghost use Rattle.relay_book.specs.SnapshotFields.{IsQueuedIn};

use super::entry::split_head;
use super::mail::mail_of;
use crate::change::Accept;
use crate::fault::BookFault;
use crate::field::read_4;
use crate::limits::text_limit;
use crate::message::Message;
use crate::outline::outline_of_length;
use crate::version::SnapshotVersion;
use relay_envelope::Envelope;
use relay_pieces::Pieces;
use relay_trace::Moment;
use std::alloc::{AllocError, Global};

/// Returns the outline of a message of a number from a least one to below the next, the length of its stored text, and
/// what follows that length. The stored text itself need not be there.
fn read_outlined(
    alloc: Global,
    version: SnapshotVersion,
    least: u64,
    next: u64,
    text: &[u8],
) -> Result<(Message, usize, &[u8]), BookFault>
    ensures head { IfOk result
        (λ parts. OutlinesHead version least next text.now parts.0 parts.1 parts.2.now) }
    ensures number { IfOk result (λ parts. (least ≤ parts.0.number) × (parts.0.number < next)) }
    ensures bad { IsErrOf result BookFault.BadRecord
        → HasNone (IsQueuedIn version least next) (entry_octets version) text.now }
{
    let (number, at, path, ret, envid, recipients, places, end) = split_head(alloc, version, text)?;
    let Some((count, rest)) = read_4(end) else {
        return Err(BookFault::BadRecord);
    };
    let Some(mail) = mail_of(path, ret, envid) else {
        return Err(BookFault::BadRecord);
    };
    let Ok(at) = Moment::new(at) else {
        return Err(BookFault::BadRecord);
    };
    let count = count as usize;
    if count > text_limit(path) {
        return Err(BookFault::BadRecord);
    }
    if !places.any_held() {
        return Err(BookFault::BadRecord);
    }
    if number < least {
        return Err(BookFault::BadRecord);
    }
    if number >= next {
        return Err(BookFault::BadRecord);
    }
    let mut envelope = Envelope::new(alloc, mail)?;
    envelope.recipients = recipients;
    let accept = Accept {
        at,
        envelope,
        stored_text: outline_of_length(alloc, count as u64)?,
    };
    Ok((
        Message {
            number,
            accept,
            places,
        },
        count,
        rest,
    ))
}

/// Returns the same at the front of what is held of a text; all in front of the stored text is let go.
#[tactic(auto, using(crate::proofs::FirstOutlineLemmas::held_within))]
fn outlined_front(
    alloc: Global,
    version: SnapshotVersion,
    least: u64,
    next: u64,
    text: &mut Pieces,
) -> Result<(Message, usize), BookFault>
    ensures head { IfOk result
        (λ parts. OutlinesHead version least next (text_of text.old) parts.0 parts.1 (text_of text.new)) }
    ensures number { IfOk result (λ parts. (least ≤ parts.0.number) × (parts.0.number < next)) }
    ensures bad { IsErrOf result BookFault.BadRecord
        → HasNone (IsQueuedIn version least next) (entry_octets version) text.old.front }
    ensures err { OnErr result (text.new ≡ text.old) }
{
    let front = text.front();
    let (outline, count, rest) = read_outlined(alloc, version, least, next, front)?;
    let used = front.len() - rest.len();
    text.advance(used);
    Ok((outline, count))
}

/// Lets go of this many octets of a text, or of all, and returns how many are missing.
fn pass_over(text: &mut Pieces, count: usize) -> Result<usize, AllocError>
    ensures passed { IfOk result (λ missing. PassesOver (text_of text.old) (text_of text.new) missing count) }
    ensures end { IfOk result (λ missing. 0 < missing → text_of text.new ≡ []) }
{
    let mut missing = count;
    loop {
        let here = text.front().len().min(missing);
        text.advance(here);
        missing -= here;
        if missing == 0 {
            return Ok(0);
        }
        if !text.take_up()? {
            return Ok(missing);
        }
    }
}

/// Returns the outline of a message of a number from a least one to below the next, at the front of a text, and how
/// many octets of its stored text are missing after the text. The message is let go. It fails with `BadRecord` if no
/// such message begins the text, which stays as it is; where the text ends within what is before a stored text, more
/// octets may make it one.
#[tactic(auto, using(crate::proofs::PieceLemmas::none_in_all))]
pub(crate) fn next_outlined(
    alloc: Global,
    version: SnapshotVersion,
    least: u64,
    next: u64,
    text: &mut Pieces,
) -> Result<(Message, usize), BookFault>
    ensures entry { IfOk result (λ parts. (more : List ℕ) → length more ≡ parts.1
        → HasOutlined version least next (text_of text.old ++ more) parts.0 (text_of text.new)) }
    ensures end { IfOk result (λ parts. 0 < parts.1 → text_of text.new ≡ []) }
    ensures number { IfOk result (λ parts. (least ≤ parts.0.number) × (parts.0.number < next)) }
    ensures bad { IsErrOf result BookFault.BadRecord
        → HasNone (IsQueuedIn version least next) (entry_octets version) (text_of text.old) }
    ensures kept { IsErrOf result BookFault.BadRecord → text_of text.new ≡ text_of text.old }
{
    loop {
        match outlined_front(alloc, version, least, next, text) {
            Ok((outline, count)) => {
                let missing = pass_over(text, count)?;
                return Ok((outline, missing));
            }
            Err(BookFault::NoMemory) => return Err(BookFault::NoMemory),
            Err(BookFault::BadRecord) => {
                if !text.take_up()? {
                    return Err(BookFault::BadRecord);
                }
            }
        }
    }
}
