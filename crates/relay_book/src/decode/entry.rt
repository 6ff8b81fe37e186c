//! The messages of a snapshot.
ghost use Rattle.std.specs.Prelude.{◌≡◌, ◌++◌, ◌≤◌, ◌<◌, IfOk, IsErrOf, OnErr};
ghost use Rattle.relay_pieces.specs.Pieces.{text_of};
ghost use Rattle.relay_book.specs.Fields.{HasNone};
ghost use Rattle.relay_book.specs.Snapshot.{IsQueuedBy, entry_octets};
ghost use Rattle.relay_book.specs.SnapshotFields.{IsQueuedIn, SpellsEntry, SpellsEntryHead, numbered};

use super::mail::mail_of;
use super::placed::read_placed;
use super::recipient::read_fields;
use crate::change::Accept;
use crate::fault::BookFault;
use crate::field::{read_8, read_sized_4};
use crate::limits::text_limit;
use crate::message::{Message, Places};
use crate::version::SnapshotVersion;
use relay_envelope::{Envelope, Recipients};
use relay_octets::Octets;
use relay_pieces::Pieces;
use relay_trace::Moment;
use std::alloc::Global;

/// The fields of a message: its number, its time, the three of MAIL, the recipients, their places, the stored text, and
/// what follows them.
type EntryFields<'a> = (
    u64,
    u64,
    &'a [u8],
    u8,
    &'a [u8],
    Recipients,
    Places,
    &'a [u8],
    &'a [u8],
);

/// The fields of a message up to its places, and what follows them.
pub(super) type EntryHead<'a> = (
    u64,
    u64,
    &'a [u8],
    u8,
    &'a [u8],
    Recipients,
    Places,
    &'a [u8],
);

/// Cuts off the fields of a message in front of its stored text.
pub(super) fn split_head(
    alloc: Global,
    version: SnapshotVersion,
    text: &[u8],
) -> Result<EntryHead<'_>, BookFault>
    ensures fields { IfOk result (λ parts. SpellsEntryHead
        version text.now parts.0 parts.1 parts.2.now parts.3 parts.4.now parts.5 parts.6 parts.7.now) }
    ensures bad { IsErrOf result BookFault.BadRecord → HasNone (IsQueuedBy version) (entry_octets version) text.now }
{
    let Some((number, rest)) = read_8(text) else {
        return Err(BookFault::BadRecord);
    };
    let Some((at, rest)) = read_8(rest) else {
        return Err(BookFault::BadRecord);
    };
    let Some((path, ret, envid, rest)) = read_fields(rest) else {
        return Err(BookFault::BadRecord);
    };
    let (recipients, places, rest) = read_placed(alloc, version, rest)?;
    Ok((number, at, path, ret, envid, recipients, places, rest))
}

/// Cuts a message into its fields.
fn split_entry(
    alloc: Global,
    version: SnapshotVersion,
    text: &[u8],
) -> Result<EntryFields<'_>, BookFault>
    ensures fields { IfOk result (λ parts. SpellsEntry
        version text.now parts.0 parts.1 parts.2.now parts.3 parts.4.now parts.5 parts.6 parts.7.now parts.8.now) }
    ensures bad { IsErrOf result BookFault.BadRecord → HasNone (IsQueuedBy version) (entry_octets version) text.now }
{
    let (number, at, path, ret, envid, recipients, places, rest) = split_head(
        alloc, version, text,
    )?;
    match read_sized_4(rest) {
        Some((stored_text, rest)) => Ok((
            number,
            at,
            path,
            ret,
            envid,
            recipients,
            places,
            stored_text,
            rest,
        )),
        None => Err(BookFault::BadRecord),
    }
}

/// Returns a message, with a copy of its stored text, and what follows it.
#[tactic(auto, using(crate::proofs::EntryFieldLemmas::refused_entries))]
fn read_entry(
    alloc: Global,
    version: SnapshotVersion,
    text: &[u8],
) -> Result<(Message, &[u8]), BookFault>
    ensures entry { IfOk result (λ parts. IsQueuedBy version (numbered parts.0)
        × (text.now ≡ entry_octets version (numbered parts.0) ++ parts.1.now)) }
    ensures bad { IsErrOf result BookFault.BadRecord → HasNone (IsQueuedBy version) (entry_octets version) text.now }
{
    let (number, at, path, ret, envid, recipients, places, stored_text, rest) = split_entry(
        alloc, version, text,
    )?;
    let Some(mail) = mail_of(path, ret, envid) else {
        return Err(BookFault::BadRecord);
    };
    let Ok(at) = Moment::new(at) else {
        return Err(BookFault::BadRecord);
    };
    if stored_text.len() > text_limit(path) || !places.any_held() {
        return Err(BookFault::BadRecord);
    }
    let mut envelope = Envelope::new(alloc, mail)?;
    envelope.recipients = recipients;
    let accept = Accept {
        at,
        envelope,
        stored_text: Octets::from_slice(alloc, stored_text)?,
    };
    Ok((
        Message {
            number,
            accept,
            places,
        },
        rest,
    ))
}

/// Returns a message of a number from a least one to below the next, and what follows it.
#[tactic(auto, using(crate::proofs::EntryFieldLemmas::none_in, crate::proofs::EntryFieldLemmas::out_of_row))]
fn read_entry_in(
    alloc: Global,
    version: SnapshotVersion,
    least: u64,
    next: u64,
    text: &[u8],
) -> Result<(Message, &[u8]), BookFault>
    ensures entry { IfOk result (λ parts. IsQueuedIn version least next (numbered parts.0)
        × (text.now ≡ entry_octets version (numbered parts.0) ++ parts.1.now)) }
    ensures bad { IsErrOf result BookFault.BadRecord
        → HasNone (IsQueuedIn version least next) (entry_octets version) text.now }
{
    let (message, rest) = read_entry(alloc, version, text)?;
    if message.number < least || message.number >= next {
        return Err(BookFault::BadRecord);
    }
    Ok((message, rest))
}

/// Returns the same at the front of what is held of a text, if it is let go.
#[tactic(auto, using(crate::proofs::PieceLemmas::after_first, crate::proofs::PieceLemmas::first_after))]
fn read_front(
    alloc: Global,
    version: SnapshotVersion,
    least: u64,
    next: u64,
    text: &mut Pieces,
) -> Result<Message, BookFault>
    ensures entry { IfOk result (λ message. IsQueuedIn version least next (numbered message)
        × (text_of text.old ≡ entry_octets version (numbered message) ++ text_of text.new)) }
    ensures bad { IsErrOf result BookFault.BadRecord
        → HasNone (IsQueuedIn version least next) (entry_octets version) text.old.front }
    ensures err { OnErr result (text.new ≡ text.old) }
{
    let front = text.front();
    let (message, rest) = read_entry_in(alloc, version, least, next, front)?;
    let used = front.len() - rest.len();
    text.advance(used);
    Ok(message)
}

/// Returns the same at the front of a text, if it is let go. Its pieces are put together only if a message is in
/// several.
#[tactic(auto, using(crate::proofs::PieceLemmas::none_in_all))]
pub(crate) fn next_entry(
    alloc: Global,
    version: SnapshotVersion,
    least: u64,
    next: u64,
    text: &mut Pieces,
) -> Result<Message, BookFault>
    ensures entry { IfOk result (λ message. IsQueuedIn version least next (numbered message)
        × (text_of text.old ≡ entry_octets version (numbered message) ++ text_of text.new)) }
    ensures bad { IsErrOf result BookFault.BadRecord
        → HasNone (IsQueuedIn version least next) (entry_octets version) (text_of text.old) }
{
    loop {
        match read_front(alloc, version, least, next, text) {
            Ok(message) => return Ok(message),
            Err(BookFault::NoMemory) => return Err(BookFault::NoMemory),
            Err(BookFault::BadRecord) => {
                if !text.take_up()? {
                    return Err(BookFault::BadRecord);
                }
            }
        }
    }
}
