//! The snapshot of a book's queue, written and read back.
ghost use Rattle.std.specs.Prelude.{◌≡◌, ◌≢◌, ◌≤◌, ◌<◌, ◌+◌, ◌-◌, ◌^◌, ◌++◌, length, min, IfOk, OnOk, IsErrOf};
ghost use Rattle.std.specs.Prelude.{MatchOption};
ghost use Rattle.std.specs.List.{AllByRecursion, flat_map};
ghost use Rattle.relay_pieces.specs.Pieces.{text_of};
ghost use Rattle.relay_book.specs.Book.{if_there, live};
ghost use Rattle.relay_book.specs.Queue.{empty_queue, last_number};
ghost use Rattle.relay_book.specs.declared.version.SnapshotVersion.TheVariants.{WithDelay};
ghost use Rattle.relay_book.specs.Snapshot.{IsNoSnapshot, IsQueue, IsQueued, IsSnapshotOf, entry_octets, snapshot};
ghost use Rattle.relay_book.specs.Snapshot.{snapshot_kind};
ghost use Rattle.relay_book.specs.declared.version.SnapshotVersion.{SnapshotVersion as AnyVersion};
ghost use Rattle.relay_book.specs.SnapshotFields.{AreEntries, HasNoEntries, HoldsHead, MayBeSnapshot, SpellsCounts};
ghost use Rattle.relay_book.specs.SnapshotFields.{SpellsNoCounts, SpellsNoSnapshot, SpellsSnapshot, entries_length};

use crate::book::Book;
use crate::decode::next_entry;
use crate::encode::push_entry;
use crate::fault::BookFault;
use crate::field::{push_1, push_4, push_8, read_4, read_8};
use crate::length::{ENTRY_HEAD, entry_length};
use crate::limits::LAST_NUMBER;
use crate::message::Message;
use crate::version::SnapshotVersion;
use indexmap::IndexMap;
use relay_pieces::Pieces;
use std::alloc::{AllocError, Global};

/// The octets of a snapshot in front of its messages: that of its kind, the next number, and their count.
pub(super) const HEAD_LENGTH: usize = 13;

impl Book {
    /// Returns the snapshot of the queue by the second version, from which `decode_snapshot` makes the same queue, with
    /// room for this many octets more after it. Fails if memory runs out, and counts 2^32 messages and more as that.
    pub fn encode_snapshot(&self, alloc: Global, more: usize) -> Result<Vec<u8>, AllocError>
        requires { IsQueue self.now.queue }
        ensures { IfOk result (λ octets. octets.items ≡ snapshot self.now.queue) }
    {
        write_snapshot(alloc, self.next, &self.messages, more)
    }

    /// Returns how many octets the snapshot takes. Allocates nothing, and 2^64 - 1 octets stand for as many and more.
    #[tactic(auto, using(crate::proofs::SnapshotLengthLemmas::length_is))]
    pub fn snapshot_length(&self) -> usize
        requires { IsQueue self.now.queue }
        ensures { result ≡ min (length (snapshot self.now.queue)) (2 ^ 64 - 1) }
    {
        length_of(&self.messages)
    }

    /// Returns the book of the queue of which these octets are the snapshot, with one copy of each text; their pieces
    /// are freed as they are read. It fails with `BadRecord` exactly if they are no snapshot of a queue, and if memory
    /// runs out; if what is before the messages can be read at once, memory is wanted only after it.
    #[tactic(auto, using(crate::proofs::SnapshotReadLemmas::refused_snapshots))]
    pub fn decode_snapshot(alloc: Global, mut octets: Pieces) -> Result<Self, BookFault>
        ensures snapshot { IfOk result (λ book. IsSnapshotOf (text_of octets) book.queue) }
        ensures bad { IsErrOf result BookFault.BadRecord → IsNoSnapshot (text_of octets) }
        ensures memory { IsErrOf result BookFault.NoMemory → HoldsHead octets → MayBeSnapshot (text_of octets) }
    {
        let (version, next, count) = next_head(&mut octets)?;
        if next < 1 || next > LAST_NUMBER + 1 {
            return Err(BookFault::BadRecord);
        }
        let mut book = Book::new(alloc);
        book.read_entries(alloc, version, next, count, octets)?;
        Ok(book)
    }

    /// Reads this many messages into an empty book, and takes this next number; the whole text is these messages.
    /// Memory is asked for no more messages than may stand in the text.
    #[tactic(auto, using(crate::proofs::SnapshotReadLemmas::counted_entries))]
    fn read_entries(
        &mut self,
        alloc: Global,
        version: SnapshotVersion,
        next: u64,
        count: u32,
        mut text: Pieces,
    ) -> Result<(), BookFault>
        requires empty { self.old.queue ≡ empty_queue }
        requires some { 1 ≤ next }
        requires few { next ≤ last_number + 1 }
        ensures next { OnOk result (self.new.queue.next ≡ next) }
        ensures entries { OnOk result (AreEntries version count next (text_of text) self.new.queue.messages) }
        ensures bad { IsErrOf result BookFault.BadRecord → HasNoEntries version count next (text_of text) }
    {
        if count as usize > text.len() / ENTRY_HEAD {
            return Err(BookFault::BadRecord);
        }
        self.make_room(count as usize)?;
        for index in 0..count {
            match next_entry(alloc, version, self.next_number(), next, &mut text) {
                Err(fault) => return Err(fault),
                Ok(message) => self.restore(message)?,
            }
        }
        if text.len() > 0 {
            return Err(BookFault::BadRecord);
        }
        self.skip_to(next);
        Ok(())
    }
}

/// Returns the version of a snapshot, the next number and the count of messages, which are let go.
#[tactic(auto, using(crate::proofs::PieceLemmas::heads_in_pieces))]
pub(super) fn next_head(octets: &mut Pieces) -> Result<(SnapshotVersion, u64, u32), BookFault>
    ensures head { IfOk result (λ parts.
        SpellsSnapshot parts.0 (text_of octets.old) parts.1 parts.2 (text_of octets.new)) }
    ensures bad { IsErrOf result BookFault.BadRecord → SpellsNoSnapshot (text_of octets.old) }
    ensures memory { IsErrOf result BookFault.NoMemory → HoldsHead octets.old → ⊥ }
{
    octets.hold_first(HEAD_LENGTH)?;
    let front = octets.front();
    let Some((version, next, count, rest)) = read_head(front) else {
        return Err(BookFault::BadRecord);
    };
    let used = front.len() - rest.len();
    octets.advance(used);
    Ok((version, next, count))
}

/// Returns the version of a snapshot, by its first octet, the next number, the count of messages, and what follows
/// them.
#[tactic(auto, using(crate::proofs::SnapshotReadLemmas::snapshot_heads))]
pub(super) fn read_head(octets: &[u8]) -> Option<(SnapshotVersion, u64, u32, &[u8])>
    ensures { MatchOption result (SpellsNoSnapshot octets.now)
        (λ parts. SpellsSnapshot parts.0 octets.now parts.1 parts.2 parts.3.now) }
{
    let (kind, rest) = octets.split_first()?;
    let version = version_of(*kind)?;
    let (next, count, rest) = read_counts(rest)?;
    Some((version, next, count, rest))
}

/// Returns the version of a snapshot with this first octet.
#[tactic(auto, using(crate::proofs::SnapshotReadLemmas::no_version))]
fn version_of(kind: u8) -> Option<SnapshotVersion>
    ensures { MatchOption result ((version : AnyVersion) → kind ≢ snapshot_kind version)
        (λ version. kind ≡ snapshot_kind version) }
{
    match kind {
        3 => Some(SnapshotVersion::WithoutDelay),
        5 => Some(SnapshotVersion::WithDelay),
        _ => None,
    }
}

/// Returns the next number, the count of messages, and what follows them.
fn read_counts(text: &[u8]) -> Option<(u64, u32, &[u8])>
    ensures { MatchOption result (SpellsNoCounts text.now)
        (λ parts. SpellsCounts text.now parts.0 parts.1 parts.2.now) }
{
    let (next, rest) = read_8(text)?;
    let (count, rest) = read_4(rest)?;
    Some((next, count, rest))
}

/// Writes the snapshot of a map's messages and a next number, with room for this many octets more.
fn write_snapshot(
    alloc: Global,
    next: u64,
    messages: &IndexMap<u64, Option<Message>>,
    more: usize,
) -> Result<Vec<u8>, AllocError>
    requires { AllByRecursion IsQueued (live messages.now.entries) }
    ensures { IfOk result (λ octets.
        octets.items ≡ snapshot (record { next = next; messages = live messages.now.entries })) }
{
    let count = queued_count(messages);
    let Ok(count) = u32::try_from(count) else {
        return Err(AllocError);
    };
    let mut out = Vec::with_capacity(alloc, length_of(messages).saturating_add(more))?;
    push_1(&mut out, 5)?;
    push_8(&mut out, next)?;
    push_4(&mut out, count)?;
    push_entries(&mut out, messages)?;
    Ok(out)
}

/// Returns how many octets the snapshot of these messages takes.
fn length_of(messages: &IndexMap<u64, Option<Message>>) -> usize
    ensures { result ≡ min (13 + entries_length (live messages.now.entries)) (2 ^ 64 - 1) }
{
    let mut total = HEAD_LENGTH;
    for index in 0..messages.len() {
        let Some((_, slot)) = messages.get_index(index) else {
            return total;
        };
        total = total.saturating_add(length_of_slot(slot));
    }
    total
}

/// Returns how many octets the message of an entry takes, if it hasn't ended.
fn length_of_slot(slot: &Option<Message>) -> usize
    ensures { result ≡ min (entries_length (if_there 0 slot.now)) (2 ^ 64 - 1) }
{
    match slot {
        Some(message) => entry_length(message),
        None => 0,
    }
}

/// Returns how many messages haven't ended.
#[tactic(auto, using(crate::proofs::SnapshotWriteLemmas::count_end))]
fn queued_count(messages: &IndexMap<u64, Option<Message>>) -> usize
    ensures { result ≡ length (live messages.now.entries) }
{
    let mut count = 0;
    for index in 0..messages.len() {
        let Some((_, slot)) = messages.get_index(index) else {
            return count;
        };
        count += count_of(slot);
    }
    count
}

/// Returns how many messages an entry has that haven't ended.
fn count_of(slot: &Option<Message>) -> usize
    ensures { result ≡ length (if_there 0 slot.now) }
{
    match slot {
        Some(_) => 1,
        None => 0,
    }
}

/// Adds the messages that haven't ended.
#[tactic(auto, using(crate::proofs::SnapshotWriteLemmas::entries_end))]
fn push_entries(
    out: &mut Vec<u8>,
    messages: &IndexMap<u64, Option<Message>>,
) -> Result<(), AllocError>
    requires { AllByRecursion IsQueued (live messages.now.entries) }
    ensures { OnOk result
        (out.new.items ≡ out.old.items ++ flat_map (entry_octets WithDelay) (live messages.now.entries)) }
{
    for index in 0..messages.len() {
        let Some((number, slot)) = messages.get_index(index) else {
            return Ok(());
        };
        push_slot(out, *number, slot)?;
    }
    Ok(())
}

/// Adds the message of an entry, unless it has ended.
fn push_slot(out: &mut Vec<u8>, number: u64, slot: &Option<Message>) -> Result<(), AllocError>
    requires { AllByRecursion IsQueued (if_there number slot.now) }
    ensures { OnOk result
        (out.new.items ≡ out.old.items ++ flat_map (entry_octets WithDelay) (if_there number slot.now)) }
{
    match slot {
        Some(message) => push_entry(out, number, message),
        None => Ok(()),
    }
}
