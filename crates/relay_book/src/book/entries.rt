//! The entries of a book's map.
ghost use Rattle.std.specs.Prelude.{◌≡◌, ◌≤◌};
ghost use Rattle.std.specs.List.{filter};
ghost use Rattle.indexmap.specs.IndexMap.{spare};
ghost use Rattle.relay_book.specs.Book.{is_there, slot_after};

use crate::change::Outcome;
use crate::message::Message;
use indexmap::IndexMap;

/// Returns what an outcome leaves of an entry.
pub(super) fn slot_after(slot: Option<Message>, outcome: &Outcome) -> Option<Message>
    ensures { result ≡ slot_after outcome.now slot }
{
    let mut message = slot?;
    message.rule(outcome);
    if message.places.any_held() {
        Some(message)
    } else {
        None
    }
}

/// Keeps the entries whose messages haven't ended.
pub(super) fn keep_queued(messages: &mut IndexMap<u64, Option<Message>>)
    ensures entries { messages.new.entries ≡ filter is_there messages.old.entries }
    ensures room { spare messages.old ≤ spare messages.new }
{
    messages.retain(|_, slot| slot.is_some());
}
