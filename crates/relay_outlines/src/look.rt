ghost use Rattle.std.specs.Prelude.{◌≡◌, IfOk, MatchOption, None, Some, option_map};
ghost use Rattle.std.specs.Option.{option_copied};
ghost use Rattle.relay_book.specs.Queue.{held_of, message_of};
ghost use Rattle.relay_records.specs.HeldPlace.{waiting_at, waiting_in};
ghost use Rattle.relay_outlines.specs.Look.{blank_as_told};

use relay_book::{Book, Message};
use relay_records::HeldPlace;
use std::alloc::{AllocError, Global};
use std::marker::Model;

/// A queue as a view shows it: its numbers, envelopes, places and times, and the length of each text.
#[derive(Drop)]
pub struct Look {
    outline: Book,
    size: usize,
}

impl Model for Look {
    ghost use Rattle.relay_outlines.specs.Look.{Seen, seen};

    ghost Value = { Seen };

    ghost view = { λ look. seen look.outline.queue look.size };
}

impl Look {
    ghost use Rattle.relay_outlines.specs.Look.{seen};

    /// Returns a look at the queue of this outline, in a spool of this number of octets.
    pub(crate) fn new(outline: Book, size: usize) -> Self
        ensures { result ≡ seen outline.queue size }
    {
        Look { outline, size }
    }

    /// Returns how many octets the spool takes. Allocates nothing.
    pub fn size(&self) -> usize
        ensures { result ≡ self.now.size }
    {
        self.size
    }

    /// Returns all held places, each with the number of its message, in order. Fails if memory runs out.
    #[tactic(auto, using(crate::proofs::LookLemmas::held_as_told))]
    pub fn held(&self, alloc: Global) -> Result<Vec<(u64, u8)>, AllocError>
        ensures { IfOk result (λ marks. marks.items ≡ held_of self.now.queue) }
    {
        self.outline.held(alloc)
    }

    /// Returns the outline of the message of a number, while a place of it is held: its text is replaced by the text's
    /// length, which [`length_in`](relay_book::length_in) reads. Allocates nothing.
    #[tactic(auto, using(crate::proofs::LookLemmas::found_as_told))]
    pub fn outline(&self, number: u64) -> Option<&Message>
        ensures { option_map blank_as_told (option_copied result) ≡ message_of self.now.queue.messages number }
    {
        self.outline.message(number)
    }

    /// Returns a place of a message, if it is held. Allocates nothing.
    pub fn place(&self, number: u64, place: u8) -> Option<HeldPlace<'_>>
        ensures { MatchOption result (waiting_at self.now.queue number place ≡ None)
            (λ found. waiting_at self.now.queue number place ≡ Some (found.path.now, found.due)) }
    {
        match self.outline(number) {
            Some(outline) => held_place(outline, place),
            None => None,
        }
    }
}

/// Returns the place of a message, if it is held.
fn held_place(message: &Message, place: u8) -> Option<HeldPlace<'_>>
    ensures { MatchOption result (waiting_in place message.now ≡ None)
        (λ found. waiting_in place message.now ≡ Some (found.path.now, found.due)) }
{
    let index = usize::from(place);
    let waiting = message.places.as_slice().get(index)?;
    let recipient = message.accept.envelope.recipients.as_slice().get(index)?;
    if waiting.held {
        Some(HeldPlace {
            path: recipient.path.as_slice(),
            due: waiting.due,
        })
    } else {
        None
    }
}
