//! Held places, as a caller asks for one.
ghost use Rattle.std.specs.Prelude.{◌≡◌, None, Some, MatchOption};
ghost use Rattle.relay_records.specs.HeldPlace.{waiting_in};

use relay_book::Message;

/// A held place of a message.
#[derive(Clone, Copy)]
pub struct HeldPlace<'a> {
    /// The forward path of its recipient, with its brackets.
    pub path: &'a [u8],
    /// When it is due, in seconds from 1970. It may pass the last time.
    pub due: u64,
}

/// Returns the place of a message, if it is held.
pub(crate) fn held_place(message: &Message, place: u8) -> Option<HeldPlace<'_>>
    ensures { MatchOption result (waiting_in place message.now ≡ None)
        (λ found. waiting_in place message.now ≡ Some (found.path.now, found.due)) }
{
    let index = usize::from(place);
    let waiting = message.places.as_slice().get(index)?;
    let recipient = message.accept.envelope.recipients.as_slice().get(index)?;
    if waiting.held {
        Some(HeldPlace {
            path: recipient.path.as_slice(),
            due: waiting.due,
        })
    } else {
        None
    }
}
