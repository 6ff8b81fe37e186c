ghost use Rattle.std.specs.Prelude.{◌≡◌, ℕ, Bool};

use crate::message::Message;

/// A question about messages, each asked alone.
pub trait Question {
    ghost use Rattle.relay_book.specs.declared.message.Message.{Message};

    /// The answer.
    ghost holds: { Self → Message → Bool };

    /// Returns whether it holds of a message. Allocates nothing.
    fn holds(&self, message: &Message) -> bool
        ensures { result ≡ holds self.now message.now };
}

/// A question about the places of messages, each asked alone.
pub trait PlaceQuestion {
    ghost use Rattle.relay_book.specs.declared.message.Message.{Message};

    /// The answer, by the number of a message, the message, and the number of its place.
    ghost holds: { Self → ℕ → Message → ℕ → Bool };

    /// Returns whether it holds of this place of the message of that number. Allocates nothing.
    fn holds(&self, number: u64, message: &Message, place: usize) -> bool
        ensures { result ≡ holds self.now number message.now place };
}
