//! The first second at which a place of a book is due.
ghost use Rattle.std.specs.Prelude.{◌≡◌};
ghost use Rattle.relay_book.specs.Moments.{IsLeastOf, moments_of, waits_from, waits_of};
ghost use Rattle.relay_book.specs.Queue.{message_of};

use crate::book::Book;
use crate::message::Message;
use crate::question::PlaceQuestion;

impl Book {
    /// Returns the least time at which a held place is due of which a question holds, in seconds from 1970: it may pass
    /// the last time. None if the question holds of no held place. It asks of the places in the order of their times,
    /// and of none after the answer's, and takes no memory.
    pub fn first_due_where<Q: PlaceQuestion>(&self, question: &Q) -> Option<u64>
        ensures { IsLeastOf (moments_of (Q.holds question.now) self.now.queue.messages) result }
    {
        for key in self.waiting.iter() {
            if self.waits_where(question, key.0, key.1) {
                return Some(key.0);
            }
        }
        None
    }

    /// Returns whether a held place of this message is due then of which the question holds.
    fn waits_where<Q: PlaceQuestion>(&self, question: &Q, due: u64, number: u64) -> bool
        ensures { result
            ≡ waits_of (Q.holds question.now) due number (message_of self.now.queue.messages number) }
    {
        match self.message(number) {
            Some(message) => any_waits(question, due, number, message),
            None => false,
        }
    }
}

/// Returns whether a held place of a message is due then of which the question holds.
fn any_waits<Q: PlaceQuestion>(question: &Q, due: u64, number: u64, message: &Message) -> bool
    ensures { result ≡ waits_from (Q.holds question.now number message.now) due 0 message.now.places }
{
    for (index, place) in message.places.as_slice().iter().enumerate() {
        if place.held && place.due == due && question.holds(number, message, index) {
            return true;
        }
    }
    false
}
