//! Messages put back into a book, with their numbers and places.
ghost use Rattle.std.specs.Prelude.{◌≡◌, ◌≤◌, ◌+◌, ◌++◌, ◌∷◌, [], OnOk, OnErr};
ghost use Rattle.relay_book.specs.Queue.{last_number};

use crate::book::Book;
use crate::message::Message;
use std::alloc::AllocError;

impl Book {
    /// Makes room for this many messages. If memory runs out, there may be none.
    pub(super) fn make_room(&mut self, count: usize) -> Result<(), AllocError>
        ensures { self.new.queue ≡ self.old.queue }
    {
        self.messages.reserve(count)
    }

    /// Lets numbers go by, up to one that isn't below the next. Allocates nothing.
    #[tactic(auto, using(crate::proofs::LiveLemmas::rise_to))]
    pub(super) fn skip_to(&mut self, number: u64)
        requires { self.old.queue.next ≤ number }
        ensures next { self.new.queue.next ≡ number }
        ensures messages { self.new.queue.messages ≡ self.old.queue.messages }
    {
        self.next = number;
    }

    /// Puts a message after the others, with its own number and places. If memory runs out, none is put there.
    pub(super) fn restore(&mut self, message: Message) -> Result<(), AllocError>
        requires rise { self.old.queue.next ≤ message.number }
        requires few { message.number ≤ last_number }
        ensures next { OnOk result (self.new.queue.next ≡ message.number + 1) }
        ensures messages { OnOk result
            (self.new.queue.messages ≡ self.old.queue.messages ++ (message.number, message) ∷ []) }
        ensures none { OnErr result (self.new.queue.messages ≡ self.old.queue.messages) }
    {
        let number = message.number;
        self.skip_to(number);
        self.tell_all(number, message.places.as_slice())?;
        self.reserve()?;
        self.add(Some(message));
        Ok(())
    }
}
