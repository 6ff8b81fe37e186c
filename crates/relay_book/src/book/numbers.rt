//! The messages of a book of which a question holds.
ghost use Rattle.std.specs.Prelude.{◌≡◌, ◌++◌, map, IfOk, OnOk};
ghost use Rattle.std.specs.List.{filter};
ghost use Rattle.relay_book.specs.Book.{number_of_slot, numbers_live};

use crate::book::Book;
use crate::message::Message;
use crate::question::Question;
use indexmap::IndexMap;
use std::alloc::{AllocError, Global};

impl Book {
    /// Returns the numbers of the messages of which a question holds, in order, by one walk over them. Fails if memory
    /// runs out.
    pub fn numbers_where<Q: Question>(
        &self,
        alloc: Global,
        question: &Q,
    ) -> Result<Vec<u64>, AllocError>
        ensures { IfOk result (λ numbers. numbers.items
            ≡ map (λ entry. entry.0) (filter (λ entry. Q.holds question.now entry.1) self.now.queue.messages)) }
    {
        numbers_among(alloc, question, &self.messages)
    }
}

/// Returns the numbers of the entries whose messages haven't ended and of which a question holds, in order.
fn numbers_among<Q: Question>(
    alloc: Global,
    question: &Q,
    messages: &IndexMap<u64, Option<Message>>,
) -> Result<Vec<u64>, AllocError>
    ensures { IfOk result (λ numbers. numbers.items ≡ numbers_live (Q.holds question.now) messages.now.entries) }
{
    let mut numbers = Vec::new(alloc);
    for index in 0..messages.len() {
        let Some((number, slot)) = messages.get_index(index) else {
            return Ok(numbers);
        };
        push_where(&mut numbers, question, *number, slot)?;
    }
    Ok(numbers)
}

/// Adds the number of an entry, where the question holds of its message.
fn push_where<Q: Question>(
    numbers: &mut Vec<u64>,
    question: &Q,
    number: u64,
    slot: &Option<Message>,
) -> Result<(), AllocError>
    ensures { OnOk result (numbers.new.items
        ≡ numbers.old.items ++ number_of_slot (Q.holds question.now) number slot.now) }
{
    if let Some(message) = slot {
        if question.holds(message) {
            numbers.push(number)?;
        }
    }
    Ok(())
}
