//! The places of a book's entries.
ghost use Rattle.std.specs.Prelude.{◌≡◌, ◌<◌, ◌^◌, ◌++◌, OnOk, IfOk};
ghost use Rattle.std.specs.BTreeSet.{IsOrdered};
ghost use Rattle.std.specs.Ordering.{nat_cmp};
ghost use Rattle.relay_book.specs.Book.{HasNumbers, marks_live, marks_of_slot};
ghost use Rattle.relay_book.specs.Queue.{is_due_at, is_held, marks_from};

use crate::message::{Message, Places};
use indexmap::IndexMap;
use std::alloc::{AllocError, Global};
use std::collections::BTreeSet;

/// Returns the places that are held, in order.
pub(super) fn held_places(
    alloc: Global,
    messages: &IndexMap<u64, Option<Message>>,
) -> Result<Vec<(u64, u8)>, AllocError>
    ensures { IfOk result (λ marks. marks.items ≡ marks_live is_held messages.now.entries) }
{
    let mut marks = Vec::new(alloc);
    for index in 0..messages.len() {
        let Some((number, slot)) = messages.get_index(index) else {
            return Ok(marks);
        };
        push_held(&mut marks, *number, slot)?;
    }
    Ok(marks)
}

/// Returns the numbers of the messages that may have a place due by then: no other message has one.
pub(super) fn numbers_until(
    alloc: Global,
    waiting: &BTreeSet<(u64, u64), Global>,
    latest: u64,
) -> Result<BTreeSet<u64, Global>, AllocError>
    requires { latest < 2 ^ 63 }
    ensures told { IfOk result (λ numbers. HasNumbers waiting.now.keys latest numbers.keys) }
    ensures rise { IfOk result (λ numbers. IsOrdered nat_cmp numbers) }
{
    let mut numbers = BTreeSet::new(alloc);
    for key in waiting.range(..(latest + 1, 0)) {
        numbers.insert(key.1)?;
    }
    Ok(numbers)
}

/// Adds the held places of an entry.
fn push_held(
    marks: &mut Vec<(u64, u8)>,
    number: u64,
    slot: &Option<Message>,
) -> Result<(), AllocError>
    ensures { OnOk result (marks.new.items ≡ marks.old.items ++ marks_of_slot is_held number slot.now) }
{
    match slot {
        Some(message) => push_held_of(marks, number, &message.places),
        None => Ok(()),
    }
}

fn push_held_of(marks: &mut Vec<(u64, u8)>, number: u64, places: &Places) -> Result<(), AllocError>
    ensures { OnOk result (marks.new.items ≡ marks.old.items ++ marks_from is_held number 0 places.now) }
{
    for (index, place) in places.as_slice().iter().enumerate() {
        if place.held {
            marks.push((number, index as u8))?;
        }
    }
    Ok(())
}

/// Adds the places of a message that are due by then.
pub(super) fn push_due(
    marks: &mut Vec<(u64, u8)>,
    number: u64,
    places: &Places,
    latest: u64,
) -> Result<(), AllocError>
    ensures { OnOk result
        (marks.new.items ≡ marks.old.items ++ marks_from (is_due_at latest) number 0 places.now) }
{
    for (index, place) in places.as_slice().iter().enumerate() {
        if place.held && place.due <= latest {
            marks.push((number, index as u8))?;
        }
    }
    Ok(())
}
