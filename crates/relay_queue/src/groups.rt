//! The queued mail that a selection takes.
ghost use Rattle.std.specs.Prelude.{◌≡◌, ◌≤◌, ◌++◌, ◌==◌, IfOk, OnOk, length, map};
ghost use Rattle.std.specs.List.{prefix_len};
ghost use Rattle.relay_queue.specs.Selection.{AreSelected, group_of, groups_of, is_selected, mark_if, selected_marks};

use crate::selection::Selection;
use relay_listing::row_at;
use relay_outlines::Look;
use relay_routes::Table;
use relay_trace::Moment;
use std::alloc::{AllocError, Global};

/// The number of a message, and the place of one of its recipients.
pub(crate) type Mark = (u64, u8);

/// Held places of a message.
#[derive(Drop)]
pub struct Selected {
    /// The number of the message.
    pub message: u64,
    /// The places of recipients, at least one, in order.
    pub places: Vec<u8>,
}

/// Returns the held places that a selection takes at this time, in the order of the queue.
pub(crate) fn selected_marks(
    alloc: Global,
    look: &Look,
    table: &Table,
    selection: &Selection<'_>,
    now: Moment,
) -> Result<Vec<Mark>, AllocError>
    ensures { IfOk result (λ marks. marks.items ≡ selected_marks selection.now now table.now look.now.queue) }
{
    let mut marks = Vec::new(alloc);
    let held = look.held(alloc)?;
    for mark in &held {
        push_mark(&mut marks, look, table, selection, now, *mark)?;
    }
    Ok(marks)
}

/// Adds a held place, if the selection takes it.
fn push_mark(
    marks: &mut Vec<Mark>,
    look: &Look,
    table: &Table,
    selection: &Selection<'_>,
    now: Moment,
    mark: Mark,
) -> Result<(), AllocError>
    ensures { OnOk result (marks.new.items
        ≡ marks.old.items ++ mark_if (is_selected selection.now now table.now look.now.queue) mark) }
{
    if is_selected(look, table, selection, now, mark) {
        marks.push(mark)?;
    }
    Ok(())
}

/// Returns whether a selection takes a held place.
fn is_selected(
    look: &Look,
    table: &Table,
    selection: &Selection<'_>,
    now: Moment,
    mark: Mark,
) -> bool
    ensures { result ≡ is_selected selection.now now table.now look.now.queue mark }
{
    match row_at(look, table, mark.0, mark.1) {
        Some(row) => selection.selects(now, &row),
        None => false,
    }
}

/// Returns places with those of one message together.
pub(crate) fn groups_of(alloc: Global, marks: &[Mark]) -> Result<Vec<Selected>, AllocError>
    ensures { IfOk result (λ all. map group_of all.items ≡ groups_of marks.now) }
{
    let mut all = Vec::new(alloc);
    let mut rest = marks;
    while let Some(first) = rest.first() {
        let message = first.0;
        let (front, back) = rest.split_at(run_length(rest, message));
        let places = places_of(alloc, front)?;
        all.push(Selected { message, places })?;
        rest = back;
    }
    Ok(all)
}

/// Returns how many places in a row, from the first on, are of this message.
fn run_length(marks: &[Mark], message: u64) -> usize
    ensures value { result ≡ prefix_len (λ mark. mark.0 == message) marks.now }
    ensures within { result ≤ length marks.now }
{
    for (index, mark) in marks.iter().enumerate() {
        if mark.0 != message {
            return index;
        }
    }
    marks.len()
}

/// Returns the places without the numbers of their messages.
fn places_of(alloc: Global, marks: &[Mark]) -> Result<Vec<u8>, AllocError>
    ensures { IfOk result (λ places. places.items ≡ map (λ mark. mark.1) marks.now) }
{
    let mut places = Vec::with_capacity(alloc, marks.len())?;
    for mark in marks {
        places.push(mark.1)?;
    }
    Ok(places)
}
