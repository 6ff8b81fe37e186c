//! What a postmaster sees of the mail that a selection takes, and the mail itself.
ghost use Rattle.std.specs.Prelude.{◌≡◌, ◌++◌, IfErr, IfOk, OnOk, length, map};
ghost use Rattle.std.specs.List.{flat_map};
ghost use Rattle.relay_listing.specs.Row.{said_by};
ghost use Rattle.relay_queue.specs.Screen.{AreSafe};
ghost use Rattle.relay_queue.specs.Selection.{IsTaken, TakesNothing, group_of, groups_of, line_of_mark, more_line};
ghost use Rattle.relay_queue.specs.Selection.{preview_text, recipient_line, sums_line};

use crate::fault::QueueFault;
use crate::groups::{Mark, Selected, groups_of, selected_marks};
use crate::screen::Screen;
use crate::selection::Selection;
use crate::table::push_count;
use relay_files::{Fault, configuration, open_to_look};
use relay_listing::{Row, row_at};
use relay_outlines::Look;
use relay_routes::Table;
use relay_trace::clock_moment;
use std::alloc::{AllocError, Global};
use std::fs::File;
use std::rt::{Clock, Files};

/// How many recipients a preview lists.
const MOST_LINES: usize = 10;

/// The queued mail that a selection takes.
#[derive(Drop)]
pub struct Taken {
    /// The messages with a selected recipient, in the order of the queue, each once.
    pub messages: Vec<Selected>,
    /// Text for a terminal: the lines of the first ten recipients, each the number of its message, its reverse path and
    /// its path, and a line with the sums of all.
    pub preview: Vec<u8>,
}

/// Returns the queued mail that a selection takes. Opens the spool's files for reading only, without a lock, so that a
/// relay may be running on them. Faults are checked in this order: the configuration file, its content, the spool;
/// [`QueueFault::NothingSelected`] if the selection takes nothing.
pub fn select<R: Files<File = File> + Clock>(
    alloc: Global,
    rt: &R,
    path: &str,
    selection: &Selection<'_>,
) -> Result<Taken, QueueFault>
    ensures taken { IfOk result (λ taken. IsTaken selection.now taken.messages.items taken.preview.items) }
    ensures nothing { IfErr result (λ fault. fault ≡ QueueFault.NothingSelected → TakesNothing selection.now) }
{
    let config = configuration(alloc, rt, path)?;
    let look = open_to_look(alloc, rt, &config)?;
    let now = clock_moment(rt);
    let marks = selected_marks(alloc, &look, &config.routes, selection, now)?;
    if marks.is_empty() {
        return Err(QueueFault::NothingSelected);
    }
    taken_of(alloc, &look, &config.routes, marks.as_slice())
}

/// Returns these places by message, and their preview.
fn taken_of(alloc: Global, look: &Look, table: &Table, marks: &[Mark]) -> Result<Taken, QueueFault>
    ensures messages { IfOk result (λ taken. map group_of taken.messages.items ≡ groups_of marks.now) }
    ensures preview { IfOk result (λ taken. taken.preview.items
        ≡ preview_text table.now look.now.queue marks.now) }
    ensures safe { IfOk result (λ taken. AreSafe taken.preview.items) }
    ensures err { IfErr result (λ fault. fault ≡ QueueFault.Files Fault.NoMemory) }
{
    let messages = groups_of(alloc, marks)?;
    let preview = preview_of(alloc, look, table, marks, messages.len())?;
    Ok(Taken { messages, preview })
}

/// Returns the preview of places, which are of this number of messages.
fn preview_of(
    alloc: Global,
    look: &Look,
    table: &Table,
    marks: &[Mark],
    messages: usize,
) -> Result<Vec<u8>, AllocError>
    requires { messages ≡ length (groups_of marks.now) }
    ensures text { IfOk result (λ text. text.items ≡ preview_text table.now look.now.queue marks.now) }
    ensures safe { IfOk result (λ text. AreSafe text.items) }
{
    let mut screen = Screen::new(alloc);
    push_lines(
        &mut screen,
        look,
        table,
        &marks[..marks.len().min(MOST_LINES)],
    )?;
    push_more(&mut screen, marks.len())?;
    push_sums(&mut screen, messages as u64, marks.len() as u64)?;
    Ok(screen.into_vec())
}

/// Adds the lines of recipients.
fn push_lines(
    screen: &mut Screen,
    look: &Look,
    table: &Table,
    marks: &[Mark],
) -> Result<(), AllocError>
    ensures { OnOk result (screen.new ≡ screen.old ++ flat_map (line_of_mark table.now look.now.queue) marks.now) }
{
    for mark in marks {
        push_line_of(screen, look, table, *mark)?;
    }
    Ok(())
}

/// Adds the line of the recipient at a place, if it is queued.
fn push_line_of(
    screen: &mut Screen,
    look: &Look,
    table: &Table,
    mark: Mark,
) -> Result<(), AllocError>
    ensures { OnOk result (screen.new ≡ screen.old ++ line_of_mark table.now look.now.queue mark) }
{
    match row_at(look, table, mark.0, mark.1) {
        Some(row) => push_line(screen, &row),
        None => Ok(()),
    }
}

/// Adds the line of a recipient.
fn push_line(screen: &mut Screen, row: &Row<'_>) -> Result<(), AllocError>
    ensures { OnOk result (screen.new ≡ screen.old ++ recipient_line (said_by row.now)) }
{
    screen.push_number(row.number)?;
    screen.push(b" ")?;
    screen.push(row.reverse_path)?;
    screen.push(b" ")?;
    screen.push(row.path)?;
    screen.end_line()
}

/// Adds a line that says that there are more recipients than were listed, if there are.
fn push_more(screen: &mut Screen, recipients: usize) -> Result<(), AllocError>
    ensures { OnOk result (screen.new ≡ screen.old ++ more_line recipients) }
{
    if recipients <= MOST_LINES {
        return Ok(());
    }
    screen.push(b"..")?;
    screen.end_line()
}

/// Adds the line of the sums: `7 messages, 12 recipients`.
fn push_sums(screen: &mut Screen, messages: u64, recipients: u64) -> Result<(), AllocError>
    ensures { OnOk result (screen.new ≡ screen.old ++ sums_line messages recipients) }
{
    push_count(screen, messages, b"message")?;
    screen.push(b", ")?;
    push_count(screen, recipients, b"recipient")?;
    screen.end_line()
}
