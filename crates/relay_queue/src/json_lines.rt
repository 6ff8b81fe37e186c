//! The queue as JSON, one object per line.
ghost use Rattle.std.specs.Prelude.{◌≡◌, ◌++◌, IfOk, OnOk};
ghost use Rattle.relay_listing.specs.Object.{object_at, object_line};
ghost use Rattle.relay_listing.specs.Row.{said_by};
ghost use Rattle.relay_queue.specs.Objects.{objects_text};

use crate::picks::Key;
use crate::screen::Screen;
use relay_listing::{Row, object_text, row_at};
use relay_outlines::Look;
use relay_routes::Table;
use relay_trace::Moment;
use std::alloc::{AllocError, Global};

/// Returns a line for each recipient that one of these keys names, if it is queued.
pub(crate) fn json_text(
    alloc: Global,
    look: &Look,
    table: &Table,
    keys: &[Key],
    now: Moment,
) -> Result<Screen, AllocError>
    ensures { IfOk result (λ text. text ≡ objects_text now table.now look.now.queue keys.now) }
{
    let mut screen = Screen::new(alloc);
    for key in keys {
        push_object_at(alloc, &mut screen, look, table, *key, now)?;
    }
    Ok(screen)
}

/// Adds the line of the recipient with this key, if it is queued.
fn push_object_at(
    alloc: Global,
    screen: &mut Screen,
    look: &Look,
    table: &Table,
    key: Key,
    now: Moment,
) -> Result<(), AllocError>
    ensures { OnOk result (screen.new ≡ screen.old ++ object_at now table.now look.now.queue (key.1, key.2)) }
{
    match row_at(look, table, key.1, key.2) {
        Some(row) => push_object(alloc, screen, &row, now),
        None => Ok(()),
    }
}

/// Adds the line of a recipient.
fn push_object(
    alloc: Global,
    screen: &mut Screen,
    row: &Row<'_>,
    now: Moment,
) -> Result<(), AllocError>
    ensures { OnOk result (screen.new ≡ screen.old ++ object_line now (said_by row.now)) }
{
    let object = object_text(alloc, row, now)?;
    screen.push(object.as_bytes())?;
    screen.end_line()
}
