//! Which recipients are listed, and in which order.
ghost use Rattle.std.specs.Prelude.{◌≡◌, ◌++◌, IfOk, OnOk};
ghost use Rattle.relay_queue.specs.Picks.{AreListed, keys_at, keys_of};

use crate::filter::Filter;
use relay_listing::row_at;
use relay_outlines::Look;
use relay_routes::Table;
use relay_trace::Moment;
use std::alloc::{AllocError, Global};

/// A sort key: when the recipient's message was accepted, in seconds since 1970; the message's number; and the
/// recipient's place.
pub type Key = (u64, u64, u8);

/// Returns the keys of the queued recipients that pass a filter at this time, those of the oldest message first.
pub fn listed_keys(
    alloc: Global,
    look: &Look,
    table: &Table,
    filter: &Filter<'_>,
    now: Moment,
) -> Result<Vec<Key>, AllocError>
    ensures { IfOk result (λ keys. AreListed filter.now now table.now look.now.queue keys.items) }
{
    let mut keys = keys_of(alloc, look, table, filter, now)?;
    keys.sort()?;
    Ok(keys)
}

/// Returns the keys in the order of the queue.
fn keys_of(
    alloc: Global,
    look: &Look,
    table: &Table,
    filter: &Filter<'_>,
    now: Moment,
) -> Result<Vec<Key>, AllocError>
    ensures { IfOk result (λ keys. keys.items ≡ keys_of filter.now now table.now look.now.queue) }
{
    let mut keys = Vec::new(alloc);
    let marks = look.held(alloc)?;
    for mark in &marks {
        push_key(&mut keys, look, table, filter, now, *mark)?;
    }
    Ok(keys)
}

/// Adds the key of a held place, if its recipient passes the filter.
fn push_key(
    keys: &mut Vec<Key>,
    look: &Look,
    table: &Table,
    filter: &Filter<'_>,
    now: Moment,
    mark: (u64, u8),
) -> Result<(), AllocError>
    ensures { OnOk result (keys.new.items
        ≡ keys.old.items ++ keys_at filter.now now table.now look.now.queue mark) }
{
    if let Some(row) = row_at(look, table, mark.0, mark.1) {
        if filter.passes(now, &row) {
            keys.push((row.accepted.seconds(), row.number, row.place))?;
        }
    }
    Ok(())
}
