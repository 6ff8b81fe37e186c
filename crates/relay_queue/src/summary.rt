//! The queue by next hop, and that as metrics.
ghost use Rattle.std.specs.Prelude.{◌≡◌, ℕ, List, ◌++◌, IfOk, OnOk};
ghost use Rattle.relay_listing.specs.Load.{loads_if, loads_in, queue_by_hop};
ghost use Rattle.relay_listing.specs.Row.{queued_at};
ghost use Rattle.relay_queue.specs.Printed.{spool_gauge};
ghost use Rattle.relay_queue.specs.Status.{metrics_text, spool_metrics};

use crate::screen::Screen;
use crate::status::Fill;
use relay_listing::{Course, Loads, count_row, push_alone, push_loads, row_at};
use relay_outlines::Look;
use relay_routes::Table;
use relay_trace::Moment;
use std::alloc::{AllocError, Global};

/// Returns the load of each next hop, in the order in which the queue first names them.
pub(crate) fn loads_of(alloc: Global, look: &Look, table: &Table) -> Result<Loads, AllocError>
    ensures { IfOk result (λ loads. loads_in loads.entries ≡ queue_by_hop table.now look.now.queue) }
{
    let mut loads = Loads::new(alloc);
    let marks = look.held(alloc)?;
    for mark in &marks {
        count_at(alloc, &mut loads, look, table, *mark)?;
    }
    Ok(loads)
}

/// Counts the recipient at a place, if it is held.
fn count_at(
    alloc: Global,
    loads: &mut Loads,
    look: &Look,
    table: &Table,
    mark: (u64, u8),
) -> Result<(), AllocError>
    ensures { OnOk result (loads_in loads.new.entries
        ≡ loads_if (loads_in loads.old.entries) (queued_at table.now look.now.queue mark)) }
{
    match row_at(look, table, mark.0, mark.1) {
        Some(row) => count_row(alloc, loads, &row),
        None => Ok(()),
    }
}

/// Returns the metrics: gauges of each next hop, with its name as the label `hop`, which is empty for recipients
/// without one, and gauges of the spool.
pub(crate) fn metrics_text(
    alloc: Global,
    loads: &Loads,
    fill: Fill,
    now: Moment,
) -> Result<Screen, AllocError>
    ensures gauge { IfOk result (λ screen. (front rest : List ℕ) × (screen ≡ front ++ spool_gauge fill.size ++ rest)) }
    ensures text { IfOk result
        (λ screen. screen ≡ metrics_text now (loads_in loads.now.entries) fill.size fill.limit) }
{
    let mut text = Vec::new(alloc);
    push_loads(&mut text, loads, now.seconds())?;
    push_alone(
        &mut text,
        b"relayd_spool_bytes",
        Course::Gauge,
        b"Octets of the spool file in use.",
        fill.size,
    )?;
    push_alone(
        &mut text,
        b"relayd_spool_limit_bytes",
        Course::Gauge,
        b"Octets that the spool file may take.",
        fill.limit,
    )?;
    let mut screen = Screen::new(alloc);
    screen.push_lines(text.as_slice())?;
    Ok(screen)
}
