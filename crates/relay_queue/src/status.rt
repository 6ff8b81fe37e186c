//! The summary by next hop, and how full the spool is, for people.
ghost use Rattle.std.specs.Prelude.{◌≡◌, ℕ, ◌*◌, ◌/◌, ◌-◌, ◌^◌, min, max, List, ◌++◌, codes, IfOk, OnOk};
ghost use Rattle.relay_listing.specs.Load.{loads_in};
ghost use Rattle.relay_queue.specs.Status.{AddsLoads, IsSummary, amount_headings, amounts_text, counts_text};
ghost use Rattle.relay_queue.specs.Status.{fill_text, headings_of, hop_headings, load_headings, load_line};
ghost use Rattle.relay_queue.specs.Status.{next_try_text, shown_name};

use crate::columns::{push_left, push_right};
use crate::screen::Screen;
use crate::zone::Zone;
use relay_listing::{Load, Loads};
use relay_trace::Moment;
use std::alloc::{AllocError, Global};

/// The widths of the columns.
const HOP_WIDTH: usize = 24;

const COUNT_WIDTH: usize = 12;

const SIZE_WIDTH: usize = 12;

const AGE_WIDTH: usize = 8;

/// The size of the spool.
#[derive(Clone, Copy)]
pub(crate) struct Fill {
    /// Its size, in octets.
    pub(crate) size: u64,
    /// Its greatest size, in octets.
    pub(crate) limit: u64,
}

impl Fill {
    /// How full the spool is, in percent.
    pub(crate) fn percent(self) -> u64
        ensures { result ≡ min (self.size * 100) (2 ^ 64 - 1) / max self.limit 1 }
    {
        self.size.saturating_mul(100) / self.limit.max(1)
    }
}

/// Returns a line for each next hop, and one for the spool.
pub(crate) fn status_text(
    alloc: Global,
    loads: &Loads,
    fill: Fill,
    zone: &Zone,
    now: Moment,
) -> Result<Screen, AllocError>
    ensures fill { IfOk result (λ screen. (front : List ℕ) × (screen ≡ front ++ fill_text fill.size fill.limit)) }
    ensures summary { IfOk result (IsSummary now (loads_in loads.now.entries) fill.size fill.limit) }
{
    let mut screen = Screen::new(alloc);
    push_headings(&mut screen, loads)?;
    push_hops(alloc, &mut screen, loads, zone, now)?;
    push_fill(&mut screen, fill)?;
    Ok(screen)
}

/// Adds the line of headings, unless there are no next hops.
fn push_headings(screen: &mut Screen, loads: &Loads) -> Result<(), AllocError>
    ensures { OnOk result (screen.new ≡ screen.old ++ headings_of (loads_in loads.now.entries)) }
{
    match loads.first() {
        Some(_) => push_load_headings(screen),
        None => Ok(()),
    }
}

fn push_load_headings(screen: &mut Screen) -> Result<(), AllocError>
    ensures { OnOk result (screen.new ≡ screen.old ++ load_headings) }
{
    push_hop_headings(screen)?;
    push_amount_headings(screen)?;
    push_last_heading(screen)
}

fn push_hop_headings(screen: &mut Screen) -> Result<(), AllocError>
    ensures { OnOk result (screen.new ≡ screen.old ++ hop_headings) }
{
    push_left(screen, b"HOP", HOP_WIDTH)?;
    push_right(screen, b"MESSAGES", COUNT_WIDTH)?;
    push_right(screen, b"RECIPIENTS", COUNT_WIDTH)
}

fn push_amount_headings(screen: &mut Screen) -> Result<(), AllocError>
    ensures { OnOk result (screen.new ≡ screen.old ++ amount_headings) }
{
    push_right(screen, b"SIZE", SIZE_WIDTH)?;
    push_right(screen, b"OLDEST", AGE_WIDTH)
}

fn push_last_heading(screen: &mut Screen) -> Result<(), AllocError>
    ensures { OnOk result (screen.new ≡ screen.old ++ codes "  NEXT TRY\n") }
{
    screen.push(b"  NEXT TRY")?;
    screen.end_line()
}

/// Adds the lines of all next hops.
fn push_hops(
    alloc: Global,
    screen: &mut Screen,
    loads: &Loads,
    zone: &Zone,
    now: Moment,
) -> Result<(), AllocError>
    ensures { OnOk result (AddsLoads now (loads_in loads.now.entries) screen.old screen.new) }
{
    let mut cell = Screen::new(alloc);
    for (name, load) in loads.iter() {
        push_hop(screen, &mut cell, name.as_slice(), load, zone, now)?;
    }
    Ok(())
}

/// Adds the line of a next hop. `cell` is scratch space for right-aligned cells.
fn push_hop(
    screen: &mut Screen,
    cell: &mut Screen,
    name: &[u8],
    load: &Load,
    zone: &Zone,
    now: Moment,
) -> Result<(), AllocError>
    ensures { OnOk result ((time : List ℕ)
        × (screen.new ≡ screen.old ++ load_line now ((name.now, load.now), time))) }
{
    push_left(screen, shown_name(name), HOP_WIDTH)?;
    push_counts(screen, cell, load)?;
    push_amounts(screen, cell, load, now)?;
    let time = zone.time(load.due);
    push_next_try(screen, &time)
}

/// Adds how many messages and recipients are queued.
fn push_counts(screen: &mut Screen, cell: &mut Screen, load: &Load) -> Result<(), AllocError>
    ensures { OnOk result (screen.new ≡ screen.old ++ counts_text load.now) }
{
    cell.clear();
    cell.push_number(load.messages)?;
    push_right(screen, cell.as_slice(), COUNT_WIDTH)?;
    cell.clear();
    cell.push_number(load.recipients)?;
    push_right(screen, cell.as_slice(), COUNT_WIDTH)
}

/// Adds how many octets the messages have, and how old the oldest is.
fn push_amounts(
    screen: &mut Screen,
    cell: &mut Screen,
    load: &Load,
    now: Moment,
) -> Result<(), AllocError>
    ensures { OnOk result (screen.new ≡ screen.old ++ amounts_text now load.now) }
{
    cell.clear();
    cell.push_size(load.octets)?;
    push_right(screen, cell.as_slice(), SIZE_WIDTH)?;
    cell.clear();
    cell.push_span(now.seconds().saturating_sub(load.oldest))?;
    push_right(screen, cell.as_slice(), AGE_WIDTH)
}

/// Adds when a recipient is due first, and ends the line.
fn push_next_try(screen: &mut Screen, time: &[u8]) -> Result<(), AllocError>
    ensures { OnOk result (screen.new ≡ screen.old ++ next_try_text time.now) }
{
    screen.push_spaces(2)?;
    screen.push(time)?;
    screen.end_line()
}

/// Returns the name of a next hop, or the text for recipients without one.
fn shown_name(name: &[u8]) -> &[u8]
    ensures { result.now ≡ shown_name name.now }
{
    if name.is_empty() { b"-" } else { name }
}

/// Adds how full the spool is: `spool 1.2 MiB of 64.0 MiB, 1 %`.
fn push_fill(screen: &mut Screen, fill: Fill) -> Result<(), AllocError>
    ensures { OnOk result (screen.new ≡ screen.old ++ fill_text fill.size fill.limit) }
{
    screen.push(b"spool ")?;
    screen.push_size(fill.size)?;
    screen.push(b" of ")?;
    screen.push_size(fill.limit)?;
    screen.push(b", ")?;
    screen.push_number(fill.percent())?;
    screen.push(b" %")?;
    screen.end_line()
}
