//! The queue as a table for people.
ghost use Rattle.std.specs.Prelude.{◌≡◌, ℕ, List, ◌++◌, ◌-◌, IfOk, OnOk, Some, length, max, min, option_map, slice_get};
ghost use Rattle.relay_listing.specs.Row.{queued_at, said_by};
ghost use Rattle.relay_queue.specs.Screen.{shown};
ghost use Rattle.relay_queue.specs.Table.{AreTotals, IsTable, counted, heading_line, heading_of, is_last, name_cells};
ghost use Rattle.relay_queue.specs.Table.{names_text, number_headings, numbers_text, oldest_text, queued_of, row_line};
ghost use Rattle.relay_queue.specs.Table.{row_text, size_at, sums_with, totals_text, tries_and_time, tries_in_words};
ghost use Rattle.relay_queue.specs.Table.{tries_text, try_headings, wider_for, widths_for};

use crate::columns::{push_left, push_right};
use crate::picks::Key;
use crate::screen::Screen;
use crate::zone::Zone;
use relay_book::length_in;
use relay_listing::{Row, age_of, row_at};
use relay_outlines::Look;
use relay_routes::Table;
use relay_trace::Moment;
use std::alloc::{AllocError, Global};

/// The widths of the columns of numbers, which are right-aligned: `1023.9 KiB` fits.
const NUMBER_WIDTH: usize = 8;

const AGE_WIDTH: usize = 6;

const SIZE_WIDTH: usize = 10;

const TRIES_WIDTH: usize = 5;

/// The greatest width of a column of texts; a longer text moves the rest of its line.
const WIDEST: usize = 40;

/// The text for a recipient without a next hop.
const NO_HOP: &[u8] = b"-";

/// The widths of the columns of texts.
#[derive(Clone, Copy)]
struct Widths {
    reverse_path: usize,
    path: usize,
    hop: usize,
}

/// The sums of messages, one recipient after another.
#[derive(Clone, Copy)]
struct Sums {
    messages: u64,
    octets: u64,
    /// The number of the message that was counted last.
    last: Option<u64>,
}

/// The sums of the last line.
#[derive(Clone, Copy)]
struct Totals {
    messages: u64,
    recipients: u64,
    octets: u64,
    /// The age of the oldest message.
    oldest: Option<u64>,
}

/// Returns a heading, a line for each of these recipients, and a last line with their sums.
pub(crate) fn table_text(
    alloc: Global,
    look: &Look,
    table: &Table,
    keys: &[Key],
    zone: &Zone,
    now: Moment,
) -> Result<Screen, AllocError>
    ensures { IfOk result (IsTable now table.now look.now.queue keys.now) }
{
    let mut screen = Screen::new(alloc);
    let mut cell = Screen::new(alloc);
    let widths = widths_of(look, table, keys);
    push_heading_of(&mut screen, widths, keys)?;
    for key in keys {
        push_row_at(&mut screen, &mut cell, look, table, *key, widths, zone, now)?;
    }
    push_totals(&mut screen, totals_of(look, keys, now))?;
    Ok(screen)
}

/// How wide the columns of texts must be.
fn widths_of(look: &Look, table: &Table, keys: &[Key]) -> Widths
    ensures { result ≡ widths_for (queued_of table.now look.now.queue keys.now) }
{
    let mut widths = Widths {
        reverse_path: 12,
        path: 9,
        hop: 3,
    };
    for key in keys {
        widths = wider_at(widths, look, table, *key);
    }
    widths
}

/// Returns widths that hold the texts of the recipient with this key too, if it is queued.
fn wider_at(widths: Widths, look: &Look, table: &Table, key: Key) -> Widths
    ensures { result ≡ wider_for widths (queued_at table.now look.now.queue (key.1, key.2)) }
{
    match row_at(look, table, key.1, key.2) {
        Some(row) => wider_for(widths, &row),
        None => widths,
    }
}

/// Returns widths that hold the texts of one recipient more.
fn wider_for(widths: Widths, row: &Row<'_>) -> Widths
    ensures { result ≡ wider_for widths (Some (said_by row.now)) }
{
    Widths {
        reverse_path: wider(widths.reverse_path, row.reverse_path),
        path: wider(widths.path, row.path),
        hop: wider(widths.hop, row.hop.unwrap_or(NO_HOP)),
    }
}

fn wider(width: usize, text: &[u8]) -> usize
    ensures { result ≡ max width (min (length text.now) 40) }
{
    width.max(text.len().min(WIDEST))
}

/// Adds the line of headings, unless there are no recipients.
fn push_heading_of(screen: &mut Screen, widths: Widths, keys: &[Key]) -> Result<(), AllocError>
    ensures { OnOk result (screen.new ≡ screen.old ++ heading_of widths keys.now) }
{
    if keys.is_empty() {
        return Ok(());
    }
    push_heading(screen, widths)
}

fn push_heading(screen: &mut Screen, widths: Widths) -> Result<(), AllocError>
    ensures { OnOk result (screen.new ≡ screen.old ++ heading_line widths) }
{
    push_number_headings(screen)?;
    push_name_cells(screen, widths, b"REVERSE PATH", b"RECIPIENT", b"HOP")?;
    push_try_headings(screen)
}

fn push_number_headings(screen: &mut Screen) -> Result<(), AllocError>
    ensures { OnOk result (screen.new ≡ screen.old ++ number_headings) }
{
    push_right(screen, b"NUMBER", NUMBER_WIDTH)?;
    push_right(screen, b"AGE", AGE_WIDTH + 2)?;
    push_right(screen, b"SIZE", SIZE_WIDTH + 2)
}

fn push_try_headings(screen: &mut Screen) -> Result<(), AllocError>
    ensures { OnOk result (screen.new ≡ screen.old ++ try_headings) }
{
    push_right(screen, b"TRIES", TRIES_WIDTH + 2)?;
    screen.push(b"  NEXT TRY")?;
    screen.end_line()
}

/// Adds the line of the recipient with this key, if it is queued.
fn push_row_at(
    screen: &mut Screen,
    cell: &mut Screen,
    look: &Look,
    table: &Table,
    key: Key,
    widths: Widths,
    zone: &Zone,
    now: Moment,
) -> Result<(), AllocError>
    ensures { OnOk result ((time : List ℕ)
        × (screen.new ≡ screen.old ++ row_line widths now table.now look.now.queue (key, time))) }
{
    match row_at(look, table, key.1, key.2) {
        Some(row) => push_row(screen, cell, &row, widths, zone, now),
        None => Ok(()),
    }
}

/// Adds the line of a recipient. `cell` is scratch space for right-aligned cells.
fn push_row(
    screen: &mut Screen,
    cell: &mut Screen,
    row: &Row<'_>,
    widths: Widths,
    zone: &Zone,
    now: Moment,
) -> Result<(), AllocError>
    ensures { OnOk result ((time : List ℕ)
        × (screen.new ≡ screen.old ++ row_text widths now time (said_by row.now))) }
{
    push_numbers(screen, cell, row, now)?;
    push_names(screen, row, widths)?;
    let time = zone.time(row.due);
    push_tries(screen, row, &time)
}

/// Adds the number of a recipient's message, its age and its size.
fn push_numbers(
    screen: &mut Screen,
    cell: &mut Screen,
    row: &Row<'_>,
    now: Moment,
) -> Result<(), AllocError>
    ensures { OnOk result (screen.new ≡ screen.old ++ numbers_text now (said_by row.now)) }
{
    cell.clear();
    cell.push_number(row.number)?;
    push_right(screen, cell.as_slice(), NUMBER_WIDTH)?;
    cell.clear();
    cell.push_span(age_of(row, now))?;
    push_right(screen, cell.as_slice(), AGE_WIDTH + 2)?;
    cell.clear();
    cell.push_size(row.size as u64)?;
    push_right(screen, cell.as_slice(), SIZE_WIDTH + 2)
}

/// Adds the paths and the next hop of a recipient.
fn push_names(screen: &mut Screen, row: &Row<'_>, widths: Widths) -> Result<(), AllocError>
    ensures { OnOk result (screen.new ≡ screen.old ++ names_text widths (said_by row.now)) }
{
    let hop = row.hop.unwrap_or(NO_HOP);
    push_name_cells(screen, widths, row.reverse_path, row.path, hop)
}

/// Adds the cells of the columns of texts, each after two spaces.
fn push_name_cells(
    screen: &mut Screen,
    widths: Widths,
    reverse_path: &[u8],
    path: &[u8],
    hop: &[u8],
) -> Result<(), AllocError>
    ensures { OnOk result (screen.new ≡ screen.old ++ name_cells widths reverse_path.now path.now hop.now) }
{
    screen.push_spaces(2)?;
    push_left(screen, reverse_path, widths.reverse_path)?;
    screen.push_spaces(2)?;
    push_left(screen, path, widths.path)?;
    screen.push_spaces(2)?;
    push_left(screen, hop, widths.hop)
}

/// Adds how often a recipient was deferred and when it is due, and ends its line.
fn push_tries(screen: &mut Screen, row: &Row<'_>, time: &[u8]) -> Result<(), AllocError>
    ensures { OnOk result (screen.new ≡ screen.old ++ tries_and_time time.now (said_by row.now)) }
{
    push_right(screen, tries_text(row.tries), TRIES_WIDTH + 2)?;
    screen.push_spaces(2)?;
    screen.push(time)?;
    screen.end_line()
}

/// Returns how often a recipient was deferred, as it is shown.
pub(crate) fn tries_text(tries: u8) -> &'static [u8]
    ensures { result.now ≡ tries_text tries }
{
    match tries {
        0 => b"0",
        1 => b"1",
        2 => b"2",
        3 => b"3",
        _ => b"4+",
    }
}

/// Adds how often a recipient was deferred, in words: `1 try`, `2 tries`.
pub(crate) fn push_tries_in_words(screen: &mut Screen, tries: u8) -> Result<(), AllocError>
    ensures { OnOk result (screen.new ≡ screen.old ++ tries_in_words tries) }
{
    screen.push(tries_text(tries))?;
    if tries == 1 {
        screen.push(b" try")
    } else {
        screen.push(b" tries")
    }
}

/// Returns the sums of these recipients, of which those of one message stand together.
fn totals_of(look: &Look, keys: &[Key], now: Moment) -> Totals
    ensures { AreTotals now look.now.queue keys.now result }
{
    let mut sums = Sums {
        messages: 0,
        octets: 0,
        last: None,
    };
    for key in keys {
        sums = sums_with(sums, look, key.1);
    }
    Totals {
        messages: sums.messages,
        recipients: keys.len() as u64,
        octets: sums.octets,
        oldest: age_of_first(keys, now),
    }
}

/// Returns sums with one more recipient of the message of this number, which counts unless it was the last one.
fn sums_with(sums: Sums, look: &Look, number: u64) -> Sums
    ensures { result ≡ sums_with look.now.queue sums number }
{
    let size = size_of(look, number);
    if is_last(sums.last, number) {
        return sums;
    }
    Sums {
        messages: sums.messages.saturating_add(1),
        octets: sums.octets.saturating_add(size),
        last: Some(number),
    }
}

/// Returns whether the message of this number was counted last.
fn is_last(last: Option<u64>, number: u64) -> bool
    ensures { result ≡ is_last last number }
{
    match last {
        Some(last) => last == number,
        None => false,
    }
}

/// Returns how many seconds ago the message of the first of these recipients was accepted.
pub(crate) fn age_of_first(keys: &[Key], now: Moment) -> Option<u64>
    ensures { result ≡ option_map (λ key. now - key.0) (slice_get keys.now 0) }
{
    match keys.first() {
        Some((accepted, _, _)) => Some(now.seconds().saturating_sub(*accepted)),
        None => None,
    }
}

/// Returns how many octets a message has.
fn size_of(look: &Look, number: u64) -> u64
    ensures { result ≡ size_at look.now.queue number }
{
    match look.outline(number) {
        Some(outline) => length_in(outline.accept.stored_text.as_slice()),
        None => 0,
    }
}

/// Adds the last line: `12 messages, 15 recipients, 1.2 MiB; oldest 3 h`.
fn push_totals(screen: &mut Screen, totals: Totals) -> Result<(), AllocError>
    ensures { OnOk result (screen.new ≡ screen.old ++ totals_text totals) }
{
    push_count(screen, totals.messages, b"message")?;
    screen.push(b", ")?;
    push_count(screen, totals.recipients, b"recipient")?;
    screen.push(b", ")?;
    screen.push_size(totals.octets)?;
    push_oldest(screen, totals.oldest)?;
    screen.end_line()
}

/// Adds the age of the oldest message, if there is one.
fn push_oldest(screen: &mut Screen, oldest: Option<u64>) -> Result<(), AllocError>
    ensures { OnOk result (screen.new ≡ screen.old ++ oldest_text oldest) }
{
    match oldest {
        Some(age) => {
            screen.push(b"; oldest ")?;
            screen.push_span(age)
        }
        None => Ok(()),
    }
}

/// Adds a number and a noun, in the plural unless there is one.
pub(crate) fn push_count(screen: &mut Screen, count: u64, noun: &[u8]) -> Result<(), AllocError>
    ensures { OnOk result (screen.new ≡ screen.old ++ counted count (shown noun.now)) }
{
    screen.push_number(count)?;
    screen.push(b" ")?;
    screen.push(noun)?;
    if count == 1 {
        return Ok(());
    }
    screen.push(b"s")
}
