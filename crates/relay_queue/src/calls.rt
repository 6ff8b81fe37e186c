//! The subcommands `list --long`, `list --json`, `show` and `status`.
ghost use Rattle.std.specs.Prelude.{◌≡◌, ℕ, IfErr, IfOk, OnOk};
ghost use Rattle.relay_listing.specs.Load.{loads_in};
ghost use Rattle.relay_queue.specs.Printed.{IsListPrinted, IsMessagePrinted, IsNotQueued, IsStatusPrinted};
ghost use Rattle.relay_queue.specs.Printed.{IsList, IsStatus, IsTextPrinted, ShowsFill};

use crate::fault::QueueFault;
use crate::filter::Filter;
use crate::json_lines::json_text;
use crate::message_text::message_text;
use crate::picks::{Key, listed_keys};
use crate::screen::Screen;
use crate::status::{Fill, status_text};
use crate::summary::{loads_of, metrics_text};
use crate::table::table_text;
use crate::zone::Zone;
use relay_book::Message;
use relay_files::{configuration, open_to_look, open_to_read, write_out};
use relay_listing::Loads;
use relay_outlines::Look;
use relay_routes::{Config, Table};
use relay_trace::{Moment, clock_moment};
use std::alloc::{AllocError, Global};
use std::fs::File;
use std::io::Write;
use std::rt::{Clock, Env, Files};

/// The output format of a list.
#[derive(Clone, Copy)]
pub enum ListForm {
    /// A table for people.
    Table,
    /// One JSON object per line.
    Json,
}

/// The output format of a message.
#[derive(Clone, Copy)]
pub enum MessageForm {
    /// Its envelope and its text, for people.
    Shown,
    /// Its text only, octet by octet.
    Raw,
}

/// The output format of the status.
#[derive(Clone, Copy)]
pub enum StatusForm {
    /// A table for people.
    Table,
    /// Metrics in Prometheus' text exposition format.
    Metrics,
}

/// Prints the queued recipients that pass a filter, those of the oldest message first. Opens the spool's files for
/// reading only, without a lock, so that a relay may be running on them. Faults are checked in this order: the
/// configuration file, its content, the spool, the writer.
pub fn print_list<R: Files<File = File> + Env + Clock + AllocGlobal, W: Write>(
    alloc: Global,
    rt: &R,
    path: &str,
    filter: &Filter<'_>,
    form: ListForm,
    writer: &mut W,
) -> Result<(), QueueFault>
    ensures { OnOk result (IsListPrinted filter.now form (W.contents writer.old) (W.contents writer.new)) }
{
    let config = configuration(alloc, rt, path)?;
    let look = open_to_look(alloc, rt, &config)?;
    let now = clock_moment(rt);
    let keys = listed_keys(alloc, &look, &config.routes, filter, now)?;
    let screen = list_text(alloc, rt, &look, &config.routes, keys.as_slice(), form, now)?;
    Ok(write_out(writer, screen.as_slice())?)
}

/// Returns the recipients with these keys in a form.
fn list_text<R: Files<File = File> + Env + AllocGlobal>(
    alloc: Global,
    rt: &R,
    look: &Look,
    table: &Table,
    keys: &[Key],
    form: ListForm,
    now: Moment,
) -> Result<Screen, AllocError>
    ensures { IfOk result (IsList form now table.now look.now.queue keys.now) }
{
    match form {
        ListForm::Table => table_text(alloc, look, table, keys, &Zone::read(alloc, rt), now),
        ListForm::Json => json_text(alloc, look, table, keys, now),
    }
}

/// Prints a message. Fails with [`QueueFault::NotQueued`] if none of its recipients is queued, else as [`print_list`].
pub fn print_message<R: Files<File = File> + Env + Clock + AllocGlobal, W: Write>(
    alloc: Global,
    rt: &R,
    path: &str,
    number: u64,
    form: MessageForm,
    writer: &mut W,
) -> Result<(), QueueFault>
    ensures printed { OnOk result (IsMessagePrinted number form (W.contents writer.old) (W.contents writer.new)) }
    ensures absent { IfErr result (λ fault. (other : ℕ) → fault ≡ QueueFault.NotQueued other
        → (other ≡ number) × IsNotQueued number) }
{
    let config = configuration(alloc, rt, path)?;
    let records = open_to_read(alloc, rt, &config)?;
    let Some(message) = records.message(number) else {
        return Err(QueueFault::NotQueued(number));
    };
    print_text(alloc, rt, message, &config.routes, form, writer)
}

/// Prints a message in a form.
fn print_text<R: Files<File = File> + Env + Clock + AllocGlobal, W: Write>(
    alloc: Global,
    rt: &R,
    message: &Message,
    table: &Table,
    form: MessageForm,
    writer: &mut W,
) -> Result<(), QueueFault>
    ensures printed { OnOk result (IsTextPrinted form table.now message.now (W.contents writer.old)
        (W.contents writer.new)) }
    ensures queued { IfErr result (λ fault. (number : ℕ) → ¬ (fault ≡ QueueFault.NotQueued number)) }
{
    match form {
        MessageForm::Shown => {
            let zone = Zone::read(alloc, rt);
            let now = clock_moment(rt);
            let screen = message_text(alloc, message, table, &zone, now)?;
            Ok(write_out(writer, screen.as_slice())?)
        }
        MessageForm::Raw => Ok(write_out(writer, message.accept.stored_text.as_slice())?),
    }
}

/// Prints a summary of the queue by next hop, and how full the spool is. Fails as [`print_list`] does.
pub fn print_status<R: Files<File = File> + Env + Clock + AllocGlobal, W: Write>(
    alloc: Global,
    rt: &R,
    path: &str,
    form: StatusForm,
    writer: &mut W,
) -> Result<(), QueueFault>
    ensures { OnOk result (IsStatusPrinted form (W.contents writer.old) (W.contents writer.new)) }
{
    let config = configuration(alloc, rt, path)?;
    let look = open_to_look(alloc, rt, &config)?;
    let now = clock_moment(rt);
    let loads = loads_of(alloc, &look, &config.routes)?;
    let fill = fill_of(&look, &config);
    let screen = fill_in_form(alloc, rt, &loads, fill, form, now)?;
    Ok(write_out(writer, screen.as_slice())?)
}

/// Returns the summary by next hop, and how full the spool is, in an output format.
fn fill_in_form<R: Files<File = File> + Env + AllocGlobal>(
    alloc: Global,
    rt: &R,
    loads: &Loads,
    fill: Fill,
    form: StatusForm,
    now: Moment,
) -> Result<Screen, AllocError>
    ensures fill { IfOk result (ShowsFill form fill.size) }
    ensures by_hop { IfOk result (IsStatus form now (loads_in loads.now.entries) fill.size fill.limit) }
{
    match form {
        StatusForm::Table => status_text(alloc, loads, fill, &Zone::read(alloc, rt), now),
        StatusForm::Metrics => metrics_text(alloc, loads, fill, now),
    }
}

/// Returns how full a spool is.
fn fill_of(look: &Look, config: &Config) -> Fill
    ensures { (result.size ≡ look.now.size) × (result.limit ≡ config.now.spool_limit) }
{
    Fill {
        size: look.size() as u64,
        limit: config.spool_limit,
    }
}
