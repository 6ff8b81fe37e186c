//! One measurement a run: a library call this many times, and a line of what it counted. The time is the driver's to
//! take (bench/).
//!
//!     relay_rows_tests bench NAME TIMES [FILE] < TEXT
//!
//! FILE is the first file of a spool, and the second one's name is that with `.2` after it. Most measurements read a
//! text; the others run on `/dev/null`. The line ends with how much memory the program had at most. Without a name each
//! row of data/bench.in is measured: its name, its file and its text. What that prints is fixed.

mod attempts;
mod books;
mod disks;
mod mail;
mod memory;
mod nodes;
mod passing;
mod reports;
mod spools;
mod texts;

use crate::answer::{Answer, print_told};
use crate::spelling::push_unescaped;
use crate::word_of;
use crate::words::Words;
use attempts::{hand_texts_on, hold_attempts};
use books::{decode_record, fill_book};
use disks::forget;
use memory::tell_peak;
use nodes::{accept_messages, compact_node, open_node};
use passing::{ask_for_works, begin_attempts, deliver_messages};
use reports::make_reports;
use spools::{append_bodies, open_spool, sync_twice};
use std::fs;
use std::io::Read;
use std::test::Fail;
use texts::write_texts;

/// Runs the measurement that the words name on the standard input, as often as the second word says, and on the files
/// that the third one names.
pub fn measure_named(rt: &HostRuntime, words: &[String]) -> Result<(), Fail> {
    let times = word_of(words, 1).parse::<u64>()?;
    let mut text: Vec<u8> = Vec::new(rt.alloc());
    rt.stdin().read_to_end(&mut text)?;
    let mut told = Answer::new(rt.alloc());
    let (name, path) = (word_of(words, 0), word_of(words, 2));
    measure(rt, &mut told, name, times, text.as_slice(), path)?;
    told.say(", ");
    tell_peak(rt, &mut told)?;
    print_told(rt, name, ": ", &told)
}

/// Runs each measurement three times on a few octets.
pub fn measure_each(rt: &HostRuntime) -> Result<(), Fail> {
    // A run that was cut off may have left files.
    forget_each(rt)?;
    let rows = fs::read_to_string(rt, "bench.in")?;
    for row in rows.as_str().lines() {
        measure_row(rt, row)?;
    }
    forget_each(rt)
}

fn measure_row(rt: &HostRuntime, row: &str) -> Result<(), Fail> {
    let mut words = Words { rest: row };
    let name = words.word();
    let path = words.word();
    let mut text = Vec::new(rt.alloc());
    push_unescaped(&mut text, words.rest.as_bytes())?;
    let mut told = Answer::new(rt.alloc());
    measure(rt, &mut told, name, 3, text.as_slice(), path)?;
    print_told(rt, name, ": ", &told)
}

/// Takes away the files of the rows.
fn forget_each(rt: &HostRuntime) -> Result<(), Fail> {
    forget(rt, "bench_spool")?;
    forget(rt, "bench_node")?;
    forget(rt, "bench_queue")
}

/// Runs the measurement of this name this many times, and tells what it counted.
fn measure(
    rt: &HostRuntime,
    told: &mut Answer,
    name: &str,
    times: u64,
    text: &[u8],
    path: &str,
) -> Result<(), Fail> {
    match name {
        "dots" => write_texts(told, times, text),
        "decode" => decode_record(told, times, text),
        "reports" => make_reports(told, times, text),
        "attempts" => hand_texts_on(told, times, text),
        "waiting" => hold_attempts(told, times),
        "fill" => fill_book(told, times, text, false),
        "drain" => fill_book(told, times, text, true),
        _ => measure_files(rt, told, name, times, text, path),
    }
}

/// Returns the same of those of a spool.
fn measure_files(
    rt: &HostRuntime,
    told: &mut Answer,
    name: &str,
    times: u64,
    text: &[u8],
    path: &str,
) -> Result<(), Fail> {
    match name {
        "append" => append_bodies(rt, told, times, text, path),
        "open" => open_spool(rt, told, path),
        "syncs" => sync_twice(rt, told, times, text, path),
        "accepts" => accept_messages(rt, told, times, text, path),
        "node" => open_node(rt, told, path),
        "compact" => compact_node(rt, told, path),
        "works" => ask_for_works(rt, told, times, path),
        "begins" => begin_attempts(rt, told, times, path),
        "deliver" => deliver_messages(rt, told, path),
        _ => Err(Fail::new(
            "the measurements are: dots, decode, reports, attempts, waiting, fill, drain, append, open, syncs, \
accepts, node, compact, works, begins, deliver",
        )),
    }
}
