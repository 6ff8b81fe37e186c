//! A record or a snapshot, one octet of which is changed.
use crate::answer::{Answer, RowsFault};
use crate::books::snapshot::is_snapshot;
use relay_book::{Book, decode_change};

/// Returns whether the octets are a snapshot, or the record of a change that fits the book, which is unchanged.
pub fn fits(answer: &mut Answer, book: &mut Book, record: &[u8]) -> bool {
    is_snapshot(answer, record) || is_prepared(answer, book, record)
}

fn is_prepared(answer: &mut Answer, book: &mut Book, record: &[u8]) -> bool {
    match decode_change(answer.alloc, record) {
        Ok(change) => {
            let prepared = book.prepare(answer.alloc, change);
            answer.is_taken(prepared)
        }
        Err(fault) => answer.refuses(fault),
    }
}

/// Tells the values of an octet by which a record fits the book: runs of them, in hexadecimal.
pub fn tell_values(answer: &mut Answer, book: &mut Book, record: &[u8], place: u64) {
    let place = usize::try_from(place).unwrap_or(usize::MAX);
    match record.to_vec(answer.alloc) {
        Ok(mut changed) => tell_runs(answer, book, changed.as_mut_slice(), place),
        Err(_) => answer.stop(RowsFault::NoMemory),
    }
    if answer.text.is_empty() {
        answer.say("none");
    }
}

/// The same, and nothing if there is no such value. The octet is left at its last value.
fn tell_runs(answer: &mut Answer, book: &mut Book, record: &mut [u8], place: usize) {
    let mut run: Option<(u8, u8)> = None;
    for value in 0..=u8::MAX {
        if let Some(octet) = record.get_mut(place) {
            *octet = value;
        }
        if fits(answer, book, record) {
            let first = first_of(run, value);
            run = Some((first, value));
        } else {
            tell_run(answer, run);
            run = None;
        }
    }
    tell_run(answer, run);
}

/// Returns the first value of a run that goes on with this one.
fn first_of(run: Option<(u8, u8)>, value: u8) -> u8 {
    match run {
        Some((first, _)) => first,
        None => value,
    }
}

/// Tells a run of values, its first and its last.
fn tell_run(answer: &mut Answer, run: Option<(u8, u8)>) {
    if let Some((first, last)) = run {
        if !answer.text.is_empty() {
            answer.say(" ");
        }
        answer.hexadecimal(first);
        if first < last {
            answer.say("-");
            answer.hexadecimal(last);
        }
    }
}
