use crate::answer::Answer;
use crate::bench::mail::{AT, accept_of, moment};
use relay_book::{Book, Change, Outcome, Ruling, Rulings, Verdict, Version, decode_change};
use relay_octets::Octets;
use std::alloc::{AllocError, Global};
use std::test::Fail;

/// Fills a book with this many messages of this text, and transfers each, if it is to be drained.
pub fn fill_book(told: &mut Answer, count: u64, text: &[u8], is_drained: bool) -> Result<(), Fail> {
    let mut book = Book::new(told.alloc);
    fill(told.alloc, &mut book, count, text)?;
    if is_drained {
        drain(told.alloc, &mut book, count)?;
    }
    let held = book.held(told.alloc)?.len();
    told.count("", held as u64);
    told.count(" places of ", count);
    told.say(" messages");
    Ok(())
}

fn fill(alloc: Global, book: &mut Book, count: u64, text: &[u8]) -> Result<(), Fail> {
    for _ in 0..count {
        book.apply(alloc, accept_of(alloc, text)?)?;
    }
    Ok(())
}

fn drain(alloc: Global, book: &mut Book, count: u64) -> Result<(), Fail> {
    for number in 1..=count {
        book.apply(alloc, transfer_of(alloc, number)?)?;
    }
    Ok(())
}

/// Returns the outcome by which the place of a message goes on to a hop.
fn transfer_of(alloc: Global, message: u64) -> Result<Change, AllocError> {
    let mut rulings = Rulings::new(alloc);
    rulings.push(Ruling {
        place: 0,
        verdict: Verdict::Taken { dsn: true },
    })?;
    Ok(Change::Outcome(Outcome {
        version: Version::WithDelay,
        message,
        at: moment(AT),
        hop: Octets::from_slice(alloc, b"next.example")?,
        rulings,
        report: Octets::new(Vec::new(alloc)),
    }))
}

/// Decodes a record this many times.
pub fn decode_record(told: &mut Answer, times: u64, record: &[u8]) -> Result<(), Fail> {
    let mut octets: u64 = 0;
    for _ in 0..times {
        octets = octets.saturating_add(text_of(told.alloc, record));
    }
    told.count("", octets);
    told.count(" octets of text, in ", times);
    told.say(" times");
    Ok(())
}

/// Returns how many octets of text an accept has that is decoded from a record.
fn text_of(alloc: Global, record: &[u8]) -> u64 {
    match decode_change(alloc, record) {
        Ok(Change::Accept(accept)) => accept.stored_text.len() as u64,
        _ => 0,
    }
}
