//! Snapshots: of what one or two records leave, read back, and cut short.
use crate::answer::Answer;
use crate::books::hex::octets_of;
use relay_book::{Book, BookFault};
use relay_pieces::Pieces;
use std::alloc::{AllocError, Global};

/// How many octets a piece of a snapshot has.
const PIECE: usize = 7;

/// Tells the snapshot of the queue that the records of a row leave, one or two: how many octets it has, and each in
/// hexadecimal.
pub fn tell_snapshot(answer: &mut Answer, row: &str) {
    let (first, second) = row.split_once(' ').unwrap_or((row, ""));
    let first = octets_of(answer, first);
    let second = octets_of(answer, second);
    match snapshot_of(answer.alloc, first, second) {
        Ok(octets) => tell_hex(answer, octets.as_slice()),
        Err(fault) => tell_fault(answer, fault),
    }
}

/// Returns the snapshot that a record leaves, and a second one, where that isn't empty.
fn snapshot_of(alloc: Global, first: Vec<u8>, second: Vec<u8>) -> Result<Vec<u8>, BookFault> {
    let mut book = Book::read_first(alloc, Pieces::of_one(alloc, first))?;
    if !second.is_empty() {
        book.read_next(alloc, second)?;
    }
    Ok(book.encode_snapshot(alloc, 0)?)
}

fn tell_hex(answer: &mut Answer, octets: &[u8]) {
    answer.count("", octets.len() as u64);
    answer.say(" octets ");
    for octet in octets {
        answer.hexadecimal(*octet);
    }
}

/// Returns the octets in pieces of this many, so that what is before the messages and each message stand in several.
fn in_pieces(alloc: Global, octets: &[u8]) -> Result<Pieces, AllocError> {
    let mut pieces = Pieces::new(alloc);
    for piece in octets.chunks(PIECE) {
        pieces.push(Vec::from_slice(alloc, piece)?)?;
    }
    Ok(pieces)
}

/// Returns the book of a snapshot, and whether it is written as these octets again.
pub fn book_of(alloc: Global, octets: &[u8]) -> Result<(Book, bool), BookFault> {
    let book = Book::decode_snapshot(alloc, in_pieces(alloc, octets)?)?;
    let is_same = book.encode_snapshot(alloc, 0)?.as_slice() == octets;
    Ok((book, is_same))
}

/// Returns whether the octets are a snapshot.
pub fn is_snapshot(answer: &mut Answer, octets: &[u8]) -> bool {
    match in_pieces(answer.alloc, octets) {
        Ok(pieces) => {
            let book = Book::decode_snapshot(answer.alloc, pieces);
            answer.is_taken(book)
        }
        Err(_) => answer.refuses(BookFault::NoMemory),
    }
}

/// Tells at how many of its octets a snapshot is refused when it is cut there.
pub fn tell_cuts(answer: &mut Answer, octets: &[u8]) {
    let mut refused: u64 = 0;
    for len in 0..octets.len() {
        if !is_snapshot(answer, &octets[..len]) {
            refused = refused.saturating_add(1);
        }
    }
    answer.count("refused at ", refused);
    answer.count(" of ", octets.len() as u64);
}

/// Tells a fault in a word; lack of memory ends the program.
pub fn tell_fault(answer: &mut Answer, fault: BookFault) {
    if fault == BookFault::BadRecord {
        answer.say("BadRecord");
    }
    answer.refuses(fault);
}
