//! The outcome of a row about a book.
use crate::answer::{Answer, RowsFault};
use crate::books::hex::octets_of;
use crate::books::octets::{fits, tell_values};
use crate::books::snapshot::{book_of, tell_cuts, tell_fault, tell_snapshot};
use relay_book::{Book, BookFault, decode_change, encode_change};
use relay_trace::Moment;
use std::alloc::{AllocError, Global};

/// What rows are about: a book, and a record at hand.
pub struct Subject {
    book: Book,
    record: Vec<u8>,
}

// Written out, so that the proof of a caller that drops a subject stops at this function.
impl Drop for Subject {
    fn drop(self) {
        let Subject {
            book: _book,
            record: _record,
        } = self;
    }
}

impl Subject {
    /// Makes an empty book, and no record.
    pub fn new(alloc: Global) -> Self {
        Subject {
            book: Book::new(alloc),
            record: Vec::new(alloc),
        }
    }

    /// Tells a row, and its outcome.
    pub fn tell_row(&mut self, row: &str, answer: &mut Answer) {
        let mut came = Answer::new(answer.alloc);
        self.answer(row, &mut came);
        answer.say(row);
        answer.say(" => ");
        answer.say(came.text.as_str());
        answer.stop_as(&came);
    }

    /// Tells the outcome of a row: a word, places as `NUMBER.PLACE`, or values of an octet.
    fn answer(&mut self, row: &str, answer: &mut Answer) {
        let (word, rest) = row.split_once(' ').unwrap_or((row, ""));
        match word {
            "held" => {
                let places = self.book.held(answer.alloc);
                tell_places(answer, places);
            }
            "due" => self.tell_due(rest, answer),
            "octet" => {
                let place = answer.number_in(rest);
                tell_values(answer, &mut self.book, self.record.as_slice(), place);
            }
            "snapshot" => tell_snapshot(answer, rest),
            _ => {
                let octets = octets_of(answer, rest);
                self.answer_on(word, octets.as_slice(), answer);
            }
        }
    }

    /// The same of a row about these octets.
    fn answer_on(&mut self, word: &str, octets: &[u8], answer: &mut Answer) {
        match word {
            "apply" => match applied(answer.alloc, &mut self.book, octets) {
                Ok(()) => answer.say("applied"),
                Err(fault) => tell_fault(answer, fault),
            },
            "decode" => {
                let is_same = is_written_again(answer.alloc, octets);
                tell_again(
                    answer,
                    is_same,
                    "a record of ",
                    octets.len(),
                    "another record",
                );
            }
            "record" => self.take(octets, answer),
            "read" => self.read(octets, answer),
            "cut" => tell_cuts(answer, octets),
            _ => answer.stop(RowsFault::Row),
        }
    }

    /// Tells the places that are due at the time of this many seconds.
    fn tell_due(&mut self, seconds: &str, answer: &mut Answer) {
        match Moment::new(answer.number_in(seconds)) {
            Ok(moment) => {
                let places = self.book.due(answer.alloc, moment);
                tell_places(answer, places);
            }
            Err(_) => answer.stop(RowsFault::Row),
        }
    }

    /// Takes a record in hand.
    fn take(&mut self, octets: &[u8], answer: &mut Answer) {
        self.record.clear();
        let taken = self.record.extend_from_slice(octets);
        answer.note(taken);
        let fits = fits(answer, &mut self.book, octets);
        answer.say(if fits { "fits" } else { "BadRecord" });
    }

    /// Reads a snapshot: the book that comes of it is the one that the next rows are about.
    fn read(&mut self, octets: &[u8], answer: &mut Answer) {
        match book_of(answer.alloc, octets) {
            Err(fault) => tell_fault(answer, fault),
            Ok((book, is_same)) => {
                self.book = book;
                tell_again(
                    answer,
                    Ok(is_same),
                    "a snapshot of ",
                    octets.len(),
                    "another snapshot",
                );
            }
        }
    }
}

/// Returns whether octets were written again as they are, of this many.
fn tell_again(
    answer: &mut Answer,
    is_same: Result<bool, BookFault>,
    same: &str,
    len: usize,
    other: &str,
) {
    match is_same {
        Ok(true) => answer.count(same, len as u64),
        Ok(false) => answer.say(other),
        Err(fault) => tell_fault(answer, fault),
    }
}

/// Reads a record and applies its change. If memory runs out it does so once more, since the book is to be as it was.
fn applied(alloc: Global, book: &mut Book, record: &[u8]) -> Result<(), BookFault> {
    match read_into(alloc, book, record) {
        Err(BookFault::NoMemory) => read_into(alloc, book, record),
        first => first,
    }
}

/// Reads a record, and applies its change.
pub fn read_into(alloc: Global, book: &mut Book, record: &[u8]) -> Result<(), BookFault> {
    book.apply(alloc, decode_change(alloc, record)?)
}

/// Returns whether the change of a record is written as that record.
fn is_written_again(alloc: Global, record: &[u8]) -> Result<bool, BookFault> {
    let change = decode_change(alloc, record)?;
    Ok(encode_change(alloc, &change)?.as_slice() == record)
}

/// Tells places with the numbers of their messages.
fn tell_places(answer: &mut Answer, places: Result<Vec<(u64, u8)>, AllocError>) {
    match places {
        Ok(places) => {
            answer.count("", places.len() as u64);
            answer.say(" places");
            for (number, place) in places.as_slice() {
                let told = write!(answer.text, " {number}.{place}");
                answer.note(told);
            }
        }
        Err(_) => answer.stop(RowsFault::NoMemory),
    }
}
