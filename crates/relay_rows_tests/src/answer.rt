//! The outcome of a row, told word by word.
use relay_book::BookFault;
use std::alloc::{AllocError, Global};
use std::fmt::Display;
use std::io::{Error, ErrorKind, Print};
use std::str;
use std::test::Fail;

/// Why not every row was shown.
#[derive(Clone, Copy)]
pub enum RowsFault {
    /// A file couldn't be read, or a line not written.
    Stream,
    /// A row is none.
    Row,
    /// Memory ran out.
    NoMemory,
}

impl RowsFault {
    /// Returns the fault as the program says it.
    pub fn text(self) -> &'static str {
        match self {
            RowsFault::Stream => "input or output",
            RowsFault::Row => "not a row",
            RowsFault::NoMemory => "no memory",
        }
    }
}

impl From<AllocError> for RowsFault {
    fn from(_error: AllocError) -> Self {
        RowsFault::NoMemory
    }
}

impl From<Error> for RowsFault {
    fn from(error: Error) -> Self {
        match error.kind() {
            ErrorKind::OutOfMemory => RowsFault::NoMemory,
            _ => RowsFault::Stream,
        }
    }
}

impl From<BookFault> for RowsFault {
    fn from(fault: BookFault) -> Self {
        match fault {
            BookFault::BadRecord => RowsFault::Row,
            BookFault::NoMemory => RowsFault::NoMemory,
        }
    }
}

/// The text of the outcome of a row, and the first fault that kept it from being told whole.
pub struct Answer {
    pub alloc: Global,
    pub text: String,
    pub fault: Option<RowsFault>,
}

// Written out, so that the proof of a caller that drops an answer stops at this function.
impl Drop for Answer {
    fn drop(self) {
        let Answer {
            alloc: _,
            text: _text,
            fault: _,
        } = self;
    }
}

impl Answer {
    /// Makes an answer of which nothing is told.
    pub fn new(alloc: Global) -> Self {
        Answer {
            alloc,
            text: String::new(alloc),
            fault: None,
        }
    }

    /// Prints what is told as a line, unless a fault is noted, and begins anew.
    pub fn print(&mut self, rt: &HostRuntime) {
        if self.fault.is_none() {
            let text = self.text.as_str();
            let printed = println!(rt; "{text}");
            if let Err(error) = printed {
                self.stop(RowsFault::from(error));
            }
        }
        self.text.clear();
    }

    /// Tells a text.
    pub fn say(&mut self, text: &str) {
        let said = self.text.push_str(text);
        self.note(said);
    }

    /// Tells a value.
    pub fn show(&mut self, value: &impl Display) {
        let said = write!(self.text, "{value}");
        self.note(said);
    }

    /// Tells a text, and a number after it.
    pub fn count(&mut self, text: &str, number: u64) {
        self.say(text);
        self.show(&number);
    }

    /// Tells an octet in hexadecimal.
    pub fn hexadecimal(&mut self, octet: u8) {
        let said = write!(self.text, "{octet:02x}");
        self.note(said);
    }

    /// Tells that a call was done, or its fault.
    pub fn done<E: Display + Drop>(&mut self, done: Result<(), E>) {
        match done {
            Ok(()) => self.say("ok"),
            Err(fault) => self.show(&fault),
        }
    }

    /// Returns whether it is so.
    pub fn decide(&mut self, is_so: bool) {
        self.say(if is_so { "yes" } else { "no" });
    }

    /// Tells octets as one line of text: printable ones as they are, but for the backslash; CR and LF by their letters,
    /// and others in hexadecimal.
    pub fn escape(&mut self, octets: &[u8]) {
        for octet in octets {
            self.escape_octet(*octet);
        }
    }

    /// Tells an octet of such a line.
    fn escape_octet(&mut self, octet: u8) {
        match octet {
            b'\r' => self.say("\\r"),
            b'\n' => self.say("\\n"),
            b' '..=b'[' | b']'..=b'~' => self.show(&char::from(octet)),
            other => {
                let said = write!(self.text, "\\x{other:02X}");
                self.note(said);
            }
        }
    }

    /// Tells octets that are a text.
    pub fn read_text(&mut self, octets: &[u8]) {
        match str::from_utf8(octets) {
            Ok(text) => self.say(text),
            Err(_) => self.stop(RowsFault::Row),
        }
    }

    /// Notes that memory ran out.
    pub fn note(&mut self, said: Result<(), AllocError>) {
        if said.is_err() {
            self.stop(RowsFault::NoMemory);
        }
    }

    /// Notes a fault, if none was noted before.
    pub fn stop(&mut self, fault: RowsFault) {
        if self.fault.is_none() {
            self.fault = Some(fault);
        }
    }

    /// Notes the fault of another answer, if it has one.
    pub fn stop_as(&mut self, other: &Answer) {
        if let Some(fault) = other.fault {
            self.stop(fault);
        }
    }

    /// Returns whether the book has taken this. Lack of memory is noted.
    pub fn is_taken<T: Drop>(&mut self, taken: Result<T, BookFault>) -> bool {
        match taken {
            Ok(_) => true,
            Err(fault) => self.refuses(fault),
        }
    }

    /// Notes lack of memory, and answers that the book takes nothing.
    pub fn refuses(&mut self, fault: BookFault) -> bool {
        if fault == BookFault::NoMemory {
            self.stop(RowsFault::NoMemory);
        }
        false
    }

    /// Returns the number that a text writes.
    pub fn number_in(&mut self, text: &str) -> u64 {
        match text.parse::<u64>() {
            Ok(number) => number,
            Err(_) => {
                self.stop(RowsFault::Row);
                0
            }
        }
    }

    /// Adds an item.
    pub fn push<T: Drop>(&mut self, items: &mut Vec<T>, item: T) {
        if items.push(item).is_err() {
            self.stop(RowsFault::NoMemory);
        }
    }
}

/// Prints a row, and what is told of it after these words. It fails where something is missing.
pub fn print_told(rt: &impl Print, row: &str, between: &str, told: &Answer) -> Result<(), Fail> {
    if let Some(fault) = told.fault {
        return Err(Fail::new(fault.text()));
    }
    let text = told.text.as_str();
    Ok(println!(rt; "{row}{between}{text}")?)
}
