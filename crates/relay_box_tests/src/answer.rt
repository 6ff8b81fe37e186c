//! The lines of an answer.
use std::alloc::Global;
use std::io::{self, Write};

/// The digits of a hexadecimal number.
const DIGITS: &[u8; 16] = b"0123456789abcdef";

/// Lines that are to be written.
pub struct Answer {
    text: Vec<u8>,
}

// Written out, so that the proof of a caller that drops it stops at this function.
impl Drop for Answer {
    fn drop(self) {
        let Answer { text: _text } = self;
    }
}

impl Answer {
    /// Returns an answer without lines.
    pub fn new(alloc: Global) -> Self {
        Answer {
            text: Vec::new(alloc),
        }
    }

    /// Returns its lines.
    pub fn as_slice(&self) -> &[u8] {
        self.text.as_slice()
    }

    /// Drops its lines.
    pub fn clear(&mut self) {
        self.text.clear();
    }

    /// Adds a line of a word.
    pub fn push_word(&mut self, word: &str) -> io::Result<()> {
        writeln!(self.text, "{word}")
    }

    /// Adds a line of a word and a number.
    pub fn push_number(&mut self, word: &str, number: u64) -> io::Result<()> {
        writeln!(self.text, "{word} {number}")
    }

    /// Adds a line of a word and two numbers.
    pub fn push_numbers(&mut self, word: &str, first: u64, second: u64) -> io::Result<()> {
        writeln!(self.text, "{word} {first} {second}")
    }

    /// Adds a line of a word and a text.
    pub fn push_text<T: std::fmt::Display>(&mut self, word: &str, text: &T) -> io::Result<()> {
        writeln!(self.text, "{word} {text}")
    }

    /// Adds a line of a word, a number and a text.
    pub fn push_named<T: std::fmt::Display>(
        &mut self,
        word: &str,
        number: u64,
        text: &T,
    ) -> io::Result<()> {
        writeln!(self.text, "{word} {number} {text}")
    }

    /// Adds a line of a word and raw octets.
    pub fn push_line(&mut self, word: &str, line: &[u8]) -> io::Result<()> {
        write!(self.text, "{word} ")?;
        self.text.extend_from_slice(line)?;
        self.text.extend_from_slice(b"\n")?;
        Ok(())
    }

    /// Adds a line `answer` of the octets of an answer of the control socket, in hexadecimal.
    pub fn push_answer(&mut self, octets: &[u8]) -> io::Result<()> {
        write!(self.text, "answer ")?;
        self.push_digits(octets)
    }

    /// Adds a line of a word, numbers and octets in hexadecimal.
    pub fn push_octets(&mut self, words: &str, number: u64, octets: &[u8]) -> io::Result<()> {
        write!(self.text, "{words} {number} ")?;
        self.push_digits(octets)
    }

    /// Adds a line of a word, two numbers and octets in hexadecimal.
    pub fn push_placed(
        &mut self,
        word: &str,
        first: u64,
        second: u64,
        octets: &[u8],
    ) -> io::Result<()> {
        write!(self.text, "{word} {first} {second} ")?;
        self.push_digits(octets)
    }

    /// Adds octets in hexadecimal, and ends the line.
    fn push_digits(&mut self, octets: &[u8]) -> io::Result<()> {
        if octets.is_empty() {
            self.text.extend_from_slice(b"-")?;
        }
        for octet in octets {
            let high = DIGITS[usize::from(octet >> 4)];
            let low = DIGITS[usize::from(octet & 15)];
            self.text.extend_from_slice(&[high, low])?;
        }
        self.text.extend_from_slice(b"\n")?;
        Ok(())
    }
}
