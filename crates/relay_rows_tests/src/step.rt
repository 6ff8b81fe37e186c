use crate::spelling::push_unescaped;
use std::alloc::{AllocError, Global};
use std::mem;

/// When something is to be written: after this many octets of the other side, this many octets are written in all.
#[derive(Clone, Copy)]
pub struct Mark {
    pub said: usize,
    pub written: usize,
}

/// An event of a scenario, and its outcome.
pub struct Step<'a> {
    alloc: Global,
    /// The line that names it.
    pub event: &'a str,
    /// What the other side says, a client or a next hop.
    pub said: Vec<u8>,
    /// What the node is to write to it.
    pub written: Vec<u8>,
    marks: Vec<Mark>,
    /// What else is to come.
    wanted: Vec<u8>,
    /// What may come in place of that.
    other: Option<Vec<u8>>,
}

// Written out, as everywhere here: where one is dropped, this is called.
impl Drop for Step<'_> {
    fn drop(self) {
        let Step {
            alloc: _,
            event: _,
            said: _said,
            written: _written,
            marks: _marks,
            wanted: _wanted,
            other: _other,
        } = self;
    }
}

impl<'a> Step<'a> {
    /// Returns the event that this line names, of which nothing is to come.
    pub fn new(alloc: Global, line: &'a str) -> Self {
        Step {
            alloc,
            event: line,
            said: Vec::new(alloc),
            written: Vec::new(alloc),
            marks: Vec::new(alloc),
            wanted: Vec::new(alloc),
            other: None,
        }
    }

    /// Takes a line that is after the event's, and says whether it is one: after `> ` stands a line of the other side,
    /// after `< ` one that is written to it, after `= ` a line of what else comes, each of the three with a period
    /// before the space where no CR LF ends it. After `or` stands what may come in place of what is before it.
    pub fn take(&mut self, word: &str, text: &[u8]) -> Result<bool, AllocError> {
        let end = if word.len() == 1 { "\r\n" } else { "" };
        match word {
            ">" | ">." => push_text(&mut self.said, text, end)?,
            "<" | "<." => self.take_written(text, end)?,
            "=" | "=." => push_text(&mut self.wanted, text, end)?,
            "or" => self.other = Some(mem::replace(&mut self.wanted, Vec::new(self.alloc))),
            _ => return Ok(false),
        }
        Ok(true)
    }

    /// Takes what is to be written after what is said so far.
    fn take_written(&mut self, text: &[u8], end: &str) -> Result<(), AllocError> {
        push_text(&mut self.written, text, end)?;
        self.marks.push(Mark {
            said: self.said.len(),
            written: self.written.len(),
        })?;
        Ok(())
    }

    /// Returns whether this may come of the event.
    pub fn allows(&self, came: &[u8]) -> bool {
        if came == self.wanted.as_slice() {
            return true;
        }
        match &self.other {
            Some(other) => came == other.as_slice(),
            None => false,
        }
    }

    /// Returns whether this is what is to be written after this many octets of the other side.
    pub fn has_written(&self, said: usize, written: &[u8]) -> bool {
        let mut length = 0;
        for mark in self.marks.as_slice() {
            if mark.said <= said {
                length = mark.written;
            }
        }
        written.len() == length && self.written.as_slice().starts_with(written)
    }
}

/// Puts what a text stands for, and this end, after what is in `out`.
fn push_text(out: &mut Vec<u8>, text: &[u8], end: &str) -> Result<(), AllocError> {
    push_unescaped(out, text)?;
    out.extend_from_slice(end.as_bytes())
}
