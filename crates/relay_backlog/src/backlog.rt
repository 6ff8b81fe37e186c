ghost use Rattle.std.specs.Prelude.{◌≡◌, ◌<◌, ◌≤◌, ◌↔◌, IfOk, IsTrue, length, true};
ghost use Rattle.relay_backlog.specs.Waiting.{fits, line_length as length_of_line, lines_of, nothing};
ghost use Rattle.relay_backlog.specs.Waiting.{with_line, with_line_if, with_lines};

use memchr::memchr;
use std::alloc::{AllocError, Global};
use std::marker::Model;

/// How many octets wait at most.
const SIZE: usize = 1_048_576;

/// Whole lines that wait to be written, up to 1,048,576 octets in all. A line that doesn't fit is dropped and counted,
/// and so is each one after it, until what waits is taken.
pub struct Backlog {
    lines: Vec<u8>,
    dropped: u64,
}

// Written out, so that the proof of a caller that drops it stops at this function.
impl Drop for Backlog {
    fn drop(self) {
        let Backlog {
            lines: _lines,
            dropped: _,
        } = self;
    }
}

impl Model for Backlog {
    ghost use Rattle.std.specs.Prelude.{◌≤◌, ◌^◌, vec_capacity};
    ghost use Rattle.relay_backlog.specs.Waiting.{Waiting};

    ghost Value = { Waiting };

    ghost view = { λ backlog. record { lines = backlog.lines.items; dropped = backlog.dropped } };

    ghost invariant = { λ backlog. 2 ^ 20 ≤ vec_capacity backlog.lines };
}

impl Backlog {
    /// Nothing waits yet. All memory that lines take later is taken now; it fails if there is none.
    pub fn new(alloc: Global) -> Result<Self, AllocError>
        ensures { IfOk result (λ backlog. backlog ≡ nothing) }
    {
        let lines = Vec::with_capacity(alloc, SIZE)?;
        Ok(Backlog { lines, dropped: 0 })
    }

    /// Returns the lines that wait.
    pub fn lines(&self) -> &[u8]
        ensures { result.now ≡ self.now.lines }
    {
        self.lines.as_slice()
    }

    /// Returns how many lines were dropped after those that wait, up to 2^64 - 1.
    pub fn dropped(&self) -> u64
        ensures { result ≡ self.now.dropped }
    {
        self.dropped
    }

    /// Returns whether there is nothing to tell of.
    pub fn is_empty(&self) -> bool
        ensures { IsTrue result ↔ (self.now ≡ nothing) }
    {
        self.lines.is_empty() && self.dropped == 0
    }

    /// Takes a line in, or drops it. Allocates nothing.
    pub fn put(&mut self, line: &[u8])
        ensures { self.new ≡ with_line self.old line.now }
    {
        if self.fits(line) {
            self.keep(line);
        } else {
            self.dropped = self.dropped.saturating_add(1);
        }
    }

    /// Returns whether a line is taken in.
    fn fits(&self, line: &[u8]) -> bool
        ensures { result ≡ fits self.now line.now }
    {
        self.dropped == 0 && line.len() <= SIZE.saturating_sub(self.lines.len())
    }

    /// Takes a line in that fits.
    fn keep(&mut self, line: &[u8])
        requires { IsTrue (fits self.old line.now) }
        ensures { self.new ≡ with_line_if true self.old line.now }
    {
        let Ok(()) = self.lines.extend_from_slice(line) else {
            unreachable!()
        };
    }

    /// Forgets what waits.
    pub fn clear(&mut self)
        ensures { self.new ≡ nothing }
    {
        self.lines.clear();
        self.dropped = 0;
    }

    /// Takes lines in, each of which ends with its LF, or drops them: as `put` does with each in turn.
    pub fn put_all(&mut self, lines: &[u8])
        ensures { self.new ≡ with_lines self.old (lines_of lines.now) }
    {
        let mut rest = lines;
        while !rest.is_empty() {
            let (line, others) = rest.split_at(line_length(rest));
            self.put(line);
            rest = others;
        }
    }
}

/// Returns how many octets the first line has, with its LF; all if there is none.
fn line_length(octets: &[u8]) -> usize
    ensures line { result ≡ length_of_line octets.now }
    ensures some { 0 < length octets.now → 0 < result }
    ensures within { result ≤ length octets.now }
{
    match memchr(b'\n', octets) {
        Some(place) => place + 1,
        None => octets.len(),
    }
}
