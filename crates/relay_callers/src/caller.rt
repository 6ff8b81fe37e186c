//! One caller: reads its request, and writes its answer, a piece at a time.
ghost use Rattle.std.specs.Prelude.{◌≡◌, ◌≤◌, ◌+◌, ◌-◌, ◌^◌, IfErr, IfOk, false, length, max, min};
ghost use Rattle.std.specs.Option.{option_copied};
ghost use Rattle.relay_callers.specs.Caller.{IsHeard, asked_in};
ghost use Rattle.relay_callers.specs.declared.caller.TheConstants.{CALL_TIME, MOST_WRITTEN};

use crate::question::{Heard, Question};
use crate::stream::CallerStream;
use std::alloc::{AllocError, Global};
use std::io::ErrorKind;
use std::mem;

/// The most octets that are read of a request.
pub const MOST_OCTETS: usize = 4_096;

/// The most octets that are written to one caller in one turn.
pub const MOST_WRITTEN: usize = 64 * 1024;

/// After how many milliseconds a caller is closed, unless it is kept for longer.
pub const CALL_TIME: u64 = 5_000;

/// The stage of a call.
#[derive(Drop)]
pub(crate) enum Stage<Q> {
    /// The request is being read.
    Reading,
    /// This was asked, and its answer is still to be made.
    Asking(Q),
    /// The request was taken, and the answer isn't there yet.
    Waiting,
    /// The answer is being written.
    Writing,
    /// The answer is written. What the caller still sends is read and dropped; otherwise the system would reset the
    /// connection, and the end of the answer might be lost.
    Leaving,
    /// The call is over.
    Over,
}

/// A caller.
pub(crate) struct Caller<S, Q> {
    alloc: Global,
    stream: S,
    /// What was read of the request.
    head: Vec<u8>,
    stage: Stage<Q>,
    answer: Vec<u8>,
    /// How many octets of the answer are written.
    written: usize,
    /// Whether a read may yield octets, or the end.
    reads: bool,
    /// Whether a write may take octets.
    writes: bool,
    /// The tick at which the connection is closed.
    deadline: u64,
    ghost short: { length head.items ≤ 4096 },
    ghost within: { written ≤ length answer.items },
}

// Written out, so that the proof of a caller that drops a caller stops at this function.
impl<S: Drop, Q: Drop> Drop for Caller<S, Q> {
    fn drop(self) {
        let Caller {
            alloc: _,
            stream: _stream,
            head: _head,
            stage: _stage,
            answer: _answer,
            written: _,
            reads: _,
            writes: _,
            deadline: _,
        } = self;
    }
}

impl<S: CallerStream, Q: Question> Caller<S, Q> {
    /// Makes a caller that came at this tick. Allocates nothing.
    pub(crate) fn new(alloc: Global, stream: S, tick: u64) -> Self
        ensures { result.deadline ≡ min (tick + CALL_TIME) (2 ^ 64 - 1) }
    {
        Caller {
            alloc,
            stream,
            head: Vec::new(alloc),
            stage: Stage::Reading,
            answer: Vec::new(alloc),
            written: 0,
            reads: true,
            writes: true,
            deadline: tick.saturating_add(CALL_TIME),
        }
    }

    /// Notes what the connection may be ready for, as the system reports it.
    pub(crate) fn note(&mut self, reads: bool, writes: bool)
        ensures { self.new.deadline ≡ self.old.deadline }
    {
        self.reads |= reads;
        self.writes |= writes;
    }

    /// Returns what it asks for, if the answer is still to be made.
    pub(crate) fn asked(&self) -> Option<&Q>
        ensures { option_copied result ≡ asked_in self.now.stage }
    {
        match &self.stage {
            Stage::Asking(question) => Some(question),
            Stage::Reading | Stage::Waiting | Stage::Writing | Stage::Leaving | Stage::Over => None,
        }
    }

    /// Takes what it asks for, if the answer is still to be made.
    pub(crate) fn take_request(&mut self) -> Option<Q>
        ensures { result ≡ asked_in self.old.stage }
    {
        match mem::replace(&mut self.stage, Stage::Waiting) {
            Stage::Asking(question) => Some(question),
            stage => {
                self.stage = stage;
                None
            }
        }
    }

    /// Keeps the connection until this tick at least.
    pub(crate) fn keep(&mut self, tick: u64)
        ensures { self.new.deadline ≡ max self.old.deadline tick }
    {
        self.deadline = self.deadline.max(tick);
    }

    /// Returns whether something can be done for it at once.
    pub(crate) fn is_ready(&self) -> bool {
        match &self.stage {
            Stage::Reading | Stage::Leaving => self.reads,
            Stage::Writing => self.writes,
            Stage::Waiting => false,
            Stage::Asking(_) | Stage::Over => true,
        }
    }

    /// Returns the tick at which the connection is closed.
    pub(crate) fn deadline(&self) -> u64
        ensures { result ≡ self.now.deadline }
    {
        self.deadline
    }

    /// Reads once or writes once. Returns whether the call goes on.
    pub(crate) fn serve(&mut self, tick: u64) -> bool
        ensures deadline { self.new.deadline ≡ self.old.deadline }
        ensures late { self.old.deadline ≤ tick → result ≡ false }
        ensures few { self.new.written ≤ self.old.written + MOST_WRITTEN }
    {
        match &self.stage {
            Stage::Reading => self.read(),
            Stage::Writing => self.write(),
            Stage::Leaving => self.drain(),
            Stage::Asking(_) | Stage::Waiting | Stage::Over => {}
        }
        !matches!(self.stage, Stage::Over) && tick < self.deadline
    }

    /// Sets the answer; if there was no memory for it, the call is over.
    pub(crate) fn answer(&mut self, answer: Result<Vec<u8>, AllocError>)
        ensures given { IfOk answer (λ octets. (self.new.answer ≡ octets) × (self.new.stage ≡ Stage.Writing)) }
        ensures none { IfErr answer (λ _. self.new.stage ≡ Stage.Over) }
        ensures head { self.new.head ≡ self.old.head }
        ensures deadline { self.new.deadline ≡ self.old.deadline }
        ensures few { self.new.written ≤ self.old.written }
    {
        match answer {
            Ok(octets) => {
                self.answer = octets;
                self.written = 0;
                self.stage = Stage::Writing;
            }
            Err(_) => self.stage = Stage::Over,
        }
    }

    /// Reads more of the request, and judges it.
    fn read(&mut self)
        ensures deadline { self.new.deadline ≡ self.old.deadline }
        ensures few { self.new.written ≤ self.old.written }
    {
        if !self.reads {
            return;
        }
        let mut block = [0; MOST_OCTETS];
        let room = MOST_OCTETS - self.head.len();
        match self.stream.read(&mut block[..room]) {
            Ok(0) => self.stage = Stage::Over,
            Ok(count) => self.hear(&block[..count]),
            Err(error) => self.note_read_fault(error.kind()),
        }
    }

    /// Adds octets to the request, and judges it.
    fn hear(&mut self, piece: &[u8])
        requires { length self.old.head.items + length piece.now ≤ 4096 }
        ensures heard { IsHeard Q.says self.new.head.items self.new.answer self.new.stage }
        ensures deadline { self.new.deadline ≡ self.old.deadline }
        ensures few { self.new.written ≤ self.old.written }
    {
        self.stage = Stage::Reading;
        if self.head.extend_from_slice(piece).is_err() {
            self.stage = Stage::Over;
            return;
        }
        match Q::judge(self.alloc, self.head.as_slice()) {
            Ok(Heard::More) => {}
            Ok(Heard::Asks(question)) => self.stage = Stage::Asking(question),
            Ok(Heard::Refused(answer)) => self.answer(Ok(answer)),
            Err(_) => self.stage = Stage::Over,
        }
    }

    /// Reads what the caller still sends, and drops it.
    fn drain(&mut self)
        ensures deadline { self.new.deadline ≡ self.old.deadline }
        ensures few { self.new.written ≤ self.old.written }
    {
        if !self.reads {
            return;
        }
        let mut block = [0; MOST_OCTETS];
        match self.stream.read(&mut block) {
            Ok(0) => self.stage = Stage::Over,
            Ok(_) => {}
            Err(error) => self.note_read_fault(error.kind()),
        }
    }

    fn note_read_fault(&mut self, kind: ErrorKind)
        ensures deadline { self.new.deadline ≡ self.old.deadline }
        ensures few { self.new.written ≤ self.old.written }
    {
        match kind {
            ErrorKind::WouldBlock => self.reads = false,
            ErrorKind::Interrupted => {}
            _ => self.stage = Stage::Over,
        }
    }

    /// Writes the next octets of the answer, at most 64 KiB.
    fn write(&mut self)
        ensures deadline { self.new.deadline ≡ self.old.deadline }
        ensures few { self.new.written ≤ self.old.written + MOST_WRITTEN }
    {
        if !self.writes {
            return;
        }
        let end = self
            .answer
            .len()
            .min(self.written.saturating_add(MOST_WRITTEN));
        match self.stream.write(&self.answer[self.written..end]) {
            Ok(0) => self.stage = Stage::Over,
            Ok(count) => self.wrote(count),
            Err(error) => match error.kind() {
                ErrorKind::WouldBlock => self.writes = false,
                ErrorKind::Interrupted => {}
                _ => self.stage = Stage::Over,
            },
        }
    }

    /// Counts octets of the answer as written.
    fn wrote(&mut self, count: usize)
        requires { self.old.written + count ≤ length self.old.answer.items }
        ensures deadline { self.new.deadline ≡ self.old.deadline }
        ensures few { self.new.written ≡ self.old.written + count }
    {
        self.written += count;
        if self.written == self.answer.len() {
            self.stream.shut_down();
            self.stage = Stage::Leaving;
        }
    }
}
