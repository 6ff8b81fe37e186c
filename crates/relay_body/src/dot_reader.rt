ghost use Rattle.std.specs.Prelude.{◌≡◌, ◌-◌, ◌<◌, ◌≤◌, ◌↔◌, ℕ, List, [], ◌∷◌, true, false, length, slice_index, take};
ghost use Rattle.std.specs.Prelude.{Ok, IfOk, OnOk, OnErr, IsErr, IsTrue, MatchBool};
ghost use Rattle.relay_body.specs.DotSteps.{IsOpen, RunsOn, phase_after};
ghost use Rattle.relay_body.specs.DotText.{ends_in_line_end};
ghost use Rattle.relay_body.specs.Gathering.{IsWithin, gathered_of};
ghost use Rattle.relay_body.specs.DotReading.{IsReading, IsDone, HasFailed, HasRead, Feeds, Uses, limit_of};

use crate::dot_writer::ends_in_line_end;
use crate::gathered::{BodyFault, Gathered, Gathering};
use crate::run::run_len;
use std::alloc::{AllocError, Global};

/// Where in a line of mail text a reader is.
#[derive(Clone, Copy, PartialEq, Eq)]
pub(crate) enum Phase {
    LineStart,
    /// A period at the start of the line, and no more.
    Period,
    /// That period and a CR. An LF now is the end of mail data, so the CR is held back.
    PeriodCr,
    /// Within a line that isn't the end of mail data.
    Within,
    /// The same, after a CR.
    WithinCr,
    Done,
    Failed,
}

impl Phase {
    /// Returns the phase within a line after this octet.
    pub(crate) fn after(octet: u8) -> Phase
        ensures { result ≡ phase_after octet }
    {
        match octet {
            b'\r' => Phase::WithinCr,
            _ => Phase::Within,
        }
    }

    /// Returns the phase after a run that isn't empty.
    fn after_run(run: &[u8]) -> Phase
        requires { 0 < length run.now }
        ensures line { ends_in_line_end run.now ≡ true → result ≡ Phase.LineStart }
        ensures within { ends_in_line_end run.now ≡ false
            → result ≡ phase_after (slice_index run.now (length run.now - 1)) }
        ensures phase { IsOpen result }
    {
        if ends_in_line_end(run) {
            Phase::LineStart
        } else {
            Phase::after(run[run.len() - 1])
        }
    }
}

/// What a feed has done.
#[derive(Clone, Copy, PartialEq, Eq)]
pub struct DotCut {
    /// How many octets of the piece belong to the text.
    pub used: usize,
    /// Whether the text ends with them.
    pub done: bool,
}

impl DotCut {
    /// Returns a cut after this many octets, with which no text ends.
    fn open(used: usize) -> DotCut
        ensures { result ≡ record { used = used; done = false } }
    {
        DotCut { used, done: false }
    }
}

/// A reader of one dot text, which may come in any pieces (RFC 5321, section 4.5.2).
pub struct DotReader {
    pub(crate) phase: Phase,
    pub(crate) gathering: Gathering,
}

// Written out, so that the proof of a caller that drops a reader stops at this function.
impl Drop for DotReader {
    fn drop(self) {
        let DotReader {
            phase: _,
            gathering: _gathering,
        } = self;
    }
}

impl DotReader {
    /// Makes a reader of one text. `limit` is the most octets of its content, without the periods that are removed.
    /// Allocates nothing.
    pub fn new(alloc: Global, limit: usize) -> Self
        ensures { IsReading result limit [] }
    {
        DotReader {
            phase: Phase::LineStart,
            gathering: Gathering::new(alloc, limit),
        }
    }

    /// Returns whether a text has been used whole.
    pub fn is_done(&self) -> bool
        ensures { IsTrue result ↔ IsDone self.now }
    {
        self.phase == Phase::Done
    }

    /// Uses the next piece up to the end of the text. If the content passes the limit, it is dropped, and the rest of
    /// the text is discarded. If memory runs out, this call fails and every later one.
    pub fn feed(&mut self, piece: &[u8]) -> Result<DotCut, BodyFault>
        ensures feeds { IfOk result (Feeds self.old self.new piece.now) }
        ensures within { IfOk result (λ cut. cut.used ≤ length piece.now) }
        ensures progress { 0 < length piece.now → ¬ IsDone self.old
            → IfOk result (λ cut. 0 < cut.used) }
        ensures after { IsDone self.old
            → (result ≡ Ok (record { used = 0; done = true })) × (self.new ≡ self.old) }
        ensures failed { OnErr result (HasFailed self.new) }
        ensures again { HasFailed self.old → IsErr result }
        ensures limit { limit_of self.new ≡ limit_of self.old }
    {
        match self.phase {
            Phase::Failed => Err(BodyFault::NoMemory),
            Phase::Done => Ok(DotCut {
                used: 0,
                done: true,
            }),
            Phase::LineStart | Phase::Period | Phase::PeriodCr | Phase::Within | Phase::WithinCr =>
                self.feed_open(piece),
        }
    }

    /// Returns the content of the text, or that it was too large.
    pub fn finish(self) -> Gathered
        requires { IsDone self }
        ensures content { (limit : ℕ) (text content : List ℕ)
            → HasRead self limit text content → result ≡ gathered_of limit content }
        ensures within { IsWithin (limit_of self) result }
    {
        let DotReader {
            phase: _,
            gathering,
        } = self;
        gathering.finish()
    }

    /// Reads on, and fails if memory runs out.
    fn feed_open(&mut self, piece: &[u8]) -> Result<DotCut, BodyFault>
        requires { IsOpen self.old.phase }
        ensures feeds { IfOk result (Feeds self.old self.new piece.now) }
        ensures within { IfOk result (λ cut. cut.used ≤ length piece.now) }
        ensures progress { 0 < length piece.now → IfOk result (λ cut. 0 < cut.used) }
        ensures failed { OnErr result (HasFailed self.new) }
        ensures limit { limit_of self.new ≡ limit_of self.old }
    {
        match self.read(piece) {
            Ok(cut) => Ok(cut),
            Err(fault) => {
                self.phase = Phase::Failed;
                Err(fault)
            }
        }
    }

    /// Uses the piece up to the end of the text.
    fn read(&mut self, piece: &[u8]) -> Result<DotCut, BodyFault>
        requires { IsOpen self.old.phase }
        ensures feeds { IfOk result (Feeds self.old self.new piece.now) }
        ensures within { IfOk result (λ cut. cut.used ≤ length piece.now) }
        ensures progress { 0 < length piece.now → IfOk result (λ cut. 0 < cut.used) }
        ensures limit { limit_of self.new ≡ limit_of self.old }
    {
        let mut used = 0;
        while used < piece.len() {
            let cut = self.step(&piece[used..])?;
            used += cut.used;
            if cut.done {
                return Ok(DotCut { used, done: true });
            }
        }
        Ok(DotCut::open(used))
    }

    /// Uses one octet, or a run of octets within a line.
    fn step(&mut self, rest: &[u8]) -> Result<DotCut, BodyFault>
        requires phase { IsOpen self.old.phase }
        requires some { 0 < length rest.now }
        ensures uses { IfOk result
            (λ cut. Uses self.old self.new (take cut.used rest.now) cut.done) }
        ensures within { IfOk result (λ cut. (0 < cut.used) × (cut.used ≤ length rest.now)) }
        ensures done { IfOk result
            (λ cut. MatchBool cut.done (IsDone self.new) (IsOpen self.new.phase)) }
        ensures limit { limit_of self.new ≡ limit_of self.old }
    {
        match self.phase {
            Phase::LineStart => Ok(DotCut::open(self.begin_line(rest)?)),
            Phase::Period => {
                self.after_period(rest[0])?;
                Ok(DotCut::open(1))
            }
            Phase::PeriodCr => {
                let done = self.after_period_cr(rest[0])?;
                Ok(DotCut { used: 1, done })
            }
            Phase::Within => Ok(DotCut::open(self.take_run(rest)?)),
            Phase::WithinCr => {
                self.after_cr(rest[0])?;
                Ok(DotCut::open(1))
            }
            Phase::Done | Phase::Failed => unreachable!(),
        }
    }

    /// Uses the period that a line begins with, or the line's first run.
    fn begin_line(&mut self, rest: &[u8]) -> Result<usize, AllocError>
        requires start { self.old.phase ≡ Phase.LineStart }
        requires some { 0 < length rest.now }
        ensures uses { IfOk result (λ used. Uses self.old self.new (take used rest.now) false) }
        ensures within { IfOk result (λ used. (0 < used) × (used ≤ length rest.now)) }
        ensures phase { OnOk result (IsOpen self.new.phase) }
        ensures limit { limit_of self.new ≡ limit_of self.old }
    {
        if rest[0] == b'.' {
            self.phase = Phase::Period;
            Ok(1)
        } else {
            self.take_run(rest)
        }
    }

    /// Uses the octets up to the next line that begins with a period, or all. They are copied as one run.
    fn take_run(&mut self, rest: &[u8]) -> Result<usize, AllocError>
        requires runs { RunsOn self.old.phase rest.now }
        requires some { 0 < length rest.now }
        ensures uses { IfOk result (λ used. Uses self.old self.new (take used rest.now) false) }
        ensures within { IfOk result (λ used. (0 < used) × (used ≤ length rest.now)) }
        ensures phase { OnOk result (IsOpen self.new.phase) }
        ensures limit { limit_of self.new ≡ limit_of self.old }
    {
        let used = run_len(rest);
        let run = &rest[..used];
        self.gathering.keep(run)?;
        self.phase = Phase::after_run(run);
        Ok(used)
    }

    /// Uses the octet after a period that a line begins with.
    fn after_period(&mut self, octet: u8) -> Result<(), AllocError>
        requires { self.old.phase ≡ Phase.Period }
        ensures uses { OnOk result (Uses self.old self.new (octet ∷ []) false) }
        ensures phase { OnOk result (IsOpen self.new.phase) }
        ensures limit { limit_of self.new ≡ limit_of self.old }
    {
        if octet == b'\r' {
            self.phase = Phase::PeriodCr;
            Ok(())
        } else {
            self.gathering.keep(&[octet])?;
            self.phase = Phase::Within;
            Ok(())
        }
    }

    /// Uses the octet after a period and a CR that a line begins with. The CR was held back, and is content unless an
    /// LF follows.
    fn after_period_cr(&mut self, octet: u8) -> Result<bool, AllocError>
        requires { self.old.phase ≡ Phase.PeriodCr }
        ensures uses { IfOk result (λ done. Uses self.old self.new (octet ∷ []) done) }
        ensures done { IfOk result
            (λ done. MatchBool done (IsDone self.new) (IsOpen self.new.phase)) }
        ensures limit { limit_of self.new ≡ limit_of self.old }
    {
        if octet == b'\n' {
            self.phase = Phase::Done;
            Ok(true)
        } else {
            self.gathering.keep(&[b'\r', octet])?;
            self.phase = Phase::after(octet);
            Ok(false)
        }
    }

    /// Uses the octet after a CR within a line.
    fn after_cr(&mut self, octet: u8) -> Result<(), AllocError>
        requires { self.old.phase ≡ Phase.WithinCr }
        ensures uses { OnOk result (Uses self.old self.new (octet ∷ []) false) }
        ensures phase { OnOk result (IsOpen self.new.phase) }
        ensures limit { limit_of self.new ≡ limit_of self.old }
    {
        self.gathering.keep(&[octet])?;
        if octet == b'\n' {
            self.phase = Phase::LineStart;
            return Ok(());
        }
        self.phase = Phase::after(octet);
        Ok(())
    }
}
