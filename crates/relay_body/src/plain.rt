//! A second reader and writer of dot texts, octet by octet, with the contracts of the fast ones, for tests that run
//! both.
ghost use Rattle.std.specs.Prelude.{◌≡◌, ◌<◌, ◌≤◌, ◌↔◌, ◌++◌, ℕ, List, [], ◌∷◌, true, false, Ok, length, IfOk, OnErr};
ghost use Rattle.std.specs.Prelude.{OnOk, IsErr, IsTrue, MatchBool, if◌then◌else◌};
ghost use Rattle.relay_body.specs.DotSteps.{IsOpen, StandsForItself};
ghost use Rattle.relay_body.specs.DotText.{WritesDotText, ends_in_line_end, with_period};
ghost use Rattle.relay_body.specs.Gathering.{IsWithin, gathered_of};
ghost use Rattle.relay_body.specs.DotReading.{IsReading, IsDone, HasFailed, HasRead, Feeds, Uses, limit_of};

use crate::dot_reader::{self, DotCut, Phase};
use crate::gathered::{BodyFault, Gathered};
use std::alloc::{AllocError, Global};
use std::marker::Model;

/// A reader of one dot text, which may come in any pieces (RFC 5321, section 4.5.2).
#[derive(Drop)]
pub struct DotReader {
    reader: dot_reader::DotReader,
}

impl Model for DotReader {
    ghost use Rattle.relay_body.specs.declared.dot_reader.DotReader.{DotReader as Reader};

    ghost Value = { Reader };

    ghost view = { λ plain. plain.reader };
}

impl DotReader {
    /// Makes a reader of one text. The limit is the greatest length of its content in octets, counted without the
    /// periods that are taken off. Allocates nothing.
    pub fn new(alloc: Global, limit: usize) -> Self
        ensures { IsReading result limit [] }
    {
        DotReader {
            reader: dot_reader::DotReader::new(alloc, limit),
        }
    }

    /// Returns whether a text has been used whole.
    pub fn is_done(&self) -> bool
        ensures { IsTrue result ↔ IsDone self.now }
    {
        self.reader.is_done()
    }

    /// Uses the next piece up to the end of the text, octet by octet. If the content passes the limit, it is dropped,
    /// and the rest of the text is discarded. If memory runs out, this call fails and every later one.
    pub fn feed(&mut self, piece: &[u8]) -> Result<DotCut, BodyFault>
        ensures feeds { IfOk result (Feeds self.old self.new piece.now) }
        ensures within { IfOk result (λ cut. cut.used ≤ length piece.now) }
        ensures progress { 0 < length piece.now → ¬ IsDone self.old
            → IfOk result (λ cut. 0 < cut.used) }
        ensures after { IsDone self.old
            → (result ≡ Ok (record { used = 0; done = true })) × (self.new ≡ self.old) }
        ensures failed { OnErr result (HasFailed self.new) }
        ensures again { HasFailed self.old → IsErr result }
        ensures limit { limit_of self.new ≡ limit_of self.old }
    {
        feed(&mut self.reader, piece)
    }

    /// Returns the content of the text, or that it was too large. Allocates nothing.
    pub fn finish(self) -> Gathered
        requires { IsDone self }
        ensures content { (limit : ℕ) (text content : List ℕ)
            → HasRead self limit text content → result ≡ gathered_of limit content }
        ensures within { IsWithin (limit_of self) result }
    {
        let DotReader { reader } = self;
        reader.finish()
    }
}

/// Uses the next piece up to the end of the text.
fn feed(reader: &mut dot_reader::DotReader, piece: &[u8]) -> Result<DotCut, BodyFault>
    ensures feeds { IfOk result (Feeds reader.old reader.new piece.now) }
    ensures within { IfOk result (λ cut. cut.used ≤ length piece.now) }
    ensures progress { 0 < length piece.now → ¬ IsDone reader.old
        → IfOk result (λ cut. 0 < cut.used) }
    ensures after { IsDone reader.old
        → (result ≡ Ok (record { used = 0; done = true })) × (reader.new ≡ reader.old) }
    ensures failed { OnErr result (HasFailed reader.new) }
    ensures again { HasFailed reader.old → IsErr result }
    ensures limit { limit_of reader.new ≡ limit_of reader.old }
{
    match reader.phase {
        Phase::Failed => Err(BodyFault::NoMemory),
        Phase::Done => Ok(DotCut {
            used: 0,
            done: true,
        }),
        Phase::LineStart | Phase::Period | Phase::PeriodCr | Phase::Within | Phase::WithinCr =>
            feed_open(reader, piece),
    }
}

/// Reads on, and fails if memory runs out.
fn feed_open(reader: &mut dot_reader::DotReader, piece: &[u8]) -> Result<DotCut, BodyFault>
    requires { IsOpen reader.old.phase }
    ensures feeds { IfOk result (Feeds reader.old reader.new piece.now) }
    ensures within { IfOk result (λ cut. cut.used ≤ length piece.now) }
    ensures progress { 0 < length piece.now → IfOk result (λ cut. 0 < cut.used) }
    ensures failed { OnErr result (HasFailed reader.new) }
    ensures limit { limit_of reader.new ≡ limit_of reader.old }
{
    match read(reader, piece) {
        Ok(cut) => Ok(cut),
        Err(fault) => {
            reader.phase = Phase::Failed;
            Err(fault)
        }
    }
}

/// Uses the piece up to the end of the text, octet by octet.
fn read(reader: &mut dot_reader::DotReader, piece: &[u8]) -> Result<DotCut, BodyFault>
    requires { IsOpen reader.old.phase }
    ensures feeds { IfOk result (Feeds reader.old reader.new piece.now) }
    ensures within { IfOk result (λ cut. cut.used ≤ length piece.now) }
    ensures progress { 0 < length piece.now → IfOk result (λ cut. 0 < cut.used) }
    ensures limit { limit_of reader.new ≡ limit_of reader.old }
{
    let mut used = 0;
    while used < piece.len() {
        let done = step(reader, piece[used])?;
        used += 1;
        if done {
            return Ok(DotCut { used, done: true });
        }
    }
    Ok(DotCut { used, done: false })
}

/// Uses one octet, and returns whether the text ends with it.
fn step(reader: &mut dot_reader::DotReader, octet: u8) -> Result<bool, AllocError>
    requires { IsOpen reader.old.phase }
    ensures uses { IfOk result (λ done. Uses reader.old reader.new (octet ∷ []) done) }
    ensures done { IfOk result
        (λ done. MatchBool done (IsDone reader.new) (IsOpen reader.new.phase)) }
    ensures limit { limit_of reader.new ≡ limit_of reader.old }
{
    match reader.phase {
        Phase::LineStart if octet == b'.' => {
            reader.phase = Phase::Period;
            Ok(false)
        }
        Phase::Period if octet == b'\r' => {
            reader.phase = Phase::PeriodCr;
            Ok(false)
        }
        Phase::PeriodCr if octet == b'\n' => {
            reader.phase = Phase::Done;
            Ok(true)
        }
        Phase::PeriodCr => {
            reader.gathering.keep(&[b'\r', octet])?;
            reader.phase = Phase::after(octet);
            Ok(false)
        }
        Phase::WithinCr if octet == b'\n' => {
            reader.gathering.keep(&[octet])?;
            reader.phase = Phase::LineStart;
            Ok(false)
        }
        Phase::LineStart | Phase::Period | Phase::Within | Phase::WithinCr => {
            stay(reader, octet)?;
            Ok(false)
        }
        Phase::Done | Phase::Failed => unreachable!(),
    }
}

/// Uses an octet that is content, and with which the line goes on.
fn stay(reader: &mut dot_reader::DotReader, octet: u8) -> Result<(), AllocError>
    requires { StandsForItself reader.old.phase octet }
    ensures uses { OnOk result (Uses reader.old reader.new (octet ∷ []) false) }
    ensures phase { OnOk result (IsOpen reader.new.phase) }
    ensures limit { limit_of reader.new ≡ limit_of reader.old }
{
    reader.gathering.keep(&[octet])?;
    reader.phase = Phase::after(octet);
    Ok(())
}

/// Returns the dot text of a content (RFC 5321, section 4.5.2), octet by octet. Fails if memory runs out.
pub fn write_dots(alloc: Global, content: &[u8]) -> Result<Vec<u8>, AllocError>
    requires { IsTrue (ends_in_line_end content.now) }
    ensures { IfOk result (λ text. WritesDotText content.now text.items) }
{
    let mut text = Vec::new(alloc);
    let mut begins_line = true;
    let mut after_cr = false;
    let mut place = 0;
    while place < content.len() {
        let octet = content[place];
        write_octet(&mut text, begins_line, octet)?;
        begins_line = after_cr && octet == b'\n';
        after_cr = octet == b'\r';
        place += 1;
    }
    text.extend_from_slice(b".\r\n")?;
    Ok(text)
}

/// Writes an octet, and a period before it if it is a period that begins a line.
fn write_octet(text: &mut Vec<u8>, begins_line: bool, octet: u8) -> Result<(), AllocError>
    ensures { OnOk result (text.new.items ≡ text.old.items
        ++ (if begins_line then with_period (octet ∷ []) else octet ∷ [])) }
{
    if begins_line && octet == b'.' {
        text.push(b'.')?;
    }
    text.push(octet)?;
    Ok(())
}
