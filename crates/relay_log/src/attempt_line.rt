//! The lines of the log for an attempt.
use crate::counters::{Counters, add};
use crate::head::Head;
use crate::hop_link::Loss;
use crate::report_kind::{kind_word, report_kind};
use crate::talk::Talk;
use relay_backlog::LogLine;
use relay_book::{Change, Outcome, PlaceStep, Ruling, Verdict, Withdrawal, decode_change};
use relay_node::Noted;
use std::alloc::Global;
use std::io::{self, Write};
use std::net::SocketAddrV4;

/// An attempt that has ended, or giving up places without a hop.
#[derive(Drop)]
pub struct Attempt<'a> {
    /// The number of the message.
    pub number: u64,
    /// The next hop, if there is one.
    pub hop: Option<&'a [u8]>,
    /// The address of the next hop, if it is known.
    pub at: Option<SocketAddrV4>,
    /// How many seconds ago the message was accepted, if that is known.
    pub age: Option<u64>,
    /// Why its connection failed, if it did.
    pub loss: Option<Loss>,
    /// Its outcome as the node has noted it, if there is one.
    pub noted: Option<Noted>,
}

/// What became of a recipient.
#[derive(Clone, Copy, PartialEq, Eq)]
enum Status {
    Sent,
    Deferred,
    Delayed,
    Failed,
    Expired,
    NoRoute,
    Returned,
    Discarded,
}

impl Status {
    /// Returns what a verdict made of a recipient, to which the node's note adds what became of one that may be tried
    /// again.
    fn of(verdict: &Verdict, step: Option<PlaceStep>) -> Self {
        match verdict {
            Verdict::Taken { .. } => Status::Sent,
            Verdict::Refused { .. } | Verdict::CantSend => Status::Failed,
            Verdict::NoRoute => Status::NoRoute,
            Verdict::Withdrawn(Withdrawal::Return) => Status::Returned,
            Verdict::Withdrawn(Withdrawal::Discard) => Status::Discarded,
            Verdict::Later => match step {
                Some(PlaceStep::Left(_)) => Status::Expired,
                Some(PlaceStep::Delayed) => Status::Delayed,
                None => Status::Deferred,
            },
        }
    }

    /// Returns the word of the log for it.
    fn word(self) -> &'static [u8] {
        match self {
            Status::Sent => b"sent",
            Status::Deferred => b"deferred",
            Status::Delayed => b"delayed",
            Status::Failed => b"failed",
            Status::Expired => b"expired",
            Status::NoRoute => b"no-route",
            Status::Returned => b"returned",
            Status::Discarded => b"discarded",
        }
    }

    /// Adds it to its count.
    fn count(self, counters: &mut Counters) {
        let count = match self {
            Status::Sent => &mut counters.sent,
            Status::Deferred | Status::Delayed => &mut counters.deferred,
            Status::Failed | Status::NoRoute | Status::Returned | Status::Discarded => {
                &mut counters.failed
            }
            Status::Expired => &mut counters.expired,
        };
        add(count, 1);
    }
}

/// Returns the outcome that a note has the record of. The note has the places that left or are late and not why, so the
/// record is read.
pub(crate) fn outcome_of(alloc: Global, noted: &Noted) -> Option<Outcome> {
    match decode_change(alloc, noted.octets.as_slice()) {
        Ok(Change::Outcome(outcome)) => Some(outcome),
        _ => None,
    }
}

/// Counts what an outcome says of each recipient, and the report that it queues.
pub(crate) fn count_outcome(noted: &Noted, outcome: &Outcome, counters: &mut Counters) {
    for ruling in outcome.rulings.as_slice() {
        Status::of(&ruling.verdict, step_of(noted, ruling.place)).count(counters);
    }
    if noted.report {
        add(&mut counters.reports, 1);
    }
}

/// Returns what became of a place, if the note tells it.
fn step_of(noted: &Noted, place: u8) -> Option<PlaceStep> {
    for (other, step) in noted.left.as_slice() {
        if *other == place {
            return Some(*step);
        }
    }
    None
}

/// Returns the line of an attempt whose outcome wasn't recorded: all of its recipients stay due.
pub(crate) fn unrecorded_line(head: Head, attempt: &Attempt<'_>) -> io::Result<LogLine> {
    let mut line = head.line(b"unrecorded")?;
    add_attempt(head, &mut line, attempt)?;
    if let Some(loss) = attempt.loss {
        line.octets(b"reason", loss.text())?;
    }
    Ok(line)
}

/// Returns the line of a recipient, whose ruling has this index among those of the attempt.
pub(crate) fn recipient_line(
    head: Head,
    attempt: &Attempt<'_>,
    talk: &Talk,
    noted: &Noted,
    rulings: &[Ruling],
    index: usize,
) -> io::Result<Option<LogLine>> {
    let Some(ruling) = rulings.get(index) else {
        return Ok(None);
    };
    let status = Status::of(&ruling.verdict, step_of(noted, ruling.place));
    let mut line = head.line(status.word())?;
    add_attempt(head, &mut line, attempt)?;
    match talk.recipient(ruling.place) {
        Some(path) => line.octets(b"to", path)?,
        None => line.number(b"place", u64::from(ruling.place), b"")?,
    }
    line.octets(b"status", status.word())?;
    let is_lost = attempt.loss.is_some();
    match reply_told(talk, &ruling.verdict, is_lost, rulings.len(), index) {
        Some((code, text)) => add_reply(head, &mut line, code, text)?,
        None => add_reason(head, &mut line, attempt, talk, &ruling.verdict)?,
    }
    Ok(Some(line))
}

/// Adds the message, the next hop, its address, and how long ago the message was accepted.
fn add_attempt(head: Head, line: &mut LogLine, attempt: &Attempt<'_>) -> io::Result<()> {
    line.number(b"message", attempt.number, b"")?;
    if let Some(hop) = attempt.hop {
        line.octets(b"hop", hop)?;
    }
    if let Some(at) = attempt.at {
        head.add_address(line, b"addr", at)?;
    }
    if let Some(age) = attempt.age {
        line.number(b"delay", age, b"s")?;
    }
    Ok(())
}

/// Returns the code and the text of the reply for the recipient of this index, among this many of the attempt, if there
/// is one.
fn reply_told<'a>(
    talk: &'a Talk,
    verdict: &'a Verdict,
    is_lost: bool,
    count: usize,
    index: usize,
) -> Option<(u16, &'a [u8])> {
    match (u8::try_from(count), u8::try_from(index)) {
        (Ok(count), Ok(index)) => talk.reply_told(verdict, is_lost, count, index),
        // An attempt has 100 recipients at most.
        _ => None,
    }
}

/// Adds why a recipient without a reply has its verdict. One may be tried again because the connection failed, or
/// because octets were no reply.
fn add_reason(
    head: Head,
    line: &mut LogLine,
    attempt: &Attempt<'_>,
    talk: &Talk,
    verdict: &Verdict,
) -> io::Result<()> {
    match verdict {
        Verdict::Refused { .. } | Verdict::Taken { .. } => {}
        Verdict::Later => add_failure(head, line, attempt, talk)?,
        Verdict::CantSend => line.octets(b"reason", b"CHUNKING not offered")?,
        Verdict::NoRoute => line.octets(b"reason", b"no route")?,
        Verdict::Withdrawn(_) => line.octets(b"reason", b"by the postmaster")?,
    }
    Ok(())
}

/// Adds what the connection failed for, or why octets were no reply.
fn add_failure(
    head: Head,
    line: &mut LogLine,
    attempt: &Attempt<'_>,
    talk: &Talk,
) -> io::Result<()> {
    if let Some(loss) = attempt.loss {
        line.octets(b"reason", loss.text())?;
        return Ok(());
    }
    if let Some(fault) = talk.fault() {
        let text = format!(in head.alloc; "{fault}")?;
        line.octets(b"reason", text.as_bytes())?;
    }
    Ok(())
}

/// Adds a reply of a next hop.
fn add_reply(head: Head, line: &mut LogLine, code: u16, text: &[u8]) -> io::Result<()> {
    let mut reply = Vec::new(head.alloc);
    write!(reply, "{code} ")?;
    reply.extend_from_slice(text)?;
    line.octets(b"reply", reply.as_slice())?;
    Ok(())
}

/// Returns the line of a report that an outcome has queued: its number, the message, whom it is for, and of what it
/// tells.
pub(crate) fn report_line(
    head: Head,
    attempt: &Attempt<'_>,
    talk: &Talk,
    noted: &Noted,
    outcome: &Outcome,
) -> io::Result<LogLine> {
    let mut line = head.line(b"report")?;
    line.number(b"message", noted.number, b"")?;
    line.number(b"of", attempt.number, b"")?;
    if !talk.reverse_path().is_empty() {
        line.octets(b"to", talk.reverse_path())?;
    }
    if let Some(kind) = report_kind(outcome.report.as_slice()) {
        line.octets(b"kind", kind_word(kind))?;
    }
    Ok(line)
}
