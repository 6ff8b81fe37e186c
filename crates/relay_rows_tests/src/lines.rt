//! The rows of lines, commands and replies, and what no row shows of lines, bodies and octets.
use crate::answer::{Answer, RowsFault};
use crate::play::Play;
use crate::row::{octets_in, play_in};
use crate::verdict::verdict_of;
use crate::words::Words;
use relay_body::BodyFault;
use relay_lines::{LINE_LIMIT, LineBuffer, LineFault, ReplyFault};
use relay_octets::{Octets, find_crlf};
use std::fmt::Display;
use std::mem;

const LINE_FAULTS: [LineFault; 5] = [
    LineFault::Unknown,
    LineFault::BadByte,
    LineFault::BadArgument,
    LineFault::NotOffered,
    LineFault::BadChunkSize,
];

const REPLY_FAULTS: [ReplyFault; 4] = [
    ReplyFault::BadLine,
    ReplyFault::MixedCodes,
    ReplyFault::TooLong,
    ReplyFault::NoMemory,
];

/// Plays a row of lines, `name|KIND|number|octets|wanted`, and tells its name and what it comes to.
pub fn tell_line_row(answer: &mut Answer, line: &str) {
    let mut fields = Words { rest: line };
    answer.say(fields.field());
    answer.say(": ");
    match play_in(answer, &mut fields) {
        Some(play) => tell_verdict(answer, &play, fields.field()),
        None => answer.say("no row"),
    }
}

/// Tells what a play comes to.
fn tell_verdict(answer: &mut Answer, play: &Play, wanted: &str) {
    let wanted = octets_in(answer, wanted);
    match verdict_of(answer.alloc, play, wanted.as_slice()) {
        Ok(verdict) => verdict.tell(answer),
        Err(_) => answer.stop(RowsFault::NoMemory),
    }
}

/// Tells the text of each fault, and the outcome of the calls that no row makes.
pub fn tell_calls(answer: &mut Answer) {
    for fault in LINE_FAULTS {
        tell_fault(answer, &fault);
    }
    for fault in REPLY_FAULTS {
        tell_fault(answer, &fault);
    }
    tell_fault(answer, &BodyFault::NoMemory);
    answer.say("octets: ");
    tell_octets(answer);
    answer.say("\na line of 10,000,000 octets: ");
    answer.say(hold_long_line());
}

/// Tells the line of a fault.
fn tell_fault(answer: &mut Answer, fault: &impl Display) {
    answer.say("fault: ");
    answer.show(fault);
    answer.say("\n");
}

/// Makes each call on octets once, and returns whether each answers as it is to.
fn tell_octets(answer: &mut Answer) {
    let mut octets = octets_in(answer, "a\\r");
    let pushed = octets.push_slice(b"\nb");
    answer.note(pushed);
    let are_there = has_text(&octets) && octets.len() == 4 && !octets.is_empty();
    let has_end = find_crlf(octets.as_slice()) == Some(1);
    let is_same = has_text(&Octets::new(octets.into_vec()));
    let is_none = octets_in(answer, "").is_empty();
    answer.say(if are_there && has_end && is_same && is_none {
        "as written down"
    } else {
        "differ"
    });
}

fn has_text(octets: &Octets) -> bool {
    octets.as_slice() == b"a\r\nb".as_slice()
}

/// Feeds a line of 1,000 pieces of 10,000 octets, and then a short one.
fn hold_long_line() -> &'static str {
    let mut buffer = LineBuffer::new();
    let piece = [b'x'; 10_000];
    for _ in 0..1_000 {
        if buffer.feed(&piece).is_some() {
            return "ends early";
        }
    }
    let is_ended = buffer.feed(b"\r\nQUIT\r\n") == Some(2);
    let is_kept = buffer.is_long() && buffer.octets() == &piece[..LINE_LIMIT];
    buffer.clear();
    let is_next = buffer.feed(b"QUIT\r\n") == Some(6);
    let is_short = !buffer.is_long() && buffer.octets() == b"QUIT".as_slice();
    if mem::size_of::<LineBuffer>() > LINE_LIMIT + 24 {
        return "takes more than its array";
    }
    if is_ended && is_kept && is_next && is_short {
        "takes no more than its array"
    } else {
        "differs"
    }
}
