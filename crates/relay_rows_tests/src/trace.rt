//! The outcome of a row of trace. `DATE` is before a time, whose date is written; the dates of the rows come from the
//! calendar of another program, `date -u -d @SECONDS`. `MOMENT` is before seconds that may be one, `STAMP` before what
//! a time stamp line says, `HEADER` before a text, of which the `Received:` fields and the place of the first empty
//! line are told, and `HUNDRED` before a text that is taken a hundred times.
use crate::answer::{Answer, RowsFault};
use crate::row::octets_in;
use crate::words::Words;
use relay_trace::{
    LAST_SECOND, Moment, Protocol, TimeStamp, TraceFault, date_text, header_end, received_count,
    received_line,
};

/// Tells the outcome of a row.
pub fn tell_trace(answer: &mut Answer, given: &str) {
    let (word, rest) = given.split_once(' ').unwrap_or((given, ""));
    match word {
        "DATE" => tell_date(answer, rest),
        "MOMENT" => tell_moment(answer, rest),
        "STAMP" => tell_stamp(answer, rest),
        "HEADER" => tell_header(answer, rest, 1),
        "HUNDRED" => tell_header(answer, rest, 100),
        "LAST" => answer.count("", LAST_SECOND),
        "FAULT" if rest == "OutOfRange" => answer.show(&TraceFault::OutOfRange),
        "FAULT" => answer.show(&TraceFault::NoMemory),
        _ => answer.say("no row"),
    }
}

/// The date of a time.
fn tell_date(answer: &mut Answer, seconds: &str) {
    match Moment::new(answer.number_in(seconds)) {
        Ok(moment) => tell_date_of(answer, moment),
        Err(_) => answer.stop(RowsFault::Row),
    }
}

fn tell_date_of(answer: &mut Answer, moment: Moment) {
    match date_text(answer.alloc, moment) {
        Ok(date) => answer.read_text(date.as_slice()),
        Err(_) => answer.stop(RowsFault::NoMemory),
    }
}

/// The seconds of a time, or why there is none.
fn tell_moment(answer: &mut Answer, seconds: &str) {
    match Moment::new(answer.number_in(seconds)) {
        Ok(moment) => answer.count("", moment.seconds()),
        Err(fault) => answer.show(&fault),
    }
}

/// The time stamp line of what these words say.
fn tell_stamp(answer: &mut Answer, words: &str) {
    match stamp_of(words) {
        Some(stamp) => match received_line(answer.alloc, &stamp) {
            Ok(line) => answer.escape(line.as_slice()),
            Err(_) => answer.stop(RowsFault::NoMemory),
        },
        None => answer.say("no stamp"),
    }
}

/// Client, its address, host, protocol, number and time, with a space between each two.
fn stamp_of(words: &str) -> Option<TimeStamp<'_>> {
    let mut words = Words { rest: words };
    Some(TimeStamp {
        client: words.word().as_bytes(),
        peer: peer_of(words.word()),
        host: words.word().as_bytes(),
        protocol: protocol_of(words.word()),
        number: words.number(),
        accepted: Moment::new(words.number()).ok()?,
    })
}

fn peer_of(text: &str) -> [u8; 4] {
    let mut peer = [0; 4];
    let mut numbers = text.split('.');
    for octet in &mut peer {
        *octet = numbers.next().unwrap_or("").parse::<u8>().unwrap_or(0);
    }
    peer
}

fn protocol_of(word: &str) -> Protocol {
    if word == "ESMTP" {
        Protocol::Esmtp
    } else {
        Protocol::Smtp
    }
}

/// How many fields of a text, taken this many times, are `Received:`, and where its first empty line stands.
fn tell_header(answer: &mut Answer, written: &str, times: u32) {
    let fields = octets_in(answer, written);
    let mut header: Vec<u8> = Vec::new(answer.alloc);
    for _ in 0..times {
        let taken = header.extend_from_slice(fields.as_slice());
        answer.note(taken);
    }
    answer.count("", received_count(header.as_slice()) as u64);
    answer.count(" ", header_end(header.as_slice()) as u64);
}
