use crate::answer::Answer;
use crate::bench::mail::envelope_of;
use relay_body::ends_in_line_end;
use relay_client::{Attempt, MailObject};
use relay_envelope::Envelope;
use std::alloc::{AllocError, Global};
use std::mem;
use std::test::Fail;

/// What a server says to an attempt that sends the content by DATA.
const BY_DATA: [&[u8]; 6] = [
    GREETING,
    OFFERS,
    SENDER_OK,
    b"250 recipient OK\r\n",
    b"354 end with a line of one period\r\n",
    b"250 queued as 1\r\n",
];

/// What it says to one that sends it by BDAT.
const BY_CHUNK: [&[u8]; 5] = [
    GREETING,
    OFFERS,
    SENDER_OK,
    b"250 recipient OK\r\n",
    b"250 queued as 1\r\n",
];

const GREETING: &[u8] = b"220 next.example ESMTP\r\n";

const OFFERS: &[u8] = b"250-next.example\r\n250-PIPELINING\r\n250-CHUNKING\r\n250 DSN\r\n";

const SENDER_OK: &[u8] = b"250 sender OK\r\n";

/// How many places an attempt that waits has.
const PLACES: u8 = 100;

/// How many octets an attempt may take by itself.
const HELD_LIMIT: usize = 4096;

/// Hands a text on this many times: by DATA where it ends in CR LF, and else by BDAT.
pub fn hand_texts_on(told: &mut Answer, times: u64, text: &[u8]) -> Result<(), Fail> {
    let envelope = envelope_of(told.alloc, 1)?;
    let mut octets: u64 = 0;
    for _ in 0..times {
        octets = octets.saturating_add(hand_on(told.alloc, &envelope, text)?);
    }
    told.count("", octets);
    told.count(" octets written, in ", times);
    told.say(" times");
    Ok(())
}

/// Hands the text on once, and gives how many octets were written.
fn hand_on(alloc: Global, envelope: &Envelope, stored_text: &[u8]) -> Result<u64, AllocError> {
    let mail = MailObject {
        envelope,
        stored_text,
    };
    let replies: &[&[u8]] = if ends_in_line_end(stored_text) {
        &BY_DATA
    } else {
        &BY_CHUNK
    };
    let mut attempt = attempt_of(alloc, 1)?;
    let mut octets: u64 = 0;
    for reply in replies {
        octets = octets.saturating_add(count_written(&mut attempt, &mail, reply)?);
    }
    Ok(octets)
}

/// Returns how many octets are written after this reply.
fn count_written(
    attempt: &mut Attempt,
    mail: &MailObject<'_>,
    reply: &[u8],
) -> Result<u64, AllocError> {
    let driven = attempt.feed(mail, reply)?;
    Ok(driven.out.len() as u64)
}

/// Returns an attempt to hand a message on for its first places.
fn attempt_of(alloc: Global, count: u8) -> Result<Attempt, AllocError> {
    let mut places = Vec::new(alloc);
    for place in 0..count {
        places.push(place)?;
    }
    Attempt::begin(alloc, b"relay.example", places)
}

/// Lets this many attempts with 100 places wait. One may hold 4,096 octets beside its places, the texts of refusals and
/// the lines of a reply.
pub fn hold_attempts(told: &mut Answer, count: u64) -> Result<(), Fail> {
    if mem::size_of::<Attempt>() > HELD_LIMIT {
        return Err(Fail::new("an attempt holds too much"));
    }
    let envelope = envelope_of(told.alloc, PLACES)?;
    let mut held: Vec<Attempt> = Vec::new(told.alloc);
    for _ in 0..count {
        held.push(waiting(told.alloc, &envelope)?)?;
    }
    told.count("", held.len() as u64);
    told.say(" attempts");
    Ok(())
}

/// Returns an attempt that waits for the reply to the last of its RCPTs. To the others the server said that they may be
/// tried again.
fn waiting(alloc: Global, envelope: &Envelope) -> Result<Attempt, AllocError> {
    let mail = MailObject {
        envelope,
        stored_text: b"y\r\n",
    };
    let mut attempt = attempt_of(alloc, PLACES)?;
    for reply in [GREETING, OFFERS, SENDER_OK] {
        count_written(&mut attempt, &mail, reply)?;
    }
    for _ in 1..PLACES {
        count_written(&mut attempt, &mail, b"450 try again\r\n")?;
    }
    Ok(attempt)
}
