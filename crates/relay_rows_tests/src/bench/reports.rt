use crate::answer::Answer;
use crate::bench::mail::{AT, accept_of, moment};
use relay_book::{Book, Message, Ruling, Rulings, Verdict};
use relay_octets::Octets;
use relay_report::{Report, report_if_due};
use relay_routes::ReportForm;
use std::alloc::{AllocError, Global};
use std::test::Fail;

/// Makes the report of a message's refusal this many times: report 2, which returns all of its stored text.
pub fn make_reports(told: &mut Answer, times: u64, stored_text: &[u8]) -> Result<(), Fail> {
    let mut book = Book::new(told.alloc);
    book.apply(told.alloc, accept_of(told.alloc, stored_text)?)?;
    match book.message(1) {
        Some(message) => {
            told.count("", count_octets(told.alloc, times, &book, message)?);
            told.count(" octets, in ", times);
            told.say(" times");
            Ok(())
        }
        None => Err(Fail::new("there is no message")),
    }
}

/// Makes the report of message 1 this many times, and counts its octets.
fn count_octets(
    alloc: Global,
    times: u64,
    book: &Book,
    message: &Message,
) -> Result<u64, AllocError> {
    let rulings = refusal(alloc)?;
    let report = Report {
        form: ReportForm::Plain,
        host: b"relay.example",
        number: book.next_number(),
        message,
        hop: b"next.example",
        rulings: rulings.as_slice(),
        at: moment(AT),
    };
    let mut octets: u64 = 0;
    for _ in 0..times {
        octets = octets.saturating_add(report_if_due(alloc, &report)?.len() as u64);
    }
    Ok(octets)
}

/// Returns the verdict of a hop that refused the place.
fn refusal(alloc: Global) -> Result<Rulings, AllocError> {
    let text = Octets::from_slice(alloc, b"no such user")?;
    let mut rulings = Rulings::new(alloc);
    rulings.push(Ruling {
        place: 0,
        verdict: Verdict::Refused { code: 550, text },
    })?;
    Ok(rulings)
}
