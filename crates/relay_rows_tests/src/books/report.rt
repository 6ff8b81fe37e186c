//! The outcome of a row of reports.
use crate::answer::{Answer, RowsFault};
use crate::books::hex::octets_of;
use crate::books::subject::read_into;
use crate::words::Words;
use relay_book::{Book, Change, Message, Outcome, decode_change};
use relay_octets::Octets;
use relay_report::{Parts, Report, boundary_for, report_if_due, split_report};
use relay_routes::ReportForm;
use std::alloc::{AllocError, Global};

/// The name of the host that makes the reports.
const HOST: &[u8] = b"relay.example";

/// Tells the outcome of a row: `report ACCEPT OUTCOME` or `rich ACCEPT OUTCOME`, two records, of which the first is
/// change 1 and the report's number is 2, or `boundary NUMBER PART PART PART`. A line that begins with `#` says what
/// the next row shows, and stands as it is.
pub fn tell_report_row(answer: &mut Answer, row: &str) {
    let mut words = Words { rest: row };
    match words.word() {
        "report" => tell_report(answer, words, ReportForm::Plain),
        "rich" => tell_report(answer, words, ReportForm::Rich),
        "boundary" => tell_boundary(answer, words),
        _ if row.starts_with('#') => answer.say(row),
        _ => answer.stop(RowsFault::Row),
    }
}

/// Tells the boundary of parts that are written in hexadecimal.
fn tell_boundary(answer: &mut Answer, words: Words<'_>) {
    let mut words = words;
    let number = answer.number_in(words.word());
    let first = octets_of(answer, words.word());
    let second = octets_of(answer, words.word());
    let third = octets_of(answer, words.word());
    let parts = Parts {
        first: first.as_slice(),
        second: second.as_slice(),
        third: third.as_slice(),
    };
    match boundary_for(answer.alloc, number, &parts) {
        Ok(boundary) => answer.escape(boundary.as_slice()),
        Err(_) => answer.stop(RowsFault::NoMemory),
    }
}

/// Tells the report of an outcome for the message of an accept, both of which are records, and the sizes of the parts
/// that it is taken apart to.
fn tell_report(answer: &mut Answer, words: Words<'_>, form: ReportForm) {
    let mut words = words;
    let accept = octets_of(answer, words.word());
    let outcome = octets_of(answer, words.word());
    let mut book = Book::new(answer.alloc);
    match read_into(answer.alloc, &mut book, accept.as_slice()) {
        Ok(()) => tell_report_of(answer, &book, outcome.as_slice(), form),
        Err(fault) => answer.stop(RowsFault::from(fault)),
    }
}

fn tell_report_of(answer: &mut Answer, book: &Book, outcome: &[u8], form: ReportForm) {
    match decode_change(answer.alloc, outcome) {
        Ok(Change::Outcome(outcome)) => tell_report_by(answer, book, &outcome, form),
        Ok(Change::Accept(_)) => answer.stop(RowsFault::Row),
        Err(fault) => answer.stop(RowsFault::from(fault)),
    }
}

fn tell_report_by(answer: &mut Answer, book: &Book, outcome: &Outcome, form: ReportForm) {
    match book.message(outcome.message) {
        Some(message) => match report_of(answer.alloc, book, message, outcome, form) {
            Ok(report) => tell_parts(answer, report.as_slice()),
            Err(_) => answer.stop(RowsFault::NoMemory),
        },
        None => answer.stop(RowsFault::Row),
    }
}

fn report_of(
    alloc: Global,
    book: &Book,
    message: &Message,
    outcome: &Outcome,
    form: ReportForm,
) -> Result<Octets, AllocError> {
    let report = Report {
        form,
        host: HOST,
        number: book.next_number(),
        message,
        hop: outcome.hop.as_slice(),
        rulings: outcome.rulings.as_slice(),
        at: outcome.at,
    };
    report_if_due(alloc, &report)
}

/// Tells a report in one line, with the sizes of its parts; no octet is none.
fn tell_parts(answer: &mut Answer, report: &[u8]) {
    if report.is_empty() {
        return answer.say("no report");
    }
    answer.escape(report);
    match split_report(report) {
        Some(parts) => {
            answer.count(" | parts of ", parts.first.len() as u64);
            answer.count(", ", parts.second.len() as u64);
            answer.count(", ", parts.third.len() as u64);
        }
        None => answer.say(" | no parts"),
    }
}
