//! The rows of envelopes, for which as many outcomes are written down.
use crate::answer::{Answer, RowsFault};
use crate::line::line_of;
use crate::rows::read_file;

/// Prints the line of each row.
pub fn show_envelopes(rt: &HostRuntime, answer: &mut Answer) {
    let rows = read_file(rt, answer, "envelope.in");
    let outcomes = read_file(rt, answer, "envelope.ref");
    let mut rest = outcomes.as_str().lines();
    for row in rows.as_str().lines() {
        tell_envelope(answer, row, rest.next());
        answer.print(rt);
    }
    if rest.next().is_some() {
        answer.stop(RowsFault::Row);
    }
}

/// Tells the line of a row.
fn tell_envelope(answer: &mut Answer, row: &str, wanted: Option<&str>) {
    match wanted {
        Some(wanted) => match line_of(answer.alloc, row, wanted) {
            Ok(line) => answer.read_text(line.as_slice()),
            Err(_) => answer.stop(RowsFault::NoMemory),
        },
        None => answer.stop(RowsFault::Row),
    }
}
