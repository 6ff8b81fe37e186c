//! Files of rows: each row is told with its outcome, and printed.
use crate::answer::{Answer, RowsFault};
use crate::books::report::tell_report_row;
use crate::books::subject::Subject;
use crate::disks::tell_disks_row;
use crate::lines::tell_line_row;
use crate::routes::tell_routes;
use crate::script::tell_script;
use crate::trace::tell_trace;
use std::fs;

/// The files of rows of books. The rows of a file are about one book.
const BOOKS: [&str; 4] = ["rows", "octets", "snapshots", "delay"];

/// What the rows of a file are about.
#[derive(Clone, Copy)]
pub enum Topic {
    Lines,
    Routes,
    Trace,
    Script,
    Books,
    Reports,
    Disks,
}

/// Shows the rows of books in a folder.
pub fn show_books(rt: &HostRuntime, answer: &mut Answer, folder: &str) {
    for name in BOOKS {
        show_rows(rt, answer, folder, name, Topic::Books);
    }
    show_rows(rt, answer, folder, "reports", Topic::Reports);
}

/// Prints each row of a file of this name in a folder, and its outcome.
pub fn show_rows(rt: &HostRuntime, answer: &mut Answer, folder: &str, name: &str, topic: Topic) {
    let path = path_of(answer, folder, name);
    let rows = read_file(rt, answer, path.as_str());
    let mut subject = Subject::new(answer.alloc);
    for row in rows.as_str().lines() {
        tell_row(rt, answer, &mut subject, topic, row);
        answer.print(rt);
    }
}

fn path_of(answer: &mut Answer, folder: &str, name: &str) -> String {
    let mut path = String::new(answer.alloc);
    let said = write!(path, "{folder}/{name}.in");
    answer.note(said);
    path
}

/// Returns the text of a file; an empty one where it can't be read, which is noted.
pub fn read_file(rt: &HostRuntime, answer: &mut Answer, path: &str) -> String {
    match fs::read_to_string(rt, path) {
        Ok(text) => text,
        Err(error) => {
            answer.stop(RowsFault::from(error));
            String::new(answer.alloc)
        }
    }
}

/// Tells a row, and its outcome.
fn tell_row(rt: &HostRuntime, answer: &mut Answer, subject: &mut Subject, topic: Topic, row: &str) {
    match topic {
        Topic::Lines => tell_line_row(answer, row),
        Topic::Routes | Topic::Trace | Topic::Script => tell_given(rt, answer, topic, row),
        Topic::Books => subject.tell_row(row, answer),
        Topic::Reports => tell_report_row(answer, row),
        Topic::Disks => tell_disks_row(answer, row),
    }
}

/// Tells a row and its outcome, and what is written down where that is another; a line that is no row stands as it is.
fn tell_given(rt: &HostRuntime, answer: &mut Answer, topic: Topic, row: &str) {
    let Some((given, wanted)) = row.split_once(" => ") else {
        return answer.say(row);
    };
    answer.say(given);
    answer.say(" => ");
    match topic {
        Topic::Routes => tell_routes(rt, answer, given),
        Topic::Trace => tell_trace(answer, given),
        _ => tell_script(answer, given),
    }
    if answer.text.as_str() != row {
        answer.say(", and not ");
        answer.say(wanted);
    }
}
