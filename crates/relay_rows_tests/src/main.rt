//! Rows of data, over the library's calls.
//!
//! It plays each row of data/lines.in over the calls on lines, commands and replies, and compares what it comes to with
//! what is written down: once whole, and, where octets come in pieces, in pieces of every length. Of the other rows it
//! prints the outcome of each after the row. The rows of envelopes are texts of MAIL and RCPT, xtext, paths and hosts'
//! names; those of routes configurations, and paths whose hop is looked up; those of trace times, time stamp lines and
//! header sections; and those of scripts lines and texts. If something else is written down than comes of a row, that
//! too is printed. Then it shows the rows of books, of disks and of spools.
//!
//! It plays each scenario on a node over memory: in one piece, with what the other sides say cut in two at each octet,
//! octet by octet, and in one piece among this many other clients that 64 are there; or, where a device fails, for each
//! call and each stop. The outcome of each event is compared with what is written down. Then it shows a run of a
//! network and which configurations make one, and runs each measurement of bench/ on a few octets.
//!
//! By the word `books` and a folder it shows the rows of books there alone, by `file` and a path it plays the scenarios
//! of that file alone, and by `bench` it runs the measurement that the next words name.
#![tactic(auto)]

mod answer;
mod answers;
mod bench;
mod books;
mod calls;
mod command_play;
mod course;
mod crowd;
mod disks;
mod envelope;
mod envelopes;
mod escape;
mod line;
mod line_play;
mod lines;
mod pair;
mod pieces;
mod play;
mod reply_play;
mod routes;
mod row;
mod rows;
mod scenario;
mod scene;
mod script;
mod spelling;
mod stage;
mod step;
mod talk;
mod trace;
mod trial;
mod verdict;
mod words;

use answer::{Answer, RowsFault};
use bench::{measure_each, measure_named};
use disks::tell_faults;
use envelopes::show_envelopes;
use lines::tell_calls;
use pair::{show_networks, show_run};
use rows::{Topic, show_books, show_rows};
use scenario::Scenario;
use script::tell_nodes;
use std::test::Fail;
use std::{env, fs};
use trial::difference_of;

/// The files of scenarios.
const FILES: &str =
    "receiving.in|sessions.in|stops.in|passing.in|retrying.in|moments.in|late.in|compaction.in|\
compaction_refused.in|compaction_stops.in|full.in|wrong.in";

/// Without a word all is shown and played that lies where the program runs.
fn main(rt: HostRuntime) -> Result<(), Fail> {
    let given = match given_words(&rt) {
        Ok(given) => given,
        Err(fault) => return Err(Fail::new(fault.text())),
    };
    let words = given.as_slice();
    let path = word_of(words, 2);
    match word_of(words, 1) {
        "" => show_and_play(&rt),
        "file" => play_files(&rt, path),
        "bench" if words.len() == 2 => measure_each(&rt),
        "bench" => measure_named(&rt, words.get(2..).unwrap_or(&[])),
        word => show_asked(&rt, word, path),
    }
}

fn given_words(rt: &HostRuntime) -> Result<Vec<String>, RowsFault> {
    Ok(env::args(rt)?.collect(rt.alloc())?)
}

/// Returns the word at this place; an empty one if there is none.
fn word_of(words: &[String], place: usize) -> &str {
    match words.get(place) {
        Some(word) => word.as_str(),
        None => "",
    }
}

/// Shows all rows, plays all scenarios, and runs each measurement on a few octets.
fn show_and_play(rt: &HostRuntime) -> Result<(), Fail> {
    show_asked(rt, "", ".")?;
    play_files(rt, FILES)?;
    show_run(rt)?;
    show_networks(rt)?;
    measure_each(rt)
}

/// Shows the rows of books in a folder, or all rows.
fn show_asked(rt: &HostRuntime, word: &str, path: &str) -> Result<(), Fail> {
    let mut answer = Answer::new(rt.alloc());
    match word {
        "books" => show_books(rt, &mut answer, path),
        _ => show_all(rt, &mut answer),
    }
    match answer.fault {
        None => Ok(()),
        Some(fault) => Err(Fail::new(fault.text())),
    }
}

/// Shows all rows, and what no row shows.
fn show_all(rt: &HostRuntime, answer: &mut Answer) {
    show_rows(rt, answer, ".", "lines", Topic::Lines);
    tell_calls(answer);
    answer.print(rt);
    show_envelopes(rt, answer);
    show_rows(rt, answer, ".", "routes", Topic::Routes);
    show_rows(rt, answer, ".", "trace", Topic::Trace);
    show_rows(rt, answer, ".", "script", Topic::Script);
    tell_nodes(answer);
    answer.print(rt);
    show_books(rt, answer, ".");
    show_rows(rt, answer, ".", "disks", Topic::Disks);
    tell_faults(answer);
    answer.print(rt);
}

/// Plays the scenarios of the files at these paths, a bar between each two. It fails where one differs.
fn play_files(rt: &HostRuntime, paths: &str) -> Result<(), Fail> {
    let mut are_right = true;
    for path in paths.split('|') {
        are_right = play_file(rt, path)? && are_right;
    }
    if are_right {
        Ok(())
    } else {
        Err(Fail::new("a scenario came otherwise"))
    }
}

/// Plays the scenarios of a file, and says whether each came as it is to.
fn play_file(rt: &HostRuntime, path: &str) -> Result<bool, Fail> {
    let text = fs::read_to_string(rt, path)?;
    play_text(rt, text.as_str())
}

/// Plays the scenarios of a text, which an empty line ends each.
fn play_text(rt: &HostRuntime, text: &str) -> Result<bool, Fail> {
    let alloc = rt.alloc();
    let mut are_right = true;
    let mut scenario = Scenario::new(alloc);
    for line in text.lines() {
        if line.is_empty() {
            are_right = play_scenario(rt, &scenario)? && are_right;
            scenario = Scenario::new(alloc);
        } else {
            scenario.take(alloc, line)?;
        }
    }
    Ok(are_right)
}

/// Plays a scenario, prints a line for it, and says whether it came as it is to.
fn play_scenario(rt: &HostRuntime, scenario: &Scenario<'_>) -> Result<bool, Fail> {
    let name = scenario.name;
    let difference = difference_of(rt.alloc(), scenario)?;
    let outcome = match &difference {
        Some(_) if scenario.differs => "differs, as it must",
        Some(difference) => difference.as_str(),
        None => "as written down",
    };
    println!(rt; "{name}: {outcome}")?;
    Ok(difference.is_some() == scenario.differs)
}
