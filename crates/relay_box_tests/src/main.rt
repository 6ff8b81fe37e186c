//! A whole relay in a box: what `relayd run` runs, over streams, disks, a ballast file and clocks in memory. A script
//! on standard input says what happens to it, and standard output says what it did; the same script always gives the
//! same output. It knows nothing of mail: tests/days_in_a_box.py plays clients and next hops, and judges.
//!
//! A line of the script is words with one space between each two. Octets are in hexadecimal, `-` for none. Lines that
//! are empty or begin with `#` are passed over. Streams have numbers from 0, in the order in which clients come and the
//! relay connects. The lines, of which those marked with an asterisk have an answer that ends in a line `done ..`:
//!
//! - `begin CONFIG`*: empty disks, a new spool for this text of a configuration, and a relay over it.
//! - `clock SECONDS MILLISECONDS`: the wall clock since 1970, and the monotonic clock. They stand still otherwise.
//! - `client ADDRESS:PORT`: a client waits at the listener.
//! - `input N OCTETS`, `end N`, `reset N`: what a stream yields next; the end of its input; its connection breaks.
//! - `room N COUNT`: a stream takes COUNT octets more; `room N -`: any number, as at first.
//! - `hop ADDRESS:PORT WORD`: what happens to connections to an address: `accept`; `refuse`, as at first; or `wait`:
//!   they are pending until `connected N` or `reset N`.
//! - `fail CALLS`: CALLS more calls on the disks pass, and the next one fails.
//! - `ballast COUNT`: how many octets the ballast file has room for.
//! - `config TEXT`: the file of the configuration has this text, which a reload and a stop read.
//! - `held WORD`: whether the file of held mail can be written: `yes`, as at first, or `no`. Nobody reads it: a relay
//!   that is started holds nothing.
//! - `ask REQUEST`*: the relay does what a line of the control socket asks for, between two turns. While a reload
//!   waits, answers have a line `reloading`.
//! - `turn`*: the relay is told what its streams may be ready for, and takes one turn.
//! - `stop PICK`*: the process is killed, the disks become images that the pick chooses, and a relay starts over them.
//! - `queue`*: the queued recipients.
#![tactic(auto)]

mod answer;
mod ballast;
mod clock;
mod dial;
mod disk;
mod files;
mod listener;
mod running;
mod simulation;
mod store;
mod watch;
mod words;
mod world;

use clock::BoxClock;
use simulation::Simulation;
use std::io::{self, BufRead, BufReader, Write};
use std::process::ExitCode;

/// Obeys each line of standard input, and writes the answers.
fn main(rt: HostRuntime) -> ExitCode {
    match obey_all(&rt) {
        Ok(true) => ExitCode::from(0),
        Ok(false) | Err(_) => ExitCode::from(1),
    }
}

/// Obeys each line, and returns whether all could be read.
fn obey_all(rt: &HostRuntime) -> io::Result<bool> {
    let mut lines = BufReader::new(rt.alloc(), rt.stdin())?.lines(rt.alloc());
    let mut output = rt.stdout();
    let clock = BoxClock::new();
    let mut simulation = Simulation::new(rt.alloc(), &clock)?;
    for line in &mut lines {
        let line = line?;
        let is_read = simulation.obey(line.as_str())?;
        let answer = simulation.answer();
        if !answer.is_empty() {
            output.write_all(answer)?;
            output.flush()?;
            simulation.clear_answer();
        }
        if !is_read {
            return Ok(false);
        }
    }
    Ok(true)
}
