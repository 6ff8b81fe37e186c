//! The rows of disks and spools: steps on disks in memory and on the spool that is on two, with what each step is to
//! answer. Each row has a line, which says whether it came as it is written down.

mod calls;
mod device;
mod held;
mod mount;
mod octets;
mod row;

use crate::answer::Answer;
use relay_disk::DiskFault;
use relay_spool::SpoolFault;
use row::Row;

/// The faults of a spool.
const FAULTS: [SpoolFault; 7] = [
    SpoolFault::Device,
    SpoolFault::NotASpool,
    SpoolFault::Damaged(17),
    SpoolFault::NoMemory,
    SpoolFault::NotEmpty,
    SpoolFault::Full,
    SpoolFault::NoSecond,
];

/// Plays a row, and tells how it came. A line that begins with `#` says what the next rows show, and stands as it is.
pub fn tell_disks_row(answer: &mut Answer, line: &str) {
    answer.say(line);
    if !line.starts_with('#') {
        tell_played(answer, line);
    }
}

/// Tells how a row came.
fn tell_played(answer: &mut Answer, line: &str) {
    let mut came = Answer::new(answer.alloc);
    match Row::read(line).difference(&mut came) {
        Some(number) => {
            answer.count(": by ", number);
            answer.say(" it is ");
            answer.say(came.text.as_str());
        }
        None => answer.say(": as written down"),
    }
    answer.stop_as(&came);
}

/// Tells the text of each fault.
pub fn tell_faults(answer: &mut Answer) {
    answer.say("fault of a disk: ");
    answer.show(&DiskFault::Device);
    for fault in FAULTS {
        answer.say("\nfault: ");
        answer.show(&fault);
    }
}
