ghost use Rattle.std.specs.Prelude.{◌≡◌, ◌≤◌};
ghost use Rattle.relay_book.specs.DueMoment.{longest_wait, wait_after};
ghost use Rattle.relay_book.specs.Queue.{place_after, tells_delay, waiting_place};

use crate::due_report::DueReport;
use crate::fate::Fate;
use crate::limits::{FIRST_WAIT, LONGEST_WAIT};
use crate::message::Place;
use relay_trace::Moment;

/// Returns how long a place waits after as many Later verdicts, in seconds.
fn wait_after(laters: u8) -> u64
    requires some { 1 ≤ laters }
    requires few { laters ≤ 4 }
    ensures value { result ≡ wait_after laters }
    ensures within { result ≤ longest_wait }
{
    match laters {
        1 => FIRST_WAIT,
        2 => 2 * FIRST_WAIT,
        3 => 4 * FIRST_WAIT,
        _ => LONGEST_WAIT,
    }
}

/// Returns a held place after a verdict at a time, by which this report was due.
pub(crate) fn place_after(at: Moment, place: Place, fate: Fate, due: Option<DueReport>) -> Place
    ensures { result ≡ place_after at place fate due }
{
    match fate {
        Fate::Waits => waiting_place(at, place, due),
        Fate::Late => waiting_place(at, place, due),
        Fate::Failed => LEFT_PLACE,
        Fate::Relayed(_) => LEFT_PLACE,
        Fate::Removed(_) => LEFT_PLACE,
    }
}

/// Returns a held place after a Later verdict at a time, by which this report was due.
fn waiting_place(at: Moment, place: Place, due: Option<DueReport>) -> Place
    ensures { result ≡ waiting_place at place due }
{
    let laters = if place.laters < 4 {
        place.laters + 1
    } else {
        4
    };
    Place {
        held: true,
        laters,
        delayed: tells_delay(due) || place.delayed,
        due: at.seconds() + wait_after(laters),
    }
}

/// Returns whether a report tells of a delay.
pub(crate) fn tells_delay(due: Option<DueReport>) -> bool
    ensures { result ≡ tells_delay due }
{
    match due {
        None => false,
        Some(DueReport::OfFailure) => false,
        Some(DueReport::OfRelay) => false,
        Some(DueReport::OfDelay) => true,
    }
}

/// A place that left.
pub(crate) const LEFT_PLACE: Place = Place {
    held: false,
    laters: 0,
    delayed: false,
    due: 0,
};
