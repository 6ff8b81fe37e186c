//! The next time at which there is work.
ghost use Rattle.std.specs.Prelude.{◌≡◌, ◌<◌, ◌≤◌, max, MatchOption};
ghost use Rattle.relay_attempts.specs.Attempts.{KnowsStranded};
ghost use Rattle.relay_attempts.specs.Next.{IsNextDue};
ghost use Rattle.relay_trace.specs.DateTime.{last_second};

use crate::attempts::Attempts;
use crate::hops::hop_of_place;
use crate::runs::{Run, is_running};
use relay_book::{Message, PlaceQuestion};
use relay_disk::Disk;
use relay_records::Records;
use relay_routes::Table;
use relay_slots::Slots;
use relay_trace::Moment;

impl Attempts {
    /// Returns the least time, from this one on, at which [`Attempts::due`] has work: this one where a held place has
    /// no hop, and else the first at which a place is due that has one, and for whose message and hop no attempt is
    /// running. None if there is no work at any time. It checks the places in the order of their times, at none after
    /// the first that is to be tried, and takes no memory.
    pub fn next_due<D: Disk>(
        &self,
        table: &Table,
        records: &Records<D>,
        now: Moment,
    ) -> Option<Moment>
        ensures { KnowsStranded self.now table.now records.now.queue
            → IsNextDue table.now self.now.runs records.now.queue now result }
    {
        if !self.stranded.is_empty() {
            return Some(now);
        }
        let untried = Untried {
            table,
            runs: &self.runs,
        };
        match records.first_due_where(&untried) {
            Some(due) => moment_from(now, due),
            None => None,
        }
    }
}

/// Asks whether a place has a hop, and no attempt for its message and that hop is running.
#[derive(Drop)]
struct Untried<'a> {
    /// Where mail goes.
    table: &'a Table,
    /// The running attempts.
    runs: &'a Slots<Run>,
}

impl PlaceQuestion for Untried<'_> {
    ghost use Rattle.relay_attempts.specs.Next.{is_untried};

    ghost holds = { λ untried. is_untried untried.table.now untried.runs.now };

    fn holds(&self, number: u64, message: &Message, place: usize) -> bool {
        match hop_of_place(self.table, &message.accept.envelope.recipients, place) {
            Some(hop) => !is_running(self.runs, number, hop),
            None => false,
        }
    }
}

/// Returns the later of a time and of the one that is this many seconds from 1970; none past the last time.
fn moment_from(now: Moment, seconds: u64) -> Option<Moment>
    ensures { MatchOption result (last_second < seconds)
        (λ moment. (seconds ≤ last_second) × (moment ≡ max now seconds)) }
{
    match Moment::new(seconds.max(now.seconds())) {
        Ok(moment) => Some(moment),
        Err(_) => None,
    }
}
