//! How many connections of each lane are leaving: a next hop counts them until they are closed.
ghost use Rattle.std.specs.Prelude.{◌≡◌, ◌↔◌, ◌<◌, IsTrue, true};
ghost use Rattle.relay_limits.specs.Pace.{with_leaving};
ghost use Rattle.relay_connections.specs.Leaving.{goes_to, leavers_of};
ghost use Rattle.relay_connections.specs.Table.{count_of_such};
ghost use Rattle.relay_lanes.specs.Paces.{changed_at, leaving_at};
ghost use Rattle.relay_next_hops.specs.Counts.{RecountsLeaving, recounted};
ghost use Rattle.relay_next_hops.specs.Lanes.{KeepsCounts};

use crate::lanes::Lanes;
use relay_connections::{Leaving, Stream};

impl Lanes {
    /// Notes how many connections of a lane are leaving.
    pub(crate) fn note_leaving_of<S: Stream + Drop>(&mut self, number: usize, leaving: &Leaving<S>)
        ensures counts { KeepsCounts self.old self.new }
        ensures paces { self.new.paces
            ≡ changed_at (with_leaving (count_of_such (goes_to number) (leavers_of leaving.now))) self.old.paces
            number }
        ensures tasks { (self.new.lanes ≡ self.old.lanes) × (self.new.is_open ≡ self.old.is_open) }
    {
        self.paces.note_leaving(number, leaving.count_to(number));
    }

    /// Notes that leaving connections were closed: lanes at the limit of their next hop may begin more.
    pub(crate) fn note_leaving<S: Stream + Drop>(&mut self, leaving: &Leaving<S>)
        ensures counts { KeepsCounts self.old self.new }
        ensures recounts { RecountsLeaving leaving.now self.old self.new }
    {
        for number in 0..self.lanes.len() {
            self.recount(number, leaving);
        }
    }

    /// Counts the leaving connections of a lane again, if it has any, and lets more begin then.
    fn recount<S: Stream + Drop>(&mut self, number: usize, leaving: &Leaving<S>)
        ensures counts { KeepsCounts self.old self.new }
        ensures paces { self.new.paces
            ≡ changed_at (recounted (count_of_such (goes_to number) (leavers_of leaving.now))) self.old.paces number }
        ensures opened { 0 < leaving_at self.old.paces number → self.new.is_open ≡ true }
        ensures stays { self.old.is_open ≡ true → self.new.is_open ≡ true }
        ensures tasks { self.new.lanes ≡ self.old.lanes }
    {
        if !self.has_leaving(number) {
            return;
        }
        self.note_leaving_of(number, leaving);
        self.is_open = true;
    }

    fn has_leaving(&self, number: usize) -> bool
        ensures { IsTrue result ↔ (0 < leaving_at self.now.paces number) }
    {
        match self.paces.get(number) {
            Some(pace) => pace.has_leaving(),
            None => false,
        }
    }
}
