//! When lanes have work next: when mail is due that isn't listed, when a hold ends, and once a minute.
ghost use Rattle.std.specs.Prelude.{◌≡◌, ◌≤◌};
ghost use Rattle.relay_next_hops.specs.Known.{KeepsNumbers};
ghost use Rattle.relay_next_hops.specs.Lanes.{KeepsCounts};
ghost use Rattle.relay_next_hops.specs.Listing.{KeepsListed};
ghost use Rattle.relay_next_hops.specs.Waking.{IsByHolds, NotesDue, WakesForHolds};

use crate::hops::Hops;
use crate::lanes::Lanes;
use relay_connections::{Now, Stream};
use relay_trace::Moment;

/// After this many seconds a listing begins even if nothing has changed: the wall clock may have been set.
pub(crate) const LISTING_SECONDS: u64 = 60;

impl Lanes {
    /// Returns the tick at which something is to be done, or `otherwise` if that is earlier. It is never later than the
    /// tick at which the node's next work is due.
    pub(crate) fn next_deadline(&self, otherwise: u64) -> u64
        ensures otherwise { result ≤ otherwise }
        ensures due { result ≤ self.now.next_due }
        ensures hold { result ≤ self.now.next_hold_end }
        ensures minute { result ≤ self.now.next_minute }
    {
        let next = otherwise
            .min(self.next_due)
            .min(self.next_hold_end)
            .min(self.next_minute);
        if self.is_stale {
            next.min(self.next_listing)
        } else {
            next
        }
    }

    /// Notes that a minute has passed, mail is due, or a hold has ended.
    pub(crate) fn note_time<S: Stream + Drop>(&mut self, hops: &Hops<S>, now: &Now)
        ensures counts { KeepsCounts self.old self.new }
        ensures kept { KeepsListed self.old self.new }
        ensures walk { (self.new.queued ≡ self.old.queued) × (self.new.is_listing ≡ self.old.is_listing) }
        ensures numbers { KeepsNumbers self.old self.new }
        ensures wakes { WakesForHolds now.now.tick self.old → WakesForHolds now.now.tick self.new }
    {
        self.note_due(hops, now);
        self.note_hold_end(now);
    }

    /// Notes that a minute has passed, or mail is due.
    fn note_due<S: Stream + Drop>(&mut self, hops: &Hops<S>, now: &Now)
        ensures counts { KeepsCounts self.old self.new }
        ensures kept { KeepsListed self.old self.new }
        ensures walk { (self.new.queued ≡ self.old.queued) × (self.new.is_listing ≡ self.old.is_listing) }
        ensures numbers { KeepsNumbers self.old self.new }
        ensures paces { (self.new.paces ≡ self.old.paces) × (self.new.next_hold_end ≡ self.old.next_hold_end) }
    {
        if self.next_minute <= now.tick {
            self.next_minute = now.after(LISTING_SECONDS);
            self.is_unsure = true;
            // The node says only that waiting mail is due, and nothing of what is due later. A walk also drops the
            // numbers of messages that have left.
            self.is_stale = self.is_stale || self.has_waiting(hops) || self.queued.has_grown();
        }
        if self.next_due <= now.tick {
            self.next_due = u64::MAX;
            self.is_stale = true;
        }
    }

    /// When a hold has ended, computes when the next one ends.
    fn note_hold_end(&mut self, now: &Now)
        ensures counts { KeepsCounts self.old self.new }
        ensures kept { KeepsListed self.old self.new }
        ensures walk { (self.new.queued ≡ self.old.queued) × (self.new.is_listing ≡ self.old.is_listing) }
        ensures numbers { KeepsNumbers self.old self.new }
        ensures wakes { WakesForHolds now.now.tick self.old → WakesForHolds now.now.tick self.new }
    {
        if self.next_hold_end <= now.tick {
            self.is_open = true;
            self.next_hold_end = self.hold_end(now);
        }
    }

    /// Returns the tick at which the next hold ends.
    fn hold_end(&self, now: &Now) -> u64
        ensures { IsByHolds now.now.tick self.now.paces result }
    {
        let mut end = u64::MAX;
        for pace in self.paces.as_slice() {
            if let Some(until) = pace.held_until(now.tick) {
                end = end.min(until);
            }
        }
        end
    }

    /// Returns whether a task waits, or a connection is being opened for one.
    pub(crate) fn has_waiting<S: Stream + Drop>(&self, hops: &Hops<S>) -> bool {
        self.keeps
            || !self.unroutable.is_empty()
            || hops.is_any_connecting()
            || self.lanes.as_slice().iter().any(|lane| !lane.is_empty())
    }

    /// Notes when mail is next due.
    pub(crate) fn note_next(&mut self, next: Option<Moment>, now: &Now)
        ensures counts { KeepsCounts self.old self.new }
        ensures kept { KeepsListed self.old self.new }
        ensures numbers { KeepsNumbers self.old self.new }
        ensures walk { (self.new.queued ≡ self.old.queued) × (self.new.is_listing ≡ self.old.is_listing) }
        ensures noted { NotesDue now.now next self.new }
        ensures tasks { (self.new.lanes ≡ self.old.lanes) × (self.new.is_open ≡ self.old.is_open) }
        ensures unsure { self.new.is_unsure ≡ self.old.is_unsure }
    {
        match next {
            Some(moment) if moment.seconds() <= now.moment.seconds() => self.is_stale = true,
            Some(moment) => self.next_due = now.tick_at(moment),
            None => self.next_due = u64::MAX,
        }
    }
}
