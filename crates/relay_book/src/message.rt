ghost use Rattle.std.specs.Prelude.{◌≡◌, ◌<◌, ◌≤◌, length, slice_get, slice_set, IfOk};
ghost use Rattle.std.specs.List.{list_any};
ghost use Rattle.relay_book.specs.Book.{is_held_until};
ghost use Rattle.relay_book.specs.Queue.{due_report_at, is_held, message_after, place_ruled, places_after};
ghost use Rattle.relay_book.specs.Queue.{places_ruled};

use crate::change::{Accept, Outcome, Ruling, Verdict};
use crate::due_report::{DueReport, due_for};
use crate::fate::fate_of;
use crate::retry::place_after;
use crate::version::Version;
use relay_trace::Moment;
use std::alloc::{AllocError, Global};
use std::marker::Model;

/// A recipient's place in the queue.
#[derive(Clone, Copy, Debug)]
pub struct Place {
    /// It is held: neither transferred nor ended.
    pub held: bool,
    /// How many Later verdicts it had, of which four and more are one; 0 where it isn't held.
    pub laters: u8,
    /// It was reported as delayed; false where it isn't held.
    pub delayed: bool,
    /// When it is due, in seconds from 1970; 0 where it isn't held. It may pass the last time.
    pub due: u64,
}

/// The places of a message, in the order of its recipients.
#[derive(Debug, Drop)]
pub struct Places {
    items: Vec<Place>,
}

impl Model for Places {
    ghost use Rattle.std.specs.Prelude.{List, length, ◌≤◌};
    ghost use Rattle.relay_book.specs.declared.message.Place.{Place};

    ghost Value = { List Place };

    ghost view = { λ places. places.items.items };

    ghost invariant = { λ places. length places.items.items ≤ 100 };
}

impl Places {
    pub(crate) fn new(items: Vec<Place>) -> Self
        requires { length items.items ≤ 100 }
        ensures { result ≡ items.items }
    {
        Places { items }
    }

    /// Returns the places.
    pub fn as_slice(&self) -> &[Place]
        ensures value { result.now ≡ self.now }
        ensures within { length result.now ≤ 100 }
    {
        self.items.as_slice()
    }

    fn get(&self, index: usize) -> Option<Place>
        ensures { result ≡ slice_get self.now index }
    {
        self.items.get(index).copied()
    }

    fn set(&mut self, index: usize, place: Place)
        requires { index < length self.old }
        ensures { self.new ≡ slice_set self.old index place }
    {
        self.items[index] = place;
    }

    /// Returns a copy of the places. Fails if memory runs out.
    pub(crate) fn copy(&self, alloc: Global) -> Result<Self, AllocError>
        ensures { IfOk result (λ copy. copy ≡ self.now) }
    {
        Ok(Places::new(self.items.as_slice().to_vec(alloc)?))
    }

    /// Rules on one place.
    fn rule_one(&mut self, version: Version, accept: &Accept, at: Moment, ruling: &Ruling)
        ensures { self.new ≡ places_after version accept.now at self.old ruling.now }
    {
        let index = ruling.place as usize;
        if let Some(place) = self.get(index) {
            self.set(index, place_ruled(version, accept, at, place, ruling));
        }
    }

    /// Rules on the places of an outcome.
    pub(crate) fn rule(&mut self, accept: &Accept, outcome: &Outcome)
        ensures { self.new
            ≡ places_ruled outcome.now.version accept.now outcome.now.at self.old outcome.now.rulings }
    {
        for ruling in outcome.rulings.as_slice() {
            self.rule_one(outcome.version, accept, outcome.at, ruling);
        }
    }

    /// Returns whether a held place is due then.
    pub(crate) fn any_held_until(&self, due: u64) -> bool
        ensures { result ≡ list_any (is_held_until due) self.now }
    {
        self.items
            .iter()
            .any(|place| place.held && place.due == due)
    }

    /// Returns whether a place is held.
    pub(crate) fn any_held(&self) -> bool
        ensures { result ≡ list_any is_held self.now }
    {
        self.items.iter().any(|place| place.held)
    }
}

/// Returns a place after a verdict.
fn place_ruled(
    version: Version,
    accept: &Accept,
    at: Moment,
    place: Place,
    ruling: &Ruling,
) -> Place
    ensures { result ≡ place_ruled version accept.now at place ruling.now }
{
    let fate = fate_of(accept.at, at, &ruling.verdict);
    let due = due_for(version, accept, at, place, ruling.place, &ruling.verdict);
    place_after(at, place, fate, due)
}

/// A message with a held place.
#[derive(Debug)]
pub struct Message {
    /// The number of the change that made it.
    pub number: u64,
    /// What was accepted.
    pub accept: Accept,
    /// The places of its recipients.
    pub places: Places,
}

// Written out, so that the proof of a caller that drops a message stops at this function.
impl Drop for Message {
    fn drop(self) {
        let Message {
            number: _,
            accept: _accept,
            places: _places,
        } = self;
    }
}

impl Message {
    /// Returns which report is due of the place of this index by a verdict at a time (RFC 3461, section 5.2): none of a
    /// place that the message doesn't have. Allocates nothing.
    pub fn due_report_at(
        &self,
        version: Version,
        at: Moment,
        index: u8,
        verdict: &Verdict,
    ) -> Option<DueReport>
        ensures { result
            ≡ due_report_at version self.now at (record { place = index; verdict = verdict.now }) }
    {
        match self.places.get(usize::from(index)) {
            Some(place) => due_for(version, &self.accept, at, place, index, verdict),
            None => None,
        }
    }

    /// Rules on the places of an outcome.
    pub(crate) fn rule(&mut self, outcome: &Outcome)
        ensures { self.new ≡ message_after outcome.now self.old }
    {
        self.places.rule(&self.accept, outcome);
    }
}
