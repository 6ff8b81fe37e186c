//! The pace of each lane: how many of its attempts are running, and whether it is on hold.
ghost use Rattle.std.specs.Prelude.{◌≡◌, ◌↔◌, [], IsTrue, option_copied, option_map, slice_get};
ghost use Rattle.relay_limits.specs.Pace.{answered_pace, held_from, next_hold, probed, with_leaving};
ghost use Rattle.relay_lanes.specs.Paces.{AddsUnknown, IsHeldAt, MayBeginAt, RunAsBefore, begun, changed_at, ended};
ghost use Rattle.relay_lanes.specs.Paces.{refused, welcomed};

use relay_limits::Pace;
use std::alloc::{AllocError, Global};
use std::marker::Model;

/// The paces of lanes, by number. A call for a number without a lane changes nothing.
pub struct Paces {
    paces: Vec<Pace>,
}

// Written out, so that the proof of a caller that drops them stops at this function.
impl Drop for Paces {
    fn drop(self) {
        let Paces { paces: _paces } = self;
    }
}

impl Model for Paces {
    ghost use Rattle.std.specs.Prelude.{List};
    ghost use Rattle.relay_limits.specs.declared.pace.Pace.{Pace};

    ghost Value = { List Pace };

    ghost view = { λ table. table.paces.items };
}

impl Paces {
    /// Returns an empty table. Allocates nothing.
    pub fn new(alloc: Global) -> Self
        ensures { result ≡ [] }
    {
        Paces {
            paces: Vec::new(alloc),
        }
    }

    /// Adds lanes without running attempts, up to `count`. Fails if memory runs out.
    #[tactic(auto, using(crate::proofs::PaceLemmas::runs_none_more))]
    pub fn grow(&mut self, count: usize) -> Result<(), AllocError>
        ensures runs { RunAsBefore self.old self.new }
        ensures adds { AddsUnknown self.old self.new }
    {
        for _ in self.paces.len()..count {
            self.paces.push(Pace::new())?;
        }
        Ok(())
    }

    /// Returns the paces, by number.
    pub fn as_slice(&self) -> &[Pace]
        ensures { result.now ≡ self.now }
    {
        self.paces.as_slice()
    }

    /// Returns the pace of a lane.
    pub fn get(&self, number: usize) -> Option<&Pace>
        ensures { option_copied result ≡ slice_get self.now number }
    {
        self.paces.get(number)
    }

    /// Returns whether a lane may begin one more connection, of at most `most`.
    pub fn may_begin(&self, number: usize, most: usize, tick: u64) -> bool
        ensures { IsTrue result ↔ MayBeginAt most tick self.now number }
    {
        match self.paces.get(number) {
            Some(pace) => pace.may_begin(most, tick),
            None => false,
        }
    }

    /// Returns whether a lane is on hold.
    pub fn is_held(&self, number: usize, tick: u64) -> bool
        ensures { IsTrue result ↔ IsHeldAt tick self.now number }
    {
        match self.paces.get(number) {
            Some(pace) => pace.is_held(tick),
            None => false,
        }
    }

    /// Notes that a connection of a lane was begun.
    pub fn began(&mut self, number: usize)
        ensures { self.new ≡ changed_at begun self.old number }
    {
        if let Some(pace) = self.paces.get_mut(number) {
            pace.began();
        }
    }

    /// Notes that a connection of a lane is gone, or is leaving.
    pub fn ended(&mut self, number: usize)
        ensures { self.new ≡ changed_at ended self.old number }
    {
        if let Some(pace) = self.paces.get_mut(number) {
            pace.ended();
        }
    }

    /// Notes that the next hop of a lane has answered.
    pub fn answered(&mut self, number: usize)
        ensures { self.new ≡ changed_at answered_pace self.old number }
    {
        if let Some(pace) = self.paces.get_mut(number) {
            pace.answered();
        }
    }

    /// Notes that this many connections of a lane are leaving.
    pub fn note_leaving(&mut self, number: usize, count: usize)
        ensures { self.new ≡ changed_at (with_leaving count) self.old number }
    {
        if let Some(pace) = self.paces.get_mut(number) {
            pace.note_leaving(count);
        }
    }

    /// Notes that the next hop of a lane accepts no more connections than there are.
    pub fn lower_limit(&mut self, number: usize)
        ensures { self.new ≡ changed_at refused self.old number }
    {
        if let Some(pace) = self.paces.get_mut(number) {
            pace.lower_limit();
        }
    }

    /// Notes that the next hop of a lane may accept one more connection.
    pub fn raise_limit(&mut self, number: usize)
        ensures { self.new ≡ changed_at welcomed self.old number }
    {
        if let Some(pace) = self.paces.get_mut(number) {
            pace.raise_limit();
        }
    }

    /// Ends the hold of a lane at this tick, if it ends later.
    pub fn probe(&mut self, number: usize, tick: u64)
        ensures { self.new ≡ changed_at (probed tick) self.old number }
    {
        if let Some(pace) = self.paces.get_mut(number) {
            pace.probe(tick);
        }
    }

    /// Puts a lane on hold from this tick on, and returns for how many seconds.
    pub fn hold(&mut self, number: usize, tick: u64) -> Option<u64>
        ensures seconds { result ≡ option_map (λ pace. next_hold pace.hold) (slice_get self.old number) }
        ensures held { self.new ≡ changed_at (held_from tick) self.old number }
    {
        match self.paces.get_mut(number) {
            Some(pace) => Some(pace.hold(tick)),
            None => None,
        }
    }
}
