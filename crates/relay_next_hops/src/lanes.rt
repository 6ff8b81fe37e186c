//! The due mail by the addresses of next hops, and which of it may begin.
ghost use Rattle.std.specs.Prelude.{◌≡◌, ◌+◌, ◌≤◌, ◌↔◌, ◌++◌, ◌∷◌, [], ℕ, IfSome, IsTrue, List};
ghost use Rattle.std.specs.Prelude.{None, Some, drop, false, length, min, option_to_list, slice_get, true};
ghost use Rattle.relay_control.specs.Held.{HoldsNothing};
ghost use Rattle.relay_connections.specs.Renewal.{tick_after};
ghost use Rattle.relay_next_hops.specs.Holds.{HoldsFrom, is_shared, standing_at};
ghost use Rattle.relay_next_hops.specs.Lanes.{IsNew, IsPutBack, KeepsCounts, KeepsPlaces};
ghost use Rattle.relay_next_hops.specs.Lanes.{OnlyLane, closed, tasks_at};
ghost use Rattle.relay_next_hops.specs.Tasks.{KeepsTasks};
ghost use Rattle.relay_next_hops.specs.Waking.{WakesForHolds};
ghost use Rattle.relay_lanes.specs.Paces.{HasLane, IsHeldAt, MayBeginAt, RunsOneLess, RunsOneMore};
ghost use Rattle.relay_lanes.specs.Paces.{has_answered_at};

use crate::delivery::Aim;
use relay_connections::Now;
use relay_control::Held;
use relay_lanes::{Lane, Numbers, Paces, Places, Task};
use relay_limits::Outage;
use relay_log::LastReplies;
use std::alloc::Global;
use std::collections::VecDeque;
use std::mem;
use std::net::SocketAddrV4;

/// The due mail.
pub(crate) struct Lanes {
    pub(crate) alloc: Global,
    /// The address of each lane, by number.
    pub(crate) places: Places,
    /// How many connections each lane has, and whether it is on hold.
    pub(crate) paces: Paces,
    /// The tasks of each lane.
    pub(crate) lanes: Vec<Lane>,
    /// The messages to be given up: with places that have no hop, or that a postmaster holds and whose time is over.
    pub(crate) unroutable: VecDeque<u64>,
    /// The most connections to one address.
    pub(crate) most: usize,
    /// The number of the first change that wasn't looked at.
    pub(crate) next_number: u64,
    /// The messages that may be queued, and how far the listing has come.
    pub(crate) queued: Numbers,
    /// Whether these are all of them.
    pub(crate) knows_all: bool,
    /// Whether a listing is in progress.
    pub(crate) is_listing: bool,
    /// How many milliseconds it has taken so far.
    pub(crate) took: u64,
    /// Whether mail may be due that isn't listed.
    pub(crate) is_stale: bool,
    /// Whether the next time at which mail is due may differ from what the node has said.
    pub(crate) is_unsure: bool,
    /// Whether something may begin that couldn't before.
    pub(crate) is_open: bool,
    /// Whether something was listed since tasks were last begun.
    pub(crate) is_fresh: bool,
    /// The tick before which no listing begins.
    pub(crate) next_listing: u64,
    /// The tick at which a listing begins even if nothing is known to be due.
    pub(crate) next_minute: u64,
    /// The tick at which mail is due that isn't listed, according to the node.
    pub(crate) next_due: u64,
    /// The tick at which the next hold ends.
    pub(crate) next_hold_end: u64,
    /// The lane that is looked at first.
    pub(crate) first: usize,
    /// The lane that gets the next free connection among those to next hops that haven't answered, if one waits for it.
    pub(crate) waiting: Option<usize>,
    /// The mail that a postmaster holds.
    pub(crate) held: Held,
    /// Whether a listing has come to mail that a postmaster holds, since the last one began.
    pub(crate) keeps: bool,
    /// The last reply of each next hop.
    pub(crate) last_replies: LastReplies,
}

// Written out, so that the proof of a caller that drops them stops at this function.
impl Drop for Lanes {
    fn drop(self) {
        let Lanes {
            alloc: _,
            places: _places,
            paces: _paces,
            lanes: _lanes,
            unroutable: _unroutable,
            most: _,
            next_number: _,
            queued: _queued,
            knows_all: _,
            is_listing: _,
            took: _,
            is_stale: _,
            is_unsure: _,
            is_open: _,
            is_fresh: _,
            next_listing: _,
            next_minute: _,
            next_due: _,
            next_hold_end: _,
            first: _,
            waiting: _,
            held: _held,
            keeps: _,
            last_replies: _last_replies,
        } = self;
    }
}

impl Lanes {
    /// Returns lanes without tasks and held mail, with at most `most` connections to one address. Allocates nothing.
    pub(crate) fn new(alloc: Global, most: usize) -> Self
        ensures fresh { IsNew most result }
        ensures held { HoldsNothing result.held }
    {
        Lanes {
            alloc,
            places: Places::new(alloc),
            paces: Paces::new(alloc),
            lanes: Vec::new(alloc),
            unroutable: VecDeque::new(alloc),
            most,
            next_number: 0,
            queued: Numbers::new(alloc),
            knows_all: false,
            is_listing: false,
            took: 0,
            is_stale: true,
            is_unsure: true,
            is_open: true,
            is_fresh: false,
            next_listing: 0,
            next_minute: 0,
            next_due: u64::MAX,
            next_hold_end: u64::MAX,
            first: 0,
            waiting: None,
            held: Held::new(alloc),
            keeps: false,
            last_replies: LastReplies::new(alloc),
        }
    }

    /// Returns the lanes as they were before anything was listed, for a relay that was opened again. The same mail is
    /// held, and the last replies stay.
    pub(crate) fn renewed(mut self) -> Self
        ensures fresh { IsNew self.most result }
        ensures held { result.held ≡ self.held }
    {
        let mut lanes = Lanes::new(self.alloc, self.most);
        mem::swap(&mut lanes.held, &mut self.held);
        mem::swap(&mut lanes.last_replies, &mut self.last_replies);
        lanes
    }

    /// Returns whether something may begin that couldn't before.
    pub(crate) fn is_open(&self) -> bool
        ensures { result ≡ self.now.is_open }
    {
        self.is_open
    }

    /// Notes that all has begun that may.
    pub(crate) fn close(&mut self)
        ensures counts { KeepsCounts self.old self.new }
        ensures rest { self.new ≡ closed self.old }
    {
        self.is_open = false;
    }

    /// Returns how many lanes there are.
    pub(crate) fn len(&self) -> usize
        ensures { result ≡ length self.now.lanes.items }
    {
        self.lanes.len()
    }

    /// Returns whether a lane has a task and may begin one more connection.
    pub(crate) fn may_begin(&self, number: usize, now: &Now) -> bool
        ensures { result ≡ false → MayBeginAt self.now.most now.now.tick self.now.paces number
            → tasks_at self.now number ≡ [] }
    {
        match self.lanes.get(number) {
            Some(lane) => !lane.is_empty() && self.paces.may_begin(number, self.most, now.tick),
            None => false,
        }
    }

    /// Takes the next task of a lane, if the lane may begin one more connection.
    pub(crate) fn next(&mut self, number: usize, now: &Now) -> Option<Task>
        ensures begins { IfSome result (λ _. MayBeginAt self.old.most now.now.tick self.old.paces number) }
        ensures tasks { tasks_at self.old number ≡ option_to_list result ++ tasks_at self.new number }
        ensures none { result ≡ None → MayBeginAt self.old.most now.now.tick self.old.paces number
            → tasks_at self.old number ≡ [] }
        ensures stays { slice_get self.new.lanes.items number ≡ None → slice_get self.old.lanes.items number ≡ None }
        ensures counts { KeepsCounts self.old self.new }
        ensures paces { self.new.paces ≡ self.old.paces }
        ensures only { OnlyLane number self.old self.new }
    {
        if self.paces.may_begin(number, self.most, now.tick) {
            self.pop(number)
        } else {
            None
        }
    }

    /// Takes the next task of a lane, whether it may begin or not.
    pub(crate) fn pop(&mut self, number: usize) -> Option<Task>
        ensures tasks { tasks_at self.old number ≡ option_to_list result ++ tasks_at self.new number }
        ensures none { result ≡ None → tasks_at self.old number ≡ [] }
        ensures stays { slice_get self.new.lanes.items number ≡ None → slice_get self.old.lanes.items number ≡ None }
        ensures counts { KeepsCounts self.old self.new }
        ensures paces { self.new.paces ≡ self.old.paces }
        ensures only { OnlyLane number self.old self.new }
    {
        match self.lanes.get_mut(number) {
            Some(lane) => lane.pop(),
            None => None,
        }
    }

    /// Puts a task back in front, unless its message will be listed anyway. If memory runs out, all due mail is listed
    /// again.
    pub(crate) fn put_back(&mut self, number: usize, task: Task)
        ensures back { IsPutBack number task self.old self.new }
        ensures kept { KeepsTasks number self.old self.new }
        ensures counts { KeepsCounts self.old self.new }
        ensures only { OnlyLane number self.old self.new }
        ensures added { length (tasks_at self.new number) ≤ length (tasks_at self.old number) + 1 }
    {
        if self.queued.is_to_come(task.message) {
            return;
        }
        if let Some(lane) = self.lanes.get_mut(number) {
            if !lane.put_back(task) {
                self.is_stale = true;
            }
        }
    }

    /// Returns the address of a lane.
    pub(crate) fn place_of(&self, number: usize) -> Option<SocketAddrV4>
        ensures { result ≡ slice_get self.now.places number }
    {
        self.places.get(number)
    }

    /// Returns the first message that is to be given up, and leaves it there.
    pub(crate) fn first_unroutable(&self) -> Option<u64>
        ensures first { (message : ℕ) (rest : List ℕ) → self.now.unroutable.items ≡ message ∷ rest
            → result ≡ Some message }
        ensures none { self.now.unroutable.items ≡ [] → result ≡ None }
    {
        self.unroutable.front().copied()
    }

    /// Takes the first message that is to be given up.
    pub(crate) fn next_unroutable(&mut self) -> Option<u64>
        ensures rest { self.new.unroutable.items ≡ drop 1 self.old.unroutable.items }
        ensures counts { KeepsCounts self.old self.new }
        ensures tasks { (self.new.lanes ≡ self.old.lanes) × (self.new.is_open ≡ self.old.is_open) }
    {
        self.unroutable.pop_front()
    }

    /// Requests that all due mail is listed again.
    pub(crate) fn list_anew(&mut self)
        ensures stale { self.new.is_stale ≡ true }
        ensures unroutable { self.new.unroutable ≡ self.old.unroutable }
        ensures counts { KeepsCounts self.old self.new }
        ensures tasks { (self.new.lanes ≡ self.old.lanes) × (self.new.is_open ≡ self.old.is_open) }
    {
        self.is_stale = true;
    }

    /// Returns whether such a message is left, something was listed since tasks were last begun, or a listing is in
    /// progress.
    pub(crate) fn is_ready(&self) -> bool {
        self.is_fresh || self.is_listing || !self.unroutable.is_empty()
    }

    /// Notes that a connection of a lane was begun.
    #[tactic(auto, using(relay_lanes::proofs::PaceLemmas::begun_runs))]
    pub(crate) fn began(&mut self, number: usize)
        ensures runs { HasLane self.old.paces number → RunsOneMore number self.old.paces self.new.paces }
        ensures places { KeepsPlaces self.old self.new }
        ensures only { OnlyLane number self.old self.new }
        ensures tasks { self.new.lanes ≡ self.old.lanes }
    {
        self.paces.began(number);
    }

    /// Notes that a connection of a lane is gone; the next due mail may be another then.
    pub(crate) fn ended(&mut self, number: usize)
        ensures runs { RunsOneLess number self.old.paces self.new.paces }
        ensures places { KeepsPlaces self.old self.new }
    {
        self.is_unsure = true;
        self.is_open = true;
        self.paces.ended(number);
    }

    /// Notes that the next hop of a lane has answered: more may begin.
    pub(crate) fn answered(&mut self, number: usize)
        ensures counts { KeepsCounts self.old self.new }
    {
        self.paces.answered(number);
        self.is_open = true;
    }

    /// Returns how many connections a lane has.
    pub(crate) fn standing(&self, number: usize) -> usize
        ensures { result ≡ standing_at self.now.paces number }
    {
        match self.paces.get(number) {
            Some(pace) => pace.standing(),
            None => 0,
        }
    }

    /// Returns whether a lane has, or had when a connection was begun, others beside it: if it is refused, it may have
    /// been one too many.
    pub(crate) fn is_shared(&self, aim: &Aim) -> bool
        ensures { result ≡ is_shared self.now.paces aim.now }
    {
        aim.beside || 1 < self.standing(aim.lane)
    }

    /// Returns whether the next hop of a lane has answered since it was last put on hold.
    pub(crate) fn has_answered(&self, number: usize) -> bool
        ensures { result ≡ has_answered_at self.now.paces number }
    {
        match self.paces.get(number) {
            Some(pace) => pace.has_answered(),
            None => false,
        }
    }

    /// Returns the outage of a lane's next hop, if it was put on hold and hasn't answered since.
    pub(crate) fn outage(&self, number: usize) -> Option<Outage> {
        match self.paces.get(number) {
            Some(pace) => pace.outage(),
            None => None,
        }
    }

    /// Notes that the next hop of a lane accepts no more connections than there are, and puts the task of the refused
    /// one back in front.
    pub(crate) fn turn_away(&mut self, number: usize, task: Task)
        ensures counts { KeepsCounts self.old self.new }
        ensures back { IsPutBack number task self.old self.new }
        ensures kept { KeepsTasks number self.old self.new }
    {
        self.paces.lower_limit(number);
        self.put_back(number, task);
    }

    /// Notes that an attempt of a lane has ended with an outcome: its next hop may accept one more connection.
    pub(crate) fn ended_well(&mut self, number: usize)
        ensures counts { KeepsCounts self.old self.new }
    {
        self.paces.raise_limit(number);
    }

    /// Returns whether a lane is on hold.
    pub(crate) fn is_held(&self, number: usize, now: &Now) -> bool
        ensures { IsTrue result ↔ IsHeldAt now.now.tick self.now.paces number }
    {
        self.paces.is_held(number, now.tick)
    }

    /// Puts a lane on hold, and returns for how many seconds, unless it is already.
    pub(crate) fn hold(&mut self, number: usize, now: &Now) -> Option<u64>
        ensures held { HoldsFrom now.now.tick number self.old.paces self.new.paces }
        ensures counts { KeepsCounts self.old self.new }
        ensures only { OnlyLane number self.old self.new }
        ensures tasks { self.new.lanes ≡ self.old.lanes }
        ensures ends { IfSome result (λ seconds. self.new.next_hold_end
            ≡ min self.old.next_hold_end (tick_after now.now.tick seconds)) }
        ensures wakes { WakesForHolds now.now.tick self.old → WakesForHolds now.now.tick self.new }
    {
        if self.is_held(number, now) {
            return None;
        }
        let seconds = self.paces.hold(number, now.tick)?;
        self.next_hold_end = self.next_hold_end.min(now.after(seconds));
        Some(seconds)
    }
}
