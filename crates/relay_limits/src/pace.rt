ghost use Rattle.std.specs.Prelude.{◌≡◌, ◌↔◌, ◌<◌, ◌+◌, ◌-◌, ◌^◌, max, min, IsTrue};
ghost use Rattle.relay_limits.specs.Pace.{IsHeld, MayBegin, answered_pace, held_from, hold_end, next_hold};
ghost use Rattle.relay_limits.specs.Pace.{next_outage, outage_of, probed, standing, unknown_pace, with_leaving};
ghost use Rattle.relay_limits.specs.Pace.{with_limit, with_running};

/// How many seconds a next hop that can't be reached is on hold the first time. After each further attempt it is twice
/// as long, up to the longest.
const FIRST_HOLD: u64 = 60;

/// The most seconds that a next hop is on hold.
const LONGEST_HOLD: u64 = 30 * 60;

/// A next hop can't be reached, or says nothing.
#[derive(Clone, Copy, Debug)]
pub struct Outage {
    /// The tick at which it was put on hold first.
    pub since: u64,
    /// How many times it was put on hold, up to 2^64 - 1: once for each connection that failed outside of a hold.
    pub failures: u64,
}

/// A next hop is on hold.
#[derive(Clone, Copy, Debug)]
struct Hold {
    /// The tick at which it ends. One attempt is made then.
    until: u64,
    /// How many seconds it lasts.
    seconds: u64,
    /// What it belongs to.
    outage: Outage,
}

/// How many connections to a next hop stand, how many it takes, and whether it is on hold. A tick is a millisecond of a
/// monotonic clock.
#[derive(Drop)]
pub struct Pace {
    /// How many attempts run, each by a connection.
    running: usize,
    /// How many connections stand beside these whose attempt has ended: the next hop counts them until they are closed.
    leaving: usize,
    /// The most connections that the next hop takes at a time, as far as is known.
    limit: usize,
    /// The next hop has said something since it was put on hold last, or since the relay began.
    has_answered: bool,
    hold: Option<Hold>,
}

impl Pace {
    /// Returns the pace of a next hop that has said nothing yet: no connection stands.
    pub fn new() -> Self
        ensures { result ≡ unknown_pace }
    {
        Pace {
            running: 0,
            leaving: 0,
            limit: usize::MAX,
            has_answered: false,
            hold: None,
        }
    }

    /// Returns whether one more connection may be begun: fewer attempts run than `most`, fewer connections stand than
    /// the next hop takes, and the next hop isn't on hold. Until it has said something only one is made, so that a next
    /// hop that can't be reached, or is silent, takes no more of those that there may be.
    pub fn may_begin(&self, most: usize, tick: u64) -> bool
        ensures { IsTrue result ↔ MayBegin most tick self.now }
    {
        let takes_one_more = if self.has_answered {
            self.running < most && self.standing() < self.limit
        } else {
            self.running == 0
        };
        takes_one_more && !self.is_held(tick)
    }

    /// Returns how many connections to the next hop stand, with those whose attempt has ended.
    pub fn standing(&self) -> usize
        ensures { result ≡ standing self.now }
    {
        self.running.saturating_add(self.leaving)
    }

    /// Returns whether connections stand whose attempt has ended.
    pub fn has_leaving(&self) -> bool
        ensures { IsTrue result ↔ (0 < self.now.leaving) }
    {
        0 < self.leaving
    }

    /// Returns whether the next hop has said something since it was put on hold last, or since the relay began.
    pub fn has_answered(&self) -> bool
        ensures { result ≡ self.now.has_answered }
    {
        self.has_answered
    }

    /// Lowers the limit to the connections that stand, 1 at least: the next hop has refused one more.
    pub fn lower_limit(&mut self)
        ensures { self.new ≡ with_limit (max (standing self.old) 1) self.old }
    {
        self.limit = self.standing().max(1);
    }

    /// Raises the limit by one: an attempt has ended well, so the next hop may take one more.
    pub fn raise_limit(&mut self)
        ensures { self.new ≡ with_limit (min (self.old.limit + 1) (2 ^ 64 - 1)) self.old }
    {
        self.limit = self.limit.saturating_add(1);
    }

    /// Counts one more connection of an attempt.
    pub fn began(&mut self)
        ensures { self.new ≡ with_running (min (self.old.running + 1) (2 ^ 64 - 1)) self.old }
    {
        self.running = self.running.saturating_add(1);
    }

    /// Counts one less: an attempt's connection, or what was to be one, is gone or is leaving.
    pub fn ended(&mut self)
        ensures { self.new ≡ with_running (self.old.running - 1) self.old }
    {
        self.running = self.running.saturating_sub(1);
    }

    /// Notes how many connections stand whose attempt has ended.
    pub fn note_leaving(&mut self, count: usize)
        ensures { self.new ≡ with_leaving count self.old }
    {
        self.leaving = count;
    }

    /// Notes that the next hop has said something: when it can't be reached the next time, it is on hold for as short
    /// as the first time.
    pub fn answered(&mut self)
        ensures { self.new ≡ answered_pace self.old }
    {
        self.has_answered = true;
        self.hold = None;
    }

    /// Returns whether the next hop is on hold.
    pub fn is_held(&self, tick: u64) -> bool
        ensures { IsTrue result ↔ IsHeld self.now.hold tick }
    {
        match self.hold {
            Some(hold) => tick < hold.until,
            None => false,
        }
    }

    /// Puts the next hop on hold from this tick on, and returns for how many seconds.
    pub fn hold(&mut self, tick: u64) -> u64
        ensures seconds { result ≡ next_hold self.old.hold }
        ensures held { self.new ≡ held_from tick self.old }
    {
        let seconds = match self.hold {
            Some(hold) => hold.seconds.saturating_mul(2).min(LONGEST_HOLD),
            None => FIRST_HOLD,
        };
        let outage = self.next_outage(tick);
        self.has_answered = false;
        self.hold = Some(Hold {
            until: tick.saturating_add(seconds.saturating_mul(1_000)),
            seconds,
            outage,
        });
        seconds
    }

    /// Ends the hold of the next hop at this tick, so that one attempt may be made.
    pub fn probe(&mut self, tick: u64)
        ensures { self.new ≡ probed tick self.old }
    {
        if let Some(hold) = self.hold {
            self.hold = Some(Hold {
                until: hold.until.min(tick),
                ..hold
            });
        }
    }

    /// Returns the outage, with a connection more that has failed at this tick.
    fn next_outage(&self, tick: u64) -> Outage
        ensures { result ≡ next_outage tick self.now.hold }
    {
        match self.hold {
            Some(hold) => Outage {
                since: hold.outage.since,
                failures: hold.outage.failures.saturating_add(1),
            },
            None => Outage {
                since: tick,
                failures: 1,
            },
        }
    }

    /// Returns the outage, if the next hop was put on hold and has said nothing since.
    pub fn outage(&self) -> Option<Outage>
        ensures { result ≡ outage_of self.now.hold }
    {
        match self.hold {
            Some(hold) => Some(hold.outage),
            None => None,
        }
    }

    /// Returns the tick up to which the next hop is on hold, if it is.
    pub fn held_until(&self, tick: u64) -> Option<u64>
        ensures { result ≡ hold_end tick self.now.hold }
    {
        match self.hold {
            Some(hold) if tick < hold.until => Some(hold.until),
            _ => None,
        }
    }
}
