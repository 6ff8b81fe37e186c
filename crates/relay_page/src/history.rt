//! The last 24 hours: accepted messages and sent recipients, minute by minute.
ghost use Rattle.std.specs.Prelude.{◌≡◌, ◌<◌, length};

use std::alloc::{AllocError, Global};

/// How many minutes are kept.
pub const MINUTES: usize = 1_440;

/// What was done in one minute.
#[derive(Clone, Copy, Drop, PartialEq, Eq)]
pub struct Minute {
    /// Messages that were accepted.
    pub accepted: u64,
    /// Recipients that a next hop has taken responsibility for.
    pub sent: u64,
}

impl Minute {
    const NONE: Minute = Minute {
        accepted: 0,
        sent: 0,
    };
}

/// What was done in each of the last 1,440 minutes.
#[derive(Drop)]
pub struct History {
    /// The entry for minute `m` since 1970 is at index `m` modulo 1,440.
    minutes: Vec<Minute>,
    /// The last minute with an entry, in minutes since 1970.
    last: u64,
    /// The counts since the relay began, up to the last minute.
    total: Minute,
    ghost all: { length minutes.items ≡ 1440 },
}

impl History {
    /// Returns a history without counts, which begins at this minute. Fails if memory runs out.
    pub fn new(alloc: Global, minute: u64) -> Result<Self, AllocError> {
        let mut minutes = Vec::with_capacity(alloc, MINUTES)?;
        for _ in 0..MINUTES {
            minutes.push(Minute::NONE)?;
        }
        Ok(History {
            minutes,
            last: minute,
            total: Minute::NONE,
        })
    }

    /// Notes the counts since the relay began, at this minute: their growth since the last note belongs to this minute.
    /// A minute before the last one, after the clock was set back, counts as the last one.
    pub fn note(&mut self, minute: u64, total: Minute) {
        self.advance(minute);
        let index = (self.last % MINUTES as u64) as usize;
        let kept = &mut self.minutes[index];
        kept.accepted = kept
            .accepted
            .saturating_add(total.accepted.saturating_sub(self.total.accepted));
        kept.sent = kept
            .sent
            .saturating_add(total.sent.saturating_sub(self.total.sent));
        self.total = total;
    }

    /// Clears the entries between the last minute and this one.
    fn advance(&mut self, minute: u64) {
        let passed = minute.saturating_sub(self.last).min(MINUTES as u64);
        for step in 0..passed {
            let index = (minute.saturating_sub(step) % MINUTES as u64) as usize;
            self.minutes[index] = Minute::NONE;
        }
        self.last = self.last.max(minute);
    }

    /// Returns what was done in `count` minutes, the last of which is `ago` minutes before the last one.
    pub fn sum(&self, ago: u64, count: u64) -> Minute {
        let mut sum = Minute::NONE;
        for step in 0..count.min(MINUTES as u64) {
            let minute = self.last.saturating_sub(ago).saturating_sub(step);
            let kept = self.minutes[(minute % MINUTES as u64) as usize];
            sum.accepted = sum.accepted.saturating_add(kept.accepted);
            sum.sent = sum.sent.saturating_add(kept.sent);
        }
        sum
    }
}
