//! The clocks of a turn.
ghost use Rattle.std.specs.Prelude.{◌≡◌, ◌+◌, ◌-◌, ◌*◌, ◌/◌, ◌^◌, min};
ghost use Rattle.std.specs.Duration.{as_nanos};

use relay_trace::{Moment, clock_moment};
use std::rt::Clock;
use std::time::Duration;

/// The times of both clocks. Mail is due by the wall clock, which may be set; timeouts are by the monotonic clock.
#[derive(Drop)]
pub struct Now {
    /// The wall clock's time, in seconds.
    pub moment: Moment,
    /// The monotonic clock's time, in milliseconds.
    pub tick: u64,
}

impl Now {
    /// Reads both clocks. A wall clock that can't be read is at the first second, and a monotonic clock at 0.
    pub fn of<C: Clock>(clock: &C) -> Self {
        Now {
            moment: clock_moment(clock),
            tick: tick_of(clock),
        }
    }

    /// Returns the tick this many seconds from now, or the last tick.
    pub fn after(&self, seconds: u64) -> u64
        ensures { result ≡ min (self.now.tick + seconds * 1000) (2 ^ 64 - 1) }
    {
        self.tick.saturating_add(seconds.saturating_mul(1_000))
    }

    /// Returns the tick at which the wall clock reaches a time, unless it is set; the present tick for a time that has
    /// passed.
    pub fn tick_at(&self, moment: Moment) -> u64
        ensures { result ≡ min (self.now.tick + (moment - self.now.moment) * 1000) (2 ^ 64 - 1) }
    {
        self.after(moment.seconds().saturating_sub(self.moment.seconds()))
    }
}

/// Reads the monotonic clock, in milliseconds; 0, at which no timeout expires, if it can't be read.
pub fn tick_of<C: Clock>(clock: &C) -> u64 {
    match clock.monotonic() {
        Ok(time) => ticks_of(time),
        Err(_) => 0,
    }
}

/// Returns how many whole milliseconds a time has, at most 2^64 - 1.
fn ticks_of(time: Duration) -> u64
    ensures { result ≡ min (as_nanos time / 1_000_000) (2 ^ 64 - 1) }
{
    time.as_millis().min(u128::from(u64::MAX)) as u64
}
