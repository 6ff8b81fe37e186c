//! Clocks that stand still until a script sets them or the relay sleeps.
use std::cell::Cell;
use std::io;
use std::rt::Clock;
use std::time::Duration;

/// The wall clock, in seconds since 1970, and the monotonic clock, in milliseconds.
pub struct BoxClock {
    pub seconds: Cell<u64>,
    pub milliseconds: Cell<u64>,
    /// Whether the relay has slept since that was last asked.
    has_slept: Cell<bool>,
}

impl Drop for BoxClock {
    fn drop(self) {
        let BoxClock {
            seconds: _,
            milliseconds: _,
            has_slept: _,
        } = self;
    }
}

impl BoxClock {
    /// Returns clocks at their first times.
    pub fn new() -> Self {
        BoxClock {
            seconds: Cell::new(0),
            milliseconds: Cell::new(0),
            has_slept: Cell::new(false),
        }
    }

    /// Sets both clocks.
    pub fn set(&self, seconds: u64, milliseconds: u64) {
        self.seconds.set(seconds);
        self.milliseconds.set(milliseconds);
    }

    /// Returns whether the relay has slept since this was last asked.
    pub fn take_slept(&self) -> bool {
        self.has_slept.replace(false)
    }
}

impl Clock for BoxClock {
    fn monotonic(&self) -> io::Result<Duration> {
        Ok(Duration::from_millis(self.milliseconds.get()))
    }

    fn since_1970(&self) -> io::Result<Duration> {
        Ok(Duration::from_secs(self.seconds.get()))
    }

    fn sleep(&self, duration: Duration) {
        let slept = u64::try_from(duration.as_millis()).unwrap_or(u64::MAX);
        let before = self.milliseconds.get();
        let after = before.saturating_add(slept);
        self.milliseconds.set(after);
        // The wall clock goes on with the whole seconds of the other one.
        let passed = after / 1_000 - before / 1_000;
        self.seconds.set(self.seconds.get().saturating_add(passed));
        self.has_slept.set(true);
    }
}
