//! Reading the clock.
use crate::moment::Moment;
use std::rt::Clock;

/// Returns the time of the clock, in whole seconds. A clock that can't be read, or is before 1970, counts as the first
/// second of 1970; one after the last second counts as that.
pub fn clock_moment<C: Clock>(clock: &C) -> Moment {
    match clock.since_1970() {
        Ok(time) => Moment::nearest(time.as_secs()),
        Err(_) => Moment::nearest(0),
    }
}
