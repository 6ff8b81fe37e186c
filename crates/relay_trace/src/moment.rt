use std::alloc::AllocError;
use std::marker::Model;
use thiserror::Error;

/// The last time, in seconds from 1970: 31 December 9998, 23:59:59 UTC.
pub const LAST_SECOND: u64 = 253_370_764_799;

/// A time in whole seconds from 1 January 1970, 00:00:00 UTC, up to the end of the year 9998.
#[derive(Clone, Copy, Debug, PartialEq, Eq, PartialOrd, Ord)]
pub struct Moment {
    seconds: u64,
}

impl Model for Moment {
    ghost use Rattle.std.specs.Prelude.{ℕ, ◌≤◌};
    ghost use Rattle.relay_trace.specs.DateTime.{last_second};

    ghost Value = { ℕ };

    ghost view = { λ moment. moment.seconds };

    ghost invariant = { λ moment. moment.seconds ≤ last_second };

    ghost inverse = { λ seconds. record { seconds = seconds } };
}

/// Why a call on times and trace lines fails.
#[derive(Clone, Copy, Debug, PartialEq, Eq, Error)]
pub enum TraceFault {
    /// The seconds are after [`LAST_SECOND`].
    #[error("moment out of range")]
    OutOfRange,
    /// Memory ran out.
    #[error("no memory")]
    NoMemory,
}

impl From<AllocError> for TraceFault {
    ghost use Rattle.std.specs.Prelude.{◌≡◌};
    ghost use Rattle.relay_trace.specs.declared.moment.TraceFault.TheVariants.{NoMemory};

    ghost from_gives = { λ _ fault. fault ≡ NoMemory };

    fn from(_fault: AllocError) -> TraceFault {
        TraceFault::NoMemory
    }
}

impl Moment {
    ghost use Rattle.std.specs.Prelude.{◌≡◌, ◌≤◌, ◌<◌, min, MatchResult};
    ghost use Rattle.relay_trace.specs.DateTime.{last_second};

    /// Makes a time from seconds from 1970. Fails after [`LAST_SECOND`].
    pub fn new(seconds: u64) -> Result<Self, TraceFault>
        ensures { MatchResult result (λ moment. (seconds ≤ last_second) × (moment ≡ seconds))
            (λ fault. (last_second < seconds) × (fault ≡ TraceFault.OutOfRange)) }
    {
        if seconds > LAST_SECOND {
            return Err(TraceFault::OutOfRange);
        }
        Ok(Moment { seconds })
    }

    /// Makes a time from seconds from 1970, or the last time if there are more.
    pub fn nearest(seconds: u64) -> Self
        ensures { result ≡ min seconds last_second }
    {
        Moment {
            seconds: seconds.min(LAST_SECOND),
        }
    }

    /// Returns the seconds from 1970.
    pub fn seconds(self) -> u64
        ensures seconds { result ≡ self }
        ensures within { result ≤ last_second }
    {
        self.seconds
    }
}
