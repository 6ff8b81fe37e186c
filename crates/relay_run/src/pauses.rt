//! The pauses before a spool is opened again.
ghost use Rattle.std.specs.Prelude.{◌≡◌};
ghost use Rattle.relay_run.specs.Reopening.{next_pause};

use crate::failures::Failures;

/// The first pause before a spool is opened again, in seconds. It doubles after each further failure, up to
/// `LONGEST_PAUSE`.
const FIRST_PAUSE: u64 = 1;

/// The longest pause, in seconds.
const LONGEST_PAUSE: u64 = 60;

/// The pauses before a spool is opened again.
#[derive(Clone, Copy)]
pub(crate) struct Pauses {
    /// The next pause, in seconds.
    pub(crate) seconds: u64,
    /// The size of the spool when it was opened last, in octets.
    pub(crate) opened_size: usize,
    /// How many calls had failed then.
    pub(crate) failures: Failures,
}

impl Pauses {
    /// Returns the pauses for a spool of this size, before any failure.
    pub(crate) fn new(size: usize) -> Self {
        Pauses {
            seconds: FIRST_PAUSE,
            opened_size: size,
            failures: Failures::none(),
        }
    }

    /// Notes that the device has failed while the spool had this size. If the size has changed since the spool was
    /// opened, there was room meanwhile, and the pauses begin again.
    pub(crate) fn note_failure(&mut self, size: usize) {
        if self.opened_size != size {
            self.seconds = FIRST_PAUSE;
        }
    }

    /// Returns the next pause in seconds, and doubles it.
    pub(crate) fn next(&mut self) -> u64
        ensures pause { result ≡ self.old.seconds }
        ensures longer { self.new.seconds ≡ next_pause self.old.seconds }
    {
        let seconds = self.seconds;
        self.seconds = seconds.saturating_mul(2).min(LONGEST_PAUSE);
        seconds
    }
}
