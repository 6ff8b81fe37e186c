ghost use Rattle.std.specs.Prelude.{◌≡◌};
ghost use Rattle.relay_book.specs.DueReport.{fate_of, fate_of_later, way_of};

use crate::change::{Verdict, Withdrawal};
use crate::limits::{LATENESS, PATIENCE};
use relay_trace::Moment;

/// What a verdict makes of a held place.
#[derive(Clone, Copy)]
pub enum Fate {
    /// It is tried again.
    Waits,
    /// It is tried again, and has waited for so long that this may be reported.
    Late,
    /// It ends: it was refused, can't be sent, has no hop, or was tried for too long.
    Failed,
    /// The hop took it, which offered DSN or not.
    Relayed(bool),
    /// The postmaster has ended it.
    Removed(Withdrawal),
}

/// How a place left the queue.
#[derive(Clone, Copy, Debug)]
pub enum Way {
    /// The next hop accepted it.
    ByTransfer,
    /// It failed.
    ByEnd,
    /// The postmaster has ended it.
    ByWithdrawal(Withdrawal),
}

/// What a change makes of a place, as it is told of.
#[derive(Clone, Copy, Debug)]
pub enum PlaceStep {
    /// It leaves the queue.
    Left(Way),
    /// It is reported as delayed, and stays held.
    Delayed,
}

/// Returns what a verdict at a time makes of a place that was accepted at another. Allocates nothing.
pub fn fate_of(accepted: Moment, at: Moment, verdict: &Verdict) -> Fate
    ensures { result ≡ fate_of accepted at verdict.now }
{
    match verdict {
        Verdict::Taken { dsn } => Fate::Relayed(*dsn),
        Verdict::Refused { .. } => Fate::Failed,
        Verdict::Later => fate_of_later(accepted, at),
        Verdict::CantSend => Fate::Failed,
        Verdict::NoRoute => Fate::Failed,
        Verdict::Withdrawn(withdrawal) => Fate::Removed(*withdrawal),
    }
}

/// Returns what becomes of a place that is to be tried again.
fn fate_of_later(accepted: Moment, at: Moment) -> Fate
    ensures { result ≡ fate_of_later accepted at }
{
    if at.seconds() >= accepted.seconds() + PATIENCE {
        Fate::Failed
    } else if at.seconds() >= accepted.seconds() + LATENESS {
        Fate::Late
    } else {
        Fate::Waits
    }
}

impl Fate {
    /// How the place leaves, if it does. Allocates nothing.
    pub fn way(self) -> Option<Way>
        ensures { result ≡ way_of self }
    {
        match self {
            Fate::Waits => None,
            Fate::Late => None,
            Fate::Failed => Some(Way::ByEnd),
            Fate::Relayed(_) => Some(Way::ByTransfer),
            Fate::Removed(withdrawal) => Some(Way::ByWithdrawal(withdrawal)),
        }
    }
}
