//! Why a call of a node is refused, and why a disk isn't opened.
use relay_disk::Disks;
use relay_spool::SpoolFault;
use std::alloc::AllocError;
use thiserror::Error;

/// Why a disk wasn't opened, or no records were made on it.
#[derive(Clone, Copy, Debug, PartialEq, Eq, Error)]
pub enum Cause {
    /// The spool was refused; lack of memory too.
    #[error("spool: {0}")]
    Spool(SpoolFault),
    /// The body of this number, from 1, is the first that records no change which fits those before it.
    #[error("bad record {0}")]
    BadRecord(usize),
}

/// Why a call of a node was refused.
#[derive(Clone, Copy, Debug, PartialEq, Eq, Error)]
pub enum NodeFault {
    /// Memory ran out. The session or attempt of the call is gone; the records are unchanged.
    #[error("no memory")]
    NoMemory,
    /// The device failed, in this call or before it. The node is stopped: open its disk again.
    #[error("stopped")]
    Stopped,
    /// There is no such session or attempt, or no such message with a held place.
    #[error("unknown")]
    Unknown,
    /// The most sessions, or attempts, are open.
    #[error("too many")]
    TooMany,
    /// No place of this hop is due, or none is without a hop.
    #[error("not due")]
    NotDue,
    /// An attempt for this message and hop is running.
    #[error("busy")]
    Busy,
    /// The disk wasn't opened.
    #[error("not opened: {0}")]
    Open(Cause),
    /// The spool would pass 2^40 octets, or the number of a change 2^62. The records are unchanged. For a
    /// compaction: the snapshot passes 4,294,967,295 octets, or the spool's generation is the last.
    #[error("full")]
    Full,
    /// The spool has no second disk, so it can't be compacted. The records are unchanged.
    #[error("no second disk")]
    NoSecond,
}

/// Disks that weren't opened, or on which no records were made, with the reason.
#[derive(Drop)]
pub struct NotOpened<D> {
    pub cause: Cause,
    pub disk: Disks<D>,
}

impl From<AllocError> for Cause {
    ghost use Rattle.std.specs.Prelude.{◌≡◌};
    ghost use Rattle.relay_records.specs.declared.fault.Cause.TheVariants.{Spool};
    ghost use Rattle.relay_spool.specs.declared.fault.SpoolFault.TheVariants.{NoMemory};

    ghost from_gives = { λ _ cause. cause ≡ Spool NoMemory };

    fn from(_fault: AllocError) -> Cause {
        Cause::Spool(SpoolFault::NoMemory)
    }
}

impl From<AllocError> for NodeFault {
    ghost use Rattle.std.specs.Prelude.{◌≡◌};
    ghost use Rattle.relay_records.specs.declared.fault.NodeFault.TheVariants.{NoMemory};

    ghost from_gives = { λ _ fault. fault ≡ NoMemory };

    fn from(_fault: AllocError) -> NodeFault {
        NodeFault::NoMemory
    }
}

impl From<Cause> for NodeFault {
    ghost use Rattle.std.specs.Prelude.{◌≡◌};
    ghost use Rattle.relay_records.specs.declared.fault.NodeFault.TheVariants.{Open};

    ghost from_gives = { λ cause fault. fault ≡ Open cause };

    fn from(cause: Cause) -> NodeFault {
        NodeFault::Open(cause)
    }
}
