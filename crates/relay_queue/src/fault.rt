use relay_files::Fault;
use std::alloc::AllocError;
use thiserror::Error;

/// Why the queue can't be shown. Its text follows `relayd: `.
#[derive(Clone, Copy, Debug, PartialEq, Eq, Error)]
pub enum QueueFault {
    /// A file can't be read or is invalid, memory ran out, or the output can't be written.
    #[error("{0}")]
    Files(Fault),
    /// The message of this number doesn't exist, or none of its recipients is queued.
    #[error("message {0} is not queued")]
    NotQueued(u64),
    /// An age isn't a number and a unit.
    #[error("an age is a number and s, m, h or d, as 4h")]
    BadAge,
    /// No queued recipient matches what is asked for.
    #[error("no queued mail matches")]
    NothingSelected,
}

impl From<Fault> for QueueFault {
    ghost use Rattle.std.specs.Prelude.{◌≡◌};
    ghost use Rattle.relay_queue.specs.declared.fault.QueueFault.TheVariants.{Files};

    ghost from_gives = { λ given fault. fault ≡ Files given };

    fn from(fault: Fault) -> QueueFault {
        QueueFault::Files(fault)
    }
}

impl From<AllocError> for QueueFault {
    ghost use Rattle.std.specs.Prelude.{◌≡◌};
    ghost use Rattle.relay_files.specs.declared.fault.Fault.TheVariants.{NoMemory};
    ghost use Rattle.relay_queue.specs.declared.fault.QueueFault.TheVariants.{Files};

    ghost from_gives = { λ _ fault. fault ≡ Files NoMemory };

    fn from(_fault: AllocError) -> QueueFault {
        QueueFault::Files(Fault::NoMemory)
    }
}
