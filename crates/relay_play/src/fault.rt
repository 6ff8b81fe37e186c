//! Why a play ends before its script does.
ghost use Rattle.std.specs.Prelude.{◌≡◌, ◌≢◌};
ghost use Rattle.std.specs.IoError.{error_kind};

use std::alloc::AllocError;
use std::io::{self, ErrorKind};
use thiserror::Error;

/// Why a play ends before its script does. Its text follows `relayd: `.
#[derive(Clone, Copy, Debug, PartialEq, Eq, Error)]
pub enum PlayFault {
    /// The line of this number, from 1, isn't a line of a script.
    #[error("script line {0}")]
    Line(u64),
    /// The script can't be read.
    #[error("input")]
    Input,
    /// The results can't be written.
    #[error("output")]
    Output,
    /// Memory ran out.
    #[error("no memory")]
    NoMemory,
}

impl PlayFault {
    /// Returns the fault of a reader.
    pub(crate) fn of_input(error: &io::Error) -> Self
        ensures memory { error_kind error.now ≡ ErrorKind.OutOfMemory → result ≡ PlayFault.NoMemory }
        ensures other { error_kind error.now ≢ ErrorKind.OutOfMemory → result ≡ PlayFault.Input }
    {
        match error.kind() {
            ErrorKind::OutOfMemory => PlayFault::NoMemory,
            _ => PlayFault::Input,
        }
    }

    /// Returns the fault of a writer.
    pub(crate) fn of_output(error: &io::Error) -> Self
        ensures memory { error_kind error.now ≡ ErrorKind.OutOfMemory → result ≡ PlayFault.NoMemory }
        ensures other { error_kind error.now ≢ ErrorKind.OutOfMemory → result ≡ PlayFault.Output }
    {
        match error.kind() {
            ErrorKind::OutOfMemory => PlayFault::NoMemory,
            _ => PlayFault::Output,
        }
    }
}

impl From<AllocError> for PlayFault {
    ghost use Rattle.std.specs.Prelude.{◌≡◌};
    ghost use Rattle.relay_play.specs.declared.fault.PlayFault.TheVariants.{NoMemory};

    ghost from_gives = { λ _ fault. fault ≡ NoMemory };

    fn from(_fault: AllocError) -> PlayFault {
        PlayFault::NoMemory
    }
}
