ghost use Rattle.std.specs.Prelude.{◌≡◌, ◌≢◌, ◌↔◌, IsTrue};
ghost use Rattle.std.specs.IoError.{error_kind, raw_os_error};
ghost use Rattle.std.specs.Option.{option_copied};
ghost use Rattle.relay_files.specs.Fault.{IsWantOfSockets, advice_on};

use relay_limits::Limit;
use relay_links::LinkFault;
use relay_node::{Cause, NodeFault};
use relay_routes::ConfigFault;
use relay_spool::SpoolFault;
use std::alloc::AllocError;
use std::io::{self, ErrorKind};
use thiserror::Error;

/// Linux's error if the system has no free file descriptor. The kit's `libc` has no name for it.
const ENFILE: i32 = 23;

/// Linux's error if there is no room for a socket's buffers.
const ENOBUFS: i32 = 105;

/// Why a run ends with status 1. Its text follows `relayd: `.
#[derive(Clone, Copy, Debug, PartialEq, Eq, Error)]
pub enum Fault {
    /// The configuration file's content is invalid.
    #[error("config {0}")]
    Config(ConfigFault),
    /// A limit in the configuration file has an invalid value.
    #[error("config BadValue {0}")]
    Limit(Limit),
    /// The spool's file isn't a spool.
    #[error("spool NotASpool")]
    NotASpool,
    /// The gate at this offset of the spool's file, in octets, is open, but what follows it passes the end of the file.
    #[error("spool Damaged {0}")]
    Damaged(usize),
    /// `init` was given a file that isn't empty.
    #[error("spool NotEmpty")]
    NotEmpty,
    /// The spool would pass 2^40 octets, change numbers have run out, or the queue is too large to compact.
    #[error("spool Full")]
    Full,
    /// The spool's second file can't be used for compaction: it was made before spools had two files.
    #[error("spool NoSecond")]
    NoSecond,
    /// The body of this number, from 1, holds no change that fits those before it.
    #[error("spool BadRecord {0}")]
    BadRecord(usize),
    /// The spool's file can't be opened, or its device has failed.
    #[error("device")]
    Device,
    /// Another process holds the lock of the spool's file. Its text is that of [`Fault::Device`]; [`Fault::advice`]
    /// says more.
    #[error("device")]
    Locked,
    /// Memory ran out.
    #[error("no memory")]
    NoMemory,
    /// Standard input or the configuration file can't be read.
    #[error("input")]
    Input,
    /// Standard output can't be written.
    #[error("output")]
    Output,
    /// The listener can't be opened, 64 connections in a row couldn't be accepted, or no file descriptor or memory is
    /// left for a connection to a next hop.
    #[error("socket")]
    Socket,
    /// The receipts of a round's threads disagree with what the node has accepted.
    #[error("receipts")]
    Receipts,
}

impl Fault {
    /// Returns the fault of a file that can't be read.
    pub fn of_input(error: &io::Error) -> Self
        ensures memory { error_kind error.now ≡ ErrorKind.OutOfMemory → result ≡ Fault.NoMemory }
        ensures other { error_kind error.now ≢ ErrorKind.OutOfMemory → result ≡ Fault.Input }
    {
        Fault::unless_memory(error, Fault::Input)
    }

    /// Returns the fault of a spool's file that can't be opened.
    pub fn of_device(error: &io::Error) -> Self
        ensures memory { error_kind error.now ≡ ErrorKind.OutOfMemory → result ≡ Fault.NoMemory }
        ensures other { error_kind error.now ≢ ErrorKind.OutOfMemory → result ≡ Fault.Device }
    {
        Fault::unless_memory(error, Fault::Device)
    }

    /// Returns the fault of a writer.
    pub fn of_output(error: &io::Error) -> Self
        ensures memory { error_kind error.now ≡ ErrorKind.OutOfMemory → result ≡ Fault.NoMemory }
        ensures other { error_kind error.now ≢ ErrorKind.OutOfMemory → result ≡ Fault.Output }
    {
        Fault::unless_memory(error, Fault::Output)
    }

    /// Returns a line that says what to do about the fault, if its text doesn't.
    pub fn advice(self) -> Option<&'static str>
        ensures { option_copied result ≡ advice_on self }
    {
        match self {
            Fault::Locked => Some("another relayd holds the spool: stop it, or wait until it ends"),
            _ => None,
        }
    }

    fn unless_memory(error: &io::Error, other: Fault) -> Self
        ensures memory { error_kind error.now ≡ ErrorKind.OutOfMemory → result ≡ Fault.NoMemory }
        ensures other { error_kind error.now ≢ ErrorKind.OutOfMemory → result ≡ other }
    {
        match error.kind() {
            ErrorKind::OutOfMemory => Fault::NoMemory,
            _ => other,
        }
    }
}

/// Returns whether a socket failed because this process or the system has no file descriptor or no memory left, and not
/// because of the peer.
pub fn is_want_of_sockets(error: &io::Error) -> bool
    ensures { IsTrue result ↔ IsWantOfSockets (raw_os_error error.now) }
{
    matches!(
        error.raw_os_error(),
        Some(libc::EMFILE | ENFILE | libc::ENOMEM | ENOBUFS)
    )
}

impl From<AllocError> for Fault {
    ghost use Rattle.std.specs.Prelude.{◌≡◌};
    ghost use Rattle.relay_files.specs.declared.fault.Fault.TheVariants.{NoMemory};

    ghost from_gives = { λ _ fault. fault ≡ NoMemory };

    fn from(_fault: AllocError) -> Fault {
        Fault::NoMemory
    }
}

impl From<ConfigFault> for Fault {
    ghost use Rattle.std.specs.Prelude.{◌≡◌};
    ghost use Rattle.relay_files.specs.Fault.{fault_of_config};

    ghost from_gives = { λ given fault. fault ≡ fault_of_config given };

    fn from(fault: ConfigFault) -> Fault {
        match fault {
            ConfigFault::NoMemory => Fault::NoMemory,
            other => Fault::Config(other),
        }
    }
}

impl From<Limit> for Fault {
    ghost use Rattle.std.specs.Prelude.{◌≡◌};
    ghost use Rattle.relay_files.specs.Fault.{fault_of_limit};

    ghost from_gives = { λ given fault. fault ≡ fault_of_limit given };

    fn from(limit: Limit) -> Fault {
        Fault::Limit(limit)
    }
}

impl From<Cause> for Fault {
    ghost use Rattle.std.specs.Prelude.{◌≡◌};
    ghost use Rattle.relay_files.specs.Fault.{fault_of_cause};

    ghost from_gives = { λ given fault. fault ≡ fault_of_cause given };

    fn from(cause: Cause) -> Fault {
        match cause {
            Cause::Spool(fault) => Fault::from(fault),
            Cause::BadRecord(number) => Fault::BadRecord(number),
        }
    }
}

impl From<SpoolFault> for Fault {
    ghost use Rattle.std.specs.Prelude.{◌≡◌};
    ghost use Rattle.relay_files.specs.Fault.{fault_of_spool};

    ghost from_gives = { λ given fault. fault ≡ fault_of_spool given };

    fn from(fault: SpoolFault) -> Fault {
        match fault {
            SpoolFault::Device => Fault::Device,
            SpoolFault::NotASpool => Fault::NotASpool,
            SpoolFault::Damaged(place) => Fault::Damaged(place),
            SpoolFault::NoMemory => Fault::NoMemory,
            SpoolFault::NotEmpty => Fault::NotEmpty,
            SpoolFault::Full => Fault::Full,
            SpoolFault::NoSecond => Fault::NoSecond,
        }
    }
}

impl From<NodeFault> for Fault {
    ghost use Rattle.std.specs.Prelude.{◌≡◌};
    ghost use Rattle.relay_files.specs.Fault.{fault_of_node};

    ghost from_gives = { λ given fault. fault ≡ fault_of_node given };

    fn from(fault: NodeFault) -> Fault {
        match fault {
            NodeFault::NoMemory => Fault::NoMemory,
            NodeFault::Full => Fault::Full,
            NodeFault::NoSecond => Fault::NoSecond,
            NodeFault::Open(cause) => Fault::from(cause),
            NodeFault::Stopped => Fault::Device,
            // The calls of this program ask only for what exists, and leave room.
            NodeFault::Unknown | NodeFault::TooMany | NodeFault::NotDue | NodeFault::Busy => {
                Fault::Device
            }
        }
    }
}

impl From<LinkFault> for Fault {
    ghost use Rattle.std.specs.Prelude.{◌≡◌};
    ghost use Rattle.relay_files.specs.Fault.{fault_of_link};

    ghost from_gives = { λ given fault. fault ≡ fault_of_link given };

    fn from(fault: LinkFault) -> Fault {
        match fault {
            LinkFault::Input => Fault::Input,
            LinkFault::Output => Fault::Output,
            LinkFault::NoMemory => Fault::NoMemory,
            LinkFault::Full => Fault::Full,
            LinkFault::Device => Fault::Device,
        }
    }
}
