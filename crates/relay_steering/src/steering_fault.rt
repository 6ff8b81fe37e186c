use relay_files::Fault;
use relay_queue::QueueFault;
use std::alloc::AllocError;
use std::fmt;

/// Why mail wasn't steered. Its text follows `relayd: `.
#[derive(Drop)]
pub enum SteeringFault {
    /// The configuration or the spool has this fault, memory ran out, or the output can't be written.
    Files(Fault),
    /// The queue can't be read, or nothing in it is selected.
    Queue(QueueFault),
    /// The configuration has no `control`.
    NoSocket,
    /// No relay listens at the control socket, or this user may not connect to it.
    NoRelay,
    /// Another process holds the spool, and the configuration has no `control`.
    Locked,
    /// No next hop can have this name.
    BadHop,
    /// The answer didn't come, or was cut.
    NoAnswer,
    /// The relay refused the request, for this reason.
    Refused(Vec<u8>),
    /// Some of the selected mail wasn't withdrawn.
    NotAll,
    /// Some of the selected mail wasn't saved, and is still queued.
    NotSaved,
}

impl fmt::Display for SteeringFault {
    fn fmt<W: fmt::Write>(&self, f: &mut fmt::Formatter<W>) -> fmt::Result {
        match self {
            SteeringFault::Files(fault) => write!(f, "{fault}"),
            SteeringFault::Queue(fault) => write!(f, "{fault}"),
            SteeringFault::NoSocket => {
                f.write_str("control: not configured; set control = \"/run/relayd/control\"")
            }
            SteeringFault::NoRelay => {
                f.write_str("control: no relay listens, or this user may not connect")
            }
            SteeringFault::Locked => {
                f.write_str(
                    "locked\nrelayd: another relayd holds the spool: stop it, or set control and restart it",
                )
            }
            SteeringFault::BadHop => f.write_str("control: no next hop can have this name"),
            SteeringFault::NoAnswer => f.write_str("control: the relay has not answered"),
            SteeringFault::Refused(reason) => {
                f.write_str("control: ")?;
                match std::str::from_utf8(reason.as_slice()) {
                    Ok(text) => f.write_str(text),
                    Err(_) => f.write_str("refused"),
                }
            }
            SteeringFault::NotAll => f.write_str("not all of the mail was withdrawn; try again"),
            SteeringFault::NotSaved => f.write_str("mail that was not saved is still queued"),
        }
    }
}

impl From<AllocError> for SteeringFault {
    ghost use Rattle.std.specs.Prelude.{◌≡◌};
    ghost use Rattle.relay_files.specs.declared.fault.Fault.TheVariants.{NoMemory};
    ghost use Rattle.relay_steering.specs.declared.steering_fault.SteeringFault.TheVariants.{Files};

    ghost from_gives = { λ _ fault. fault ≡ Files NoMemory };

    fn from(_fault: AllocError) -> SteeringFault {
        SteeringFault::Files(Fault::NoMemory)
    }
}

impl From<Fault> for SteeringFault {
    ghost use Rattle.std.specs.Prelude.{◌≡◌};
    ghost use Rattle.relay_steering.specs.declared.steering_fault.SteeringFault.TheVariants.{Files};

    ghost from_gives = { λ given fault. fault ≡ Files given };

    fn from(fault: Fault) -> SteeringFault {
        SteeringFault::Files(fault)
    }
}

impl From<QueueFault> for SteeringFault {
    ghost use Rattle.std.specs.Prelude.{◌≡◌};
    ghost use Rattle.relay_steering.specs.declared.steering_fault.SteeringFault.TheVariants.{Queue};

    ghost from_gives = { λ given fault. fault ≡ Queue given };

    fn from(fault: QueueFault) -> SteeringFault {
        SteeringFault::Queue(fault)
    }
}
