ghost use Rattle.std.specs.Prelude.{◌≡◌};
ghost use Rattle.relay_links.specs.Link.{link_fault_of};

use relay_node::NodeFault;
use std::alloc::AllocError;

/// Why a link ended before its client or the relay closed it.
#[derive(Clone, Copy, Debug, Drop, PartialEq, Eq, thiserror::Error)]
pub enum LinkFault {
    /// The reader failed, or 2^40 reads were done.
    #[error("input")]
    Input,
    /// The writer failed, or took no octet.
    #[error("output")]
    Output,
    /// Memory ran out.
    #[error("no memory")]
    NoMemory,
    /// Changes have no numbers any more.
    #[error("spool Full")]
    Full,
    /// The device of the node failed.
    #[error("device")]
    Device,
}

impl From<AllocError> for LinkFault {
    ghost use Rattle.std.specs.Prelude.{◌≡◌};
    ghost use Rattle.relay_links.specs.declared.fault.LinkFault.TheVariants.{NoMemory};

    ghost from_gives = { λ _ fault. fault ≡ NoMemory };

    fn from(_fault: AllocError) -> LinkFault {
        LinkFault::NoMemory
    }
}

/// Returns the fault of a link by that of its node. A session or an attempt that the node doesn't have reads nothing.
pub fn link_fault(fault: NodeFault) -> LinkFault
    ensures { result ≡ link_fault_of fault }
{
    match fault {
        NodeFault::NoMemory => LinkFault::NoMemory,
        NodeFault::Stopped => LinkFault::Device,
        NodeFault::Full => LinkFault::Full,
        NodeFault::Unknown => LinkFault::Input,
        NodeFault::TooMany => LinkFault::Input,
        NodeFault::NotDue => LinkFault::Input,
        NodeFault::Busy => LinkFault::Input,
        NodeFault::NoSecond => LinkFault::Input,
        NodeFault::Open(_) => LinkFault::Input,
    }
}
