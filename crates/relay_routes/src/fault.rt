ghost use Rattle.std.specs.Prelude.{◌≡◌};
ghost use Rattle.relay_routes.specs.declared.fault.RouteFault.TheVariants.{NoMemory};

use crate::key::Key;
use std::alloc::AllocError;
use thiserror::Error;

/// Why a route isn't added. The table is unchanged.
#[derive(Clone, Copy, Debug, Drop, PartialEq, Eq, Error)]
pub enum RouteFault {
    /// It is for something that is neither a domain nor `*`.
    #[error("bad domain")]
    BadDomain,
    /// There is a route for this domain already, in any letter case.
    #[error("domain given twice")]
    Repeated,
    /// There is a route to this name at another place already.
    #[error("one name with two places")]
    SecondPlace,
    /// Memory ran out.
    #[error("no memory")]
    NoMemory,
}

impl From<AllocError> for RouteFault {
    ghost from_gives = { λ _ fault. fault ≡ NoMemory };

    fn from(_fault: AllocError) -> Self {
        RouteFault::NoMemory
    }
}

/// Why a configuration is refused, in this order; of the keys the first in the order of [`Key`].
#[derive(Clone, Copy, Debug, Drop, PartialEq, Eq, Error)]
pub enum ConfigFault {
    /// The text is no TOML.
    #[error("NotToml")]
    NotToml,
    /// A key that must be there is missing.
    #[error("Missing {0}")]
    Missing(Key),
    /// A key has a value that it may not have.
    #[error("BadValue {0}")]
    BadValue(Key),
    /// Memory ran out.
    #[error("no memory")]
    NoMemory,
}

impl From<AllocError> for ConfigFault {
    ghost use Rattle.relay_routes.specs.declared.fault.ConfigFault.TheVariants.{NoMemory as OutOfMemory};

    ghost from_gives = { λ _ fault. fault ≡ OutOfMemory };

    fn from(_fault: AllocError) -> Self {
        ConfigFault::NoMemory
    }
}
