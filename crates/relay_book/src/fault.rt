use std::alloc::AllocError;
use thiserror::Error;

/// Why a call on records or a book fails.
#[derive(Clone, Copy, Debug, PartialEq, Eq, Error)]
pub enum BookFault {
    /// The octets are no record, or the change doesn't fit.
    #[error("bad record")]
    BadRecord,
    /// Memory ran out.
    #[error("no memory")]
    NoMemory,
}

impl From<AllocError> for BookFault {
    ghost use Rattle.std.specs.Prelude.{◌≡◌};
    ghost use Rattle.relay_book.specs.declared.fault.BookFault.TheVariants.{NoMemory};

    ghost from_gives = { λ _ fault. fault ≡ NoMemory };

    fn from(_fault: AllocError) -> BookFault {
        BookFault::NoMemory
    }
}
