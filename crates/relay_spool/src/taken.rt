// Which of a spool's two disks is taken.
ghost use Rattle.std.specs.Prelude.{◌≡◌, ◌≢◌, ◌⊎◌, ◌↔◌, ◌-◌, ◌<◌, ◌^◌, None, Some, Err, IfErr, IfOk};

use crate::SpoolFault;
use relay_disk::Side;

/// The head gate of a disk. One that holds fewer than 9 octets, or doesn't begin with the signature, has
/// none.
#[derive(Clone, Copy, Drop)]
pub(crate) enum HeadGate {
    Closed,
    Open,
}

/// Which disk is taken, and what must be known of both before the other is rewritten.
#[derive(Clone, Copy, Drop)]
pub(crate) struct Taken {
    pub(crate) side: Side,
    /// The generation of the disk that is taken.
    pub(crate) generation: u64,
    /// The head gate of the other.
    pub(crate) other: Option<HeadGate>,
}

impl Taken {
    ghost use Rattle.relay_spool.specs.declared.fault.SpoolFault.TheVariants.{Full, NoSecond};
    ghost use Rattle.relay_spool.specs.Pair.{IsTooMuch};

    /// Returns the head gate of the other disk, where that can be rewritten with a body of this many octets. `NoSecond`
    /// is searched for before `Full`.
    pub(crate) fn gate_for(&self, size: usize) -> Result<HeadGate, SpoolFault>
        ensures gate { IfOk result (λ gate. (self.now.other ≡ Some gate) × (size < 2 ^ 32)
            × (self.now.generation < 2 ^ 64 - 1)) }
        ensures refused { IfErr result (λ fault. (fault ≡ NoSecond) ⊎ (fault ≡ Full)) }
        ensures no_second { (result ≡ Err NoSecond) ↔ (self.now.other ≡ None) }
        ensures full { (result ≡ Err Full) ↔ ((self.now.other ≢ None) × IsTooMuch self.now size) }
    {
        let Some(gate) = self.other else {
            return Err(SpoolFault::NoSecond);
        };
        if u32::try_from(size).is_err() || self.generation == u64::MAX {
            return Err(SpoolFault::Full);
        }
        Ok(gate)
    }
}
