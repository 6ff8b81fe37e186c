// Heads, as they are found on disks.
ghost use Rattle.std.specs.Prelude.{◌<◌};

use crate::taken::{HeadGate, Taken};

/// What the first octets of a disk say.
#[derive(Clone, Copy, Drop)]
pub(crate) struct Head {
    pub(crate) gate: Option<HeadGate>,
    /// Where the head is open.
    pub(crate) opening: Option<OpenHead>,
}

/// An open head, which a gate of the chain follows.
#[derive(Clone, Copy, Drop)]
pub(crate) struct OpenHead {
    pub(crate) generation: u64,
    /// How many octets the disk holds.
    pub(crate) size: usize,
    ghost more: { 17 < size },
}

/// Which of two disks is taken, with the head that it was taken for.
#[derive(Clone, Copy, Drop)]
pub(crate) struct Choice {
    pub(crate) taken: Taken,
    pub(crate) head: OpenHead,
}
