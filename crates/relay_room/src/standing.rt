//! How a relay stands with the room on its disk, and what it may do by that.
ghost use Rattle.std.specs.Prelude.{ℕ, ◌≡◌, ◌*◌, ◌-◌, ◌^◌, ◌<◌, ◌↔◌, IsTrue};
ghost use Rattle.relay_room.specs.Standing.{MayBegin, bounded_limit, standing_at_failure, standing_at_test};

/// How many octets the outcome of an attempt takes, with a report of all its recipients that returns a header: while a
/// relay is short of room, an attempt begins only if a test found this many.
const OUTCOME: usize = 65_536;

/// How a relay stands with the room on its disk.
#[derive(Clone, Copy, PartialEq, Eq)]
pub enum Standing {
    /// The ballast is there.
    Roomy,
    /// The ballast isn't there.
    Short {
        /// How many octets the last test had room for; none if the device has failed since.
        room: usize,
        /// How many must be there before an attempt begins.
        need: usize,
    },
}

impl Standing {
    /// Nothing was tested yet.
    pub fn untested() -> Self
        ensures { result ≡ standing_at_failure Standing.Roomy 0 }
    {
        Standing::Roomy.after_failure(0)
    }

    /// How it stands once the device has failed: nothing is known of the room. If it was short of it before, an outcome
    /// has taken more than there was, and attempts wait for as much as the ballast has, which is of this size.
    pub fn after_failure(self, size: usize) -> Self
        ensures standing { result ≡ standing_at_failure self size }
        ensures held { (grown : ℕ) → ¬ MayBegin result grown }
    {
        let need = match self {
            Standing::Roomy => OUTCOME,
            Standing::Short { .. } => size.max(OUTCOME),
        };
        Standing::Short { room: 0, need }
    }

    /// How it is after a test that found this room, where the ballast is of this size.
    pub fn after_test(self, room: usize, size: usize) -> Self
        requires { size < 2 ^ 62 }
        ensures { result ≡ standing_at_test self room size }
    {
        match self {
            Standing::Short { need, .. } if room < size * 2 => Standing::Short { room, need },
            Standing::Short { .. } | Standing::Roomy => Standing::Roomy,
        }
    }

    /// Returns whether attempts may begin, where the spool has grown by this many octets since the test.
    pub fn may_begin(self, grown: usize) -> bool
        ensures { IsTrue result ↔ MayBegin self grown }
    {
        match self {
            Standing::Roomy => true,
            Standing::Short { room, need } => need <= room.saturating_sub(grown),
        }
    }

    /// Returns the limit of a spool whose files have this many octets, and whose limit is configured so.
    pub fn limit(self, configured: u64, files: u64) -> u64
        ensures { result ≡ bounded_limit self configured files }
    {
        match self {
            Standing::Roomy => configured,
            Standing::Short { room, .. } => {
                let held = files.saturating_add(room as u64) / 8 * 3;
                configured.min(held.max(1))
            }
        }
    }
}
