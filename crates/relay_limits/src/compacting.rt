//! When a spool is compacted without being asked to.
ghost use Rattle.std.specs.Prelude.{◌↔◌, IsTrue};
ghost use Rattle.relay_limits.specs.Compacting.{HasHalved, IsWorthIt};

/// A spool of no more octets than this isn't compacted without being asked to.
const SMALL_SPOOL: u64 = 16 * 1024 * 1024;

/// A full spool is compacted where that saves one of this many parts of it, so that it isn't for each message that
/// leaves it.
const PARTS: usize = 16;

/// Returns whether a spool of this size is worth compacting, which then takes this many octets: where much of it goes,
/// or where mail was refused because it was full, and a sixteenth goes.
pub fn is_worth_compacting(size: usize, compacted: usize, limit: u64, was_full: bool) -> bool
    ensures { IsTrue result ↔ IsWorthIt size compacted limit was_full }
{
    has_halved(size, compacted, limit) || (was_full && compacted <= size - size / PARTS)
}

/// Returns whether a spool passes the lesser of 16 MiB and half of its limit, and more than half of it goes.
fn has_halved(size: usize, compacted: usize, limit: u64) -> bool
    ensures { IsTrue result ↔ HasHalved size compacted limit }
{
    size as u64 > SMALL_SPOOL.min(limit / 2) && compacted < size - size / 2
}
