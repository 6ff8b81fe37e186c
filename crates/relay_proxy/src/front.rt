//! What octets begin with.
ghost use Rattle.std.specs.Prelude.{◌≡◌, ◌++◌, ◌↔◌, IsTrue, MatchOption};
ghost use Rattle.relay_octets.specs.Beginning.{Begins};

/// Returns what follows this beginning of the octets, if they begin so.
pub(crate) fn after<'a>(octets: &'a [u8], front: &[u8]) -> Option<&'a [u8]>
    ensures { MatchOption result (¬ Begins front.now octets.now) (λ rest. octets.now ≡ front.now ++ rest.now) }
{
    octets.strip_prefix(front)
}

/// Returns whether the octets begin so.
pub(crate) fn begins(octets: &[u8], front: &[u8]) -> bool
    ensures { IsTrue result ↔ Begins front.now octets.now }
{
    match after(octets, front) {
        Some(_) => true,
        None => false,
    }
}
