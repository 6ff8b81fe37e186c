//! How many replies to the attempts for a place were lost.
ghost use Rattle.std.specs.Prelude.{◌≡◌, ◌==◌};
ghost use Rattle.std.specs.List.{list_any};
ghost use Rattle.relay_world.specs.Copies.{is_lost, is_lost_reply, lost_replies_of};

use relay_world::{Attempt, Fate};

/// Returns how many of these attempts for a place of a node's message have ended without a final reply: their link was
/// lost, or their node dropped them. Allocates nothing.
pub(crate) fn lost_replies(attempts: &[Attempt], node: usize, message: u64, place: u64) -> usize
    ensures { result ≡ lost_replies_of node message place attempts.now }
{
    let mut count: usize = 0;
    for attempt in attempts {
        if is_lost_reply(attempt, node, message, place) {
            count += 1;
        }
    }
    count
}

/// Returns whether an attempt for that place has ended without a final reply.
fn is_lost_reply(attempt: &Attempt, node: usize, message: u64, place: u64) -> bool
    ensures { result ≡ is_lost_reply node message place attempt.now }
{
    attempt.node == node
        && attempt.message == message
        && is_tried(place, attempt.places.as_slice())
        && is_lost(&attempt.fate)
}

/// Returns whether a place is among these.
fn is_tried(place: u64, places: &[u8]) -> bool
    ensures { result ≡ list_any (λ tried. tried == place) places.now }
{
    places.iter().any(|tried| *tried as u64 == place)
}

/// Returns whether an attempt in this state has ended without a final reply.
fn is_lost(fate: &Fate) -> bool
    ensures { result ≡ is_lost fate.now }
{
    match *fate {
        Fate::Running(_) | Fate::Replied(_) => false,
        Fate::Lost(_) | Fate::Dropped => true,
    }
}
