//! The end of a text, in the text's own memory.
ghost use Rattle.std.specs.Prelude.{◌≡◌, ◌≤◌, drop, length};

use std::collections::VecDeque;

/// Returns what is after this many octets. Allocates nothing: in a ring the octets before it go after it and are cut
/// off, and it moves down at once.
#[tactic(auto, using(crate::proofs::TailLemmas::cut_turned))]
pub(crate) fn after(text: Vec<u8>, count: usize) -> Vec<u8>
    requires { count ≤ length text.items }
    ensures { result.items ≡ drop count text.items }
{
    let len = text.len() - count;
    let mut ring = VecDeque::from_vec(text);
    ring.rotate_left(count);
    ring.truncate(len);
    ring.into_vec()
}
