//! The numbers of messages that may have work.
ghost use Rattle.std.specs.Prelude.{IfOk};
ghost use Rattle.std.specs.BTreeSet.{IsOrdered};
ghost use Rattle.std.specs.Ordering.{nat_cmp};
ghost use Rattle.relay_attempts.specs.Gathering.{AreGathered};

use std::alloc::{AllocError, Global};
use std::collections::BTreeSet;

/// Returns the numbers of these places' messages together with the given numbers. Fails if memory runs out.
pub(crate) fn gathered(
    alloc: Global,
    marks: &[(u64, u8)],
    list: &[u64],
) -> Result<BTreeSet<u64, Global>, AllocError>
    ensures all { IfOk result (λ numbers. AreGathered marks.now list.now numbers.keys) }
    ensures rise { IfOk result (λ numbers. IsOrdered nat_cmp numbers) }
{
    let mut numbers = BTreeSet::new(alloc);
    for mark in marks {
        numbers.insert(mark.0)?;
    }
    for number in list {
        numbers.insert(*number)?;
    }
    Ok(numbers)
}
