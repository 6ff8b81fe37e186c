//! Numbers marked in a row of bits.
ghost use Rattle.std.specs.Prelude.{◌≡◌, ◌+◌, ◌*◌, ◌<◌, ◌^◌, length, IfOk, MatchOption};
ghost use Rattle.relay_report.specs.Marks.{empty_row, marked, marked_one, IsLeastUnmarked};
ghost use Rattle.relay_report.specs.Numbers.{all_begun, beginnings, IsLeastOutside};

use std::alloc::{AllocError, Global};

/// Returns the least number that isn't one of these, and that none of them begins with. Fails if memory runs out.
pub(crate) fn least_outside(alloc: Global, numbers: &[u64]) -> Result<u64, AllocError>
    ensures { IfOk result (λ least. IsLeastOutside (all_begun numbers.now) least) }
{
    match words_for(numbers.len()) {
        None => Err(AllocError),
        Some(count) => {
            let mut words = empty_row(alloc, count)?;
            mark_all(&mut words, numbers);
            Ok(least_unmarked(words.as_slice()))
        }
    }
}

/// Returns how many words have a bit more than 20 for each number: no number of 64 bits has more digits.
fn words_for(numbers: usize) -> Option<usize>
    ensures { MatchOption result (Unit {0}) (λ count. (20 * numbers < 64 * count) × (64 * count < 2 ^ 64)) }
{
    let bits = numbers.checked_mul(20)?.checked_add(64)?;
    Some(bits / 64)
}

/// Returns a row of this many words, in which no number is marked.
fn empty_row(alloc: Global, count: usize) -> Result<Vec<u64>, AllocError>
    ensures { IfOk result (λ words. words.items ≡ empty_row count) }
{
    let mut words = Vec::new(alloc);
    words.resize(count, 0)?;
    Ok(words)
}

/// Marks these numbers, and those that their digits begin with.
fn mark_all(words: &mut Vec<u64>, numbers: &[u64])
    ensures { words.new.items ≡ marked words.old.items (all_begun numbers.now) }
{
    for number in numbers {
        mark_begun(words, *number);
    }
}

/// Marks a number, and those that its digits begin with.
fn mark_begun(words: &mut Vec<u64>, number: u64)
    ensures { words.new.items ≡ marked words.old.items (beginnings 20 number) }
{
    let mut rest = number;
    for _ in 0..20u32 {
        mark(words, rest);
        if rest < 10 {
            return;
        }
        rest /= 10;
    }
}

/// Marks a number, where the row is that long.
#[tactic(auto, unfolding(crate::specs::Marks::marked_one))]
fn mark(words: &mut Vec<u64>, number: u64)
    ensures { words.new.items ≡ marked_one words.old.items number }
{
    let place = (number / 64) as usize;
    if place < words.len() {
        words[place] |= 1u64 << (number % 64);
    }
}

/// Returns the least number that isn't marked.
fn least_unmarked(words: &[u64]) -> u64
    requires { 64 * length words.now < 2 ^ 64 }
    ensures { IsLeastUnmarked words.now result }
{
    let mut least = 0;
    for word in words {
        if *word != u64::MAX {
            return least + u64::from(word.trailing_ones());
        }
        least += 64;
    }
    least
}
