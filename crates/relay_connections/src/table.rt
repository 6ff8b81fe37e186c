//! A table of connections by number, which is walked only up to the last one in use.
ghost use Rattle.std.specs.Prelude.{◌≡◌, ◌≤◌, ◌<◌, ◌+◌, ◌-◌, ◌%◌, ◌^◌, ℕ, None, Some, IfOk, MatchOption, is_some};
ghost use Rattle.std.specs.Prelude.{length};
ghost use Rattle.std.specs.Prelude.{min, slice_set};
ghost use Rattle.relay_slots.specs.Slots.{AreFree, HasPlaces, IsFull, IsLeastFree, OthersStay, slot_at};
ghost use Rattle.relay_slots.specs.declared.slots.TheConstants.{SLOT_COUNT};
ghost use Rattle.relay_connections.specs.Table.{AreFreeFrom, count_of};

use relay_slots::Slots;
use std::alloc::{AllocError, Global};
use std::marker::Model;

/// Up to 64 connections, numbered from 0 to 63. A walk touches no slot after the last occupied one.
pub struct Table<T> {
    slots: Slots<T>,
    /// All slots from this one on are free.
    end: usize,
}

// Written out, so that the proof of a caller that drops a table stops at this function.
impl<T: Drop> Drop for Table<T> {
    fn drop(self) {
        let Table {
            slots: _slots,
            end: _,
        } = self;
    }
}

impl<T> Model for Table<T> {
    ghost use Rattle.std.specs.Prelude.{◌≤◌, List, Option};
    ghost use Rattle.relay_slots.specs.Slots.{HasPlaces};
    ghost use Rattle.relay_slots.specs.declared.slots.TheConstants.{SLOT_COUNT};
    ghost use Rattle.relay_connections.specs.Table.{AreFreeFrom};

    ghost Value = { List (Option T) };

    ghost view = { λ table. table.slots };

    ghost invariant = { λ table. HasPlaces table.slots × (table.end ≤ SLOT_COUNT)
        × AreFreeFrom table.slots table.end };
}

impl<T: Drop> Table<T> {
    /// Returns an empty table. Fails if memory runs out.
    pub fn new(alloc: Global) -> Result<Self, AllocError>
        ensures { IfOk result AreFree }
    {
        Ok(Table {
            slots: Slots::new(alloc)?,
            end: 0,
        })
    }

    /// Returns the slots up to the last occupied one, by number.
    pub fn standing(&self) -> &[Option<T>]
        ensures slots { (number : ℕ) → slot_at result.now number ≡ slot_at self.now number }
        ensures within { length result.now ≤ SLOT_COUNT }
    {
        &self.slots.as_slice()[..self.end]
    }

    /// Returns the lowest number of a free slot.
    pub fn free(&self) -> Option<usize>
        ensures least { MatchOption result (IsFull self.now) (IsLeastFree self.now) }
        ensures within { MatchOption result (Unit {0}) (λ number. number < length self.now) }
        ensures low { MatchOption result (Unit {0}) (λ number. number < SLOT_COUNT) }
    {
        self.slots.free()
    }

    /// Returns how many slots are occupied.
    pub fn count(&self) -> usize
        ensures { result ≡ count_of self.now }
    {
        let standing = self.standing();
        let mut count = 0;
        for number in 0..standing.len() {
            if holds(standing, number) {
                count += 1;
            }
        }
        count
    }

    /// Takes the value of a number out, to work on it outside of the table.
    pub fn take(&mut self, number: usize) -> Option<T>
        ensures taken { result ≡ slot_at self.old number }
        ensures rest { self.new ≡ slice_set self.old number None }
        ensures free { slot_at self.new number ≡ None }
        ensures others { OthersStay self.old self.new number }
        ensures within { MatchOption result (Unit {0}) (λ _. number < SLOT_COUNT) }
    {
        let taken = self.slots.take(number);
        self.end = end_of(self.slots.as_slice(), self.end);
        taken
    }

    /// Puts a value back under its number, or under a free one. Drops it if the number is too large.
    pub fn put(&mut self, number: usize, value: T)
        ensures stands { number < length self.old
            → self.new ≡ slice_set self.old number (Some value) }
        ensures after { length self.old ≤ number → self.new ≡ self.old }
        ensures there { number < SLOT_COUNT → slot_at self.new number ≡ Some value }
        ensures others { OthersStay self.old self.new number }
    {
        if number < self.slots.as_slice().len() {
            self.slots.put(number, value);
            self.end = self.end.max(number + 1);
        }
    }
}

/// Returns the number after the last occupied slot, given that all slots from `end` on are free.
fn end_of<T>(slots: &[Option<T>], end: usize) -> usize
    requires within { end ≤ length slots.now }
    requires free { AreFreeFrom slots.now end }
    ensures free { AreFreeFrom slots.now result }
    ensures within { result ≤ end }
{
    let mut last = end;
    while 0 < last && !holds(slots, last - 1) {
        last -= 1;
    }
    last
}

/// Returns whether there is a value under this number. Taking a missing value out would cost as much as taking one.
pub fn holds<T>(slots: &[Option<T>], number: usize) -> bool
    ensures { result ≡ is_some (slot_at slots.now number) }
{
    matches!(slots.get(number), Some(Some(_)))
}

/// Returns the number `step` places after another, of `count` numbers in a circle.
pub fn turned(number: usize, step: usize, count: usize) -> usize
    requires { 0 < count }
    ensures place { result ≡ min (number + step) (2 ^ 64 - 1) % count }
    ensures within { result < count }
{
    number.saturating_add(step) % count
}
