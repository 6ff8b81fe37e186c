ghost use Rattle.std.specs.Prelude.{◌≡◌, ◌<◌, None, Some, length, slice_set, MatchOption, IfOk};
ghost use Rattle.relay_slots.specs.Slots.{AreFree, HasPlaces, IsFull, IsLeastFree, slot_at};

use std::alloc::{AllocError, Global};
use std::marker::Model;
use std::mem;

/// The number of slots, and so the most sessions or attempts that are open at a time.
pub const SLOT_COUNT: usize = 64;

/// Slots numbered from 0 to 63, each free or with a value. All are allocated at the start, so that filling one needs
/// no memory.
pub struct Slots<T> {
    slots: Vec<Option<T>>,
}

// Written out, so that the proof of a caller that drops slots stops at this function.
impl<T: Drop> Drop for Slots<T> {
    fn drop(self) {
        let Slots { slots: _slots } = self;
    }
}

impl<T> Model for Slots<T> {
    ghost use Rattle.std.specs.Prelude.{◌≡◌, List, Option, length};
    ghost use Rattle.relay_slots.specs.declared.slots.TheConstants.{SLOT_COUNT};

    ghost Value = { List (Option T) };

    ghost view = { λ slots. slots.slots.items };

    ghost invariant = { λ slots. length slots.slots.items ≡ SLOT_COUNT };
}

impl<T: Drop> Slots<T> {
    /// Makes 64 free slots. Fails if memory runs out.
    pub fn new(alloc: Global) -> Result<Self, AllocError>
        ensures free { IfOk result AreFree }
        ensures places { IfOk result HasPlaces }
    {
        let mut slots = Vec::with_capacity(alloc, SLOT_COUNT)?;
        while slots.len() < SLOT_COUNT {
            slots.push(None)?;
        }
        Ok(Slots { slots })
    }

    /// Returns all slots, by number.
    pub fn as_slice(&self) -> &[Option<T>]
        ensures { result.now ≡ self.now }
    {
        self.slots.as_slice()
    }

    /// Returns the least number of a free slot, or `None` if all are taken.
    pub fn free(&self) -> Option<usize>
        ensures least { MatchOption result (IsFull self.now) (IsLeastFree self.now) }
        ensures within { MatchOption result (Unit {0}) (λ number. number < length self.now) }
    {
        let mut number = 0;
        while number < self.slots.len() {
            if self.slots[number].is_none() {
                return Some(number);
            }
            number += 1;
        }
        None
    }

    /// Removes and returns the value under this number, if there is one.
    pub fn take(&mut self, number: usize) -> Option<T>
        ensures taken { result ≡ slot_at self.old number }
        ensures rest { self.new ≡ slice_set self.old number None }
    {
        if number < self.slots.len() {
            mem::replace(&mut self.slots[number], None)
        } else {
            None
        }
    }

    /// Puts a value under this number, in place of the one that is there.
    pub fn put(&mut self, number: usize, value: T)
        requires { number < length self.old }
        ensures { self.new ≡ slice_set self.old number (Some value) }
    {
        self.slots[number] = Some(value);
    }
}
