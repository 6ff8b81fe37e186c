ghost use Rattle.std.specs.Prelude.{◌≡◌, ◌<◌, ◌≤◌, None, Some, drop, length, IfOk, MatchOption};
ghost use Rattle.std.specs.Option.{option_map};
ghost use Rattle.relay_loop.specs.Outboxes.{unwritten_at};
ghost use Rattle.relay_slots.specs.Slots.{AreFree, OthersStay, slot_at};
ghost use Rattle.relay_slots.specs.declared.slots.TheConstants.{SLOT_COUNT};

use crate::outbox::Outbox;
use relay_slots::Slots;
use std::alloc::{AllocError, Global};
use std::marker::Model;

/// The connections of one kind, by number from 0 to 63, with the unwritten octets of each.
pub(crate) struct Outboxes {
    slots: Slots<Outbox>,
}

// Written out, so that the proof of a caller that drops outboxes stops at this function.
impl Drop for Outboxes {
    fn drop(self) {
        let Outboxes { slots: _slots } = self;
    }
}

impl Model for Outboxes {
    ghost use Rattle.std.specs.Prelude.{List, Option, ℕ};
    ghost use Rattle.relay_slots.specs.Slots.{HasPlaces};

    ghost Value = { List (Option (List ℕ)) };

    ghost view = { λ outboxes. outboxes.slots };

    ghost invariant = { λ outboxes. HasPlaces outboxes.slots };
}

impl Outboxes {
    /// Returns an empty table. Fails if memory runs out.
    pub(crate) fn new(alloc: Global) -> Result<Self, AllocError>
        ensures { IfOk result AreFree }
    {
        Ok(Outboxes {
            slots: Slots::new(alloc)?,
        })
    }

    /// Returns the unwritten octets for the connection of a number, if it is open.
    pub(crate) fn waiting(&self, number: usize) -> Option<&[u8]>
        ensures waiting { MatchOption result (slot_at self.now number ≡ None)
            (λ waiting. slot_at self.now number ≡ Some waiting.now) }
        ensures within { MatchOption result (Unit {0}) (λ _. number < SLOT_COUNT) }
    {
        match self.slots.as_slice().get(number) {
            Some(Some(outbox)) => Some(outbox.as_slice()),
            Some(None) => None,
            None => None,
        }
    }

    /// Returns the unwritten octets for the connection of a number; none if it isn't open.
    pub(crate) fn to_write(&self, number: usize) -> &[u8]
        ensures { result.now ≡ unwritten_at self.now number }
    {
        match self.waiting(number) {
            Some(waiting) => waiting,
            None => &[],
        }
    }

    /// Opens the connection of a number, with these octets to be written to it. Allocates nothing.
    pub(crate) fn put(&mut self, number: usize, outbox: Outbox)
        requires { number < SLOT_COUNT }
        ensures at { slot_at self.new number ≡ Some outbox }
        ensures others { OthersStay self.old self.new number }
    {
        self.slots.put(number, outbox);
    }

    /// Removes the connection of a number, and returns its outbox. Allocates nothing.
    pub(crate) fn take(&mut self, number: usize) -> Option<Outbox>
        ensures taken { result ≡ slot_at self.old number }
        ensures within { MatchOption result (Unit {0}) (λ _. number < SLOT_COUNT) }
        ensures gone { slot_at self.new number ≡ None }
        ensures others { OthersStay self.old self.new number }
    {
        self.slots.take(number)
    }

    /// Removes the connection of a number, if it is open. Allocates nothing.
    pub(crate) fn remove(&mut self, number: usize)
        ensures gone { slot_at self.new number ≡ None }
        ensures others { OthersStay self.old self.new number }
    {
        let _gone = self.take(number);
    }

    /// Drops the first `count` unwritten octets for the connection of a number, which were written. Allocates nothing.
    pub(crate) fn wrote(&mut self, number: usize, count: usize)
        requires { count ≤ length (unwritten_at self.old number) }
        ensures at { slot_at self.new number ≡ option_map (drop count) (slot_at self.old number) }
        ensures others { OthersStay self.old self.new number }
    {
        if let Some(outbox) = self.take(number) {
            self.put(number, outbox.after(count));
        }
    }
}
