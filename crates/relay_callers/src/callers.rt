//! The callers of a listener, at most 8.
ghost use Rattle.std.specs.Prelude.{◌≡◌, ◌≤◌, ◌<◌, ℕ, IfOk, IfSome, MatchOption, None, Some, length};
ghost use Rattle.relay_callers.specs.Callers.{asked_at};
ghost use Rattle.relay_callers.specs.declared.caller.Stage.{Stage};
ghost use Rattle.relay_slots.specs.Slots.{OthersStay, slot_at};

use crate::caller::Caller;
use crate::question::Question;
use crate::stream::CallerStream;
use std::alloc::{AllocError, Global};

/// The most callers at one time.
pub const MOST_CALLERS: usize = 8;

/// The callers, numbered from 0.
pub struct Callers<S, Q> {
    alloc: Global,
    seats: Vec<Option<Caller<S, Q>>>,
    ghost few: { length seats.items ≡ 8 },
}

// Written out, so that the proof of a caller that drops them stops at this function.
impl<S: Drop, Q: Drop> Drop for Callers<S, Q> {
    fn drop(self) {
        let Callers {
            alloc: _,
            seats: _seats,
        } = self;
    }
}

impl<S: CallerStream + Drop, Q: Question> Callers<S, Q> {
    /// Returns an empty table. Fails if memory runs out.
    pub fn new(alloc: Global) -> Result<Self, AllocError> {
        let mut seats = Vec::with_capacity(alloc, MOST_CALLERS)?;
        for _ in 0..MOST_CALLERS {
            seats.push(None)?;
        }
        Ok(Callers { alloc, seats })
    }

    /// Returns the lowest free number, if there is one.
    pub fn free(&self) -> Option<usize>
        ensures { IfSome result (λ number. number < 8) }
    {
        for number in 0..MOST_CALLERS {
            if self.seats[number].is_none() {
                return Some(number);
            }
        }
        None
    }

    /// Adds a caller that came at this tick under a free number; drops it if the number isn't free.
    pub fn put(&mut self, number: usize, stream: S, tick: u64)
        ensures others { OthersStay self.old.seats.items self.new.seats.items number }
    {
        if number < MOST_CALLERS && self.seats[number].is_none() {
            self.seats[number] = Some(Caller::new(self.alloc, stream, tick));
        }
    }

    /// Notes what the connection of a number may be ready for, as the system reports it.
    pub fn note(&mut self, number: usize, reads: bool, writes: bool)
        ensures others { OthersStay self.old.seats.items self.new.seats.items number }
    {
        if number < MOST_CALLERS {
            if let Some(caller) = &mut self.seats[number] {
                caller.note(reads, writes);
            }
        }
    }

    /// Reads once or writes once for each caller; a write takes at most 64 KiB.
    pub fn serve(&mut self, tick: u64) {
        for number in 0..MOST_CALLERS {
            self.serve_one(number, tick);
        }
    }

    fn serve_one(&mut self, number: usize, tick: u64)
        requires { number < 8 }
        ensures others { OthersStay self.old.seats.items self.new.seats.items number }
    {
        let stays = match &mut self.seats[number] {
            Some(caller) => caller.serve(tick),
            None => true,
        };
        if !stays {
            self.seats[number] = None;
        }
    }

    /// Returns the lowest number of a caller whose answer is still to be made, and what it asks for.
    pub fn asked(&self) -> Option<(usize, Q)>
    where
        Q: Copy,
        ensures none { (result ≡ None) → (number : ℕ) → asked_at self.now.seats.items number ≡ None }
        ensures asked { IfSome result
            (λ asked. (asked.0 < 8) × (asked_at self.now.seats.items asked.0 ≡ Some asked.1)) }
    {
        let (number, question) = self.asking()?;
        Some((number, *question))
    }

    fn asking(&self) -> Option<(usize, &Q)>
        ensures { MatchOption result ((number : ℕ) → asked_at self.now.seats.items number ≡ None)
            (λ asked. (asked.0 < 8) × (asked_at self.now.seats.items asked.0 ≡ Some asked.1.now)) }
    {
        for number in 0..MOST_CALLERS {
            if let Some(caller) = &self.seats[number] {
                if let Some(question) = caller.asked() {
                    return Some((number, question));
                }
            }
        }
        None
    }

    /// Takes what the caller with the lowest number asks for, of those whose answer is still to be made.
    pub fn take_request(&mut self) -> Option<(usize, Q)>
        ensures none { (result ≡ None) → (number : ℕ) → asked_at self.old.seats.items number ≡ None }
        ensures asked { IfSome result (λ asked. asked_at self.old.seats.items asked.0 ≡ Some asked.1) }
        ensures others { IfSome result (λ asked. OthersStay self.old.seats.items self.new.seats.items asked.0) }
    {
        let (number, _) = self.asking()?;
        match &mut self.seats[number] {
            Some(caller) => match caller.take_request() {
                Some(question) => Some((number, question)),
                None => None,
            },
            None => None,
        }
    }

    /// Keeps the connection of a caller until this tick at least.
    pub fn keep(&mut self, number: usize, tick: u64)
        ensures others { OthersStay self.old.seats.items self.new.seats.items number }
    {
        if number < MOST_CALLERS {
            if let Some(caller) = &mut self.seats[number] {
                caller.keep(tick);
            }
        }
    }

    /// Sets the answer of a caller, or ends its call if there was no memory for one.
    pub fn answer(&mut self, number: usize, answer: Result<Vec<u8>, AllocError>)
        ensures others { OthersStay self.old.seats.items self.new.seats.items number }
        ensures given { IfOk answer (λ octets. IfSome (slot_at self.new.seats.items number)
            (λ caller. (caller.answer ≡ octets) × (caller.stage ≡ Stage.Writing))) }
    {
        if number < MOST_CALLERS {
            let seat = &mut self.seats[number];
            if let Some(caller) = seat {
                caller.answer(answer);
            }
        }
    }

    /// Returns whether something can be done for one of them at once.
    pub fn is_ready(&self) -> bool {
        for slot in &self.seats {
            if let Some(caller) = slot {
                if caller.is_ready() {
                    return true;
                }
            }
        }
        false
    }

    /// Returns the earliest tick at which one of them is closed, or `otherwise` if that is earlier.
    pub fn next_deadline(&self, otherwise: u64) -> u64
        ensures { result ≤ otherwise }
    {
        let mut next = otherwise;
        for slot in &self.seats {
            if let Some(caller) = slot {
                next = next.min(caller.deadline());
            }
        }
        next
    }
}
