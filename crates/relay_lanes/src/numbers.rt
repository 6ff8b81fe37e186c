//! The numbers of the messages that may be queued, and a walk over them in parts, while messages arrive and leave.
ghost use Rattle.std.specs.Prelude.{◌≡◌, ◌==◌, ◌↔◌, [], ◌∷◌, IfOk, IsTrue, MatchOption, OnErr, OnOk};
ghost use Rattle.std.specs.List.{list_any};
ghost use Rattle.relay_lanes.specs.Numbers.{begun, no_numbers, numbers_after, with_left, with_newer, with_passed};

use std::alloc::{AllocError, Global};
use std::marker::Model;
use std::mem;

/// The numbers of the messages that may be queued, each once, in order.
pub struct Numbers {
    /// The numbers of the walk.
    walk: Vec<u64>,
    /// How many of these it has come to.
    place: usize,
    /// Those that it has come to and that were queued then.
    passed: Vec<u64>,
    /// Those that have arrived since it began.
    newer: Vec<u64>,
}

// Written out, so that the proof of a caller that drops them stops at this function.
impl Drop for Numbers {
    fn drop(self) {
        let Numbers {
            walk: _walk,
            place: _,
            passed: _passed,
            newer: _newer,
        } = self;
    }
}

impl Model for Numbers {
    ghost use Rattle.std.specs.Prelude.{◌≤◌, drop, length};
    ghost use Rattle.relay_lanes.specs.Numbers.{Walk};

    ghost Value = { Walk };

    ghost view = { λ numbers. record {
      left = drop numbers.place numbers.walk.items;
      passed = numbers.passed.items;
      newer = numbers.newer.items;
    } };

    ghost invariant = { λ numbers. numbers.place ≤ length numbers.walk.items };
}

impl Numbers {
    /// Returns no numbers, and no walk.
    pub fn new(alloc: Global) -> Self
        ensures { result ≡ no_numbers }
    {
        Numbers {
            walk: Vec::new(alloc),
            place: 0,
            passed: Vec::new(alloc),
            newer: Vec::new(alloc),
        }
    }

    /// Returns the numbers of the messages of these held places, which are grouped by message. Fails if memory runs
    /// out.
    pub fn of_places(alloc: Global, places: &[(u64, u8)]) -> Result<Self, AllocError>
        ensures numbers { IfOk result (λ numbers. numbers.newer ≡ numbers_after 0 places.now) }
        ensures rest { IfOk result (λ numbers. (numbers.left ≡ []) × (numbers.passed ≡ [])) }
    {
        let mut numbers = Numbers::new(alloc);
        // No message has this number.
        let mut last = 0;
        for (number, _) in places {
            if *number != last {
                numbers.push(*number)?;
                last = *number;
            }
        }
        Ok(numbers)
    }

    /// Adds the number of a message that has arrived. Fails if memory runs out; the number is left out then.
    pub fn push(&mut self, number: u64) -> Result<(), AllocError>
        ensures pushed { OnOk result (self.new ≡ with_newer number self.old) }
        ensures failed { OnErr result (self.new ≡ self.old) }
    {
        self.newer.push(number)?;
        Ok(())
    }

    /// Begins a walk over all numbers; the last walk must be over. Fails if memory runs out.
    pub fn begin(&mut self) -> Result<(), AllocError>
        ensures begins { self.old.left ≡ [] → OnOk result (self.new ≡ begun self.old) }
        ensures failed { OnErr result (self.new ≡ self.old) }
    {
        if !self.is_over() {
            return Ok(());
        }
        self.passed.extend_from_slice(self.newer.as_slice())?;
        self.newer.clear();
        self.walk.clear();
        self.place = 0;
        mem::swap(&mut self.walk, &mut self.passed);
        Ok(())
    }

    /// Returns whether the walk is over.
    pub fn is_over(&self) -> bool
        ensures { IsTrue result ↔ (self.now.left ≡ []) }
    {
        self.walk[self.place..].is_empty()
    }

    /// Returns the next number of the walk.
    pub fn next(&mut self) -> Option<u64>
        ensures next { MatchOption result (self.old.left ≡ []) (λ number. self.old.left ≡ number ∷ self.new.left) }
        ensures rest { self.new ≡ with_left self.new.left self.old }
        ensures none { self.old.left ≡ [] → self.new ≡ self.old }
    {
        if self.walk.len() <= self.place {
            return None;
        }
        let number = self.walk[self.place];
        self.place += 1;
        Some(number)
    }

    /// Keeps a number that the walk has come to, whose message is queued. Fails if memory runs out; the number is left
    /// out then.
    pub fn pass(&mut self, number: u64) -> Result<(), AllocError>
        ensures passed { OnOk result (self.new ≡ with_passed number self.old) }
        ensures failed { OnErr result (self.new ≡ self.old) }
    {
        self.passed.push(number)?;
        Ok(())
    }

    /// Returns whether the walk is still to come to a message.
    pub fn is_to_come(&self, number: u64) -> bool
        ensures { result ≡ list_any (λ other. other == number) self.now.left }
    {
        self.walk[self.place..].contains(&number)
    }

    /// Returns whether more messages have arrived since the last walk began than were left then.
    pub fn has_grown(&self) -> bool {
        self.passed.len() < self.newer.len()
    }
}
