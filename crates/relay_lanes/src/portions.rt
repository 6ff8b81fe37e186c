//! How many recipients of a message an attempt has at most. A next hop may close a connection after it has refused so
//! many recipients, as Postfix after 20; the whole attempt is lost then, with the recipients that it would have taken.
//! So an attempt has a bounded number of them, and half as many after each time that one was cut off.
ghost use Rattle.std.specs.Prelude.{◌≡◌, ◌%◌, IfOk};
ghost use Rattle.relay_lanes.specs.Portions.{fresh, halved_for, portion_of};

use std::alloc::{AllocError, Global};
use std::marker::Model;

/// How many messages whose attempts were cut off are known at a time: of two with the same place, the later one.
const MESSAGE_COUNT: usize = 1_024;

/// A message of which an attempt was cut off.
#[derive(Clone, Copy)]
pub struct Halved {
    /// The message's number.
    pub message: u64,
    /// The most recipients of its next attempt.
    pub most: usize,
}

/// The most recipients of each message in an attempt.
pub struct Portions {
    /// How many a message has of which no attempt was cut off.
    usual: usize,
    /// The others, each at the place that its number gives.
    halved: Vec<Halved>,
}

// Written out, so that the proof of a caller that drops them stops at this function.
impl Drop for Portions {
    fn drop(self) {
        let Portions {
            usual: _,
            halved: _halved,
        } = self;
    }
}

impl Model for Portions {
    ghost use Rattle.relay_lanes.specs.Portions.{Shares};

    ghost Value = { Shares };

    ghost view = { λ portions. record { usual = portions.usual; halved = portions.halved.items } };
}

impl Portions {
    /// No attempt was cut off: each message has as many. Fails if memory runs out.
    pub fn new(alloc: Global, usual: usize) -> Result<Self, AllocError>
        ensures { IfOk result (λ portions. portions ≡ fresh usual) }
    {
        // No message has this number.
        let nobody = Halved {
            message: 0,
            most: usual,
        };
        Ok(Portions {
            usual,
            halved: vec![in alloc; nobody; MESSAGE_COUNT]?,
        })
    }

    /// Returns how many recipients of a message an attempt has at most.
    pub fn most_of(&self, message: u64) -> usize
        ensures { result ≡ portion_of self.now message }
    {
        match self.halved.get(place_of(message)) {
            Some(halved) if halved.message == message => halved.most,
            _ => self.usual,
        }
    }

    /// An attempt of a message was cut off: its next ones have half as many recipients, one at least.
    pub fn halve(&mut self, message: u64)
        ensures { self.new ≡ halved_for message self.old }
    {
        let most = (self.most_of(message) / 2).max(1);
        if let Some(halved) = self.halved.get_mut(place_of(message)) {
            *halved = Halved { message, most };
        }
    }
}

/// Returns the place of a message.
fn place_of(message: u64) -> usize
    ensures { result ≡ message % 1024 }
{
    message as usize % MESSAGE_COUNT
}
