//! What the log knows of a client's connection.
ghost use Rattle.std.specs.Prelude.{◌≡◌, ◌+◌, ◌-◌, ◌^◌, min};

use crate::counters::add;

/// What was done on a client's connection. Each count saturates at 2^64 - 1.
#[derive(Clone, Copy)]
pub struct ClientRecord {
    /// The tick, in milliseconds, at which it was accepted.
    since: u64,
    messages: u64,
    refusals: u64,
    octets: u64,
}

impl ClientRecord {
    /// Makes the record of a connection that was accepted at this tick, in milliseconds.
    pub fn new(tick: u64) -> Self {
        ClientRecord {
            since: tick,
            messages: 0,
            refusals: 0,
            octets: 0,
        }
    }

    /// Counts octets that were read.
    pub fn read(&mut self, count: usize)
        ensures { self.new.octets ≡ min (self.old.octets + count) (2 ^ 64 - 1) }
    {
        add(&mut self.octets, count as u64);
    }

    /// Counts an accepted message.
    pub(crate) fn accept(&mut self) {
        add(&mut self.messages, 1);
    }

    /// Counts a refusal.
    pub(crate) fn refuse(&mut self)
        ensures { self.new.refusals ≡ min (self.old.refusals + 1) (2 ^ 64 - 1) }
    {
        add(&mut self.refusals, 1);
    }

    /// Returns how many messages were accepted.
    pub(crate) fn messages(&self) -> u64 {
        self.messages
    }

    /// Returns how often something was refused.
    pub(crate) fn refusals(&self) -> u64 {
        self.refusals
    }

    /// Returns how many octets were read.
    pub(crate) fn octets(&self) -> u64 {
        self.octets
    }

    /// Returns for how many seconds the connection has been open at this tick.
    pub(crate) fn seconds(&self, tick: u64) -> u64 {
        tick.saturating_sub(self.since) / 1_000
    }
}
