//! Balancers' connections whose PROXY protocol header isn't complete yet.
ghost use Rattle.std.specs.Prelude.{◌≡◌, ◌≤◌, ◌↔◌, ◌⊎◌, ℕ, IfOk, IsTrue};
ghost use Rattle.relay_slots.specs.Slots.{AreFree, OthersStay, slot_at};
ghost use Rattle.relay_connections.specs.Arrivals.{GivesNext, IsDueAt, IsNotedSlot, IsOneReadable, IsReadOne};
ghost use Rattle.relay_connections.specs.Arrivals.{Takes, Within};
ghost use Rattle.relay_connections.specs.Arrivals.{arrivals_of};

use crate::arrival::{Arrival, Arrived, Progress};
use crate::channel::Readiness;
use crate::clocks::Now;
use crate::stream::Stream;
use crate::table::Table;
use mio::net::TcpStream;
use relay_log::HeaderFault;
use relay_slots::SLOT_COUNT;
use std::alloc::{AllocError, Global};
use std::net::SocketAddrV4;

/// The token of the first such connection.
const FIRST_TOKEN: usize = 3 * SLOT_COUNT;

/// Balancers' connections whose headers aren't complete yet, at most 64, each for at most five seconds. They have no
/// session yet, and don't count towards any client address.
pub struct Arrivals<S = TcpStream> {
    alloc: Global,
    arrivals: Table<Box<Arrival<S>>>,
}

// Written out, so that the proof of a caller that drops them stops at this function.
impl<S: Drop> Drop for Arrivals<S> {
    fn drop(self) {
        let Arrivals {
            alloc: _,
            arrivals: _arrivals,
        } = self;
    }
}

impl Arrivals {
    /// The token of the first connection; the others' follow in the order of their numbers.
    pub const FIRST_TOKEN: usize = FIRST_TOKEN;
}

impl<S: Stream + Drop> Arrivals<S> {
    /// Returns an empty table. Fails if memory runs out.
    pub fn new(alloc: Global) -> Result<Self, AllocError>
        ensures { IfOk result (λ arrivals. AreFree (arrivals_of arrivals)) }
    {
        Ok(Arrivals {
            alloc,
            arrivals: Table::new(alloc)?,
        })
    }

    /// Waits for the header of a balancer's connection. Fails with [`HeaderFault::NoRoom`] if 64 headers are waited
    /// for, and with [`HeaderFault::NoMemory`] if memory runs out or the system doesn't tell of the connection. It is
    /// closed then, and nothing else changes.
    pub fn take(
        &mut self,
        registry: &S::Registry,
        stream: S,
        balancer: SocketAddrV4,
        now: &Now,
    ) -> Result<(), HeaderFault>
        ensures { Takes S.remaining S.contents stream balancer now.now.tick
            (arrivals_of self.old) (arrivals_of self.new) result }
    {
        let Some(number) = self.arrivals.free() else {
            return Err(HeaderFault::NoRoom);
        };
        let mut stream = stream;
        let token = FIRST_TOKEN.saturating_add(number);
        if stream.register(registry, token, false).is_err() {
            return Err(HeaderFault::NoMemory);
        }
        match Box::new(self.alloc, Arrival::new(stream, balancer, now)) {
            Ok(arrival) => {
                self.arrivals.put(number, arrival);
                Ok(())
            }
            Err(_) => Err(HeaderFault::NoMemory),
        }
    }

    /// Returns the first connection whose header is complete or will never be; `None` if there is none. Reads nothing
    /// that follows a header.
    pub fn next(&mut self, registry: &S::Registry, now: &Now) -> Option<Arrived<S>>
        ensures { GivesNext S.remaining S.contents now.now.tick (arrivals_of self.old) (arrivals_of self.new) result }
    {
        let count = self.arrivals.standing().len();
        for number in 0..count {
            if let Some(arrived) = self.read_one(number, registry, now) {
                return Some(arrived);
            }
        }
        None
    }

    /// Reads octets of one connection's header. Returns what the connection is, once that is known.
    fn read_one(&mut self, number: usize, registry: &S::Registry, now: &Now) -> Option<Arrived<S>>
        ensures one { IsReadOne S.remaining S.contents now.now.tick number
            (arrivals_of self.old) (arrivals_of self.new) result }
        ensures others { OthersStay (arrivals_of self.old) (arrivals_of self.new) number }
    {
        let Some(taken) = self.arrivals.take(number) else {
            return None;
        };
        let mut arrival = taken;
        match arrival.read(now) {
            Progress::Waits => {
                self.arrivals.put(number, arrival);
                None
            }
            Progress::Whole(source) => Some(Box::into_inner(arrival).arrived(registry, source)),
            Progress::Fails(fault) => Some(Arrived::Refused(arrival.balancer, fault)),
        }
    }

    /// Notes what the connection of a number may be ready for, as the system reports it.
    pub fn note(&mut self, number: usize, ready: Readiness)
        ensures noted { IsNotedSlot ready.reads
            (slot_at (arrivals_of self.old) number) (slot_at (arrivals_of self.new) number) }
        ensures others { OthersStay (arrivals_of self.old) (arrivals_of self.new) number }
    {
        if let Some(taken) = self.arrivals.take(number) {
            let mut arrival = taken;
            arrival.reads |= ready.reads;
            self.arrivals.put(number, arrival);
        }
    }

    /// Closes all connections.
    pub fn clear(&mut self)
        ensures { AreFree (arrivals_of self.new) }
    {
        let count = self.arrivals.standing().len();
        for number in 0..count {
            let _gone = self.arrivals.take(number);
        }
    }

    /// Returns whether a connection may have unread octets.
    pub fn is_ready(&self) -> bool
        ensures { IsTrue result ↔ IsOneReadable (arrivals_of self.now) }
    {
        let standing = self.arrivals.standing();
        for number in 0..standing.len() {
            if let Some(arrival) = &standing[number] {
                if arrival.reads {
                    return true;
                }
            }
        }
        false
    }

    /// Returns the tick at which the next connection is closed, or `otherwise` if that is earlier.
    pub fn next_deadline(&self, otherwise: u64) -> u64
        ensures within { result ≤ otherwise }
        ensures each { (number : ℕ) → Within result (slot_at (arrivals_of self.now) number) }
        ensures one { (result ≡ otherwise) ⊎ IsDueAt result (arrivals_of self.now) }
    {
        let mut next = otherwise;
        for slot in self.arrivals.standing() {
            if let Some(arrival) = slot {
                next = next.min(arrival.deadline);
            }
        }
        next
    }
}
