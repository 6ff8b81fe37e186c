//! Held mail: no attempt begins for it.
ghost use Rattle.std.specs.Prelude.{◌≡◌, ◌↔◌, not, true, false, IfOk, IsTrue, OnErr};
ghost use Rattle.relay_control.specs.Held.{HoldsNothing, HoldsSame, Sets, holds, holds_hop, holds_scope};

use crate::scope::Scope;
use relay_routes::HostName;
use std::alloc::{AllocError, Global};
use std::collections::BTreeSet;

/// The mail that a postmaster has held: next hops and messages for which no attempt begins.
pub struct Held {
    hops: Vec<HostName>,
    messages: BTreeSet<u64, Global>,
}

// Written out, so that the proof of a caller that drops it stops at this function.
impl Drop for Held {
    fn drop(self) {
        let Held {
            hops: _hops,
            messages: _messages,
        } = self;
    }
}

impl Held {
    /// Holds nothing. Allocates nothing.
    pub fn new(alloc: Global) -> Self
        ensures { HoldsNothing result }
    {
        Held {
            hops: Vec::new(alloc),
            messages: BTreeSet::new(alloc),
        }
    }

    /// Returns held mail of these next hops and messages.
    pub(crate) fn of(hops: Vec<HostName>, messages: BTreeSet<u64, Global>) -> Self
        ensures hops { result.hops ≡ hops }
        ensures messages { result.messages ≡ messages }
    {
        Held { hops, messages }
    }

    /// Returns whether nothing is held.
    pub fn is_empty(&self) -> bool
        ensures { IsTrue result ↔ HoldsNothing self.now }
    {
        self.hops.is_empty() && self.messages.is_empty()
    }

    /// Returns whether a message is held at this next hop: the message itself, or all mail of the next hop. The time
    /// that it takes grows with the number of next hops that are held.
    pub fn holds(&self, hop: &[u8], message: u64) -> bool
        ensures { result ≡ holds hop.now message self.now }
    {
        self.holds_hop(hop) || self.messages.contains(&message)
    }

    /// Returns whether all mail of the next hop of this name is held.
    pub fn holds_hop(&self, name: &[u8]) -> bool
        ensures { result ≡ holds_hop name.now self.now }
    {
        self.hops.iter().any(|hop| hop.as_slice() == name)
    }

    /// Holds this mail, and returns whether it wasn't held before. If memory runs out, it fails and nothing changes.
    /// Mail that is held already needs no memory.
    pub fn hold(&mut self, scope: Scope) -> Result<bool, AllocError>
        ensures ok { IfOk result (λ is_new. (is_new ≡ not (holds_scope scope self.old))
            × Sets scope true self.old self.new) }
        ensures err { OnErr result (HoldsSame self.old self.new × (holds_scope scope self.old ≡ false)) }
    {
        match scope {
            Scope::Hop(name) => self.hold_hop(name),
            Scope::Message(number) => match self.messages.insert(number) {
                Ok(is_new) => Ok(is_new),
                Err(_) => Err(AllocError),
            },
        }
    }

    fn hold_hop(&mut self, name: HostName) -> Result<bool, AllocError>
        ensures ok { IfOk result (λ is_new. (is_new ≡ not (holds_hop name self.old))
            × Sets (Scope.Hop name) true self.old self.new) }
        ensures err { OnErr result (HoldsSame self.old self.new × (holds_hop name self.old ≡ false)) }
    {
        if self.holds_hop(name.as_slice()) {
            return Ok(false);
        }
        self.hops.push(name)?;
        Ok(true)
    }

    /// Releases this mail, and returns whether it was held.
    pub fn release(&mut self, scope: &Scope) -> bool
        ensures was_held { result ≡ holds_scope scope.now self.old }
        ensures releases { Sets scope.now false self.old self.new }
    {
        match scope {
            Scope::Hop(name) => {
                let name = name.as_slice();
                let was_held = self.holds_hop(name);
                self.hops.retain(|hop| hop.as_slice() != name);
                was_held
            }
            Scope::Message(number) => self.messages.remove(number),
        }
    }

    /// Returns the next hops.
    pub fn hops(&self) -> &[HostName]
        ensures { result.now ≡ self.now.hops.items }
    {
        self.hops.as_slice()
    }

    /// Returns the messages.
    pub fn messages(&self) -> &BTreeSet<u64, Global>
        ensures { result.now ≡ self.now.messages }
    {
        &self.messages
    }
}
