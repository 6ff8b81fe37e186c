//! Connections to next hops in the box.
use crate::world::{Wire, WireStream};
use relay_next_hops::Dial;
use std::alloc::Global;
use std::io::{self, Error, ErrorKind};
use std::net::SocketAddrV4;
use std::rc::Rc;

/// How many spare descriptors are kept, as by a relay over the system's sockets.
const SPARE_COUNT: usize = 4;

/// What happens when the relay connects to an address.
#[derive(Clone, Copy, PartialEq, Eq)]
pub enum Policy {
    Accept,
    Refuse,
    Wait,
}

/// What the relay has asked for: an address, and its connection unless that was refused.
#[derive(Drop)]
pub struct Dialled {
    pub at: SocketAddrV4,
    pub wire: Option<Rc<Wire>>,
}

/// Opens connections as the script says.
pub struct BoxDial {
    alloc: Global,
    policies: Vec<(SocketAddrV4, Policy)>,
    /// What was asked for since the last turn.
    pub dialled: Vec<Dialled>,
    spares: usize,
}

// Written out, so that the proof of a caller that drops it stops at this function.
impl Drop for BoxDial {
    fn drop(self) {
        let BoxDial {
            alloc: _,
            policies: _policies,
            dialled: _dialled,
            spares: _,
        } = self;
    }
}

impl BoxDial {
    /// Returns a source of connections, where every address refuses.
    pub fn new(alloc: Global) -> Self {
        BoxDial {
            alloc,
            policies: Vec::new(alloc),
            dialled: Vec::new(alloc),
            spares: 0,
        }
    }

    /// Sets what happens at an address.
    pub fn set(&mut self, at: SocketAddrV4, policy: Policy) -> io::Result<()> {
        self.policies.retain(|set| set.0 != at);
        self.policies.push((at, policy))?;
        Ok(())
    }

    /// Returns what happens at an address.
    fn policy(&self, at: SocketAddrV4) -> Policy {
        match self.policies.iter().find(|set| set.0 == at) {
            Some(set) => set.1,
            None => Policy::Refuse,
        }
    }
}

impl Dial for BoxDial {
    type Stream = WireStream;

    ghost leads_to = { λ stream at. Unit {0} };

    ghost spares = { λ dial. dial.spares };

    fn connect(&mut self, at: SocketAddrV4) -> io::Result<WireStream> {
        let policy = self.policy(at);
        if policy == Policy::Refuse {
            self.dialled.push(Dialled { at, wire: None })?;
            return Err(Error::from(ErrorKind::ConnectionRefused));
        }
        let wire = Rc::new(self.alloc, Wire::new(self.alloc, policy == Policy::Accept))?;
        self.dialled.push(Dialled {
            at,
            wire: Some(Rc::clone(&wire)?),
        })?;
        Ok(WireStream { wire })
    }

    fn fill_spares(&mut self) -> bool {
        self.spares = SPARE_COUNT;
        true
    }

    fn give_spare(&mut self) -> bool {
        if self.spares == 0 {
            return false;
        }
        self.spares -= 1;
        true
    }
}
