//! The listener of the box.
use crate::world::{Wire, WireStream};
use relay_run::{Found, Listen};
use std::collections::VecDeque;
use std::net::SocketAddrV4;
use std::rc::Rc;

/// The clients that wait to be accepted.
pub struct BoxListener {
    pub waiting: VecDeque<(Rc<Wire>, SocketAddrV4)>,
}

// Written out, so that the proof of a caller that drops it stops at this function.
impl Drop for BoxListener {
    fn drop(self) {
        let BoxListener { waiting: _waiting } = self;
    }
}

impl Listen for BoxListener {
    type Stream = WireStream;

    ghost comes_from = { λ stream peer. Unit {0} };

    fn accept(&mut self) -> Found<WireStream> {
        match self.waiting.pop_front() {
            Some((wire, peer)) => Found::Client(WireStream { wire }, peer),
            None => Found::Nobody,
        }
    }
}
