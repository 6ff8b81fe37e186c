//! What other sides say to a node, and what it writes after that.
use crate::calls::{Handed, MemoryNode, receive, reply};
use crate::scene::Scene;
use crate::step::Step;
use crate::words::Peer;
use relay_node::NodeFault;
use relay_trace::Moment;

/// What has been said and written so far.
struct Talk<'a> {
    peer: Peer,
    step: &'a Step<'a>,
    /// What of the step comes.
    said: &'a [u8],
    given: usize,
    written: Vec<u8>,
    is_over: bool,
}

impl Drop for Talk<'_> {
    fn drop(self) {
        let Talk {
            peer: _,
            step: _,
            said: _,
            given: _,
            written: _written,
            is_over: _,
        } = self;
    }
}

impl Scene {
    /// Gives a node what this peer says, in pieces as the scenario is cut, up to the end of the session or
    /// attempt. It tells each change and each fault, and where something else was written or used than is to
    /// be.
    pub fn give(&mut self, node: &mut MemoryNode, step: &Step<'_>, peer: Peer) {
        self.give_front(node, step, peer, usize::MAX);
    }

    /// Gives a node this many octets of what this peer says, in the same way.
    pub fn give_front(&mut self, node: &mut MemoryNode, step: &Step<'_>, peer: Peer, count: usize) {
        let said = step.said.as_slice();
        let said = said.get(..count).unwrap_or(said);
        let mut talk = Talk {
            peer,
            step,
            said,
            given: 0,
            written: Vec::new(self.alloc),
            is_over: false,
        };
        for _ in 0..said.len() {
            if !talk.is_over {
                self.give_piece(node, &mut talk);
            }
        }
        self.tell_rest(&talk);
    }

    /// Gives a node the next piece.
    fn give_piece(&mut self, node: &mut MemoryNode, talk: &mut Talk<'_>) {
        let said = talk.said;
        let end = self.course.cutting.end_of_piece(talk.given, said.len());
        let piece = said.get(talk.given..end).unwrap_or(&[]);
        match hand(node, talk.peer, piece, self.now) {
            Ok(handed) => self.take(talk, &handed, piece.len()),
            Err(fault) => {
                talk.is_over = true;
                self.tell_fault(fault);
            }
        }
    }

    /// Takes what a node has done with a piece of this many octets.
    fn take(&mut self, talk: &mut Talk<'_>, handed: &Handed, length: usize) {
        if talk
            .written
            .extend_from_slice(handed.out.as_slice())
            .is_err()
        {
            self.is_short = true;
        }
        talk.given = talk.given.saturating_add(handed.used);
        let is_written = talk.step.has_written(talk.given, talk.written.as_slice());
        let is_used = handed.used == length || handed.change.is_some();
        let is_all = talk.given == talk.said.len();
        talk.is_over = handed.is_closed || !is_written || !is_used || is_all;
        self.tell_change_of(handed);
    }

    /// Tells where something else was written, or used, than is to be.
    fn tell_rest(&mut self, talk: &Talk<'_>) {
        if talk.given != talk.said.len() {
            self.tell_number("used", talk.given as u64);
        }
        if !talk.step.has_written(talk.given, talk.written.as_slice()) {
            self.tell("written:");
            self.tell_octets(talk.written.as_slice());
        }
    }

    /// Gives a node all that this peer says in one call, and tells what it has done with it.
    pub fn give_once(&mut self, node: &mut MemoryNode, step: &Step<'_>, peer: Peer) {
        match hand(node, peer, step.said.as_slice(), self.now) {
            Ok(handed) => {
                self.tell_number("used", handed.used as u64);
                self.tell_handed(&handed);
            }
            Err(fault) => self.tell_fault(fault),
        }
    }

    /// Gives a node all that this peer says, in pieces as the scenario is cut, up to the end of the session, and tells
    /// what is written to the peer.
    pub fn hold(&mut self, node: &mut MemoryNode, step: &Step<'_>, peer: Peer) {
        let said = step.said.as_slice();
        let mut given: usize = 0;
        for _ in 0..said.len() {
            let end = self.course.cutting.end_of_piece(given, said.len());
            let piece = said.get(given..end).unwrap_or(&[]);
            if piece.is_empty() {
                return;
            }
            match hand(node, peer, piece, self.now) {
                Ok(handed) => {
                    self.tell_octets(handed.out.as_slice());
                    given = given.saturating_add(handed.used);
                    if handed.is_closed {
                        return;
                    }
                }
                Err(fault) => return self.tell_fault(fault),
            }
        }
    }

    /// Gives a node what two peers say at the same time, octet by octet and in turns, and tells what is
    /// written to each after its octet.
    pub fn take_turns(
        &mut self,
        node: &mut MemoryNode,
        step: &Step<'_>,
        first: Peer,
        second: Peer,
    ) {
        for octet in step.said.as_slice() {
            self.give_octet(node, first, *octet);
            self.give_octet(node, second, *octet);
        }
    }

    /// Gives a node an octet of a peer, and tells what it has done with it.
    fn give_octet(&mut self, node: &mut MemoryNode, peer: Peer, octet: u8) {
        match hand(node, peer, &[octet], self.now) {
            Ok(handed) => self.tell_handed(&handed),
            Err(fault) => self.tell_fault(fault),
        }
    }

    /// Tells what is written, the change that was made, and a close.
    fn tell_handed(&mut self, handed: &Handed) {
        self.tell_octets(handed.out.as_slice());
        self.tell_change_of(handed);
    }

    /// Tells the change that was made, and a close.
    fn tell_change_of(&mut self, handed: &Handed) {
        if let Some(number) = handed.change {
            self.tell_number("change", number);
        }
        if handed.is_closed {
            self.tell("closed");
        }
    }
}

/// Gives a node octets of a peer.
fn hand(node: &mut MemoryNode, peer: Peer, piece: &[u8], now: Moment) -> Result<Handed, NodeFault> {
    match peer {
        Peer::Client(session) => receive(node, session, piece, now),
        Peer::Hop(attempt) => reply(node, attempt, piece, now),
    }
}
