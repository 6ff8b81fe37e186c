//! Other clients, which are there beside those of a scenario and change nothing of its outcome.
use crate::calls::{MemoryNode, connect, end, receive};
use crate::scene::Scene;
use relay_node::NodeFault;

/// What each of them says: a transaction, and some of its mail data.
const WORDS: &[u8] =
    b"HELO x\r\nMAIL FROM:<x@example.org>\r\nRCPT TO:<b@example.org>\r\nDATA\r\nhalf a line";

/// The most sessions of a node.
const SESSION_LIMIT: usize = 64;

impl Scene {
    /// Lets the other clients go, so that a client of the scenario has the place that it would have without them.
    pub fn empty(&mut self, node: &mut MemoryNode) {
        for _ in 0..SESSION_LIMIT {
            let Some(session) = self.crowd.pop() else {
                return;
            };
            // One whose node was opened again since is gone already.
            let _ = end(node, session);
        }
    }

    /// Lets other clients take all places that are left, and say something. Nothing is told of them.
    pub fn crowd(&mut self, node: &mut MemoryNode) {
        for _ in 0..SESSION_LIMIT {
            match connect(node) {
                Ok(connected) => self.hear_another(node, connected.session),
                Err(NodeFault::NoMemory) => self.is_short = true,
                Err(_) => return,
            }
        }
    }

    fn hear_another(&mut self, node: &mut MemoryNode, session: usize) {
        let heard = receive(node, session, WORDS, self.now);
        if self.crowd.push(session).is_err() || matches!(heard, Err(NodeFault::NoMemory)) {
            self.is_short = true;
        }
    }
}
