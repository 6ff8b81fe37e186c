//! The nodes that have stopped in a step.
ghost use Rattle.std.specs.Prelude.{◌≡◌, ◌<◌, ◌++◌, ◌∷◌, ◌↔◌, IsTrue, [], length};

use std::marker::Model;

/// How many nodes may stop in a step: each of 16 once, and one by the event itself.
const MOST_STOPS: usize = 17;

/// The nodes that have stopped in a step, in this order. Adding one takes no memory.
pub struct StoppedNodes {
    nodes: [usize; MOST_STOPS],
    count: usize,
}

// Written out, so that the proof of a caller that drops a list stops at this function.
impl Drop for StoppedNodes {
    fn drop(self) {
        let StoppedNodes { nodes: _, count: _ } = self;
    }
}

impl Model for StoppedNodes {
    ghost use Rattle.std.specs.Prelude.{◌≤◌, List, take, ℕ};

    ghost Value = { List ℕ };

    ghost view = { λ stopped. take stopped.count stopped.nodes };

    ghost invariant = { λ stopped. stopped.count ≤ 17 };
}

impl StoppedNodes {
    /// Returns an empty list.
    pub(crate) fn new() -> Self
        ensures { result ≡ [] }
    {
        StoppedNodes {
            nodes: [0; MOST_STOPS],
            count: 0,
        }
    }

    /// Adds a node.
    pub(crate) fn push(&mut self, node: usize)
        requires { length self.old < 17 }
        ensures { self.new ≡ self.old ++ node ∷ [] }
    {
        self.nodes[self.count] = node;
        self.count += 1;
    }

    /// Returns the nodes.
    pub fn as_slice(&self) -> &[usize]
        ensures { result.now ≡ self.now }
    {
        &self.nodes[..self.count]
    }

    /// Returns whether there are none.
    pub fn is_empty(&self) -> bool
        ensures { IsTrue result ↔ self.now ≡ [] }
    {
        self.count == 0
    }
}
