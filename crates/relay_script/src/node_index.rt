use std::marker::Model;

/// How many nodes play at most.
pub const MOST_NODES: usize = 16;

/// A node of a play, by its number: 0 for the node `a`, 1 for the node `b`, and so on to 15 for `p`.
#[derive(Clone, Copy, PartialEq, Eq)]
pub struct NodeIndex {
    index: usize,
}

impl Model for NodeIndex {
    ghost use Rattle.std.specs.Prelude.{ℕ, ◌<◌};
    ghost use Rattle.relay_script.specs.Word.{most_nodes};

    ghost Value = { ℕ };

    ghost view = { λ node. node.index };

    ghost invariant = { λ node. node.index < most_nodes };

    ghost inverse = { λ index. record { index = index } };
}

impl NodeIndex {
    ghost use Rattle.std.specs.Prelude.{◌≡◌, ◌<◌, ◌+◌};
    ghost use Rattle.relay_script.specs.Word.{most_nodes};

    /// Returns the node of that number.
    pub fn new(index: usize) -> Self
        requires { index < most_nodes }
        ensures { result ≡ index }
    {
        NodeIndex { index }
    }

    /// Returns the node's number.
    pub fn index(self) -> usize
        ensures value { result ≡ self }
        ensures within { result < most_nodes }
    {
        self.index
    }

    /// Returns the node's letter: `a` for the first.
    pub fn letter(self) -> u8
        ensures { result ≡ 97 + self }
    {
        b'a' + self.index as u8
    }
}
