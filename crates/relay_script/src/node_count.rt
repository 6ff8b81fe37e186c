use std::marker::Model;

/// How many nodes play: 2 to 16.
#[derive(Clone, Copy, PartialEq, Eq)]
pub struct NodeCount {
    count: usize,
}

impl Model for NodeCount {
    ghost use Rattle.std.specs.Prelude.{ℕ, ◌≤◌};
    ghost use Rattle.relay_script.specs.Word.{most_nodes};

    ghost Value = { ℕ };

    ghost view = { λ nodes. nodes.count };

    ghost invariant = { λ nodes. (2 ≤ nodes.count) × (nodes.count ≤ most_nodes) };

    ghost inverse = { λ count. record { count = count } };
}

impl NodeCount {
    ghost use Rattle.std.specs.Prelude.{◌≡◌, ◌≤◌};
    ghost use Rattle.relay_script.specs.Word.{most_nodes};

    /// Returns this many nodes.
    pub fn new(count: usize) -> Self
        requires some { 2 ≤ count }
        requires within { count ≤ most_nodes }
        ensures { result ≡ count }
    {
        NodeCount { count }
    }

    /// Returns how many they are.
    pub fn count(self) -> usize
        ensures value { result ≡ self }
        ensures some { 2 ≤ result }
        ensures within { result ≤ most_nodes }
    {
        self.count
    }
}
