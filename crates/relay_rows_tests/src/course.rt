/// How what other sides say comes: in a piece of this many octets, and then in pieces of this many.
#[derive(Clone, Copy)]
pub struct Cutting {
    pub first: usize,
    pub rest: usize,
}

/// One of the ways that a scenario is played in.
#[derive(Clone, Copy)]
pub struct Course {
    pub cutting: Cutting,
    /// How many calls of the device pass where a fuse is set.
    pub calls: u64,
    /// What a stop leaves.
    pub pick: u64,
    /// Other clients have all places that the scenario's don't take.
    pub is_crowded: bool,
}

impl Cutting {
    /// All at once.
    pub const WHOLE: Self = Cutting {
        first: 0,
        rest: usize::MAX,
    };

    /// Octet by octet.
    pub const OCTETS: Self = Cutting { first: 1, rest: 1 };

    /// Returns where the piece ends that begins here, of this many octets.
    pub fn end_of_piece(self, start: usize, length: usize) -> usize {
        if start < self.first {
            self.first.min(length)
        } else {
            start.saturating_add(self.rest).min(length)
        }
    }
}
