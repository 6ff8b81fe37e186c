//! Attempts to relay mail, and their outcomes.
use relay_octets::Octets;

/// The state of an attempt.
#[derive(Clone, Copy)]
pub enum Fate {
    /// It runs, under this number at its node.
    Running(usize),
    /// Replies of its hop ended it; its outcome is the change of this number.
    Replied(u64),
    /// Its link was lost; its outcome is the change of this number.
    Lost(u64),
    /// Its node stopped, or had too little memory or room for it. It has no outcome.
    Dropped,
}

/// An attempt of a node to relay a message.
pub struct Attempt {
    /// The index of the node.
    pub node: usize,
    /// The number of the message.
    pub message: u64,
    /// The name of the hop.
    pub hop: Octets,
    /// The places that it tries, in order.
    pub places: Vec<u8>,
    /// The number of its link, from 1.
    pub link: usize,
    /// Its state.
    pub fate: Fate,
}

// Written out, so that the proof of a caller that drops an attempt stops at this function.
impl Drop for Attempt {
    fn drop(self) {
        let Attempt {
            node: _,
            message: _,
            hop: _hop,
            places: _places,
            link: _,
            fate: _,
        } = self;
    }
}
