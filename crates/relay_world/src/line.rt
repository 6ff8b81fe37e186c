//! The ledger of a run.
use relay_book::PlaceStep;

/// A step in the custody of mail, in the order in which the steps came: a message was accepted, or a place of one left
/// its queue or was reported as delayed.
#[derive(Clone, Copy, Debug)]
pub enum Line {
    /// A node accepted a message.
    Accepted {
        /// The index of the node.
        node: usize,
        /// The number of the message.
        number: u64,
        /// How many places the message has.
        places: usize,
        /// The number of the link on which it came, from 1.
        link: usize,
    },
    /// A place of a message left the queue of a node, or was reported as delayed and is still held.
    Became {
        /// How it left, or that it was delayed.
        step: PlaceStep,
        /// The index of the node.
        node: usize,
        /// The number of the message.
        number: u64,
        /// The place, from 0.
        place: u8,
        /// The number of the link that decided it, from 1; 0 if the place has no hop.
        link: usize,
        /// The number of the report that the same change queued; 0 if it queued none.
        report: u64,
    },
}
