//! The events of a run.
use relay_book::Withdrawal;
use relay_octets::Octets;
use relay_trace::Moment;

/// An event of a run of relays.
#[derive(Drop)]
pub enum Event {
    /// Outside opens a link to the node at this index.
    Connect(usize),
    /// Outside writes octets on the link of a number.
    Send(usize, Octets),
    /// Unread octets are carried to a node's end of a link; if there are none, the close of the other end.
    Carry {
        /// The number of the link, from 1.
        link: usize,
        /// The index of the node.
        node: usize,
        /// The most octets to carry.
        count: usize,
    },
    /// The link of this number breaks.
    Break(usize),
    /// The clock is set to this time.
    Tick(Moment),
    /// The node at this index does the first work that it has due.
    Give(usize),
    /// The node at this index compacts its spool.
    Compact(usize),
    /// The postmaster withdraws a place of a node's message.
    Withdraw {
        /// The node, by its place among the nodes, from 0.
        node: usize,
        /// The number of the message.
        message: u64,
        /// The place, from 0.
        place: u8,
        /// Whether it is returned or discarded.
        withdrawal: Withdrawal,
    },
    /// A node stops, now or at a later call of its disks.
    Stop {
        /// The index of the node.
        node: usize,
        /// Which of the next calls of its disks fails, from 1; 0 to stop now.
        calls: u64,
        /// Selects what the stop leaves of its disks.
        pick: u64,
    },
}
