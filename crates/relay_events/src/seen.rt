//! The result of an event.
ghost use Rattle.std.specs.Prelude.{Ok};
ghost use Rattle.relay_events.specs.Step.{IsSeen, Shows};

use crate::stopped::StoppedNodes;
use relay_trace::Moment;

/// The result of an event that was done.
#[derive(Drop)]
pub enum Seen {
    /// Outside has opened the link of this number; the node's greeting, its last octets, has this length.
    Linked(usize, usize),
    /// Outside has written on a link.
    Sent,
    /// A node has heard or read octets.
    Carried {
        /// How many octets it has used.
        used: usize,
        /// How many octets it has written on the link.
        out: usize,
        /// The number of the change that it added.
        change: Option<u64>,
        /// Whether its end has closed.
        end: bool,
    },
    /// The link of this number is broken.
    Broken(usize),
    /// The clock is set to this time.
    Set(Moment),
    /// A node has begun the attempt at this index.
    Started(usize),
    /// A node has given up places of this message, by the change of this number.
    NoRoute(u64, u64),
    /// A node has withdrawn a place, in the change of this number.
    Withdrawn(u64),
    /// The node at this index has compacted its spool, to this size in octets.
    Compacted(usize, usize),
    /// A device fault is set for the node at this index.
    Armed(usize),
    /// These nodes have stopped, in this order.
    Stopped(StoppedNodes),
}

/// Returns the result of an event that would have this one, if these nodes have stopped after it.
pub(crate) fn seen_of(own: Seen, stopped: StoppedNodes) -> Seen
    ensures { IsSeen (Shows own) stopped (Ok result) }
{
    if stopped.is_empty() {
        return own;
    }
    Seen::Stopped(stopped)
}
