use crate::node_count::NodeCount;
use crate::node_index::NodeIndex;
use relay_octets::Octets;
use relay_trace::Moment;

/// What happens in a play. Links are named by their number.
#[derive(Drop)]
pub enum Event {
    /// The outside opens a link to a node.
    Connect {
        node: NodeIndex,
    },
    /// The outside writes octets on a link.
    Send {
        link: u64,
        text: Octets,
    },
    /// A node reads up to `count` octets that wait for it on a link, by one call.
    Carry {
        link: u64,
        node: NodeIndex,
        count: u64,
    },
    /// Both directions of a link die.
    Break {
        link: u64,
    },
    /// The clock is at this time.
    Tick {
        moment: Moment,
    },
    /// A node does the first work that is due.
    Give {
        node: NodeIndex,
    },
    /// A node compacts its spool.
    Compact {
        node: NodeIndex,
    },
    /// A node stops and is opened again: at once where `calls` is 0, else where its `calls`-th device call from now on
    /// fails. `pick` chooses which image the stop leaves.
    Stop {
        node: NodeIndex,
        calls: u64,
        pick: u64,
    },
    /// The postmaster returns a place of a node's message of that number: it fails, with the report that is owed.
    Return {
        node: NodeIndex,
        number: u64,
        place: u64,
    },
    /// The postmaster discards such a place: it ends without a report.
    Discard {
        node: NodeIndex,
        number: u64,
        place: u64,
    },
}

/// A line of a script.
#[derive(Drop)]
pub enum ScriptLine {
    /// The line says nothing: it is empty, or a remark that `#` begins.
    Skipped,
    /// This many nodes play.
    Nodes {
        count: NodeCount,
    },
    /// Something happens.
    Event(Event),
    /// Asks for the ledger.
    Ledger,
    /// Asks for the places that are held.
    Marks,
    /// Asks how many copies were made of a place of a node's message of that number.
    Copies {
        node: NodeIndex,
        number: u64,
        place: u64,
    },
    /// Asks how many replies to attempts at such a place were lost.
    Lost {
        node: NodeIndex,
        number: u64,
        place: u64,
    },
}
