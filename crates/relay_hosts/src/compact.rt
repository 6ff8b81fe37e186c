//! Compaction of a node's spool.
ghost use Rattle.std.specs.Prelude.{◌≤◌, ℕ, List, None};
ghost use Rattle.relay_hosts.specs.Compact.{RewritesOrNot};
ghost use Rattle.relay_hosts.specs.Host.{host_in, host_of, notes_of, notes_to_come};
ghost use Rattle.relay_hosts.specs.Work.{KnowsChanges};

use crate::calls::is_stop;
use crate::host::{DownNode, HostState, stopped};
use relay_disk::Reboot;
use relay_node::{Node, NodeFault};

/// The result of compacting a spool.
pub enum Compacted {
    /// It was compacted to this size, in octets.
    Done(usize),
    /// The node has refused.
    Refused(NodeFault),
    /// The node has stopped.
    Stopped,
}

/// Compacts the spool of a node. If the node stops in that call, it goes down.
pub(crate) fn compact_at<D: Reboot>(node: Node<D>, pick: u64) -> (HostState<D>, Compacted)
    requires { KnowsChanges D.Disk.honest D.Disk.words node }
    ensures rewrites { (records : List (List ℕ)) → RewritesOrNot D.Disk.honest D.Disk.words (host_of node records)
        (host_in result.0 records) result.1 }
    ensures notes { notes_to_come result.0 ≤ notes_of node }
{
    let mut node = node;
    match node.compact() {
        Ok(sizes) => (HostState::Up(node), Compacted::Done(sizes.1)),
        Err(fault) => {
            if is_stop(fault) {
                let (config, disk) = node.into_parts();
                let disk = stopped(disk, pick);
                let state = HostState::Down(DownNode {
                    config,
                    disk,
                    undecided: None,
                });
                return (state, Compacted::Stopped);
            }
            (HostState::Up(node), Compacted::Refused(fault))
        }
    }
}
