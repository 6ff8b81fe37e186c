//! The direct effect of an event, and its result after nodes were notified of the links that it broke.
ghost use Rattle.std.specs.Prelude.{◌≡◌, ◌≤◌, ◌++◌, List, ℕ, [], length};
ghost use Rattle.relay_events.specs.Act.{IsFinished, did_of, stops_of};
ghost use Rattle.relay_events.specs.Happened.{HasHappened};
ghost use Rattle.relay_events.specs.Relays.{AreBound, AreInOrder, free_lines, world_of};
ghost use Rattle.relay_hosts.specs.Room.{HasRoom};
ghost use Rattle.relay_events.specs.Step.{IsSeen, fault_of};

use crate::fault::PairFault;
use crate::relays::Relays;
use crate::seen::{Seen, seen_of};
use crate::stopped::StoppedNodes;
use relay_disk::Reboot;
use relay_node::NodeFault;

/// The direct effect of an event, before nodes are notified of the links that it broke.
#[derive(Drop)]
pub(crate) enum Act {
    /// The event was done, with this result.
    Shows(Seen),
    /// A node refused its part.
    Refuses(PairFault),
    /// A node has stopped.
    Stops(usize),
}

impl<D: Reboot + Drop> Relays<D> {
    /// Notifies nodes of the links that an event broke, and returns the result of the event. Takes no memory.
    pub(crate) fn finish(&mut self, act: Act) -> Result<Seen, PairFault>
        requires honest { D.Disk.honest }
        requires bound { AreBound D.Disk.honest D.Disk.words (world_of self.old) }
        requires room { HasRoom (world_of self.old) (free_lines self.old) }
        ensures finished { IsFinished D.Disk.honest D.Disk.words (world_of self.old) (did_of act) (world_of self.new)
            result }
        ensures happened { HasHappened D.Disk.honest D.Disk.words (world_of self.old) (world_of self.new) }
        ensures order { AreInOrder D.Disk.honest D.Disk.words self.new }
    {
        let mut stopped = StoppedNodes::new();
        list_stop(&act, &mut stopped);
        self.tell(&mut stopped);
        answer_of(act, stopped)
    }
}

/// Adds the node that has stopped, if one has, to an empty list.
fn list_stop(act: &Act, stopped: &mut StoppedNodes)
    requires { stopped.old ≡ [] }
    ensures nodes { stopped.new ≡ stopped.old ++ stops_of (did_of act.now) }
    ensures few { length stopped.new ≤ 1 }
{
    if let Act::Stops(node) = act {
        stopped.push(*node);
    }
}

/// Returns the result of an event with this effect, after which these nodes have stopped.
fn answer_of(act: Act, stopped: StoppedNodes) -> Result<Seen, PairFault>
    ensures { (told : List ℕ) → stopped ≡ stops_of (did_of act) ++ told → IsSeen (did_of act) told result }
{
    match act {
        Act::Shows(own) => Ok(seen_of(own, stopped)),
        Act::Refuses(why) => {
            if stopped.is_empty() {
                return Err(why);
            }
            Ok(Seen::Stopped(stopped))
        }
        Act::Stops(_) => Ok(Seen::Stopped(stopped)),
    }
}

/// Returns the fault of an event in which a node refused its part.
pub(crate) fn fault_of(fault: NodeFault) -> PairFault
    ensures { result ≡ fault_of fault }
{
    match fault {
        NodeFault::NoMemory => PairFault::NoMemory,
        NodeFault::Stopped => PairFault::Node(NodeFault::Stopped),
        NodeFault::Unknown => PairFault::Node(NodeFault::Unknown),
        NodeFault::TooMany => PairFault::Node(NodeFault::TooMany),
        NodeFault::NotDue => PairFault::Node(NodeFault::NotDue),
        NodeFault::Busy => PairFault::Node(NodeFault::Busy),
        NodeFault::Open(cause) => PairFault::Node(NodeFault::Open(cause)),
        NodeFault::Full => PairFault::Node(NodeFault::Full),
        NodeFault::NoSecond => PairFault::Node(NodeFault::NoSecond),
    }
}
