//! Opening a link to a node.
ghost use Rattle.std.specs.Prelude.{◌≡◌, ◌<◌, None, vec_capacity, vec_len};
ghost use Rattle.relay_events.specs.FirstFault.{unless_up};
ghost use Rattle.relay_events.specs.Open.{LinksOrNot};
ghost use Rattle.relay_events.specs.Happened.{HasHappened};
ghost use Rattle.relay_events.specs.Relays.{AreBound, AreInOrder, world_of};
ghost use Rattle.relay_events.specs.Step.{Steps};
ghost use Rattle.relay_events.specs.declared.event.Event.TheVariants.{Connect};

use crate::act::fault_of;
use crate::fault::PairFault;
use crate::relays::Relays;
use crate::seen::Seen;
use relay_disk::Disk;
use relay_node::NodeFault;
use relay_octets::Octets;
use relay_world::passing::runs_keep_all;
use relay_world::{Link, ServerEnd};

impl<D: Disk> Relays<D> {
    /// Opens a link from outside to a node.
    pub(crate) fn connect(&mut self, node: usize) -> Result<Seen, PairFault>
        requires honest { D.honest }
        requires order { AreInOrder D.honest D.words self.old }
        ensures steps { Steps D.honest D.words (world_of self.old) (Connect node) (world_of self.new) result }
        ensures happened { HasHappened D.honest D.words (world_of self.old) (world_of self.new) }
        ensures order { AreInOrder D.honest D.words self.new }
    {
        runs_keep_all::<D>();
        if let Some(fault) = self.down_fault(node) {
            return Err(fault);
        }
        let Ok(()) = self.links.reserve(1) else {
            return Err(PairFault::NoMemory);
        };
        match self.open_link(node, [192, 0, 2, 1]) {
            Ok(greeting) => Ok(Seen::Linked(self.links.len(), greeting)),
            Err(fault) => Err(fault_of(fault)),
        }
    }

    /// Opens a link from this client address to a node that is up; there is room for the link. Returns the length of
    /// the greeting on it.
    pub(crate) fn open_link(&mut self, node: usize, peer: [u8; 4]) -> Result<usize, NodeFault>
        requires bound { AreBound D.honest D.words (world_of self.old) }
        requires up { unless_up (world_of self.old) node None ≡ None }
        requires room { vec_len self.old.links < vec_capacity self.old.links }
        ensures opens { LinksOrNot (world_of self.old) (world_of self.new) node peer result }
        ensures rest { (self.new.attempts ≡ self.old.attempts) × (self.new.ledger ≡ self.old.ledger) }
    {
        let connected = match self.hosts[node].connect(peer) {
            Ok(connected) => connected,
            Err(fault) => return Err(fault),
        };
        let greeting = connected.out.len();
        self.links
            .push(Link {
                client: None,
                server: Some(ServerEnd {
                    node,
                    peer,
                    session: Some(connected.session),
                }),
                up: Octets::new(Vec::new(self.alloc)),
                up_read: 0,
                down: Octets::new(connected.out),
                down_read: 0,
                broken: false,
            })
            .unwrap();
        Ok(greeting)
    }
}
