//! Compacting the spool of a node.
ghost use Rattle.std.specs.Prelude.{◌≡◌, None};
ghost use Rattle.relay_events.specs.Compact.{IsCalledToCompact};
ghost use Rattle.relay_events.specs.FirstFault.{unless_up};
ghost use Rattle.relay_events.specs.Happened.{HasHappened};
ghost use Rattle.relay_events.specs.Relays.{AreBound, AreInOrder, world_of};
ghost use Rattle.relay_events.specs.Step.{Steps};
ghost use Rattle.relay_events.specs.declared.event.Event.TheVariants.{Compact};

use crate::act::{Act, fault_of};
use crate::fault::PairFault;
use crate::relays::Relays;
use crate::seen::Seen;
use relay_disk::Reboot;
use relay_hosts::Compacted;
use relay_world::passing::{resting_crash_happens, runs_keep_all};

impl<D: Reboot + Drop> Relays<D> {
    /// Compacts the spool of a node.
    pub(crate) fn compact(&mut self, node: usize) -> Result<Seen, PairFault>
        requires honest { D.Disk.honest }
        requires order { AreInOrder D.Disk.honest D.Disk.words self.old }
        ensures steps { Steps D.Disk.honest D.Disk.words (world_of self.old) (Compact node) (world_of self.new) result }
        ensures happened { HasHappened D.Disk.honest D.Disk.words (world_of self.old) (world_of self.new) }
        ensures order { AreInOrder D.Disk.honest D.Disk.words self.new }
    {
        runs_keep_all::<D>();
        resting_crash_happens::<D>();
        if let Some(fault) = self.down_fault(node) {
            return Err(fault);
        }
        match self.call_to_compact(node) {
            Compacted::Done(size) => Ok(Seen::Compacted(node, size)),
            Compacted::Refused(fault) => Err(fault_of(fault)),
            Compacted::Stopped => {
                self.let_go(node);
                self.reopen(node);
                self.finish(Act::Stops(node))
            }
        }
    }

    /// Calls a node that is up to compact its spool. If the node stops in that call, it goes down. Nothing else is done
    /// yet.
    fn call_to_compact(&mut self, node: usize) -> Compacted
        requires bound { AreBound D.Disk.honest D.Disk.words (world_of self.old) }
        requires up { unless_up (world_of self.old) node None ≡ None }
        ensures called { IsCalledToCompact D.Disk.honest D.Disk.words (world_of self.old) (world_of self.new) node
            result }
        ensures ledger { self.new.ledger ≡ self.old.ledger }
    {
        let host = self.hosts.remove(node);
        let (host, compacted) = host.compact();
        self.hosts.insert(node, host).unwrap();
        compacted
    }
}
