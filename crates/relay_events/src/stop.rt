//! Stopping a node, or setting a device fault for a later call.
ghost use Rattle.std.specs.Prelude.{◌≡◌, ◌<◌, vec_len};
ghost use Rattle.relay_events.specs.Happened.{HasHappened};
ghost use Rattle.relay_events.specs.Relays.{AreInOrder, world_of};
ghost use Rattle.relay_events.specs.Step.{Steps};
ghost use Rattle.relay_events.specs.StopNow.{IsTakenDown};
ghost use Rattle.relay_events.specs.declared.event.Event.TheVariants.{Stop};

use crate::act::Act;
use crate::fault::PairFault;
use crate::relays::Relays;
use crate::seen::Seen;
use relay_disk::Reboot;
use relay_world::passing::{resting_crash_happens, runs_keep_all};

impl<D: Reboot + Drop> Relays<D> {
    /// Stops a node, now or at a later call of its disks.
    pub(crate) fn stop(&mut self, node: usize, calls: u64, pick: u64) -> Result<Seen, PairFault>
        requires honest { D.Disk.honest }
        requires order { AreInOrder D.Disk.honest D.Disk.words self.old }
        ensures steps { Steps D.Disk.honest D.Disk.words (world_of self.old) (Stop node calls pick)
            (world_of self.new) result }
        ensures happened { HasHappened D.Disk.honest D.Disk.words (world_of self.old) (world_of self.new) }
        ensures order { AreInOrder D.Disk.honest D.Disk.words self.new }
    {
        if calls == 0 {
            return self.stop_now(node, pick);
        }
        self.arm(node, calls, pick)
    }

    /// Stops a node now, also one that is down; opens it again, if it can be opened; and notifies the nodes at the
    /// other ends of its links. Without memory to open it the node stays down.
    fn stop_now(&mut self, node: usize, pick: u64) -> Result<Seen, PairFault>
        requires honest { D.Disk.honest }
        requires order { AreInOrder D.Disk.honest D.Disk.words self.old }
        ensures steps { Steps D.Disk.honest D.Disk.words (world_of self.old) (Stop node 0 pick)
            (world_of self.new) result }
        ensures happened { HasHappened D.Disk.honest D.Disk.words (world_of self.old) (world_of self.new) }
        ensures order { AreInOrder D.Disk.honest D.Disk.words self.new }
    {
        runs_keep_all::<D>();
        resting_crash_happens::<D>();
        if self.hosts.len() <= node {
            return Err(PairFault::Down);
        }
        self.take_down(node, pick);
        self.reopen(node);
        self.finish(Act::Stops(node))
    }

    /// Stops a node between two calls, or stops it again if it is down.
    fn take_down(&mut self, node: usize, pick: u64)
        requires { node < vec_len self.old.hosts }
        ensures world { IsTakenDown D.Disk.honest D.Disk.words (world_of self.old) (world_of self.new) node }
        ensures ledger { self.new.ledger ≡ self.old.ledger }
    {
        let host = self.hosts.remove(node);
        if host.is_up() {
            let host = host.stop(pick);
            self.hosts.insert(node, host).unwrap();
            self.let_go(node);
            return;
        }
        let host = host.stop_again(pick);
        self.hosts.insert(node, host).unwrap();
    }

    /// Sets a device fault for a node that is up: of the next calls of its disks, the one of this number, from 1,
    /// fails.
    fn arm(&mut self, node: usize, calls: u64, pick: u64) -> Result<Seen, PairFault>
        requires honest { D.Disk.honest }
        requires order { AreInOrder D.Disk.honest D.Disk.words self.old }
        requires later { 0 < calls }
        ensures steps { Steps D.Disk.honest D.Disk.words (world_of self.old) (Stop node calls pick)
            (world_of self.new) result }
        ensures happened { HasHappened D.Disk.honest D.Disk.words (world_of self.old) (world_of self.new) }
        ensures order { AreInOrder D.Disk.honest D.Disk.words self.new }
    {
        runs_keep_all::<D>();
        if let Some(fault) = self.down_fault(node) {
            return Err(fault);
        }
        self.hosts[node].arm(calls - 1, pick);
        Ok(Seen::Armed(node))
    }
}
