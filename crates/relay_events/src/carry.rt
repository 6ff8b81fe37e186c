//! Carrying unread octets of a link to a node.
ghost use Rattle.relay_events.specs.Happened.{HasHappened};
ghost use Rattle.relay_events.specs.Relays.{AreInOrder, world_of};
ghost use Rattle.relay_events.specs.Step.{Steps};
ghost use Rattle.relay_events.specs.declared.event.Event.TheVariants.{Carry};

use crate::fault::PairFault;
use crate::relays::Relays;
use crate::seen::Seen;
use relay_disk::Reboot;
use relay_hosts::let_go::serves_for;

impl<D: Reboot + Drop> Relays<D> {
    /// Carries unread octets of a link to a node: to the server end if it belongs to the node, else to the client end.
    pub(crate) fn carry(
        &mut self,
        number: usize,
        node: usize,
        count: usize,
    ) -> Result<Seen, PairFault>
        requires honest { D.Disk.honest }
        requires order { AreInOrder D.Disk.honest D.Disk.words self.old }
        ensures steps { Steps D.Disk.honest D.Disk.words (world_of self.old) (Carry number node count)
            (world_of self.new) result }
        ensures happened { HasHappened D.Disk.honest D.Disk.words (world_of self.old) (world_of self.new) }
        ensures order { AreInOrder D.Disk.honest D.Disk.words self.new }
    {
        if let Some(fault) = self.carry_fault(number, node, count) {
            return Err(fault);
        }
        if serves_for(&self.links[number - 1].server, node) {
            return self.carry_to_server(number, node, count);
        }
        self.carry_to_client(number, count)
    }
}
