//! Breaking a link.
ghost use Rattle.std.specs.Prelude.{◌≡◌};
ghost use Rattle.relay_world.specs.Steps.{Breaks};
ghost use Rattle.relay_events.specs.BreakOff.{IsLink};
ghost use Rattle.relay_events.specs.Happened.{HasHappened};
ghost use Rattle.relay_events.specs.Relays.{AreInOrder, world_of};
ghost use Rattle.relay_events.specs.Step.{Steps};
ghost use Rattle.relay_events.specs.declared.event.Event.TheVariants.{Break};

use crate::act::Act;
use crate::fault::PairFault;
use crate::relays::Relays;
use crate::seen::Seen;
use relay_disk::{Disk, Reboot};
use relay_hosts::links::break_off;
use relay_world::passing::runs_keep_all;

impl<D: Reboot + Drop> Relays<D> {
    /// Breaks a link, and notifies the nodes at its ends. Takes no memory.
    pub(crate) fn break_link(&mut self, number: usize) -> Result<Seen, PairFault>
        requires honest { D.Disk.honest }
        requires order { AreInOrder D.Disk.honest D.Disk.words self.old }
        ensures steps { Steps D.Disk.honest D.Disk.words (world_of self.old) (Break number) (world_of self.new) result }
        ensures happened { HasHappened D.Disk.honest D.Disk.words (world_of self.old) (world_of self.new) }
        ensures order { AreInOrder D.Disk.honest D.Disk.words self.new }
    {
        runs_keep_all::<D>();
        if let Some(fault) = self.break_fault(number) {
            return Err(fault);
        }
        self.break_off(number);
        self.finish(Act::Shows(Seen::Broken(number)))
    }
}

impl<D: Disk> Relays<D> {
    /// Breaks a link, and notifies nobody yet.
    pub(crate) fn break_off(&mut self, number: usize)
        requires { IsLink (world_of self.old) number }
        ensures world { Breaks (world_of self.old) (world_of self.new) number }
        ensures ledger { self.new.ledger ≡ self.old.ledger }
    {
        break_off(&mut self.links[number - 1]);
    }
}
