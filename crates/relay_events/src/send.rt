//! Outside writes on a link.
ghost use Rattle.std.specs.Prelude.{◌≡◌, true, OnErr, OnOk};
ghost use Rattle.relay_world.specs.Steps.{HasWritten, WritesAs};
ghost use Rattle.relay_hosts.specs.Links.{IsSendable, has_outside};
ghost use Rattle.relay_events.specs.Happened.{HasHappened};
ghost use Rattle.relay_events.specs.Relays.{AreInOrder, world_of};
ghost use Rattle.relay_events.specs.Step.{Steps};
ghost use Rattle.relay_events.specs.declared.event.Event.TheVariants.{Send};

use crate::fault::PairFault;
use crate::relays::Relays;
use crate::seen::Seen;
use relay_disk::Disk;
use relay_world::Link;
use relay_world::passing::runs_keep_all;
use std::alloc::AllocError;

impl<D: Disk> Relays<D> {
    /// Writes octets on a link from outside.
    pub(crate) fn send(&mut self, number: usize, octets: &[u8]) -> Result<Seen, PairFault>
        requires honest { D.honest }
        requires order { AreInOrder D.honest D.words self.old }
        ensures steps { Steps D.honest D.words (world_of self.old) (Send number octets.now) (world_of self.new) result }
        ensures happened { HasHappened D.honest D.words (world_of self.old) (world_of self.new) }
        ensures order { AreInOrder D.honest D.words self.new }
    {
        runs_keep_all::<D>();
        if let Some(fault) = self.send_fault(number) {
            return Err(fault);
        }
        match self.write_on(number, octets) {
            Ok(()) => Ok(Seen::Sent),
            Err(_) => Err(PairFault::NoMemory),
        }
    }

    /// Writes octets at the end of a link that is outside.
    fn write_on(&mut self, number: usize, octets: &[u8]) -> Result<(), AllocError>
        requires { IsSendable self.old.links.items number }
        ensures ok { OnOk result (HasWritten (world_of self.old) (world_of self.new) number octets.now) }
        ensures err { OnErr result (world_of self.new ≡ world_of self.old) }
        ensures ledger { self.new.ledger ≡ self.old.ledger }
    {
        match write_outside(&mut self.links[number - 1], octets) {
            Ok(()) => Ok(()),
            Err(fault) => Err(fault),
        }
    }
}

/// Writes octets as the client if the client is outside, else as the server.
fn write_outside(link: &mut Link, octets: &[u8]) -> Result<(), AllocError>
    requires { has_outside link.old ≡ true }
    ensures ok { OnOk result (WritesAs link.old octets.now link.new) }
    ensures err { OnErr result (link.new ≡ link.old) }
{
    if link.client.is_none() {
        return link.up.push_slice(octets);
    }
    link.down.push_slice(octets)
}
