//! A stopping node lets go of its ends of links: its sessions are gone, its attempts dropped, and the links broken.
ghost use Rattle.std.specs.Prelude.{◌≡◌};
ghost use Rattle.relay_events.specs.Relays.{world_of};
ghost use Rattle.relay_world.specs.Crashes.{let_go};

use crate::relays::Relays;
use relay_disk::Disk;
use relay_hosts::let_go::{hang_up_attempts, let_go_links};

impl<D: Disk> Relays<D> {
    /// Lets go of all ends of links of a node.
    pub(crate) fn let_go(&mut self, node: usize)
        ensures world { world_of self.new ≡ let_go node (world_of self.old) }
        ensures ledger { self.new.ledger ≡ self.old.ledger }
    {
        let_go_links(self.links.as_mut_slice(), self.attempts.as_slice(), node);
        hang_up_attempts(self.attempts.as_mut_slice(), node);
    }
}
