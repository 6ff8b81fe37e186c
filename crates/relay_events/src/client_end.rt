//! The running attempt at the client end of a link.
ghost use Rattle.std.specs.Prelude.{◌≡◌, ◌<◌, length};
ghost use Rattle.relay_events.specs.ClientEnd.{RunsThere, SetsFate};
ghost use Rattle.relay_events.specs.Relays.{AreBound, world_of};
ghost use Rattle.relay_events.specs.Told.{TriesAt};

use crate::relays::Relays;
use relay_disk::Disk;
use relay_world::Fate;

/// The running attempt at the client end of a link.
#[derive(Clone, Copy)]
pub(crate) struct ClientEnd {
    /// The index of the attempt.
    pub(crate) place: usize,
    /// The index of its node.
    pub(crate) node: usize,
    /// Its number at that node.
    pub(crate) slot: usize,
    /// The message that it is for.
    pub(crate) message: u64,
}

impl<D: Disk> Relays<D> {
    /// Returns the running attempt at the client end of a link.
    pub(crate) fn client_end(&self, number: usize) -> ClientEnd
        requires bound { AreBound D.honest D.words (world_of self.now) }
        requires tries { TriesAt (world_of self.now) number }
        ensures { RunsThere D.honest D.words (world_of self.now) number result }
    {
        let link = &self.links[number - 1];
        let Some(place) = link.client else {
            unreachable!()
        };
        let attempt = &self.attempts[place];
        let Fate::Running(slot) = attempt.fate else {
            unreachable!()
        };
        ClientEnd {
            place,
            node: attempt.node,
            slot,
            message: attempt.message,
        }
    }

    /// Sets the state of the attempt at an index.
    pub(crate) fn set_fate(&mut self, place: usize, fate: Fate)
        requires { place < length self.old.attempts.items }
        ensures world { SetsFate (world_of self.old) (world_of self.new) place fate }
        ensures ledger { self.new.ledger ≡ self.old.ledger }
    {
        self.attempts[place].fate = fate;
    }
}
