//! Reserved room: in the ledger, and for what a node may begin.
ghost use Rattle.std.specs.Prelude.{◌≡◌, ◌+◌, ◌<◌, ◌≤◌, MatchOption, OnOk, vec_capacity, vec_len};
ghost use Rattle.relay_events.specs.Give.{HasRoomForWork};
ghost use Rattle.relay_events.specs.Relays.{AreInOrder, free_lines, world_of};
ghost use Rattle.relay_hosts.specs.Room.{HasRoomFor, lines_left, lines_to_come};

use crate::relays::Relays;
use relay_disk::Disk;
use relay_hosts::lines::{lines_left, lines_to_come};
use std::alloc::AllocError;

/// The most places of an attempt, or of an outcome.
const MOST_PLACES: usize = 100;

impl<D: Disk> Relays<D> {
    /// Reserves room in the ledger for `more` lines beside those that may be needed anyway. Nothing else changes.
    pub(crate) fn keep_lines(&mut self, more: usize) -> Result<(), AllocError>
        ensures world { world_of self.new ≡ world_of self.old }
        ensures room { OnOk result (HasRoomFor (world_of self.new) more (free_lines self.new)) }
        ensures free { free_lines self.old ≤ free_lines self.new }
    {
        let Some(lines) = self.lines_needed(more) else {
            return Err(AllocError);
        };
        self.ledger.reserve(lines)
    }

    /// Returns `more` lines plus those that may be needed anyway; `None` on overflow.
    fn lines_needed(&self, more: usize) -> Option<usize>
        ensures { MatchOption result (Unit {0}) (λ lines.
            lines ≡ lines_to_come self.now.attempts.items + lines_left 0 self.now.hosts.items + more) }
    {
        let tried = lines_to_come(self.attempts.as_slice())?;
        let held = lines_left(self.hosts.as_slice())?;
        tried.checked_add(held)?.checked_add(more)
    }
}

impl<D: Disk> Relays<D> {
    /// Reserves room for one more link, one more attempt, and the ledger lines that its places may need. Nothing else
    /// changes.
    pub(crate) fn room_for_work(&mut self) -> Result<(), AllocError>
        requires { AreInOrder D.honest D.words self.old }
        ensures world { world_of self.new ≡ world_of self.old }
        ensures order { AreInOrder D.honest D.words self.new }
        ensures room { OnOk result (HasRoomForWork self.new) }
    {
        let Ok(()) = self.keep_lines(MOST_PLACES) else {
            return Err(AllocError);
        };
        let Ok(()) = self.keep_places() else {
            return Err(AllocError);
        };
        Ok(())
    }

    /// Reserves room for one more link, and one more attempt. Nothing else changes.
    fn keep_places(&mut self) -> Result<(), AllocError>
        ensures world { world_of self.new ≡ world_of self.old }
        ensures ledger { self.new.ledger ≡ self.old.ledger }
        ensures link { OnOk result (vec_len self.new.links < vec_capacity self.new.links) }
        ensures attempt { OnOk result (vec_len self.new.attempts < vec_capacity self.new.attempts) }
    {
        let Ok(()) = self.links.reserve(1) else {
            return Err(AllocError);
        };
        self.attempts.reserve(1)
    }
}
