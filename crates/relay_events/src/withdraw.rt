//! The postmaster withdraws a place.
ghost use Rattle.std.specs.Prelude.{◌≡◌, ◌∷◌, [], None};
ghost use Rattle.relay_world.specs.GivingUp.{Postmaster};
ghost use Rattle.relay_events.specs.FirstFault.{unless_up};
ghost use Rattle.relay_events.specs.Give.{HasRoomForWork, IsCalledToGiveUp};
ghost use Rattle.relay_events.specs.Happened.{HasHappenedFor};
ghost use Rattle.relay_events.specs.Relays.{AreBound, AreInOrder, world_of};
ghost use Rattle.relay_events.specs.Step.{Steps};
ghost use Rattle.relay_events.specs.declared.event.Event.TheVariants.{Withdraw};

use crate::act::{Act, fault_of};
use crate::fault::PairFault;
use crate::relays::Relays;
use crate::seen::Seen;
use relay_book::Withdrawal;
use relay_disk::{Disk, Reboot};
use relay_hosts::{GivenUp, Origin};
use relay_world::passing::{resting_crash_happens, runs_keep_all};

impl<D: Reboot + Drop> Relays<D> {
    /// The postmaster withdraws a place of a node's message.
    pub(crate) fn withdraw(
        &mut self,
        node: usize,
        message: u64,
        place: u8,
        withdrawal: Withdrawal,
    ) -> Result<Seen, PairFault>
        requires honest { D.Disk.honest }
        requires order { AreInOrder D.Disk.honest D.Disk.words self.old }
        ensures steps { Steps D.Disk.honest D.Disk.words (world_of self.old) (Withdraw node message place withdrawal)
            (world_of self.new) result }
        ensures happened { HasHappenedFor D.Disk.honest D.Disk.words (Withdraw node message place withdrawal)
            (world_of self.old) (world_of self.new) }
        ensures order { AreInOrder D.Disk.honest D.Disk.words self.new }
    {
        if let Some(fault) = self.down_fault(node) {
            return Err(fault);
        }
        let Ok(()) = self.room_for_work() else {
            return Err(PairFault::NoMemory);
        };
        self.withdraw_there(node, message, place, withdrawal)
    }

    /// A node that is up withdraws a place, for which there is room.
    fn withdraw_there(
        &mut self,
        node: usize,
        message: u64,
        place: u8,
        withdrawal: Withdrawal,
    ) -> Result<Seen, PairFault>
        requires honest { D.Disk.honest }
        requires order { AreInOrder D.Disk.honest D.Disk.words self.old }
        requires room { HasRoomForWork self.old }
        requires up { unless_up (world_of self.old) node None ≡ None }
        ensures steps { Steps D.Disk.honest D.Disk.words (world_of self.old) (Withdraw node message place withdrawal)
            (world_of self.new) result }
        ensures happened { HasHappenedFor D.Disk.honest D.Disk.words (Withdraw node message place withdrawal)
            (world_of self.old) (world_of self.new) }
        ensures order { AreInOrder D.Disk.honest D.Disk.words self.new }
    {
        runs_keep_all::<D>();
        resting_crash_happens::<D>();
        match self.call_to_withdraw(node, message, place, withdrawal) {
            GivenUp::Done(change, recorded) => {
                self.note_left(node, message, 0, change, &recorded);
                Ok(Seen::Withdrawn(change))
            }
            GivenUp::Refused(fault) => Err(fault_of(fault)),
            GivenUp::NoRoom => Err(PairFault::NoMemory),
            GivenUp::Stopped => {
                self.restart(node, Origin::FromGivingUp(message));
                self.finish(Act::Stops(node))
            }
        }
    }
}

impl<D: Disk> Relays<D> {
    /// A node that is up is called to withdraw a place. Nothing else is done yet.
    fn call_to_withdraw(
        &mut self,
        node: usize,
        message: u64,
        place: u8,
        withdrawal: Withdrawal,
    ) -> GivenUp
        requires bound { AreBound D.honest D.words (world_of self.old) }
        requires up { unless_up (world_of self.old) node None ≡ None }
        ensures called { IsCalledToGiveUp D.honest D.words (Postmaster withdrawal (place ∷ [])) (world_of self.old)
            (world_of self.new) node message result }
        ensures ledger { self.new.ledger ≡ self.old.ledger }
    {
        self.hosts[node].withdraw(message, &[place], withdrawal, self.clock)
    }
}
