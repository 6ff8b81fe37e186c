//! Mail of several messages that the postmaster withdraws in one call.
ghost use Rattle.std.specs.Prelude.{◌≡◌, ◌⊎◌, ◌↔◌, ◌+◌, ◌++◌, ◌≤◌, ◌<◌, ◌^◌, [], List, map};
ghost use Rattle.std.specs.Prelude.{Err, IfErr, IfOk, IsTrue, MatchOption, false, length, vec_capacity, vec_len};
ghost use Rattle.relay_attempts.specs.StagedWithdrawals.{RefusesToStageWithdrawal};
ghost use Rattle.relay_book.specs.declared.change.Change.{Change};
ghost use Rattle.relay_loop.specs.GroupPieces.{IsLaden};
ghost use Rattle.relay_loop.specs.Withdrawing.{KeepsAllButMail, RefusesToWithdrawAll, WithdrawsAll, WithdrawsOne};
ghost use Rattle.relay_loop.specs.Withdrawing.{WithdrawsSome, choice_of};
ghost use Rattle.relay_records.specs.Staged.{Awaits};
ghost use Rattle.relay_report.specs.Report.{reporter_of};
ghost use Rattle.relay_spool.specs.Image.{room_of};

use crate::group::is_laden;
use crate::relay::Relay;
use relay_book::Withdrawal;
use relay_disk::Disk;
use relay_node::Staged;
use relay_records::list_laws::none_is_awaited;
use relay_records::{NodeFault, Noted};
use relay_trace::Moment;

/// Places of a message that the postmaster withdraws.
#[derive(Clone, Copy, Drop)]
pub struct Chosen<'a> {
    /// The number of the message.
    pub message: u64,
    /// The places of recipients in its envelope.
    pub places: &'a [u8],
}

/// What a call did with places of several messages.
#[derive(Drop)]
pub struct Withdrawn {
    /// The result for each of the first messages, in their order, as of [`Relay::withdraw`]: the number of its change,
    /// or `Unknown`, `Busy` or `Full`.
    pub results: Vec<Result<u64, NodeFault>>,
    /// A note of each change that was added, in the order of their numbers.
    pub notes: Vec<Noted>,
    /// Whether memory ran out for the next message.
    pub is_short: bool,
}

impl<D: Disk> Relay<D> {
    /// Ends places of several messages, one after another, each as [`Relay::withdraw`] does. All resulting changes go
    /// to the spool with one pair of syncs; when the call returns they survive every stop. Nothing else changes.
    ///
    /// A message whose places are refused has its fault as its result, and the others go on. The rest of the messages
    /// is left for a later call once the group has 64 changes or 4 MiB of records, or memory runs out for one.
    ///
    /// The call itself fails, in this order, with `Stopped` if the node was stopped; with `NoMemory` if memory for the
    /// results runs out, and then nothing changes; or with `Stopped` if the device fails, and then a stop leaves all
    /// of the changes or none.
    pub fn withdraw_all(
        &mut self,
        chosen: &[Chosen<'_>],
        withdrawal: Withdrawal,
        now: Moment,
    ) -> Result<Withdrawn, NodeFault>
        ensures withdraws { IfOk result (WithdrawsAll D.honest D.words now withdrawal (map choice_of chosen.now)
            self.old self.new) }
        ensures within { IfOk result (λ withdrawn. length withdrawn.results.items ≤ length chosen.now) }
        ensures some { IfOk result (λ withdrawn. withdrawn.is_short ≡ false → 0 < length chosen.now
            → 0 < length withdrawn.results.items) }
        ensures refused { IfErr result (RefusesToWithdrawAll D.honest D.words now withdrawal
            (map choice_of chosen.now) self.old self.new) }
    {
        none_is_awaited::<D>();
        if !self.node.is_live() {
            return Err(NodeFault::Stopped);
        }
        // Memory for the results comes first, because a change can't be taken back once it is in the queue.
        let Ok(mut results) = Vec::with_capacity(self.alloc, chosen.len()) else {
            return Err(NodeFault::NoMemory);
        };
        let mut row = Staged::new(self.alloc);
        let is_short = self.withdraw_some(&mut row, chosen, withdrawal, now, &mut results);
        let notes = match self.node.settle(row) {
            Ok(notes) => notes,
            Err(unsettled) => return Err(unsettled.fault),
        };
        Ok(Withdrawn {
            results,
            notes,
            is_short,
        })
    }

    /// Ends places of messages, one after another, until the row is full; their changes are staged after those of
    /// `row`. Returns whether memory ran out for the next one. There is room for the results.
    fn withdraw_some(
        &mut self,
        row: &mut Staged,
        chosen: &[Chosen<'_>],
        withdrawal: Withdrawal,
        now: Moment,
        results: &mut Vec<Result<u64, NodeFault>>,
    ) -> bool
        requires live { IsTrue self.old.node.records.spool.live }
        requires none { results.old.items ≡ [] }
        requires room { vec_len results.old + length chosen.now ≤ vec_capacity results.old }
        ensures some { (all : List Change) × WithdrawsSome D.words now withdrawal (map choice_of chosen.now)
            results.new.items result self.old row.old self.new row.new all
            × ((changes pending : List Change) → Awaits D.honest D.words self.old.node.records changes pending row.old
            → Awaits D.honest D.words self.new.node.records changes (pending ++ all) row.new) }
        ensures rest { KeepsAllButMail self.old self.new }
        ensures room { (row.new ≡ row.old)
            ⊎ (self.new.node.records.spool.size + room_of row.new.bodies ≤ 2 ^ 40) }
        ensures within { length results.new.items ≤ length chosen.now }
    {
        for places in chosen {
            if is_laden(row) {
                return false;
            }
            let Some(result) = self.withdraw_one(row, places, withdrawal, now) else {
                return true;
            };
            results.push_reserved(result);
        }
        false
    }

    /// Ends places of a message as [`Relay::withdraw`] does; the change is staged after those of `row`. Returns `None`
    /// if memory runs out; nothing has changed then.
    fn withdraw_one(
        &mut self,
        row: &mut Staged,
        chosen: &Chosen<'_>,
        withdrawal: Withdrawal,
        now: Moment,
    ) -> Option<Result<u64, NodeFault>>
        requires live { IsTrue self.old.node.records.spool.live }
        requires room { IsLaden row.old → ⊥ }
        ensures { MatchOption result
            ((self.new ≡ self.old) × (row.new ≡ row.old) × RefusesToStageWithdrawal D.words
            (reporter_of self.old.node.config) self.old.node.attempts chosen.now.message now withdrawal
            chosen.now.places.now self.old.node.records self.new.node.records row.old row.new NodeFault.NoMemory)
            (λ result. (more : List Change) × WithdrawsOne D.words now withdrawal (choice_of chosen.now)
            self.old row.old self.new row.new more result) }
    {
        let answer = self
            .node
            .withdraw_into(row, chosen.message, chosen.places, withdrawal, now);
        if is_no_memory(&answer) {
            return None;
        }
        Some(answer)
    }
}

/// Returns whether memory ran out.
fn is_no_memory(answer: &Result<u64, NodeFault>) -> bool
    ensures { IsTrue result ↔ (answer.now ≡ Err NodeFault.NoMemory) }
{
    match answer {
        Ok(_) => false,
        Err(fault) => matches!(fault, NodeFault::NoMemory),
    }
}
