//! Replies of several next hops in one call.
ghost use Rattle.std.specs.Prelude.{◌≡◌, ◌⊎◌, ◌+◌, ◌≤◌, ◌^◌, [], ℕ, List, length, vec_capacity, vec_len, IsTrue};
ghost use Rattle.relay_book.specs.declared.change.Change.{Change};
ghost use Rattle.relay_loop.specs.GroupCalls.{ReadsReplies, ReadsReply};
ghost use Rattle.relay_loop.specs.GroupPieces.{IsUndone};
ghost use Rattle.relay_loop.specs.GroupReplies.{AreToOthers, RepliesEach, RepliesOne};
ghost use Rattle.relay_loop.specs.Groups.{HopsAreGone, OnlyTheirs};
ghost use Rattle.relay_loop.specs.Relay.{OnlyHop};
ghost use Rattle.relay_records.specs.Staged.{Awaits};
ghost use Rattle.relay_slots.specs.Slots.{slot_at};
ghost use Rattle.relay_spool.specs.Image.{room_of};

use crate::group::is_laden;
use crate::hops::{Answered, set_by};
use crate::outboxes::Outboxes;
use crate::relay::Relay;
use relay_disk::Disk;
use relay_node::Staged;
use relay_records::NodeFault;
use relay_trace::Moment;

/// Octets that a next hop wrote.
#[derive(Clone, Copy, Drop)]
pub struct ReplyPiece<'a> {
    /// The number of the attempt.
    pub attempt: usize,
    /// Octets read from its connection, and not used yet.
    pub octets: &'a [u8],
}

impl<D: Disk> Relay<D> {
    /// Uses replies of several next hops, one after another; the outcomes of attempts that they end are staged after
    /// the changes of `row`. There is room for the results.
    pub(crate) fn reply_each(
        &mut self,
        row: &mut Staged,
        replies: &[ReplyPiece<'_>],
        now: Moment,
        answered: &mut Vec<Result<Answered, NodeFault>>,
    )
        requires live { IsTrue self.old.node.records.spool.live }
        requires none { answered.old.items ≡ [] }
        requires room { vec_len answered.old + length replies.now ≤ vec_capacity answered.old }
        ensures each { (changes pending : List Change)
            → Awaits D.honest D.words self.old.node.records changes pending row.old
            → (all : List Change)
            × RepliesEach D.honest D.words changes now replies.now answered.new.items pending self.old row.old
            self.new row.new all
            × Awaits D.honest D.words self.new.node.records changes all row.new }
        ensures reads { ReadsReplies D.honest D.words now replies.now answered.new.items self.old row.old
            self.new row.new }
        ensures only { OnlyTheirs self.old self.new [] replies.now }
        ensures undone { IsUndone self.old self.new }
        ensures room { (row.new ≡ row.old)
            ⊎ (self.new.node.records.spool.size + room_of row.new.bodies ≤ 2 ^ 40) }
        ensures lengths { length answered.new.items ≡ length replies.now }
    {
        for reply in replies {
            let answer = self.reply_into(row, reply, now);
            answered.push_reserved(answer);
        }
    }

    /// Uses octets of a next hop as [`Relay::reply`] does; the outcome of an attempt that they end is staged after the
    /// changes of `row`. The reply is left unread if the row is full.
    fn reply_into(
        &mut self,
        row: &mut Staged,
        reply: &ReplyPiece<'_>,
        now: Moment,
    ) -> Result<Answered, NodeFault>
        requires { IsTrue self.old.node.records.spool.live }
        ensures answers { (changes pending : List Change)
            → Awaits D.honest D.words self.old.node.records changes pending row.old
            → (more : List Change)
            × RepliesOne D.honest D.words changes now pending reply.now self.old row.old self.new row.new more
            result }
        ensures reads { ReadsReply D.honest D.words now self.old row.old self.new row.new reply.now result }
        ensures only { OnlyHop self.old self.new reply.now.attempt }
        ensures undone { IsUndone self.old self.new }
        ensures room { (row.new ≡ row.old)
            ⊎ (self.new.node.records.spool.size + room_of row.new.bodies ≤ 2 ^ 40) }
    {
        let attempt = reply.attempt;
        let Some(waiting) = self.hops.waiting(attempt) else {
            return Err(NodeFault::Unknown);
        };
        if !waiting.is_empty() || is_laden(row) {
            return Ok(Answered::nothing());
        }
        match self.node.reply_into(row, attempt, reply.octets, now) {
            Ok(replied) => Ok(set_by(&mut self.hops, attempt, replied)),
            Err(fault) => {
                self.hops.remove(attempt);
                Err(fault)
            }
        }
    }
}

/// Drops the connections of these replies. Allocates nothing.
pub(crate) fn drop_hops(hops: &mut Outboxes, replies: &[ReplyPiece<'_>])
    ensures gone { HopsAreGone hops.new replies.now }
    ensures others { (attempt : ℕ) → AreToOthers attempt replies.now
        → slot_at hops.new attempt ≡ slot_at hops.old attempt }
{
    for reply in replies {
        hops.remove(reply.attempt);
    }
}
