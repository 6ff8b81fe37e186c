//! Replies of next hops to several attempts, whose outcomes are added to the records together.
ghost use Rattle.std.specs.Prelude.{◌≡◌, ◌++◌, None, List, length, Err, IfOk, OnErr};
ghost use Rattle.relay_report.specs.Report.{reporter_of};
ghost use Rattle.relay_attempts.specs.Reply.{Told};
ghost use Rattle.relay_attempts.specs.Staging.{HasNoRoomAtEndAfter};
ghost use Rattle.relay_book.specs.declared.change.Change.{Change};
ghost use Rattle.relay_node.specs.Attempts.{Tells};
ghost use Rattle.relay_node.specs.Node.{RefusesAt};
ghost use Rattle.relay_node.specs.StagedReplies.{RefusesToReplyInto, RepliesInto, UsesReplyInto};
ghost use Rattle.relay_records.specs.Staged.{Awaits};
ghost use Rattle.relay_slots.specs.Slots.{OthersStay, slot_at};

use crate::node::Node;
use relay_attempts::Replied;
use relay_disk::Disk;
use relay_records::{NodeFault, Staged};
use relay_trace::Moment;

impl<D: Disk> Node<D> {
    /// Uses octets that the next hop of an attempt wrote as [`Node::reply`] does, but puts the outcome at the attempt's
    /// end after the changes of a row: it is numbered after them. What goes to the next hop then may be handed out
    /// once [`Node::settle`] has taken the row, and not before: until then a stop leaves nothing of the outcome. The
    /// first fault in this order is answered: `Stopped`, where the node was; `Unknown`; `NoMemory`; and `Full`, where
    /// the outcome has no number any more, or no room after the row. At these two the attempt is gone without another
    /// octet, and the row is as it was. No device is called.
    pub fn reply_into(
        &mut self,
        row: &mut Staged,
        attempt: usize,
        piece: &[u8],
        now: Moment,
    ) -> Result<Replied, NodeFault>
        ensures replies { (changes pending : List Change) (told : Told)
            → Awaits D.honest D.words self.old.records changes pending row.old
            → Tells self.old.config.host (changes ++ pending) self.old.attempts attempt told
            → IfOk result (λ replied. RepliesInto D.honest D.words (reporter_of self.old.config) now changes pending
            attempt
            told row.old piece.now self.old self.new row.new replied replied.change) }
        ensures full { (changes pending : List Change) (told : Told)
            → Awaits D.honest D.words self.old.records changes pending row.old
            → Tells self.old.config.host (changes ++ pending) self.old.attempts attempt told
            → result ≡ Err NodeFault.Full
            → HasNoRoomAtEndAfter (reporter_of self.old.config) now told piece.now self.old.records row.old }
        ensures used { IfOk result (UsesReplyInto now attempt (length piece.now) self.old self.new row.old row.new) }
        ensures rest { OthersStay self.old.attempts self.new.attempts attempt
            × (self.new.config ≡ self.old.config) × (self.new.seats ≡ self.old.seats) }
        ensures refused { RefusesAt self.old self.new (slot_at self.old.attempts attempt ≡ None)
            (RefusesToReplyInto attempt self.old self.new row.old row.new) result }
        ensures row { OnErr result (row.new ≡ row.old) }
    {
        if !self.records.is_live() {
            return Err(NodeFault::Stopped);
        }
        self.attempts.reply_into(
            self.alloc,
            &self.config,
            &mut self.records,
            row,
            attempt,
            piece,
            now,
        )
    }
}
