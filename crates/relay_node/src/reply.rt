//! Replies of next hops to attempts, and lost connections.
ghost use Rattle.std.specs.Prelude.{◌≡◌, None, List, length, Err, IfOk};
ghost use Rattle.relay_report.specs.Report.{reporter_of};
ghost use Rattle.relay_attempts.specs.Reply.{CutsLoss, CutsReply, EndsBy, HasNoRoomAtEnd, HasNoRoomAtLoss, IsLost};
ghost use Rattle.relay_attempts.specs.Reply.{Told};
ghost use Rattle.relay_book.specs.declared.change.Change.{Change};
ghost use Rattle.relay_node.specs.Attempts.{RefusesToReply, Replies, Tells, UsesReply};
ghost use Rattle.relay_node.specs.Node.{RefusesAt};
ghost use Rattle.relay_records.specs.Records.{Keeps};
ghost use Rattle.relay_slots.specs.Slots.{OthersStay, slot_at};

use crate::node::Node;
use relay_attempts::Replied;
use relay_disk::Disk;
use relay_records::NodeFault;
use relay_trace::Moment;

impl<D: Disk> Node<D> {
    /// Uses octets that the next hop of an attempt wrote, all of them or up to the attempt's end. At its end one
    /// outcome is added, of exactly its places, each with its verdict, in one change with the report that is owed: from
    /// then on every stop leaves it. `Stopped` is answered first, and then `Unknown` if there is no such attempt. At
    /// `NoMemory` and `Full` the attempt is gone without another octet, and the records are unchanged.
    pub fn reply(&mut self, attempt: usize, piece: &[u8], now: Moment) -> Result<Replied, NodeFault>
        ensures replies { (changes : List Change) (told : Told)
            → Keeps D.honest D.words self.old.records changes
            → Tells self.old.config.host changes self.old.attempts attempt told
            → IfOk result (Replies D.honest D.words (reporter_of self.old.config) now changes attempt told piece.now
            self.old self.new) }
        ensures cut { (changes : List Change) (told : Told) → Keeps D.honest D.words self.old.records changes
            → Tells self.old.config.host changes self.old.attempts attempt told
            → result ≡ Err NodeFault.Stopped
            → CutsReply D.honest D.words (reporter_of self.old.config) now changes attempt told piece.now
            self.new.records }
        ensures full { (changes : List Change) (told : Told) → Keeps D.honest D.words self.old.records changes
            → Tells self.old.config.host changes self.old.attempts attempt told
            → result ≡ Err NodeFault.Full
            → HasNoRoomAtEnd (reporter_of self.old.config) now told piece.now self.old.records }
        ensures used { IfOk result (UsesReply D.words now attempt (length piece.now) self.old self.new) }
        ensures rest { OthersStay self.old.attempts self.new.attempts attempt
            × (self.new.config ≡ self.old.config) × (self.new.seats ≡ self.old.seats) }
        ensures refused { RefusesAt self.old self.new (slot_at self.old.attempts attempt ≡ None)
            (RefusesToReply D.words attempt self.old self.new) result }
    {
        if !self.records.is_live() {
            return Err(NodeFault::Stopped);
        }
        self.attempts.reply(
            self.alloc,
            &self.config,
            &mut self.records,
            attempt,
            piece,
            now,
        )
    }

    /// Ends an attempt whose connection is lost: each of its places may be tried again, or has failed where it was
    /// tried for too long. One outcome says so, in one change with the report that is owed, whose number is the answer.
    /// The faults are those of [`Node::reply`], and leave the same.
    pub fn lost(&mut self, attempt: usize, now: Moment) -> Result<u64, NodeFault>
        ensures lost { (changes : List Change) (told : Told) → Keeps D.honest D.words self.old.records changes
            → Tells self.old.config.host changes self.old.attempts attempt told
            → IfOk result (IsLost D.honest D.words (reporter_of self.old.config) now changes attempt told
            self.old.records self.new.records self.new.attempts) }
        ensures cut { (changes : List Change) (told : Told) → Keeps D.honest D.words self.old.records changes
            → Tells self.old.config.host changes self.old.attempts attempt told
            → result ≡ Err NodeFault.Stopped
            → CutsLoss D.honest D.words (reporter_of self.old.config) now changes attempt told self.new.records }
        ensures full { (changes : List Change) (told : Told) → Keeps D.honest D.words self.old.records changes
            → Tells self.old.config.host changes self.old.attempts attempt told
            → result ≡ Err NodeFault.Full
            → HasNoRoomAtLoss (reporter_of self.old.config) now told self.old.records }
        ensures ends { IfOk result (EndsBy D.words (reporter_of self.old.config) now attempt
            self.old.attempts self.new.attempts self.old.records self.new.records) }
        ensures rest { OthersStay self.old.attempts self.new.attempts attempt
            × (self.new.config ≡ self.old.config) × (self.new.seats ≡ self.old.seats) }
        ensures refused { RefusesAt self.old self.new (slot_at self.old.attempts attempt ≡ None)
            (RefusesToReply D.words attempt self.old self.new) result }
    {
        if !self.records.is_live() {
            return Err(NodeFault::Stopped);
        }
        self.attempts
            .lost(self.alloc, &self.config, &mut self.records, attempt, now)
    }
}
