//! The connections to next hops.
ghost use Rattle.std.specs.Prelude.{◌≡◌, ◌≢◌, ◌↔◌, ◌≤◌, ◌<◌, ◌++◌, ℕ, [], None, Some, List, false};
ghost use Rattle.std.specs.Prelude.{Err, IfErr, IfOk, Ok, drop, length, take};
ghost use Rattle.std.specs.Option.{option_map};
ghost use Rattle.relay_report.specs.Report.{reporter_of};
ghost use Rattle.relay_attempts.specs.Attempts.{RefusesToStart, RefusesToStartAtMost, Starts, StartsAtMost};
ghost use Rattle.relay_attempts.specs.Reply.{CutsLoss, CutsReply, EndsBy, HasNoRoomAtEnd, HasNoRoomAtLoss};
ghost use Rattle.relay_attempts.specs.Reply.{IsLost, Told};
ghost use Rattle.relay_book.specs.declared.change.Change.{Change};
ghost use Rattle.relay_loop.specs.Hops.{HandsTo, IsAnsweredBy, IsSetTo, RefusesHop, Replies, StartsTo, StartsToAtMost};
ghost use Rattle.relay_loop.specs.Hops.{UsesReply};
ghost use Rattle.relay_loop.specs.Outboxes.{unwritten_at};
ghost use Rattle.relay_loop.specs.Relay.{OnlyHop};
ghost use Rattle.relay_node.specs.Attempts.{Tells};
ghost use Rattle.relay_records.specs.Records.{Keeps};
ghost use Rattle.relay_slots.specs.Slots.{OthersStay, slot_at};
ghost use Rattle.relay_slots.specs.declared.slots.TheConstants.{SLOT_COUNT};

use crate::outbox::Outbox;
use crate::outboxes::Outboxes;
use crate::relay::Relay;
use relay_disk::Disk;
use relay_node::{Replied, Started};
use relay_records::NodeFault;
use relay_routes::HostName;
use relay_trace::Moment;

/// What a call did with the octets of a next hop.
#[derive(Drop)]
pub struct Answered {
    /// How many octets of the piece were used, from its start.
    pub used: usize,
    /// The number of the outcome, if the attempt has ended.
    pub change: Option<u64>,
    /// If the attempt has ended: the unwritten octets of its connection, which the relay has forgotten.
    pub last: Option<Outbox>,
}

impl Answered {
    /// Returns a result for a reply of which no octet was used.
    pub(crate) fn nothing() -> Self
        ensures { result ≡ record { used = 0; change = None; last = None } }
    {
        Answered {
            used: 0,
            change: None,
            last: None,
        }
    }
}

impl<D: Disk> Relay<D> {
    /// Begins an attempt, as [`Node::start`](relay_node::Node::start), over a connection that is open and to which
    /// nothing is to be written yet. After a fault nothing has changed.
    pub fn start(&mut self, message: u64, hop: &HostName, now: Moment) -> Result<Started, NodeFault>
        ensures starts { (changes : List Change) → Keeps D.honest D.words self.old.node.records changes
            → IfOk result (StartsTo changes message hop.now now self.old self.new) }
        ensures begins { IfOk result (Starts self.old.node.config.host self.old.node.config.routes message
            hop.now now self.old.node.records.queue self.old.node.attempts self.new.node.attempts) }
        ensures connection { IfOk result (λ started. slot_at self.new.hops started.attempt ≡ Some []) }
        ensures only { IfOk result (λ started. OnlyHop self.old self.new started.attempt) }
        ensures records { self.new.node.records ≡ self.old.node.records }
        ensures refused { IfErr result (RefusesToStart self.old.node.config.host self.old.node.config.routes
            message hop.now now self.old.node.records self.old.node.attempts) }
        ensures unchanged { IfErr result (λ _. self.new ≡ self.old) }
        ensures stopped { (result ≡ Err NodeFault.Stopped) ↔ (self.old.node.records.spool.live ≡ false) }
    {
        let started = self.node.start(message, hop, now)?;
        self.hops
            .put(started.attempt, Outbox::new(Vec::new(self.alloc)));
        Ok(started)
    }

    /// Begins an attempt as [`Relay::start`] does, for at most `most` of the places, as
    /// [`Node::start_some`](relay_node::Node::start_some).
    pub fn start_some(
        &mut self,
        message: u64,
        hop: &HostName,
        most: usize,
        now: Moment,
    ) -> Result<Started, NodeFault>
        ensures starts { (changes : List Change) → Keeps D.honest D.words self.old.node.records changes
            → IfOk result (StartsToAtMost changes message hop.now (Some most) now self.old self.new) }
        ensures begins { IfOk result (StartsAtMost self.old.node.config.host self.old.node.config.routes message
            hop.now (Some most) now self.old.node.records.queue self.old.node.attempts self.new.node.attempts) }
        ensures connection { IfOk result (λ started. slot_at self.new.hops started.attempt ≡ Some []) }
        ensures only { IfOk result (λ started. OnlyHop self.old self.new started.attempt) }
        ensures records { self.new.node.records ≡ self.old.node.records }
        ensures refused { IfErr result (RefusesToStartAtMost self.old.node.config.host
            self.old.node.config.routes message hop.now (Some most) now self.old.node.records
            self.old.node.attempts) }
        ensures unchanged { IfErr result (λ _. self.new ≡ self.old) }
        ensures stopped { (result ≡ Err NodeFault.Stopped) ↔ (self.old.node.records.spool.live ≡ false) }
    {
        let started = self.node.start_some(message, hop, most, now)?;
        self.hops
            .put(started.attempt, Outbox::new(Vec::new(self.alloc)));
        Ok(started)
    }

    /// Uses octets that the next hop of an attempt wrote, up to their end or the attempt's; the commands that follow
    /// are ready to be written. Uses none, and changes nothing, while octets for the next hop are unwritten.
    ///
    /// Fails with `Unknown` if there is no such connection, else as [`Node::reply`](relay_node::Node::reply). After a
    /// fault the connection is gone.
    pub fn reply(
        &mut self,
        attempt: usize,
        piece: &[u8],
        now: Moment,
    ) -> Result<Answered, NodeFault>
        ensures replies { (changes : List Change) (told : Told) (written : List ℕ)
            → Keeps D.honest D.words self.old.node.records changes
            → HandsTo changes self.old attempt told written → unwritten_at self.old.hops attempt ≡ []
            → IfOk result (Replies D.honest D.words changes attempt now told written piece.now
            self.old self.new) }
        ensures waits { unwritten_at self.old.hops attempt ≢ []
            → (result ≡ Ok (record { used = 0; change = None; last = None })) × (self.new ≡ self.old) }
        ensures cut { (changes : List Change) (told : Told) (written : List ℕ)
            → Keeps D.honest D.words self.old.node.records changes
            → HandsTo changes self.old attempt told written → result ≡ Err NodeFault.Stopped
            → CutsReply D.honest D.words (reporter_of self.old.node.config) now changes attempt told piece.now
            self.new.node.records }
        ensures full { (changes : List Change) (told : Told) (written : List ℕ)
            → Keeps D.honest D.words self.old.node.records changes
            → HandsTo changes self.old attempt told written → result ≡ Err NodeFault.Full
            → HasNoRoomAtEnd (reporter_of self.old.node.config) now told piece.now self.old.node.records }
        ensures used { IfOk result (UsesReply D.words now attempt (length piece.now) self.old self.new) }
        ensures only { OnlyHop self.old self.new attempt }
        ensures refused { RefusesHop D.words attempt self.old self.new result }
        ensures unknown { slot_at self.old.hops attempt ≡ None → result ≡ Err NodeFault.Unknown }
        ensures stopped { self.old.node.records.spool.live ≡ false
            → slot_at self.old.hops attempt ≡ Some [] → result ≡ Err NodeFault.Stopped }
    {
        let Some(waiting) = self.hops.waiting(attempt) else {
            return Err(NodeFault::Unknown);
        };
        if !waiting.is_empty() {
            return Ok(Answered::nothing());
        }
        match self.node.reply(attempt, piece, now) {
            Ok(replied) => Ok(set_by(&mut self.hops, attempt, replied)),
            Err(fault) => {
                self.hops.remove(attempt);
                Err(fault)
            }
        }
    }

    /// Returns the unwritten octets for the next hop of an attempt; none if there is no such connection.
    pub fn to_hop(&self, attempt: usize) -> &[u8]
        ensures { result.now ≡ unwritten_at self.now.hops attempt }
    {
        self.hops.to_write(attempt)
    }

    /// Drops the first `count` unwritten octets for the next hop of an attempt, which were written. Allocates nothing.
    pub fn wrote_to_hop(&mut self, attempt: usize, count: usize)
        requires { count ≤ length (unwritten_at self.old.hops attempt) }
        ensures hands { (changes : List Change) (told : Told) (written : List ℕ)
            → HandsTo changes self.old attempt told written
            → HandsTo changes self.new attempt told
            (written ++ take count (unwritten_at self.old.hops attempt)) }
        ensures left { slot_at self.new.hops attempt ≡ option_map (drop count) (slot_at self.old.hops attempt) }
        ensures others { OthersStay self.old.hops self.new.hops attempt }
        ensures rest { (self.new.node ≡ self.old.node) × (self.new.clients ≡ self.old.clients) }
    {
        self.hops.wrote(attempt, count);
    }

    /// Ends an attempt whose connection is lost, as [`Node::lost`](relay_node::Node::lost), and returns the number of
    /// its outcome. Fails with `Unknown` if there is no such connection. The connection is gone, whatever the result.
    pub fn lose(&mut self, attempt: usize, now: Moment) -> Result<u64, NodeFault>
        ensures lost { (changes : List Change) (told : Told) (written : List ℕ)
            → Keeps D.honest D.words self.old.node.records changes
            → HandsTo changes self.old attempt told written
            → IfOk result (IsLost D.honest D.words (reporter_of self.old.node.config) now changes attempt told
            self.old.node.records self.new.node.records self.new.node.attempts) }
        ensures loses { (changes : List Change) (told : Told) → Keeps D.honest D.words self.old.node.records changes
            → Tells self.old.node.config.host changes self.old.node.attempts attempt told
            → IfOk result (IsLost D.honest D.words (reporter_of self.old.node.config) now changes attempt told
            self.old.node.records self.new.node.records self.new.node.attempts) }
        ensures cut { (changes : List Change) (told : Told) (written : List ℕ)
            → Keeps D.honest D.words self.old.node.records changes
            → HandsTo changes self.old attempt told written → result ≡ Err NodeFault.Stopped
            → CutsLoss D.honest D.words (reporter_of self.old.node.config) now changes attempt told
            self.new.node.records }
        ensures full { (changes : List Change) (told : Told) (written : List ℕ)
            → Keeps D.honest D.words self.old.node.records changes
            → HandsTo changes self.old attempt told written → result ≡ Err NodeFault.Full
            → HasNoRoomAtLoss (reporter_of self.old.node.config) now told self.old.node.records }
        ensures ends { IfOk result (EndsBy D.words (reporter_of self.old.node.config) now attempt
            self.old.node.attempts self.new.node.attempts self.old.node.records self.new.node.records) }
        ensures gone { slot_at self.new.hops attempt ≡ None }
        ensures only { OnlyHop self.old self.new attempt }
        ensures refused { RefusesHop D.words attempt self.old self.new result }
        ensures unknown { slot_at self.old.hops attempt ≡ None → result ≡ Err NodeFault.Unknown }
        ensures stopped { self.old.node.records.spool.live ≡ false
            → slot_at self.old.hops attempt ≢ None → result ≡ Err NodeFault.Stopped }
    {
        let Some(_unwritten) = self.hops.take(attempt) else {
            return Err(NodeFault::Unknown);
        };
        self.node.lost(attempt, now)
    }
}

/// Makes the octets that the attempt wrote ready for the next hop, or hands them out if the attempt has ended.
pub(crate) fn set_by(hops: &mut Outboxes, attempt: usize, replied: Replied) -> Answered
    requires { attempt < SLOT_COUNT }
    ensures answered { IsAnsweredBy replied result }
    ensures set { IsSetTo replied.change attempt replied.out.items result.last hops.new }
    ensures others { OthersStay hops.old hops.new attempt }
{
    let Replied { used, out, change } = replied;
    if change.is_some() {
        hops.remove(attempt);
        return Answered {
            used,
            change,
            last: Some(Outbox::new(out)),
        };
    }
    hops.put(attempt, Outbox::new(out));
    Answered {
        used,
        change,
        last: None,
    }
}
