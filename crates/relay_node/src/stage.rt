//! Mail of sessions that stand outside of the node, which comes into its records together.
ghost use Rattle.std.specs.Prelude.{◌≡◌, ◌≢◌, ◌⊎◌, ◌+◌, ◌<◌, ◌^◌, [], false, true, List};
ghost use Rattle.std.specs.Prelude.{Err, IfErr, IfOk, MatchResult, OnOk};
ghost use Rattle.relay_book.specs.declared.change.Change.{Change};
ghost use Rattle.relay_node.specs.Acceptance.{IsStorable};
ghost use Rattle.relay_node.specs.Staging.{HasStaged, RefusesOffer, RefusesToStage, StagesOffer};
ghost use Rattle.relay_records.specs.Staged.{Awaits, CutsAll, GrowsAll, RefusesToSettle, Settles, StandsForOrWithAll};
ghost use Rattle.relay_server.specs.Session.{offered};
ghost use Rattle.relay_spool.specs.Image.{room_of};
ghost use Rattle.relay_spool.specs.Pair.{HasBodies};
ghost use Rattle.relay_spool.specs.Spool.{AtEachMoment};

use crate::admit::note_answer;
use crate::intake::Intake;
use crate::node::Node;
use relay_disk::Disk;
use relay_records::list_laws::awaited_are_numbered;
use relay_records::{NodeFault, Noted, Records, Staged, Unsettled};
use relay_routes::Config;
use relay_server::{Answer, Offer};
use relay_spool::SIZE_LIMIT;
use relay_trace::Moment;
use std::alloc::Global;

impl<D: Disk> Node<D> {
    /// Takes an offer of a session that stands outside of the node, as [`Node::admit`] does, and puts its change after
    /// those of a row: it is judged and numbered after them. The answer `Queued` may be handed out once
    /// [`Node::settle`] has taken the row, and not before: until then a stop leaves nothing of it. The first fault in
    /// this order is answered: `Stopped`, where the node was; `NoMemory`; and `Full`, where changes have no numbers any
    /// more. A fault leaves node and row as they were. No device is called.
    pub fn stage(
        &mut self,
        row: &mut Staged,
        offer: &Offer<'_>,
        peer: [u8; 4],
        now: Moment,
    ) -> Result<Answer, NodeFault>
        requires { IsStorable (offered offer.now) }
        ensures stages { (changes pending : List Change)
            → Awaits D.honest D.words self.old.records changes pending row.old
            → IfOk result (StagesOffer D.honest D.words self.old.config changes pending peer now
            (offered offer.now) self.old.records row.old self.new.records row.new) }
        ensures answers { IfOk result (HasStaged self.old.records self.new.records) }
        ensures rest { (self.new.config ≡ self.old.config) × (self.new.seats ≡ self.old.seats)
            × (self.new.attempts ≡ self.old.attempts) }
        ensures refused { RefusesOffer self.old self.new row.old row.new result }
    {
        if !self.records.is_live() {
            return Err(NodeFault::Stopped);
        }
        self.attempts.reserve()?;
        self.records.numbers_rise();
        let answer = stage_offer(
            self.alloc,
            &self.config,
            &mut self.records,
            row,
            offer,
            peer,
            now,
        )?;
        note_answer(&mut self.attempts, &self.config, &self.records, answer);
        Ok(answer)
    }

    /// Brings the changes of a row into the spool, after one pair of syncs, and returns the note of each: from then on
    /// every stop leaves them. At `Stopped` the device failed, and a stop leaves none of them or all; or the node was
    /// stopped before, and that is all that a stopped node answers. At `Full` nothing changes: no row that was staged
    /// for this node is too large for its spool. Allocates nothing.
    pub fn settle(&mut self, row: Staged) -> Result<Vec<Noted>, Unsettled>
        ensures settles { (changes pending : List Change)
            → Awaits D.honest D.words self.old.records changes pending row
            → IfOk result (λ notes. Settles D.honest D.words self.new.records changes pending notes.items) }
        ensures cut { (changes pending : List Change)
            → Awaits D.honest D.words self.old.records changes pending row
            → IfErr result (λ unsettled. unsettled.fault ≡ NodeFault.Stopped
            → CutsAll D.honest D.words self.new.records changes pending unsettled.notes.items) }
        // A stop at any time of the call leaves the changes as they were or with all of the row.
        ensures stop { (changes pending : List Change)
            → Awaits D.honest D.words self.old.records changes pending row → D.honest
            → AtEachMoment D.words self.old.records.spool.disk self.new.records.spool.disk
            (HasBodies (StandsForOrWithAll changes pending)) }
        ensures grows { OnOk result (GrowsAll D.words self.old.records row self.new.records) }
        ensures notes { MatchResult result (λ notes. notes.items ≡ row.notes)
            (λ unsettled. unsettled.notes.items ≡ row.notes) }
        ensures rest { (self.new.config ≡ self.old.config) × (self.new.seats ≡ self.old.seats)
            × (self.new.attempts ≡ self.old.attempts) }
        ensures stopped { self.old.records.spool.live ≡ false → (self.new ≡ self.old)
            × MatchResult result (λ _. ⊥) (λ unsettled. unsettled.fault ≡ NodeFault.Stopped) }
        ensures refused { IfErr result (λ unsettled. self.old.records.spool.live ≡ true
            → RefusesToSettle D.words self.old.records self.new.records unsettled.fault) }
        ensures full { IfErr result (λ unsettled. unsettled.fault ≡ NodeFault.Full
            → (2 ^ 40 < self.old.records.spool.size + room_of row.bodies) × (row.bodies ≢ [])) }
    {
        if !self.records.is_live() {
            return Err(Unsettled {
                fault: NodeFault::Stopped,
                notes: row.let_go(),
            });
        }
        let is_within = self.records.size() <= SIZE_LIMIT;
        prove!(is_within);
        self.records.settle(row)
    }
}

/// Judges an offer after the changes of a row, and puts its accept after them if there is room for it.
fn stage_offer<D: Disk>(
    alloc: Global,
    config: &Config,
    records: &mut Records<D>,
    row: &mut Staged,
    offer: &Offer<'_>,
    peer: [u8; 4],
    now: Moment,
) -> Result<Answer, NodeFault>
    requires { IsStorable (offered offer.now) }
    ensures stages { (changes pending : List Change)
        → Awaits D.honest D.words records.old changes pending row.old
        → IfOk result (StagesOffer D.honest D.words config.now changes pending peer now
        (offered offer.now) records.old row.old records.new row.new) }
    ensures answers { IfOk result (HasStaged records.old records.new) }
    ensures refused { IfErr result (RefusesToStage records.old records.new row.old row.new) }
    ensures full { 2 ^ 62 < records.old.queue.next
        → (result ≡ Err NodeFault.NoMemory) ⊎ (result ≡ Err NodeFault.Full) }
{
    awaited_are_numbered::<D>();
    let intake = Intake {
        config,
        peer,
        number: records.next_number(),
        size: records.size() + row.room(),
        at: now,
    };
    match intake.weigh(alloc, offer)? {
        None => Ok(Answer::Full),
        Some(taken) => match records.stage(alloc, row, taken.change, taken.octets, 0) {
            Ok(number) => Ok(Answer::Queued(number)),
            Err(fault) => Err(fault),
        },
    }
}
