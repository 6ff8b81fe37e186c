//! Mail of the node's sessions that comes into its records together.
ghost use Rattle.std.specs.Prelude.{◌≡◌, ℕ, None, List, length, IfErr, IfOk, OnErr, Err};
ghost use Rattle.relay_book.specs.declared.change.Change.{Change};
ghost use Rattle.relay_node.specs.Node.{HasHistory, RefusesAt, SeatHasSaid, SessionHasSaid};
ghost use Rattle.relay_node.specs.Room.{ComesToOffer};
ghost use Rattle.relay_node.specs.Staging.{HearsAfter, IsHeardInto, ReceivesAfter, TakesInto, UsesPiece};
ghost use Rattle.relay_node.specs.Staging.{RefusesToHearInto, RefusesToReceiveInto};
ghost use Rattle.relay_records.specs.Staged.{Awaits};
ghost use Rattle.relay_server.specs.Dialogue.{Said};
ghost use Rattle.relay_server.specs.Setup.{setup_for};
ghost use Rattle.relay_slots.specs.Slots.{OthersStay, slot_at};

use crate::attempts::note;
use crate::intake::Intake;
use crate::node::Node;
use crate::receive::Received;
use crate::seat::{Seat, put_back, take_seat};
use crate::speak::Spoken;
use relay_disk::Disk;
use relay_records::list_laws::awaited_are_numbered;
use relay_records::{NodeFault, Records, Staged};
use relay_routes::Config;
use relay_trace::Moment;
use std::alloc::Global;

impl<D: Disk> Node<D> {
    /// Uses octets of a client as [`Node::receive`] does, but puts the change of an offer that there is room for after
    /// those of a row: it is judged and numbered after them. What comes out may be handed out once [`Node::settle`] has
    /// taken the row, and not before: until then a stop leaves nothing of the change. The first fault in this order is
    /// answered: `Stopped`, where the node was; `Unknown`; `NoMemory`; and `Full`, where a message came and changes
    /// have no numbers any more. These two end the session without an octet, and leave the row as it was. No device is
    /// called.
    pub fn receive_into(
        &mut self,
        row: &mut Staged,
        session: usize,
        piece: &[u8],
        now: Moment,
    ) -> Result<Received, NodeFault>
        ensures receives { (changes pending : List Change)
            → Awaits D.honest D.words self.old.records changes pending row.old
            → IfOk result (ReceivesAfter D.honest D.words self.old.config changes pending now session piece.now
            self.old row.old self.new row.new) }
        ensures full { (peer : List ℕ) (said : Said) → SeatHasSaid self.old.config self.old.seats session peer said
            → result ≡ Err NodeFault.Full → ComesToOffer (setup_for self.old.config peer) said piece.now }
        ensures answers { IfOk result (TakesInto self.old.records row.old self.new.records row.new) }
        ensures used { IfOk result (UsesPiece (length piece.now)) }
        ensures rest { OthersStay self.old.seats self.new.seats session
            × (self.new.config ≡ self.old.config) × (self.new.attempts ≡ self.old.attempts) }
        ensures refused { RefusesAt self.old self.new (slot_at self.old.seats session ≡ None)
            (RefusesToReceiveInto session self.old self.new row.old row.new) result }
        ensures row { OnErr result (row.new ≡ row.old) }
    {
        let mut seat = take_seat(&mut self.seats, &mut self.attempts, &self.records, session)?;
        self.records.numbers_rise();
        let received = hear_into(
            self.alloc,
            &self.config,
            &mut self.records,
            row,
            &mut seat,
            piece,
            now,
        )?;
        note(&mut self.attempts, &self.config, &self.records, &received);
        put_back(&mut self.seats, session, seat, received.close);
        Ok(received)
    }
}

/// Hears a client, up to a change or a close, or to the end of the piece; the change of an offer that there is
/// room for comes after those of a row.
fn hear_into<D: Disk>(
    alloc: Global,
    config: &Config,
    records: &mut Records<D>,
    row: &mut Staged,
    seat: &mut Seat,
    piece: &[u8],
    now: Moment,
) -> Result<Received, NodeFault>
    requires { HasHistory config.now seat.old.peer seat.old.session.value }
    ensures hears { (changes pending : List Change)
        → Awaits D.honest D.words records.old changes pending row.old
        → IfOk result (HearsAfter D.honest D.words config.now changes pending now seat.old.peer seat.old.session.value
        seat.new.session.value piece.now records.old row.old records.new row.new) }
    ensures full { (said : Said) → SessionHasSaid (setup_for config.now seat.old.peer) seat.old.session.value said
        → result ≡ Err NodeFault.Full → ComesToOffer (setup_for config.now seat.old.peer) said piece.now }
    ensures heard { IfOk result (IsHeardInto config.now seat.new.peer (length piece.now) records.old row.old
        records.new row.new seat.new.session.value) }
    ensures refused { IfErr result (RefusesToHearInto records.old records.new row.old row.new) }
    ensures peer { seat.new.peer ≡ seat.old.peer }
{
    awaited_are_numbered::<D>();
    let intake = Intake {
        config,
        peer: seat.peer,
        number: records.next_number(),
        size: records.size() + row.room(),
        at: now,
    };
    let Spoken {
        used,
        out,
        close,
        taken,
    } = intake.speak(alloc, &mut seat.session, piece)?;
    match taken {
        None => Ok(Received {
            used,
            out,
            change: None,
            close,
        }),
        Some(taken) => match records.stage(alloc, row, taken.change, taken.octets, used) {
            Ok(number) => Ok(Received {
                used,
                out,
                change: Some(number),
                close,
            }),
            Err(fault) => Err(fault),
        },
    }
}
