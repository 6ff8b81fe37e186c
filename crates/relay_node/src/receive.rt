ghost use Rattle.std.specs.Prelude.{◌≡◌, List, length, IfErr, IfOk, IsTrue, Err};
ghost use Rattle.relay_book.specs.declared.change.Change.{Change};
ghost use Rattle.relay_node.specs.Node.{CutsTalk, HasHistory, Hears, IsHeard, RefusesToHear, SessionHasSaid};
ghost use Rattle.relay_node.specs.Room.{ComesToOffer};
ghost use Rattle.relay_records.specs.Records.{Keeps};
ghost use Rattle.relay_server.specs.Dialogue.{Said};
ghost use Rattle.relay_server.specs.Setup.{setup_for};

use crate::intake::Intake;
use crate::seat::Seat;
use crate::speak::Spoken;
use relay_disk::Disk;
use relay_records::{NodeFault, Records};
use relay_routes::Config;
use relay_trace::Moment;
use std::alloc::Global;

/// The result of a client's octets.
#[derive(Drop)]
pub struct Received {
    /// How many octets of the piece it has used.
    pub used: usize,
    /// The octets for the client.
    pub out: Vec<u8>,
    /// The number of the change that was made, if one was.
    pub change: Option<u64>,
    /// The session is gone: what there is to write is written, and the connection closed.
    pub close: bool,
}

/// Hears a client, up to a change or a close, or to the end of the piece. The reply to an offer is
/// made before its change is added, and handed out after that alone.
pub(crate) fn hear<D: Disk>(
    alloc: Global,
    config: &Config,
    records: &mut Records<D>,
    seat: &mut Seat,
    piece: &[u8],
    now: Moment,
) -> Result<Received, NodeFault>
    requires live { IsTrue records.old.spool.live }
    requires history { HasHistory config.now seat.old.peer seat.old.session.value }
    ensures hears { (changes : List Change) (said : Said) → Keeps D.honest D.words records.old changes
        → SessionHasSaid (setup_for config.now seat.old.peer) seat.old.session.value said
        → IfOk result (Hears D.honest D.words config.now changes seat.old.peer now said piece.now
        seat.new.session.value records.old records.new) }
    ensures cut { (changes : List Change) (said : Said) → Keeps D.honest D.words records.old changes
        → SessionHasSaid (setup_for config.now seat.old.peer) seat.old.session.value said
        → result ≡ Err NodeFault.Stopped
        → CutsTalk D.honest D.words config.now changes seat.old.peer now said piece.now
        records.old records.new }
    ensures full { (said : Said) → SessionHasSaid (setup_for config.now seat.old.peer) seat.old.session.value said
        → result ≡ Err NodeFault.Full → ComesToOffer (setup_for config.now seat.old.peer) said piece.now }
    ensures heard { IfOk result (IsHeard D.words config.now seat.new.peer (length piece.now) records.old records.new
        seat.new.session.value) }
    ensures refused { IfErr result (RefusesToHear D.words records.old records.new) }
    ensures peer { seat.new.peer ≡ seat.old.peer }
{
    let intake = Intake {
        config,
        peer: seat.peer,
        number: records.next_number(),
        size: records.size(),
        at: now,
    };
    let Spoken {
        used,
        out,
        close,
        taken,
    } = intake.speak(alloc, &mut seat.session, piece)?;
    match taken {
        None => Ok(Received {
            used,
            out,
            change: None,
            close,
        }),
        Some(taken) => match records.add(alloc, taken.change, taken.octets, used) {
            Ok(number) => Ok(Received {
                used,
                out,
                change: Some(number),
                close,
            }),
            Err(fault) => Err(fault),
        },
    }
}
