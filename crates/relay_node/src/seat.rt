ghost use Rattle.std.specs.Prelude.{◌≡◌, ◌<◌, length, None, Some, IfErr, IfOk, MatchOption, if◌then◌else◌, slice_set};
ghost use Rattle.relay_node.specs.Seats.{RefusesSeat, TakesSeat};
ghost use Rattle.relay_slots.specs.Slots.{slot_at};

use relay_attempts::Attempts;
use relay_disk::Disk;
use relay_records::{NodeFault, Records};
use relay_server::Session;
use relay_slots::Slots;

/// A session, and the address of its client.
pub(crate) struct Seat {
    /// In a box, since it has room for a long command line, and a seat is moved at each call.
    pub(crate) session: Box<Session>,
    /// The IPv4 address that the client connected from.
    pub(crate) peer: [u8; 4],
}

// Written out, so that the proof of a caller that drops a seat stops at this function.
impl Drop for Seat {
    fn drop(self) {
        let Seat {
            session: _session,
            peer: _,
        } = self;
    }
}

/// Returns the seat of a session, if there is one.
pub(crate) fn seat_at(seats: &Slots<Seat>, session: usize) -> Option<&Seat>
    ensures { MatchOption result (slot_at seats.now session ≡ None)
        (λ seat. slot_at seats.now session ≡ Some seat.now) }
{
    match seats.as_slice().get(session) {
        Some(Some(seat)) => Some(seat),
        Some(None) => None,
        None => None,
    }
}

/// Takes the seat of a session out, for a call that may accept mail: there is room to note a message more. `Stopped`
/// is answered first, and then `Unknown`, and nothing is changed then; at `NoMemory` the seat is gone.
pub(crate) fn take_seat<D: Disk>(
    seats: &mut Slots<Seat>,
    attempts: &mut Attempts,
    records: &Records<D>,
    session: usize,
) -> Result<Seat, NodeFault>
    ensures taken { IfOk result (TakesSeat records.now session seats.old seats.new) }
    ensures room { IfOk result (λ _. 0 < attempts.new.room) }
    ensures attempts { (attempts.new.runs ≡ attempts.old.runs)
        × (attempts.new.stranded ≡ attempts.old.stranded) }
    ensures refused { IfErr result (RefusesSeat records.now session seats.old seats.new) }
{
    if !records.is_live() {
        return Err(NodeFault::Stopped);
    }
    let Some(seat) = seats.take(session) else {
        return Err(NodeFault::Unknown);
    };
    attempts.reserve()?;
    Ok(seat)
}

/// Puts the seat of a session back where it was taken out, unless the session has closed.
pub(crate) fn put_back(seats: &mut Slots<Seat>, session: usize, seat: Seat, close: bool)
    requires { session < length seats.old }
    ensures { seats.new ≡ (if close then seats.old else slice_set seats.old session (Some seat)) }
{
    if !close {
        seats.put(session, seat);
    }
}
