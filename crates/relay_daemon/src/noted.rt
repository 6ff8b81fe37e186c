//! The calls of a relay that may add a change, each with the note of that change taken.
ghost use Rattle.std.specs.Prelude.{◌≡◌, ◌≢◌, [], IfErr, IfOk, Some, true};
ghost use Rattle.relay_loop.specs.Called.{Does, Drops, GivesUp, HearsOne, IsRefused, Loses, Reads, Withdraws, told_of};
ghost use Rattle.relay_loop.specs.Called.{untold};
ghost use Rattle.relay_loop.specs.Calls.{IsShort};
ghost use Rattle.relay_slots.specs.Slots.{slot_at};

use crate::calls;
use relay_book::Withdrawal;
use relay_disk::Disk;
use relay_loop::{Answered, Heard, Relay};
use relay_records::NodeFault;
use relay_trace::Moment;

/// Uses octets of a client to which nothing is unwritten, and takes the note of the accept if mail was accepted.
pub fn read<D: Disk>(
    relay: &mut Relay<D>,
    session: usize,
    piece: &[u8],
    now: Moment,
) -> Result<Heard, NodeFault>
    ensures { slot_at relay.old.clients session ≡ Some [] → IfOk result (λ heard.
        Does D.honest D.words (HearsOne session piece.now now heard) relay.old relay.new) }
{
    let heard = calls::read(relay, session, piece, now)?;
    take_note_of(relay, heard.change);
    Ok(heard)
}

/// Uses replies of a next hop, and takes the note of the outcome if they ended the attempt.
pub fn reply<D: Disk>(
    relay: &mut Relay<D>,
    attempt: usize,
    piece: &[u8],
    now: Moment,
) -> Result<Answered, NodeFault>
    ensures reads { IfOk result (λ answered.
        Does D.honest D.words (Reads attempt piece.now now answered) relay.old relay.new) }
    ensures dropped { relay.old.node.records.spool.live ≡ true
        → IfErr result (λ fault. IsShort fault → Does D.honest D.words (Drops attempt) relay.old relay.new) }
{
    let answered = calls::reply(relay, attempt, piece, now)?;
    take_note_of(relay, answered.change);
    Ok(answered)
}

/// Ends an attempt whose connection is lost, and takes the note of its outcome.
pub fn lose<D: Disk>(relay: &mut Relay<D>, attempt: usize, now: Moment) -> Result<u64, NodeFault>
    ensures loses { IfOk result (λ change. Does D.honest D.words (Loses attempt now change) relay.old relay.new) }
    ensures dropped { relay.old.node.records.spool.live ≡ true
        → IfErr result (λ fault. IsShort fault → Does D.honest D.words (Drops attempt) relay.old relay.new) }
{
    let change = calls::lose(relay, attempt, now)?;
    take_note(relay);
    Ok(change)
}

/// Gives up the places of a message that have no hop, and takes the note of the outcome.
pub fn give_up_unroutable<D: Disk>(
    relay: &mut Relay<D>,
    message: u64,
    now: Moment,
) -> Result<u64, NodeFault>
    ensures gives_up { IfOk result (λ change.
        Does D.honest D.words (GivesUp message now change) relay.old relay.new) }
    ensures refused { IfErr result (λ fault. fault ≢ NodeFault.Stopped
        → Does D.honest D.words IsRefused relay.old relay.new) }
{
    let change = calls::give_up_unroutable(relay, message, now)?;
    take_note(relay);
    Ok(change)
}

/// Withdraws places of a message, and takes the note of the outcome.
pub fn withdraw<D: Disk>(
    relay: &mut Relay<D>,
    message: u64,
    places: &[u8],
    withdrawal: Withdrawal,
    now: Moment,
) -> Result<u64, NodeFault>
    ensures withdraws { IfOk result (λ change.
        Does D.honest D.words (Withdraws message places.now withdrawal now change) relay.old relay.new) }
    ensures refused { IfErr result (λ fault. fault ≢ NodeFault.Stopped
        → Does D.honest D.words IsRefused relay.old relay.new) }
{
    let change = calls::withdraw(relay, message, places, withdrawal, now)?;
    take_note(relay);
    Ok(change)
}

/// Takes the note of a change that a call has added, if it has added one.
fn take_note_of<D: Disk>(relay: &mut Relay<D>, change: Option<u64>)
    ensures { relay.new ≡ told_of change relay.old }
{
    if change.is_some() {
        take_note(relay);
    }
}

/// Takes the note of the last change.
fn take_note<D: Disk>(relay: &mut Relay<D>)
    ensures { relay.new ≡ untold relay.old }
{
    let _note = relay.take_noted();
}
