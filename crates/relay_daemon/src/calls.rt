//! The calls of a relay, each with what its event rests on as a clause: so the premises of the laws are what the
//! contracts say. Some have a second clause: if the call is refused, nothing has changed.
ghost use Rattle.std.specs.Prelude.{◌≡◌, ◌≢◌, ◌≤◌, ◌<◌, ◌^◌, ℕ, IfErr, IfOk, List, OnOk, Some, [], length, true};
ghost use Rattle.relay_loop.specs.Calls.{AcceptSays, CompactSays, DropSays, EndSays, GiveUpSays, HearSays, IsShort};
ghost use Rattle.relay_loop.specs.Calls.{LoseSays, ReplySays, StartSays, TrimSays, WithdrawSays, WroteHopSays};
ghost use Rattle.relay_loop.specs.Calls.{WroteSays};
ghost use Rattle.relay_loop.specs.GroupCalls.{HearsGroup};
ghost use Rattle.relay_loop.specs.Outboxes.{unwritten_at};
ghost use Rattle.relay_slots.specs.Slots.{slot_at};

use relay_book::Withdrawal;
use relay_disk::Disk;
use relay_loop::{Answered, Group, Heard, Outbox, Piece, Relay, ReplyPiece};
use relay_node::Started;
use relay_records::NodeFault;
use relay_routes::HostName;
use relay_trace::Moment;

/// Calls [`Relay::compact`].
pub fn compact<D: Disk>(relay: &mut Relay<D>) -> Result<(usize, usize), NodeFault>
    ensures { OnOk result (CompactSays D.honest D.words relay.old relay.new) }
{
    let sizes = relay.compact()?;
    Ok(sizes)
}

/// Calls [`Relay::trim`].
pub fn trim<D: Disk>(relay: &mut Relay<D>, most: usize) -> Result<bool, NodeFault>
    ensures { OnOk result (TrimSays D.honest D.words relay.old relay.new) }
{
    let is_short = relay.trim(most)?;
    Ok(is_short)
}

/// Calls [`Relay::give_up_unroutable`].
#[tactic(auto, using(crate::proofs::RefusedLemmas::gives_up_not))]
pub fn give_up_unroutable<D: Disk>(
    relay: &mut Relay<D>,
    message: u64,
    now: Moment,
) -> Result<u64, NodeFault>
    ensures gives_up { IfOk result (GiveUpSays D.honest D.words relay.old relay.new now message) }
    ensures refused { IfErr result (λ fault. fault ≢ NodeFault.Stopped → relay.new ≡ relay.old) }
{
    let change = relay.give_up_unroutable(message, now)?;
    Ok(change)
}

/// Calls [`Relay::withdraw`].
#[tactic(auto, using(crate::proofs::RefusedLemmas::withdraws_not))]
pub fn withdraw<D: Disk>(
    relay: &mut Relay<D>,
    message: u64,
    places: &[u8],
    withdrawal: Withdrawal,
    now: Moment,
) -> Result<u64, NodeFault>
    ensures withdraws { IfOk result
        (WithdrawSays D.honest D.words relay.old relay.new withdrawal places.now now message) }
    ensures refused { IfErr result (λ fault. fault ≢ NodeFault.Stopped → relay.new ≡ relay.old) }
{
    let change = relay.withdraw(message, places, withdrawal, now)?;
    Ok(change)
}

/// Calls [`Relay::accept`].
#[tactic(auto, using(crate::proofs::RefusedLemmas::connects_not))]
pub fn accept<D: Disk>(relay: &mut Relay<D>, peer: [u8; 4]) -> Result<usize, NodeFault>
    ensures accepts { IfOk result (AcceptSays relay.old relay.new peer) }
    ensures refused { IfErr result (λ _. relay.new ≡ relay.old) }
{
    let session = relay.accept(peer)?;
    let _greeting = relay.to_client(session).len() + 1;
    Ok(session)
}

/// Calls [`Relay::read`].
pub fn read<D: Disk>(
    relay: &mut Relay<D>,
    session: usize,
    piece: &[u8],
    now: Moment,
) -> Result<Heard, NodeFault>
    ensures { slot_at relay.old.clients session ≡ Some [] → IfOk result
        (HearSays D.honest D.words relay.old relay.new now session piece.now) }
{
    let heard = relay.read(session, piece, now)?;
    Ok(heard)
}

/// Calls [`Relay::read_all`].
#[tactic(auto, using(crate::proofs::RefusedLemmas::reads_not))]
pub fn read_all<D: Disk>(
    relay: &mut Relay<D>,
    pieces: &[Piece<'_>],
    replies: &[ReplyPiece<'_>],
    now: Moment,
) -> Result<Group, NodeFault>
    ensures hears { IfOk result (HearsGroup D.honest D.words now pieces.now replies.now relay.old relay.new) }
    ensures refused { IfErr result (λ fault. fault ≡ NodeFault.NoMemory → relay.new ≡ relay.old) }
{
    let group = relay.read_all(pieces, replies, now)?;
    Ok(group)
}

/// Calls [`Relay::end_client`].
pub fn end_client<D: Disk>(relay: &mut Relay<D>, session: usize) -> Result<Outbox, NodeFault>
    ensures { IfOk result (EndSays relay.old relay.new session) }
{
    let last = relay.end_client(session)?;
    Ok(last)
}

/// Calls [`Relay::start`].
pub fn start<D: Disk>(
    relay: &mut Relay<D>,
    message: u64,
    hop: &HostName,
    now: Moment,
) -> Result<Started, NodeFault>
    ensures starts { IfOk result (StartSays D.honest D.words relay.old relay.new message hop.now now) }
    ensures refused { IfErr result (λ _. relay.new ≡ relay.old) }
{
    let started = relay.start(message, hop, now)?;
    Ok(started)
}

/// Calls [`Relay::start_some`]. An attempt for fewer places than `most` is for all that are due, as one that
/// [`Relay::start`] begins.
pub fn start_some<D: Disk>(
    relay: &mut Relay<D>,
    message: u64,
    hop: &HostName,
    most: usize,
    now: Moment,
) -> Result<Started, NodeFault>
    ensures starts { IfOk result (λ started. length started.places.items < most
        → StartSays D.honest D.words relay.old relay.new message hop.now now started) }
    ensures refused { IfErr result (λ _. relay.new ≡ relay.old) }
{
    let started = relay.start_some(message, hop, most, now)?;
    Ok(started)
}

/// Calls [`Relay::reply`].
pub fn reply<D: Disk>(
    relay: &mut Relay<D>,
    attempt: usize,
    piece: &[u8],
    now: Moment,
) -> Result<Answered, NodeFault>
    ensures replies { IfOk result (ReplySays D.honest D.words relay.old relay.new now attempt piece.now) }
    ensures dropped { relay.old.node.records.spool.live ≡ true
        → IfErr result (λ fault. IsShort fault → DropSays relay.old relay.new attempt) }
{
    let answered = relay.reply(attempt, piece, now)?;
    let _unwritten = relay.to_hop(attempt).len() + 1;
    measure_last(&answered);
    Ok(answered)
}

/// Calls [`Relay::lose`].
pub fn lose<D: Disk>(relay: &mut Relay<D>, attempt: usize, now: Moment) -> Result<u64, NodeFault>
    ensures loses { IfOk result (LoseSays D.honest D.words relay.old relay.new now attempt) }
    ensures dropped { relay.old.node.records.spool.live ≡ true
        → IfErr result (λ fault. IsShort fault → DropSays relay.old relay.new attempt) }
{
    let change = relay.lose(attempt, now)?;
    Ok(change)
}

/// Shows that the last octets are as short as those of any slice.
fn measure_last(answered: &Answered)
    ensures { (last : List ℕ) → answered.now.last ≡ Some last → length last < 2 ^ 63 }
{
    if let Some(last) = &answered.last {
        let _length = last.as_slice().len() + 1;
    }
}

/// Calls [`Relay::wrote_to_client`].
pub fn wrote_to_client<D: Disk>(relay: &mut Relay<D>, session: usize, count: usize)
    requires { count ≤ length (unwritten_at relay.old.clients session) }
    ensures { WroteSays relay.old relay.new session count }
{
    relay.wrote_to_client(session, count);
}

/// Calls [`Relay::wrote_to_hop`].
pub fn wrote_to_hop<D: Disk>(relay: &mut Relay<D>, attempt: usize, count: usize)
    requires { count ≤ length (unwritten_at relay.old.hops attempt) }
    ensures { WroteHopSays relay.old relay.new attempt count }
{
    relay.wrote_to_hop(attempt, count);
}
