//! A turn of a relay: a few of its calls in a row.
ghost use Rattle.std.specs.Prelude.{List, IfOk, ℕ};
ghost use Rattle.relay_daemon.specs.Sequences.{KeepsThrough, Stands};
ghost use Rattle.relay_daemon.specs.Turn.{calls_of};
ghost use Rattle.relay_world.specs.GivingUp.{Withdrawing};
ghost use Rattle.relay_world.specs.World.{World};

use crate::calls;
use crate::laws::calls_keep_the_promise;
use relay_disk::Disk;
use relay_loop::{Group, Piece, Relay, ReplyPiece};
use relay_records::NodeFault;
use relay_trace::Moment;

/// What a turn did.
#[derive(Drop)]
pub struct Turn {
    /// The session of the client that was accepted.
    pub session: usize,
    /// How many octets were written to the client.
    pub greeted: usize,
    /// What the octets of clients and the replies of next hops did.
    pub group: Group,
    /// How many octets were written to the next hop.
    pub written: usize,
}

/// Accepts a client at this address and writes its greeting, then uses octets of clients and replies of next hops in
/// one call, and writes the commands that follow to the next hop of an attempt. All unwritten octets of the two
/// connections count as written.
///
/// The promise for mail is kept before, between and after these calls, in any network of relays that are in order,
/// whatever the other relays and outside do in between.
pub fn take_turn<D: Disk>(
    relay: &mut Relay<D>,
    peer: [u8; 4],
    pieces: &[Piece<'_>],
    replies: &[ReplyPiece<'_>],
    attempt: usize,
    now: Moment,
) -> Result<Turn, NodeFault>
    ensures promise { D.honest → IfOk result (λ turn. (world : World D) (node : ℕ) (asked : List Withdrawing)
        → Stands D.honest D.words world node asked relay.old
        → KeepsThrough D.honest D.words node (calls_of peer pieces.now replies.now attempt now turn) world asked
        relay.old relay.new) }
{
    calls_keep_the_promise::<D>();
    let session = calls::accept(relay, peer)?;
    let greeted = relay.to_client(session).len();
    calls::wrote_to_client(relay, session, greeted);
    let group = calls::read_all(relay, pieces, replies, now)?;
    let written = relay.to_hop(attempt).len();
    calls::wrote_to_hop(relay, attempt, written);
    Ok(Turn {
        session,
        greeted,
        group,
        written,
    })
}
