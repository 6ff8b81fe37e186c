//! What sessions and attempts hear in a turn, all in one call of the relay: clients' first lines, and the replies of
//! next hops.
ghost use Rattle.std.specs.Prelude.{◌≡◌, ◌<◌, All, IfErr, IfOk, IfSome, MatchOption, None, Ok, Some, map};
ghost use Rattle.relay_slots.specs.Slots.{slot_at};
ghost use Rattle.relay_connections.specs.Hearing.{HearOwn, IsOwn, hearing_from, session_of};
ghost use Rattle.relay_connections.specs.Replies.{OnlyRepliedTo};

use crate::client::Client;
use crate::clocks::Now;
use crate::share::share;
use crate::stream::Stream;
use relay_disk::Disk;
use relay_loop::{Answered, Group, Heard, Piece, Relay, ReplyPiece};
use relay_node::{NodeFault, Noted};
use std::alloc::{AllocError, Global};

/// The result of a client's octets.
pub(crate) type Answer = Result<Heard, NodeFault>;

/// The sessions that heard octets in one call and the result for each, in the same order; and the results of the
/// replies in the same call.
#[derive(Drop)]
pub(crate) struct Hearing {
    pub(crate) sessions: Vec<usize>,
    pub(crate) heard: Vec<Answer>,
    pub(crate) replies: Replied,
}

/// The results of next hops' replies that were used in one call with clients' octets.
#[derive(Drop)]
pub struct Replied {
    /// The result of each reply, in their order.
    pub answered: Vec<Result<Answered, NodeFault>>,
    /// A note of each change that the call has added, in the order of their numbers.
    pub notes: Vec<Noted>,
}

/// Passes unread octets to all sessions that may hear some, the first one first, and then the replies to their
/// attempts, in one call, so that accepted mail and outcomes share one pair of syncs. Returns `None` if memory runs
/// out; nothing was heard then.
pub(crate) fn hear_all<S: Stream, D: Disk>(
    alloc: Global,
    clients: &[Option<Box<Client<S>>>],
    first: usize,
    replies: &[ReplyPiece<'_>],
    relay: &mut Relay<D>,
    now: &Now,
) -> Result<Option<Hearing>, NodeFault>
    requires { first < 64 }
    ensures own { IfOk result (λ hearing. IfSome hearing
        (HearOwn D.honest D.words clients.now first replies.now now.now.moment relay.old relay.new)) }
    ensures none { result ≡ Ok None → relay.new ≡ relay.old }
    ensures only { OnlyRepliedTo replies.now relay.old relay.new }
    ensures fault { IfErr result (λ fault. fault ≡ NodeFault.Stopped) }
{
    let Ok(pieces) = pieces_of(alloc, clients, first) else {
        return Ok(None);
    };
    let Ok(sessions) = sessions_of(alloc, pieces.as_slice()) else {
        return Ok(None);
    };
    match relay.read_all(pieces.as_slice(), replies, now.moment) {
        Ok(
            Group {
                heard,
                answered,
                notes,
            },
        ) => Ok(Some(Hearing {
            sessions,
            heard,
            replies: Replied { answered, notes },
        })),
        Err(NodeFault::Stopped) => Err(NodeFault::Stopped),
        Err(_) => Ok(None),
    }
}

/// Returns the first lines of each client whose session may hear some, the first one first.
fn pieces_of<S: Stream>(
    alloc: Global,
    clients: &[Option<Box<Client<S>>>],
    first: usize,
) -> Result<Vec<Piece<'_>>, AllocError>
    requires { first < 64 }
    ensures own { IfOk result (λ pieces. All (IsOwn clients.now) pieces.items) }
    ensures each { IfOk result (λ pieces. map session_of pieces.items ≡ hearing_from clients.now first) }
{
    let mut pieces = Vec::new(alloc);
    for step in 0..clients.len() {
        let number = (first + step) % clients.len();
        if let Some(client) = client_at(clients, number) {
            if client.hears {
                pieces.push(Piece {
                    session: number,
                    octets: share(client.channel.piece()),
                })?;
            }
        }
    }
    Ok(pieces)
}

/// Returns the client of a number, if there is one.
pub(crate) fn client_at<S>(
    clients: &[Option<Box<Client<S>>>],
    number: usize,
) -> Option<&Box<Client<S>>>
    ensures { MatchOption result (slot_at clients.now number ≡ None)
        (λ client. slot_at clients.now number ≡ Some client.now) }
{
    match clients.get(number) {
        Some(Some(client)) => Some(client),
        Some(None) => None,
        None => None,
    }
}

/// Returns the sessions of these pieces.
fn sessions_of(alloc: Global, pieces: &[Piece<'_>]) -> Result<Vec<usize>, AllocError>
    ensures { IfOk result (λ sessions. sessions.items ≡ map session_of pieces.now) }
{
    let mut sessions = Vec::with_capacity(alloc, pieces.len())?;
    for piece in pieces {
        sessions.push(piece.session)?;
    }
    Ok(sessions)
}
