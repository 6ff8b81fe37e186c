//! Octets of several clients and next hops in one call.
ghost use Rattle.std.specs.Prelude.{◌≡◌, ◌⊎◌, ◌+◌, ◌↔◌, ◌≤◌, ◌^◌, [], ℕ, List, false, length, vec_capacity, vec_len};
ghost use Rattle.std.specs.Prelude.{Err, IfErr, IfOk, IsTrue};
ghost use Rattle.relay_book.specs.declared.change.Change.{Change};
ghost use Rattle.relay_loop.specs.GroupCalls.{HearsGroup, HearsPiece, HearsPieces};
ghost use Rattle.relay_loop.specs.GroupPieces.{AnswersEach, AnswersOne, AreOfOthers, IsLaden, IsUndone};
ghost use Rattle.relay_loop.specs.Groups.{AllAreGone, CutsGroup, OnlyTheirs, ReadsAll, RefusesToReadAll};
ghost use Rattle.relay_loop.specs.Relay.{OnlyClient};
ghost use Rattle.relay_records.specs.Records.{Keeps};
ghost use Rattle.relay_records.specs.Staged.{Awaits};
ghost use Rattle.relay_slots.specs.Slots.{slot_at};
ghost use Rattle.relay_spool.specs.Image.{room_of};

use crate::clients::{Heard, set_by};
use crate::hops::Answered;
use crate::outboxes::Outboxes;
use crate::relay::Relay;
use crate::replying::{ReplyPiece, drop_hops};
use relay_disk::Disk;
use relay_node::Staged;
use relay_records::list_laws::none_is_awaited;
use relay_records::{NodeFault, Noted};
use relay_trace::Moment;

/// The most changes that share one pair of syncs.
const MOST_CHANGES: usize = 64;

/// How many octets of records, 4 MiB, end the reading of a group.
const MOST_ROOM: usize = 4_194_304;

/// Octets that a client wrote.
#[derive(Clone, Copy, Drop)]
pub struct Piece<'a> {
    /// The number of the client's session.
    pub session: usize,
    /// Octets read from its connection, and not used yet.
    pub octets: &'a [u8],
}

/// What a call did with the octets of several clients and next hops.
#[derive(Drop)]
pub struct Group {
    /// The result for each piece, in their order, as of [`Relay::read`].
    pub heard: Vec<Result<Heard, NodeFault>>,
    /// The result for each reply, in their order, as of [`Relay::reply`].
    pub answered: Vec<Result<Answered, NodeFault>>,
    /// A note of each change that was added, in the order of their numbers.
    pub notes: Vec<Noted>,
}

impl<D: Disk> Relay<D> {
    /// Uses octets of several clients, each as [`Relay::read`] does, and then the replies of next hops, each as
    /// [`Relay::reply`] does. All resulting changes go to the spool with one pair of syncs. When the call returns they
    /// survive every stop; before that no octet that depends on them can be written.
    ///
    /// A piece or a reply is left unread while octets for its connection are unwritten, and once the group has 64
    /// changes or 4 MiB of records. A fault of one piece is the result for that piece, and ends its connection alone:
    /// `Unknown`, or too little memory, change numbers or space in the spool.
    ///
    /// The call itself fails, in this order, with `Stopped` if the node was stopped; if memory for the results runs
    /// out, and then nothing changes; or with `Stopped` if the device fails, and then a stop leaves all of the changes
    /// or none. After `Stopped` the connections of all pieces and replies are gone.
    pub fn read_all(
        &mut self,
        pieces: &[Piece<'_>],
        replies: &[ReplyPiece<'_>],
        now: Moment,
    ) -> Result<Group, NodeFault>
        ensures reads { (changes : List Change) → Keeps D.honest D.words self.old.node.records changes
            → IfOk result (ReadsAll D.honest D.words changes now pieces.now replies.now self.old self.new) }
        ensures hears { IfOk result (HearsGroup D.honest D.words now pieces.now replies.now self.old self.new) }
        ensures cut { (changes : List Change) → Keeps D.honest D.words self.old.node.records changes
            → result ≡ Err NodeFault.Stopped
            → CutsGroup D.honest D.words changes now pieces.now replies.now self.old self.new }
        ensures only { OnlyTheirs self.old self.new pieces.now replies.now }
        ensures lengths { IfOk result (λ group. (length group.heard.items ≡ length pieces.now)
            × (length group.answered.items ≡ length replies.now)) }
        ensures refused { IfErr result (RefusesToReadAll pieces.now replies.now self.old self.new) }
        ensures stopped { self.old.node.records.spool.live ≡ false → result ≡ Err NodeFault.Stopped }
    {
        none_is_awaited::<D>();
        if !self.node.is_live() {
            drop_all(&mut self.clients, pieces);
            drop_hops(&mut self.hops, replies);
            return Err(NodeFault::Stopped);
        }
        // Memory for the results comes first, because a change can't be taken back once it is in the queue.
        let Ok(mut heard) = Vec::with_capacity(self.alloc, pieces.len()) else {
            return Err(NodeFault::NoMemory);
        };
        let Ok(mut answered) = Vec::with_capacity(self.alloc, replies.len()) else {
            return Err(NodeFault::NoMemory);
        };
        let mut row = Staged::new(self.alloc);
        self.read_each(&mut row, pieces, now, &mut heard);
        self.reply_each(&mut row, replies, now, &mut answered);
        match self.node.settle(row) {
            Ok(notes) => Ok(Group {
                heard,
                answered,
                notes,
            }),
            Err(unsettled) => {
                drop_all(&mut self.clients, pieces);
                drop_hops(&mut self.hops, replies);
                Err(unsettled.fault)
            }
        }
    }

    /// Uses octets of several clients, one after another; their changes are staged after those of `row`. There is room
    /// for the results.
    fn read_each(
        &mut self,
        row: &mut Staged,
        pieces: &[Piece<'_>],
        now: Moment,
        heard: &mut Vec<Result<Heard, NodeFault>>,
    )
        requires live { IsTrue self.old.node.records.spool.live }
        requires none { heard.old.items ≡ [] }
        requires room { vec_len heard.old + length pieces.now ≤ vec_capacity heard.old }
        ensures each { (changes pending : List Change)
            → Awaits D.honest D.words self.old.node.records changes pending row.old
            → (all : List Change)
            × AnswersEach D.honest D.words changes now pieces.now heard.new.items pending self.old row.old
            self.new row.new all
            × Awaits D.honest D.words self.new.node.records changes all row.new }
        ensures hears { HearsPieces D.honest D.words now pieces.now heard.new.items self.old row.old
            self.new row.new }
        ensures only { OnlyTheirs self.old self.new pieces.now [] }
        ensures undone { IsUndone self.old self.new }
        ensures room { (row.new ≡ row.old)
            ⊎ (self.new.node.records.spool.size + room_of row.new.bodies ≤ 2 ^ 40) }
        ensures lengths { length heard.new.items ≡ length pieces.now }
    {
        for piece in pieces {
            let answer = self.read_into(row, piece, now);
            heard.push_reserved(answer);
        }
    }

    /// Uses octets of a client as [`Relay::read`] does; the change is staged after those of `row`. The piece is left
    /// unread if the row is full.
    fn read_into(
        &mut self,
        row: &mut Staged,
        piece: &Piece<'_>,
        now: Moment,
    ) -> Result<Heard, NodeFault>
        requires { IsTrue self.old.node.records.spool.live }
        ensures answers { (changes pending : List Change)
            → Awaits D.honest D.words self.old.node.records changes pending row.old
            → (more : List Change)
            × AnswersOne D.honest D.words changes now pending piece.now self.old row.old self.new row.new more
            result }
        ensures hears { HearsPiece D.honest D.words now self.old row.old self.new row.new piece.now result }
        ensures only { OnlyClient self.old self.new piece.now.session }
        ensures undone { IsUndone self.old self.new }
        ensures room { (row.new ≡ row.old)
            ⊎ (self.new.node.records.spool.size + room_of row.new.bodies ≤ 2 ^ 40) }
    {
        let session = piece.session;
        let Some(waiting) = self.clients.waiting(session) else {
            return Err(NodeFault::Unknown);
        };
        if !waiting.is_empty() || is_laden(row) {
            return Ok(Heard::nothing());
        }
        match self.node.receive_into(row, session, piece.octets, now) {
            Ok(received) => Ok(set_by(&mut self.clients, session, received)),
            Err(fault) => {
                self.clients.remove(session);
                Err(fault)
            }
        }
    }
}

/// Returns whether a row is full: it has 64 changes, or 4 MiB of records.
pub(crate) fn is_laden(row: &Staged) -> bool
    ensures { IsTrue result ↔ IsLaden row.now }
{
    row.len() >= MOST_CHANGES || row.room() >= MOST_ROOM
}

/// Drops the connections of these pieces. Allocates nothing.
fn drop_all(clients: &mut Outboxes, pieces: &[Piece<'_>])
    ensures gone { AllAreGone clients.new pieces.now }
    ensures others { (session : ℕ) → AreOfOthers session pieces.now
        → slot_at clients.new session ≡ slot_at clients.old session }
{
    for piece in pieces {
        clients.remove(piece.session);
    }
}
