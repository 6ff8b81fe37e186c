//! The connections of clients.
ghost use Rattle.std.specs.Prelude.{◌≡◌, ◌≢◌, ◌↔◌, ◌≤◌, ◌<◌, ◌++◌, ℕ, [], None, Some, List, true, false};
ghost use Rattle.std.specs.Prelude.{Err, IfErr, IfOk, Ok, OnOk, drop, length, take};
ghost use Rattle.std.specs.Option.{option_map};
ghost use Rattle.relay_book.specs.declared.change.Change.{Change};
ghost use Rattle.relay_loop.specs.Clients.{HearsClient, IsHeardFrom, IsSetTo, Reads, RefusesToEnd, RefusesToRead};
ghost use Rattle.relay_loop.specs.Clients.{TalksTo, UsesOctets};
ghost use Rattle.relay_loop.specs.Outboxes.{unwritten_at};
ghost use Rattle.relay_loop.specs.Relay.{OnlyClient};
ghost use Rattle.relay_node.specs.Node.{CutsTalk, RefusesToConnect, greeted_by};
ghost use Rattle.relay_node.specs.Room.{ComesToOffer};
ghost use Rattle.relay_records.specs.Records.{Keeps};
ghost use Rattle.relay_server.specs.Dialogue.{Said};
ghost use Rattle.relay_server.specs.Setup.{setup_for};
ghost use Rattle.relay_slots.specs.Slots.{IsFull, IsLeastFree, OthersStay, slot_at};
ghost use Rattle.relay_slots.specs.declared.slots.TheConstants.{SLOT_COUNT};

use crate::outbox::Outbox;
use crate::outboxes::Outboxes;
use crate::relay::Relay;
use relay_disk::Disk;
use relay_node::Received;
use relay_records::NodeFault;
use relay_trace::Moment;

/// What a read did with the octets of a client.
#[derive(Drop)]
pub struct Heard {
    /// How many octets of the piece were used, from its start.
    pub used: usize,
    /// The number of the change that was added, if any.
    pub change: Option<u64>,
    /// If the session has closed: the unwritten octets of its connection, which the relay has forgotten.
    pub last: Option<Outbox>,
}

impl Heard {
    /// Returns a result for a piece of which no octet was used.
    pub(crate) fn nothing() -> Self
        ensures { result ≡ record { used = 0; change = None; last = None } }
    {
        Heard {
            used: 0,
            change: None,
            last: None,
        }
    }
}

impl<D: Disk> Relay<D> {
    /// Opens a session for a client at this IPv4 address, under the lowest free number, and returns the number. The
    /// greeting is ready to be written. Fails, in this order, with `Stopped`, with `TooMany` if 64 sessions are open,
    /// or if memory runs out; nothing changes then.
    pub fn accept(&mut self, peer: [u8; 4]) -> Result<usize, NodeFault>
        ensures talks { IfOk result (λ session. (changes : List Change) → TalksTo changes self.new session peer
            (greeted_by (unwritten_at self.new.clients session)) []) }
        ensures free { IfOk result (IsLeastFree self.old.node.seats) }
        ensures only { IfOk result (OnlyClient self.old self.new) }
        ensures records { self.new.node.records ≡ self.old.node.records }
        ensures refused { IfErr result (RefusesToConnect self.old.node self.new.node) }
        ensures unchanged { IfErr result (λ _. (self.new.clients ≡ self.old.clients)
            × (self.new.hops ≡ self.old.hops)) }
        ensures stopped { (result ≡ Err NodeFault.Stopped) ↔ (self.old.node.records.spool.live ≡ false) }
        ensures too_many { (result ≡ Err NodeFault.TooMany)
            ↔ ((self.old.node.records.spool.live ≡ true) × IsFull self.old.node.seats) }
    {
        let connected = self.node.connect(peer)?;
        self.clients
            .put(connected.session, Outbox::new(connected.out));
        Ok(connected.session)
    }

    /// Uses octets of a client, up to their end, a change or a close; the replies are ready to be written. Uses none,
    /// and changes nothing, while octets for the client are unwritten.
    ///
    /// Fails with `Unknown` if there is no such connection, else as [`Node::receive`](relay_node::Node::receive). After
    /// a fault the connection is gone.
    pub fn read(&mut self, session: usize, piece: &[u8], now: Moment) -> Result<Heard, NodeFault>
        ensures reads { (changes : List Change) (peer : List ℕ) (said : Said) (written : List ℕ)
            → Keeps D.honest D.words self.old.node.records changes
            → TalksTo changes self.old session peer said written → unwritten_at self.old.clients session ≡ []
            → IfOk result (Reads D.honest D.words changes session peer now said written piece.now
            self.old self.new) }
        ensures hears { slot_at self.old.clients session ≡ Some []
            → IfOk result (HearsClient D.honest D.words session now piece.now self.old self.new) }
        ensures waits { unwritten_at self.old.clients session ≢ []
            → (result ≡ Ok (record { used = 0; change = None; last = None })) × (self.new ≡ self.old) }
        ensures cut { (changes : List Change) (peer : List ℕ) (said : Said) (written : List ℕ)
            → Keeps D.honest D.words self.old.node.records changes
            → TalksTo changes self.old session peer said written → result ≡ Err NodeFault.Stopped
            → CutsTalk D.honest D.words self.old.node.config changes peer now said piece.now
            self.old.node.records self.new.node.records }
        ensures full { (changes : List Change) (peer : List ℕ) (said : Said) (written : List ℕ)
            → TalksTo changes self.old session peer said written → result ≡ Err NodeFault.Full
            → ComesToOffer (setup_for self.old.node.config peer) said piece.now }
        ensures used { IfOk result (UsesOctets D.words session (length piece.now) self.old self.new) }
        ensures only { OnlyClient self.old self.new session }
        ensures refused { RefusesToRead D.words session self.old self.new result }
        ensures unknown { slot_at self.old.clients session ≡ None → result ≡ Err NodeFault.Unknown }
        ensures stopped { self.old.node.records.spool.live ≡ false
            → slot_at self.old.clients session ≡ Some [] → result ≡ Err NodeFault.Stopped }
    {
        let Some(waiting) = self.clients.waiting(session) else {
            return Err(NodeFault::Unknown);
        };
        if !waiting.is_empty() {
            return Ok(Heard::nothing());
        }
        match self.node.receive(session, piece, now) {
            Ok(received) => Ok(set_by(&mut self.clients, session, received)),
            Err(fault) => {
                self.clients.remove(session);
                Err(fault)
            }
        }
    }

    /// Returns the unwritten octets for a client; none if there is no such connection.
    pub fn to_client(&self, session: usize) -> &[u8]
        ensures { result.now ≡ unwritten_at self.now.clients session }
    {
        self.clients.to_write(session)
    }

    /// Drops the first `count` unwritten octets for a client, which were written. Allocates nothing.
    pub fn wrote_to_client(&mut self, session: usize, count: usize)
        requires { count ≤ length (unwritten_at self.old.clients session) }
        ensures talks { (changes : List Change) (peer : List ℕ) (said : Said) (written : List ℕ)
            → TalksTo changes self.old session peer said written
            → TalksTo changes self.new session peer said
            (written ++ take count (unwritten_at self.old.clients session)) }
        ensures left { slot_at self.new.clients session
            ≡ option_map (drop count) (slot_at self.old.clients session) }
        ensures others { OthersStay self.old.clients self.new.clients session }
        ensures rest { (self.new.node ≡ self.old.node) × (self.new.hops ≡ self.old.hops) }
    {
        self.clients.wrote(session, count);
    }

    /// Ends the session of a client, because its input has ended or the relay cuts it off, and returns the unwritten
    /// octets of its connection. An offer that isn't whole is dropped. Fails with `Unknown` if there is no such
    /// connection or session, and with `Stopped` if the node is stopped; the connection is gone then too. Allocates
    /// nothing.
    pub fn end_client(&mut self, session: usize) -> Result<Outbox, NodeFault>
        ensures last { IfOk result (λ last. slot_at self.old.clients session ≡ Some last) }
        ensures talked { (changes : List Change) (peer : List ℕ) (said : Said) (written : List ℕ)
            → TalksTo changes self.old session peer said written
            → IfOk result (λ last. said.output ≡ written ++ last) }
        ensures gone { slot_at self.new.clients session ≡ None }
        ensures seat { OnOk result (slot_at self.new.node.seats session ≡ None) }
        ensures only { OnlyClient self.old self.new session }
        ensures records { self.new.node.records ≡ self.old.node.records }
        ensures refused { IfErr result (RefusesToEnd session self.old self.new) }
        ensures unknown { slot_at self.old.clients session ≡ None → result ≡ Err NodeFault.Unknown }
        ensures stopped { self.old.node.records.spool.live ≡ false
            → slot_at self.old.clients session ≢ None → result ≡ Err NodeFault.Stopped }
    {
        let Some(outbox) = self.clients.take(session) else {
            return Err(NodeFault::Unknown);
        };
        self.node.ended(session)?;
        Ok(outbox)
    }
}

/// Makes the octets that the session wrote ready for the client, or hands them out if the session has closed.
pub(crate) fn set_by(clients: &mut Outboxes, session: usize, received: Received) -> Heard
    requires { session < SLOT_COUNT }
    ensures heard { IsHeardFrom received result }
    ensures set { IsSetTo received.close session received.out.items result.last clients.new }
    ensures others { OthersStay clients.old clients.new session }
{
    let Received {
        used,
        out,
        change,
        close,
    } = received;
    if close {
        clients.remove(session);
        return Heard {
            used,
            change,
            last: Some(Outbox::new(out)),
        };
    }
    clients.put(session, Outbox::new(out));
    Heard {
        used,
        change,
        last: None,
    }
}
