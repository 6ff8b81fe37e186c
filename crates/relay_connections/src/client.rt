//! The connection of a client, and what a turn does with it.
ghost use Rattle.std.specs.Prelude.{◌≡◌, ◌≢◌, ◌≤◌, ◌<◌, ◌+◌, ◌↔◌, ℕ, List, [], None, Some, Ok, Err, IfErr, IfOk};
ghost use Rattle.std.specs.Prelude.{IsTrue, false, length, true};
ghost use Rattle.std.specs.Io.KnownBytes.{Keeps};
ghost use Rattle.relay_loop.specs.Outboxes.{unwritten_at};
ghost use Rattle.relay_connections.specs.Channel.{KeepsInput, KeepsOutput, MayWrite, WasTried, held_of, output_of};
ghost use Rattle.relay_connections.specs.Channel.{unread_of};
ghost use Rattle.relay_connections.specs.Exchange.{Hands, IsHanded, IsRead, Uses};
ghost use Rattle.relay_connections.specs.Served.{StaysOrEnds, StaysSaid};
ghost use Rattle.relay_connections.specs.Hears.{MayHear};
ghost use Rattle.relay_connections.specs.Renewal.{IsFresh, KeepsWaiting, RenewsIfTaken, RenewsSession};
ghost use Rattle.relay_connections.specs.Renewal.{RenewsUnlessOver, WaitsAnew};
ghost use Rattle.relay_connections.specs.Renewal.{WaitsAnewOrOn, WaitsOn, untaken_count};
ghost use Rattle.relay_connections.specs.Sessions.{EndsAlone, IsBetweenMail, deadline_of};
ghost use Rattle.relay_connections.specs.declared.client.TheConstants.{PART_SIZE};

use crate::channel::{Channel, End};
use crate::clocks::Now;
use crate::ending::{drop_session, end_session};
use crate::stream::Stream;
use relay_disk::Disk;
use relay_log::{ClientRecord, Log};
use relay_loop::{Heard, Outbox, Relay};
use relay_node::NodeFault;
use std::net::SocketAddrV4;

/// How many seconds a session may last without accepted mail.
const SESSION_SECONDS: u64 = 30 * 60;

/// How many seconds a client may be idle while few places are left for others, if none of its mail was accepted.
const CROWDED_SECONDS: u64 = 10;

/// How many octets of mail data or of a chunk have the same time limit as a command line.
const PART_SIZE: usize = 65_536;

/// The most writes on a connection in one turn, if each takes a part only.
const WRITE_LIMIT: usize = 16;

/// The start of the reply to mail for which the spool has no room.
const SPOOL_FULL: &[u8] = b"452 spool full";

/// The connection of a client; it has its session's number.
pub(crate) struct Client<S> {
    pub(crate) channel: Channel<S>,
    pub(crate) peer: SocketAddrV4,
    /// Whether octets were read that its session may hear.
    pub(crate) hears: bool,
    /// How many octets were read since the last reply, or since the deadline was renewed.
    unanswered: usize,
    /// Whether a line end was among them.
    has_line_end: bool,
    /// The tick at which an idle client is cut off. The deadline is renewed by the first octet after a reply; by each
    /// 65,536 octets without a reply that contain a line end, since these are mail data or a chunk; and by each write
    /// of which the client takes something, be it of what was held back before. So a command line must be complete
    /// within the timeout after its first octet.
    idle_deadline: u64,
    /// The tick at which the client is cut off while few places are left, unless its mail was accepted or it has begun
    /// to send something. It is renewed with the idle deadline.
    crowded_deadline: u64,
    /// Whether mail of this client was accepted.
    has_accepted: bool,
    /// The tick at which the client is cut off, unless its mail is accepted before.
    session_deadline: u64,
    /// What the log says about it when it ends.
    pub(crate) record: ClientRecord,
}

// Written out, so that the proof of a caller that drops it stops at this function.
impl<S: Drop> Drop for Client<S> {
    fn drop(self) {
        let Client {
            channel: _channel,
            peer: _,
            hears: _,
            unanswered: _,
            has_line_end: _,
            idle_deadline: _,
            crowded_deadline: _,
            has_accepted: _,
            session_deadline: _,
            record: _,
        } = self;
    }
}

/// What happens to a connection after a turn.
#[derive(Drop)]
pub(crate) enum Next {
    /// It stays open.
    Stays,
    /// Its session has ended, and these are its last octets.
    Leaves(Outbox),
    /// It is closed at once.
    Gone,
}

/// What the clients' octets have led to in a turn.
#[derive(Clone, Copy)]
pub struct Intake {
    /// Whether mail was refused because the spool is full.
    pub was_full: bool,
    /// Whether a connection was closed.
    pub closed: bool,
}

impl Intake {
    /// Returns the intake of a turn that has just begun.
    pub(crate) fn none() -> Self {
        Intake {
            was_full: false,
            closed: false,
        }
    }
}

impl<S: Stream> Client<S> {
    /// Makes a client that has just connected, and may be idle for `timeout` seconds.
    pub(crate) fn new(channel: Channel<S>, peer: SocketAddrV4, timeout: u64, now: &Now) -> Self
        ensures channel { result.channel ≡ channel }
        ensures peer { result.peer ≡ peer }
        ensures waits { WaitsAnew timeout now.now.tick result }
        ensures fresh { IsFresh now.now.tick result }
    {
        Client {
            channel,
            peer,
            hears: false,
            unanswered: 0,
            has_line_end: false,
            idle_deadline: now.after(timeout),
            crowded_deadline: now.after(CROWDED_SECONDS),
            has_accepted: false,
            session_deadline: now.after(SESSION_SECONDS),
            record: ClientRecord::new(now.tick),
        }
    }

    /// Returns its connection.
    pub(crate) fn into_channel(self) -> Channel<S>
        ensures { result ≡ self.channel }
    {
        let Client {
            channel,
            peer: _,
            hears: _,
            unanswered: _,
            has_line_end: _,
            idle_deadline: _,
            crowded_deadline: _,
            has_accepted: _,
            session_deadline: _,
            record: _,
        } = self;
        channel
    }

    /// Returns the tick at which it is cut off as things are, given whether few places are left for others.
    pub(crate) fn deadline(&self, is_crowded: bool) -> u64
        ensures { result ≡ deadline_of is_crowded self.now }
    {
        let deadline = self.idle_deadline.min(self.session_deadline);
        if is_crowded && !self.has_accepted && self.unanswered == 0 {
            deadline.min(self.crowded_deadline)
        } else {
            deadline
        }
    }

    /// Renews its idle time.
    fn wait_anew(&mut self, timeout: u64, now: &Now)
        ensures channel { self.new.channel ≡ self.old.channel }
        ensures peer { self.new.peer ≡ self.old.peer }
        ensures anew { WaitsAnew timeout now.now.tick self.new }
        ensures keeps { KeepsWaiting self.old self.new }
    {
        self.idle_deadline = now.after(timeout);
        self.crowded_deadline = now.after(CROWDED_SECONDS);
    }

    /// Returns how many octets its client hasn't taken yet.
    fn untaken<D: Disk>(&self, relay: &Relay<D>, session: usize) -> usize
        ensures { result ≡ untaken_count relay.now session self.now.channel }
    {
        self.channel.held().len() + relay.to_client(session).len()
    }

    /// Writes as many unwritten octets as the client takes at once, those held back first. Renews its idle time if it
    /// takes one.
    pub(crate) fn flush<D: Disk>(
        &mut self,
        relay: &mut Relay<D>,
        session: usize,
        timeout: u64,
        now: &Now,
    )
        ensures hands { Hands S.remaining S.contents session relay.old relay.new self.old.channel self.new.channel }
        ensures said { StaysSaid session relay.old relay.new }
        ensures peer { self.new.peer ≡ self.old.peer }
        ensures renews { RenewsIfTaken timeout now.now.tick session relay.old relay.new self.old self.new }
        ensures keeps { KeepsWaiting self.old self.new }
        ensures nothing { untaken_count relay.old session self.old.channel ≡ 0
            → (self.new ≡ self.old) × (relay.new ≡ relay.old) }
        ensures none { held_of self.old.channel ≡ [] → held_of self.new.channel ≡ [] }
    {
        let before = self.untaken(relay, session);
        if before == 0 {
            return;
        }
        self.write_some(relay, session);
        if before <= self.untaken(relay, session) {
            return;
        }
        self.wait_anew(timeout, now);
    }

    /// Writes as many unwritten octets as the client takes at once.
    fn write_some<D: Disk>(&mut self, relay: &mut Relay<D>, session: usize)
        ensures hands { Hands S.remaining S.contents session relay.old relay.new self.old.channel self.new.channel }
        ensures said { StaysSaid session relay.old relay.new }
        ensures peer { self.new.peer ≡ self.old.peer }
        ensures waits { WaitsOn self.old self.new }
        ensures keeps { KeepsWaiting self.old self.new }
        ensures none { held_of self.old.channel ≡ [] → held_of self.new.channel ≡ [] }
    {
        for _ in 0..WRITE_LIMIT {
            if !self.write(relay, session) {
                return;
            }
        }
    }

    /// Writes once. Returns whether its client took an octet.
    fn write<D: Disk>(&mut self, relay: &mut Relay<D>, session: usize) -> bool
        ensures hands { Hands S.remaining S.contents session relay.old relay.new self.old.channel self.new.channel }
        ensures said { StaysSaid session relay.old relay.new }
        ensures peer { self.new.peer ≡ self.old.peer }
        ensures waits { WaitsOn self.old self.new }
        ensures keeps { KeepsWaiting self.old self.new }
        ensures none { held_of self.old.channel ≡ [] → held_of self.new.channel ≡ [] }
    {
        let before = self.untaken(relay, session);
        let count = self.channel.write(relay.to_client(session));
        relay.wrote_to_client(session, count);
        self.untaken(relay, session) < before
    }

    /// Returns whether octets for it are unwritten.
    fn waits<D: Disk>(&self, relay: &Relay<D>, session: usize) -> bool
        ensures nothing { held_of self.now.channel ≡ [] → unwritten_at relay.now.clients session ≡ []
            → result ≡ false }
        ensures only { result ≡ false → (held_of self.now.channel ≡ [])
            × (unwritten_at relay.now.clients session ≡ []) }
    {
        self.channel.is_holding() || !relay.to_client(session).is_empty()
    }

    /// Returns whether it has got all replies, and no mail transaction of its session is open.
    pub(crate) fn is_between_mail<D: Disk>(&self, relay: &Relay<D>, session: usize) -> bool
        ensures { IsTrue result ↔ IsBetweenMail relay.now session self.now.channel }
    {
        !self.waits(relay, session) && !relay.node().is_in_transaction(session)
    }

    /// Returns whether something can be done with it at once.
    pub(crate) fn is_ready<D: Disk>(&self, relay: &Relay<D>, session: usize) -> bool
        ensures { unread_of self.now.channel ≢ [] → held_of self.now.channel ≡ []
            → unwritten_at relay.now.clients session ≡ [] → result ≡ true }
    {
        self.channel.is_ready(self.waits(relay, session))
    }

    /// Holds its unwritten octets back, because its session hears more of what was read in this turn, so that all
    /// replies go in one write. If they are too many to be held, or if the client is late and would be cut off first,
    /// writes as many as it takes at once. Renews its idle time if it takes one.
    fn hold<D: Disk>(&mut self, relay: &mut Relay<D>, session: usize, timeout: u64, now: &Now)
        ensures hands { Hands S.remaining S.contents session relay.old relay.new self.old.channel self.new.channel }
        ensures said { StaysSaid session relay.old relay.new }
        ensures peer { self.new.peer ≡ self.old.peer }
        ensures renews { RenewsIfTaken timeout now.now.tick session relay.old relay.new self.old self.new }
        ensures keeps { KeepsWaiting self.old self.new }
        ensures used { unread_of self.old.channel ≡ [] → held_of self.old.channel ≡ [] → held_of self.new.channel ≡ [] }
        ensures late { deadline_of true self.new ≤ now.now.tick → held_of self.old.channel ≡ []
            → held_of self.new.channel ≡ [] }
    {
        if self.channel.is_used() || self.deadline(true) <= now.tick {
            self.flush(relay, session, timeout, now);
            return;
        }
        if self.hold_back(relay, session) {
            return;
        }
        self.flush(relay, session, timeout, now);
    }

    /// Holds its unwritten octets back, and returns whether it could.
    fn hold_back<D: Disk>(&mut self, relay: &mut Relay<D>, session: usize) -> bool
        ensures hands { Hands S.remaining S.contents session relay.old relay.new self.old.channel self.new.channel }
        ensures said { StaysSaid session relay.old relay.new }
        ensures same { result ≡ false → (self.new ≡ self.old) × (relay.new ≡ relay.old) }
        ensures peer { self.new.peer ≡ self.old.peer }
        ensures count { untaken_count relay.new session self.new.channel
            ≡ untaken_count relay.old session self.old.channel }
        ensures waits { WaitsOn self.old self.new }
        ensures keeps { KeepsWaiting self.old self.new }
    {
        if !self.channel.hold(relay.to_client(session)) {
            return false;
        }
        let count = relay.to_client(session).len();
        relay.wrote_to_client(session, count);
        true
    }

    /// Writes the replies that were held back: what they acknowledge has happened, even if nothing follows.
    pub(crate) fn give_held(&mut self)
        ensures output { Keeps (output_of S.remaining S.contents self.old.channel)
            (output_of S.remaining S.contents self.new.channel) }
        ensures input { KeepsInput S.remaining S.contents self.old.channel self.new.channel }
        ensures peer { self.new.peer ≡ self.old.peer }
        ensures waits { WaitsOn self.old self.new }
        ensures none { held_of self.old.channel ≡ [] → self.new ≡ self.old }
        ensures tried { held_of self.old.channel ≢ [] → MayWrite self.old.channel
            → WasTried (S.tries self.old.channel.stream) (S.tries self.new.channel.stream) }
    {
        self.channel.write_held();
    }

    /// Writes unwritten octets, and reads a block if there are none left and the last block is used. Returns what
    /// happens to the connection, or `None` if there are octets for its session to hear.
    pub(crate) fn read<D: Disk>(
        &mut self,
        relay: &mut Relay<D>,
        session: usize,
        timeout: u64,
        now: &Now,
    ) -> Result<Option<Next>, NodeFault>
        ensures read { IfOk result
            (IsRead S.remaining S.contents session relay.old relay.new self.old.channel self.new.channel) }
        ensures becomes { IfOk result (StaysOrEnds session relay.old relay.new) }
        ensures ended { IfErr result (λ _. EndsAlone session relay.old relay.new) }
        ensures fault { IfErr result (λ fault. fault ≡ NodeFault.Stopped) }
        ensures peer { self.new.peer ≡ self.old.peer }
        ensures renews { IfOk result
            (RenewsUnlessOver timeout now.now.tick session relay.old relay.new self.old self.new) }
        ensures hears { MayHear relay.old session self.old.channel
            → (result ≡ Ok None) × (self.new.channel ≡ self.old.channel) × (relay.new ≡ relay.old) }
        ensures waits { WaitsAnewOrOn timeout now.now.tick self.old self.new }
        ensures taken { result ≡ Ok None → (held_of self.new.channel ≡ [])
            × (unwritten_at relay.new.clients session ≡ []) }
    {
        self.flush(relay, session, timeout, now);
        if self.channel.end() == Some(End::Broken) {
            return Ok(Some(drop_session(relay, session)?));
        }
        if self.waits(relay, session) {
            return Ok(Some(Next::Stays));
        }
        if self.channel.fill() {
            self.note_read(timeout, now);
        }
        if !self.channel.is_used() {
            return Ok(None);
        }
        match self.channel.end() {
            Some(_) => Ok(Some(end_session(relay, session)?)),
            None => Ok(Some(Next::Stays)),
        }
    }

    /// Returns whether there are octets that its session may hear.
    pub(crate) fn has_more<D: Disk>(&self, relay: &Relay<D>, session: usize) -> bool
        ensures more { result ≡ true → (unread_of self.now.channel ≢ [])
            × (unwritten_at relay.now.clients session ≡ []) }
        ensures all { unread_of self.now.channel ≢ [] → unwritten_at relay.now.clients session ≡ []
            → result ≡ true }
    {
        !self.channel.is_used() && relay.to_client(session).is_empty()
    }

    /// Notes that a block was read.
    fn note_read(&mut self, timeout: u64, now: &Now)
        ensures channel { self.new.channel ≡ self.old.channel }
        ensures peer { self.new.peer ≡ self.old.peer }
        ensures waits { WaitsAnewOrOn timeout now.now.tick self.old self.new }
        ensures first { self.old.unanswered ≡ 0 → WaitsAnew timeout now.now.tick self.new }
        ensures part { self.old.unanswered ≢ 0
            → self.old.unanswered + length (unread_of self.old.channel) < PART_SIZE → WaitsOn self.old self.new }
    {
        let piece = self.channel.piece();
        self.record.read(piece.len());
        let is_first = self.unanswered == 0;
        let has_line_end = piece.contains(&b'\n');
        self.unanswered = self.unanswered.saturating_add(piece.len());
        self.has_line_end = has_line_end || (self.has_line_end && !is_first);
        if is_first {
            self.wait_anew(timeout, now);
        } else if self.unanswered >= PART_SIZE && self.has_line_end {
            self.unanswered = 1;
            self.has_line_end = false;
            self.wait_anew(timeout, now);
        }
    }

    /// Takes the result of the octets that its session has heard, and writes the replies, or holds them back if `holds`
    /// says that more is heard in this turn.
    pub(crate) fn answer<D: Disk>(
        &mut self,
        relay: &mut Relay<D>,
        session: usize,
        heard: Result<Heard, NodeFault>,
        holds: bool,
        timeout: u64,
        now: &Now,
        log: &mut Log<'_, Vec<u8>>,
    ) -> Result<Next, NodeFault>
        ensures used { IfOk heard (λ heard. Uses S.remaining heard.used self.old.channel self.new.channel) }
        ensures stays { IfOk heard (λ heard. heard.last ≡ None → IfOk result (λ next. next ≡ Next.Stays)
            × IsHanded S.remaining S.contents session relay.old relay.new self.old.channel self.new.channel) }
        ensures said { IfOk heard (λ heard. heard.last ≡ None → StaysSaid session relay.old relay.new) }
        ensures leaves { IfOk heard (λ heard. (last : List ℕ) → heard.last ≡ Some last
            → IfOk result (λ next. next ≡ Next.Leaves last) × (relay.new ≡ relay.old)
            × KeepsOutput S.remaining S.contents self.old.channel self.new.channel) }
        ensures gone { IfErr heard (λ _. IfOk result (λ next. next ≡ Next.Gone) × (relay.new ≡ relay.old)) }
        ensures fault { (result ≡ Err NodeFault.Stopped) ↔ (heard ≡ Err NodeFault.Stopped) }
        ensures other { IfErr result (λ fault. fault ≡ NodeFault.Stopped) }
        ensures peer { self.new.peer ≡ self.old.peer }
        ensures renews { IfOk heard (λ heard. heard.last ≡ None
            → RenewsIfTaken timeout now.now.tick session relay.old relay.new self.old self.new) }
        ensures session { IfOk heard (λ heard. heard.last ≡ None
            → RenewsSession now.now.tick heard.change self.old self.new) }
        ensures waits { WaitsAnewOrOn timeout now.now.tick self.old self.new }
        ensures held { holds ≡ false → held_of self.old.channel ≡ [] → held_of self.new.channel ≡ [] }
        ensures late { deadline_of true self.new ≤ now.now.tick → held_of self.old.channel ≡ []
            → held_of self.new.channel ≡ [] }
    {
        let Heard { used, change, last } = match heard {
            Ok(heard) => heard,
            Err(NodeFault::Stopped) => return Err(NodeFault::Stopped),
            // The session is gone: there was too little memory, or no number, for its mail.
            Err(_) => {
                self.give_held();
                return Ok(Next::Gone);
            }
        };
        self.channel.used(used);
        self.note_replies(relay, session);
        self.note_change(relay, change, now, log);
        let Some(outbox) = last else {
            log.replied(
                self.peer,
                relay.to_client(session),
                &mut self.record,
                now.tick,
            );
            if holds {
                self.hold(relay, session, timeout, now);
                return Ok(Next::Stays);
            }
            self.flush(relay, session, timeout, now);
            return Ok(Next::Stays);
        };
        log.replied(self.peer, outbox.as_slice(), &mut self.record, now.tick);
        Ok(Next::Leaves(outbox))
    }

    /// Notes the replies of its session, if there are any: only what was read after them is unanswered.
    fn note_replies<D: Disk>(&mut self, relay: &Relay<D>, session: usize)
        ensures channel { self.new.channel ≡ self.old.channel }
        ensures peer { self.new.peer ≡ self.old.peer }
        ensures waits { WaitsOn self.old self.new }
        ensures accepted { self.new.has_accepted ≡ self.old.has_accepted }
        ensures session { self.new.session_deadline ≡ self.old.session_deadline }
    {
        if !relay.to_client(session).is_empty() {
            self.unanswered = self.channel.piece().len();
            self.has_line_end = false;
        }
    }

    /// Notes the change that its octets have added, if any: mail was accepted, and its session has time anew.
    fn note_change<D: Disk>(
        &mut self,
        relay: &Relay<D>,
        change: Option<u64>,
        now: &Now,
        log: &mut Log<'_, Vec<u8>>,
    )
        ensures channel { self.new.channel ≡ self.old.channel }
        ensures peer { self.new.peer ≡ self.old.peer }
        ensures waits { WaitsOn self.old self.new }
        ensures session { RenewsSession now.now.tick change self.old self.new }
    {
        if let Some(number) = change {
            self.session_deadline = now.after(SESSION_SECONDS);
            self.has_accepted = true;
            tell_accepted(relay, self.peer, number, &mut self.record, log);
        }
    }
}

/// Returns whether a reply to the octets that a session has heard says that the spool is full.
pub(crate) fn was_full<D: Disk>(
    heard: &Result<Heard, NodeFault>,
    relay: &Relay<D>,
    session: usize,
) -> bool {
    match heard {
        Ok(
            Heard {
                last: Some(outbox),
                ..
            },
        ) => tells_full(outbox.as_slice()),
        Ok(Heard { last: None, .. }) => tells_full(relay.to_client(session)),
        Err(_) => false,
    }
}

/// Logs that mail was accepted as the message of a number.
fn tell_accepted<D: Disk>(
    relay: &Relay<D>,
    peer: SocketAddrV4,
    number: u64,
    record: &mut ClientRecord,
    log: &mut Log<'_, Vec<u8>>,
) {
    if let Some(message) = relay.node().message(number) {
        log.accepted(peer, message, record);
    }
}

/// Returns whether one of these replies says that the spool is full.
fn tells_full(replies: &[u8]) -> bool {
    replies
        .split(|octet| *octet == b'\n')
        .any(|line| line.starts_with(SPOOL_FULL))
}
