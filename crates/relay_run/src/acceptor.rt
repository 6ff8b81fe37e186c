//! The listener, and the clients that connect to it.
ghost use Rattle.std.specs.Prelude.{◌≡◌, ◌≤◌, List, OnOk, false, true};
ghost use Rattle.std.specs.List.{list_any};
ghost use Rattle.std.specs.Net.Addr.{ipv4_octets};
ghost use Rattle.std.specs.Net.Socket.{v4_ip};
ghost use Rattle.relay_book.specs.declared.change.Change.{Change};
ghost use Rattle.relay_connections.specs.Carried.{Setting};
ghost use Rattle.relay_connections.specs.Leaving.{leavers_of};
ghost use Rattle.relay_connections.specs.Readiness.{clients_of};
ghost use Rattle.relay_connections.specs.Served.{AreServed};
ghost use Rattle.relay_connections.specs.Welcome.{AreAllowed, KeepsRules, LeavesWith, allowed_of, refusal_of};
ghost use Rattle.relay_limits.specs.AllowedClients.{may_connect};
ghost use Rattle.relay_routes.specs.Network.{is_in};
ghost use Rattle.relay_run.specs.Serving.{AreServedWithMore};

use crate::listen::{Found, Listen};
use mio::net::TcpStream;
use relay_connections::{
    Arrivals, Arrived, Clients, Leaving, Now, Readiness, Refusals, Stream, Turn, close_with,
};
use relay_disk::Disk;
use relay_files::Fault;
use relay_limits::Balancers;
use relay_log::{Log, Refusal};
use relay_loop::Relay;
use relay_next_hops::Dial;
use relay_slots::SLOT_COUNT;
use std::alloc::{AllocError, Global};
use std::net::SocketAddrV4;

/// How many milliseconds no client is accepted after the system had no file descriptor for one.
const WANT_PAUSE: u64 = 1_000;

/// The most clients that are accepted in one turn.
const MOST_AT_ONCE: usize = 64;

/// The token of the listener.
pub const LISTENER_TOKEN: usize = Arrivals::FIRST_TOKEN + SLOT_COUNT;

/// The state of the listener, the balancers' connections whose headers aren't read yet, and the clients that were
/// refused.
pub(crate) struct Acceptor<S = TcpStream> {
    /// Whether clients may be waiting.
    is_ready: bool,
    /// The tick before which no client is accepted.
    paused_until: u64,
    /// The clients that were refused for lack of room.
    refusals: Refusals,
    /// Clients that were refused because they may not connect.
    strangers: Refusals,
    /// Clients that connected while the relay was stopping.
    late: Refusals,
    /// The addresses whose connections begin with a PROXY protocol header.
    balancers: Balancers,
    /// The connections whose headers aren't read yet.
    arrivals: Arrivals<S>,
}

// Written out, so that the proof of a caller that drops it stops at this function.
impl<S: Drop> Drop for Acceptor<S> {
    fn drop(self) {
        let Acceptor {
            is_ready: _,
            paused_until: _,
            refusals: _refusals,
            strangers: _strangers,
            late: _late,
            balancers: _balancers,
            arrivals: _arrivals,
        } = self;
    }
}

impl Acceptor {
    /// The token of the listener.
    pub(crate) const TOKEN: usize = LISTENER_TOKEN;
}

impl<S: Stream + Drop> Acceptor<S> {
    /// Returns an acceptor at which clients may be waiting, for these balancers. Fails if memory runs out.
    pub(crate) fn new(alloc: Global, balancers: Balancers) -> Result<Self, AllocError> {
        Ok(Acceptor {
            is_ready: true,
            paused_until: 0,
            refusals: Refusals::new(alloc, Refusal::NoRoom)?,
            strangers: Refusals::new(alloc, Refusal::NoService)?,
            late: Refusals::new(alloc, Refusal::Stopping)?,
            balancers,
            arrivals: Arrivals::new(alloc)?,
        })
    }

    /// Notes that clients may be waiting, as the system reports it.
    pub(crate) fn note(&mut self) {
        self.is_ready = true;
    }

    /// Notes what a connection whose header isn't read yet may be ready for, as the system reports it.
    pub(crate) fn note_arrival(&mut self, number: usize, ready: Readiness) {
        self.arrivals.note(number, ready);
    }

    /// Closes the connections whose headers aren't read yet.
    pub(crate) fn clear(&mut self) {
        self.arrivals.clear();
    }

    /// Reads headers of the connections of these balancers from now on, and of no others.
    pub(crate) fn set_balancers(&mut self, balancers: Balancers) {
        self.balancers = balancers;
    }

    /// Accepts no client for a while, or until a connection is closed.
    fn pause(&mut self, now: &Now) {
        self.paused_until = now.tick.saturating_add(WANT_PAUSE);
    }

    /// Accepts clients again after a connection was closed, which may have freed a file descriptor.
    pub(crate) fn resume(&mut self) {
        self.paused_until = 0;
    }

    /// Returns whether clients may be accepted at once, or a header may be read.
    pub(crate) fn is_ready(&self, now: &Now) -> bool {
        self.may_accept(now) || self.arrivals.is_ready()
    }

    fn may_accept(&self, now: &Now) -> bool {
        self.is_ready && self.paused_until <= now.tick
    }

    /// Returns the tick at which clients are accepted again, refusals are logged, or a header is late, or `otherwise`
    /// if that is earlier.
    pub(crate) fn next_deadline(&self, otherwise: u64) -> u64
        ensures { result ≤ otherwise }
    {
        let next = self.refusals.next_deadline(otherwise);
        let next = self.strangers.next_deadline(next);
        let next = self.late.next_deadline(next);
        let next = self.arrivals.next_deadline(next);
        if self.is_ready {
            next.min(self.paused_until)
        } else {
            next
        }
    }

    /// Takes the clients that are waiting, while the descriptors are kept that are for attempts, and then those whose
    /// headers are whole. One that isn't served is told so and closed; a balancer is told nothing.
    pub(crate) fn admit<L: Listen<Stream = S>, N: Dial, D: Disk>(
        &mut self,
        listener: &mut L,
        dial: &mut N,
        turn: Turn<'_, S::Registry>,
        relay: &mut Relay<D>,
        clients: &mut Clients<S>,
        leaving: &mut Leaving<S>,
        log: &mut Log<'_, Vec<u8>>,
    ) -> Result<(), Fault>
        ensures allowed { AreAllowed clients.old relay.old → AreAllowed clients.new relay.new }
        ensures rules { KeepsRules clients.old clients.new }
        ensures served { (changes : List Change) (setting : Setting)
            → AreServed D.honest D.words S.remaining S.contents changes setting (clients_of clients.old) relay.old
            → OnOk result (AreServedWithMore D.honest D.words S.remaining S.contents changes setting
            (clients_of clients.old) (clients_of clients.new) relay.new) }
        ensures config { relay.new.node.config ≡ relay.old.node.config }
    {
        self.refusals.tell(turn.now, log);
        self.strangers.tell(turn.now, log);
        self.late.tell(turn.now, log);
        for _ in 0..MOST_AT_ONCE {
            if !self.may_accept(turn.now) {
                break;
            }
            if !dial.fill_spares() {
                self.pause(turn.now);
                break;
            }
            match listener.accept() {
                Found::Client(stream, peer) => {
                    self.receive(turn, relay, clients, leaving, stream, peer, log)?;
                }
                Found::Missed => {}
                Found::Nobody => self.is_ready = false,
                Found::Want => self.pause(turn.now),
            }
        }
        self.admit_arrived(turn, relay, clients, leaving, log)
    }

    /// Opens a session for a client, or tells it why it isn't served. A balancer's connection has no client before its
    /// header is whole.
    fn receive<D: Disk>(
        &mut self,
        turn: Turn<'_, S::Registry>,
        relay: &mut Relay<D>,
        clients: &mut Clients<S>,
        leaving: &mut Leaving<S>,
        stream: S,
        peer: SocketAddrV4,
        log: &mut Log<'_, Vec<u8>>,
    ) -> Result<(), Fault>
        ensures balancer { list_any (is_in (ipv4_octets (v4_ip peer))) self.old.balancers ≡ true
            → (relay.new ≡ relay.old) × (clients.new ≡ clients.old) × (leaving.new ≡ leaving.old) }
        ensures stranger { list_any (is_in (ipv4_octets (v4_ip peer))) self.old.balancers ≡ false
            → may_connect (allowed_of clients.old) (ipv4_octets (v4_ip peer)) ≡ false
            → (relay.new ≡ relay.old) × (clients.new ≡ clients.old)
            × LeavesWith S.remaining S.contents stream (refusal_of relay.old.node.config.host Refusal.NoService)
            (leavers_of leaving.old) (leavers_of leaving.new) }
        ensures allowed { AreAllowed clients.old relay.old → AreAllowed clients.new relay.new }
        ensures rules { KeepsRules clients.old clients.new }
        ensures served { (changes : List Change) (setting : Setting)
            → AreServed D.honest D.words S.remaining S.contents changes setting (clients_of clients.old) relay.old
            → OnOk result (AreServedWithMore D.honest D.words S.remaining S.contents changes setting
            (clients_of clients.old) (clients_of clients.new) relay.new) }
        ensures config { relay.new.node.config ≡ relay.old.node.config }
    {
        if !self.balancers.contains(*peer.ip()) {
            return self.welcome(turn, relay, clients, leaving, stream, peer, log);
        }
        if let Err(fault) = self.arrivals.take(turn.registry, stream, peer, turn.now) {
            log.header_refused(peer, fault);
        }
        Ok(())
    }

    /// Takes the clients of balancers whose headers are whole. A connection without one is closed.
    fn admit_arrived<D: Disk>(
        &mut self,
        turn: Turn<'_, S::Registry>,
        relay: &mut Relay<D>,
        clients: &mut Clients<S>,
        leaving: &mut Leaving<S>,
        log: &mut Log<'_, Vec<u8>>,
    ) -> Result<(), Fault>
        ensures allowed { AreAllowed clients.old relay.old → AreAllowed clients.new relay.new }
        ensures rules { KeepsRules clients.old clients.new }
        ensures served { (changes : List Change) (setting : Setting)
            → AreServed D.honest D.words S.remaining S.contents changes setting (clients_of clients.old) relay.old
            → OnOk result (AreServedWithMore D.honest D.words S.remaining S.contents changes setting
            (clients_of clients.old) (clients_of clients.new) relay.new) }
        ensures config { relay.new.node.config ≡ relay.old.node.config }
    {
        for _ in 0..MOST_AT_ONCE {
            match self.arrivals.next(turn.registry, turn.now) {
                Some(Arrived::Client(stream, peer)) => {
                    self.welcome(turn, relay, clients, leaving, stream, peer, log)?;
                }
                Some(Arrived::Refused(balancer, fault)) => {
                    log.header_refused(balancer, fault);
                    self.resume();
                }
                None => return Ok(()),
            }
        }
        Ok(())
    }

    /// Opens a session for a client, or tells it why it isn't served.
    fn welcome<D: Disk>(
        &mut self,
        turn: Turn<'_, S::Registry>,
        relay: &mut Relay<D>,
        clients: &mut Clients<S>,
        leaving: &mut Leaving<S>,
        stream: S,
        peer: SocketAddrV4,
        log: &mut Log<'_, Vec<u8>>,
    ) -> Result<(), Fault>
        ensures stranger { may_connect (allowed_of clients.old) (ipv4_octets (v4_ip peer)) ≡ false
            → (relay.new ≡ relay.old) × (clients.new ≡ clients.old)
            × LeavesWith S.remaining S.contents stream (refusal_of relay.old.node.config.host Refusal.NoService)
            (leavers_of leaving.old) (leavers_of leaving.new) }
        ensures allowed { AreAllowed clients.old relay.old → AreAllowed clients.new relay.new }
        ensures rules { KeepsRules clients.old clients.new }
        ensures served { (changes : List Change) (setting : Setting)
            → AreServed D.honest D.words S.remaining S.contents changes setting (clients_of clients.old) relay.old
            → OnOk result (AreServedWithMore D.honest D.words S.remaining S.contents changes setting
            (clients_of clients.old) (clients_of clients.new) relay.new) }
        ensures config { relay.new.node.config ≡ relay.old.node.config }
    {
        match clients.welcome(turn.registry, relay, leaving, stream, peer, turn.now)? {
            None => log.connected(),
            Some(Refusal::NoRoom) => self.refusals.note(peer, turn.now, log),
            Some(Refusal::NoService) => self.strangers.note(peer, turn.now, log),
            Some(Refusal::Stopping) => self.late.note(peer, turn.now, log),
        }
        Ok(())
    }
}

/// Writes this line to each waiting client, to say why it isn't served, and closes its connection.
pub(crate) fn refuse_all<S: Stream + Drop, L: Listen<Stream = S>>(listener: &mut L, line: &[u8]) {
    for _ in 0..MOST_AT_ONCE {
        match listener.accept() {
            Found::Client(stream, _peer) => close_with(stream, line),
            Found::Missed => {}
            Found::Nobody | Found::Want => return,
        }
    }
}
