ghost use Rattle.std.specs.Prelude.{◌≡◌, ◌≢◌, ◌≤◌, ◌↔◌, ℕ, List, None, IfErr, IfOk, IfSome, IsTrue, true, false};
ghost use Rattle.std.specs.Net.Addr.{ipv4_octets};
ghost use Rattle.std.specs.Net.Socket.{v4_ip};
ghost use Rattle.relay_book.specs.declared.change.Change.{Change};
ghost use Rattle.relay_loop.specs.Outboxes.{unwritten_at};
ghost use Rattle.relay_slots.specs.Slots.{AreFree, slot_at};
ghost use Rattle.relay_connections.specs.Carried.{Begins, Setting};
ghost use Rattle.relay_connections.specs.Matched.{AreMatched, IsGreeted, Opens};
ghost use Rattle.relay_connections.specs.Deadlines.{IsEarliest};
ghost use Rattle.relay_connections.specs.Readiness.{HasNoted, IsLeftClient, IsNoted, clients_of};
ghost use Rattle.relay_connections.specs.Replies.{LeavesMail};
ghost use Rattle.relay_connections.specs.Room.{HasRoom, is_at};
ghost use Rattle.relay_connections.specs.Served.{AreServed, StaysSaid, opened};
ghost use Rattle.relay_connections.specs.Sessions.{IsCutFor, MayRetire, cut_tick, deadline_of, ended_by};
ghost use Rattle.relay_connections.specs.Table.{count_of, count_of_such, is_such};
ghost use Rattle.relay_connections.specs.Welcome.{IsRefusedFor, KeepsRules, MayConnect, allowed_of, reconfigured};
ghost use Rattle.relay_connections.specs.Welcome.{retiring, staying, stopped};

use crate::channel::{Channel, Readiness};
use crate::client::{Client, Intake};
use crate::clocks::Now;
use crate::ending::dismiss;
use crate::stream::Stream;
use crate::table::Table;
use mio::net::TcpStream;
use relay_disk::Disk;
use relay_limits::{AllowedClients, Limits};
use relay_log::Refusal;
use relay_loop::{Closing, Relay};
use relay_node::NodeFault;
use relay_slots::SLOT_COUNT;
use std::alloc::{AllocError, Global};
use std::net::{Ipv4Addr, SocketAddrV4};

/// Returns whether the client in a slot is at an address.
fn is_at<S>(slot: &Option<Box<Client<S>>>, address: [u8; 4]) -> bool
    ensures { result ≡ is_such (is_at address) slot.now }
{
    match slot {
        Some(client) => client.peer.ip().octets() == address,
        None => false,
    }
}

/// The connections of clients, at most 64, each with its session's number, which is its token too.
pub struct Clients<S = TcpStream> {
    pub(crate) alloc: Global,
    // Boxed, so that a walk over the slots touches little memory, and taking a client out doesn't copy it.
    pub(crate) clients: Table<Box<Client<S>>>,
    /// The clients that may connect.
    allowed: AllowedClients,
    /// Whether no more clients are served.
    stops: bool,
    /// If the sessions are ended, the tick at which those in a mail transaction are ended too.
    retires_at: Option<u64>,
    /// The most clients at one address.
    most: usize,
    /// How many seconds a client may be idle.
    pub(crate) timeout: u64,
    /// Whether few places are left, so that idle clients have less time.
    pub(crate) is_crowded: bool,
    /// The number of the client that is served first in the next turn.
    pub(crate) first: usize,
    /// What the clients' octets have led to in this turn.
    pub(crate) intake: Intake,
}

// Written out, so that the proof of a caller that drops them stops at this function.
impl<S: Drop> Drop for Clients<S> {
    fn drop(self) {
        let Clients {
            alloc: _,
            clients: _clients,
            allowed: _allowed,
            stops: _,
            retires_at: _,
            most: _,
            timeout: _,
            is_crowded: _,
            first: _,
            intake: _,
        } = self;
    }
}

impl<S: Stream + Drop> Clients<S> {
    /// Returns an empty table with these limits, for the clients that may connect. Fails if memory runs out.
    pub fn new(alloc: Global, limits: &Limits, allowed: AllowedClients) -> Result<Self, AllocError>
        ensures free { IfOk result (λ clients. AreFree (clients_of clients)) }
        ensures allowed { IfOk result (λ clients. allowed_of clients ≡ allowed) }
        ensures stops { IfOk result (λ clients. clients.stops ≡ false) }
        ensures limits { IfOk result (λ clients. (clients.most ≡ limits.now.sessions_per_client)
            × (clients.timeout ≡ limits.now.client_timeout) × (clients.retires_at ≡ None)) }
    {
        Ok(Clients {
            alloc,
            clients: Table::new(alloc)?,
            allowed,
            stops: false,
            retires_at: None,
            most: usize::from(limits.sessions_per_client),
            timeout: u64::from(limits.client_timeout),
            is_crowded: false,
            first: 0,
            intake: Intake::none(),
        })
    }

    /// Serves no client that connects from now on.
    pub fn stop(&mut self)
        ensures { self.new ≡ stopped self.old }
    {
        self.stops = true;
    }

    /// Ends each session that is between mail transactions from now on, as soon as its client has got all replies; and
    /// at this tick all that are left.
    pub fn retire(&mut self, end: u64)
        ensures { self.new ≡ retiring end self.old }
    {
        self.retires_at = Some(end);
    }

    /// Ends no session any more that isn't late.
    pub fn stay(&mut self)
        ensures { self.new ≡ staying self.old }
    {
        self.retires_at = None;
    }

    /// Serves clients by these limits from now on, if they may connect, and ends no session that isn't late.
    pub fn reconfigure(&mut self, limits: &Limits, allowed: AllowedClients)
        ensures { self.new ≡ reconfigured limits.now allowed self.old }
    {
        self.allowed = allowed;
        self.most = usize::from(limits.sessions_per_client);
        self.timeout = u64::from(limits.client_timeout);
        self.retires_at = None;
    }

    /// Returns why a client at this address isn't served. `None`: it may connect, and there is room for it.
    pub(crate) fn refusal(&self, client: Ipv4Addr) -> Option<Refusal>
        ensures { IsRefusedFor (ipv4_octets client) self.now result }
    {
        if !self.allowed.may_connect(client) {
            Some(Refusal::NoService)
        } else if self.stops {
            Some(Refusal::Stopping)
        } else if self.has_room(client) {
            None
        } else {
            Some(Refusal::NoRoom)
        }
    }

    /// Returns whether there is room for one more client at this address: fewer than 64 in all, and fewer than the
    /// limit at this address.
    fn has_room(&self, address: Ipv4Addr) -> bool
        ensures { IsTrue result ↔ HasRoom (ipv4_octets address) self.now }
    {
        self.count_at(address.octets()) < self.most && self.clients.count() < SLOT_COUNT
    }

    /// Returns how many clients there are, at most 64.
    pub fn count(&self) -> usize
        ensures { result ≡ count_of (clients_of self.now) }
    {
        self.clients.count()
    }

    /// Returns whether no client is left.
    pub fn is_empty(&self) -> bool
        ensures { IsTrue result ↔ (count_of (clients_of self.now) ≡ 0) }
    {
        self.clients.count() == 0
    }

    /// Returns how many clients are at an address.
    fn count_at(&self, address: [u8; 4]) -> usize
        ensures { result ≡ count_of_such (is_at address) (clients_of self.now) }
    {
        let standing = self.clients.standing();
        let mut count = 0;
        for number in 0..standing.len() {
            if is_at(&standing[number], address) {
                count += 1;
            }
        }
        count
    }

    /// Opens a session for a client that may connect, and greets it. If the system or the node has no room for it,
    /// closes the connection unserved. Fails only if the device has failed.
    pub(crate) fn open<D: Disk>(
        &mut self,
        registry: &S::Registry,
        relay: &mut Relay<D>,
        stream: S,
        peer: SocketAddrV4,
        now: &Now,
    ) -> Result<(), NodeFault>
        requires { MayConnect (ipv4_octets (v4_ip peer)) self.old }
        ensures opens { AreMatched (clients_of self.old) relay.old
            → Opens peer (clients_of self.old) (clients_of self.new) relay.new }
        ensures served { (changes : List Change) (setting : Setting)
            → AreServed D.honest D.words S.remaining S.contents changes setting (clients_of self.old) relay.old
            → IfOk result (λ _. AreServed D.honest D.words S.remaining S.contents changes
            (opened S.remaining S.contents setting (clients_of self.old) peer stream) (clients_of self.new) relay.new) }
        ensures mail { LeavesMail relay.old relay.new }
        ensures rules { KeepsRules self.old self.new }
        ensures fault { IfErr result (λ fault. fault ≡ NodeFault.Stopped) }
    {
        let session = match relay.accept(peer.ip().octets()) {
            Ok(session) => session,
            Err(NodeFault::Stopped) => return Err(NodeFault::Stopped),
            Err(_) => return Ok(()),
        };
        if let Some(client) = self.greet(registry, relay, session, stream, peer, now) {
            self.clients.put(session, client);
        }
        Ok(())
    }

    /// Greets the client of a new session. If its stream can't be registered, or memory runs out, ends the session and
    /// returns `None`.
    fn greet<D: Disk>(
        &self,
        registry: &S::Registry,
        relay: &mut Relay<D>,
        session: usize,
        stream: S,
        peer: SocketAddrV4,
        now: &Now,
    ) -> Option<Box<Client<S>>>
        ensures greeted { IsGreeted session peer relay.old relay.new result }
        ensures said { result ≢ None → StaysSaid session relay.old relay.new }
        ensures begins { IfSome result (λ client. Begins S.remaining S.contents stream
            (unwritten_at relay.old.clients session) client.value.channel (unwritten_at relay.new.clients session)) }
    {
        let mut stream = stream;
        // Replies are written whole, and needn't wait for more.
        stream.set_nodelay();
        let mut channel = Channel::new(self.alloc, stream);
        if channel.register(registry, session).is_err() {
            dismiss(relay, session);
            return None;
        }
        let client = Client::new(channel, peer, self.timeout, now);
        let Ok(mut client) = Box::new(self.alloc, client) else {
            dismiss(relay, session);
            return None;
        };
        client.flush(relay, session, self.timeout, now);
        Some(client)
    }

    /// Notes what the connection of a number may be ready for, as the system reports it.
    pub fn note(&mut self, number: usize, ready: Readiness)
        ensures noted { IsNoted number (clients_of self.old) (clients_of self.new) }
        ensures reported { HasNoted ready (slot_at (clients_of self.old) number)
            (slot_at (clients_of self.new) number) }
        ensures rules { KeepsRules self.old self.new }
    {
        if let Some(taken) = self.clients.take(number) {
            let mut client = taken;
            client.channel.note(ready);
            self.clients.put(number, client);
        }
    }

    /// Closes all connections, after writing as many of the replies held back as the clients take at once.
    pub fn clear(&mut self)
        ensures free { AreFree (clients_of self.new) }
        ensures rules { KeepsRules self.old self.new }
    {
        let count = self.clients.standing().len();
        for number in 0..count {
            if let Some(taken) = self.clients.take(number) {
                let mut client = taken;
                client.give_held();
            }
        }
    }

    /// Returns whether something can be done for one of them at once.
    pub fn is_ready<D: Disk>(&self, relay: &Relay<D>) -> bool
        ensures { (number : ℕ) → IsLeftClient (clients_of self.now) relay.now number → result ≡ true }
    {
        if self.may_retire_one(relay) {
            return true;
        }
        for (number, slot) in self.clients.standing().iter().enumerate() {
            if let Some(client) = slot {
                if client.is_ready(relay, number) {
                    return true;
                }
            }
        }
        false
    }

    /// Returns whether the sessions are ended, and one is between mail transactions.
    fn may_retire_one<D: Disk>(&self, relay: &Relay<D>) -> bool
        ensures { (number : ℕ) → MayRetire self.now relay.now number → result ≡ true }
    {
        if self.retires_at.is_none() {
            return false;
        }
        for (number, slot) in self.clients.standing().iter().enumerate() {
            if let Some(client) = slot {
                if client.is_between_mail(relay, number) {
                    return true;
                }
            }
        }
        false
    }

    /// Returns why a client is cut off, if it is: it is late, or else the sessions are ended, and it is between mail
    /// transactions or has no time left.
    pub(crate) fn reason_to_cut<D: Disk>(
        &self,
        number: usize,
        client: &Client<S>,
        relay: &Relay<D>,
        now: &Now,
    ) -> Option<Closing>
        ensures { IsCutFor self.now relay.now number client.now now.now.tick result }
    {
        if client.deadline(self.is_crowded) <= now.tick {
            return Some(Closing::Timeout);
        }
        let end = self.retires_at?;
        if end <= now.tick || client.is_between_mail(relay, number) {
            Some(Closing::Stopping)
        } else {
            None
        }
    }

    /// Returns the tick at which a client is cut off at the latest as things are.
    fn cut_deadline(&self, client: &Client<S>) -> u64
        ensures { result ≡ ended_by self.now.retires_at (deadline_of self.now.is_crowded client.now) }
    {
        let deadline = client.deadline(self.is_crowded);
        match self.retires_at {
            Some(end) => deadline.min(end),
            None => deadline,
        }
    }

    /// Returns the tick at which the next of them is cut off, or `otherwise` if that is earlier.
    pub fn next_deadline(&self, otherwise: u64) -> u64
        ensures within { result ≤ otherwise }
        ensures next { IsEarliest (cut_tick self.now) otherwise (clients_of self.now) result }
    {
        let mut next = otherwise;
        for slot in self.clients.standing() {
            if let Some(client) = slot {
                next = next.min(self.cut_deadline(client));
            }
        }
        next
    }
}
