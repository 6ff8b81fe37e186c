//! A client that has come: a session is opened for it, or it gets one line that says why not.
ghost use Rattle.std.specs.Prelude.{◌≡◌, ◌≢◌, ◌≤◌, List, None, Ok, Some, IfErr, IfOk, IfSome, false};
ghost use Rattle.std.specs.Net.Addr.{ipv4_octets};
ghost use Rattle.std.specs.Net.Socket.{v4_ip};
ghost use Rattle.relay_book.specs.declared.change.Change.{Change};
ghost use Rattle.relay_limits.specs.AllowedClients.{may_connect};
ghost use Rattle.relay_connections.specs.Carried.{Setting};
ghost use Rattle.relay_connections.specs.Leaving.{leavers_of};
ghost use Rattle.relay_connections.specs.Matched.{AreMatched, Opens};
ghost use Rattle.relay_connections.specs.Readiness.{clients_of};
ghost use Rattle.relay_connections.specs.Replies.{LeavesMail};
ghost use Rattle.relay_connections.specs.Served.{AreServed, opened};
ghost use Rattle.relay_connections.specs.Table.{count_of};
ghost use Rattle.relay_connections.specs.declared.leaving.TheConstants.{MOST_STRANGERS};
ghost use Rattle.relay_connections.specs.Welcome.{AreAllowed, IsRefusedFor, KeepsRules, LeavesWith, allowed_of};
ghost use Rattle.relay_connections.specs.Welcome.{refusal_of};

use crate::channel::Channel;
use crate::clients::Clients;
use crate::clocks::Now;
use crate::leaving::Leaving;
use crate::stream::Stream;
use relay_disk::Disk;
use relay_lines::write_line;
use relay_log::Refusal;
use relay_loop::{Closing, Outbox, Relay, closing_line};
use relay_node::NodeFault;
use relay_routes::HostName;
use std::alloc::{AllocError, Global};
use std::net::SocketAddrV4;

impl<S: Stream + Drop> Clients<S> {
    /// Opens a session for a client that may connect and for which there is room, and greets it. Another client, or one
    /// that comes after [`Clients::stop`], gets one line, and its connection leaves; the reason is returned. Only a
    /// device that failed is a fault.
    pub fn welcome<D: Disk>(
        &mut self,
        registry: &S::Registry,
        relay: &mut Relay<D>,
        leaving: &mut Leaving<S>,
        stream: S,
        peer: SocketAddrV4,
        now: &Now,
    ) -> Result<Option<Refusal>, NodeFault>
        ensures stranger { may_connect (allowed_of self.old) (ipv4_octets (v4_ip peer)) ≡ false
            → result ≡ Ok (Some Refusal.NoService) }
        ensures judged { IfOk result (IsRefusedFor (ipv4_octets (v4_ip peer)) self.old) }
        ensures refused { IfOk result (λ found. IfSome found (λ why. (self.new ≡ self.old) × (relay.new ≡ relay.old)
            × LeavesWith S.remaining S.contents stream (refusal_of relay.old.node.config.host why)
            (leavers_of leaving.old) (leavers_of leaving.new))) }
        ensures opens { IsRefusedFor (ipv4_octets (v4_ip peer)) self.old None → (leaving.new ≡ leaving.old)
            × (AreMatched (clients_of self.old) relay.old
            → Opens peer (clients_of self.old) (clients_of self.new) relay.new) }
        ensures served { IsRefusedFor (ipv4_octets (v4_ip peer)) self.old None → (changes : List Change)
            (setting : Setting)
            → AreServed D.honest D.words S.remaining S.contents changes setting (clients_of self.old) relay.old
            → IfOk result (λ _. AreServed D.honest D.words S.remaining S.contents changes
            (opened S.remaining S.contents setting (clients_of self.old) peer stream) (clients_of self.new) relay.new) }
        ensures fault { IfErr result (λ fault. (fault ≡ NodeFault.Stopped)
            × IsRefusedFor (ipv4_octets (v4_ip peer)) self.old None) }
        ensures crowd { IfOk result (λ found. found ≢ None → MOST_STRANGERS ≤ count_of (leavers_of leaving.old)
            → leaving.new ≡ leaving.old) }
        ensures mail { LeavesMail relay.old relay.new }
        ensures rules { KeepsRules self.old self.new }
        ensures allowed { AreAllowed self.old relay.old → AreAllowed self.new relay.new }
    {
        if let Some(why) = self.refusal(*peer.ip()) {
            let host = &relay.node().config().host;
            turn_away(self.alloc, registry, host, leaving, stream, why, now);
            return Ok(Some(why));
        }
        self.open(registry, relay, stream, peer, now)?;
        Ok(None)
    }
}

/// Tells a client why it isn't served, and has its connection leave. If many are told so, or memory runs out, it is
/// closed at once.
fn turn_away<S: Stream + Drop>(
    alloc: Global,
    registry: &S::Registry,
    host: &HostName,
    leaving: &mut Leaving<S>,
    stream: S,
    why: Refusal,
    now: &Now,
)
    ensures line { LeavesWith S.remaining S.contents stream (refusal_of host.now why)
        (leavers_of leaving.old) (leavers_of leaving.new) }
    ensures crowd { MOST_STRANGERS ≤ count_of (leavers_of leaving.old) → leaving.new ≡ leaving.old }
{
    let Ok(line) = refusal_line(alloc, host, why) else {
        return;
    };
    if leaving.has_room_for_strangers() {
        leaving.take(
            registry,
            Channel::new(alloc, stream),
            Outbox::new(line),
            None,
            now,
        );
    } else {
        close_with(stream, line.as_slice());
    }
}

/// Returns the line of a client that isn't served. Fails if memory runs out.
fn refusal_line(alloc: Global, host: &HostName, why: Refusal) -> Result<Vec<u8>, AllocError>
    ensures { IfOk result (λ line. line.items ≡ refusal_of host.now why) }
{
    match why {
        Refusal::NoRoom => closing_line(alloc, host, Closing::TooMany),
        Refusal::Stopping => closing_line(alloc, host, Closing::Stopping),
        Refusal::NoService => {
            let mut line = Vec::new(alloc);
            write_line(&mut line, 554, host.as_slice(), b" no service")?;
            Ok(line)
        }
    }
}

/// Writes a line to a client and closes its connection. One that doesn't hear it finds the connection closed.
pub fn close_with<S: Stream + Drop>(stream: S, line: &[u8]) {
    let mut stream = stream;
    let _ = stream.try_write(line);
    stream.shut_down();
}
