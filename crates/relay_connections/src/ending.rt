//! Ending a client's session, because its connection has ended or the relay cuts it off.
ghost use Rattle.std.specs.Prelude.{◌≡◌, IfErr, IfOk, false};
ghost use Rattle.relay_connections.specs.Matched.{IsFreed};
ghost use Rattle.relay_connections.specs.Sessions.{EndsAlone, IsCutOff, IsTold, LeavesWithAll};

use crate::client::Next;
use relay_disk::Disk;
use relay_loop::{Closing, Outbox, Relay, closing_line};
use relay_node::NodeFault;
use std::alloc::Global;

/// Ends the session of a client whose input has ended. Unwritten octets are still written.
pub(crate) fn end_session<D: Disk>(relay: &mut Relay<D>, session: usize) -> Result<Next, NodeFault>
    ensures ends { EndsAlone session relay.old relay.new }
    ensures freed { IsFreed session relay.old relay.new }
    ensures next { IfOk result (LeavesWithAll relay.old session) }
    ensures fault { IfErr result (λ fault. fault ≡ NodeFault.Stopped) }
    ensures stopped { IfErr result (λ _. relay.old.node.records.spool.live ≡ false) }
{
    match relay.end_client(session) {
        Ok(outbox) => Ok(Next::Leaves(outbox)),
        Err(NodeFault::Stopped) => Err(NodeFault::Stopped),
        Err(_) => Ok(Next::Gone),
    }
}

/// Ends the session of a client that can't be served.
pub(crate) fn dismiss<D: Disk>(relay: &mut Relay<D>, session: usize)
    ensures { IsFreed session relay.old relay.new }
{
    match relay.end_client(session) {
        Ok(_) => {}
        // A stopped node has no sessions any more, and an unknown session has ended already.
        Err(_) => {}
    }
}

/// Ends the session of a client whose connection is broken.
pub(crate) fn drop_session<D: Disk>(relay: &mut Relay<D>, session: usize) -> Result<Next, NodeFault>
    ensures ends { EndsAlone session relay.old relay.new }
    ensures freed { IsFreed session relay.old relay.new }
    ensures next { IfOk result (λ next. next ≡ Next.Gone) }
    ensures fault { IfErr result (λ fault. fault ≡ NodeFault.Stopped) }
    ensures stopped { IfErr result (λ _. relay.old.node.records.spool.live ≡ false) }
{
    match relay.end_client(session) {
        Err(NodeFault::Stopped) => Err(NodeFault::Stopped),
        _ => Ok(Next::Gone),
    }
}

/// Ends the session of a client that is cut off for this reason. If it has taken all earlier octets, it gets a last
/// reply; else it takes nothing, and gets none.
pub(crate) fn cut_off<D: Disk>(
    alloc: Global,
    relay: &mut Relay<D>,
    session: usize,
    why: Closing,
) -> Result<Next, NodeFault>
    ensures ends { EndsAlone session relay.old relay.new }
    ensures freed { IsFreed session relay.old relay.new }
    ensures next { IfOk result (IsCutOff relay.old session why) }
    ensures fault { IfErr result (λ fault. fault ≡ NodeFault.Stopped) }
    ensures stopped { IfErr result (λ _. relay.old.node.records.spool.live ≡ false) }
{
    match relay.end_client(session) {
        Ok(outbox) if outbox.is_empty() => Ok(farewell(alloc, relay, why)),
        Err(NodeFault::Stopped) => Err(NodeFault::Stopped),
        _ => Ok(Next::Gone),
    }
}

/// Returns the last reply to a client that is cut off for this reason.
fn farewell<D: Disk>(alloc: Global, relay: &Relay<D>, why: Closing) -> Next
    ensures { IsTold relay.now.node.config.host why result }
{
    match closing_line(alloc, &relay.node().config().host, why) {
        Ok(line) => Next::Leaves(Outbox::new(line)),
        Err(_) => Next::Gone,
    }
}
