//! What a postmaster asks of queued mail: to try it now, to hold it, and to release it.
ghost use Rattle.std.specs.Prelude.{◌≡◌, ◌<◌, IfErr, IfOk, List, OnErr, OnOk, count_by, false, not, option_copied};
ghost use Rattle.std.specs.Prelude.{true};
ghost use Rattle.relay_book.specs.Queue.{held_of};
ghost use Rattle.relay_control.specs.Held.{HoldsSame, Sets, holds, holds_scope};
ghost use Rattle.relay_limits.specs.Pace.{probed};
ghost use Rattle.relay_routes.specs.Routes.{Route};
ghost use Rattle.relay_next_hops.specs.Lanes.{HoldsNoMore, KeepsCounts, ListsMore};
ghost use Rattle.relay_next_hops.specs.Listing.{HasEarlyTurn, KeepsListed};
ghost use Rattle.relay_lanes.specs.Paces.{changed_at};
ghost use Rattle.relay_next_hops.specs.Steering.{CantFlush, EndsHold, EndsHolds, FlushesEach, IsFlushed, IsOffHold};
ghost use Rattle.relay_next_hops.specs.Steering.{is_asked, is_flushed, relisted, with_held, with_lanes};
ghost use Rattle.relay_next_hops.specs.Tables.{TablesMatch};

use crate::hops::Hops;
use crate::lanes::Lanes;
use crate::next_hops::NextHops;
use crate::sorting::hop_of_place;
use relay_connections::{Now, Stream};
use relay_control::{Held, Scope};
use relay_disk::Disk;
use relay_files::Fault;
use relay_loop::Relay;
use relay_node::NodeFault;
use relay_routes::{Hop, HostName};
use std::alloc::AllocError;

impl<S: Stream + Drop> NextHops<S> {
    /// Returns the held mail.
    pub fn held(&self) -> &Held
        ensures { result.now ≡ self.now.lanes.held }
    {
        &self.lanes.held
    }

    /// Holds this mail from now on, and no other.
    pub fn set_held(&mut self, held: Held)
        ensures lanes { self.new ≡ with_lanes (relisted held self.old.lanes) self.old }
        ensures matches { (routes : List Route) → TablesMatch routes self.old → TablesMatch routes self.new }
    {
        self.lanes.held = held;
        self.lanes.list_at_once();
    }

    /// Holds this mail: no connection is opened for it from now on. Those that stand go on. Returns whether it wasn't
    /// held before. Fails if memory runs out, which it needs only for mail that wasn't held; nothing changes then.
    pub fn hold(&mut self, scope: Scope) -> Result<bool, AllocError>
        ensures held { IfOk result (λ is_new. (is_new ≡ not (holds_scope scope self.old.lanes.held))
            × Sets scope true self.old.lanes.held self.new.lanes.held) }
        ensures failed { OnErr result (HoldsSame self.old.lanes.held self.new.lanes.held
            × (holds_scope scope self.old.lanes.held ≡ false)) }
        ensures rest { OnOk result (self.new ≡ with_lanes (relisted self.new.lanes.held self.old.lanes) self.old) }
        ensures same { OnErr result (self.new ≡ with_lanes (with_held self.new.lanes.held self.old.lanes) self.old) }
        ensures matches { (routes : List Route) → TablesMatch routes self.old → TablesMatch routes self.new }
    {
        let is_new = self.lanes.held.hold(scope)?;
        self.lanes.list_at_once();
        Ok(is_new)
    }

    /// Releases this mail: connections for it may be opened again. Returns whether it was held.
    pub fn release(&mut self, scope: &Scope) -> bool
        ensures was { result ≡ holds_scope scope.now self.old.lanes.held }
        ensures held { Sets scope.now false self.old.lanes.held self.new.lanes.held }
        ensures rest { self.new ≡ with_lanes (relisted self.new.lanes.held self.old.lanes) self.old }
        ensures matches { (routes : List Route) → TablesMatch routes self.old → TablesMatch routes self.new }
    {
        let was_held = self.lanes.held.release(scope);
        self.lanes.list_at_once();
        was_held
    }

    /// Lists the queued mail of this scope, or all of it if there is none, to be tried now, due or not, and ends the
    /// holds of its next hops. What a postmaster holds stays. Returns how many recipients it has listed. Goes over all
    /// that is queued in this one call, which takes some tens of milliseconds for 100,000 messages. Fails if memory
    /// runs out, with a part of it listed, or if the device has failed.
    pub fn flush<D: Disk>(
        &mut self,
        relay: &Relay<D>,
        scope: Option<&Scope>,
        now: &Now,
    ) -> Result<u64, Fault>
        ensures flushed { IfOk result (λ count. FlushesEach relay.now.node self.old.hops.hops self.old.lanes.held
            (option_copied scope.entry) (held_of relay.now.node.records.queue) count self.new.lanes) }
        ensures opened { IfOk result (λ count. 0 < count → self.new.lanes.is_open ≡ true) }
        ensures failed { IfErr result (CantFlush relay.now.node) }
        ensures kept { ListsMore self.old.lanes self.new.lanes × KeepsListed self.old.lanes self.new.lanes }
        ensures hops { self.new.hops ≡ self.old.hops }
        ensures matches { (routes : List Route) → TablesMatch routes self.old → TablesMatch routes self.new }
        ensures off_hold { OnOk result (EndsHolds relay.now.node now.now.tick self.old.lanes.held
            (option_copied scope.entry) (held_of relay.now.node.records.queue) self.new.lanes) }
    {
        let marks = match relay.node().marks(self.lanes.alloc) {
            Ok(marks) => marks,
            Err(NodeFault::Stopped) => return Err(Fault::Device),
            Err(_) => return Err(Fault::NoMemory),
        };
        self.lanes
            .flush_each(relay, &self.hops, marks.as_slice(), scope, now)
    }
}

impl Lanes {
    /// Requests that all due mail is listed again at the next turn.
    fn list_at_once(&mut self)
        ensures { self.new ≡ relisted self.old.held self.old }
    {
        self.is_stale = true;
        self.next_listing = 0;
        self.is_open = true;
    }

    /// Returns whether a postmaster holds the mail of a message for a next hop.
    pub(crate) fn is_kept(&self, hop: &HostName, message: u64) -> bool
        ensures { result ≡ holds hop.now message self.now.held }
    {
        self.held.holds(hop.as_slice(), message)
    }

    /// Lists those of these held places that are asked for and that no postmaster holds, and returns how many they are.
    /// Fails if memory runs out, with a part of them listed; it needs none if there are no such places.
    fn flush_each<S: Stream + Drop, D: Disk>(
        &mut self,
        relay: &Relay<D>,
        hops: &Hops<S>,
        marks: &[(u64, u8)],
        scope: Option<&Scope>,
        now: &Now,
    ) -> Result<u64, Fault>
        ensures flushed { IfOk result (λ count. FlushesEach relay.now.node hops.now.hops self.old.held
            (option_copied scope.entry) marks.now count self.new) }
        ensures opened { IfOk result (λ count. 0 < count → self.new.is_open ≡ true) }
        ensures failed { IfErr result (λ fault. fault ≡ Fault.NoMemory) }
        ensures needed { OnErr result
            (0 < count_by (is_flushed relay.now.node self.old.held (option_copied scope.entry)) marks.now) }
        ensures more { ListsMore self.old self.new }
        ensures kept { KeepsListed self.old self.new }
        ensures off_hold { OnOk result (EndsHolds relay.now.node now.now.tick self.old.held
            (option_copied scope.entry) marks.now self.new) }
    {
        let mut count = 0;
        for mark in marks {
            if self.flush_place(relay, hops, *mark, scope, now)? {
                count += 1;
            }
        }
        Ok(count)
    }

    /// Lists a held place, if it is asked for and no postmaster holds it. Returns whether it has. Fails if memory runs
    /// out for that.
    fn flush_place<S: Stream + Drop, D: Disk>(
        &mut self,
        relay: &Relay<D>,
        hops: &Hops<S>,
        mark: (u64, u8),
        scope: Option<&Scope>,
        now: &Now,
    ) -> Result<bool, Fault>
        ensures flushed { IfOk result (λ flushed. flushed
            ≡ is_flushed relay.now.node self.old.held (option_copied scope.entry) mark) }
        ensures listed { IfOk result (λ flushed. flushed ≡ true
            → IsFlushed relay.now.node hops.now.hops mark self.new × (self.new.is_open ≡ true)) }
        ensures left { IfOk result (λ flushed. flushed ≡ false → self.new ≡ self.old) }
        ensures failed { IfErr result (λ fault. (fault ≡ Fault.NoMemory)
            × (is_flushed relay.now.node self.old.held (option_copied scope.entry) mark ≡ true)) }
        ensures more { ListsMore self.old self.new }
        ensures kept { KeepsListed self.old self.new }
        ensures off_hold { IfOk result (λ flushed. flushed ≡ true
            → EndsHold relay.now.node now.now.tick mark self.new) }
        ensures holds { HoldsNoMore self.old self.new }
    {
        let (number, place) = mark;
        let Some(message) = relay.node().message(number) else {
            return Ok(false);
        };
        let routes = &relay.node().config().routes;
        let recipients = message.accept.envelope.recipients.as_slice();
        let Some(hop) = hop_of_place(routes, recipients, usize::from(place)) else {
            return Ok(false);
        };
        if !is_asked(scope, number, &hop.name) || self.is_kept(&hop.name, number) {
            return Ok(false);
        }
        self.list_early(hops, number, hop, now)?;
        Ok(true)
    }

    /// Lists a message for a next hop, before all that isn't asked for early, and ends the hold of the next hop. Fails
    /// if memory runs out.
    fn list_early<S: Stream + Drop>(
        &mut self,
        hops: &Hops<S>,
        number: u64,
        hop: &Hop,
        now: &Now,
    ) -> Result<(), Fault>
        ensures listed { OnOk result (HasEarlyTurn hops.now.hops number hop.now.name hop.now.at self.new
            × (self.new.is_open ≡ true)) }
        ensures failed { IfErr result (λ fault. fault ≡ Fault.NoMemory) }
        ensures more { ListsMore self.old self.new }
        ensures kept { KeepsListed self.old self.new }
        ensures off_hold { OnOk result (IsOffHold now.now.tick hop.now.at self.new) }
        ensures holds { HoldsNoMore self.old self.new }
    {
        if !self.sort_in(hops, number, hop.at, &hop.name, true) {
            return Err(Fault::NoMemory);
        }
        let Some(lane) = self.number_of(hop.at) else {
            return Err(Fault::NoMemory);
        };
        self.probe(lane, now);
        Ok(())
    }

    /// Ends the hold of a lane, and lets more begin.
    fn probe(&mut self, number: usize, now: &Now)
        ensures counts { KeepsCounts self.old self.new }
        ensures paces { self.new.paces ≡ changed_at (probed now.now.tick) self.old.paces number }
        ensures kept { KeepsListed self.old self.new }
        ensures opened { self.new.is_open ≡ true }
        ensures holds { HoldsNoMore self.old self.new }
    {
        self.paces.probe(number, now.tick);
        self.is_open = true;
        self.is_fresh = true;
    }
}

/// Returns whether the mail of a message for a next hop is asked for; if there is no scope, all mail is.
fn is_asked(scope: Option<&Scope>, message: u64, hop: &HostName) -> bool
    ensures { result ≡ is_asked (option_copied scope.entry) message hop.now }
{
    match scope {
        Some(Scope::Hop(name)) => hop.as_slice() == name.as_slice(),
        Some(Scope::Message(number)) => message == *number,
        None => true,
    }
}
