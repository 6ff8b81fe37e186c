ghost use Rattle.std.specs.Prelude.{◌≡◌, ◌↔◌, List, None, IfOk, IsErr, IsOk, IsTrue, OnOk};
ghost use Rattle.relay_slots.specs.Slots.{AreFree};
ghost use Rattle.relay_book.specs.declared.change.Change.{Change};
ghost use Rattle.relay_connections.specs.Carried.{Setting};
ghost use Rattle.relay_connections.specs.Leaving.{leavers_of};
ghost use Rattle.relay_connections.specs.Readiness.{clients_of};
ghost use Rattle.relay_connections.specs.Served.{AreServed, AreServedAfter};
ghost use Rattle.relay_connections.specs.Welcome.{KeepsRules};
ghost use Rattle.relay_next_hops.specs.Readiness.{hops_of};
ghost use Rattle.relay_run.specs.Hops.{HopsHear, HopsMatch};
ghost use Rattle.relay_run.specs.Reloading.{IsReloadable, IsReloading, MayReload};
ghost use Rattle.relay_run.specs.Reopening.{GoesOnOrHasNoHops, HasFailedToSync, HasOpened, IsWhole, KeepsConfig};
ghost use Rattle.relay_run.specs.Reopening.{config_for};
ghost use Rattle.relay_run.specs.Room.{MayStart};
ghost use Rattle.relay_run.specs.Serving.{AreServedOn, AreServedWithMore, GoesOnOrServesNone, ServesNoneYet};
ghost use Rattle.relay_run.specs.Steering.{IsDraining, MayBegin, TurnsAway};

use crate::acceptor::Acceptor;
use crate::device::Device;
use crate::hearing::hear;
use crate::journal::Journal;
use crate::known::Known;
use crate::listen::Listen;
use crate::pauses::Pauses;
use crate::reopening::{Why, reopen};
use crate::room::{Ballast, Room};
use crate::start::log_form;
use crate::steering::Steering;
use crate::tidying::Tidying;
use mio::net::TcpStream;
use relay_connections::{Clients, Leaving, Now, Stream, Turn};
use relay_disk::{Disk, FileDisk};
use relay_files::Fault;
use relay_limits::{AllowedClients, Limits};
use relay_log::{Form, Log};
use relay_loop::Relay;
use relay_next_hops::{Dial, NextHops};
use relay_room::RoomFile;
use std::alloc::{AllocError, Global};
use std::io::Write;
use std::rt::Clock;

/// A running relay: its connections, and the due mail, over any streams, any disks and any ballast file. What opens the
/// streams, and what reports their readiness, is passed to each turn. What its streams may be ready for is noted before
/// a turn ([`note`](Shell::note)), and after it the relay goes on ([`resumed`](Shell::resumed)).
pub struct Shell<S, D: Disk, F> {
    pub(crate) relay: Relay<D>,
    pub(crate) acceptor: Acceptor<S>,
    pub(crate) clients: Clients<S>,
    pub(crate) next_hops: NextHops<S>,
    pub(crate) leaving: Leaving<S>,
    pub(crate) tidying: Tidying,
    pub(crate) pauses: Pauses,
    pub(crate) room: Room<F>,
    pub(crate) known: Known,
    pub(crate) steering: Steering,
    /// The format of the log; `None` if nothing is logged.
    pub(crate) form: Option<Form>,
}

/// The shell of `run`, over the system's streams and files.
pub(crate) type SystemShell = Shell<TcpStream, FileDisk, RoomFile>;

// Written out, so that the proof of a caller that drops it stops at this function.
impl<S: Drop, D: Disk + Drop, F: Drop> Drop for Shell<S, D, F> {
    fn drop(self) {
        let Shell {
            relay: _relay,
            acceptor: _acceptor,
            clients: _clients,
            next_hops: _next_hops,
            leaving: _leaving,
            tidying: _,
            pauses: _,
            room: _room,
            known: _,
            steering: _steering,
            form: _,
        } = self;
    }
}

impl<S: Stream + Drop, D: Disk + Drop, F: Disk + Drop> Shell<S, D, F> {
    /// Makes a shell without connections, with these limits, for the clients that may connect. Fails if memory runs
    /// out.
    pub(crate) fn new(
        alloc: Global,
        relay: Relay<D>,
        acceptor: Acceptor<S>,
        room: Room<F>,
        steering: Steering,
        limits: &Limits,
        allowed: AllowedClients,
    ) -> Result<Self, AllocError>
        ensures away { ¬ IsDraining steering → IfOk result (λ shell. TurnsAway shell.steering shell.clients) }
        ensures matches { IfOk result (λ shell. HopsMatch shell.next_hops shell.relay) }
    {
        let clients = Clients::new(alloc, limits, allowed)?;
        let next_hops = NextHops::new(alloc, limits)?;
        let leaving = Leaving::new(alloc, u64::from(limits.client_timeout))?;
        let pauses = Pauses::new(relay.node().size());
        let known = Known::of(&relay);
        let form = log_form(steering.source.quiet, limits);
        Ok(Shell {
            relay,
            acceptor,
            clients,
            next_hops,
            leaving,
            tidying: Tidying::new(),
            pauses,
            room,
            known,
            steering,
            form,
        })
    }

    /// Notes what the relay knows of its spool after a turn without a fault; this must be there when the spool is
    /// opened again.
    pub(crate) fn note_known(&mut self)
        ensures number { self.new.known.next_number ≡ self.old.relay.node.records.queue.next }
        ensures size { self.new.known.size ≡ self.old.relay.node.records.spool.size }
        ensures compacted { self.new.known.compacted ≡ None }
        ensures rest { (self.new.relay ≡ self.old.relay) × (self.new.clients ≡ self.old.clients)
            × (self.new.next_hops ≡ self.old.next_hops) × (self.new.leaving ≡ self.old.leaving)
            × (self.new.acceptor ≡ self.old.acceptor) × (self.new.steering ≡ self.old.steering) }
        ensures room { self.new.room ≡ self.old.room }
    {
        self.known = Known::of(&self.relay);
    }

    /// Returns whether the spool is to be opened with its configured limit now.
    pub(crate) fn is_renewed(&self, now: &Now) -> bool {
        self.room.is_renewed(now)
    }

    /// Returns whether attempts may begin: no drain was asked for, no reload waits, and there is room for their
    /// outcomes.
    pub(crate) fn may_start(&self) -> bool
        ensures { IsTrue result ↔ MayBegin self.now.steering self.now.room self.now.relay.node.records.spool.size }
    {
        !self.steering.is_draining()
            && !self.steering.is_reloading()
            && self.room.may_start(self.relay.node().size())
    }

    /// Takes a turn, and writes its log lines. Then keeps the spool small, which may take a while, and so comes after
    /// those lines. Clients that stay are served as before, and so are those that came.
    pub fn advance<C: Clock, L: Listen<Stream = S>, N: Dial<Stream = S>, E: Write>(
        &mut self,
        listener: &mut L,
        dial: &mut N,
        registry: &S::Registry,
        now: &Now,
        journal: &mut Journal<'_, C, E>,
    ) -> Result<(), Fault>
        ensures served { (changes : List Change) (setting : Setting)
            → AreServed D.honest D.words S.remaining S.contents changes setting (clients_of self.old.clients)
            self.old.relay → OnOk result (AreServedOn D.honest D.words S.remaining S.contents changes setting
            (clients_of self.old.clients) (clients_of self.new.clients) self.new.relay) }
        ensures matches { HopsMatch self.old.next_hops self.old.relay
            → OnOk result (HopsMatch self.new.next_hops self.new.relay) }
    {
        journal.form = self.form;
        let clock = journal.clock;
        let end = self.turn(clock, listener, dial, registry, now, &mut journal.log(now));
        journal.write();
        end?;
        self.note_known();
        let end = self.tidy(now, &mut journal.log(now));
        journal.write();
        end?;
        self.note_known();
        Ok(())
    }

    /// Does for each connection one thing that can be done at once, and begins due attempts. If the relay is short of
    /// room and a test is due, tests the room first. Clients that stay are served as before, and so are those that
    /// came.
    pub(crate) fn turn<C: Clock, L: Listen<Stream = S>, N: Dial<Stream = S>>(
        &mut self,
        clock: &C,
        listener: &mut L,
        dial: &mut N,
        registry: &S::Registry,
        now: &Now,
        log: &mut Log<'_, Vec<u8>>,
    ) -> Result<(), Fault>
        ensures rules { (self.new.steering ≡ self.old.steering) × KeepsRules self.old.clients self.new.clients }
        ensures served { (changes : List Change) (setting : Setting)
            → AreServed D.honest D.words S.remaining S.contents changes setting (clients_of self.old.clients)
            self.old.relay → OnOk result (AreServedOn D.honest D.words S.remaining S.contents changes setting
            (clients_of self.old.clients) (clients_of self.new.clients) self.new.relay) }
        ensures matches { HopsMatch self.old.next_hops self.old.relay
            → OnOk result (HopsMatch self.new.next_hops self.new.relay) }
    {
        let node = self.relay.node();
        if self.room.look(node.size(), node.config().spool_limit, now) {
            log.shortage_ended();
        }
        self.admit(listener, dial, registry, now, log)?;
        self.attend_to_next_hops(registry, now, log)?;
        self.exchange(registry, now, log)?;
        if self.leaving.serve(now) > 0 {
            self.acceptor.resume();
            self.next_hops.note_leaving(&self.leaving);
        }
        self.begin(clock, dial, registry, now, log)
    }

    /// Takes the clients that are waiting. While a reload waits, they wait too.
    fn admit<L: Listen<Stream = S>, N: Dial<Stream = S>>(
        &mut self,
        listener: &mut L,
        dial: &mut N,
        registry: &S::Registry,
        now: &Now,
        log: &mut Log<'_, Vec<u8>>,
    ) -> Result<(), Fault>
        ensures rules { (self.new.steering ≡ self.old.steering) × KeepsRules self.old.clients self.new.clients }
        ensures waits { IsReloading self.old.steering → (self.new.relay ≡ self.old.relay)
            × (self.new.clients ≡ self.old.clients) }
        ensures served { (changes : List Change) (setting : Setting)
            → AreServed D.honest D.words S.remaining S.contents changes setting (clients_of self.old.clients)
            self.old.relay → OnOk result (AreServedWithMore D.honest D.words S.remaining S.contents changes setting
            (clients_of self.old.clients) (clients_of self.new.clients) self.new.relay) }
        ensures config { self.new.relay.node.config ≡ self.old.relay.node.config }
        ensures hops { self.new.next_hops ≡ self.old.next_hops }
    {
        if self.steering.is_reloading() {
            return Ok(());
        }
        self.acceptor.admit(
            listener,
            dial,
            Turn { registry, now },
            &mut self.relay,
            &mut self.clients,
            &mut self.leaving,
            log,
        )
    }

    /// Makes connections to next hops, and reads from those that have replied.
    fn attend_to_next_hops(
        &mut self,
        registry: &S::Registry,
        now: &Now,
        log: &mut Log<'_, Vec<u8>>,
    ) -> Result<(), Fault>
        ensures rules { (self.new.steering ≡ self.old.steering) × KeepsRules self.old.clients self.new.clients }
        ensures served { (changes : List Change) (setting : Setting)
            → AreServed D.honest D.words S.remaining S.contents changes setting (clients_of self.old.clients)
            self.old.relay → OnOk result (AreServedAfter D.honest D.words S.remaining S.contents changes setting
            (clients_of self.new.clients) self.new.relay) }
        ensures matches { HopsMatch self.old.next_hops self.old.relay
            → OnOk result (HopsMatch self.new.next_hops self.new.relay) }
    {
        let closed = self
            .next_hops
            .attend(registry, &mut self.relay, &mut self.leaving, now, log)?;
        self.note_ends(closed);
        Ok(())
    }

    /// Serves the clients, and passes the replies of next hops to their attempts in the same call, so that accepted
    /// mail and outcomes share their syncs.
    fn exchange(
        &mut self,
        registry: &S::Registry,
        now: &Now,
        log: &mut Log<'_, Vec<u8>>,
    ) -> Result<(), Fault>
        ensures rules { (self.new.steering ≡ self.old.steering) × KeepsRules self.old.clients self.new.clients }
        ensures served { (changes : List Change) (setting : Setting)
            → AreServed D.honest D.words S.remaining S.contents changes setting (clients_of self.old.clients)
            self.old.relay → OnOk result (AreServedAfter D.honest D.words S.remaining S.contents changes setting
            (clients_of self.new.clients) self.new.relay) }
        ensures hears { OnOk result (HopsHear D.honest D.words now.now.moment now.now.tick self.old.next_hops
            self.new.next_hops self.old.relay self.new.relay) }
        ensures matches { HopsMatch self.old.next_hops self.old.relay
            → OnOk result (HopsMatch self.new.next_hops self.new.relay) }
    {
        let gathered = self.next_hops.replies();
        let (intake, replied) = hear(
            gathered,
            &mut self.clients,
            registry,
            &mut self.relay,
            &mut self.leaving,
            now,
            log,
        )?;
        if intake.was_full {
            self.tidying.note_full(now, log);
        }
        if intake.closed {
            self.acceptor.resume();
        }
        let closed = self.next_hops.answer(
            replied,
            registry,
            &mut self.relay,
            &mut self.leaving,
            now,
            log,
        )?;
        self.note_ends(closed);
        Ok(())
    }

    /// Notes whether connections to next hops were closed.
    fn note_ends(&mut self, closed: bool)
        ensures rules { (self.new.steering ≡ self.old.steering) × KeepsRules self.old.clients self.new.clients }
        ensures same { (self.new.relay ≡ self.old.relay) × (self.new.clients ≡ self.old.clients)
            × (self.new.next_hops ≡ self.old.next_hops) }
    {
        if closed {
            self.tidying.note_shrunk();
            self.acceptor.resume();
        }
    }

    /// Begins due attempts, but none while there is no room for their outcomes, after a drain was asked for, or while a
    /// reload waits.
    fn begin<C: Clock, N: Dial<Stream = S>>(
        &mut self,
        clock: &C,
        dial: &mut N,
        registry: &S::Registry,
        now: &Now,
        log: &mut Log<'_, Vec<u8>>,
    ) -> Result<(), Fault>
        ensures held { ¬ MayBegin self.old.steering self.old.room self.old.relay.node.records.spool.size
            → (self.new.relay ≡ self.old.relay) × (self.new.next_hops ≡ self.old.next_hops) }
        ensures rules { (self.new.steering ≡ self.old.steering) × KeepsRules self.old.clients self.new.clients }
        ensures served { (changes : List Change) (setting : Setting)
            → AreServed D.honest D.words S.remaining S.contents changes setting (clients_of self.old.clients)
            self.old.relay → OnOk result (AreServedAfter D.honest D.words S.remaining S.contents changes setting
            (clients_of self.new.clients) self.new.relay) }
        ensures matches { HopsMatch self.old.next_hops self.old.relay
            → OnOk result (HopsMatch self.new.next_hops self.new.relay) }
    {
        if !self.may_start() {
            return Ok(());
        }
        self.next_hops.list(clock, &self.relay, now)?;
        let gave_up = self
            .next_hops
            .begin(dial, registry, &mut self.relay, now, log)?;
        self.next_hops.look_ahead(&self.relay, now)?;
        if gave_up {
            self.tidying.note_shrunk();
        }
        Ok(())
    }
}

impl<S: Stream + Drop, D: Device + Drop, F: Ballast + Drop> Shell<S, D, F> {
    /// Returns the relay after a turn with this result. Opens its spool again if a reload takes effect, if the device
    /// has failed, or if it has room again; it serves no client then. Logs a fault that ends the relay.
    pub fn resumed<C: Clock, L: Listen<Stream = S>, E: Write>(
        self,
        listener: &mut L,
        end: Result<(), Fault>,
        now: &Now,
        journal: &mut Journal<'_, C, E>,
    ) -> Result<Self, Fault>
        ensures config { IfOk result (λ after. MayReload self.relay.node.config self.steering self.clients
            self.next_hops self.leaving after.relay.node.config) }
        ensures reloads { IfOk result (λ after. IsOk end → IsReloadable self.steering self.clients self.next_hops
            self.leaving now.now.tick → after.steering.reload ≡ None) }
        ensures served { IfOk result (λ after. GoesOnOrServesNone D.Disk.honest D.Disk.words (clients_of self.clients)
            (clients_of after.clients) self.relay after.relay) }
        ensures none { IsErr end → IfOk result (λ after. ServesNoneYet D.Disk.honest D.Disk.words
            (clients_of after.clients) after.relay) }
        ensures hops { IfOk result (λ after. GoesOnOrHasNoHops self.next_hops after.next_hops self.relay after.relay) }
        ensures matches { IfOk result (λ after. (IsOk end → HopsMatch self.next_hops self.relay)
            → HopsMatch after.next_hops after.relay) }
    {
        journal.form = self.form;
        let after = self.kept_or_reopened(journal, listener, end, now);
        if let Err(fault) = &after {
            journal.stopping(fault);
        }
        after
    }

    /// Returns the relay after a turn with this result, as [`resumed`](Shell::resumed), without that log line.
    fn kept_or_reopened<C: Clock, L: Listen<Stream = S>, E: Write>(
        self,
        journal: &mut Journal<'_, C, E>,
        listener: &mut L,
        end: Result<(), Fault>,
        now: &Now,
    ) -> Result<Self, Fault>
        ensures config { IfOk result (λ after. MayReload self.relay.node.config self.steering self.clients
            self.next_hops self.leaving after.relay.node.config) }
        ensures reloads { IfOk result (λ after. IsOk end → IsReloadable self.steering self.clients self.next_hops
            self.leaving now.now.tick → after.steering.reload ≡ None) }
        ensures served { IfOk result (λ after. GoesOnOrServesNone D.Disk.honest D.Disk.words (clients_of self.clients)
            (clients_of after.clients) self.relay after.relay) }
        ensures none { IsErr end → IfOk result (λ after. ServesNoneYet D.Disk.honest D.Disk.words
            (clients_of after.clients) after.relay) }
        ensures hops { IfOk result (λ after. GoesOnOrHasNoHops self.next_hops after.next_hops self.relay after.relay) }
        ensures matches { IfOk result (λ after. (IsOk end → HopsMatch self.next_hops self.relay)
            → HopsMatch after.next_hops after.relay) }
    {
        match end {
            Ok(()) if self.may_reload(now) => self.reloaded(journal, listener, now),
            Ok(()) if self.is_renewed(now) => self.reopened(journal, listener, Why::Renewed),
            Ok(()) => Ok(self),
            Err(Fault::Device) => self.reopened(journal, listener, Why::Failed),
            Err(fault) => Err(fault),
        }
    }

    /// Returns the same relay with its spool opened again: after a failure once the device has room; else at once, with
    /// its configured limit. Closes all connections, and refuses clients at the listener meanwhile. Fails if a sync has
    /// failed, or if the spool isn't the known one.
    pub(crate) fn reopened<C: Clock, E: Write, L: Listen<Stream = S>>(
        mut self,
        journal: &mut Journal<'_, C, E>,
        listener: &mut L,
        why: Why,
    ) -> Result<Self, Fault>
        ensures synced { HasFailedToSync D.has_failed_to_sync self.relay.node.records.spool.disk → IsErr result }
        ensures whole { IfOk result (λ shell. IsWhole self.known shell.relay.node.records.queue.next
            shell.relay.node.records.spool.size) }
        ensures tested { why ≡ Why.Failed → IfOk result (λ shell. MayStart shell.room self.known.size) }
        ensures rules { IfOk result (λ shell. (shell.steering ≡ self.steering)
            × KeepsRules self.clients shell.clients) }
        ensures config { IfOk result (λ shell. KeepsConfig (config_for why self.relay.node.config)
            shell.relay.node.config) }
        ensures none { IfOk result (λ shell. ServesNoneYet D.Disk.honest D.Disk.words (clients_of shell.clients)
            shell.relay) }
        ensures left { IfOk result (λ shell. AreFree (leavers_of shell.leaving)) }
        ensures hops { IfOk result (λ shell. AreFree (hops_of shell.next_hops)) }
        ensures matches { IfOk result (λ shell. HopsMatch shell.next_hops shell.relay) }
    {
        self.clients.clear();
        self.leaving.clear();
        self.acceptor.clear();
        self.opened(journal, listener, why)
    }

    /// Returns the same relay with its spool opened again for this reason.
    pub(crate) fn opened<C: Clock, E: Write, L: Listen<Stream = S>>(
        self,
        journal: &mut Journal<'_, C, E>,
        listener: &mut L,
        why: Why,
    ) -> Result<Self, Fault>
        ensures synced { HasFailedToSync D.has_failed_to_sync self.relay.node.records.spool.disk → IsErr result }
        ensures whole { IfOk result (λ shell. IsWhole self.known shell.relay.node.records.queue.next
            shell.relay.node.records.spool.size) }
        ensures tested { why ≡ Why.Failed → IfOk result (λ shell. MayStart shell.room self.known.size) }
        ensures same { IfOk result (λ shell. (shell.steering ≡ self.steering) × (shell.clients ≡ self.clients)
            × (shell.next_hops.lanes.held ≡ self.next_hops.lanes.held) × (shell.leaving ≡ self.leaving)) }
        ensures config { IfOk result (λ shell. KeepsConfig (config_for why self.relay.node.config)
            shell.relay.node.config) }
        ensures opened { IfOk result (λ shell. HasOpened D.Disk.honest D.Disk.words shell.relay) }
        ensures hops { IfOk result (λ shell. AreFree (hops_of shell.next_hops)) }
        ensures matches { IfOk result (λ shell. HopsMatch shell.next_hops shell.relay) }
    {
        let Shell {
            relay,
            acceptor,
            clients,
            next_hops,
            leaving,
            tidying: _,
            pauses,
            room,
            known,
            steering,
            form,
        } = self;
        let mut pauses = pauses;
        let mut room = room;
        let relay = reopen(journal, relay, known, why, listener, &mut room, &mut pauses)?;
        Ok(Shell {
            known: Known::of(&relay),
            relay,
            acceptor,
            clients,
            next_hops: next_hops.renewed(),
            leaving,
            tidying: Tidying::new(),
            pauses,
            room,
            steering,
            form,
        })
    }
}
