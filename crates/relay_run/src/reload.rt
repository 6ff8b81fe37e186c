//! Reading the configuration of a running relay again. A node has one configuration, so the new one takes effect when
//! no session and no attempt is left: the sessions are ended between mail transactions, attempts end by themselves, and
//! clients that come meanwhile wait to be accepted. After a minute it takes effect in any case.
ghost use Rattle.std.specs.Prelude.{◌≡◌, ◌⊎◌, ◌↔◌, IfOk, IfSome, IsTrue, None};
ghost use Rattle.relay_slots.specs.Slots.{AreFree};
ghost use Rattle.relay_connections.specs.Readiness.{clients_of};
ghost use Rattle.relay_next_hops.specs.Readiness.{hops_of};
ghost use Rattle.relay_run.specs.Answers.{IsError};
ghost use Rattle.relay_run.specs.Hops.{HopsMatch};
ghost use Rattle.relay_run.specs.Reloading.{HoldsAlike, IsIdle, IsReloadable, IsReloading, KeepsPlaces, MayReload};
ghost use Rattle.relay_run.specs.Reloading.{RetiresFor, ServesReload, TakesEffect};
ghost use Rattle.relay_run.specs.Reopening.{GoesOnOrHasNoHops, HasOpened, IsWhole, KeepsConfig};
ghost use Rattle.relay_run.specs.Serving.{GoesOnOrServesNone};

use crate::answers::{Answer, done_with_count, refused};
use crate::device::Device;
use crate::documents::Documents;
use crate::held_mail::copy_held;
use crate::journal::Journal;
use crate::listen::Listen;
use crate::reopening::Why;
use crate::room::Ballast;
use crate::shell::Shell;
use crate::source::restart_answer;
use crate::start::{Settings, log_form};
use crate::steering::Steering;
use relay_connections::{Now, Stream};
use relay_control::Held;
use relay_disk::Disk;
use relay_files::Fault;
use relay_limits::Limits;
use relay_next_hops::NextHops;
use std::alloc::{AllocError, Global};
use std::io::Write;
use std::rt::Clock;

/// How many seconds after it was asked for a reload takes effect at the latest.
const RELOAD_SECONDS: u64 = 60;

/// How many seconds after that all sessions are ended. The last octets of their connections have the rest of the time.
const SESSION_SECONDS: u64 = 59;

/// How many milliseconds longer than the reload may take its caller is kept.
const ANSWER_TIME: u64 = 5_000;

/// The reload that was asked for.
#[derive(Drop)]
pub(crate) struct Reload {
    /// What the configuration's file said.
    pub(crate) settings: Settings,
    /// The tick at which they take effect at the latest.
    pub(crate) until: u64,
    /// The number of the caller that has asked for it.
    pub(crate) caller: usize,
}

impl Steering {
    /// Returns whether a reload waits.
    pub(crate) fn is_reloading(&self) -> bool
        ensures { IsTrue result ↔ IsReloading self.now }
    {
        self.reload.is_some()
    }
}

impl<S: Stream + Drop, D: Disk + Drop, F: Disk + Drop> Shell<S, D, F> {
    /// Reads the configuration again, and prepares for it: begins no more attempts, and ends the sessions. The caller
    /// is answered when it takes effect. Refuses it only if the relay drains, else if another reload waits, else if the
    /// configuration has a fault or changes a place that the relay keeps as long as it runs; nothing is changed then.
    pub(crate) fn begin_reload<O: Documents>(
        &mut self,
        files: &O,
        caller: usize,
        now: &Now,
    ) -> Option<Answer>
        ensures served { ServesReload O.has_read files.now self.old.relay.node.config now.now.tick caller
            self.old.steering self.new.steering self.old.clients self.new.clients result }
        ensures drain { self.new.steering.drain ≡ self.old.steering.drain }
        ensures stops { self.new.clients.stops ≡ self.old.clients.stops }
        ensures rest { (self.new.relay ≡ self.old.relay) × (self.new.next_hops ≡ self.old.next_hops)
            × (self.new.leaving ≡ self.old.leaving) × (self.new.acceptor ≡ self.old.acceptor)
            × (self.new.room ≡ self.old.room) }
    {
        let alloc = self.steering.alloc;
        if self.steering.is_draining() {
            return Some(refused(alloc, b"the relay drains"));
        }
        if self.steering.is_reloading() {
            return Some(refused(alloc, b"another reload waits"));
        }
        let settings = match files.settings(alloc, self.steering.source.path.as_str()) {
            Ok(settings) => settings,
            Err(fault) => return Some(fault_answer(alloc, &fault)),
        };
        let config = self.relay.node().config();
        if !self.steering.source.keeps_places(config, &settings) {
            let answer = restart_answer(alloc, &self.steering.source, config, &settings);
            return Some(answer);
        }
        self.await_reload(settings, caller, now);
        None
    }

    /// Keeps these settings, which take effect when no session and no attempt is left.
    fn await_reload(&mut self, settings: Settings, caller: usize, now: &Now)
        requires { (self.old.steering.reload ≡ None) × (self.old.steering.drain ≡ None)
            × KeepsPlaces self.old.steering.source self.old.relay.node.config settings }
        ensures begun { RetiresFor self.old.relay.node.config now.now.tick caller self.old.steering
            self.new.steering self.old.clients self.new.clients }
        ensures settings { IfSome self.new.steering.reload (λ reload. reload.settings ≡ settings) }
        ensures drain { self.new.steering.drain ≡ self.old.steering.drain }
        ensures stops { self.new.clients.stops ≡ self.old.clients.stops }
        ensures rest { (self.new.relay ≡ self.old.relay) × (self.new.next_hops ≡ self.old.next_hops)
            × (self.new.leaving ≡ self.old.leaving) × (self.new.acceptor ≡ self.old.acceptor)
            × (self.new.room ≡ self.old.room) }
    {
        let until = now.after(RELOAD_SECONDS);
        let steering = &mut self.steering;
        steering
            .socket
            .keep(caller, until.saturating_add(ANSWER_TIME));
        steering.reload = Some(Reload {
            settings,
            until,
            caller,
        });
        self.clients.retire(now.after(SESSION_SECONDS));
    }

    /// Returns whether a reload takes effect now: no session is left, and no attempt and no connection that is leaving,
    /// or its time is over.
    pub(crate) fn may_reload(&self, now: &Now) -> bool
        ensures { IsTrue result ↔ IsReloadable self.now.steering self.now.clients self.now.next_hops self.now.leaving
            now.now.tick }
    {
        match &self.steering.reload {
            Some(reload) => self.has_ended_for(reload, now),
            None => false,
        }
    }

    /// Returns whether this reload takes effect now.
    fn has_ended_for(&self, reload: &Reload, now: &Now) -> bool
        ensures { IsTrue result ↔ TakesEffect reload.now self.now.clients self.now.next_hops self.now.leaving
            now.now.tick }
    {
        self.clients.is_empty() && (self.is_idle() || reload.until <= now.tick)
    }

    /// Returns whether no attempt runs, and no connection is leaving.
    fn is_idle(&self) -> bool
        ensures { IsTrue result ↔ IsIdle self.now.next_hops self.now.leaving }
    {
        self.next_hops.running() == 0 && self.leaving.is_empty()
    }
}

impl<S: Stream + Drop, D: Device + Drop, F: Ballast + Drop> Shell<S, D, F> {
    /// Returns the same relay under the configuration of the reload that waits, with its spool opened again, and
    /// answers the caller. Closes all connections. If memory runs out before that, the old configuration stays, and the
    /// caller is told so. Fails if a sync has failed, or if the spool isn't the known one.
    pub(crate) fn reloaded<C: Clock, E: Write, L: Listen<Stream = S>>(
        mut self,
        journal: &mut Journal<'_, C, E>,
        listener: &mut L,
        now: &Now,
    ) -> Result<Self, Fault>
        requires { IsReloadable self.steering self.clients self.next_hops self.leaving now.now.tick }
        ensures whole { IfOk result (λ shell. (shell.relay ≡ self.relay)
            ⊎ IsWhole self.known shell.relay.node.records.queue.next shell.relay.node.records.spool.size) }
        ensures config { IfOk result (λ shell. MayReload self.relay.node.config self.steering self.clients
            self.next_hops self.leaving shell.relay.node.config) }
        ensures held { IfOk result (λ shell. HoldsAlike self.next_hops.lanes.held shell.next_hops.lanes.held) }
        ensures ended { IfOk result (λ shell. (shell.steering.reload ≡ None)
            × (shell.steering.drain ≡ self.steering.drain) × (shell.clients.stops ≡ self.clients.stops)) }
        ensures served { IfOk result (λ shell. GoesOnOrServesNone D.Disk.honest D.Disk.words (clients_of self.clients)
            (clients_of shell.clients) self.relay shell.relay) }
        ensures hops { IfOk result (λ shell. GoesOnOrHasNoHops self.next_hops shell.next_hops self.relay shell.relay) }
        ensures matches { IfOk result (λ shell. HopsMatch self.next_hops self.relay
            → HopsMatch shell.next_hops shell.relay) }
    {
        let alloc = journal.alloc;
        let Some(reload) = self.steering.reload.take() else {
            return Ok(self);
        };
        let Reload {
            settings,
            until: _,
            caller,
        } = reload;
        let cut = self.next_hops.running() as u64;
        let Ok(next_hops) = hops_with(alloc, self.next_hops.held(), &settings.limits) else {
            self.clients.stay();
            self.steering
                .socket
                .answer(caller, refused(alloc, b"no memory"));
            return Ok(self);
        };
        self.next_hops = next_hops;
        let mut shell = self.under(settings, journal, listener)?;
        let answer = done_with_count(alloc, "reloaded; attempts cut=", cut);
        shell.steering.socket.answer(caller, answer);
        Ok(shell)
    }

    /// Returns the same relay under these settings, with its spool opened again.
    fn under<C: Clock, E: Write, L: Listen<Stream = S>>(
        mut self,
        settings: Settings,
        journal: &mut Journal<'_, C, E>,
        listener: &mut L,
    ) -> Result<Self, Fault>
        ensures whole { IfOk result (λ shell. IsWhole self.known shell.relay.node.records.queue.next
            shell.relay.node.records.spool.size) }
        ensures config { IfOk result (λ shell. KeepsConfig settings.config shell.relay.node.config) }
        ensures held { IfOk result (λ shell. shell.next_hops.lanes.held ≡ self.next_hops.lanes.held) }
        ensures same { IfOk result (λ shell. (shell.steering ≡ self.steering)
            × (shell.clients.stops ≡ self.clients.stops)) }
        ensures opened { IfOk result (λ shell. (clients_of shell.clients ≡ clients_of self.clients)
            × HasOpened D.Disk.honest D.Disk.words shell.relay) }
        ensures hops { IfOk result (λ shell. AreFree (hops_of shell.next_hops)) }
        ensures matches { IfOk result (λ shell. HopsMatch shell.next_hops shell.relay) }
    {
        let Settings {
            config,
            limits,
            balancers,
            allowed,
            control: _control,
            control_group: _,
        } = settings;
        self.clients.reconfigure(&limits, allowed);
        self.leaving.clear();
        self.leaving.set_timeout(u64::from(limits.client_timeout));
        self.acceptor.clear();
        self.acceptor.set_balancers(balancers);
        self.form = log_form(self.steering.source.quiet, &limits);
        self.opened(journal, listener, Why::Reloaded(config))
    }
}

/// Returns next hops without connections and without listed mail, with these limits, of which the same mail is held.
/// Fails if memory runs out.
fn hops_with<S: Stream + Drop>(
    alloc: Global,
    held: &Held,
    limits: &Limits,
) -> Result<NextHops<S>, AllocError>
    ensures { IfOk result (λ next_hops. HoldsAlike held.now next_hops.lanes.held) }
{
    let held = copy_held(alloc, held)?;
    let mut next_hops = NextHops::new(alloc, limits)?;
    next_hops.set_held(held);
    Ok(next_hops)
}

/// Returns the answer to a reload whose configuration has a fault.
fn fault_answer(alloc: Global, fault: &Fault) -> Answer
    ensures { IsError result }
{
    let text = format!(in alloc; "{fault}")?;
    refused(alloc, text.as_str().as_bytes())
}
