//! What a postmaster asks of a running relay, and how far it has come with it.
ghost use Rattle.std.specs.Prelude.{◌≡◌, ◌≤◌, ◌↔◌, IfErr, IfOk, IsTrue, List, MatchOption, MatchResult, OnOk};
ghost use Rattle.std.specs.Prelude.{false, option_copied, true};
ghost use Rattle.relay_book.specs.declared.change.Change.{Change};
ghost use Rattle.relay_connections.specs.Carried.{Setting};
ghost use Rattle.relay_connections.specs.Readiness.{clients_of};
ghost use Rattle.relay_connections.specs.Served.{AreServed};
ghost use Rattle.relay_next_hops.specs.Tables.{TablesMatch};
ghost use Rattle.relay_routes.specs.Routes.{Route};
ghost use Rattle.relay_run.specs.Answers.{IsText};
ghost use Rattle.relay_run.specs.Hops.{HopsMatch};
ghost use Rattle.relay_run.specs.Reloading.{ReloadsBy};
ghost use Rattle.relay_run.specs.Requests.{Flushes, FlushesThere, HoldsThere, Releases, Steers, is_there, missing_text};
ghost use Rattle.relay_run.specs.Serving.{AreServedOn};
ghost use Rattle.relay_run.specs.Steering.{DrainsBy, FailsToObey, IsDraining, IsWithdrawn, Obeys, TurnsAway};
ghost use Rattle.relay_run.specs.Withdrawing.{FailsAmong};

use crate::answers::{Answer, done, done_with_count, refused, withdrawn};
use crate::control::ControlSocket;
use crate::documents::Documents;
use crate::draining::Drain;
use crate::held_mail::HeldMail;
use crate::holding::held_line;
use crate::reload::Reload;
use crate::shell::Shell;
use crate::source::Source;
use crate::withdrawing::withdraw_each;
use mio::Registry;
use relay_book::Withdrawal;
use relay_connections::{Now, Stream};
use relay_control::{Named, Request, Scope, write_request};
use relay_disk::Disk;
use relay_files::Fault;
use relay_log::Log;
use std::alloc::{AllocError, Global};

/// The control socket, and what was asked for by it.
pub(crate) struct Steering {
    pub(crate) alloc: Global,
    pub(crate) socket: ControlSocket,
    pub(crate) held_mail: HeldMail,
    /// The drain that was asked for, if one was.
    pub(crate) drain: Option<Drain>,
    /// Where the configuration is read again.
    pub(crate) source: Source,
    /// The reload that waits, if one does.
    pub(crate) reload: Option<Reload>,
}

// Written out, so that what drops it calls this, and doesn't look into its parts.
impl Drop for Steering {
    fn drop(self) {
        let Steering {
            alloc: _,
            socket: _socket,
            held_mail: _held_mail,
            drain: _,
            source: _source,
            reload: _reload,
        } = self;
    }
}

impl Steering {
    /// Makes a steering by this socket. Nothing was asked for yet.
    pub(crate) fn new(
        alloc: Global,
        socket: ControlSocket,
        held_mail: HeldMail,
        source: Source,
    ) -> Self
        ensures { ¬ IsDraining result }
    {
        Steering {
            alloc,
            socket,
            held_mail,
            drain: None,
            source,
            reload: None,
        }
    }

    /// Returns whether a drain was asked for.
    pub(crate) fn is_draining(&self) -> bool
        ensures { IsTrue result ↔ IsDraining self.now }
    {
        self.drain.is_some()
    }

    /// Returns the tick of the next deadline, or `otherwise` if that is earlier.
    pub(crate) fn next_deadline(&self, otherwise: u64) -> u64
        ensures { result ≤ otherwise }
    {
        let next = self.socket.next_deadline(otherwise);
        let next = self.next_effect(next);
        match self.drain {
            Some(drain) => next.min(drain.until),
            None => next,
        }
    }

    /// Returns the tick at which the reload that waits takes effect at the latest, or `otherwise` if that is earlier.
    fn next_effect(&self, otherwise: u64) -> u64
        ensures { result ≤ otherwise }
    {
        match &self.reload {
            Some(reload) => otherwise.min(reload.until),
            None => otherwise,
        }
    }
}

impl<S: Stream + Drop, D: Disk + Drop, F: Disk + Drop> Shell<S, D, F> {
    /// Serves the control socket. Does what one caller asks for, if one does, and logs that. Clients are served as
    /// before, also where their mail was withdrawn. Fails only if the device has failed.
    pub(crate) fn steer<O: Documents>(
        &mut self,
        files: &O,
        registry: &Registry,
        now: &Now,
        log: &mut Log<'_, Vec<u8>>,
    ) -> Result<(), Fault>
        ensures fault { IfErr result (λ fault. fault ≡ Fault.Device) }
        ensures away { TurnsAway self.old.steering self.old.clients → TurnsAway self.new.steering self.new.clients }
        ensures served { (changes : List Change) (setting : Setting)
            → AreServed D.honest D.words S.remaining S.contents changes setting (clients_of self.old.clients)
            self.old.relay → OnOk result (AreServedOn D.honest D.words S.remaining S.contents changes setting
            (clients_of self.old.clients) (clients_of self.new.clients) self.new.relay) }
        ensures matches { HopsMatch self.old.next_hops self.old.relay
            → OnOk result (HopsMatch self.new.next_hops self.new.relay) }
    {
        let Some((caller, request)) = self.steering.socket.serve(registry, now) else {
            return Ok(());
        };
        log_request(self.steering.alloc, &request, log);
        if let Some(answer) = self.obey(files, caller, request, now, log)? {
            self.steering.socket.answer(caller, answer);
        }
        Ok(())
    }

    /// Does what a caller asks for, and returns its answer; `None` for a drain and for a reload, which are answered
    /// when they are done. Fails only if the device has failed.
    pub(crate) fn obey<O: Documents>(
        &mut self,
        files: &O,
        caller: usize,
        request: Request,
        now: &Now,
        log: &mut Log<'_, Vec<u8>>,
    ) -> Result<Option<Answer>, Fault>
        ensures obeys { IfOk result (Obeys D.honest D.words now.now.moment request self.old.relay self.new.relay) }
        ensures failed { IfErr result (λ fault. (fault ≡ Fault.Device)
            × FailsToObey D.honest D.words now.now.moment request self.old.relay self.new.relay) }
        ensures steers { IfOk result (Steers self.old.relay.node self.old.next_hops self.new.next_hops
            O.has_replaced files.now self.old.steering.held_mail request) }
        ensures drains { DrainsBy now.now.tick caller request self.old.steering.drain self.new.steering.drain
            self.old.clients self.new.clients }
        ensures reloads { MatchResult result (ReloadsBy O.has_read files.now self.old.relay.node.config now.now.tick
            caller request self.old.steering self.new.steering self.old.clients self.new.clients)
            (λ _. self.new.steering.reload ≡ self.old.steering.reload) }
        ensures rest { (self.new.leaving ≡ self.old.leaving) × (self.new.acceptor ≡ self.old.acceptor)
            × (self.new.room ≡ self.old.room) }
        ensures matches { (routes : List Route) → TablesMatch routes self.old.next_hops
            → TablesMatch routes self.new.next_hops }
    {
        match request {
            Request::Flush(scope) => match &scope {
                Some(scope) => Ok(Some(self.flush(scope, now)?)),
                None => Ok(Some(self.flush_all(None, now)?)),
            },
            Request::Hold(scope) => Ok(Some(self.hold(files, scope))),
            Request::Release(scope) => Ok(Some(self.release(files, &scope))),
            Request::Return(names) => {
                let answer = self.withdraw(names.as_slice(), Withdrawal::Return, now, log)?;
                Ok(Some(answer))
            }
            Request::Discard(names) => {
                let answer = self.withdraw(names.as_slice(), Withdrawal::Discard, now, log)?;
                Ok(Some(answer))
            }
            Request::Reload => Ok(self.begin_reload(files, caller, now)),
            Request::Drain { seconds } => {
                self.begin_drain(caller, seconds, now);
                Ok(None)
            }
        }
    }

    /// Lists mail to be tried now, due or not, and returns the answer. Fails only if the device has failed.
    fn flush(&mut self, scope: &Scope, now: &Now) -> Result<Answer, Fault>
        ensures flushes { IfOk result (FlushesThere self.old.relay.node self.old.next_hops self.new.next_hops
            scope.now) }
        ensures fault { IfErr result (λ fault. (fault ≡ Fault.Device)
            × (self.old.relay.node.records.spool.live ≡ false)) }
        ensures relay { self.new.relay ≡ self.old.relay }
        ensures drain { (self.new.steering.drain ≡ self.old.steering.drain)
            × (self.new.steering.reload ≡ self.old.steering.reload) }
        ensures rest { (self.new.clients ≡ self.old.clients) × (self.new.leaving ≡ self.old.leaving)
            × (self.new.acceptor ≡ self.old.acceptor) × (self.new.room ≡ self.old.room) }
        ensures matches { (routes : List Route) → TablesMatch routes self.old.next_hops
            → TablesMatch routes self.new.next_hops }
    {
        if let Some(answer) = self.refusal(scope) {
            return Ok(answer);
        }
        self.flush_all(Some(scope), now)
    }

    /// Lists mail that is there, or all queued mail, to be tried now, and returns the answer. Fails only if the device
    /// has failed.
    fn flush_all(&mut self, scope: Option<&Scope>, now: &Now) -> Result<Answer, Fault>
        ensures flushes { IfOk result (Flushes self.old.relay.node self.old.next_hops self.new.next_hops
            (option_copied scope.entry)) }
        ensures fault { IfErr result (λ fault. (fault ≡ Fault.Device)
            × (self.old.relay.node.records.spool.live ≡ false)) }
        ensures relay { self.new.relay ≡ self.old.relay }
        ensures drain { (self.new.steering.drain ≡ self.old.steering.drain)
            × (self.new.steering.reload ≡ self.old.steering.reload) }
        ensures rest { (self.new.clients ≡ self.old.clients) × (self.new.leaving ≡ self.old.leaving)
            × (self.new.acceptor ≡ self.old.acceptor) × (self.new.room ≡ self.old.room) }
        ensures matches { (routes : List Route) → TablesMatch routes self.old.next_hops
            → TablesMatch routes self.new.next_hops }
    {
        let alloc = self.steering.alloc;
        match self.next_hops.flush(&self.relay, scope, now) {
            Ok(count) => Ok(done_with_count(alloc, "flushed recipients=", count)),
            Err(Fault::Device) => Err(Fault::Device),
            // Memory ran out: there is no other fault.
            Err(_) => Ok(Err(AllocError)),
        }
    }

    /// Holds mail, in the file of held mail too, and returns the answer. If the file can't be written, mail that wasn't
    /// held stays so.
    fn hold<O: Documents>(&mut self, files: &O, scope: Scope) -> Answer
        ensures holds { HoldsThere self.old.relay.node self.old.next_hops self.new.next_hops O.has_replaced files.now
            self.old.steering.held_mail scope result }
        ensures relay { self.new.relay ≡ self.old.relay }
        ensures drain { (self.new.steering.drain ≡ self.old.steering.drain)
            × (self.new.steering.reload ≡ self.old.steering.reload) }
        ensures rest { (self.new.clients ≡ self.old.clients) × (self.new.leaving ≡ self.old.leaving)
            × (self.new.acceptor ≡ self.old.acceptor) × (self.new.room ≡ self.old.room) }
        ensures matches { (routes : List Route) → TablesMatch routes self.old.next_hops
            → TablesMatch routes self.new.next_hops }
    {
        if let Some(answer) = self.refusal(&scope) {
            return answer;
        }
        let alloc = self.steering.alloc;
        let undo = copy_of(alloc, &scope)?;
        let is_new = self.next_hops.hold(scope)?;
        if self.steering.held_mail.write(files, self.next_hops.held()) {
            let line = held_line(alloc, &self.relay, &undo, is_new)?;
            return done(alloc, line.as_slice());
        }
        let reason = b"the file of held mail can't be written";
        if !is_new {
            return refused(alloc, reason);
        }
        self.next_hops.release(&undo);
        refused(alloc, reason)
    }

    /// Releases mail, in the file of held mail too, and returns the answer. If the file can't be written, the mail is
    /// held again when the relay is started again, and the answer says so.
    fn release<O: Documents>(&mut self, files: &O, scope: &Scope) -> Answer
        ensures releases { Releases self.old.relay.node self.old.next_hops self.new.next_hops O.has_replaced files.now
            self.old.steering.held_mail scope.now result }
        ensures relay { self.new.relay ≡ self.old.relay }
        ensures drain { (self.new.steering.drain ≡ self.old.steering.drain)
            × (self.new.steering.reload ≡ self.old.steering.reload) }
        ensures rest { (self.new.clients ≡ self.old.clients) × (self.new.leaving ≡ self.old.leaving)
            × (self.new.acceptor ≡ self.old.acceptor) × (self.new.room ≡ self.old.room) }
        ensures matches { (routes : List Route) → TablesMatch routes self.old.next_hops
            → TablesMatch routes self.new.next_hops }
    {
        let alloc = self.steering.alloc;
        // Mail that has left the queue since can be released too.
        if !self.next_hops.release(scope) {
            return refused(alloc, b"it isn't held");
        }
        if self.steering.held_mail.write(files, self.next_hops.held()) {
            return done(alloc, b"released");
        }
        refused(
            alloc,
            b"released until the relay restarts: the file of held mail can't be written",
        )
    }

    /// Withdraws the named places, message by message, and returns the answer. Fails only if the device has failed.
    fn withdraw(
        &mut self,
        names: &[Named],
        withdrawal: Withdrawal,
        now: &Now,
        log: &mut Log<'_, Vec<u8>>,
    ) -> Result<Answer, Fault>
        ensures withdraws { IfOk result (IsWithdrawn D.honest D.words now.now.moment withdrawal names.now
            self.old.relay self.new.relay) }
        ensures failed { IfErr result (λ fault. (fault ≡ Fault.Device) × FailsAmong D.honest D.words now.now.moment
            withdrawal names.now self.old.relay self.new.relay) }
        ensures drain { (self.new.steering.drain ≡ self.old.steering.drain)
            × (self.new.steering.reload ≡ self.old.steering.reload) }
        ensures hops { self.new.next_hops ≡ self.old.next_hops }
        ensures rest { (self.new.clients ≡ self.old.clients) × (self.new.leaving ≡ self.old.leaving)
            × (self.new.acceptor ≡ self.old.acceptor) × (self.new.room ≡ self.old.room) }
    {
        let alloc = self.steering.alloc;
        let Ok(outcomes) = Vec::with_capacity(alloc, names.len()) else {
            return Ok(Err(AllocError));
        };
        let mut outcomes = outcomes;
        withdraw_each(&mut self.relay, names, withdrawal, &mut outcomes, now, log)?;
        self.tidying.note_shrunk();
        Ok(withdrawn(alloc, withdrawal, names, outcomes.as_slice()))
    }

    /// Returns the answer to a request for mail that isn't there: no route has the next hop, or the message isn't
    /// queued. Returns `None` if it is there.
    fn refusal(&self, scope: &Scope) -> Option<Answer>
        ensures { MatchOption result (is_there self.now.relay.node scope.now ≡ true)
            (λ answer. (is_there self.now.relay.node scope.now ≡ false) × IsText answer (missing_text scope.now)) }
    {
        let alloc = self.steering.alloc;
        let node = self.relay.node();
        match scope {
            Scope::Hop(name) => match node.config().routes.place_of(name.as_slice()) {
                Some(_) => None,
                None => Some(refused(alloc, b"no route has this next hop")),
            },
            Scope::Message(number) => match node.message(*number) {
                Some(_) => None,
                None => Some(not_queued(alloc, *number)),
            },
        }
    }
}

/// Logs a request. If memory runs out, it isn't logged.
pub(crate) fn log_request(alloc: Global, request: &Request, log: &mut Log<'_, Vec<u8>>) {
    if let Ok(line) = write_request(alloc, request) {
        if let Some(text) = line.as_slice().strip_suffix(b"\n") {
            log.steered(text);
        }
    }
}

/// Returns a copy of a scope. Fails if memory runs out.
fn copy_of(alloc: Global, scope: &Scope) -> Result<Scope, AllocError>
    ensures { IfOk result (λ copy. copy ≡ scope.now) }
{
    match scope {
        Scope::Hop(name) => Ok(Scope::Hop(name.copy(alloc)?)),
        Scope::Message(number) => Ok(Scope::Message(*number)),
    }
}

/// Returns the answer to a request for a message that isn't queued.
fn not_queued(alloc: Global, number: u64) -> Answer
    ensures { IsText result (missing_text (Scope.Message number)) }
{
    let reason = format!(in alloc; "message {number} isn't queued")?;
    refused(alloc, reason.as_str().as_bytes())
}
