//! The turns of a relay, whatever surrounds it: each waits for readiness, and does what can be done at once.
ghost use Rattle.std.specs.Prelude.{◌≡◌, ◌≤◌, ◌-◌, ℕ, IfOk, IsTrue, List, OnOk};
ghost use Rattle.relay_book.specs.declared.change.Change.{Change};
ghost use Rattle.relay_connections.specs.Carried.{Setting};
ghost use Rattle.relay_connections.specs.Readiness.{IsLeftClient, clients_of};
ghost use Rattle.relay_connections.specs.Served.{AreServed};
ghost use Rattle.relay_next_hops.specs.Lanes.{next_due_of};
ghost use Rattle.relay_next_hops.specs.Readiness.{IsLeftHop, hops_of};
ghost use Rattle.relay_run.specs.Hops.{HopsMatch};
ghost use Rattle.relay_run.specs.Room.{next_look};
ghost use Rattle.relay_run.specs.Serving.{AreServedLater, AreServedLaterOrAgain, AreServedOn, ServesNoneOrOn};
ghost use Rattle.relay_run.specs.Steering.{HasDrained, MayBegin};
ghost use Rattle.relay_run.specs.declared.waiting.TheConstants.{LONGEST_WAIT};

use crate::control::ControlSocket;
use crate::device::Device;
use crate::documents::Documents;
use crate::journal::Journal;
use crate::listen::Listen;
use crate::room::Ballast;
use crate::shell::Shell;
use mio::Registry;
use relay_connections::{Now, Readiness, Stream};
use relay_disk::Disk;
use relay_files::Fault;
use relay_log::Counters;
use relay_loop::Relay;
use relay_next_hops::Dial;
use relay_status::Connections;
use std::io::Write;
use std::rt::Clock;

/// Where callers of the control socket are registered, and the files that their requests read and write.
pub struct Control<'a, O> {
    pub registry: &'a Registry,
    pub files: &'a O,
}

/// What reports the readiness of a relay's streams, and what shows and steers the relay. Nothing is promised of its
/// reports.
pub trait Watch<S: Stream, D: Disk> {
    ghost use Rattle.std.specs.Prelude.{◌≤◌};

    /// The files of a postmaster's requests.
    type Files: Documents;

    /// Returns what streams are registered at.
    fn registry(&self) -> &S::Registry;

    /// Returns this wait, in milliseconds, or a shorter one if something else must be done before its end.
    fn shortened(&self, milliseconds: u64, now: &Now) -> u64
        ensures { result ≤ milliseconds };

    /// Waits until something may be ready, but no longer than this many milliseconds.
    fn wait(&mut self, milliseconds: u64);

    /// Returns a report of the last wait that wasn't taken yet: a token, and what may be ready under it. `None`: there
    /// is no other.
    fn take_report(&mut self) -> Option<(usize, Readiness)>;

    /// Shows the state of the relay.
    fn show(
        &mut self,
        relay: &Relay<D>,
        connections: Connections<'_>,
        counters: &Counters,
        now: &Now,
    );

    /// Returns where the relay is steered from; `None` if nobody steers it.
    fn control(&self) -> Option<Control<'_, Self::Files>>;
}

/// What surrounds a running relay: the clocks, where clients come from, what opens streams to next hops, and what
/// reports readiness.
pub struct Surroundings<'a, C, L, N, W> {
    pub clock: &'a C,
    pub listener: L,
    pub dial: N,
    pub watch: W,
}

// Written out, so that the proof of a caller that drops it stops at this function.
impl<C, L: Drop, N: Drop, W: Drop> Drop for Surroundings<'_, C, L, N, W> {
    fn drop(self) {
        let Surroundings {
            clock: _,
            listener: _listener,
            dial: _dial,
            watch: _watch,
        } = self;
    }
}

impl<S: Stream + Drop, D: Device + Drop, F: Ballast + Drop> Shell<S, D, F> {
    /// Serves until the relay has drained, and returns it then; or until a fault ends it. Clients are served all the
    /// time, as [`turns`](Shell::turns) says.
    pub fn serve<C: Clock, L: Listen<Stream = S>, N: Dial<Stream = S>, W: Watch<S, D>, E: Write>(
        self,
        around: &mut Surroundings<'_, C, L, N, W>,
        journal: &mut Journal<'_, C, E>,
    ) -> Result<Self, Fault>
        ensures drained { IfOk result (λ shell. (tick : ℕ) × HasDrained shell.steering shell.next_hops tick) }
        ensures served { (changes : List Change) (setting : Setting)
            → AreServed D.Disk.honest D.Disk.words S.remaining S.contents changes setting (clients_of self.clients)
            self.relay → IfOk result (λ after. AreServedLaterOrAgain D.Disk.honest D.Disk.words S.remaining S.contents
            changes setting (clients_of after.clients) after.relay) }
        ensures matches { HopsMatch self.next_hops self.relay
            → IfOk result (λ after. HopsMatch after.next_hops after.relay) }
    {
        let mut shell = self;
        for _ in 0..u64::MAX {
            shell = shell.next_turn(around, journal)?;
            if shell.has_ended(around) {
                return Ok(shell);
            }
        }
        // This many turns never pass.
        Err(Fault::Socket)
    }

    /// Takes this many turns, each after a wait, and goes on after each. Clients are served all the time: those that
    /// the relay had, and those that come; if its spool is opened again, those that come after that. Fails if a fault
    /// ends the relay.
    pub fn turns<C: Clock, L: Listen<Stream = S>, N: Dial<Stream = S>, W: Watch<S, D>, E: Write>(
        self,
        around: &mut Surroundings<'_, C, L, N, W>,
        journal: &mut Journal<'_, C, E>,
        count: u64,
    ) -> Result<Self, Fault>
        ensures served { (changes : List Change) (setting : Setting)
            → AreServed D.Disk.honest D.Disk.words S.remaining S.contents changes setting (clients_of self.clients)
            self.relay → IfOk result (λ after. AreServedLaterOrAgain D.Disk.honest D.Disk.words S.remaining S.contents
            changes setting (clients_of after.clients) after.relay) }
        ensures matches { HopsMatch self.next_hops self.relay
            → IfOk result (λ after. HopsMatch after.next_hops after.relay) }
    {
        let mut shell = self;
        for _ in 0..count {
            shell = shell.next_turn(around, journal)?;
        }
        Ok(shell)
    }

    /// Waits, takes a turn, and goes on after it.
    fn next_turn<C: Clock, L: Listen<Stream = S>, N: Dial<Stream = S>, W: Watch<S, D>, E: Write>(
        self,
        around: &mut Surroundings<'_, C, L, N, W>,
        journal: &mut Journal<'_, C, E>,
    ) -> Result<Self, Fault>
        ensures served { IfOk result (λ after. ServesNoneOrOn D.Disk.honest D.Disk.words S.remaining S.contents
            (clients_of self.clients) (clients_of after.clients) self.relay after.relay) }
        ensures matches { HopsMatch self.next_hops self.relay
            → IfOk result (λ after. HopsMatch after.next_hops after.relay) }
    {
        let mut shell = self;
        shell.hear_reports(around, journal);
        let end = shell.take_turn(around, journal);
        let now = Now::of(around.clock);
        shell.resumed(&mut around.listener, end, &now, journal)
    }

    /// Waits until something can be done, and notes what may be ready.
    fn hear_reports<C: Clock, L, N, W: Watch<S, D>, E: Write>(
        &mut self,
        around: &mut Surroundings<'_, C, L, N, W>,
        journal: &Journal<'_, C, E>,
    )
        ensures served { (changes : List Change) (setting : Setting)
            → AreServed D.Disk.honest D.Disk.words S.remaining S.contents changes setting (clients_of self.old.clients)
            self.old.relay → AreServed D.Disk.honest D.Disk.words S.remaining S.contents changes setting
            (clients_of self.new.clients) self.new.relay }
        ensures matches { HopsMatch self.old.next_hops self.old.relay
            → HopsMatch self.new.next_hops self.new.relay }
    {
        let now = Now::of(around.clock);
        let wait = journal.shortened(self.next_wait(&around.watch, &now), &now);
        around.watch.wait(wait);
        for _ in 0..u64::MAX {
            match around.watch.take_report() {
                Some((token, ready)) => self.note_under(token, ready),
                None => return,
            }
        }
    }

    /// Returns how many milliseconds to wait, at most as long as both the relay and its watch allow.
    fn next_wait<W: Watch<S, D>>(&self, watch: &W, now: &Now) -> u64
        ensures client { (number : ℕ) → IsLeftClient (clients_of self.now.clients) self.now.relay number
            → result ≡ 0 }
        ensures hop { (number : ℕ) → IsLeftHop (hops_of self.now.next_hops) self.now.relay number → result ≡ 0 }
        ensures due { MayBegin self.now.steering self.now.room self.now.relay.node.records.spool.size
            → result ≤ next_due_of self.now.next_hops - now.now.tick }
        ensures look { result ≤ next_look self.now.room.standing self.now.room - now.now.tick }
        ensures longest { result ≤ LONGEST_WAIT }
    {
        watch.shortened(self.wait(now), now)
    }

    /// Notes what a stream, the listener, the control socket or one of its callers may be ready for.
    fn note_under(&mut self, token: usize, ready: Readiness)
        ensures served { (changes : List Change) (setting : Setting)
            → AreServed D.Disk.honest D.Disk.words S.remaining S.contents changes setting (clients_of self.old.clients)
            self.old.relay → AreServed D.Disk.honest D.Disk.words S.remaining S.contents changes setting
            (clients_of self.new.clients) self.new.relay }
        ensures matches { HopsMatch self.old.next_hops self.old.relay
            → HopsMatch self.new.next_hops self.new.relay }
    {
        if token < ControlSocket::TOKEN {
            self.note(token, ready);
        } else {
            self.steering
                .socket
                .note(token - ControlSocket::TOKEN, ready);
        }
    }

    /// Takes a turn, shows the relay, does what a postmaster asks for, and makes the spool's other file shorter.
    fn take_turn<C: Clock, L: Listen<Stream = S>, N: Dial<Stream = S>, W: Watch<S, D>, E: Write>(
        &mut self,
        around: &mut Surroundings<'_, C, L, N, W>,
        journal: &mut Journal<'_, C, E>,
    ) -> Result<(), Fault>
        ensures served { (changes : List Change) (setting : Setting)
            → AreServed D.Disk.honest D.Disk.words S.remaining S.contents changes setting (clients_of self.old.clients)
            self.old.relay → OnOk result (AreServedLater D.Disk.honest D.Disk.words S.remaining S.contents changes
            setting (clients_of self.new.clients) self.new.relay) }
        ensures matches { HopsMatch self.old.next_hops self.old.relay
            → OnOk result (HopsMatch self.new.next_hops self.new.relay) }
    {
        let now = Now::of(around.clock);
        self.advance(
            &mut around.listener,
            &mut around.dial,
            around.watch.registry(),
            &now,
            journal,
        )?;
        self.show(&mut around.watch, &journal.counters, &now);
        self.obey_caller(&around.watch, &now, journal)?;
        self.note_known();
        self.trim()
    }

    /// Shows the state of the relay.
    fn show<W: Watch<S, D>>(&self, watch: &mut W, counters: &Counters, now: &Now) {
        let connections = Connections {
            sessions: self.clients.count() as u64,
            attempts: self.next_hops.running() as u64,
            replies: self.next_hops.last_replies(),
        };
        watch.show(&self.relay, connections, counters, now);
    }

    /// Does what a caller of the control socket asks for, if somebody may steer, and writes the log lines of that.
    fn obey_caller<C: Clock, W: Watch<S, D>, E: Write>(
        &mut self,
        watch: &W,
        now: &Now,
        journal: &mut Journal<'_, C, E>,
    ) -> Result<(), Fault>
        ensures served { (changes : List Change) (setting : Setting)
            → AreServed D.Disk.honest D.Disk.words S.remaining S.contents changes setting (clients_of self.old.clients)
            self.old.relay → OnOk result (AreServedOn D.Disk.honest D.Disk.words S.remaining S.contents changes setting
            (clients_of self.old.clients) (clients_of self.new.clients) self.new.relay) }
        ensures matches { HopsMatch self.old.next_hops self.old.relay
            → OnOk result (HopsMatch self.new.next_hops self.new.relay) }
    {
        let Some(Control { registry, files }) = watch.control() else {
            return Ok(());
        };
        let end = self.steer(files, registry, now, &mut journal.log(now));
        journal.write();
        end
    }

    /// Returns whether the relay has drained, and answers the caller that has asked for it then.
    fn has_ended<C: Clock, L, N, W: Watch<S, D>>(
        &mut self,
        around: &Surroundings<'_, C, L, N, W>,
    ) -> bool
        ensures drained { IsTrue result → (tick : ℕ) × HasDrained self.new.steering self.new.next_hops tick }
        ensures rest { (self.new.relay ≡ self.old.relay) × (self.new.clients ≡ self.old.clients)
            × (self.new.next_hops ≡ self.old.next_hops) }
    {
        match around.watch.control() {
            Some(Control { registry, files: _ }) => {
                self.has_drained(registry, &Now::of(around.clock))
            }
            None => false,
        }
    }
}
