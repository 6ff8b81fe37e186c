//! A running relay without a system: over any streams, disks and ballast file, without a control socket and a page.
ghost use Rattle.std.specs.Prelude.{◌≡◌, ◌↔◌, IfErr, IfOk, IsTrue, List, MatchResult, OnOk};
ghost use Rattle.relay_book.specs.declared.change.Change.{Change};
ghost use Rattle.relay_connections.specs.Carried.{Setting};
ghost use Rattle.relay_connections.specs.Readiness.{clients_of};
ghost use Rattle.relay_connections.specs.Served.{AreServed};
ghost use Rattle.relay_run.specs.Hops.{HopsMatch};
ghost use Rattle.relay_run.specs.Reloading.{IsReloading, ReloadsBy};
ghost use Rattle.relay_run.specs.Requests.{Steers};
ghost use Rattle.relay_run.specs.Serving.{AreServedOn};
ghost use Rattle.relay_run.specs.Steering.{DrainsBy, FailsToObey, Obeys};
ghost use Rattle.relay_run.specs.declared.unsteered.TheConstants.{NOBODY};

use crate::acceptor::Acceptor;
use crate::answers::Answer;
use crate::control::ControlSocket;
use crate::device::Device;
use crate::documents::Documents;
use crate::held_mail::HeldMail;
use crate::journal::Journal;
use crate::room::{Ballast, Room};
use crate::shell::Shell;
use crate::source::Source;
use crate::start::{Settings, relay_beside};
use crate::steering::{Steering, log_request};
use relay_connections::{Now, Stream};
use relay_control::Request;
use relay_disk::Disks;
use relay_files::Fault;
use relay_node::{Node, NotOpened};
use std::alloc::Global;
use std::io::Write;
use std::rt::Clock;

/// The number of the caller in whose name a relay without a control socket does what it is asked for. Nobody has it.
const NOBODY: usize = 0;

impl<S: Stream + Drop, D: Device + Drop, F: Ballast + Drop> Shell<S, D, F> {
    /// Starts a relay over the spool on these disks, beside this ballast file, with these settings. It has no control
    /// socket, and nothing is held. Fails if the disks have no spool, a disk fails, or memory runs out.
    pub fn unsteered(
        alloc: Global,
        settings: Settings,
        disks: Disks<D>,
        ballast: F,
    ) -> Result<Self, Fault>
        ensures { IfOk result (λ shell. HopsMatch shell.next_hops shell.relay) }
    {
        let Settings {
            config,
            limits,
            balancers,
            allowed,
            control: _control,
            control_group: _,
        } = settings;
        let held_mail = HeldMail::beside(alloc, config.spool.as_str())?;
        let room = Room::beside(ballast, &config);
        let node = match Node::open(alloc, config, disks) {
            Ok(node) => node,
            Err(NotOpened { cause, disk: _disk }) => return Err(Fault::from(cause)),
        };
        let (relay, room) = relay_beside(alloc, node, room)?;
        let source = Source {
            path: String::new(alloc),
            quiet: false,
            control: None,
            control_group: None,
            status_port: None,
        };
        let steering = Steering::new(alloc, ControlSocket::none(alloc)?, held_mail, source);
        let acceptor = Acceptor::new(alloc, balancers)?;
        let mut shell = Shell::new(alloc, relay, acceptor, room, steering, &limits, allowed)?;
        shell.next_hops.prepare(&shell.relay)?;
        Ok(shell)
    }

    /// Does what a request asks for, as if a caller of the control socket had sent it, and writes the log line of that.
    /// Returns the answer; `None` for a drain, and for a reload that waits: these are done later. Clients are served as
    /// before, also where their mail was withdrawn. Fails only if the device has failed. As after a turn, the relay
    /// goes on by [`resumed`](Shell::resumed) in any case.
    pub fn ask<C: Clock, O: Documents, E: Write>(
        &mut self,
        files: &O,
        request: Request,
        now: &Now,
        journal: &mut Journal<'_, C, E>,
    ) -> Result<Option<Answer>, Fault>
        ensures obeys { IfOk result (Obeys D.Disk.honest D.Disk.words now.now.moment request self.old.relay
            self.new.relay) }
        ensures failed { IfErr result (λ fault. (fault ≡ Fault.Device)
            × FailsToObey D.Disk.honest D.Disk.words now.now.moment request self.old.relay self.new.relay) }
        ensures steers { IfOk result (Steers self.old.relay.node self.old.next_hops self.new.next_hops
            O.has_replaced files.now self.old.steering.held_mail request) }
        ensures drains { DrainsBy now.now.tick NOBODY request self.old.steering.drain self.new.steering.drain
            self.old.clients self.new.clients }
        ensures reloads { MatchResult result (ReloadsBy O.has_read files.now self.old.relay.node.config now.now.tick
            NOBODY request self.old.steering self.new.steering self.old.clients self.new.clients)
            (λ _. self.new.steering.reload ≡ self.old.steering.reload) }
        ensures rest { (self.new.leaving ≡ self.old.leaving) × (self.new.acceptor ≡ self.old.acceptor)
            × (self.new.room ≡ self.old.room) }
        ensures known { OnOk result ((self.new.known.next_number ≡ self.new.relay.node.records.queue.next)
            × (self.new.known.size ≡ self.new.relay.node.records.spool.size)) }
        ensures served { (changes : List Change) (setting : Setting)
            → AreServed D.Disk.honest D.Disk.words S.remaining S.contents changes setting (clients_of self.old.clients)
            self.old.relay → OnOk result (AreServedOn D.Disk.honest D.Disk.words S.remaining S.contents changes setting
            (clients_of self.old.clients) (clients_of self.new.clients) self.new.relay) }
        ensures matches { HopsMatch self.old.next_hops self.old.relay
            → OnOk result (HopsMatch self.new.next_hops self.new.relay) }
    {
        journal.form = self.form;
        let mut log = journal.log(now);
        log_request(self.steering.alloc, &request, &mut log);
        let end = self.obey(files, NOBODY, request, now, &mut log);
        journal.write();
        let answer = end?;
        self.note_known();
        Ok(answer)
    }

    /// Returns whether a reload was asked for that hasn't taken effect.
    pub fn is_reloading(&self) -> bool
        ensures { IsTrue result ↔ IsReloading self.now.steering }
    {
        self.steering.is_reloading()
    }

    /// Returns the relay's node.
    pub fn node(&self) -> &Node<D> {
        self.relay.node()
    }
}
