//! What the relay of the box does in a turn and when it is asked for something, and the answers that say so.
use crate::answer::Answer;
use crate::clock::BoxClock;
use crate::dial::{BoxDial, Dialled};
use crate::files::BoxFiles;
use crate::listener::BoxListener;
use crate::simulation::{BoxShell, Simulation};
use crate::watch::BoxWatch;
use crate::words::unread;
use crate::world::Wire;
use relay_connections::Now;
use relay_control::{Request, read_request};
use relay_files::Fault;
use relay_run::{Journal, Surroundings};
use std::alloc::AllocError;
use std::{io, mem};

/// The answer to a request; `None` if it comes later.
type Reply = Option<Result<Vec<u8>, AllocError>>;

impl Simulation<'_> {
    /// Reports what connections may be ready for, lets the relay take a turn, and answers what it did.
    pub(crate) fn turn(&mut self) -> io::Result<()> {
        for wire in self.wires.iter() {
            if let Some(report) = wire.take_event() {
                self.around.watch.reports.push_back(report)?;
            }
        }
        let ended = match self.shell.take() {
            Some(shell) => self.turn_of(shell),
            None => Ok(u64::MAX),
        };
        self.tell(&ended)
    }

    /// Lets a relay do what a line of the control socket asks for, and answers what it did.
    pub(crate) fn ask(&mut self, line: &str) -> io::Result<()> {
        match read_request(self.alloc, line.as_bytes())? {
            Ok(request) => self.ask_for(request),
            Err(_) => Err(unread()),
        }
    }

    /// Lets a relay do what it is asked for, and answers what it did.
    fn ask_for(&mut self, request: Request) -> io::Result<()> {
        match self.shell.take() {
            Some(shell) => {
                let (reply, ended) = self.ask_of(shell, request);
                self.tell_reply(reply)?;
                self.tell(&ended)
            }
            None => self.tell(&Ok(u64::MAX)),
        }
    }

    /// Lets a relay take a turn, and keeps it. Returns how long it would wait, in milliseconds.
    fn turn_of(&mut self, shell: BoxShell) -> Result<u64, Fault> {
        let end = self.turned(shell);
        self.keep(end)
    }

    /// Lets a relay take a turn. Returns it, and how long it would wait, in milliseconds.
    fn turned(&mut self, shell: BoxShell) -> Result<(u64, BoxShell), Fault> {
        let (clock, minutes) = (self.around.clock, self.minutes);
        let mut journal = Journal::new(self.alloc, clock, &mut self.log);
        journal.minutes = minutes;
        let end = after_turn(shell, &mut self.around, &mut journal);
        let minutes = journal.minutes;
        self.minutes = minutes;
        end
    }

    /// Lets a relay do what it is asked for, as between two turns, and keeps it. Returns its answer, and how long it
    /// would wait, in milliseconds.
    fn ask_of(&mut self, shell: BoxShell, request: Request) -> (Reply, Result<u64, Fault>) {
        let (reply, end) = self.asked(shell, request);
        (reply, self.keep(end))
    }

    /// Lets a relay do what it is asked for, as between two turns. Returns its answer, the relay, and how long it would
    /// wait, in milliseconds.
    fn asked(
        &mut self,
        shell: BoxShell,
        request: Request,
    ) -> (Reply, Result<(u64, BoxShell), Fault>) {
        let (clock, minutes) = (self.around.clock, self.minutes);
        let mut journal = Journal::new(self.alloc, clock, &mut self.log);
        journal.minutes = minutes;
        let mut shell = shell;
        let now = Now::of(clock);
        let (reply, end) = reply_of(&mut shell, &self.files, request, &now, &mut journal);
        let end = after_request(shell, &mut self.around, end, &now, &mut journal);
        let minutes = journal.minutes;
        self.minutes = minutes;
        (reply, end)
    }

    /// Keeps a relay that goes on. Returns how long it would wait, in milliseconds.
    fn keep(&mut self, end: Result<(u64, BoxShell), Fault>) -> Result<u64, Fault> {
        match end {
            Ok((wait, shell)) => {
                self.shell = Some(shell);
                Ok(wait)
            }
            Err(fault) => Err(fault),
        }
    }

    /// Answers what the relay answers to a request.
    fn tell_reply(&mut self, reply: Reply) -> io::Result<()> {
        match reply {
            Some(Ok(octets)) => self.answer.push_answer(octets.as_slice()),
            Some(Err(AllocError)) => Err(io::Error::from(io::ErrorKind::OutOfMemory)),
            None => Ok(()),
        }
    }

    /// Answers what the relay has done, which ended with a wait, in milliseconds, or with a fault.
    fn tell(&mut self, ended: &Result<u64, Fault>) -> io::Result<()> {
        self.tell_connections()?;
        self.tell_clock()?;
        self.tell_log()?;
        self.tell_reload()?;
        match ended {
            Ok(wait) => self.answer.push_number("done", *wait),
            Err(fault) => self.fail(fault),
        }
    }

    /// Answers what the clocks show, if the relay has slept.
    fn tell_clock(&mut self) -> io::Result<()> {
        let clock = self.around.clock;
        if !clock.take_slept() {
            return Ok(());
        }
        let (seconds, milliseconds) = (clock.seconds.get(), clock.milliseconds.get());
        self.answer.push_numbers("clock", seconds, milliseconds)
    }

    /// Answers whether a reload waits.
    fn tell_reload(&mut self) -> io::Result<()> {
        match &self.shell {
            Some(shell) if shell.is_reloading() => self.answer.push_word("reloading"),
            _ => Ok(()),
        }
    }

    /// Answers what the relay has done on each connection.
    fn tell_connections(&mut self) -> io::Result<()> {
        let dialled = mem::replace(&mut self.around.dial.dialled, Vec::new(self.alloc));
        for Dialled { at, wire } in dialled {
            match wire {
                Some(wire) => {
                    self.answer
                        .push_named("dial", self.wires.len() as u64, &at)?;
                    self.wires.push(wire)?;
                }
                None => self.answer.push_text("refused", &at)?,
            }
        }
        for (number, wire) in self.wires.iter().enumerate() {
            tell_connection(&mut self.answer, number as u64, wire)?;
        }
        Ok(())
    }

    /// Answers the lines of the log.
    fn tell_log(&mut self) -> io::Result<()> {
        for line in self.log.as_slice().split(|octet| *octet == b'\n') {
            if !line.is_empty() {
                self.answer.push_line("log", line)?;
            }
        }
        self.log.clear();
        Ok(())
    }
}

/// Lets a relay take a turn. Returns it, and how long it would wait, in milliseconds.
fn after_turn(
    shell: BoxShell,
    around: &mut Surroundings<'_, BoxClock, BoxListener, BoxDial, BoxWatch>,
    journal: &mut Journal<'_, BoxClock, &mut Vec<u8>>,
) -> Result<(u64, BoxShell), Fault> {
    let clock = around.clock;
    match shell.turns(around, journal, 1) {
        Ok(shell) => Ok(with_wait(shell, clock, journal)),
        Err(fault) => Err(fault),
    }
}

/// Lets a relay do what it is asked for. Returns its answer, and whether its device has failed.
fn reply_of(
    shell: &mut BoxShell,
    files: &BoxFiles,
    request: Request,
    now: &Now,
    journal: &mut Journal<'_, BoxClock, &mut Vec<u8>>,
) -> (Reply, Result<(), Fault>) {
    match shell.ask(files, request, now, journal) {
        Ok(reply) => (reply, Ok(())),
        Err(fault) => (None, Err(fault)),
    }
}

/// Lets a relay go on after what it was asked for. Returns it, and how long it would wait, in milliseconds.
fn after_request(
    shell: BoxShell,
    around: &mut Surroundings<'_, BoxClock, BoxListener, BoxDial, BoxWatch>,
    end: Result<(), Fault>,
    now: &Now,
    journal: &mut Journal<'_, BoxClock, &mut Vec<u8>>,
) -> Result<(u64, BoxShell), Fault> {
    let clock = around.clock;
    match shell.resumed(&mut around.listener, end, now, journal) {
        Ok(shell) => Ok(with_wait(shell, clock, journal)),
        Err(fault) => Err(fault),
    }
}

/// Returns a relay, and how long it would wait, in milliseconds.
fn with_wait(
    shell: BoxShell,
    clock: &BoxClock,
    journal: &Journal<'_, BoxClock, &mut Vec<u8>>,
) -> (u64, BoxShell) {
    let now = Now::of(clock);
    let wait = journal.shortened(shell.wait(&now), &now);
    (wait, shell)
}

/// Answers what the relay has done on a connection.
fn tell_connection(answer: &mut Answer, number: u64, wire: &Wire) -> io::Result<()> {
    if wire.is_told.get() {
        return Ok(());
    }
    let count = wire.take_read();
    if count > 0 {
        answer.push_numbers("read", number, count as u64)?;
    }
    if let Ok(mut output) = wire.output.try_borrow_mut() {
        if !output.is_empty() {
            answer.push_octets("wrote", number, output.as_slice())?;
            output.clear();
        }
    }
    if wire.is_shut.replace(false) {
        answer.push_number("shut", number)?;
    }
    if wire.is_closed.get() {
        wire.is_told.set(true);
        answer.push_number("closed", number)?;
    }
    Ok(())
}
