//! The relay, and what surrounds it.
use crate::answer::Answer;
use crate::ballast::BoxBallast;
use crate::clock::BoxClock;
use crate::dial::{BoxDial, Policy};
use crate::disk::BoxDisk;
use crate::files::BoxFiles;
use crate::listener::BoxListener;
use crate::store::{Plan, Store};
use crate::watch::BoxWatch;
use crate::words::{address_of, first_word, octets_of, unread, value_of};
use crate::world::{Wire, WireStream};
use relay_connections::Readiness;
use relay_disk::Disks;
use relay_files::Fault;
use relay_log::RejectionMinutes;
use relay_node::{Node, NotOpened};
use relay_run::{LISTENER_TOKEN, Settings, Shell, Surroundings};
use std::alloc::{AllocError, Global};
use std::cell::Cell;
use std::collections::VecDeque;
use std::rc::Rc;
use std::{io, str};

/// The relay of the box.
pub(crate) type BoxShell = Shell<WireStream, BoxDisk, BoxBallast>;

/// The relay, if one runs, and what surrounds it.
pub struct Simulation<'a> {
    pub(crate) alloc: Global,
    pub(crate) shell: Option<BoxShell>,
    pub(crate) around: Surroundings<'a, BoxClock, BoxListener, BoxDial, BoxWatch>,
    /// All connections since the relay's spool was made, by number.
    pub(crate) wires: Vec<Rc<Wire>>,
    pub(crate) first: Rc<Store>,
    pub(crate) second: Rc<Store>,
    pub(crate) plan: Rc<Plan>,
    pub(crate) room: Rc<Cell<usize>>,
    pub(crate) files: BoxFiles,
    /// What the relay's log knows of refusals.
    pub(crate) minutes: RejectionMinutes,
    pub(crate) log: Vec<u8>,
    pub(crate) answer: Answer,
}

// Written out, so that the proof of a caller that drops it stops at this function.
impl Drop for Simulation<'_> {
    fn drop(self) {
        let Simulation {
            alloc: _,
            shell: _shell,
            around: _around,
            wires: _wires,
            first: _first,
            second: _second,
            plan: _plan,
            room: _room,
            files: _files,
            minutes: _minutes,
            log: _log,
            answer: _answer,
        } = self;
    }
}

impl<'a> Simulation<'a> {
    /// Returns a simulation by this clock in which no relay runs. Fails if memory runs out.
    pub fn new(alloc: Global, clock: &'a BoxClock) -> Result<Self, AllocError> {
        Ok(Simulation {
            alloc,
            shell: None,
            around: Surroundings {
                clock,
                listener: BoxListener {
                    waiting: VecDeque::new(alloc),
                },
                dial: BoxDial::new(alloc),
                watch: BoxWatch {
                    reports: VecDeque::new(alloc),
                },
            },
            wires: Vec::new(alloc),
            first: Rc::new(alloc, Store::new(alloc))?,
            second: Rc::new(alloc, Store::new(alloc))?,
            plan: Rc::new(alloc, Plan::new())?,
            room: Rc::new(alloc, Cell::new(usize::MAX))?,
            files: BoxFiles::new(alloc),
            minutes: RejectionMinutes::new(),
            log: Vec::new(alloc),
            answer: Answer::new(alloc),
        })
    }

    /// Returns the answer to the last line, which is empty if it has none.
    pub fn answer(&self) -> &[u8] {
        self.answer.as_slice()
    }

    /// Drops the answer.
    pub fn clear_answer(&mut self) {
        self.answer.clear();
    }

    /// Does what a line says, and returns whether it could be read. The answer of one that couldn't is `bad` and the
    /// line.
    pub fn obey(&mut self, line: &str) -> io::Result<bool> {
        if line.is_empty() || line.starts_with('#') {
            return Ok(true);
        }
        let (word, rest) = first_word(line);
        match self.obey_words(word, rest) {
            Ok(()) => Ok(true),
            Err(error) if error.kind() == io::ErrorKind::InvalidInput => {
                self.answer.push_text("bad", &line)?;
                Ok(false)
            }
            Err(error) => Err(error),
        }
    }

    fn obey_words(&mut self, word: &str, rest: &str) -> io::Result<()> {
        match word {
            "begin" => self.begin(rest),
            "stop" => self.stop(value_of(rest)?),
            "turn" => self.turn(),
            "ask" => self.ask(rest),
            "queue" => self.list(),
            "client" => self.connect(rest),
            _ => self.obey_setting(word, rest),
        }
    }

    /// Does what a line says of the clocks, next hops, disks and files.
    fn obey_setting(&mut self, word: &str, rest: &str) -> io::Result<()> {
        match word {
            "clock" => self.set_clock(rest),
            "hop" => self.set_hop(rest),
            "config" => self.configure(rest),
            "held" => {
                self.files.takes_held.set(rest == "yes");
                Ok(())
            }
            "fail" => {
                self.plan.set(Some(value_of(rest)?));
                Ok(())
            }
            "ballast" => {
                self.room.set(value_of(rest)?);
                Ok(())
            }
            _ => self.obey_wire(word, rest),
        }
    }

    fn set_clock(&self, rest: &str) -> io::Result<()> {
        let (seconds, milliseconds) = first_word(rest);
        let clock = self.around.clock;
        clock.set(value_of(seconds)?, value_of(milliseconds)?);
        Ok(())
    }

    fn set_hop(&mut self, rest: &str) -> io::Result<()> {
        let (at, policy) = first_word(rest);
        self.around.dial.set(address_of(at)?, policy_of(policy)?)
    }

    /// Does what a line says of one connection.
    fn obey_wire(&mut self, word: &str, rest: &str) -> io::Result<()> {
        let (number, rest) = first_word(rest);
        let number: usize = value_of(number)?;
        let Some(wire) = self.wires.get(number) else {
            return Err(unread());
        };
        match word {
            "input" => wire.send(octets_of(self.alloc, rest)?.as_slice()),
            "end" => {
                wire.end();
                Ok(())
            }
            "reset" => {
                wire.reset();
                Ok(())
            }
            "room" => {
                let room = if rest == "-" {
                    usize::MAX
                } else {
                    value_of(rest)?
                };
                wire.set_room(room);
                Ok(())
            }
            "connected" => {
                wire.connect();
                Ok(())
            }
            _ => Err(unread()),
        }
    }

    /// A client waits at the listener.
    fn connect(&mut self, peer: &str) -> io::Result<()> {
        let peer = address_of(peer)?;
        let wire = Rc::new(self.alloc, Wire::new(self.alloc, true))?;
        self.wires.push(Rc::clone(&wire)?)?;
        self.around.listener.waiting.push_back((wire, peer))?;
        let reports = &mut self.around.watch.reports;
        reports.push_back((LISTENER_TOKEN, may_read()))?;
        Ok(())
    }

    /// Makes a spool on empty disks, and starts a relay over it.
    fn begin(&mut self, config: &str) -> io::Result<()> {
        self.shell = None;
        self.configure(config)?;
        self.files.takes_held.set(true);
        self.first = Rc::new(self.alloc, Store::new(self.alloc))?;
        self.second = Rc::new(self.alloc, Store::new(self.alloc))?;
        self.plan.set(None);
        self.room.set(usize::MAX);
        self.around.dial = BoxDial::new(self.alloc);
        self.wires.clear();
        self.around.listener.waiting.clear();
        self.around.watch.reports.clear();
        match self.make_spool() {
            Ok(()) => self.start(),
            Err(fault) => self.fail(&fault),
        }
    }

    /// Writes the file of the configuration.
    fn configure(&mut self, config: &str) -> io::Result<()> {
        let octets = octets_of(self.alloc, config)?;
        let Ok(text) = str::from_utf8(octets.as_slice()) else {
            return Err(unread());
        };
        self.files.config = text.to_string(self.alloc)?;
        Ok(())
    }

    /// Makes a spool on the disks.
    fn make_spool(&mut self) -> Result<(), Fault> {
        let settings = Settings::read(self.alloc, self.files.config.as_str())?;
        match Node::create(self.alloc, settings.config, self.disks()?) {
            Ok(_node) => Ok(()),
            Err(NotOpened { cause, disk: _disk }) => Err(Fault::from(cause)),
        }
    }

    /// Returns disks over what is stored. Fails if memory runs out.
    fn disks(&self) -> Result<Disks<BoxDisk>, AllocError> {
        Ok(Disks {
            first: BoxDisk::new(Rc::clone(&self.first)?, Rc::clone(&self.plan)?),
            second: BoxDisk::new(Rc::clone(&self.second)?, Rc::clone(&self.plan)?),
        })
    }

    /// Starts a relay over the disks, at whose listener the waiting clients are.
    fn start(&mut self) -> io::Result<()> {
        self.minutes = RejectionMinutes::new();
        match self.started() {
            Ok(shell) => {
                let next = shell.node().next_number();
                self.shell = Some(shell);
                self.answer.push_number("done", next)
            }
            Err(fault) => self.fail(&fault),
        }
    }

    /// Returns a relay over the disks.
    fn started(&self) -> Result<BoxShell, Fault> {
        let settings = Settings::read(self.alloc, self.files.config.as_str())?;
        let ballast = BoxBallast::new(Rc::clone(&self.room)?);
        Shell::unsteered(self.alloc, settings, self.disks()?, ballast)
    }

    /// Answers that no relay runs.
    pub(crate) fn fail(&mut self, fault: &Fault) -> io::Result<()> {
        self.answer.push_text("fault", fault)?;
        self.answer.push_number("done", 0)
    }

    /// Kills the relay. What the disks hold then is chosen by the pick, and a relay is started over it.
    fn stop(&mut self, pick: u64) -> io::Result<()> {
        self.shell = None;
        self.around.watch.reports.clear();
        self.around.listener.waiting.clear();
        self.around.dial.dialled.clear();
        self.plan.set(None);
        self.first.stop(self.alloc, pick)?;
        self.second.stop(self.alloc, pick)?;
        self.start()
    }

    /// Answers which recipients are queued.
    fn list(&mut self) -> io::Result<()> {
        let Some(shell) = &self.shell else {
            return self.answer.push_number("done", 0);
        };
        let node = shell.node();
        let Ok(marks) = node.marks(self.alloc) else {
            return Err(io::Error::from(io::ErrorKind::OutOfMemory));
        };
        for (number, place) in marks.iter() {
            if let Ok(Some(held)) = node.place(*number, *place) {
                self.answer
                    .push_placed("queued", *number, u64::from(*place), held.path)?;
            }
        }
        self.answer.push_number("done", node.next_number())
    }
}

/// Returns what a word says of an address.
fn policy_of(word: &str) -> io::Result<Policy> {
    match word {
        "accept" => Ok(Policy::Accept),
        "refuse" => Ok(Policy::Refuse),
        "wait" => Ok(Policy::Wait),
        _ => Err(unread()),
    }
}

/// Returns the readiness of a listener at which somebody waits.
fn may_read() -> Readiness {
    Readiness {
        reads: true,
        writes: false,
        ends: false,
    }
}
