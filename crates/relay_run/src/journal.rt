//! The log of a running relay, during its turns and between them.
ghost use Rattle.std.specs.Prelude.{◌≤◌};

use relay_connections::Now;
use relay_disk::Side;
use relay_files::Fault;
use relay_log::{Counters, DeviceFailure, Form, Log, RejectionMinutes};
use relay_routes::Config;
use relay_trace::clock_moment;
use std::alloc::{AllocError, Global};
use std::io::{self, Write};
use std::net::SocketAddrV4;
use std::rt::Clock;

/// The log of a running relay, and its counters. The lines of a turn are collected while connections are served, and
/// written at once afterwards; those between two turns are written one by one, each with its own time.
pub struct Journal<'a, C: Clock, E: Write> {
    pub(crate) alloc: Global,
    pub(crate) clock: &'a C,
    /// The format of the lines; `None` if nothing is logged.
    pub(crate) form: Option<Form>,
    pub(crate) counters: Counters,
    /// What clients were refused in their minutes.
    pub minutes: RejectionMinutes,
    lines: Vec<u8>,
    errors: E,
}

// Written out, so that the proof of a caller that drops it stops at this function.
impl<C: Clock, E: Write + Drop> Drop for Journal<'_, C, E> {
    fn drop(self) {
        let Journal {
            alloc: _,
            clock: _,
            form: _,
            counters: _counters,
            minutes: _minutes,
            lines: _lines,
            errors: _errors,
        } = self;
    }
}

impl<'a, C: Clock, E: Write> Journal<'a, C, E> {
    /// Returns a log without lines, which are written to `errors`, with the times of this clock. Nothing is logged
    /// before a relay sets the format.
    pub fn new(alloc: Global, clock: &'a C, errors: E) -> Self {
        Journal {
            alloc,
            clock,
            form: None,
            counters: Counters::new(),
            minutes: RejectionMinutes::new(),
            lines: Vec::new(alloc),
            errors,
        }
    }

    /// Returns a log that collects the lines of a turn, each with this time, after those for minutes of refusals that
    /// are over.
    pub(crate) fn log(&mut self, now: &Now) -> Log<'_, Vec<u8>> {
        let (alloc, form) = (self.alloc, self.form);
        let mut log = Log::stamped(
            alloc,
            &mut self.lines,
            form,
            now.moment,
            &mut self.counters,
            &mut self.minutes,
        );
        log.minutes_over(now.tick);
        log
    }

    /// Returns how many milliseconds to wait: so many, or fewer if a minute of refusals is over earlier and a line is
    /// due for it.
    pub fn shortened(&self, wait: u64, now: &Now) -> u64
        ensures { result ≤ wait }
    {
        wait.min(
            self.minutes
                .next_deadline(u64::MAX)
                .saturating_sub(now.tick),
        )
    }

    /// Writes the collected lines by one write, if there are any.
    pub(crate) fn write(&mut self) {
        if self.lines.is_empty() {
            return;
        }
        // If they can't be written, nothing is left to do.
        let _ = self.errors.write_all(self.lines.as_slice());
        let _ = self.errors.flush();
        self.lines.clear();
    }

    /// Returns a log that writes each line at once, with the time of this call.
    fn at_once(&mut self) -> Log<'_, E> {
        let (alloc, form, moment) = (self.alloc, self.form, clock_moment(self.clock));
        Log::stamped(
            alloc,
            &mut self.errors,
            form,
            moment,
            &mut self.counters,
            &mut self.minutes,
        )
    }

    /// Logs that the device has failed: the system's error and the file, if they are known, and in how many seconds the
    /// spool is opened again.
    pub(crate) fn device_failed(
        &mut self,
        reason: Option<io::Error>,
        side: Option<Side>,
        config: &Config,
        seconds: u64,
    ) {
        // If there is no memory for the file's name, the line is written without it.
        let file = match file_name(self.alloc, config, side) {
            Ok(file) => file,
            Err(_) => None,
        };
        let failure = DeviceFailure {
            reason,
            file: match &file {
                Some(name) => Some(name.as_str()),
                None => None,
            },
            retry_in: seconds,
        };
        self.at_once().device_failed(&failure);
    }

    /// Logs that the spool is open again, and that there is room again unless the relay is still short of it.
    pub(crate) fn opened_again(&mut self, is_short: bool) {
        let mut log = self.at_once();
        log.opened_again();
        if !is_short {
            log.shortage_ended();
        }
    }

    /// Logs the address at which the relay listens.
    pub(crate) fn listens(&mut self, at: SocketAddrV4) {
        self.at_once().listens(at);
    }

    /// Logs that the relay ends because it has drained.
    pub(crate) fn drained(&mut self) {
        self.at_once().stopping(&"drained");
    }

    /// Logs that a fault ends the relay.
    pub(crate) fn stopping(&mut self, fault: &Fault) {
        self.at_once().stopping(fault);
    }
}

/// Returns the name of a file of the spool.
fn file_name(
    alloc: Global,
    config: &Config,
    side: Option<Side>,
) -> Result<Option<String>, AllocError> {
    match side {
        Some(Side::First) => Ok(Some(config.spool.as_str().to_string(alloc)?)),
        Some(Side::Second) => Ok(Some(format!(in alloc; "{}.2", config.spool.as_str())?)),
        None => Ok(None),
    }
}
