use crate::backlog::Backlog;
use crate::log_line::{Form, LogLine};
use relay_trace::{Moment, clock_moment};
use std::alloc::{AllocError, Global};
use std::io::{self, Write};
use std::mem;
use std::rt::Clock;
use std::sync::{Arc, Condvar, Mutex, Wait};
use std::thread::{self, Threads};
use std::time::Duration;

/// A writer of whole lines that waits for no reader: another thread writes them, and what that one hasn't taken waits
/// in a backlog. If lines were dropped from that, a line with a timestamp tells how many, once there is room, in the
/// form of the lines before it: `relayd: log-dropped lines=17`.
#[derive(Drop)]
pub struct LogWriter<R: Wait + Clock> {
    rt: R,
    shared: Arc<Shared, Global>,
    /// What was written since the last flush, by which it ends at a line's end.
    gathered: Vec<u8>,
}

/// What both threads see.
#[derive(Drop)]
struct Shared {
    state: Mutex<State>,
    changed: Condvar,
}

#[derive(Drop)]
struct State {
    backlog: Backlog,
    /// No line comes any more.
    is_ended: bool,
    /// All lines were written.
    is_written: bool,
}

impl<R: Threads + Wait + Clock + Copy + Send + 'static> LogWriter<R> {
    /// Starts a thread that writes lines to `errors`. It fails where no thread, or no memory, can be had for that.
    pub fn start<E: Write + Send + Drop + 'static>(
        alloc: Global,
        rt: R,
        errors: E,
    ) -> Result<Self, AllocError> {
        let shared = Arc::new(alloc, Shared::new(alloc)?)?;
        let theirs = Arc::try_clone(&shared)?;
        let taken = Backlog::new(alloc)?;
        match thread::spawn(&rt, move || write_out(alloc, rt, theirs, taken, errors)) {
            Ok(_thread) => Ok(LogWriter {
                rt,
                shared,
                gathered: Vec::new(alloc),
            }),
            Err(_) => Err(AllocError),
        }
    }

    /// Ends the log: what waits is written, for which it waits no longer than so long.
    pub fn finish(mut self, longest: Duration) {
        self.hand_over();
        let mut state = self.shared.state.lock(&self.rt);
        state.is_ended = true;
        self.shared.changed.notify_all();
        let _ = self
            .shared
            .changed
            .wait_timeout_while(&self.rt, state, longest, |state| !state.is_written);
    }
}

impl<R: Wait + Clock> LogWriter<R> {
    /// Puts the lines that were gathered into the backlog.
    fn hand_over(&mut self) {
        self.shared.put(&self.rt, self.gathered.as_slice());
        self.gathered.clear();
    }
}

impl<R: Wait + Clock> Write for LogWriter<R> {
    fn write(&mut self, octets: &[u8]) -> io::Result<usize> {
        self.gathered.extend_from_slice(octets)?;
        Ok(octets.len())
    }

    fn flush(&mut self) -> io::Result<()> {
        self.hand_over();
        Ok(())
    }
}

impl Shared {
    fn new(alloc: Global) -> Result<Self, AllocError> {
        Ok(Shared {
            state: Mutex::new(State {
                backlog: Backlog::new(alloc)?,
                is_ended: false,
                is_written: false,
            }),
            changed: Condvar::new(),
        })
    }

    /// Puts lines into the backlog, each or none of it.
    fn put<R: Wait>(&self, rt: &R, lines: &[u8]) {
        let mut state = self.state.lock(rt);
        state.backlog.put_all(lines);
        self.changed.notify_one();
    }

    /// Waits for lines, or for the end of the log, and takes what waits: whether it is the last.
    fn take<R: Wait>(&self, rt: &R, taken: &mut Backlog) -> bool {
        taken.clear();
        let state = self.state.lock(rt);
        let mut state = self.changed.wait_while(rt, state, |state| {
            state.backlog.is_empty() && !state.is_ended
        });
        mem::swap(&mut state.backlog, taken);
        state.is_ended
    }

    /// All lines were written.
    fn note_written<R: Wait>(&self, rt: &R) {
        let mut state = self.state.lock(rt);
        state.is_written = true;
        self.changed.notify_all();
    }
}

/// Writes lines as they come, up to the end of the log.
fn write_out<R: Wait + Clock + Copy, E: Write + Drop>(
    alloc: Global,
    rt: R,
    shared: Arc<Shared, Global>,
    taken: Backlog,
    errors: E,
) {
    let mut taken = taken;
    let mut errors = errors;
    for _ in rt.forever() {
        let is_last = shared.take(&rt, &mut taken);
        // Nothing is left to do where lines can't be written.
        let _ = errors.write_all(taken.lines());
        if 0 < taken.dropped() {
            let _ = write_notice(alloc, &taken, clock_moment(&rt), &mut errors);
        }
        let _ = errors.flush();
        if is_last {
            shared.note_written(&rt);
            return;
        }
    }
}

/// Writes a line that tells how many were dropped, in the form of those that were not.
fn write_notice<E: Write>(
    alloc: Global,
    taken: &Backlog,
    now: Moment,
    errors: &mut E,
) -> io::Result<()> {
    let form = form_of(taken.lines());
    let mut line = LogLine::new(alloc, form, Some(now), b"log-dropped")?;
    line.number(b"lines", taken.dropped(), b"")?;
    let octets = line.ended()?;
    errors.write_all(octets.as_slice())
}

/// Returns the form of lines.
fn form_of(lines: &[u8]) -> Form {
    match lines.first() {
        Some(b'{') => Form::Json,
        _ => Form::Text,
    }
}
