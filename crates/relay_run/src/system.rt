//! What the system reports to a relay.
ghost use Rattle.std.specs.Prelude.{◌≡◌, ◌≤◌};

use crate::control::ControlSocket;
use crate::documents::SystemFiles;
use crate::start::PAGE_TOKEN;
use crate::turns::{Control, Watch};
use mio::net::TcpStream;
use mio::{Events, Poll, Registry};
use relay_connections::{Now, Readiness};
use relay_disk::FileDisk;
use relay_log::Counters;
use relay_loop::Relay;
use relay_status::{Connections, StatusPage};
use std::alloc::{AllocError, Global};
use std::fs::File;
use std::rt::Files;
use std::time::Duration;

/// What reports the readiness of a relay's sockets; the page, and the files.
pub(crate) struct SystemWatch<'a, R> {
    files: SystemFiles<'a, R>,
    poll: Poll,
    events: Events,
    page: StatusPage,
    /// The reports that weren't taken yet. There is room for one of each event.
    reports: Vec<(usize, Readiness)>,
}

// Written out, so that the proof of a caller that drops it stops at this function.
impl<R> Drop for SystemWatch<'_, R> {
    fn drop(self) {
        let SystemWatch {
            files: _,
            poll: _poll,
            events: _events,
            page: _page,
            reports: _reports,
        } = self;
    }
}

impl<'a, R> SystemWatch<'a, R> {
    /// Makes a watch of at most this many events at a time. Fails if memory runs out.
    pub(crate) fn new(
        alloc: Global,
        rt: &'a R,
        poll: Poll,
        page: StatusPage,
        most: usize,
    ) -> Result<Self, AllocError> {
        Ok(SystemWatch {
            files: SystemFiles { files: rt },
            poll,
            events: Events::with_capacity(alloc, most)?,
            page,
            reports: Vec::with_capacity(alloc, most)?,
        })
    }
}

impl<'a, R: Files<File = File>> Watch<TcpStream, FileDisk> for SystemWatch<'a, R> {
    type Files = SystemFiles<'a, R>;

    fn registry(&self) -> &Registry {
        self.poll.registry()
    }

    fn shortened(&self, milliseconds: u64, now: &Now) -> u64 {
        if self.page.is_ready(now) {
            return 0;
        }
        milliseconds.min(self.page.next_deadline(u64::MAX).saturating_sub(now.tick))
    }

    fn wait(&mut self, milliseconds: u64) {
        // A wait that fails reports nothing, and time goes on.
        let _ = self.poll.poll(&mut self.events, Some(Duration::from_millis(milliseconds)));
        for event in self.events.iter() {
            let (token, ready) = (event.token().0, Readiness::of(event));
            if PAGE_TOKEN <= token && token < ControlSocket::TOKEN {
                self.page.note(token - PAGE_TOKEN, ready);
            } else {
                // There is room for it.
                let _ = self.reports.push((token, ready));
            }
        }
    }

    fn take_report(&mut self) -> Option<(usize, Readiness)> {
        self.reports.pop()
    }

    fn show(
        &mut self,
        relay: &Relay<FileDisk>,
        connections: Connections<'_>,
        counters: &Counters,
        now: &Now,
    ) {
        self.page
            .turn(self.poll.registry(), relay, connections, counters, now);
    }

    fn control(&self) -> Option<Control<'_, SystemFiles<'a, R>>> {
        Some(Control {
            registry: self.poll.registry(),
            files: &self.files,
        })
    }
}
