//! The page that shows a relay's state, and its metrics: the listener, the visitors, and the counts that it shows.
ghost use Rattle.std.specs.Prelude.{◌≤◌};

use crate::texts::{Connections, State, text_of};
use mio::net::{TcpListener, TcpStream};
use mio::{Interest, Registry, Token};
use relay_connections::{Now, Readiness};
use relay_disk::FileDisk;
use relay_log::Counters;
use relay_loop::Relay;
use relay_page::{
    Asked, Code, History, MOST_VISITORS, Minute, PART, Survey, Visitors, refusal_octets,
    response_octets,
};
use relay_trace::Moment;
use std::alloc::{AllocError, Global};
use std::io::{self, ErrorKind};
use std::net::{Ipv4Addr, Net, SocketAddr, SocketAddrV4};

/// The page. A fault of it ends only the visit that it concerns.
pub struct StatusPage {
    alloc: Global,
    /// The listener; `None` if there is no page.
    listener: Option<TcpListener>,
    /// The token of the listener.
    token: usize,
    /// Whether visitors may be waiting.
    is_ready: bool,
    visitors: Visitors,
    survey: Survey,
    history: History,
    /// When the relay began.
    since: Moment,
    /// The number of the next change when that was read last.
    next_number: u64,
    /// When that number had grown last; `None` if it hasn't since the relay began.
    appended: Option<Moment>,
}

// Written out, so that the proof of a caller that drops it stops at this function.
impl Drop for StatusPage {
    fn drop(self) {
        let StatusPage {
            alloc: _,
            listener: _listener,
            token: _,
            is_ready: _,
            visitors: _visitors,
            survey: _survey,
            history: _history,
            since: _,
            next_number: _,
            appended: _,
        } = self;
    }
}

impl StatusPage {
    /// How many tokens the page uses: one for its listener, and one for each visitor.
    pub const TOKENS: usize = 1 + MOST_VISITORS;

    /// Opens the page at this port of 127.0.0.1, or no page. Its listener gets this token, and its visitors those that
    /// follow. Fails if the port can't be opened, or memory runs out.
    pub fn open<N: Net>(
        alloc: Global,
        net: &N,
        registry: &Registry,
        token: usize,
        port: Option<u16>,
        next_number: u64,
        since: Moment,
    ) -> io::Result<Self> {
        let listener = match port {
            Some(port) => Some(listener_at(net, registry, token, port)?),
            None => None,
        };
        Ok(StatusPage {
            alloc,
            is_ready: listener.is_some(),
            listener,
            token,
            visitors: Visitors::new(alloc)?,
            survey: Survey::new(alloc),
            history: History::new(alloc, minute_of(since))?,
            since,
            next_number,
            appended: None,
        })
    }

    /// Notes what the listener (number 0) or a visitor (from 1 on) may be ready for, as the system reports it.
    pub fn note(&mut self, number: usize, ready: Readiness) {
        if number == 0 {
            self.is_ready = true;
        } else {
            self.visitors.note(number - 1, ready.reads, ready.writes);
        }
    }

    /// Accepts visitors, serves each once, and makes one response, or counts one part of the queue for it.
    pub fn turn(
        &mut self,
        registry: &Registry,
        relay: &Relay<FileDisk>,
        connections: Connections<'_>,
        counters: &Counters,
        now: &Now,
    ) {
        if self.listener.is_none() {
            return;
        }
        self.note_progress(relay, counters, now);
        self.admit(registry, now);
        self.visitors.serve(now.tick);
        if let Some((number, asked)) = self.visitors.asked() {
            self.attend(number, asked, relay, connections, counters, now);
        }
    }

    /// Notes what was done since the last call.
    fn note_progress(&mut self, relay: &Relay<FileDisk>, counters: &Counters, now: &Now) {
        let done = Minute {
            accepted: counters.accepted,
            sent: counters.sent,
        };
        self.history.note(minute_of(now.moment), done);
        let next_number = relay.node().next_number();
        if next_number != self.next_number {
            self.next_number = next_number;
            self.appended = Some(now.moment);
        }
    }

    /// Accepts waiting visitors, while there is room for them.
    fn admit(&mut self, registry: &Registry, now: &Now) {
        for _ in 0..MOST_VISITORS {
            if !self.is_ready {
                return;
            }
            let (Some(listener), Some(number)) = (&self.listener, self.visitors.free()) else {
                return;
            };
            match listener.accept() {
                Ok((stream, _)) => {
                    if let Some(stream) = registered(registry, stream, self.token, number) {
                        self.visitors.put(number, stream, now.tick);
                    }
                }
                Err(error) => {
                    if error.kind() != ErrorKind::Interrupted {
                        // A visitor that went away, or couldn't be accepted, will come again by itself, if at all.
                        self.is_ready = false;
                    }
                }
            }
        }
    }

    /// Makes the response for a visitor, or counts a part of the queue first.
    fn attend(
        &mut self,
        number: usize,
        asked: Asked,
        relay: &Relay<FileDisk>,
        connections: Connections<'_>,
        counters: &Counters,
        now: &Now,
    ) {
        let counted = if self.survey.is_fresh(now.tick) {
            Ok(true)
        } else {
            self.count(relay, now)
        };
        match counted {
            Ok(true) => {
                let response = self.response(asked, relay, connections, counters, now);
                self.respond(number, asked, response);
            }
            Ok(false) => {}
            Err(AllocError) => self.respond(number, asked, Err(AllocError)),
        }
    }

    /// Sets the response of a visitor, or refuses it if there is none.
    fn respond(&mut self, number: usize, asked: Asked, response: Result<Vec<u8>, AllocError>) {
        let response = match response {
            Ok(octets) => Ok(octets),
            Err(_) => refusal_octets(self.alloc, Code::Unavailable, asked.has_body),
        };
        self.visitors.answer(number, response);
    }

    /// Counts a part of the queue, and returns whether that was the last. Fails if memory runs out, or the device has
    /// failed.
    fn count(&mut self, relay: &Relay<FileDisk>, now: &Now) -> Result<bool, AllocError> {
        let node = relay.node();
        if !self.survey.is_counting() {
            let Ok(marks) = node.marks(self.alloc) else {
                return Err(AllocError);
            };
            self.survey.begin(marks);
            return Ok(false);
        }
        for _ in 0..PART {
            let Some((number, place)) = self.survey.next() else {
                self.survey.end(now.tick);
                return Ok(true);
            };
            if let Some(message) = node.message(number) {
                self.survey.count(&node.config().routes, place, message)?;
            }
        }
        Ok(false)
    }

    /// Returns the response to a request.
    fn response(
        &self,
        asked: Asked,
        relay: &Relay<FileDisk>,
        connections: Connections<'_>,
        counters: &Counters,
        now: &Now,
    ) -> Result<Vec<u8>, AllocError> {
        let state = State {
            relay,
            connections,
            counters,
            survey: &self.survey,
            history: &self.history,
            since: self.since,
            appended: self.appended,
            now: now.moment,
        };
        let (kind, body) = text_of(self.alloc, asked.target, &state)?;
        response_octets(
            self.alloc,
            Code::Found,
            kind,
            asked.has_body,
            body.as_slice(),
        )
    }

    /// Returns whether something can be done at once.
    pub fn is_ready(&self, now: &Now) -> bool {
        self.is_waited_for()
            || self.visitors.is_ready()
            || self.visitors.next_deadline(u64::MAX) <= now.tick
    }

    /// Returns whether visitors may be accepted, or one waits for its response.
    fn is_waited_for(&self) -> bool {
        (self.is_ready && self.visitors.free().is_some()) || self.visitors.asked().is_some()
    }

    /// Returns the tick at which the next visit ends, or `otherwise` if that is earlier.
    pub fn next_deadline(&self, otherwise: u64) -> u64
        ensures { result ≤ otherwise }
    {
        self.visitors.next_deadline(otherwise)
    }
}

/// Returns the listener at a port of 127.0.0.1, registered with the poll under this token.
fn listener_at<N: Net>(
    net: &N,
    registry: &Registry,
    token: usize,
    port: u16,
) -> io::Result<TcpListener> {
    let at = SocketAddrV4::new(Ipv4Addr::LOCALHOST, port);
    let mut listener = TcpListener::bind(net, SocketAddr::V4(at))?;
    registry.register(&mut listener, Token(token), Interest::READABLE)?;
    Ok(listener)
}

/// Returns the stream of a visitor, registered with the poll; `None` if that fails.
fn registered(
    registry: &Registry,
    stream: TcpStream,
    first: usize,
    number: usize,
) -> Option<TcpStream> {
    let mut stream = stream;
    let token = Token(first.saturating_add(1).saturating_add(number));
    let ways = Interest::READABLE | Interest::WRITABLE;
    match registry.register(&mut stream, token, ways) {
        Ok(()) => Some(stream),
        Err(_) => None,
    }
}

/// Returns the minute of a time, counted from 1970.
fn minute_of(moment: Moment) -> u64 {
    moment.seconds() / 60
}
