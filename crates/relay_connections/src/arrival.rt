//! A balancer's connection whose PROXY protocol header isn't complete yet.
ghost use Rattle.std.specs.Prelude.{◌≡◌, ℕ, false};
ghost use Rattle.relay_proxy.specs.Header.{IsBegun, IsHeader};
ghost use Rattle.relay_connections.specs.Arrivals.{FailsHeader, HasArrived, HasProgressed, IsNew, ReadsOn};

use crate::clocks::Now;
use crate::header_octets::HeaderOctets;
use crate::stream::Stream;
use relay_log::HeaderFault;
use relay_proxy::{Reading, Source};
use std::io::ErrorKind;
use std::net::SocketAddrV4;

/// How many seconds a header may take.
const HEADER_SECONDS: u64 = 5;

/// The most reads of a header in one turn: each yields at least one octet, and a header has at most 536.
const READ_LIMIT: usize = 540;

/// What a balancer's connection has turned out to be.
#[derive(Drop)]
pub enum Arrived<S> {
    /// The connection of a client, whose octets after the header come next, and the client's address and port.
    Client(S, SocketAddrV4),
    /// No client: the connection of this balancer is closed, for this reason.
    Refused(SocketAddrV4, HeaderFault),
}

/// A connection whose header isn't complete yet.
pub(crate) struct Arrival<S> {
    stream: S,
    /// The balancer's own address and port.
    pub(crate) balancer: SocketAddrV4,
    /// What was read of the header.
    header: HeaderOctets,
    /// Whether a read may yield octets, the end or an error.
    pub(crate) reads: bool,
    /// The tick at which the connection is closed.
    pub(crate) deadline: u64,
}

// Written out, so that the proof of a caller that drops it stops at this function.
impl<S: Drop> Drop for Arrival<S> {
    fn drop(self) {
        let Arrival {
            stream: _stream,
            balancer: _,
            header: _header,
            reads: _,
            deadline: _,
        } = self;
    }
}

/// The state of a header.
#[derive(Drop)]
pub(crate) enum Progress {
    /// More octets are needed.
    Waits,
    /// The header is complete, and says this about the client. Nothing after it was read.
    Whole(Source),
    /// There will be no header.
    Fails(HeaderFault),
}

impl<S: Stream + Drop> Arrival<S> {
    /// Makes a connection from which nothing was read.
    pub(crate) fn new(stream: S, balancer: SocketAddrV4, now: &Now) -> Self
        ensures { IsNew S.remaining S.contents stream balancer now.now.tick result }
    {
        Arrival {
            stream,
            balancer,
            header: HeaderOctets::new(),
            reads: true,
            deadline: now.after(HEADER_SECONDS),
        }
    }

    /// Reads octets of the header that have arrived, and nothing after it.
    pub(crate) fn read(&mut self, now: &Now) -> Progress
        ensures reads_on { ReadsOn S.remaining S.contents self.old self.new }
        ensures progress { HasProgressed now.now.tick self.new.deadline self.new.header result }
    {
        for _ in 0..READ_LIMIT {
            if !self.reads {
                break;
            }
            let Reading::Unfinished(count) = self.header.reading() else {
                break;
            };
            if !self.read_some(count) {
                return Progress::Fails(HeaderFault::Missing);
            }
        }
        self.progress(now)
    }

    /// Returns the state of the header.
    fn progress(&self, now: &Now) -> Progress
        ensures { HasProgressed now.now.tick self.now.deadline self.now.header result }
    {
        match self.header.reading() {
            Reading::Found(header) => Progress::Whole(header.source),
            Reading::Missing => Progress::Fails(HeaderFault::Missing),
            Reading::Unfinished(_) if self.deadline <= now.tick => {
                Progress::Fails(HeaderFault::Late)
            }
            Reading::Unfinished(_) => Progress::Waits,
        }
    }

    /// Reads at most `count` octets of the header, which lacks at least that many. Returns whether the connection is
    /// still open: it hasn't ended and isn't broken.
    fn read_some(&mut self, count: usize) -> bool
        requires { IsBegun self.old.header count }
        ensures reads_on { ReadsOn S.remaining S.contents self.old self.new }
        ensures none { result ≡ false → self.new.header ≡ self.old.header }
    {
        match self.header.fill(&mut self.stream, count) {
            Ok(came) => 0 < came,
            Err(error) => self.note_fault(error.kind()),
        }
    }

    /// Notes that a read has failed. Returns whether the connection is still open.
    fn note_fault(&mut self, kind: ErrorKind) -> bool
        ensures { FailsHeader kind self.old self.new result }
    {
        match kind {
            ErrorKind::WouldBlock => {
                self.reads = false;
                true
            }
            ErrorKind::Interrupted => true,
            _ => false,
        }
    }

    /// Returns what the connection is according to its header. Its stream is no longer registered.
    pub(crate) fn arrived(self, registry: &S::Registry, source: Source) -> Arrived<S>
        requires { IsHeader self.header source }
        ensures { (tick : ℕ) → HasArrived S.remaining S.contents tick self result }
    {
        let Arrival {
            stream,
            balancer,
            header: _header,
            reads: _,
            deadline: _,
        } = self;
        let mut stream = stream;
        let client = match source {
            Source::Own => balancer,
            Source::Client(client) => client,
            Source::Other => return Arrived::Refused(balancer, HeaderFault::OtherProtocol),
        };
        match stream.deregister(registry) {
            Ok(()) => Arrived::Client(stream, client),
            Err(_) => Arrived::Refused(balancer, HeaderFault::NoMemory),
        }
    }
}
