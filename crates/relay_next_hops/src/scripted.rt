//! Opens streams without a system, for tests.
ghost use Rattle.std.specs.Prelude.{◌≡◌};

use crate::dial::Dial;
use crate::spare_descriptors::SPARE_COUNT;
use relay_connections::Stream;
use std::collections::VecDeque;
use std::io::{self, Error, ErrorKind};
use std::net::SocketAddrV4;

/// A stream that remembers to which address it was opened.
#[derive(Drop)]
pub struct PlacedStream<S> {
    place: SocketAddrV4,
    stream: S,
}

impl<S> PlacedStream<S> {
    /// Returns the address to which it was opened.
    pub fn place(&self) -> SocketAddrV4
        ensures { result ≡ self.now.place }
    {
        self.place
    }

    /// Returns the stream itself.
    pub fn stream(&self) -> &S
        ensures { result.now ≡ self.now.stream }
    {
        &self.stream
    }
}

impl<S: Stream> Stream for PlacedStream<S> {
    type Registry = S::Registry;

    ghost remaining = { λ placed. S.remaining placed.stream };

    ghost contents = { λ placed. S.contents placed.stream };

    fn try_read(&mut self, into: &mut [u8]) -> io::Result<usize> {
        self.stream.try_read(into)
    }

    fn try_write(&mut self, octets: &[u8]) -> io::Result<usize> {
        self.stream.try_write(octets)
    }

    fn set_nodelay(&mut self) {
        self.stream.set_nodelay();
    }

    fn shut_down(&mut self) {
        self.stream.shut_down();
    }

    fn has_connected(&self) -> io::Result<bool> {
        self.stream.has_connected()
    }

    fn register(&mut self, registry: &S::Registry, token: usize, again: bool) -> io::Result<()> {
        self.stream.register(registry, token, again)
    }

    fn deregister(&mut self, registry: &S::Registry) -> io::Result<()> {
        self.stream.deregister(registry)
    }
}

/// Streams to be opened, in this order, each to the address that is requested next. After the last one each address
/// refuses.
#[derive(Drop)]
pub struct ScriptedDial<S> {
    streams: VecDeque<S>,
    /// How many spare descriptors there are.
    spares: usize,
}

impl<S> ScriptedDial<S> {
    /// Returns a source of these streams, without spare descriptors.
    pub fn new(streams: VecDeque<S>) -> Self
        ensures { result.streams ≡ streams }
    {
        ScriptedDial { streams, spares: 0 }
    }
}

impl<S> Dial for ScriptedDial<S> {
    type Stream = PlacedStream<S>;

    ghost leads_to = { λ placed at. placed.place ≡ at };

    ghost spares = { λ dial. dial.spares };

    fn connect(&mut self, at: SocketAddrV4) -> io::Result<PlacedStream<S>> {
        match self.streams.pop_front() {
            Some(stream) => Ok(PlacedStream { place: at, stream }),
            None => Err(Error::from(ErrorKind::ConnectionRefused)),
        }
    }

    fn fill_spares(&mut self) -> bool {
        self.spares = SPARE_COUNT;
        true
    }

    fn give_spare(&mut self) -> bool {
        if self.spares == 0 {
            return false;
        }
        self.spares -= 1;
        true
    }
}
