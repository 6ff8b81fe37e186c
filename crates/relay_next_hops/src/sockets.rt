//! Streams to next hops, opened by the system.
ghost use Rattle.std.specs.Prelude.{◌≡◌};

use crate::dial::Dial;
use crate::spare_descriptors::SpareDescriptors;
use mio::net::TcpStream;
use std::io;
use std::net::{Net, SocketAddr, SocketAddrV4};

/// Opens the system's streams, and keeps spare descriptors for them. Nothing is known about where such a stream leads.
pub struct Sockets<'a, N> {
    net: &'a N,
    spares: SpareDescriptors,
}

// Written out, so that the proof of a caller that drops it stops at this function.
impl<N> Drop for Sockets<'_, N> {
    fn drop(self) {
        let Sockets {
            net: _,
            spares: _spares,
        } = self;
    }
}

impl<'a, N: Net> Sockets<'a, N> {
    /// Makes a source of this system's streams, with these spare descriptors.
    pub fn new(net: &'a N, spares: SpareDescriptors) -> Self
        ensures { result.spares ≡ spares }
    {
        Sockets { net, spares }
    }
}

impl<N: Net> Dial for Sockets<'_, N> {
    ghost use Rattle.relay_next_hops.specs.SpareDescriptors.{held_of};

    type Stream = TcpStream;

    ghost leads_to = { λ stream at. Unit {0} };

    ghost spares = { λ sockets. held_of sockets.spares };

    fn connect(&mut self, at: SocketAddrV4) -> io::Result<TcpStream> {
        TcpStream::connect(self.net, SocketAddr::V4(at))
    }

    fn fill_spares(&mut self) -> bool {
        self.spares.fill()
    }

    fn give_spare(&mut self) -> bool {
        self.spares.give()
    }
}
