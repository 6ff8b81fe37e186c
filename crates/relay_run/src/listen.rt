//! Where clients come from: a listener, or a script of clients.
use crate::acceptor::Acceptor;
use mio::net::{TcpListener, TcpStream};
use mio::{Interest, Registry, Token};
use std::io::{self, ErrorKind};
use std::net::{Net, SocketAddr, SocketAddrV4};

/// The result of accepting a client.
#[derive(Drop)]
pub enum Found<S> {
    /// A client's stream, and its address.
    Client(S, SocketAddrV4),
    /// The client went away again, or has no IPv4 address.
    Missed,
    /// No client is waiting.
    Nobody,
    /// The system has no file descriptor, or no memory, left for it.
    Want,
}

/// A source of clients, which never waits.
pub trait Listen {
    ghost use Rattle.std.specs.declared.net.socket_addr.SocketAddrV4.{SocketAddrV4};
    ghost use Rattle.relay_run.specs.Found.{IsFound};

    /// The stream of a client.
    type Stream;

    // the stream is that of a client at this address, as far as that can be known
    ghost comes_from: { Self.Stream → SocketAddrV4 → Type 0 };

    /// Accepts the next waiting client.
    fn accept(&mut self) -> Found<Self::Stream>
        ensures { IsFound comes_from result };
}

impl Listen for TcpListener {
    type Stream = TcpStream;

    ghost comes_from = { λ stream peer. Unit {0} };

    fn accept(&mut self) -> Found<TcpStream> {
        next_client(self)
    }
}

/// Returns a system listener at this address, registered with the poll.
pub(crate) fn listener_at<N: Net>(
    net: &N,
    registry: &Registry,
    at: SocketAddrV4,
) -> io::Result<TcpListener> {
    let mut listener = TcpListener::bind(net, SocketAddr::V4(at))?;
    registry.register(&mut listener, Token(Acceptor::TOKEN), Interest::READABLE)?;
    Ok(listener)
}

/// Accepts the next client of a system listener.
fn next_client(listener: &TcpListener) -> Found<TcpStream> {
    match listener.accept() {
        Ok((stream, SocketAddr::V4(peer))) => Found::Client(stream, peer),
        // An IPv4 listener has no such client.
        Ok((_stream, SocketAddr::V6(_))) => Found::Missed,
        Err(error) => match error.kind() {
            ErrorKind::WouldBlock => Found::Nobody,
            ErrorKind::ConnectionAborted | ErrorKind::Interrupted => Found::Missed,
            _ => Found::Want,
        },
    }
}
