//! Sockets of clients and of next hops. A peer that keeps silent for longer than its timeout counts as gone (RFC 5321,
//! section 4.5.3.2).
use relay_files::Fault;
use std::io;
use std::net::{Net, SocketAddr, SocketAddrV4, TcpListener, TcpStream};
use std::rt::Clock;
use std::time::Duration;

/// The timeout of a read from a client, or a write to one, in seconds (RFC 5321, section 4.5.3.2.7).
const CLIENT_SECONDS: u64 = 300;

/// The timeout of a read from a next hop, or a write to one, in seconds: the longest that a reply to mail data may take
/// (RFC 5321, section 4.5.3.2.6).
const HOP_SECONDS: u64 = 600;

/// The timeout of connecting to a next hop, in seconds.
const CONNECT_SECONDS: u64 = 5;

/// How many clients in a row may fail to be accepted.
const MISSES: u32 = 64;

/// The pause after a client that couldn't be accepted, in milliseconds. It doubles after each further one, up to
/// `LONGEST_WAIT`.
const FIRST_WAIT: u64 = 100;

/// The longest such pause, in milliseconds.
const LONGEST_WAIT: u64 = 1_000;

/// Returns a listener at this address.
pub(crate) fn listener<N: Net<Listener = TcpListener, Stream = TcpStream>>(
    net: &N,
    at: SocketAddrV4,
) -> Result<TcpListener, Fault> {
    match net.bind(SocketAddr::V4(at)) {
        Ok(listener) => Ok(listener),
        Err(_) => Err(Fault::Socket),
    }
}

/// Returns the next client of a listener, and its address. If a client can't be accepted, because it went away or file
/// descriptors or memory are short, pauses and waits for the next. Fails after 64 such clients in a row.
pub(crate) fn next_client<C: Clock>(
    clock: &C,
    listener: &TcpListener,
) -> Result<(TcpStream, SocketAddrV4), Fault> {
    let mut wait = FIRST_WAIT;
    for _ in 1..MISSES {
        if let Ok(client) = accept(listener) {
            return Ok(client);
        }
        clock.sleep(Duration::from_millis(wait));
        wait = wait.saturating_mul(2).min(LONGEST_WAIT);
    }
    match accept(listener) {
        Ok(client) => Ok(client),
        Err(_) => Err(Fault::Socket),
    }
}

/// Accepts a client of a listener, and returns its address too.
fn accept(listener: &TcpListener) -> io::Result<(TcpStream, SocketAddrV4)> {
    match listener.accept()? {
        (stream, SocketAddr::V4(peer)) => {
            set_up(&stream, CLIENT_SECONDS)?;
            Ok((stream, peer))
        }
        // An IPv4 listener has no such client.
        (_, SocketAddr::V6(_)) => Err(io::Error::from(io::ErrorKind::Unsupported)),
    }
}

/// Connects to the next hop at this address.
pub(crate) fn connect<N: Net<Stream = TcpStream>>(
    net: &N,
    at: SocketAddrV4,
) -> io::Result<TcpStream> {
    let stream = net.connect_timeout(SocketAddr::V4(at), Duration::from_secs(CONNECT_SECONDS))?;
    set_up(&stream, HOP_SECONDS)?;
    Ok(stream)
}

/// Sets the timeout of reads and writes, in seconds, and disables Nagle's algorithm: what belongs together is written
/// by one call.
fn set_up(stream: &TcpStream, seconds: u64) -> io::Result<()> {
    let wait = Some(Duration::from_secs(seconds));
    stream.set_read_timeout(wait)?;
    stream.set_write_timeout(wait)?;
    stream.set_nodelay(true)
}
