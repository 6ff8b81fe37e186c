//! Requests to a running relay over its control socket, and their answers.
ghost use Rattle.std.specs.Prelude.{IfErr, IfOk};
ghost use Rattle.relay_steering.specs.Exchange.{Answers, HasNone, IsAnswered};

use crate::steering_fault::SteeringFault;
use relay_control::{Request, write_request};
use relay_files::Fault;
use std::alloc::Global;
use std::io::{self, Read, Write};
use std::net::{Net, Shutdown};
use std::os::unix::net::UnixStream;
use std::time::Duration;

/// How many seconds to wait for an answer, in addition to what the request may take.
const ANSWER_SECONDS: u64 = 15;

/// How many seconds a reload may take until the sessions have ended their mail transactions.
const RELOAD_SECONDS: u64 = 60;

/// The most octets of an answer.
pub(crate) const MOST_OCTETS: u64 = 1024 * 1024;

/// A connection to the control socket of a relay.
pub(crate) trait RelayStream: Read + Write {
    /// Sets how long a read waits for octets.
    fn set_patience(&self, patience: Duration) -> io::Result<()>;

    /// Tells the relay that nothing more is written.
    fn end_request(&self) -> io::Result<()>;
}

impl RelayStream for UnixStream {
    fn set_patience(&self, patience: Duration) -> io::Result<()> {
        self.set_read_timeout(Some(patience))
    }

    fn end_request(&self) -> io::Result<()> {
        self.shutdown(Shutdown::Write)
    }
}

/// A running relay.
pub(crate) trait Relay {
    ghost use Rattle.std.specs.Prelude.{IfOk};

    /// A connection to its control socket.
    type Stream: RelayStream + Drop;

    // the connection has just been made, and nothing was written to it
    ghost is_new: { Self.Stream → Type 0 };

    /// Connects to its control socket.
    fn connect(&self) -> io::Result<Self::Stream>
        ensures { IfOk result is_new };
}

/// The relay that listens at the control socket at a path.
#[derive(Drop)]
pub(crate) struct RelayAt<'a, N: Net> {
    /// The system's sockets.
    pub(crate) net: &'a N,
    /// The path.
    pub(crate) path: &'a str,
}

impl<N: Net> Relay for RelayAt<'_, N> {
    type Stream = UnixStream;

    ghost is_new = { λ stream. Unit {0} };

    fn connect(&self) -> io::Result<UnixStream> {
        UnixStream::connect(self.net, self.path)
    }
}

/// Sends a request to a relay over a new connection, and returns the octets of its answer.
pub(crate) fn ask<R: Relay>(
    alloc: Global,
    relay: &R,
    request: &Request,
) -> Result<Vec<u8>, SteeringFault>
    ensures answered { IfOk result (λ octets. IsAnswered R.is_new R.Stream.contents R.Stream.remaining request.now
        octets.items) }
    ensures failed { IfErr result HasNone }
{
    match relay.connect() {
        Ok(stream) => match exchange(alloc, stream, request) {
            Ok(octets) => Ok(octets),
            Err(error) if error.kind() == io::ErrorKind::OutOfMemory => {
                Err(SteeringFault::Files(Fault::NoMemory))
            }
            Err(_) => Err(SteeringFault::NoAnswer),
        },
        Err(_) => Err(SteeringFault::NoRelay),
    }
}

/// Sends a request over a connection, and returns the octets that come after it, up to the end of the connection or the
/// most of an answer.
fn exchange<S: RelayStream + Drop>(
    alloc: Global,
    mut stream: S,
    request: &Request,
) -> io::Result<Vec<u8>>
    ensures { IfOk result (λ octets. Answers S.contents S.remaining stream request.now octets.items) }
{
    stream.set_patience(Duration::from_secs(patience(request)))?;
    let octets = write_request(alloc, request)?;
    stream.write_all(octets.as_slice())?;
    stream.end_request()?;
    let mut answer = Vec::new(alloc);
    stream.take(MOST_OCTETS).read_to_end(&mut answer)?;
    Ok(answer)
}

/// Returns how many seconds to wait for the answer to a request.
fn patience(request: &Request) -> u64 {
    match request {
        Request::Drain { seconds } => ANSWER_SECONDS.saturating_add(u64::from(*seconds)),
        Request::Reload => ANSWER_SECONDS + RELOAD_SECONDS,
        _ => ANSWER_SECONDS,
    }
}
