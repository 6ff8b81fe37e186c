//! The next hops of a push: connecting to them, and remembering those that couldn't be reached.
use crate::sockets::connect;
use relay_files::{Fault, is_want_of_sockets};
use relay_log::{Loss, Why};
use std::alloc::Global;
use std::collections::HashMap;
use std::net::{Net, SocketAddrV4, TcpStream};

/// The next hops that a push couldn't connect to, or that kept silent for as long as allowed. The push doesn't connect
/// to them again: further attempts for them fail at once.
#[derive(Drop)]
pub(crate) struct Unreached {
    losses: HashMap<u64, Loss>,
}

impl Unreached {
    /// Returns an empty set.
    pub(crate) fn new(alloc: Global) -> Self {
        Unreached {
            losses: HashMap::new(alloc),
        }
    }

    /// Connects to the next hop at this address, or returns why the attempt is lost. Fails if no file descriptor or
    /// memory is left for a connection, which isn't the next hop's fault.
    pub(crate) fn connect<N: Net<Stream = TcpStream>>(
        &mut self,
        net: &N,
        at: SocketAddrV4,
    ) -> Result<Result<TcpStream, Loss>, Fault> {
        if let Some(loss) = self.losses.get(&key_of(at)) {
            return Ok(Err(*loss));
        }
        match connect(net, at) {
            Ok(stream) => Ok(Ok(stream)),
            Err(error) if is_want_of_sockets(&error) => Err(Fault::Socket),
            Err(error) => {
                let loss = Loss::of_connecting(&error);
                self.note(at, loss);
                Ok(Err(loss))
            }
        }
    }

    /// Records that the next hop at this address kept silent, if it did.
    pub(crate) fn note_silence(&mut self, at: SocketAddrV4, why: &Why) {
        if why.loss == Some(Loss::Silent) {
            self.note(at, Loss::Silent);
        }
    }

    fn note(&mut self, at: SocketAddrV4, loss: Loss) {
        // If there is no memory for the record, the next hop is tried again.
        let _ = self.losses.insert(key_of(at), loss);
    }
}

/// Returns a distinct number for each address.
fn key_of(at: SocketAddrV4) -> u64 {
    let [a, b, c, d] = at.ip().octets();
    u64::from(u32::from_be_bytes([a, b, c, d])) * 65_536 + u64::from(at.port())
}
