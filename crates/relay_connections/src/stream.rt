//! A system's stream, without waiting.
ghost use Rattle.std.specs.Prelude.{◌≡◌, true};
ghost use Rattle.std.specs.Io.{ReadsAtMost, WritesAtMost};
ghost use Rattle.mio.specs.Interest.{is_readable, is_writable};

use mio::net::TcpStream;
use mio::{Interest, Registry, Token};
use std::io::{self, Read, Write};
use std::net::Shutdown;

/// A non-blocking stream of octets in both directions: a call that would have to wait fails with `WouldBlock`. Its
/// readiness is reported through a registry of its own type.
pub trait Stream {
    ghost use Rattle.std.specs.Prelude.{◌≡◌, ℕ, List, Option, None};
    ghost use Rattle.std.specs.Io.{ReadsAtMost, WritesAtMost};
    ghost use Rattle.std.specs.Io.KnownBytes.{ReadConsumes, WriteAppends};
    ghost use Rattle.relay_connections.specs.Channel.{IsUnder, WasTried};
    ghost use Rattle.std.specs.Prelude.{IfOk};

    /// What reports its readiness.
    type Registry;

    // the octets that reads will yield from here on, if they are known
    ghost remaining: { Self → Option (List ℕ) } = { λ _. None };

    // the octets that writes have taken so far, if they are known
    ghost contents: { Self → Option (List ℕ) } = { λ _. None };

    // how often it was tried to write to it, if that is counted
    ghost tries: { Self → Option ℕ } = { λ _. None };

    // the token under which the system reports of it, if it is known
    ghost registered: { Self → Option ℕ } = { λ _. None };

    /// Reads the next octets into a buffer, and returns how many; 0 means the end of the input. Fails if it would have
    /// to wait, or the connection is broken.
    fn try_read(&mut self, into: &mut [u8]) -> io::Result<usize>
        ensures bound { ReadsAtMost result into.new }
        ensures bytes { ReadConsumes (remaining self.old) (remaining self.new) result into.new }
        ensures contents { contents self.new ≡ contents self.old };

    /// Writes a prefix of these octets, and returns its length. Fails if it would have to wait, or the connection is
    /// broken.
    fn try_write(&mut self, octets: &[u8]) -> io::Result<usize>
        ensures bound { WritesAtMost result octets.now }
        ensures bytes { WriteAppends (contents self.old) (contents self.new) result octets.now }
        ensures tried { WasTried (tries self.old) (tries self.new) }
        ensures remaining { remaining self.new ≡ remaining self.old };

    /// Disables Nagle's algorithm, so that octets are sent at once.
    fn set_nodelay(&mut self)
        ensures remaining { remaining self.new ≡ remaining self.old }
        ensures contents { contents self.new ≡ contents self.old };

    /// Shuts the write side down.
    fn shut_down(&mut self)
        ensures remaining { remaining self.new ≡ remaining self.old }
        ensures contents { contents self.new ≡ contents self.old };

    /// Returns whether it is connected, or why connecting has failed.
    fn has_connected(&self) -> io::Result<bool>;

    /// Registers the stream under this token; what it is ready for already is reported too. `again` says that it was
    /// registered before. Fails if the system refuses.
    fn register(&mut self, registry: &Self::Registry, token: usize, again: bool) -> io::Result<()>
        ensures under { IfOk result (λ _. IsUnder token (registered self.new)) }
        ensures remaining { remaining self.new ≡ remaining self.old }
        ensures contents { contents self.new ≡ contents self.old };

    /// Deregisters the stream, until it is registered again.
    fn deregister(&mut self, registry: &Self::Registry) -> io::Result<()>
        ensures remaining { remaining self.new ≡ remaining self.old }
        ensures contents { contents self.new ≡ contents self.old };
}

impl Stream for TcpStream {
    type Registry = Registry;

    fn try_read(&mut self, into: &mut [u8]) -> io::Result<usize> {
        self.read(into)
    }

    fn try_write(&mut self, octets: &[u8]) -> io::Result<usize> {
        self.write(octets)
    }

    fn set_nodelay(&mut self) {
        // Without that the connection only is slower.
        let _ = TcpStream::set_nodelay(self, true);
    }

    fn shut_down(&mut self) {
        // If the connection is gone, there is nobody to signal.
        let _ = self.shutdown(Shutdown::Write);
    }

    fn has_connected(&self) -> io::Result<bool> {
        match self.take_error()? {
            Some(error) => Err(error),
            None => Ok(self.peer_addr().is_ok()),
        }
    }

    fn register(&mut self, registry: &Registry, token: usize, again: bool) -> io::Result<()> {
        if again {
            registry.reregister(self, Token(token), both_ways())
        } else {
            registry.register(self, Token(token), both_ways())
        }
    }

    fn deregister(&mut self, registry: &Registry) -> io::Result<()> {
        registry.deregister(self)
    }
}

/// Returns what a stream is registered for: that it may be read, and that it may be written to.
fn both_ways() -> Interest
    ensures reads { is_readable result ≡ true }
    ensures writes { is_writable result ≡ true }
{
    Interest::READABLE | Interest::WRITABLE
}
