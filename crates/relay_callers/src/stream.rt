//! The connection of a caller.
use mio::net::{TcpStream, UnixStream};
use std::io::{Read, Write};
use std::net::Shutdown;

/// A non-blocking stream of octets in both directions: a call that would have to wait fails with `WouldBlock`.
pub trait CallerStream: Read + Write {
    /// Signals the caller that nothing more will be written.
    fn shut_down(&mut self);
}

impl CallerStream for TcpStream {
    fn shut_down(&mut self) {
        // If the connection is gone, there is nobody to signal.
        let _ = self.shutdown(Shutdown::Write);
    }
}

impl CallerStream for UnixStream {
    fn shut_down(&mut self) {
        let _ = self.shutdown(Shutdown::Write);
    }
}
