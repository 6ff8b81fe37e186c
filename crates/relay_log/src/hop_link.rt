//! The connection of an attempt, which the log observes.
use crate::talk::Talk;
use std::io::{Error, ErrorKind, Read, Result, Write};
use std::net::TcpStream;

/// Why the connection of an attempt failed.
#[derive(Clone, Copy, PartialEq, Eq)]
pub enum Loss {
    /// Nobody listens at the address, or the next hop refuses connections.
    Refused,
    /// No network route leads to the next hop.
    Unreachable,
    /// The next hop wrote or read nothing for as long as it may.
    Silent,
    /// The connection was cut off.
    Cut,
}

impl Loss {
    /// Returns why a connection couldn't be made.
    pub fn of_connecting(error: &Error) -> Self {
        match error.kind() {
            ErrorKind::ConnectionRefused => Loss::Refused,
            ErrorKind::TimedOut => Loss::Silent,
            _ => Loss::Unreachable,
        }
    }

    /// Returns the words of the log for it.
    pub(crate) fn text(self) -> &'static [u8] {
        match self {
            Loss::Refused => b"connection refused",
            Loss::Unreachable => b"unreachable",
            Loss::Silent => b"timeout",
            Loss::Cut => b"connection closed",
        }
    }
}

/// Why an attempt has settled less than it might.
#[derive(Drop)]
pub struct Why {
    /// Why its connection failed, if it did.
    pub loss: Option<Loss>,
    /// What the next hop has replied.
    pub talk: Talk,
}

impl Why {
    /// Returns what the reader and the writer of a connection have observed; `is_lost` says whether it was lost.
    pub fn told_by(reader: HopReader<'_>, writer: HopWriter<'_>, is_lost: bool) -> Self {
        let is_silent = reader.is_silent || writer.is_silent;
        let loss = if !is_lost {
            None
        } else if is_silent {
            Some(Loss::Silent)
        } else {
            Some(Loss::Cut)
        };
        Why {
            loss,
            talk: reader.talk,
        }
    }
}

/// Reads replies of a next hop, and keeps what the log needs of them.
#[derive(Drop)]
pub struct HopReader<'a> {
    stream: &'a TcpStream,
    talk: Talk,
    is_silent: bool,
}

impl<'a> HopReader<'a> {
    /// Makes a reader of this connection, before its first octet, that passes replies to `talk`.
    pub fn new(stream: &'a TcpStream, talk: Talk) -> Self {
        HopReader {
            stream,
            talk,
            is_silent: false,
        }
    }
}

impl Read for HopReader<'_> {
    fn read(&mut self, into: &mut [u8]) -> Result<usize> {
        let mut stream = self.stream;
        match stream.read(into) {
            Ok(count) => {
                self.talk.hear(&into[..count]);
                Ok(count)
            }
            Err(error) => {
                self.is_silent = has_waited(&error);
                Err(error)
            }
        }
    }
}

/// Writes to a next hop.
#[derive(Drop)]
pub struct HopWriter<'a> {
    stream: &'a TcpStream,
    is_silent: bool,
}

impl<'a> HopWriter<'a> {
    /// Makes a writer of this connection.
    pub fn new(stream: &'a TcpStream) -> Self {
        HopWriter {
            stream,
            is_silent: false,
        }
    }
}

impl Write for HopWriter<'_> {
    fn write(&mut self, octets: &[u8]) -> Result<usize> {
        let mut stream = self.stream;
        match stream.write(octets) {
            Ok(count) => Ok(count),
            Err(error) => {
                self.is_silent = has_waited(&error);
                Err(error)
            }
        }
    }

    fn flush(&mut self) -> Result<()> {
        let mut stream = self.stream;
        stream.flush()
    }
}

/// Returns whether a call has timed out.
fn has_waited(error: &Error) -> bool {
    matches!(error.kind(), ErrorKind::WouldBlock | ErrorKind::TimedOut)
}
