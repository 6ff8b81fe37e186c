//! The writer of a client's connection, which the log observes.
use std::io::{Result, Write};
use std::net::TcpStream;

/// The start of the reply to mail for which the spool has no room.
const SPOOL_FULL: &[u8] = b"452 spool full";

/// Writes replies to a client, and counts those that refuse something: their codes begin with 4 or 5 (RFC 5321, section
/// 4.2.1).
#[derive(Drop)]
pub struct ClientWriter<'a> {
    stream: &'a TcpStream,
    is_line_begun: bool,
    refusals: u64,
    /// How many octets of the line match `SPOOL_FULL`, as long as all do.
    alike: Option<usize>,
    was_full: bool,
}

impl<'a> ClientWriter<'a> {
    /// Makes a writer of this connection, before its first reply.
    pub fn new(stream: &'a TcpStream) -> Self {
        ClientWriter {
            stream,
            is_line_begun: false,
            refusals: 0,
            alike: Some(0),
            was_full: false,
        }
    }

    /// Returns how many of the replies refuse something. Each is one line.
    pub fn refusals(&self) -> u64 {
        self.refusals
    }

    /// Returns whether one of the replies says that the spool is full.
    pub fn was_full(&self) -> bool {
        self.was_full
    }

    fn count(&mut self, octets: &[u8]) {
        for octet in octets {
            self.compare(*octet);
            if !self.is_line_begun && (*octet == b'4' || *octet == b'5') {
                self.refusals = self.refusals.saturating_add(1);
            }
            self.is_line_begun = *octet != b'\n';
        }
    }

    fn compare(&mut self, octet: u8) {
        self.alike = match self.alike {
            _ if octet == b'\n' => Some(0),
            Some(place) if SPOOL_FULL.get(place) == Some(&octet) => Some(place.saturating_add(1)),
            _ => None,
        };
        self.was_full |= self.alike == Some(SPOOL_FULL.len());
    }
}

impl Write for ClientWriter<'_> {
    fn write(&mut self, octets: &[u8]) -> Result<usize> {
        let mut stream = self.stream;
        let count = stream.write(octets)?;
        self.count(&octets[..count]);
        Ok(count)
    }

    fn flush(&mut self) -> Result<()> {
        let mut stream = self.stream;
        stream.flush()
    }
}
