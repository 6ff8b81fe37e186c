//! The replies of a next hop on one connection.
ghost use Rattle.std.specs.Prelude.{◌≡◌};
ghost use Rattle.relay_next_hops.specs.Deliveries.{is_closing};

use relay_lines::{Reply, ReplyReader};
use std::alloc::Global;

/// The code by which a server closes the connection (RFC 5321, section 3.8).
const CLOSING: u16 = 421;

/// Reads the replies of a next hop as they come, and keeps the last one.
pub(crate) struct Heard {
    reader: ReplyReader,
    /// The last reply that has ended since this was emptied.
    pub(crate) last: Option<Reply>,
}

// Written out, so that the proof of a caller that drops it stops at this function.
impl Drop for Heard {
    fn drop(self) {
        let Heard {
            reader: _reader,
            last: _last,
        } = self;
    }
}

impl Heard {
    /// Returns a reader that has heard nothing. Allocates nothing.
    pub(crate) fn new(alloc: Global) -> Self {
        Heard {
            reader: ReplyReader::new(alloc),
            last: None,
        }
    }

    /// Returns whether the next hop closes the connection by the last reply.
    pub(crate) fn is_closing(&self) -> bool
        ensures { result ≡ is_closing self.now.last }
    {
        match &self.last {
            Some(reply) => reply.code() == CLOSING,
            None => false,
        }
    }

    /// Takes the next octets that the next hop wrote. After octets that are no reply, or if memory runs out, it hears
    /// no more.
    pub(crate) fn hear(&mut self, octets: &[u8]) {
        let mut rest = octets;
        // Each reply has an octet at least.
        for _ in 0..octets.len() {
            if rest.is_empty() {
                return;
            }
            let Ok(cut) = self.reader.feed(rest) else {
                return;
            };
            rest = &rest[cut.used..];
            if cut.reply.is_some() {
                self.last = cut.reply;
            }
        }
    }
}
