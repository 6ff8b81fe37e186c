//! The octets that were read of a PROXY protocol header, and nothing after it.
ghost use Rattle.std.specs.Prelude.{◌≡◌, [], IfOk, OnErr};
ghost use Rattle.relay_proxy.specs.Header.{IsBegun};
ghost use Rattle.relay_connections.specs.HeaderFront.{Comes, ReadsWhole};

use crate::stream::Stream;
use relay_proxy::{Reading, read_header};
use std::io;
use std::marker::Model;

/// The most octets of a header.
const HEADER_SIZE: usize = 536;

/// The first octets of a connection, up to the end of its header.
pub(crate) struct HeaderOctets {
    octets: [u8; HEADER_SIZE],
    /// How many of them were read.
    length: usize,
}

// Written out, so that the proof of a caller that drops them stops at this function.
impl Drop for HeaderOctets {
    fn drop(self) {
        let HeaderOctets {
            octets: _,
            length: _,
        } = self;
    }
}

impl Model for HeaderOctets {
    ghost use Rattle.std.specs.Prelude.{◌≤◌, ℕ, List, take};
    ghost use Rattle.relay_connections.specs.HeaderFront.{HasNothingAfter};

    ghost Value = { List ℕ };

    ghost view = { λ header. take header.length header.octets };

    ghost invariant = { λ header. (header.length ≤ 536) × HasNothingAfter (take header.length header.octets) };
}

impl HeaderOctets {
    /// Returns no octets.
    pub(crate) fn new() -> Self
        ensures { result ≡ [] }
    {
        HeaderOctets {
            octets: [0; HEADER_SIZE],
            length: 0,
        }
    }

    /// Returns whether they are a complete header, can't be one, or are a prefix of one.
    pub(crate) fn reading(&self) -> Reading
        ensures { ReadsWhole self.now result }
    {
        read_header(&self.octets[..self.length])
    }

    /// Reads the next octets of a stream, at most `count`; the header must lack at least that many, so that nothing
    /// after it is read. Returns how many arrived; 0 means the end of the input. Fails as the stream does, without
    /// octets then.
    pub(crate) fn fill<S: Stream>(&mut self, stream: &mut S, count: usize) -> io::Result<usize>
        requires { IsBegun self.old count }
        ensures came { Comes (S.remaining stream.old) (S.remaining stream.new) self.old self.new }
        ensures none { IfOk result (λ came. came ≡ 0 → self.new ≡ self.old) }
        ensures fault { OnErr result (self.new ≡ self.old) }
        ensures contents { S.contents stream.new ≡ S.contents stream.old }
    {
        let end = self.length + count.min(HEADER_SIZE - self.length);
        let came = stream.try_read(&mut self.octets[self.length..end])?;
        self.length += came;
        Ok(came)
    }
}
