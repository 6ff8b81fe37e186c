ghost use Rattle.std.specs.Prelude.{◌≡◌, IfOk};
ghost use Rattle.relay_server.specs.State.{client_of};

use relay_octets::Octets;
use relay_trace::Protocol;
use std::alloc::{AllocError, Global};

/// The client of a session, by its HELO or EHLO.
pub struct Client {
    /// Its argument: 1 to 255 octets.
    pub word: Octets,
    /// Which command it was.
    pub protocol: Protocol,
}

// Written out, so that the proof of a caller that drops a client stops at this function.
impl Drop for Client {
    fn drop(self) {
        let Client {
            word: _word,
            protocol: _,
        } = self;
    }
}

impl Client {
    /// Copies the word of a client. Fails if memory runs out.
    pub(crate) fn new(alloc: Global, word: &[u8], protocol: Protocol) -> Result<Self, AllocError>
        ensures { IfOk result (λ client. client ≡ client_of word.now protocol) }
    {
        Ok(Client {
            word: Octets::from_slice(alloc, word)?,
            protocol,
        })
    }

    /// Copies the client. Fails if memory runs out.
    pub fn copy(&self, alloc: Global) -> Result<Self, AllocError>
        ensures { IfOk result (λ copy. copy ≡ self.now) }
    {
        Client::new(alloc, self.word.as_slice(), self.protocol)
    }
}
