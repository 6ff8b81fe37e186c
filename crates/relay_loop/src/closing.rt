//! The reply with which the relay closes a connection unasked (RFC 5321, section 3.8).
ghost use Rattle.std.specs.Prelude.{◌≡◌, IfOk};
ghost use Rattle.relay_loop.specs.Closing.{closing_of, text_of};

use relay_lines::write_line;
use relay_routes::HostName;
use std::alloc::{AllocError, Global};

/// Why the relay closes a connection unasked.
#[derive(Clone, Copy, Drop, PartialEq, Eq)]
pub enum Closing {
    /// The greatest number of connections is open.
    TooMany,
    /// The client was silent for too long, or took its octets too slowly.
    Timeout,
    /// The relay takes no more clients, and stops soon.
    Stopping,
}

/// Returns the reply that closes a connection unasked: code 421, the name of the host, and why. Fails if memory runs
/// out.
pub fn closing_line(alloc: Global, host: &HostName, why: Closing) -> Result<Vec<u8>, AllocError>
    ensures { IfOk result (λ line. line.items ≡ closing_of host.now why) }
{
    let mut line = Vec::new(alloc);
    write_line(&mut line, 421, host.as_slice(), why.text())?;
    Ok(line)
}

impl Closing {
    /// Returns the text after the name of the host.
    fn text(self) -> &'static [u8]
        ensures { result.now ≡ text_of self }
    {
        match self {
            Closing::TooMany => b" too many connections, closing",
            Closing::Timeout => b" timeout, closing",
            Closing::Stopping => b" service stopping, closing",
        }
    }
}
