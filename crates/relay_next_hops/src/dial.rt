//! Opening connections to next hops.
ghost use Rattle.std.specs.Prelude.{◌≡◌, ◌-◌, ◌↔◌, ◌≤◌, ◌<◌, IfOk, IsTrue};
ghost use Rattle.relay_next_hops.specs.declared.spare_descriptors.TheConstants.{SPARE_COUNT};

use std::io;
use std::net::SocketAddrV4;

/// Opens non-blocking streams to addresses. It also keeps spare file descriptors, so that clients can't take them all:
/// one may be given up if the system has none left for a stream.
pub trait Dial {
    ghost use Rattle.std.specs.Prelude.{◌≡◌, ◌-◌, ◌↔◌, ◌≤◌, ◌<◌, ℕ, IfOk, IsTrue};
    ghost use Rattle.std.specs.declared.net.socket_addr.SocketAddrV4.{SocketAddrV4};
    ghost use Rattle.relay_next_hops.specs.declared.spare_descriptors.TheConstants.{SPARE_COUNT};

    /// The streams that it opens.
    type Stream;

    // the stream was opened to this address, as far as that can be known
    ghost leads_to: { Self.Stream → SocketAddrV4 → Type 0 };

    // how many spare descriptors it keeps
    ghost spares: { Self → ℕ };

    /// Begins to open a stream to an address. Fails if the system refuses.
    fn connect(&mut self, at: SocketAddrV4) -> io::Result<Self::Stream>
        ensures leads { IfOk result (λ stream. leads_to stream at) }
        ensures kept { spares self.new ≡ spares self.old };

    /// Takes spare descriptors up to four, and returns whether there are four: only then may a client be accepted.
    fn fill_spares(&mut self) -> bool
        ensures { IsTrue result ↔ (SPARE_COUNT ≤ spares self.new) };

    /// Gives up a spare descriptor, and returns whether there was one.
    fn give_spare(&mut self) -> bool
        ensures given { IsTrue result ↔ (0 < spares self.old) }
        ensures fewer { spares self.new ≡ spares self.old - 1 };
}
