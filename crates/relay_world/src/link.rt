//! Links: connections between a client and a server.
use relay_octets::Octets;

/// The server end of a link, if a node serves it.
#[derive(Drop)]
pub struct ServerEnd {
    /// The index of the node.
    pub node: usize,
    /// The IPv4 address of the client.
    pub peer: [u8; 4],
    /// The number of its session at the node, as long as the session goes on.
    pub session: Option<usize>,
}

/// A link: everything that each end wrote, and how much of it the other end has read. Nothing is written to or read
/// from a broken link.
pub struct Link {
    /// The index of the attempt at the client end; none if the client is outside.
    pub client: Option<usize>,
    /// The node at the server end; none if the server is outside.
    pub server: Option<ServerEnd>,
    /// What the client wrote.
    pub up: Octets,
    /// How many of these octets the server has read.
    pub up_read: usize,
    /// What the server wrote.
    pub down: Octets,
    /// How many of these octets the client has read.
    pub down_read: usize,
    /// Whether the link is broken.
    pub broken: bool,
}

// Written out, so that the proof of a caller that drops a link stops at this function.
impl Drop for Link {
    fn drop(self) {
        let Link {
            client: _,
            server: _server,
            up: _up,
            up_read: _,
            down: _down,
            down_read: _,
            broken: _,
        } = self;
    }
}
