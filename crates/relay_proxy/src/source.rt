use std::net::SocketAddrV4;

/// What a header says of the client.
#[derive(Clone, Copy, Drop)]
pub enum Source {
    /// Nothing: the connection's own address stands. The proxy speaks for itself, or doesn't know its client.
    Own,
    /// The client's address and port.
    Client(SocketAddrV4),
    /// The client comes by another protocol than TCP over IPv4.
    Other,
}
