//! The lines of the log for clients.
use crate::client_record::ClientRecord;
use crate::head::Head;
use crate::refused::Refused;
use memchr::memmem;
use relay_backlog::LogLine;
use relay_book::Message;
use relay_disk::Disk;
use relay_envelope::Recipient;
use relay_node::Node;
use std::fmt::Display;
use std::io;
use std::net::SocketAddrV4;

/// How the time stamp line that the relay puts before a message begins; the client's EHLO or HELO name follows, up to a
/// space (RFC 5321, section 4.4).
const STAMP_BEGINNING: &[u8] = b"Received: from ";

/// The part of a time stamp line that says that the client used EHLO.
const WITH_ESMTP: &[u8] = b" with ESMTP id ";

/// How many octets of a message are searched for that; a time stamp line has fewer.
const STAMP_LIMIT: usize = 1_024;

/// The most octets of recipients' paths in one line; there is room for them even if each is escaped.
const LIST_LIMIT: usize = 320;

/// The messages that the node has accepted on a connection.
#[derive(Clone, Copy)]
pub enum Messages<'a> {
    /// Those from this number on, if no other connection was served meanwhile.
    From(u64),
    /// Those with these numbers.
    Numbered(&'a [u64]),
}

/// A client's connection that has ended.
#[derive(Clone, Copy)]
pub struct Connection<'a, F> {
    /// The client's address and port.
    pub peer: SocketAddrV4,
    /// How it has ended.
    pub end: Result<(), F>,
    /// How many octets were read on it.
    pub octets: u64,
    /// How many of the replies have refused something.
    pub refusals: u64,
    /// The messages that were accepted on it.
    pub messages: Messages<'a>,
}

/// Why a client's connection has ended.
#[derive(Clone, Copy, PartialEq, Eq)]
pub enum ClientEnd {
    /// The client sent QUIT, or the relay accepted no more of its commands and said so by a 421 reply.
    Quit,
    /// The relay is stopping, or waits to take a new configuration, and said so by a 421 reply.
    Stopping,
    /// The client has closed the connection.
    Closed,
    /// The client wrote or read nothing for too long.
    Timeout,
    /// The connection broke.
    Reset,
    /// There was no memory for the connection.
    NoMemory,
}

impl ClientEnd {
    /// Returns the word of the log for it.
    fn word(self) -> &'static [u8] {
        match self {
            ClientEnd::Quit => b"quit",
            ClientEnd::Stopping => b"stopping",
            ClientEnd::Closed => b"closed",
            ClientEnd::Timeout => b"timeout",
            ClientEnd::Reset => b"reset",
            ClientEnd::NoMemory => b"no-memory",
        }
    }
}

/// Why a connection of a balancer has no client.
#[derive(Clone, Copy, PartialEq, Eq)]
pub enum HeaderFault {
    /// It begins with no header of the PROXY protocol, or has ended before its header.
    Missing,
    /// The header hasn't come in time.
    Late,
    /// The client comes by another protocol than TCP over IPv4.
    OtherProtocol,
    /// The greatest number of connections waits for headers.
    NoRoom,
    /// There was no memory, or no place with the system, for it.
    NoMemory,
}

impl HeaderFault {
    /// Returns the word of the log for it.
    fn word(self) -> &'static [u8] {
        match self {
            HeaderFault::Missing => b"no-proxy-header",
            HeaderFault::Late => b"proxy-header-timeout",
            HeaderFault::OtherProtocol => b"proxy-not-ipv4",
            HeaderFault::NoRoom => b"no-room",
            HeaderFault::NoMemory => b"no-memory",
        }
    }
}

/// Returns the line of a balancer's connection that was closed since its header names no client.
pub(crate) fn header_fault_line(
    head: Head,
    balancer: SocketAddrV4,
    fault: HeaderFault,
) -> io::Result<LogLine> {
    let mut line = head.line(b"client-end")?;
    head.add_address(&mut line, b"balancer", balancer)?;
    line.octets(b"reason", fault.word())?;
    Ok(line)
}

/// Returns the line of a connection that has ended at this tick.
pub(crate) fn client_end_line(
    head: Head,
    peer: SocketAddrV4,
    record: &ClientRecord,
    end: ClientEnd,
    tick: u64,
) -> io::Result<LogLine> {
    let mut line = head.line(b"client-end")?;
    head.add_address(&mut line, b"client", peer)?;
    line.number(b"messages", record.messages(), b"")?;
    line.number(b"rejected", record.refusals(), b"")?;
    line.number(b"octets", record.octets(), b"")?;
    line.number(b"duration", record.seconds(tick), b"s")?;
    line.octets(b"reason", end.word())?;
    Ok(line)
}

/// Returns the line of a connection that one call has served.
pub(crate) fn connection_line<D: Disk, F: Display>(
    head: Head,
    node: &Node<D>,
    connection: &Connection<'_, F>,
) -> io::Result<LogLine> {
    let mut line = head.line(b"client-end")?;
    head.add_address(&mut line, b"client", connection.peer)?;
    line.number(b"messages", count_of(node, connection.messages), b"")?;
    line.number(b"rejected", connection.refusals, b"")?;
    line.number(b"octets", connection.octets, b"")?;
    match &connection.end {
        Ok(()) => line.octets(b"reason", b"closed")?,
        Err(fault) => {
            let text = format!(in head.alloc; "{fault}")?;
            line.octets(b"reason", text.as_bytes())?;
        }
    }
    Ok(line)
}

/// Returns how many messages the node has taken.
pub(crate) fn count_of<D: Disk>(node: &Node<D>, messages: Messages<'_>) -> u64 {
    match messages {
        Messages::From(first) => node.next_number().saturating_sub(first),
        Messages::Numbered(numbers) => numbers.len() as u64,
    }
}

/// Returns the line of a client whose connection was closed before anything was read or written on it.
pub(crate) fn unserved_line(head: Head, peer: SocketAddrV4) -> io::Result<LogLine> {
    let mut line = head.line(b"client-end")?;
    head.add_address(&mut line, b"client", peer)?;
    line.octets(b"reason", b"no-memory")?;
    Ok(line)
}

/// Why a client that has connected isn't served: it gets one line that gives the reason.
#[derive(Clone, Copy, Drop, PartialEq, Eq)]
pub enum Refusal {
    /// 421: the greatest number of connections is open.
    NoRoom,
    /// 421: the relay takes no more clients, and stops soon.
    Stopping,
    /// 554: the client may not connect.
    NoService,
}

impl Refusal {
    /// Returns the word of the log for it.
    fn word(self) -> &'static [u8] {
        match self {
            Refusal::NoRoom => b"too-many",
            Refusal::Stopping => b"stopping",
            Refusal::NoService => b"no-service",
        }
    }
}

/// Returns the line of clients of an address that weren't served, with their number, and the address and port of the
/// last.
pub(crate) fn turned_away_line(
    head: Head,
    peer: SocketAddrV4,
    why: Refusal,
    count: u64,
) -> io::Result<LogLine> {
    let mut line = head.line(b"client-end")?;
    head.add_address(&mut line, b"client", peer)?;
    line.octets(b"reason", why.word())?;
    line.number(b"count", count, b"")?;
    Ok(line)
}

/// Returns the line of a reply to a client that refuses something.
pub(crate) fn rejected_line(head: Head, peer: SocketAddrV4, reply: &[u8]) -> io::Result<LogLine> {
    let reply = reply.trim_ascii();
    let mut line = head.line(b"rejected")?;
    head.add_address(&mut line, b"client", peer)?;
    if let Some(command) = Refused::by_reply(reply) {
        line.octets(b"command", command.word())?;
    }
    line.octets(b"reply", reply)?;
    Ok(line)
}

/// Returns the line of replies to clients of an address that refuse something and have no line of their own, with their
/// number, and the address and port of the last client.
pub(crate) fn more_rejected_line(
    head: Head,
    peer: SocketAddrV4,
    count: u64,
) -> io::Result<LogLine> {
    let mut line = head.line(b"rejected")?;
    head.add_address(&mut line, b"client", peer)?;
    line.number(b"count", count, b"")?;
    Ok(line)
}

/// Returns the first line of a message that was accepted: its number, the client's address and word, the protocol, how
/// many recipients it has, how many octets are relayed, the reverse path, and the first recipients; and how many of
/// these it has.
pub(crate) fn accepted_line(
    head: Head,
    peer: SocketAddrV4,
    message: &Message,
) -> io::Result<(LogLine, usize)> {
    let accept = &message.accept;
    let stored_text = accept.stored_text.as_slice();
    let word = client_word(stored_text);
    let reverse_path = accept.envelope.reverse_path.as_slice();
    let recipients = accept.envelope.recipients.as_slice();
    let mut line = head.line(b"accepted")?;
    line.number(b"message", message.number, b"")?;
    head.add_address(&mut line, b"client", peer)?;
    line.octets(b"helo", word)?;
    line.octets(b"protocol", protocol(stored_text))?;
    line.number(b"recipients", recipients.len() as u64, b"")?;
    line.number(b"size", stored_text.len() as u64, b"")?;
    line.octets(b"from", reverse_path)?;
    let limit = LIST_LIMIT.saturating_sub(word.len());
    let limit = limit.saturating_sub(reverse_path.len());
    let count = add_recipients(head, &mut line, recipients, limit)?;
    Ok((line, count))
}

/// Returns a further line of a message that was accepted, with the next recipients, and how many of these it has.
pub(crate) fn more_accepted_line(
    head: Head,
    number: u64,
    recipients: &[Recipient],
) -> io::Result<(LogLine, usize)> {
    let mut line = head.line(b"accepted")?;
    line.number(b"message", number, b"")?;
    let count = add_recipients(head, &mut line, recipients, LIST_LIMIT)?;
    Ok((line, count))
}

/// Adds the paths of recipients to a line, with spaces between, up to `limit` octets. Returns how many it adds.
fn add_recipients(
    head: Head,
    line: &mut LogLine,
    recipients: &[Recipient],
    limit: usize,
) -> io::Result<usize> {
    let mut value = Vec::new(head.alloc);
    let mut count: usize = 0;
    for recipient in recipients {
        let path = recipient.path.as_slice();
        if limit <= value.len().saturating_add(path.len()) {
            break;
        }
        if !value.is_empty() {
            value.push(b' ')?;
        }
        value.extend_from_slice(path)?;
        count = count.saturating_add(1);
    }
    if !value.is_empty() {
        line.octets(b"to", value.as_slice())?;
    }
    Ok(count)
}

/// Returns the word that a client gave of itself; none if the text begins with another line than its time stamp.
fn client_word(stored_text: &[u8]) -> &[u8] {
    let Some(rest) = stored_text.strip_prefix(STAMP_BEGINNING) else {
        return &[];
    };
    match rest.split(|octet| *octet == b' ').next() {
        Some(word) => word,
        None => &[],
    }
}

/// Returns the protocol that a time stamp line names.
fn protocol(stored_text: &[u8]) -> &'static [u8] {
    let stamp = &stored_text[..stored_text.len().min(STAMP_LIMIT)];
    match memmem::find(stamp, WITH_ESMTP) {
        Some(_) => b"ESMTP",
        None => b"SMTP",
    }
}
