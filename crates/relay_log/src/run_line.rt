//! Log lines of `relayd run`.
use crate::head::Head;
use crate::hop_link::Loss;
use relay_backlog::LogLine;
use std::fmt::Display;
use std::io;
use std::net::SocketAddrV4;

/// Returns the line of the address at which the relay listens.
pub(crate) fn listening_line(head: Head, at: SocketAddrV4) -> io::Result<LogLine> {
    let mut line = head.line(b"listening")?;
    head.add_address(&mut line, b"addr", at)?;
    Ok(line)
}

/// Returns the line of a request of the control socket: `control request=flush`.
pub(crate) fn steered_line(head: Head, request: &[u8]) -> io::Result<LogLine> {
    let mut line = head.line(b"control")?;
    line.octets(b"request", request)?;
    Ok(line)
}

/// Returns the line of a next hop that is on hold for this many seconds.
pub(crate) fn hop_held_line(
    head: Head,
    hop: &[u8],
    at: SocketAddrV4,
    seconds: u64,
    loss: Loss,
) -> io::Result<LogLine> {
    let mut line = head.line(b"hop-held")?;
    line.octets(b"hop", hop)?;
    head.add_address(&mut line, b"addr", at)?;
    line.number(b"retry_in", seconds, b"s")?;
    line.octets(b"reason", loss.text())?;
    Ok(line)
}

/// Returns the line of a next hop that has replied again after it was on hold for `seconds`, with `failures` failed
/// connections.
pub(crate) fn hop_back_line(
    head: Head,
    hop: &[u8],
    at: SocketAddrV4,
    seconds: u64,
    failures: u64,
) -> io::Result<LogLine> {
    let mut line = head.line(b"hop-back")?;
    line.octets(b"hop", hop)?;
    head.add_address(&mut line, b"addr", at)?;
    line.number(b"held", seconds, b"s")?;
    line.number(b"failures", failures, b"")?;
    Ok(line)
}

/// Returns the line of a configured address that this machine doesn't have yet.
pub(crate) fn address_awaited_line(
    head: Head,
    at: SocketAddrV4,
    seconds: u64,
) -> io::Result<LogLine> {
    let mut line = head.line(b"address-awaited")?;
    head.add_address(&mut line, b"addr", at)?;
    line.number(b"longest", seconds, b"s")?;
    Ok(line)
}

/// Returns the line of a spool that was compacted, with its sizes before and after, in octets.
pub(crate) fn compacted_line(head: Head, before: usize, after: usize) -> io::Result<LogLine> {
    let mut line = head.line(b"compacted")?;
    line.number(b"before", before as u64, b"")?;
    line.number(b"after", after as u64, b"")?;
    Ok(line)
}

/// Returns the line of a fault by which a push has ended before its last work; what is due stays due.
pub(crate) fn push_ended_line<F: Display>(head: Head, fault: &F) -> io::Result<LogLine> {
    let mut line = head.line(b"push-ended")?;
    let text = format!(in head.alloc; "{fault}")?;
    line.octets(b"reason", text.as_bytes())?;
    Ok(line)
}

/// Returns the line of a fault by which the relay ends.
pub(crate) fn stopping_line<F: Display>(head: Head, fault: &F) -> io::Result<LogLine> {
    let mut line = head.line(b"stopping")?;
    let text = format!(in head.alloc; "{fault}")?;
    line.octets(b"reason", text.as_bytes())?;
    Ok(line)
}

/// What is known of a device failure.
#[derive(Clone, Copy, Drop)]
pub struct DeviceFailure<'a> {
    /// The system's error, if there was one.
    pub reason: Option<io::Error>,
    /// The file on which a call has failed, if it is known.
    pub file: Option<&'a str>,
    /// How many seconds later the spool is opened again.
    pub retry_in: u64,
}

/// Returns the line of a failure of a device: `device-failed reason="No space left on device" file=/var/spool/relayd/a
/// retry_in=1s`.
pub(crate) fn device_failed_line(head: Head, failure: &DeviceFailure<'_>) -> io::Result<LogLine> {
    let mut line = head.line(b"device-failed")?;
    if let Some(reason) = failure.reason {
        let said = format!(in head.alloc; "{reason}")?;
        line.octets(b"reason", without_number(said.as_bytes()))?;
    }
    if let Some(file) = failure.file {
        line.octets(b"file", file.as_bytes())?;
    }
    line.number(b"retry_in", failure.retry_in, b"s")?;
    Ok(line)
}

/// Returns the text of a system's error, without the number that ends it.
fn without_number(said: &[u8]) -> &[u8] {
    match said.split(|octet| *octet == b'(').next() {
        Some(words) => words.trim_ascii(),
        None => said,
    }
}
