//! Version 1: a header is a line of text.
ghost use Rattle.std.specs.Prelude.{MatchOption};
ghost use Rattle.relay_octets.specs.Beginning.{Begins};
ghost use Rattle.relay_proxy.specs.Header.{Reads};
ghost use Rattle.relay_proxy.specs.HeaderLine.{HasNoClient, HasNoSource, SaysOfLine, WritesClient, line_word};

use crate::front::{after, begins};
use crate::header::{Header, Reading, least_left};
use crate::source::Source;
use crate::word::{read_address, read_port, read_port_word};
use relay_octets::find_crlf;
use std::net::SocketAddrV4;

/// How each line begins.
pub(crate) const WORD: &[u8] = b"PROXY ";

/// What a line says of a client that its proxy doesn't know.
const UNKNOWN: &[u8] = b"PROXY UNKNOWN";

/// The most octets of a line, with its CR LF.
const LINE_LIMIT: usize = 107;

/// Reads the line with which octets begin that begin as each line does.
pub(crate) fn read_line(octets: &[u8]) -> Reading
    requires { Begins line_word octets.now }
    ensures { Reads octets.now result }
{
    let seen = &octets[..octets.len().min(LINE_LIMIT)];
    match find_crlf(seen) {
        Some(place) => match source_of(&seen[..place]) {
            Some(source) => Reading::Found(Header {
                source,
                length: place + 2,
            }),
            None => Reading::Missing,
        },
        None if octets.len() < LINE_LIMIT => Reading::Unfinished(least_left(octets.len())),
        None => Reading::Missing,
    }
}

/// Returns what a line says, without its CR LF.
fn source_of(line: &[u8]) -> Option<Source>
    ensures { MatchOption result (HasNoSource line.now) (SaysOfLine line.now) }
{
    if let Some(text) = after(line, b"PROXY TCP4 ") {
        return match client_of(text) {
            Some(client) => Some(Source::Client(client)),
            None => None,
        };
    }
    if begins(line, b"PROXY TCP6 ") {
        return Some(Source::Other);
    }
    if line == UNKNOWN || begins(line, b"PROXY UNKNOWN ") {
        return Some(Source::Own);
    }
    None
}

/// Returns the client that source and destination address, source and destination port say.
fn client_of(text: &[u8]) -> Option<SocketAddrV4>
    ensures { MatchOption result (HasNoClient text.now) (WritesClient text.now) }
{
    let (address, after_source) = read_address(text)?;
    let (_, after_destination) = read_address(after_source)?;
    let (port, last) = read_port_word(after_destination)?;
    match read_port(last) {
        Some(_) => Some(SocketAddrV4::new(address, port)),
        None => None,
    }
}
