ghost use Rattle.std.specs.Prelude.{◌≡◌, ◌++◌, decimal, IfOk, IfErr, OnOk};
ghost use Rattle.relay_octets.specs.Line.{line_text};
ghost use Rattle.relay_trace.specs.TimeStamp.{IsTimeStamp, address_text, by_line, date_line, from_line, protocol_word};
ghost use Rattle.relay_trace.specs.TimeStamp.{stamp_of};

use crate::date::date_octets;
use crate::moment::{Moment, TraceFault};
use itoa::Buffer;
use std::alloc::{AllocError, Global};

/// The octets that most time stamp lines fit into.
const USUAL_LEN: usize = 160;

/// The command that opened a session.
#[derive(Clone, Copy, PartialEq, Eq)]
pub enum Protocol {
    /// HELO.
    Smtp,
    /// EHLO.
    Esmtp,
}

/// The values of a time stamp line (RFC 5321, section 4.4).
#[derive(Clone, Copy)]
pub struct TimeStamp<'a> {
    /// The client's word with HELO or EHLO.
    pub client: &'a [u8],
    /// The IPv4 address that the client connected from.
    pub peer: [u8; 4],
    /// The name of this host.
    pub host: &'a [u8],
    /// The protocol of the session.
    pub protocol: Protocol,
    /// The number of the message.
    pub number: u64,
    /// When the message was accepted.
    pub accepted: Moment,
}

/// Returns the time stamp line: a `Received:` field of three lines, each with its CR LF. Fails if memory runs out.
pub fn received_line(alloc: Global, stamp: &TimeStamp<'_>) -> Result<Vec<u8>, TraceFault>
    ensures line { IfOk result (λ line. IsTimeStamp (stamp_of stamp.now) line.items) }
    ensures fault { IfErr result (λ fault. fault ≡ TraceFault.NoMemory) }
{
    let mut line = Vec::with_capacity(alloc, USUAL_LEN)?;
    push_from(&mut line, stamp)?;
    push_by(&mut line, stamp)?;
    line.extend_from_slice(b" ")?;
    line.extend_from_slice(&date_octets(stamp.accepted))?;
    line.extend_from_slice(b"\r\n")?;
    Ok(line)
}

/// Writes the line of the client's word and its address.
fn push_from(line: &mut Vec<u8>, stamp: &TimeStamp<'_>) -> Result<(), AllocError>
    ensures { OnOk result (line.new.items
        ≡ line.old.items ++ line_text (from_line (stamp_of stamp.now))) }
{
    line.extend_from_slice(b"Received: from ")?;
    line.extend_from_slice(stamp.client)?;
    line.extend_from_slice(b" ([")?;
    push_address(line, stamp.peer)?;
    line.extend_from_slice(b"])\r\n")?;
    Ok(())
}

/// Writes the line of this host, the protocol and the message's number.
fn push_by(line: &mut Vec<u8>, stamp: &TimeStamp<'_>) -> Result<(), AllocError>
    ensures { OnOk result (line.new.items
        ≡ line.old.items ++ line_text (by_line (stamp_of stamp.now))) }
{
    line.extend_from_slice(b" by ")?;
    line.extend_from_slice(stamp.host)?;
    line.extend_from_slice(b" with ")?;
    line.extend_from_slice(protocol_word(stamp.protocol))?;
    line.extend_from_slice(b" id ")?;
    line.extend_from_slice(Buffer::new().format(stamp.number).as_bytes())?;
    line.extend_from_slice(b";\r\n")
}

/// Writes an IPv4 address: its octets in decimal, separated by periods.
#[tactic(auto, unfolding(crate::specs::TimeStamp::address_text))]
fn push_address(line: &mut Vec<u8>, peer: [u8; 4]) -> Result<(), AllocError>
    ensures { OnOk result (line.new.items ≡ line.old.items ++ address_text peer) }
{
    push_number(line, peer[0])?;
    line.extend_from_slice(b".")?;
    push_number(line, peer[1])?;
    line.extend_from_slice(b".")?;
    push_number(line, peer[2])?;
    line.extend_from_slice(b".")?;
    push_number(line, peer[3])
}

/// Writes an octet in decimal.
fn push_number(line: &mut Vec<u8>, octet: u8) -> Result<(), AllocError>
    ensures { OnOk result (line.new.items ≡ line.old.items ++ decimal octet) }
{
    line.extend_from_slice(Buffer::new().format(octet).as_bytes())
}

/// Returns the name of a protocol.
fn protocol_word(protocol: Protocol) -> &'static [u8]
    ensures { result.now ≡ protocol_word protocol }
{
    match protocol {
        Protocol::Smtp => b"SMTP",
        Protocol::Esmtp => b"ESMTP",
    }
}
