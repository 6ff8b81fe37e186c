//! The subcommands `flush`, `hold`, `release`, `drain` and `reload`.
ghost use Rattle.std.specs.Prelude.{◌≡◌, IfErr, IfOk, OnOk};
ghost use Rattle.std.specs.Io.KnownBytes.{Appends};
ghost use Rattle.relay_steering.specs.Lines.{printed, printed_line};
ghost use Rattle.relay_steering.specs.Steering.{AsksFor, HasNoRequest, HasNoScope, IsNotDone, IsNotObeyed, IsObeyed};
ghost use Rattle.relay_steering.specs.Steering.{IsRefusal, Names, TellsDone};

use crate::control_client::socket_path;
use crate::exchange::{Relay, RelayAt, ask};
use crate::lines::cut_line;
use crate::steering_fault::SteeringFault;
use relay_arguments::{Mail, Steering};
use relay_control::{End, Request, Scope, read_answer};
use relay_files::Fault;
use relay_routes::HostName;
use std::alloc::Global;
use std::fs::File;
use std::io::{self, Write};
use std::net::Net;
use std::rt::Files;

/// Sends a request to the relay whose configuration is in a file, and prints the lines of its answer.
pub fn steer<R: Files<File = File> + Net, W: Write>(
    alloc: Global,
    rt: &R,
    file: &str,
    asked: Steering<'_>,
    writer: &mut W,
) -> Result<(), SteeringFault> {
    let Some(path) = socket_path(alloc, rt, file)? else {
        return Err(SteeringFault::NoSocket);
    };
    let relay = RelayAt {
        net: rt,
        path: path.as_str(),
    };
    steer_by(alloc, &relay, asked, writer)
}

/// Sends a request to a relay, and prints the lines of its answer. Fails if no next hop can have the name, if no answer
/// comes, if the relay refuses the request, if the output can't be written, or if memory runs out.
fn steer_by<R: Relay, W: Write>(
    alloc: Global,
    relay: &R,
    asked: Steering<'_>,
    writer: &mut W,
) -> Result<(), SteeringFault>
    ensures obeyed { OnOk result (IsObeyed R.is_new R.Stream.contents R.Stream.remaining (W.contents writer.old)
        (W.contents writer.new) asked.entry) }
    ensures failed { IfErr result (IsNotObeyed R.is_new R.Stream.contents R.Stream.remaining asked.entry) }
{
    let request = request_of(alloc, asked)?;
    let octets = ask(alloc, relay, &request)?;
    print_answer(alloc, octets.as_slice(), writer)
}

/// Prints the lines of an answer. Fails if the octets are no answer, if the output can't be written, if the relay
/// refused the request, or if memory runs out.
fn print_answer<W: Write>(alloc: Global, octets: &[u8], writer: &mut W) -> Result<(), SteeringFault>
    ensures told { OnOk result (TellsDone octets.now (W.contents writer.old) (W.contents writer.new)) }
    ensures failed { IfErr result (IsNotDone octets.now) }
{
    let Some(reply) = read_answer(octets) else {
        return Err(SteeringFault::NoAnswer);
    };
    if print_lines(reply.lines, writer).is_err() {
        return Err(SteeringFault::Files(Fault::Output));
    }
    end_of(alloc, reply.end)?;
    Ok(())
}

/// Succeeds if the relay did what a request asked. Fails if it refused the request, for its reason, or if memory runs
/// out.
pub(crate) fn end_of(alloc: Global, end: End<'_>) -> Result<(), SteeringFault>
    ensures done { OnOk result (end.entry ≡ End.Done) }
    ensures refused { IfErr result (IsRefusal end.entry) }
{
    match end {
        End::Done => Ok(()),
        End::Refused(reason) => Err(SteeringFault::Refused(Vec::from_slice(alloc, reason)?)),
    }
}

/// Returns the request that the arguments ask for. Fails if no next hop can have the name, or memory runs out.
fn request_of(alloc: Global, asked: Steering<'_>) -> Result<Request, SteeringFault>
    ensures asks { IfOk result (AsksFor asked.entry) }
    ensures failed { IfErr result (HasNoRequest asked.entry) }
{
    match asked {
        Steering::Flush(None) => Ok(Request::Flush(None)),
        Steering::Flush(Some(mail)) => Ok(Request::Flush(Some(scope_of(alloc, mail)?))),
        Steering::Hold(mail) => Ok(Request::Hold(scope_of(alloc, mail)?)),
        Steering::Release(mail) => Ok(Request::Release(scope_of(alloc, mail)?)),
        Steering::Drain(seconds) => Ok(Request::Drain { seconds }),
        Steering::Reload => Ok(Request::Reload),
    }
}

/// Returns the mail of a request. Fails if no next hop can have the name, or memory runs out.
fn scope_of(alloc: Global, mail: Mail<'_>) -> Result<Scope, SteeringFault>
    ensures names { IfOk result (Names mail.entry) }
    ensures failed { IfErr result (HasNoScope mail.entry) }
{
    match mail {
        Mail::Message(number) => Ok(Scope::Message(number)),
        Mail::Hop(name) => match HostName::read(alloc, name.as_bytes())? {
            Some(name) => Ok(Scope::Hop(name)),
            None => Err(SteeringFault::BadHop),
        },
    }
}

/// Prints the lines of an answer, without the space that each begins with.
fn print_lines<W: Write>(lines: &[u8], writer: &mut W) -> io::Result<()>
    ensures { OnOk result (Appends (W.contents writer.old) (W.contents writer.new) (printed lines.now)) }
{
    let mut rest = Some(lines);
    while let Some(octets) = rest {
        let (line, next) = cut_line(octets);
        print_line(line, writer)?;
        rest = next;
    }
    writer.flush()
}

/// Prints a line without the space that it begins with; nothing if it begins with none.
fn print_line<W: Write>(line: &[u8], writer: &mut W) -> io::Result<()>
    ensures { OnOk result (Appends (W.contents writer.old) (W.contents writer.new) (printed_line line.now)) }
{
    if let Some(text) = line.strip_prefix(b" ") {
        writer.write_all(text)?;
        writer.write_all(b"\n")?;
    }
    Ok(())
}
