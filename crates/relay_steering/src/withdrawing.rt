//! The subcommands `return` and `discard`.
ghost use Rattle.std.specs.Prelude.{◌≡◌, ◌++◌, true, is_none, IfErr, IfOk, OnOk};
ghost use Rattle.std.specs.Io.KnownBytes.{Appends};
ghost use Rattle.std.specs.Option.{option_copied};
ghost use Rattle.relay_steering.specs.Report.{hint_line};
ghost use Rattle.relay_steering.specs.Requests.{AreObeyed};
ghost use Rattle.relay_steering.specs.Steering.{HasDone, IsDone, IsNotDone};
ghost use Rattle.relay_steering.specs.Withdrawing.{AreSome, AreWithdrawn, Chooses, withdrawal_by};

use crate::control_client::{is_listening, socket_path};
use crate::exchange::{Relay, RelayAt, ask};
use crate::offline::withdraw_each;
use crate::report::Report;
use crate::requests::requests_of;
use crate::saving::save_each;
use crate::steering::end_of;
use crate::steering_fault::SteeringFault;
use relay_arguments::{Choice, Removal};
use relay_book::Withdrawal;
use relay_control::{Request, read_answer};
use relay_disk::{Disk, FileDisk};
use relay_files::{Fault, configuration, locked_node, write_out};
use relay_node::Node;
use relay_queue::{Filter, Selected, Selection, Taken, select};
use relay_trace::clock_moment;
use std::alloc::Global;
use std::fs::File;
use std::io::Write;
use std::net::Net;
use std::rt::{Clock, Files};

/// Which queued mail is withdrawn, and how.
#[derive(Clone, Copy, Drop)]
pub struct Asked<'a> {
    /// How it ends.
    pub removal: Removal,
    /// Which mail is withdrawn.
    pub choice: Choice<'a>,
    /// The folder in which each of the messages is saved before that, if any.
    pub folder: Option<&'a str>,
    /// Whether to withdraw it, instead of printing what would be withdrawn.
    pub confirmed: bool,
}

/// Withdraws the queued mail that the options choose: by the relay that runs, or on the spool itself if none runs. If a
/// folder is given, saves the messages there before, and withdraws only those that were saved. Unless it is confirmed,
/// only prints what would be withdrawn.
pub fn withdraw<R: Files<File = File> + Clock + Net, W: Write, E: Write>(
    alloc: Global,
    rt: &R,
    file: &str,
    asked: &Asked<'_>,
    writer: &mut W,
    errors: &mut E,
) -> Result<(), SteeringFault> {
    let taken = select(alloc, rt, file, &selection_of(&asked.choice))?;
    if !asked.confirmed {
        return print_preview(&taken, asked.removal, writer);
    }
    withdraw_taken(alloc, rt, file, asked, taken, writer, errors)
}

/// Withdraws the mail that was taken, as it is confirmed, and prints the report.
fn withdraw_taken<R: Files<File = File> + Clock + Net, W: Write, E: Write>(
    alloc: Global,
    rt: &R,
    file: &str,
    asked: &Asked<'_>,
    taken: Taken,
    writer: &mut W,
    errors: &mut E,
) -> Result<(), SteeringFault>
    requires { asked.now.confirmed ≡ true }
{
    let way = way_to(alloc, rt, file)?;
    let selected = taken.messages.len();
    let saved = saved_of(alloc, rt, file, asked.folder, taken, errors)?;
    let messages = saved.as_slice();
    let mut report = Report::new(alloc, asked.removal);
    let end = match way {
        Way::Relay(path) => {
            let relay = RelayAt {
                net: rt,
                path: path.as_str(),
            };
            by_relay(alloc, &relay, asked, messages, &mut report)
        }
        Way::Spool(node) => {
            let mut node = node;
            on_spool(alloc, rt, &mut node, asked, messages, &mut report)
        }
    };
    if report.print(writer).is_err() {
        return Err(SteeringFault::Files(Fault::Output));
    }
    match end {
        Ok(()) if report.has_refused() => Err(SteeringFault::NotAll),
        Ok(()) if messages.len() < selected => Err(SteeringFault::NotSaved),
        end => end,
    }
}

/// Returns the messages to withdraw: those that were saved, if a folder is given, else all that are taken.
fn saved_of<F: Files<File = File>, E: Write>(
    alloc: Global,
    files: &F,
    file: &str,
    folder: Option<&str>,
    taken: Taken,
    errors: &mut E,
) -> Result<Vec<Selected>, SteeringFault>
    ensures some { IfOk result (λ saved. AreSome saved.items taken.messages.items) }
    ensures all { is_none folder.entry ≡ true → IfOk result (λ saved. saved.items ≡ taken.messages.items) }
{
    let Taken {
        messages,
        preview: _preview,
    } = taken;
    match folder {
        Some(folder) => save_each(alloc, files, file, folder, messages, errors),
        None => Ok(messages),
    }
}

/// Returns the selection that the options make.
fn selection_of<'a>(choice: &Choice<'a>) -> Selection<'a>
    ensures { Chooses choice.now result }
{
    Selection {
        numbers: octets_of(choice.numbers),
        filter: Filter {
            hop: octets_of(choice.hop),
            reverse_path: octets_of(choice.from),
            path: octets_of(choice.to),
            age: None,
        },
    }
}

/// Returns the octets of a text, if there is one.
fn octets_of(text: Option<&str>) -> Option<&[u8]>
    ensures { option_copied result ≡ option_copied text.entry }
{
    match text {
        Some(text) => Some(text.as_bytes()),
        None => None,
    }
}

/// Prints what would be withdrawn, and how.
fn print_preview<W: Write>(
    taken: &Taken,
    removal: Removal,
    writer: &mut W,
) -> Result<(), SteeringFault>
    ensures { OnOk result (Appends (W.contents writer.old) (W.contents writer.new)
        (taken.now.preview.items ++ hint_line removal)) }
{
    write_out(writer, taken.preview.as_slice())?;
    write_out(writer, hint(removal).as_bytes())?;
    Ok(())
}

/// Returns the line after a preview, with its LF.
fn hint(removal: Removal) -> &'static str
    ensures { result.now ≡ hint_line removal }
{
    match removal {
        Removal::Return => "nothing was returned; add --yes to return this mail\n",
        Removal::Discard => "nothing was discarded; add --yes to discard this mail\n",
    }
}

/// How mail is withdrawn.
#[derive(Drop)]
enum Way {
    /// By the relay that listens at the control socket at this path.
    Relay(String),
    /// On the spool itself, which is locked for this process.
    Spool(Node<FileDisk>),
}

/// Returns how mail is withdrawn: by the relay that listens at the control socket, else on the spool itself. Fails if
/// another process holds the spool.
fn way_to<R: Files<File = File> + Net>(
    alloc: Global,
    rt: &R,
    file: &str,
) -> Result<Way, SteeringFault> {
    let path = socket_path(alloc, rt, file)?;
    let other = match path {
        Some(path) => {
            if is_listening(rt, path.as_str()) {
                return Ok(Way::Relay(path));
            }
            SteeringFault::NoRelay
        }
        None => SteeringFault::Locked,
    };
    match locked_node(alloc, rt, configuration(alloc, rt, file)?) {
        Ok(node) => Ok(Way::Spool(node)),
        Err(Fault::Locked) => Err(other),
        Err(fault) => Err(SteeringFault::Files(fault)),
    }
}

/// Asks a relay to withdraw these places, as it is confirmed, and reports its answers. Fails at the first request that
/// the relay refuses or doesn't answer, or if memory runs out.
fn by_relay<R: Relay>(
    alloc: Global,
    relay: &R,
    asked: &Asked<'_>,
    messages: &[Selected],
    report: &mut Report,
) -> Result<(), SteeringFault>
    requires { asked.now.confirmed ≡ true }
    ensures { OnOk result (AreObeyed R.is_new R.Stream.contents R.Stream.remaining asked.now.removal messages.now) }
{
    let requests = requests_of(alloc, asked.removal, messages)?;
    for request in requests.as_slice() {
        ask_and_report(alloc, relay, request, report)?;
    }
    Ok(())
}

/// Sends a request to a relay, and reports its answer. Fails if the relay refuses it or doesn't answer, or if memory
/// runs out.
fn ask_and_report<R: Relay>(
    alloc: Global,
    relay: &R,
    request: &Request,
    report: &mut Report,
) -> Result<(), SteeringFault>
    ensures { OnOk result (HasDone R.is_new R.Stream.contents R.Stream.remaining request.now) }
{
    let octets = ask(alloc, relay, request)?;
    report_answer(alloc, octets.as_slice(), report)
}

/// Reports an answer of the relay. Fails if the octets are no answer, if the relay refused the request, or if memory
/// runs out.
fn report_answer(alloc: Global, octets: &[u8], report: &mut Report) -> Result<(), SteeringFault>
    ensures done { OnOk result (IsDone octets.now) }
    ensures failed { IfErr result (IsNotDone octets.now) }
{
    let Some(reply) = read_answer(octets) else {
        return Err(SteeringFault::NoAnswer);
    };
    report.add_answer(reply.lines)?;
    end_of(alloc, reply.end)?;
    Ok(())
}

/// Withdraws these places on the spool of a node, as it is confirmed, and reports the outcomes.
fn on_spool<C: Clock, D: Disk>(
    alloc: Global,
    clock: &C,
    node: &mut Node<D>,
    asked: &Asked<'_>,
    messages: &[Selected],
    report: &mut Report,
) -> Result<(), SteeringFault>
    requires { asked.now.confirmed ≡ true }
    ensures { OnOk result (AreWithdrawn D.honest D.words (withdrawal_by asked.now.removal) messages.now
        report.old report.new node.old node.new) }
{
    let mut outcomes = Vec::with_capacity(alloc, messages.len())?;
    let now = clock_moment(clock);
    let withdrawal = withdrawal_by(asked.removal);
    let end = withdraw_each(node, messages, withdrawal, now, &mut outcomes);
    report.add_outcomes(alloc, messages, outcomes.as_slice())?;
    Ok(end?)
}

/// Returns how a subcommand withdraws mail.
fn withdrawal_by(removal: Removal) -> Withdrawal
    ensures { result ≡ withdrawal_by removal }
{
    match removal {
        Removal::Return => Withdrawal::Return,
        Removal::Discard => Withdrawal::Discard,
    }
}
