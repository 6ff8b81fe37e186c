//! Relaying mail to its next hops.
ghost use Rattle.std.specs.Prelude.{◌≡◌, ◌≢◌, ℕ, None, true, List, MatchResult};
ghost use Rattle.relay_report.specs.Report.{reporter_of};
ghost use Rattle.relay_attempts.specs.Reply.{Told};
ghost use Rattle.relay_attempts.specs.Work.{works_of};
ghost use Rattle.relay_attempts.specs.declared.work.Work.TheVariants as work;
ghost use Rattle.relay_book.specs.declared.change.Change.{Change};
ghost use Rattle.relay_disk.specs.File.{file_words};
ghost use Rattle.relay_node.specs.Attempts.{Tells};
ghost use Rattle.relay_records.specs.Records.{Keeps};
ghost use Rattle.relay_service.specs.Pushing.{HandsOn, IsSameButNote, TellsDevice, WorksOff, WorksTo};
ghost use Rattle.relay_slots.specs.Slots.{OthersStay, slot_at};

use crate::hops::Unreached;
use relay_disk::FileDisk;
use relay_files::{Fault, configuration, gathering, locked_node};
use relay_links::{LinkFault, Pushed, lose_link, push_link};
use relay_log::{Attempt, Counters, HopReader, HopWriter, Log, Loss, RejectionMinutes, Talk, Why};
use relay_node::{Node, NodeFault, Noted, Work};
use relay_routes::HostName;
use relay_trace::{Moment, clock_moment};
use std::alloc::Global;
use std::fs::File;
use std::io::{self, Write};
use std::net::{Net, SocketAddrV4, TcpStream};
use std::rt::{Clock, Files};

/// Does each work that is due at the clock's time once, in order: an attempt for each message and hop, and giving up
/// places without a hop. Writes a line for each to `writer`: `NUMBER HOP ended`; `NUMBER HOP lost` if the connection
/// couldn't be made or was lost; or `NUMBER noroute`. If there is too little memory or room for a work, it gets no line
/// and stays due. A next hop that can't be connected to, or keeps silent for too long, isn't tried again: further
/// attempts for it fail at once. If no file descriptor is left for a connection, the push ends, and what is due stays
/// due.
///
/// Locks the files of the spool for this process. If `logs` is set, writes a line for each work, with what was replied
/// for its recipients, to `errors`.
pub fn push<R: Files<File = File> + Clock + Net<Stream = TcpStream>, W: Write, E: Write>(
    alloc: Global,
    rt: &R,
    path: &str,
    writer: &mut W,
    errors: &mut E,
    logs: bool,
) -> Result<(), Fault> {
    let config = configuration(alloc, rt, path)?;
    let mut node = locked_node(alloc, rt, config)?;
    let mut lines = gathering(alloc, writer)?;
    let (mut counters, mut minutes) = (Counters::new(), RejectionMinutes::new());
    let mut log = Log::new(alloc, errors, logs, &mut counters, &mut minutes);
    push_due(alloc, rt, &mut node, &mut lines, &mut log)
}

/// What stays the same while the works that are due are done.
#[derive(Drop)]
struct Round<'a, R> {
    alloc: Global,
    rt: &'a R,
    /// The time at which the works are due.
    now: Moment,
}

/// Does each work that is due at the clock's time once, in order. Flushes the line of a work before the next begins.
pub(crate) fn push_due<R: Clock + Net<Stream = TcpStream>, W: Write, E: Write>(
    alloc: Global,
    rt: &R,
    node: &mut Node<FileDisk>,
    writer: &mut W,
    log: &mut Log<'_, E>,
) -> Result<(), Fault>
    ensures { (changes : List Change) → Keeps ⊥ file_words node.old.records changes
        → (now : ℕ) × WorksOff ⊥ file_words now
        (works_of node.old.config.routes node.old.attempts now node.old.records.queue)
        changes node.old node.new result }
{
    let now = clock_moment(rt);
    let works = node.due(alloc, now)?;
    do_works(
        &Round { alloc, rt, now },
        node,
        works.as_slice(),
        writer,
        log,
    )
}

/// Does each of these works once, in order.
fn do_works<R: Clock + Net<Stream = TcpStream>, W: Write, E: Write>(
    round: &Round<'_, R>,
    node: &mut Node<FileDisk>,
    works: &[Work],
    writer: &mut W,
    log: &mut Log<'_, E>,
) -> Result<(), Fault>
    ensures { (changes : List Change) → Keeps ⊥ file_words node.old.records changes
        → WorksOff ⊥ file_words round.entry.now.now works.now changes node.old node.new result }
{
    let mut unreached = Unreached::new(round.alloc);
    for work in works {
        do_work(round, node, work, &mut unreached, writer, log)?;
    }
    Ok(())
}

/// Does a work once.
fn do_work<R: Clock + Net<Stream = TcpStream>, W: Write, E: Write>(
    round: &Round<'_, R>,
    node: &mut Node<FileDisk>,
    work: &Work,
    unreached: &mut Unreached,
    writer: &mut W,
    log: &mut Log<'_, E>,
) -> Result<(), Fault>
    ensures { (changes : List Change) → Keeps ⊥ file_words node.old.records changes
        → WorksTo ⊥ file_words round.entry.now.now work.now changes node.old node.new result }
{
    match work {
        Work::NoRoute(number) => give_up(node, *number, round.now, writer, log),
        Work::Try(number, hop) => { try_hop(round, node, *number, hop, unreached, writer, log) }
    }
}

/// Gives up the places of a message that have no hop.
fn give_up<W: Write, E: Write>(
    node: &mut Node<FileDisk>,
    number: u64,
    now: Moment,
    writer: &mut W,
    log: &mut Log<'_, E>,
) -> Result<(), Fault>
    ensures { (changes : List Change) → Keeps ⊥ file_words node.old.records changes
        → WorksTo ⊥ file_words now (work.NoRoute number) changes node.old node.new result }
{
    let talk = log.talk_of(node.message(number));
    match node.give_up_unroutable(number, now) {
        Ok(_) => {
            let attempt = Attempt {
                number,
                hop: None,
                at: None,
                age: None,
                loss: None,
                noted: node.take_noted(),
            };
            log.attempt(&attempt, &talk);
            said(writeln!(writer, "{number} noroute").and_then(|()| writer.flush()))
        }
        Err(fault) => left_over(fault),
    }
}

/// Tries a hop for a message over a connection of its own. The connection is made before the attempt begins, so that
/// nothing is recorded if no file descriptor is left.
fn try_hop<R: Clock + Net<Stream = TcpStream>, W: Write, E: Write>(
    round: &Round<'_, R>,
    node: &mut Node<FileDisk>,
    number: u64,
    hop: &HostName,
    unreached: &mut Unreached,
    writer: &mut W,
    log: &mut Log<'_, E>,
) -> Result<(), Fault>
    ensures { (changes : List Change) → Keeps ⊥ file_words node.old.records changes
        → WorksTo ⊥ file_words round.entry.now.now (work.Try number hop.now) changes node.old node.new result }
{
    let at = node.config().routes.place_of(hop.as_slice());
    let stream = match at {
        Some(at) => unreached.connect(round.rt, at)?,
        None => Err(Loss::Unreachable),
    };
    let talk = log.talk_of(node.message(number));
    let attempt = match node.start(number, hop, round.now) {
        Ok(started) => started.attempt,
        Err(fault) => return left_over(fault),
    };
    let handed = hand_on(round.alloc, round.rt, node, attempt, &stream, talk);
    if let Some(at) = at {
        unreached.note_silence(at, &handed.why);
    }
    conclude(node, number, hop.as_slice(), at, handed, writer, log)
}

/// The result of an attempt, and why it has settled less than it might.
#[derive(Drop)]
struct Handed {
    pushed: Result<Pushed, LinkFault>,
    why: Why,
}

/// Runs an attempt over the connection to its hop. If the connection couldn't be made, the attempt is lost.
fn hand_on<C: Clock>(
    alloc: Global,
    clock: &C,
    node: &mut Node<FileDisk>,
    attempt: usize,
    stream: &Result<TcpStream, Loss>,
    talk: Talk,
) -> Handed
    ensures pushed { (changes : List Change) (told : Told) → Keeps ⊥ file_words node.old.records changes
        → Tells node.old.config.host changes node.old.attempts attempt told
        → HandsOn ⊥ file_words (reporter_of node.old.config) changes told node.new.records result.pushed }
    ensures gone { node.new.records.spool.live ≡ true → slot_at node.new.attempts attempt ≡ None }
    ensures rest { OthersStay node.old.attempts node.new.attempts attempt
        × (node.new.config ≡ node.old.config) × (node.new.seats ≡ node.old.seats) }
{
    match stream {
        Ok(stream) => {
            let now = clock_moment(clock);
            let mut reader = HopReader::new(stream, talk);
            let mut writer = HopWriter::new(stream);
            let pushed = push_link(alloc, node, attempt, &mut reader, &mut writer, now);
            let why = Why::told_by(reader, writer, is_lost(&pushed));
            Handed { pushed, why }
        }
        Err(loss) => {
            let pushed = lose_link(node, attempt, clock_moment(clock));
            let why = Why {
                loss: Some(*loss),
                talk,
            };
            Handed { pushed, why }
        }
    }
}

/// Returns whether the connection was lost before the attempt's end.
fn is_lost(pushed: &Result<Pushed, LinkFault>) -> bool {
    matches!(pushed, Ok(Pushed::Lost))
}

/// Reports the result of an attempt. Only a failed device ends the push.
fn conclude<W: Write, E: Write>(
    node: &mut Node<FileDisk>,
    number: u64,
    hop: &[u8],
    at: Option<SocketAddrV4>,
    handed: Handed,
    writer: &mut W,
    log: &mut Log<'_, E>,
) -> Result<(), Fault>
    ensures rest { IsSameButNote node.old node.new }
    ensures device { TellsDevice handed.pushed result }
{
    match handed.pushed {
        Ok(pushed) => {
            let end = end_text(pushed);
            let noted = node.take_noted();
            tell(number, hop, at, &handed.why, noted, log);
            said(write_end(writer, number, hop, end))
        }
        Err(fault) => {
            unless_device(fault)?;
            tell(number, hop, at, &handed.why, None, log);
            Ok(())
        }
    }
}

/// Logs the outcome of an attempt.
fn tell<E: Write>(
    number: u64,
    hop: &[u8],
    at: Option<SocketAddrV4>,
    why: &Why,
    noted: Option<Noted>,
    log: &mut Log<'_, E>,
) {
    let attempt = Attempt {
        number,
        hop: Some(hop),
        at,
        age: None,
        loss: why.loss,
        noted,
    };
    log.attempt(&attempt, &why.talk);
}

/// Returns the word for how an attempt has ended.
fn end_text(pushed: Pushed) -> &'static str {
    match pushed {
        Pushed::Ended | Pushed::Unwritten => "ended",
        Pushed::Lost => "lost",
    }
}

/// Writes the line of an attempt's end.
fn write_end<W: Write>(writer: &mut W, number: u64, hop: &[u8], end: &str) -> io::Result<()> {
    write!(writer, "{number} ")?;
    writer.write_all(hop)?;
    writeln!(writer, " {end}")?;
    writer.flush()
}

/// Returns the fault of a line that couldn't be written.
fn said(written: io::Result<()>) -> Result<(), Fault> {
    match written {
        Ok(()) => Ok(()),
        Err(error) => Err(Fault::of_output(&error)),
    }
}

/// Returns `Ok` after a fault that leaves a work due, and the fault if the device has failed.
fn left_over(fault: NodeFault) -> Result<(), Fault>
    ensures { MatchResult result (λ _. fault ≢ NodeFault.Stopped) (λ ended. (fault ≡ NodeFault.Stopped)
        × (ended ≡ Fault.Device)) }
{
    match fault {
        NodeFault::Stopped => Err(Fault::Device),
        _ => Ok(()),
    }
}

/// Returns `Ok` after a fault of one link, and the fault if the device has failed.
fn unless_device(fault: LinkFault) -> Result<(), Fault>
    ensures { MatchResult result (λ _. fault ≢ LinkFault.Device) (λ _. fault ≡ LinkFault.Device) }
{
    match fault {
        LinkFault::Device => Err(Fault::Device),
        LinkFault::Input | LinkFault::Output | LinkFault::NoMemory | LinkFault::Full => Ok(()),
    }
}
