//! A relay that serves its clients, one after another or several side by side, and relays what they brought.
ghost use Rattle.std.specs.Prelude.{◌≡◌, List};
ghost use Rattle.relay_book.specs.declared.change.Change.{Change};
ghost use Rattle.relay_links.specs.Link.{LinkHasEnded, start_at};
ghost use Rattle.relay_records.specs.Records.{Keeps};

use crate::compacting::compact_after;
use crate::pushing::push_due;
use crate::sockets::{listener, next_client};
use crate::workers::{MOST_WORKERS, OCTET_LIMIT, Service};
use relay_disk::{Disk, FileDisk};
use relay_files::{Fault, configurations, gathering, locked_node};
use relay_links::{LinkFault, serve_link};
use relay_log::{ClientWriter, Connection, Counters, Log, Messages, RejectionMinutes};
use relay_node::{Node, NodeFault};
use relay_trace::{Moment, clock_moment};
use std::alloc::Global;
use std::fs::File;
use std::io::{Read, Write};
use std::net::{Net, SocketAddrV4, TcpListener, TcpStream};
use std::rt::{Clock, Files};
use std::sync::Wait;
use std::thread::Threads;

/// How clients are served.
#[derive(Clone, Copy)]
pub struct ServeOptions {
    /// How many rounds, 1 to 1,000,000. After each round the due work is done.
    pub rounds: u32,
    /// How many clients a round serves, 1 to 64; more count as 64. If it is more than one, each has a thread of its
    /// own, and none is served before all have connected.
    pub workers: u8,
    /// Whether to log each event.
    pub log: bool,
}

/// Serves clients in rounds. Each round serves as many clients as the options say, each to its end; then does the due
/// work once, and compacts the spool if much of it is free. Work that this leads to waits for the next round.
///
/// Locks the files of the spool for this process. Writes a line for each work to `writer`, and with `options.log` a
/// line for each event to `errors`. Faults are checked in this order: the configuration file, its content, the spool,
/// the listener. A broken connection ends alone. A client that can't be accepted counts as none; after 64 in a row the
/// call fails.
pub fn serve<
    R: Files<File = File>
        + Clock
        + Net<Listener = TcpListener, Stream = TcpStream>
        + Threads
        + Wait
        + Sync,
    W: Write,
    E: Write,
>(
    alloc: Global,
    rt: &R,
    path: &str,
    options: ServeOptions,
    writer: &mut W,
    errors: &mut E,
) -> Result<(), Fault> {
    let (config, shared) = configurations(alloc, rt, path)?;
    let at = config.listen;
    let mut node = locked_node(alloc, rt, config)?;
    let listener = listener(rt, at)?;
    let mut lines = gathering(alloc, writer)?;
    let (mut counters, mut minutes) = (Counters::new(), RejectionMinutes::new());
    let mut log = Log::new(alloc, errors, options.log, &mut counters, &mut minutes);
    log.listens(at);
    for _ in 0..options.rounds {
        let (served, was_full) = if options.workers < 2 {
            let was_full = serve_next(alloc, rt, &mut node, &listener, &mut log)?;
            (node, was_full)
        } else {
            let service = Service {
                alloc,
                rt,
                config: &shared,
            };
            service.serve_next(node, &listener, options.workers.min(MOST_WORKERS), &mut log)?
        };
        node = served;
        push_after(alloc, rt, &mut node, &mut lines, &mut log)?;
        compact_after(&mut node, was_full, &mut log)?;
    }
    Ok(())
}

/// Serves the next client. Returns whether mail was refused because the spool is full.
fn serve_next<C: Clock, E: Write>(
    alloc: Global,
    clock: &C,
    node: &mut Node<FileDisk>,
    listener: &TcpListener,
    log: &mut Log<'_, E>,
) -> Result<bool, Fault> {
    let (stream, peer) = next_client(clock, listener)?;
    serve_stream(alloc, clock, node, stream, peer, log)
}

/// Does the due work. If memory or file descriptors run out, only the push ends.
fn push_after<R: Clock + Net<Stream = TcpStream>, W: Write, E: Write>(
    alloc: Global,
    rt: &R,
    node: &mut Node<FileDisk>,
    writer: &mut W,
    log: &mut Log<'_, E>,
) -> Result<(), Fault> {
    match push_due(alloc, rt, node, writer, log) {
        // What is due stays due.
        Err(Fault::NoMemory) => Ok(()),
        Err(Fault::Socket) => {
            log.push_ended(Fault::Socket);
            Ok(())
        }
        end => end,
    }
}

/// Serves a client on its stream, and closes the stream. Returns whether mail was refused because the spool is full.
/// Fails only if the device has failed.
fn serve_stream<C: Clock, E: Write>(
    alloc: Global,
    clock: &C,
    node: &mut Node<FileDisk>,
    stream: TcpStream,
    peer: SocketAddrV4,
    log: &mut Log<'_, E>,
) -> Result<bool, Fault> {
    let first = node.next_number();
    let now = clock_moment(clock);
    let mut reader = (&stream).take(OCTET_LIMIT);
    let mut writer = ClientWriter::new(&stream);
    let end = serve_client(
        alloc,
        node,
        peer.ip().octets(),
        &mut reader,
        &mut writer,
        now,
    );
    let connection = Connection {
        peer,
        end,
        octets: OCTET_LIMIT - reader.limit(),
        refusals: writer.refusals(),
        messages: Messages::From(first),
    };
    log.client(node, &connection);
    match end {
        Err(LinkFault::Device) => Err(Fault::Device),
        _ => Ok(writer.was_full()),
    }
}

/// Serves a client over its reader and writer.
fn serve_client<D: Disk, R: Read, W: Write>(
    alloc: Global,
    node: &mut Node<D>,
    peer: [u8; 4],
    reader: &mut R,
    writer: &mut W,
    now: Moment,
) -> Result<(), LinkFault>
    ensures served { (changes : List Change) → Keeps D.honest D.words node.old.records changes
        → LinkHasEnded D.honest D.words
        (start_at (R.remaining reader.old) (W.contents writer.old) peer node.old changes) now
        (R.remaining reader.new) (W.contents writer.new) node.new.records result }
    ensures config { node.new.config ≡ node.old.config }
{
    match node.connect(peer) {
        Ok(connected) => serve_link(alloc, node, connected, reader, writer, now),
        Err(NodeFault::Stopped) => Err(LinkFault::Device),
        Err(_) => Err(LinkFault::NoMemory),
    }
}
