//! Clients served side by side, each by a thread of its own.
ghost use Rattle.std.specs.Prelude.{◌≡◌, ◌≤◌, length, vec_len, IfOk};
ghost use Rattle.relay_service.specs.Workers.{IsEndOf};

use crate::sockets::next_client;
use relay_disk::{Disk, FileDisk};
use relay_files::Fault;
use relay_hub::Receipt;
use relay_links::LinkFault;
use relay_log::{ClientWriter, Connection, Log, Messages};
use relay_node::Node;
use relay_rounds::{Ended, Link, Served, round};
use relay_routes::Config;
use relay_trace::clock_moment;
use std::alloc::{AllocError, Global};
use std::io::{Read, Take, Write};
use std::net::{SocketAddrV4, TcpListener, TcpStream};
use std::rt::Clock;
use std::sync::Wait;
use std::thread::Threads;

/// How many octets may be read on a connection. A link does at most 2^40 reads of 65,536 octets each, so this never
/// ends one: the rest tells how much was read.
pub(crate) const OCTET_LIMIT: u64 = u64::MAX;

/// The most clients of a round.
pub(crate) const MOST_WORKERS: u8 = 64;

/// A client's stream and its address.
type Client = (TcpStream, SocketAddrV4);

/// The reader and the writer of a client's connection.
type ClientLink<'a> = Link<Take<&'a TcpStream>, ClientWriter<'a>>;

/// What all rounds share.
pub(crate) struct Service<'a, R> {
    pub(crate) alloc: Global,
    pub(crate) rt: &'a R,
    /// The node's own configuration is the same.
    pub(crate) config: &'a Config,
}

// Written out, since what `rt` refers to need not be droppable itself.
impl<R> Drop for Service<'_, R> {
    fn drop(self) {
        let Service {
            alloc: _,
            rt: _,
            config: _,
        } = self;
    }
}

impl<R: Clock + Threads + Wait + Sync> Service<'_, R> {
    /// Serves the next `workers` clients of a listener side by side. Returns the node, and whether mail was refused
    /// because the spool is full. All connections are closed when the last of them has ended.
    pub(crate) fn serve_next<E: Write>(
        &self,
        node: Node<FileDisk>,
        listener: &TcpListener,
        workers: u8,
        log: &mut Log<'_, E>,
    ) -> Result<(Node<FileDisk>, bool), Fault>
        requires { (1 ≤ workers) × (workers ≤ 64) }
    {
        let clients = next_clients(self.alloc, self.rt, listener, workers)?;
        self.serve_clients(node, clients.as_slice(), log)
    }

    /// Serves these clients. If there is no memory for that, closes each connection unserved.
    fn serve_clients<E: Write>(
        &self,
        node: Node<FileDisk>,
        clients: &[Client],
        log: &mut Log<'_, E>,
    ) -> Result<(Node<FileDisk>, bool), Fault>
        requires { (1 ≤ length clients.now) × (length clients.now ≤ 64) }
    {
        let Ok(links) = links_of(self.alloc, clients) else {
            tell_unserved(clients, log);
            return Ok((node, false));
        };
        let now = clock_moment(self.rt);
        match round(self.rt, self.alloc, node, self.config, links, now) {
            Ok(ended) => {
                tell(self.alloc, &ended, clients, log);
                end_of(&ended)?;
                let was_full = was_full(ended.links.as_slice());
                let (node, _links, _agrees) = ended.into_parts();
                Ok((node, was_full))
            }
            Err(not_begun) => {
                tell_unserved(clients, log);
                let (node, _links) = not_begun.into_parts();
                Ok((node, false))
            }
        }
    }
}

/// Returns the next `count` clients of a listener, in the order in which they came.
fn next_clients<C: Clock>(
    alloc: Global,
    clock: &C,
    listener: &TcpListener,
    count: u8,
) -> Result<Vec<Client>, Fault>
    ensures { IfOk result (λ clients. vec_len clients ≡ count) }
{
    let mut clients = Vec::with_capacity(alloc, usize::from(count))?;
    for _i in 0..count {
        if clients.push(next_client(clock, listener)?).is_err() {
            return Err(Fault::NoMemory);
        }
    }
    Ok(clients)
}

/// Returns a link for each client, in their order. Fails if memory runs out.
fn links_of(alloc: Global, clients: &[Client]) -> Result<Vec<ClientLink<'_>>, AllocError>
    ensures { IfOk result (λ links. vec_len links ≡ length clients.now) }
{
    let mut links = Vec::with_capacity(alloc, clients.len())?;
    for (stream, peer) in clients {
        links.push(Link {
            peer: peer.ip().octets(),
            reader: stream.take(OCTET_LIMIT),
            writer: ClientWriter::new(stream),
        })?;
    }
    Ok(links)
}

/// Returns the fault that ends the service, if any: the receipts disagree with what the node has accepted, or the
/// device has failed. Any other fault ends its own connection alone.
fn end_of<D: Disk, R, W>(ended: &Ended<D, R, W>) -> Result<(), Fault>
    ensures { IsEndOf ended.now.agrees ended.now.links.items result }
{
    if !ended.agrees {
        return Err(Fault::Receipts);
    }
    for link in &ended.links {
        if let Some(Err(LinkFault::Device)) = link.ended {
            return Err(Fault::Device);
        }
    }
    Ok(())
}

/// Returns whether a client was told that the spool is full.
fn was_full<R>(links: &[Served<R, ClientWriter<'_>>]) -> bool {
    for link in links {
        if link.writer.was_full() {
            return true;
        }
    }
    false
}

/// Logs how each connection has ended, in their order.
fn tell<E: Write>(
    alloc: Global,
    ended: &Ended<FileDisk, Take<&TcpStream>, ClientWriter<'_>>,
    clients: &[Client],
    log: &mut Log<'_, E>,
) {
    if !log.speaks() {
        return;
    }
    for (link, client) in ended.links.iter().zip(clients) {
        match link.ended {
            Some(end) => tell_client(alloc, &ended.node, link, client.1, end, log),
            None => log.unserved(client.1),
        }
    }
}

/// Logs how a connection has ended. If memory runs out, the line is left out.
fn tell_client<E: Write>(
    alloc: Global,
    node: &Node<FileDisk>,
    link: &Served<Take<&TcpStream>, ClientWriter<'_>>,
    peer: SocketAddrV4,
    end: Result<(), LinkFault>,
    log: &mut Log<'_, E>,
) {
    let Ok(numbers) = numbers_of(alloc, link.receipts.as_slice()) else {
        return;
    };
    let connection = Connection {
        peer,
        end,
        octets: OCTET_LIMIT - link.reader.limit(),
        refusals: link.writer.refusals(),
        messages: Messages::Numbered(numbers.as_slice()),
    };
    log.client(node, &connection);
}

/// Returns the numbers of the messages, in the order of their receipts. Fails if memory runs out.
fn numbers_of(alloc: Global, receipts: &[Receipt]) -> Result<Vec<u64>, AllocError> {
    let mut numbers = Vec::with_capacity(alloc, receipts.len())?;
    for receipt in receipts {
        numbers.push(receipt.number)?;
    }
    Ok(numbers)
}

/// Logs for each client that its connection was closed unserved.
fn tell_unserved<E: Write>(clients: &[Client], log: &mut Log<'_, E>) {
    for client in clients {
        log.unserved(client.1);
    }
}
