//! Each call of a node once, in a function without clauses: what calls these sees none of a node's contracts. And the
//! usual node over memory, at the first second.
use relay_disk::{Disk, Disks, MemoryDisk, Reboot};
use relay_node::{
    Connected, HeldPlace, Node, NodeFault, NotOpened, Noted, Received, Replied, Started, Work,
};
use relay_routes::{Config, HostName};
use relay_trace::Moment;
use std::alloc::{AllocError, Global};
use std::test::Fail;

/// Two disks in memory.
pub type MemoryDisks = Disks<MemoryDisk>;

/// A node on disks in memory.
pub type MemoryNode = Node<MemoryDisk>;

/// Disks in memory that were refused.
pub type Refused = NotOpened<MemoryDisk>;

/// The name of the usual host.
pub const HOST: &str = "relay.example";

/// The line of keys that sets the limit of a spool, where no other one is set.
pub const KEYS: &str = "spool_limit = 67108864";

/// A table of routes: a domain, and the name of its hop.
pub const TABLE: &str = "example.org next.example";

/// The address of each client.
pub const CLIENT: [u8; 4] = [127, 0, 0, 1];

/// What a node has done with octets of a client or of a next hop.
#[derive(Drop)]
pub struct Handed {
    /// How many it has used.
    pub used: usize,
    /// What goes to the other side.
    pub out: Vec<u8>,
    /// The number of the change that was made, if one was.
    pub change: Option<u64>,
    /// The session is gone.
    pub is_closed: bool,
}

/// Returns a configuration of this host, with these further keys, ` ; ` between each two, and a route for each two
/// words: a domain, and the name of its hop. There is none if they are no configuration.
pub fn configuration(
    alloc: Global,
    host: &str,
    keys: &str,
    table: &str,
) -> Result<Option<Config>, AllocError> {
    let keys = keys.replace(alloc, " ; ", "\n")?;
    let mut text = format!(in alloc;
        "host = \"{host}\"
listen = \"127.0.0.1:2525\"
spool = \"relay.spool\"
{keys}
[routes]
"
    )?;
    let mut words = table.split(' ');
    while let Some(domain) = words.next() {
        let hop = words.next().unwrap_or("");
        writeln!(
            text,
            "\"{domain}\" = {{ name = \"{hop}\", at = \"127.0.0.1:2526\" }}"
        )?;
    }
    Ok(Config::read(alloc, text.as_str()).ok())
}

/// Returns the first second.
pub fn first_moment() -> Moment {
    match Moment::new(0) {
        Ok(moment) => moment,
        Err(_) => unreachable!(),
    }
}

/// Returns the configuration of this host, with this line of further keys, and these routes.
pub fn config_of(alloc: Global, host: &str, keys: &str, table: &str) -> Result<Config, Fail> {
    match configuration(alloc, host, keys, table)? {
        Some(config) => Ok(config),
        None => Err(Fail::new("no configuration")),
    }
}

/// Returns a node without changes, on empty disks of any kind.
pub fn create<D: Disk>(
    alloc: Global,
    config: Config,
    disks: Disks<D>,
) -> Result<Node<D>, NotOpened<D>> {
    Node::create(alloc, config, disks)
}

/// Returns empty disks.
pub fn empty_disks(alloc: Global) -> MemoryDisks {
    Disks {
        first: MemoryDisk::new(alloc),
        second: MemoryDisk::new(alloc),
    }
}

/// Returns a node of what disks hold.
pub fn open<D: Disk>(
    alloc: Global,
    config: Config,
    disks: Disks<D>,
) -> Result<Node<D>, NotOpened<D>> {
    Node::open(alloc, config, disks)
}

/// Returns the disks of a node.
pub fn into_disk(node: MemoryNode) -> MemoryDisks {
    node.into_disk()
}

/// Returns what a stop by this pick leaves of disks.
pub fn after_stop(disks: MemoryDisks, pick: u64) -> Option<MemoryDisks> {
    disks.after_stop(pick).ok()
}

/// Lets this many calls of the disks pass, and each later one fail.
pub fn fuse(node: &mut MemoryNode, calls: u64) {
    node.fuse(calls);
}

/// Compacts the spool, and gives its sizes before and after that.
pub fn compact<D: Disk>(node: &mut Node<D>) -> Result<(usize, usize), NodeFault> {
    node.compact()
}

/// Opens a session for a client.
pub fn connect<D: Disk>(node: &mut Node<D>) -> Result<Connected, NodeFault> {
    node.connect(CLIENT)
}

/// Gives a session octets of its client.
pub fn receive<D: Disk>(
    node: &mut Node<D>,
    session: usize,
    piece: &[u8],
    now: Moment,
) -> Result<Handed, NodeFault> {
    let Received {
        used,
        out,
        change,
        close,
    } = node.receive(session, piece, now)?;
    Ok(Handed {
        used,
        out,
        change,
        is_closed: close,
    })
}

/// Ends a session.
pub fn end(node: &mut MemoryNode, session: usize) -> Result<(), NodeFault> {
    node.ended(session)
}

/// Returns what there is to do.
pub fn due<D: Disk>(alloc: Global, node: &Node<D>, now: Moment) -> Result<Vec<Work>, NodeFault> {
    node.due(alloc, now)
}

/// Begins an attempt.
pub fn start<D: Disk>(
    node: &mut Node<D>,
    message: u64,
    hop: &HostName,
    now: Moment,
) -> Result<Started, NodeFault> {
    node.start(message, hop, now)
}

/// Gives an attempt octets of its next hop.
pub fn reply<D: Disk>(
    node: &mut Node<D>,
    attempt: usize,
    piece: &[u8],
    now: Moment,
) -> Result<Handed, NodeFault> {
    let Replied { used, out, change } = node.reply(attempt, piece, now)?;
    Ok(Handed {
        used,
        out,
        change,
        is_closed: false,
    })
}

/// Ends an attempt whose connection is lost.
pub fn lose<D: Disk>(node: &mut Node<D>, attempt: usize, now: Moment) -> Result<u64, NodeFault> {
    node.lost(attempt, now)
}

/// Ends the places of a message that have no hop.
pub fn give_up(node: &mut MemoryNode, message: u64, now: Moment) -> Result<u64, NodeFault> {
    node.give_up_unroutable(message, now)
}

/// Returns all held places.
pub fn marks(alloc: Global, node: &MemoryNode) -> Result<Vec<(u64, u8)>, NodeFault> {
    node.marks(alloc)
}

/// Returns a held place.
pub fn place(
    node: &MemoryNode,
    message: u64,
    place: u8,
) -> Result<Option<HeldPlace<'_>>, NodeFault> {
    node.place(message, place)
}

/// Returns the last change whose append was begun.
pub fn take_noted(node: &mut MemoryNode) -> Option<Noted> {
    node.take_noted()
}

/// Returns the number of the next change.
pub fn next_number<D: Disk>(node: &Node<D>) -> u64 {
    node.next_number()
}
