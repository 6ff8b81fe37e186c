use crate::answer::Answer;
use crate::bench::disks::files;
use crate::bench::mail::moment;
use crate::calls::{
    HOST, compact, config_of, connect, create, first_moment, next_number, open, receive,
};
use relay_disk::FileDisk;
use relay_node::Node;
use relay_trace::Moment;
use std::test::Fail;

/// How many messages of a node come before the others.
const EARLY_MESSAGES: u64 = 10;

/// When the others come.
pub const LATER: u64 = 30_000;

/// The most octets that a session is given at once, as a connection's are.
const BLOCK: usize = 65_536;

/// The limits are those of a configuration that says nothing of them, but for the spool's.
const KEYS: &str = "spool_limit = 549755813888";

/// Makes a node in these files, which are to be empty, and hands it the commands and the content of a message this many
/// times on one session. The first ten come at the time 0, and the others later.
pub fn accept_messages(
    rt: &HostRuntime,
    told: &mut Answer,
    count: u64,
    transaction: &[u8],
    path: &str,
) -> Result<(), Fail> {
    let mut node = node_at(rt, path, true)?;
    let queued = accept_each(&mut node, count, transaction)?;
    tell_messages(told, queued, &node);
    Ok(())
}

/// Tells a number of messages, and how large the spool of a node is.
pub fn tell_messages(told: &mut Answer, count: u64, node: &Node<FileDisk>) {
    told.count("", count);
    told.count(" messages, ", node.size() as u64);
    told.say(" octets");
}

/// Gives a node the commands and the content this many times, on a session of which the client has said its name, and
/// counts the messages that were queued.
fn accept_each(node: &mut Node<FileDisk>, count: u64, transaction: &[u8]) -> Result<u64, Fail> {
    let session = connect(node)?.session;
    let mut queued = give(node, session, first_moment(), b"HELO x\r\n")?;
    let later = moment(LATER);
    for turn in 0..count {
        let now = if turn < EARLY_MESSAGES {
            first_moment()
        } else {
            later
        };
        queued = queued.saturating_add(give(node, session, now, transaction)?);
    }
    Ok(queued)
}

/// Opens the node in these files, and tells the number of its next change.
pub fn open_node(rt: &HostRuntime, told: &mut Answer, path: &str) -> Result<(), Fail> {
    let node = node_at(rt, path, false)?;
    told.count("next number ", next_number(&node));
    Ok(())
}

/// Opens the node in these files, and compacts its spool.
pub fn compact_node(rt: &HostRuntime, told: &mut Answer, path: &str) -> Result<(), Fail> {
    let mut node = node_at(rt, path, false)?;
    let (before, after) = compact(&mut node)?;
    told.count("", before as u64);
    told.count(" octets, ", after as u64);
    told.say(" octets");
    Ok(())
}

/// Returns the node in the files of this path, or a new one without mail, for which they are to be empty.
pub fn node_at(rt: &HostRuntime, path: &str, is_new: bool) -> Result<Node<FileDisk>, Fail> {
    let config = config_of(rt.alloc(), HOST, KEYS, "* next.example")?;
    let disks = files(rt, path)?;
    let made = if is_new {
        create(rt.alloc(), config, disks)
    } else {
        open(rt.alloc(), config, disks)
    };
    match made {
        Ok(node) => Ok(node),
        Err(not) => Err(Fail::new(not.cause)),
    }
}

/// Gives a session these octets in blocks, and counts the messages that were queued. The session is to go on.
fn give(
    node: &mut Node<FileDisk>,
    session: usize,
    now: Moment,
    octets: &[u8],
) -> Result<u64, Fail> {
    let mut queued: u64 = 0;
    let mut rest = octets;
    for _ in 0..octets.len() {
        if rest.is_empty() {
            break;
        }
        let handed = receive(node, session, &rest[..rest.len().min(BLOCK)], now)?;
        if handed.is_closed {
            return Err(Fail::new("the session ended"));
        }
        if handed.change.is_some() {
            queued = queued.saturating_add(1);
        }
        rest = rest.get(handed.used..).unwrap_or(&[]);
    }
    Ok(queued)
}
