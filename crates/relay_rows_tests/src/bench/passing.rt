use crate::answer::Answer;
use crate::bench::mail::moment;
use crate::bench::nodes::{LATER, node_at, tell_messages};
use crate::calls::{due, first_moment, lose, reply, start};
use relay_disk::FileDisk;
use relay_node::{Node, NodeFault, Work};
use relay_routes::HostName;
use relay_trace::Moment;
use std::alloc::Global;
use std::test::Fail;

/// When the messages are due that came at the time 0, and the others aren't yet. A place that is lost at the time 0 is
/// due before it again.
const DUE: u64 = 20_000;

/// What a next hop says to each group of commands.
const REPLIES: [&[u8]; 4] = [
    b"220 next.example ESMTP\r\n",
    b"250-next.example\r\n250-PIPELINING\r\n250 DSN\r\n",
    b"250 sender OK\r\n250 recipient OK\r\n354 end with a line of one period\r\n",
    b"250 queued as 1\r\n",
];

/// Asks the node in these files this many times what there is to do, when ten messages are due at most.
pub fn ask_for_works(
    rt: &HostRuntime,
    told: &mut Answer,
    times: u64,
    path: &str,
) -> Result<(), Fail> {
    let node = node_at(rt, path, false)?;
    let mut works: u64 = 0;
    for _ in 0..times {
        works = works.saturating_add(due(told.alloc, &node, moment(DUE))?.len() as u64);
    }
    told.count("", works);
    told.count(" in ", times);
    told.say(" times");
    Ok(())
}

/// Begins this many times an attempt for each message of the node in these files that is due then, and loses it.
pub fn begin_attempts(
    rt: &HostRuntime,
    told: &mut Answer,
    times: u64,
    path: &str,
) -> Result<(), Fail> {
    let mut node = node_at(rt, path, false)?;
    let mut begun: u64 = 0;
    for _ in 0..times {
        begun = begun.saturating_add(begin_and_lose(told.alloc, &mut node)?);
    }
    told.count("", begun);
    told.count(" attempts in ", times);
    told.say(" times");
    Ok(())
}

/// Hands each message of the node in these files to a next hop that takes it, one after another.
pub fn deliver_messages(rt: &HostRuntime, told: &mut Answer, path: &str) -> Result<(), Fail> {
    let mut node = node_at(rt, path, false)?;
    let delivered = deliver(told.alloc, &mut node)?;
    tell_messages(told, delivered, &node);
    Ok(())
}

/// Begins an attempt for each message that is due, and loses it at the time 0.
fn begin_and_lose(alloc: Global, node: &mut Node<FileDisk>) -> Result<u64, NodeFault> {
    let now = moment(DUE);
    let works = due(alloc, node, now)?;
    let mut begun: u64 = 0;
    for work in works.iter() {
        if let Work::Try(message, hop) = work {
            let attempt = start(node, *message, hop, now)?.attempt;
            lose(node, attempt, first_moment())?;
            begun = begun.saturating_add(1);
        }
    }
    Ok(begun)
}

/// Hands each message on, and counts those of which the attempt ended with the last reply.
fn deliver(alloc: Global, node: &mut Node<FileDisk>) -> Result<u64, NodeFault> {
    let now = moment(LATER);
    let works = due(alloc, node, now)?;
    let mut delivered: u64 = 0;
    for work in works.iter() {
        if let Work::Try(message, hop) = work
            && hand_on(node, *message, hop, now)?
        {
            delivered = delivered.saturating_add(1);
        }
    }
    Ok(delivered)
}

/// Hands a message on: whether its attempt ended with the last reply.
fn hand_on(
    node: &mut Node<FileDisk>,
    message: u64,
    hop: &HostName,
    now: Moment,
) -> Result<bool, NodeFault> {
    let attempt = start(node, message, hop, now)?.attempt;
    let mut is_ended = false;
    for said in REPLIES {
        is_ended = reply(node, attempt, said, now)?.change.is_some();
    }
    Ok(is_ended)
}
