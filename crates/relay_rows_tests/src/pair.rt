//! Networks of nodes: the events of lost_reply.play in one call, with the ledger as it stands then, how many copies of
//! the message there are, and how many replies to attempts at it were lost; and for each row of networks.in why its
//! configurations make no network, or how many nodes they make.
use crate::answer::{Answer, RowsFault, print_told};
use crate::calls::config_of;
use relay_book::{PlaceStep, Way, Withdrawal};
use relay_disk::MemoryDisk;
use relay_pair::{Event, Pair};
use relay_script::{Event as Said, NodeIndex, ScriptLine, script_line};
use relay_world::Line;
use std::alloc::{AllocError, Global};
use std::fs;
use std::test::Fail;

/// Runs the events of the play, and prints what comes of them. What the play asks is left out.
pub fn show_run(rt: &HostRuntime) -> Result<(), Fail> {
    let script = fs::read_to_string(rt, "lost_reply.play")?;
    let events = events_of(rt.alloc(), script.as_str())?;
    let mut pair = Pair::new(rt.alloc())?;
    pair.run(events.as_slice());
    let mut told = Answer::new(rt.alloc());
    tell_pair(&mut told, &pair);
    print_told(rt, "", "", &told)
}

/// Returns the events of a script, in order.
fn events_of(alloc: Global, script: &str) -> Result<Vec<Event>, AllocError> {
    let mut events = Vec::new(alloc);
    for line in script.lines() {
        if let Some(ScriptLine::Event(said)) = script_line(alloc, line.as_bytes())? {
            events.push(event_of(said))?;
        }
    }
    Ok(events)
}

/// Returns the event that a line of a script says.
fn event_of(said: Said) -> Event {
    match said {
        Said::Connect { node } => Event::Connect(node.index()),
        Said::Send { link, text } => Event::Send(link as usize, text),
        Said::Carry { link, node, count } => Event::Carry {
            link: link as usize,
            node: node.index(),
            count: count as usize,
        },
        Said::Break { link } => Event::Break(link as usize),
        Said::Tick { moment } => Event::Tick(moment),
        Said::Give { node } => Event::Give(node.index()),
        Said::Compact { node } => Event::Compact(node.index()),
        Said::Stop { node, calls, pick } => Event::Stop {
            node: node.index(),
            calls,
            pick,
        },
        Said::Return {
            node,
            number,
            place,
        } => withdrawn(node, number, place, Withdrawal::Return),
        Said::Discard {
            node,
            number,
            place,
        } => withdrawn(node, number, place, Withdrawal::Discard),
    }
}

/// Returns the event by which the postmaster withdraws a place.
fn withdrawn(node: NodeIndex, number: u64, place: u64, withdrawal: Withdrawal) -> Event {
    Event::Withdraw {
        node: node.index(),
        message: number,
        place: place.min(255) as u8,
        withdrawal,
    }
}

/// Tells the ledger, the copies of the first place of node a's message 1, and the lost replies to attempts at it.
fn tell_pair(told: &mut Answer, pair: &Pair<MemoryDisk>) {
    for line in pair.ledger() {
        tell_line(told, *line);
    }
    match pair.copies(told.alloc, 0, 1, 0) {
        Ok(copies) => told.count("copies ", copies as u64),
        Err(_) => told.stop(RowsFault::NoMemory),
    }
    told.count(", lost ", pair.lost_replies(0, 1, 0) as u64);
}

/// Tells a line of the ledger, as a play prints it.
fn tell_line(told: &mut Answer, line: Line) {
    match line {
        Line::Accepted {
            node,
            number,
            places,
            link,
        } => {
            tell_node(told, "accept ", node, number);
            told.count(" ", places as u64);
            told.count(" link ", link as u64);
        }
        Line::Became {
            step,
            node,
            number,
            place,
            link,
            report,
        } => {
            tell_node(told, word_of(step), node, number);
            told.count(" ", place as u64);
            told.count(" link ", link as u64);
            told.count(" report ", report);
        }
    }
    told.say("\n");
}

/// Tells a word, the letter of a node, `a` for the first, and a number.
fn tell_node(told: &mut Answer, word: &str, node: usize, number: u64) {
    told.say(word);
    told.show(&char::from(b'a' + node.min(15) as u8));
    told.count(" ", number);
}

/// Returns what became of a place: its next hop has it, it failed, the postmaster has withdrawn it, or it is late.
fn word_of(step: PlaceStep) -> &'static str {
    match step {
        PlaceStep::Left(Way::ByTransfer) => "transfer ",
        PlaceStep::Left(Way::ByEnd) => "end ",
        PlaceStep::Left(Way::ByWithdrawal(Withdrawal::Return)) => "return ",
        PlaceStep::Left(Way::ByWithdrawal(Withdrawal::Discard)) => "discard ",
        PlaceStep::Delayed => "delay ",
    }
}

/// Prints each row of networks.in, and what is made of its configurations.
pub fn show_networks(rt: &HostRuntime) -> Result<(), Fail> {
    let rows = fs::read_to_string(rt, "networks.in")?;
    for row in rows.as_str().lines() {
        let mut told = Answer::new(rt.alloc());
        tell_network(&mut told, row)?;
        print_told(rt, row, ": ", &told)?;
    }
    Ok(())
}

/// Tells the fault of a row's configurations, or how many nodes they make. A word is one: the name of its host, and
/// after `>` the name of the hop of every domain.
fn tell_network(told: &mut Answer, row: &str) -> Result<(), Fail> {
    let mut configs = Vec::new(told.alloc);
    for word in row.split(' ') {
        let (host, hop) = word.split_once('>').unwrap_or((word, "out.example"));
        let table = format!(in told.alloc; "* {hop}")?;
        configs.push(config_of(told.alloc, host, "", table.as_str())?)?;
    }
    let count = configs.len() as u64;
    match Pair::network(told.alloc, configs) {
        Ok(_) => {
            told.count("", count);
            told.say(" nodes");
        }
        Err(fault) => told.show(&fault),
    }
    Ok(())
}
