//! The outcome of a row of scripts: `LINE` and a line of a script, or `TEXT` and octets in decimal, of which the text
//! that spells them is written.
use crate::answer::{Answer, RowsFault};
use relay_script::{Event, MOST_NODES, NodeIndex, ScriptLine, push_text, script_line};

/// Names each node.
pub fn tell_nodes(answer: &mut Answer) {
    for index in 0..MOST_NODES {
        if index > 0 {
            answer.say("\n");
        }
        let node = NodeIndex::new(index);
        tell_node(answer, "node ", node);
        answer.say(": ");
        answer.show(&char::from(node.letter()));
    }
}

/// Tells the outcome of a row.
pub fn tell_script(answer: &mut Answer, given: &str) {
    let (word, rest) = given.split_once(' ').unwrap_or((given, ""));
    match word {
        "LINE" => match script_line(answer.alloc, rest.as_bytes()) {
            Ok(Some(said)) => tell_line(answer, &said),
            Ok(None) => answer.say("none"),
            Err(_) => answer.stop(RowsFault::NoMemory),
        },
        "TEXT" => tell_text(answer, rest),
        _ => answer.say("no row"),
    }
}

/// What was said.
fn tell_line(answer: &mut Answer, said: &ScriptLine) {
    match said {
        ScriptLine::Skipped => answer.say("skipped"),
        ScriptLine::Nodes { count } => {
            answer.count("", count.count() as u64);
            answer.say(" nodes");
        }
        ScriptLine::Event(event) => tell_event(answer, event),
        ScriptLine::Ledger => answer.say("ledger"),
        ScriptLine::Marks => answer.say("marks"),
        ScriptLine::Copies {
            node,
            number,
            place,
        } => tell_place(answer, "copies of node ", *node, *number, *place),
        ScriptLine::Lost {
            node,
            number,
            place,
        } => tell_place(answer, "lost replies of node ", *node, *number, *place),
    }
}

/// What is asked of a place.
fn tell_place(answer: &mut Answer, what: &str, node: NodeIndex, number: u64, place: u64) {
    tell_node(answer, what, node);
    answer.count(", number ", number);
    answer.count(", place ", place);
}

/// What happens.
fn tell_event(answer: &mut Answer, event: &Event) {
    match event {
        Event::Connect { node } => tell_node(answer, "connect node ", *node),
        Event::Send { link, text: octets } => tell_send(answer, *link, octets.as_slice()),
        Event::Carry { link, node, count } => {
            answer.count("carry link ", *link);
            tell_node(answer, ", node ", *node);
            answer.count(", count ", *count);
        }
        Event::Break { link } => answer.count("break link ", *link),
        Event::Tick { moment } => answer.count("tick ", moment.seconds()),
        Event::Give { node } => tell_node(answer, "give node ", *node),
        Event::Compact { node } => tell_node(answer, "compact node ", *node),
        Event::Stop { node, calls, pick } => {
            tell_node(answer, "stop node ", *node);
            answer.count(", calls ", *calls);
            answer.count(", pick ", *pick);
        }
        Event::Return {
            node,
            number,
            place,
        } => tell_place(answer, "return node ", *node, *number, *place),
        Event::Discard {
            node,
            number,
            place,
        } => tell_place(answer, "discard node ", *node, *number, *place),
    }
}

/// Tells a node's number after these words.
fn tell_node(answer: &mut Answer, words: &str, node: NodeIndex) {
    answer.count(words, node.index() as u64);
}

/// The octets that are written on a link, in decimal.
fn tell_send(answer: &mut Answer, link: u64, octets: &[u8]) {
    answer.count("send link ", link);
    answer.say(":");
    for octet in octets {
        answer.count(" ", u64::from(*octet));
    }
}

/// The text that spells octets, which stand in decimal.
fn tell_text(answer: &mut Answer, octets: &str) {
    let mut spelled = Vec::new(answer.alloc);
    for word in octets.split(' ') {
        match word.parse::<u8>() {
            Ok(octet) => answer.note(push_text(&mut spelled, &[octet])),
            Err(_) => answer.stop(RowsFault::Row),
        }
    }
    answer.read_text(spelled.as_slice());
}
