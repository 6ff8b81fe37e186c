use crate::calls::{MemoryNode, fuse, next_number};
use crate::course::Course;
use crate::step::Step;
use crate::words::Words;
use relay_node::NodeFault;
use relay_trace::Moment;
use std::alloc::Global;

/// What happens around a node, and the outcome of the last event.
pub struct Scene {
    pub alloc: Global,
    pub course: Course,
    pub now: Moment,
    /// The record of the change that was noted last.
    pub record: Vec<u8>,
    /// How many octets of its piece the call of that change had used.
    pub used: usize,
    /// Lines, each with its CR LF.
    pub came: Vec<u8>,
    /// The sessions of other clients.
    pub crowd: Vec<usize>,
    /// Something didn't come, for lack of memory.
    pub is_short: bool,
}

// Written out, as everywhere here: where one is dropped, this is called.
impl Drop for Scene {
    fn drop(self) {
        let Scene {
            alloc: _,
            course: _,
            now: _,
            record: _record,
            used: _,
            came: _came,
            crowd: _crowd,
            is_short: _,
        } = self;
    }
}

impl Scene {
    /// Performs an event of a node.
    ///
    /// `at 1000` sets the clock, `fuse` the disks' fuse as the course of the scenario says, `fuse 5` to five calls,
    /// `compact` compacts the spool, and `connect 2` opens two sessions. `give client 0` gives a session what `>` lines
    /// say, in pieces, and `give hop 0` an attempt; `part hop 0` gives as many octets of it as the course has calls,
    /// `once client 0` gives all in one call, `hold client 0` all in pieces, and tells what is written, and
    /// `turns hop 0 hop 1` gives two peers each octet. Further events are `end 0` of a session, `start 1 next.example`
    /// and `lose 0` of an attempt, `give_up 1` of a message, and `crowd`, by which other clients take all places that
    /// are left.
    pub fn perform(&mut self, node: &mut MemoryNode, step: &Step<'_>, word: &str, rest: Words<'_>) {
        let mut words = rest;
        match word {
            "give" => self.give(node, step, words.peer()),
            "part" => {
                let count = self.course.calls as usize;
                self.give_front(node, step, words.peer(), count);
            }
            "once" => self.give_once(node, step, words.peer()),
            "hold" => self.hold(node, step, words.peer()),
            "turns" => self.take_turns(node, step, words.peer(), words.peer()),
            "start" => self.start(node, words),
            "has" => self.tell_has(step.said.as_slice()),
            _ => self.perform_plain(node, word, words),
        }
    }

    /// Performs an event in which nobody says anything, or asks something: what is `due`, the `marks`, a
    /// place as `place 1 0`, the `next` number, or the `note` of the last change, and of that note then how
    /// much was `used`, how long its `record` is, and whether it `has` what `>` lines say.
    fn perform_plain(&mut self, node: &mut MemoryNode, word: &str, rest: Words<'_>) {
        let mut words = rest;
        let number = words.number();
        match word {
            "at" => self.set_moment(number),
            "fuse" => self.fuse(node, rest),
            "compact" => self.compact(node),
            "connect" => self.connect(node, number),
            "crowd" => self.crowd(node),
            "end" => self.end(node, number),
            "lose" => self.lose(node, number),
            "give_up" => self.give_up(node, number),
            "due" => self.tell_works(node),
            "marks" => self.tell_marks(node),
            "place" => self.tell_place(node, number, words.number()),
            "next" => self.tell_number("next", next_number(node)),
            "note" => self.tell_note(node),
            "used" => self.tell_number("used", self.used as u64),
            "record" => self.tell_record(),
            _ => self.tell("no event"),
        }
    }

    /// Sets the fuse of the disks to this many calls, or as the course says.
    fn fuse(&mut self, node: &mut MemoryNode, rest: Words<'_>) {
        let mut words = rest;
        fuse(node, words.number_or(self.course.calls));
    }

    /// Sets the clock, if there is such a time.
    fn set_moment(&mut self, seconds: u64) {
        if let Ok(now) = Moment::new(seconds) {
            self.now = now;
        }
    }

    /// Tells octets.
    pub fn tell_octets(&mut self, octets: &[u8]) {
        if self.came.extend_from_slice(octets).is_err() {
            self.is_short = true;
        }
    }

    /// Tells a line.
    pub fn tell(&mut self, line: &str) {
        self.tell_octets(line.as_bytes());
        self.tell_octets(b"\r\n");
    }

    /// Tells a line of a word and a number.
    pub fn tell_number(&mut self, word: &str, number: u64) {
        match format!(in self.alloc; "{word} {number}") {
            Ok(line) => self.tell(line.as_str()),
            Err(_) => self.is_short = true,
        }
    }

    /// Tells a line of two numbers.
    pub fn tell_numbers(&mut self, first: u64, second: u64) {
        match format!(in self.alloc; "{first} {second}") {
            Ok(line) => self.tell(line.as_str()),
            Err(_) => self.is_short = true,
        }
    }

    /// Tells a fault.
    pub fn tell_fault(&mut self, fault: NodeFault) {
        match format!(in self.alloc; "{fault}") {
            Ok(line) => self.tell(line.as_str()),
            Err(_) => self.is_short = true,
        }
    }
}
