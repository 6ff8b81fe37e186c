//! What a node answers, told line by line.
use crate::calls::{
    MemoryNode, compact, connect, due, end, give_up, lose, marks, place, start, take_noted,
};
use crate::scene::Scene;
use crate::words::Words;
use relay_book::{PlaceStep, Way, Withdrawal};
use relay_node::{Connected, Noted, Started, Work};
use relay_routes::HostName;

impl Scene {
    /// Opens this many sessions, and tells the number of each, and what the last client is greeted with.
    pub fn connect(&mut self, node: &mut MemoryNode, count: u64) {
        self.empty(node);
        for number in 0..count {
            match connect(node) {
                Ok(connected) => self.tell_session(&connected, number.saturating_add(1) == count),
                Err(fault) => self.tell_fault(fault),
            }
        }
        if self.course.is_crowded {
            self.crowd(node);
        }
    }

    fn tell_session(&mut self, connected: &Connected, is_last: bool) {
        self.tell_number("session", connected.session as u64);
        if is_last {
            self.tell_octets(connected.out.as_slice());
        }
    }

    /// Ends a session.
    pub fn end(&mut self, node: &mut MemoryNode, session: u64) {
        if let Err(fault) = end(node, session as usize) {
            self.tell_fault(fault);
        }
    }

    /// Ends an attempt whose connection is lost, and tells its change.
    pub fn lose(&mut self, node: &mut MemoryNode, attempt: u64) {
        match lose(node, attempt as usize, self.now) {
            Ok(number) => self.tell_number("change", number),
            Err(fault) => self.tell_fault(fault),
        }
    }

    /// Ends the places of a message that have no hop, and tells the change.
    pub fn give_up(&mut self, node: &mut MemoryNode, message: u64) {
        match give_up(node, message, self.now) {
            Ok(number) => self.tell_number("change", number),
            Err(fault) => self.tell_fault(fault),
        }
    }

    /// Compacts the spool, and tells its sizes before and after that.
    pub fn compact(&mut self, node: &mut MemoryNode) {
        match compact(node) {
            Ok((before, after)) => self.tell_numbers(before as u64, after as u64),
            Err(fault) => self.tell_fault(fault),
        }
    }

    /// Begins an attempt for a message and a hop, and tells its number and its places.
    pub fn start(&mut self, node: &mut MemoryNode, rest: Words<'_>) {
        let mut words = rest;
        let message = words.number();
        match HostName::read(self.alloc, words.rest.as_bytes()) {
            Ok(Some(hop)) => self.start_for(node, message, &hop),
            Ok(None) => self.tell("no name"),
            Err(_) => self.is_short = true,
        }
    }

    fn start_for(&mut self, node: &mut MemoryNode, message: u64, hop: &HostName) {
        match start(node, message, hop, self.now) {
            Ok(started) => self.tell_start(&started),
            Err(fault) => self.tell_fault(fault),
        }
    }

    fn tell_start(&mut self, started: &Started) {
        self.tell_number("attempt", started.attempt as u64);
        for place in started.places.as_slice() {
            self.tell_number("place", u64::from(*place));
        }
    }

    /// Tells what there is to do: a hop, and the number of a message to try there, or `-` where a place of
    /// it has no hop.
    pub fn tell_works(&mut self, node: &MemoryNode) {
        match due(self.alloc, node, self.now) {
            Ok(works) => {
                for work in works.as_slice() {
                    self.tell_work(work);
                }
            }
            Err(fault) => self.tell_fault(fault),
        }
    }

    fn tell_work(&mut self, work: &Work) {
        match work {
            Work::NoRoute(number) => self.tell_number("-", *number),
            Work::Try(number, hop) => {
                self.tell_octets(hop.as_slice());
                self.tell_number("", *number);
            }
        }
    }

    /// Tells the held places, each with the number of its message.
    pub fn tell_marks(&mut self, node: &MemoryNode) {
        match marks(self.alloc, node) {
            Ok(marks) => {
                for (number, place) in marks.as_slice() {
                    self.tell_numbers(*number, u64::from(*place));
                }
            }
            Err(fault) => self.tell_fault(fault),
        }
    }

    /// Tells the path of a place, and when it is due, if it is held.
    pub fn tell_place(&mut self, node: &MemoryNode, message: u64, number: u64) {
        match place(node, message, u8::try_from(number).unwrap_or(u8::MAX)) {
            Ok(Some(held)) => {
                self.tell_octets(held.path);
                self.tell_number(" due", held.due);
            }
            Ok(None) => self.tell("none"),
            Err(fault) => self.tell_fault(fault),
        }
    }

    /// Tells the note of a change: its number, how many recipients it accepts, the places that left by it,
    /// and whether it queued a report.
    pub fn tell_note(&mut self, node: &mut MemoryNode) {
        match take_noted(node) {
            Some(noted) => self.tell_noted(&noted),
            None => self.tell("none"),
        }
    }

    fn tell_noted(&mut self, noted: &Noted) {
        self.keep_record(noted);
        self.tell_number("change", noted.number);
        self.tell_number("accepts", noted.accepted as u64);
        for (place, step) in noted.left.as_slice() {
            self.tell_number(word_of(step), u64::from(*place));
        }
        self.tell(if noted.report { "report" } else { "no report" });
    }

    fn keep_record(&mut self, noted: &Noted) {
        self.used = noted.used;
        self.record.clear();
        if self
            .record
            .extend_from_slice(noted.octets.as_slice())
            .is_err()
        {
            self.is_short = true;
        }
    }

    /// Tells how many octets the record that was noted last has.
    pub fn tell_record(&mut self) {
        let length = self.record.len() as u64;
        self.tell_number("octets", length);
    }

    /// Returns whether the record that was noted last has this text.
    pub fn tell_has(&mut self, text: &[u8]) {
        let mut windows = self.record.as_slice().windows(text.len().max(1));
        let has_text = windows.any(|octets| octets == text);
        self.tell(if has_text { "yes" } else { "no" });
    }
}

/// Returns what became of a place: the next hop has it, it failed, the postmaster has ended it, or it is late.
fn word_of(step: &PlaceStep) -> &'static str {
    match step {
        PlaceStep::Left(Way::ByTransfer) => "there",
        PlaceStep::Left(Way::ByEnd) => "failed",
        PlaceStep::Left(Way::ByWithdrawal(Withdrawal::Return)) => "returned",
        PlaceStep::Left(Way::ByWithdrawal(Withdrawal::Discard)) => "discarded",
        PlaceStep::Delayed => "delayed",
    }
}
