//! The log of what was done.
ghost use Rattle.std.specs.Prelude.{◌≤◌, length};

use crate::attempt_line::{
    Attempt, count_outcome, outcome_of, recipient_line, report_line, unrecorded_line,
};
use crate::client_line::{
    ClientEnd, Connection, HeaderFault, Refusal, accepted_line, client_end_line, connection_line,
    count_of, header_fault_line, more_accepted_line, more_rejected_line, rejected_line,
    turned_away_line, unserved_line,
};
use crate::client_record::ClientRecord;
use crate::counters::{Counters, Rejection, add};
use crate::head::Head;
use crate::hop_link::Loss;
use crate::rejection_minutes::{ADDRESSES, RejectionMinute, RejectionMinutes};
use crate::run_line::{
    DeviceFailure, address_awaited_line, compacted_line, device_failed_line, hop_back_line,
    hop_held_line, listening_line, push_ended_line, steered_line, stopping_line,
};
use crate::talk::Talk;
use memchr::memchr;
use relay_backlog::{Form, LogLine};
use relay_book::{Message, Outcome};
use relay_disk::Disk;
use relay_envelope::Recipient;
use relay_node::{Node, Noted};
use relay_trace::Moment;
use std::alloc::Global;
use std::fmt::Display;
use std::io::{self, Write};
use std::net::SocketAddrV4;

/// Counts what is done, and logs it if it is asked to write lines. A line is an event and its fields, in printable
/// octets, without any mail data. A line that can't be made or written is dropped, and mail goes on.
#[derive(Drop)]
pub struct Log<'a, E: Write> {
    head: Head,
    errors: &'a mut E,
    speaks: bool,
    counters: &'a mut Counters,
    minutes: &'a mut RejectionMinutes,
}

impl<'a, E: Write> Log<'a, E> {
    /// Makes a log on this writer, whose lines are plain text without a time. It writes none unless `speaks` is set.
    pub fn new(
        alloc: Global,
        errors: &'a mut E,
        speaks: bool,
        counters: &'a mut Counters,
        minutes: &'a mut RejectionMinutes,
    ) -> Self {
        Log {
            head: Head {
                alloc,
                form: Form::Text,
                moment: None,
            },
            errors,
            speaks,
            counters,
            minutes,
        }
    }

    /// Makes a log on this writer, whose lines have this form and this time, in UTC (RFC 3339). Without a form it
    /// writes none.
    pub fn stamped(
        alloc: Global,
        errors: &'a mut E,
        form: Option<Form>,
        moment: Moment,
        counters: &'a mut Counters,
        minutes: &'a mut RejectionMinutes,
    ) -> Self {
        Log {
            head: Head {
                alloc,
                form: match form {
                    Some(form) => form,
                    None => Form::Text,
                },
                moment: Some(moment),
            },
            errors,
            speaks: form.is_some(),
            counters,
            minutes,
        }
    }

    /// Returns whether it writes lines.
    pub fn speaks(&self) -> bool {
        self.speaks
    }

    /// Returns a new record of an attempt's replies, if it writes lines and the message is queued.
    pub fn talk_of(&self, message: Option<&Message>) -> Talk {
        let mut talk = Talk::new(self.head.alloc, self.speaks);
        talk.note_message(message);
        talk
    }

    /// Logs the address at which the relay listens.
    pub fn listens(&mut self, at: SocketAddrV4) {
        if self.speaks {
            self.say(listening_line(self.head, at));
        }
    }

    /// Logs that this machine doesn't have the configured address yet, and for how many seconds the relay waits for it
    /// at most.
    pub fn awaits_address(&mut self, at: SocketAddrV4, seconds: u64) {
        if self.speaks {
            self.say(address_awaited_line(self.head, at, seconds));
        }
    }

    /// Counts a client's connection.
    pub fn connected(&mut self) {
        add(&mut self.counters.connections, 1);
    }

    /// Logs an accepted message of a client.
    pub fn accepted(&mut self, peer: SocketAddrV4, message: &Message, record: &mut ClientRecord) {
        record.accept();
        add(&mut self.counters.accepted, 1);
        if self.speaks {
            // A line that can't be written is dropped.
            let _ = self.tell_accepted(peer, message);
        }
    }

    fn tell_accepted(&mut self, peer: SocketAddrV4, message: &Message) -> io::Result<()> {
        let mut rest = message.accept.envelope.recipients.as_slice();
        let (line, count) = accepted_line(self.head, peer, message)?;
        self.write(line)?;
        rest = after(rest, count);
        // Each line has at least one recipient.
        for _ in 0..rest.len() {
            if rest.is_empty() {
                return Ok(());
            }
            let (line, count) = more_accepted_line(self.head, message.number, rest)?;
            self.write(line)?;
            rest = after(rest, count);
        }
        Ok(())
    }

    /// Logs the refusals among these replies to a client at this tick, in milliseconds: up to ten for its address and
    /// minute. The others are counted, for [`Log::minutes_over`]. Each reply is one line, except that to EHLO.
    pub fn replied(
        &mut self,
        peer: SocketAddrV4,
        replies: &[u8],
        record: &mut ClientRecord,
        tick: u64,
    ) {
        let mut rest = replies;
        for _ in 0..replies.len() {
            if rest.is_empty() {
                return;
            }
            let (line, others) = rest.split_at(line_length(rest));
            if let Some(rejection) = Rejection::of_reply(line) {
                self.counters.rejected.count(rejection);
                self.rejected(peer, line, record, tick);
            }
            rest = others;
        }
    }

    fn rejected(&mut self, peer: SocketAddrV4, reply: &[u8], record: &mut ClientRecord, tick: u64) {
        record.refuse();
        if !self.speaks {
            return;
        }
        let (has_line, taken) = self.minutes.note(peer, tick);
        if let Some(minute) = taken {
            self.more_rejected(minute);
        }
        if has_line {
            self.say(rejected_line(self.head, peer, reply));
        }
    }

    /// Logs, for each address whose minute of refusals is over at this tick, how many of them have no line.
    pub fn minutes_over(&mut self, tick: u64) {
        for number in 0..ADDRESSES {
            if let Some(minute) = self.minutes.take_over(number, tick) {
                self.more_rejected(minute);
            }
        }
    }

    /// Logs how many refusals of a minute have no line.
    fn more_rejected(&mut self, minute: RejectionMinute) {
        if self.speaks && 0 < minute.untold {
            self.say(more_rejected_line(self.head, minute.peer, minute.untold));
        }
    }

    /// Logs the end of a client's connection, at this tick in milliseconds.
    pub fn client_ended(
        &mut self,
        peer: SocketAddrV4,
        record: &ClientRecord,
        end: ClientEnd,
        tick: u64,
    ) {
        if end == ClientEnd::Timeout {
            add(&mut self.counters.timeouts, 1);
        }
        if self.speaks {
            self.say(client_end_line(self.head, peer, record, end, tick));
        }
    }

    /// Logs the end of a client's connection, with the number of messages that the node has accepted on it.
    pub fn client<D: Disk, F: Display>(&mut self, node: &Node<D>, connection: &Connection<'_, F>) {
        add(&mut self.counters.connections, 1);
        add(
            &mut self.counters.accepted,
            count_of(node, connection.messages),
        );
        if self.speaks {
            self.say(connection_line(self.head, node, connection));
        }
    }

    /// Logs that a client's connection was closed unserved: there was no thread, or no memory, for it.
    pub fn unserved(&mut self, peer: SocketAddrV4) {
        if self.speaks {
            self.say(unserved_line(self.head, peer));
        }
    }

    /// Logs that the connection of a balancer was closed because its header names no client.
    pub fn header_refused(&mut self, balancer: SocketAddrV4, fault: HeaderFault) {
        if self.speaks {
            self.say(header_fault_line(self.head, balancer, fault));
        }
    }

    /// Logs that clients of an address were refused, and why: `count` of them, this one being the last.
    pub fn refused(&mut self, peer: SocketAddrV4, why: Refusal, count: u64) {
        match why {
            Refusal::NoRoom | Refusal::Stopping => add(&mut self.counters.turned_away, count),
            Refusal::NoService => add(&mut self.counters.rejected.no_service, count),
        }
        if self.speaks {
            self.say(turned_away_line(self.head, peer, why, count));
        }
    }

    /// Logs the end of an attempt: a line for each recipient, and one for the report that it queues.
    pub fn attempt(&mut self, attempt: &Attempt<'_>, talk: &Talk) {
        let Some(noted) = &attempt.noted else {
            if self.speaks {
                self.say(unrecorded_line(self.head, attempt));
            }
            return;
        };
        if let Some(outcome) = outcome_of(self.head.alloc, noted) {
            count_outcome(noted, &outcome, self.counters);
            if self.speaks {
                // A line that can't be written is dropped.
                let _ = self.tell_outcome(attempt, talk, noted, &outcome);
            }
        }
    }

    fn tell_outcome(
        &mut self,
        attempt: &Attempt<'_>,
        talk: &Talk,
        noted: &Noted,
        outcome: &Outcome,
    ) -> io::Result<()> {
        let rulings = outcome.rulings.as_slice();
        for index in 0..rulings.len() {
            let line = recipient_line(self.head, attempt, talk, noted, rulings, index)?;
            if let Some(line) = line {
                self.write(line)?;
            }
        }
        if noted.report {
            self.write(report_line(self.head, attempt, talk, noted, outcome)?)?;
        }
        Ok(())
    }

    /// Logs that a next hop couldn't be reached, and is on hold for this many seconds.
    pub fn held_off(&mut self, hop: &[u8], at: SocketAddrV4, seconds: u64, loss: Loss) {
        add(&mut self.counters.holds, 1);
        if self.speaks {
            self.say(hop_held_line(self.head, hop, at, seconds, loss));
        }
    }

    /// Logs that a next hop has replied again after it was on hold for `seconds`, with `failures` failed connections.
    pub fn came_back(&mut self, hop: &[u8], at: SocketAddrV4, seconds: u64, failures: u64) {
        if self.speaks {
            self.say(hop_back_line(self.head, hop, at, seconds, failures));
        }
    }

    /// Logs that mail is refused for now because the spool is full.
    pub fn spool_full(&mut self) {
        if self.speaks {
            let line = self.head.line(b"spool-full");
            self.say(line);
        }
    }

    /// Logs that the spool was compacted, with its sizes before and after, in octets.
    pub fn compacted(&mut self, before: usize, after: usize) {
        add(&mut self.counters.compactions, 1);
        if self.speaks {
            self.say(compacted_line(self.head, before, after));
        }
    }

    /// Logs that the device has failed.
    pub fn device_failed(&mut self, failure: &DeviceFailure<'_>) {
        add(&mut self.counters.device_failures, 1);
        if self.speaks {
            self.say(device_failed_line(self.head, failure));
        }
    }

    /// Logs that a disk that was full has room again.
    pub fn shortage_ended(&mut self) {
        if self.speaks {
            let line = self.head.line(b"shortage-ended");
            self.say(line);
        }
    }

    /// Logs a request of the control socket, as it was written.
    pub fn steered(&mut self, request: &[u8]) {
        if self.speaks {
            self.say(steered_line(self.head, request));
        }
    }

    /// Logs that the spool is open again after a failure of its device.
    pub fn opened_again(&mut self) {
        if self.speaks {
            let line = self.head.line(b"reopened");
            self.say(line);
        }
    }

    /// Logs the fault by which the relay ends.
    pub fn stopping<F: Display>(&mut self, fault: &F) {
        if self.speaks {
            self.say(stopping_line(self.head, fault));
        }
    }

    /// Logs the fault by which a push has ended before its last work. Writes the line even if no lines are asked for,
    /// because the operator must act on it.
    pub fn push_ended<F: Display + Drop>(&mut self, fault: F) {
        self.say(push_ended_line(self.head, &fault));
    }

    fn say(&mut self, line: io::Result<LogLine>) {
        if let Ok(line) = line {
            // If this line can't be written, there is nothing left to do.
            let _ = self.write(line);
        }
    }

    /// Writes a line by one write.
    fn write(&mut self, line: LogLine) -> io::Result<()> {
        let octets = line.ended()?;
        self.errors.write_all(octets.as_slice())?;
        self.errors.flush()
    }
}

/// Returns the length of the first line with its LF, or of all octets if there is no LF.
fn line_length(octets: &[u8]) -> usize
    ensures { result ≤ length octets.now }
{
    match memchr(b'\n', octets) {
        Some(place) => place + 1,
        None => octets.len(),
    }
}

/// Returns the recipients after this many.
fn after(recipients: &[Recipient], count: usize) -> &[Recipient] {
    &recipients[count.min(recipients.len())..]
}
