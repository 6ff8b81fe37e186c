//! The recipients of an attempt, and the replies of its next hop, for the log.
ghost use Rattle.std.specs.Prelude.{◌≡◌, ◌<◌, ◌≤◌, ◌⊎◌, ◌++◌, ℕ, [], List, MatchOption, OnErr, OnOk, length};
ghost use Rattle.std.specs.Prelude.{option_map, take};
ghost use Rattle.std.specs.Prelude.{false, slice_get, true};
ghost use Rattle.relay_lines.specs.Reply.{Reply as Coded};
ghost use Rattle.relay_body.specs.DotText.{ends_in_line_end};
ghost use Rattle.relay_log.specs.Settling.{closing_reply, deferring_reply, if_closing_told, settling_reply};
ghost use Rattle.relay_log.specs.Settling.{told_as, told_of};
ghost use Rattle.relay_log.specs.Talk.{HasHeard, HasKept, KeepsNone, KeepsReply, KeepsRest};

use relay_body::ends_in_line_end;
use relay_book::{Message, Verdict};
use relay_course::settling_position;
use relay_lines::{Reply, ReplyFault, ReplyReader};
use relay_octets::Octets;
use std::alloc::{AllocError, Global};

/// How many octets of a reply's text are kept.
const TEXT_LIMIT: usize = 200;

/// The most replies of an attempt: the greeting, those to EHLO, HELO, MAIL, 100 RCPTs, DATA and the mail data.
const REPLY_LIMIT: usize = 106;

/// The code by which a next hop closes the connection (RFC 5321, section 3.8).
const CLOSING: u16 = 421;

/// The reverse path and the recipients of a message, and the replies of a next hop as they come. If memory runs out, it
/// knows less than there is.
#[derive(Drop)]
pub struct Talk {
    alloc: Global,
    /// Whether it keeps what it is told.
    listens: bool,
    /// Whether the text is sent by DATA, rather than as a chunk.
    by_data: bool,
    reverse_path: Vec<u8>,
    /// The recipients' paths in their order.
    recipients: Vec<Vec<u8>>,
    reader: ReplyReader,
    codes: Vec<u16>,
    /// The first 200 octets of each reply's last line, after its code.
    texts: Vec<Octets>,
    /// Why the next octets are no reply, if they are none.
    fault: Option<ReplyFault>,
}

impl Talk {
    /// Nothing is known yet. Unless it listens, that stays so.
    pub fn new(alloc: Global, listens: bool) -> Self
        ensures { HasKept result [] [] }
    {
        Talk {
            alloc,
            listens,
            by_data: true,
            reverse_path: Vec::new(alloc),
            recipients: Vec::new(alloc),
            reader: ReplyReader::new(alloc),
            codes: Vec::new(alloc),
            texts: Vec::new(alloc),
            fault: None,
        }
    }

    /// Keeps the paths of the message that the attempt is for, if it is queued, and how its text is sent.
    pub fn note_message(&mut self, message: Option<&Message>)
        ensures heard { (octets : List ℕ) (replies : List Coded) → HasKept self.old octets replies
            → HasKept self.new octets replies }
        ensures sent { self.old.listens ≡ true → MatchOption message.entry (self.new.by_data ≡ self.old.by_data)
            (λ message. self.new.by_data ≡ ends_in_line_end message.now.accept.stored_text) }
    {
        match message {
            Some(message) if self.listens => {
                self.by_data = ends_in_line_end(message.accept.stored_text.as_slice());
                // The log names no path that there was no memory for.
                let _ = self.copy_paths(message);
            }
            _ => {}
        }
    }

    fn copy_paths(&mut self, message: &Message) -> Result<(), AllocError>
        ensures none { KeepsNone self.old self.new }
        ensures rest { KeepsRest self.old self.new }
    {
        let envelope = &message.accept.envelope;
        self.reverse_path = envelope.reverse_path.as_slice().to_vec(self.alloc)?;
        self.recipients.clear();
        for recipient in envelope.recipients.as_slice() {
            self.recipients
                .push(recipient.path.as_slice().to_vec(self.alloc)?)?;
        }
        Ok(())
    }

    /// Takes the next octets that the next hop wrote.
    pub fn hear(&mut self, octets: &[u8])
        ensures heard { (before : List ℕ) → HasHeard self.old before → HasHeard self.new (before ++ octets.now) }
        ensures by_data { self.new.by_data ≡ self.old.by_data }
    {
        let mut used = 0;
        while self.listens && used < octets.len() {
            used += self.hear_one(&octets[used..]);
        }
    }

    /// Takes octets up to the end of a reply, or all of them, and returns how many.
    fn hear_one(&mut self, octets: &[u8]) -> usize
        requires listens { self.old.listens ≡ true }
        requires some { 0 < length octets.now }
        ensures within { (0 < result) × (result ≤ length octets.now) }
        ensures heard { (before : List ℕ) → HasHeard self.old before
            → HasHeard self.new (before ++ take result octets.now) }
        ensures by_data { self.new.by_data ≡ self.old.by_data }
    {
        match self.reader.feed(octets) {
            Ok(cut) => {
                let used = cut.used;
                match cut.reply {
                    Some(reply) => {
                        self.note(&reply);
                        used
                    }
                    None => used,
                }
            }
            Err(fault) => {
                self.listens = false;
                self.fault = Some(fault);
                octets.len()
            }
        }
    }

    /// Keeps a reply, or stops to listen if there are too many of them, or if memory runs out.
    fn note(&mut self, reply: &Reply)
        ensures kept { (KeepsReply self.old self.new reply.now × (self.new.listens ≡ self.old.listens))
            ⊎ (KeepsNone self.old self.new × (self.new.listens ≡ false)) }
        ensures rest { (self.new.reader ≡ self.old.reader) × (self.new.by_data ≡ self.old.by_data) }
    {
        if REPLY_LIMIT <= self.codes.len() || self.keep(reply).is_err() {
            self.listens = false;
        }
    }

    /// Keeps a reply, or nothing of it if memory runs out.
    #[tactic(auto, using(crate::proofs::TalkLemmas::told_is))]
    fn keep(&mut self, reply: &Reply) -> Result<(), AllocError>
        ensures kept { OnOk result (KeepsReply self.old self.new reply.now) }
        ensures none { OnErr result (KeepsNone self.old self.new) }
        ensures rest { KeepsRest self.old self.new }
    {
        let text = reply.last_text();
        let kept = Octets::from_slice(self.alloc, &text[..TEXT_LIMIT.min(text.len())])?;
        // With room for it the second push doesn't fail.
        self.codes.reserve(1)?;
        self.texts.push(kept)?;
        match self.codes.push(reply.code()) {
            Ok(()) => Ok(()),
            Err(_) => unreachable!(),
        }
    }

    /// Returns why the last octets were no reply, if they were none.
    pub(crate) fn fault(&self) -> Option<ReplyFault> {
        self.fault
    }

    /// Returns the message's reverse path; empty if it isn't known.
    pub(crate) fn reverse_path(&self) -> &[u8] {
        self.reverse_path.as_slice()
    }

    /// Returns the path of the recipient at a place of the message, if it is known.
    pub(crate) fn recipient(&self, place: u8) -> Option<&[u8]> {
        match self.recipients.as_slice().get(usize::from(place)) {
            Some(path) => Some(path.as_slice()),
            None => None,
        }
    }

    /// Returns the code and the text that the log has for the recipient of this index, among this many of the attempt,
    /// by its verdict. `is_lost` says whether the connection was lost, so that no reply settled it.
    pub(crate) fn reply_told<'a>(
        &'a self,
        verdict: &'a Verdict,
        is_lost: bool,
        count: u8,
        index: u8,
    ) -> Option<(u16, &'a [u8])>
        ensures { (octets : List ℕ) (replies : List Coded) → HasKept self.now octets replies
            → option_map (λ told. (told.0, told.1.now)) result
            ≡ told_of verdict.now is_lost self.now.by_data replies count index }
    {
        match verdict {
            Verdict::Refused { code, text } => Some((*code, text.as_slice())),
            Verdict::Taken { .. } => self.settling_reply(count, index),
            Verdict::Later if is_lost => self.closing_reply(),
            Verdict::Later => self.deferring_reply(count, index),
            Verdict::CantSend | Verdict::NoRoute | Verdict::Withdrawn(_) => None,
        }
    }

    /// Returns the code and the text of the reply that settled the recipient of this index, among this many of the
    /// attempt, if it is known.
    fn settling_reply(&self, count: u8, index: u8) -> Option<(u16, &[u8])>
        ensures { (octets : List ℕ) (replies : List Coded) → HasKept self.now octets replies
            → option_map (λ told. (told.0, told.1.now)) result
            ≡ told_as (settling_reply self.now.by_data replies count index) }
    {
        let position = settling_position(self.codes.as_slice(), self.by_data, count, index);
        self.reply_at(position)
    }

    /// Returns the code and the text of the reply that settled a recipient, or else of the one by which the next hop
    /// closed the connection.
    fn deferring_reply(&self, count: u8, index: u8) -> Option<(u16, &[u8])>
        ensures { (octets : List ℕ) (replies : List Coded) → HasKept self.now octets replies
            → option_map (λ told. (told.0, told.1.now)) result
            ≡ told_as (deferring_reply false self.now.by_data replies count index) }
    {
        let settling = self.settling_reply(count, index);
        if settling.is_some() {
            settling
        } else {
            self.closing_reply()
        }
    }

    /// Returns the code and the text of the last reply, if the next hop closed the connection by it.
    fn closing_reply(&self) -> Option<(u16, &[u8])>
        ensures { (octets : List ℕ) (replies : List Coded) → HasKept self.now octets replies
            → option_map (λ told. (told.0, told.1.now)) result ≡ told_as (closing_reply replies) }
    {
        if_closing(self.reply_at(self.codes.len().saturating_sub(1)))
    }

    /// Returns the code and the text of the reply at a position, if there is one.
    fn reply_at(&self, position: usize) -> Option<(u16, &[u8])>
        ensures { (octets : List ℕ) (replies : List Coded) → HasKept self.now octets replies
            → option_map (λ told. (told.0, told.1.now)) result ≡ told_as (slice_get replies position) }
    {
        if position < self.codes.len() && position < self.texts.len() {
            Some((self.codes[position], self.texts[position].as_slice()))
        } else {
            None
        }
    }
}

/// Returns this code and text, if the next hop closes the connection by them.
fn if_closing(reply: Option<(u16, &[u8])>) -> Option<(u16, &[u8])>
    ensures { option_map (λ told. (told.0, told.1.now)) result
        ≡ if_closing_told (option_map (λ told. (told.0, told.1.now)) reply.entry) }
{
    match reply {
        Some((code, _)) if code == CLOSING => reply,
        Some(_) => None,
        None => None,
    }
}
