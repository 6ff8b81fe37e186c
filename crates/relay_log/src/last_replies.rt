//! The last reply of each next hop, for those who look at the queue.
ghost use Rattle.std.specs.Prelude.{◌≡◌, ◌≢◌, ℕ, IfOk, List, None, OnErr, OnOk, Some, option_copied};
ghost use Rattle.relay_log.specs.LastReplies.{HasReplied, answer_of, shown_reply};

use crate::hop_link::Loss;
use itoa::Buffer;
use relay_lines::Reply;
use relay_lines::word::all_shown;
use relay_trace::Moment;
use std::alloc::{AllocError, Global};
use std::collections::HashMap;

/// The most octets of a reply that are kept.
const MOST_SHOWN: usize = 200;

/// What a next hop answered last, and when.
#[derive(Drop)]
pub enum Answer {
    /// It replied: this code and text.
    Replied(Vec<u8>, Moment),
    /// It didn't reply: its connection failed, for this reason.
    Failed(Loss, Moment),
}

/// The last answers of next hops, by name. There are no more of them than next hops in the configuration, since a new
/// configuration begins without any.
pub struct LastReplies {
    alloc: Global,
    answers: HashMap<Vec<u8>, Answer>,
}

// Written out, so that the proof of a caller that drops them stops at this function.
impl Drop for LastReplies {
    fn drop(self) {
        let LastReplies {
            alloc: _,
            answers: _answers,
        } = self;
    }
}

impl LastReplies {
    /// Returns a table in which no next hop has answered. Allocates nothing.
    pub fn new(alloc: Global) -> Self
        ensures { (name : List ℕ) → answer_of result name ≡ None }
    {
        LastReplies {
            alloc,
            answers: HashMap::new(alloc),
        }
    }

    /// Keeps the answer of the next hop of this name in place of the one before. Fails if memory runs out; the one
    /// before stays then.
    pub fn note(&mut self, name: &[u8], answer: Answer) -> Result<(), AllocError>
        ensures noted { OnOk result (answer_of self.new name.now ≡ Some answer) }
        ensures others { (other : List ℕ) → other ≢ name.now → answer_of self.new other ≡ answer_of self.old other }
        ensures failed { OnErr result (answer_of self.new name.now ≡ answer_of self.old name.now) }
    {
        let name = Vec::from_slice(self.alloc, name)?;
        match self.answers.insert(name, answer) {
            Ok(_) => Ok(()),
            Err(_) => Err(AllocError),
        }
    }

    /// Keeps a reply of the next hop of this name, as [`LastReplies::note`].
    pub fn note_reply(&mut self, name: &[u8], reply: &Reply, now: Moment) -> Result<(), AllocError>
        ensures noted { OnOk result (HasReplied reply.now now (answer_of self.new name.now)) }
        ensures others { (other : List ℕ) → other ≢ name.now → answer_of self.new other ≡ answer_of self.old other }
    {
        let text = shown_reply(self.alloc, reply)?;
        self.note(name, Answer::Replied(text, now))
    }

    /// Returns the last answer of the next hop of this name, if there is one.
    pub fn get(&self, name: &[u8]) -> Option<&Answer>
        ensures { option_copied result ≡ answer_of self.now name.now }
    {
        self.answers.get(name)
    }
}

/// Returns the code of a reply and the text of its last line, as they are shown. Fails if memory runs out.
fn shown_reply(alloc: Global, reply: &Reply) -> Result<Vec<u8>, AllocError>
    ensures { IfOk result (λ text. text.items ≡ shown_reply reply.now) }
{
    let mut text = Vec::new(alloc);
    text.extend_from_slice(Buffer::new().format(reply.code()).as_bytes())?;
    text.push(b' ')?;
    text.extend_from_slice(reply.last_text())?;
    text.truncate(MOST_SHOWN);
    all_shown(alloc, text.as_slice())
}
