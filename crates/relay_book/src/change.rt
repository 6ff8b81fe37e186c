ghost use Rattle.std.specs.Prelude.{◌≡◌, List, [], ◌++◌, ◌∷◌, length, OnOk, OnErr};

use crate::version::Version;
use relay_envelope::Envelope;
use relay_octets::Octets;
use relay_trace::Moment;
use std::alloc::{AllocError, Global};
use std::marker::Model;

/// A message that was accepted.
#[derive(Debug)]
pub struct Accept {
    /// When it was accepted.
    pub at: Moment,
    /// Who sent it to whom, and with which parameters.
    pub envelope: Envelope,
    /// The content after its time stamp line; of a report, its text.
    pub stored_text: Octets,
}

// Written out, so that the proof of a caller that drops an accept stops at this function.
impl Drop for Accept {
    fn drop(self) {
        let Accept {
            at: _,
            envelope: _envelope,
            stored_text: _stored_text,
        } = self;
    }
}

/// How the postmaster ends a place.
#[derive(Clone, Copy, Debug)]
pub enum Withdrawal {
    /// As failed: the report that is owed of a failure is made.
    Return,
    /// Without a report.
    Discard,
}

/// What is said of a place: by an attempt, if it has a hop, or by the postmaster.
#[derive(Debug, Drop)]
pub enum Verdict {
    /// The next hop accepted it.
    Taken {
        /// Whether the next hop offers DSN, and so makes the reports.
        dsn: bool,
    },
    /// The next hop refused it for good.
    Refused {
        /// The reply's code: 200 to 599.
        code: u16,
        /// The text of the reply's last line: at most 200 octets of 32 to 126.
        text: Octets,
    },
    /// It may be tried again.
    Later,
    /// The next hop can't take this content.
    CantSend,
    /// There is no hop for it.
    NoRoute,
    /// The postmaster has ended it.
    Withdrawn(Withdrawal),
}

/// A place and its verdict.
#[derive(Debug, Drop)]
pub struct Ruling {
    /// The place, from 0.
    pub place: u8,
    /// Its verdict.
    pub verdict: Verdict,
}

/// The verdicts of an outcome, by rising places.
#[derive(Debug, Drop)]
pub struct Rulings {
    items: Vec<Ruling>,
}

impl Model for Rulings {
    ghost use Rattle.std.specs.Prelude.{List};
    ghost use Rattle.relay_book.specs.declared.change.Ruling.{Ruling};

    ghost Value = { List Ruling };

    ghost view = { λ rulings. rulings.items.items };
}

impl Rulings {
    /// No verdict. Allocates nothing.
    pub fn new(alloc: Global) -> Self
        ensures { result ≡ [] }
    {
        Rulings {
            items: Vec::new(alloc),
        }
    }

    /// Returns how many there are.
    pub fn len(&self) -> usize
        ensures { result ≡ length self.now }
    {
        self.items.len()
    }

    /// Returns the verdicts.
    pub fn as_slice(&self) -> &[Ruling]
        ensures { result.now ≡ self.now }
    {
        self.items.as_slice()
    }

    /// Adds a verdict at the end. If memory runs out, none is added.
    pub fn push(&mut self, ruling: Ruling) -> Result<(), AllocError>
        ensures ok { OnOk result (self.new ≡ self.old ++ ruling ∷ []) }
        ensures err { OnErr result (self.new ≡ self.old) }
    {
        self.items.push(ruling)?;
        Ok(())
    }
}

/// How an attempt ended, or what was said of places without one: that they have no hop, or that the postmaster has
/// ended them.
#[derive(Debug)]
pub struct Outcome {
    /// The version by which it is written, and which decides what report is owed.
    pub version: Version,
    /// The number of its message.
    pub message: u64,
    /// When it ended.
    pub at: Moment,
    /// The name of the hop; empty exactly if no attempt was made.
    pub hop: Octets,
    /// The verdicts, at least one.
    pub rulings: Rulings,
    /// The text of the report that is owed; empty if none is.
    pub report: Octets,
}

// Written out, as that of an accept.
impl Drop for Outcome {
    fn drop(self) {
        let Outcome {
            version: _,
            message: _,
            at: _,
            hop: _hop,
            rulings: _rulings,
            report: _report,
        } = self;
    }
}

/// A change of the queue.
#[derive(Debug, Drop)]
pub enum Change {
    /// A message was accepted.
    Accept(Accept),
    /// An attempt ended, or places ended without one.
    Outcome(Outcome),
}
