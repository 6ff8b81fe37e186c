//! What `return` and `discard` print.
ghost use Rattle.std.specs.Prelude.{◌≡◌, ◌∷◌, ◌++◌, ◌+◌, ◌-◌, ◌^◌, ◌↔◌, [], false, OnOk, decimal, min};
ghost use Rattle.std.specs.Io.KnownBytes.{Appends};
ghost use Rattle.relay_steering.specs.Report.{TellsMore, done_word, refused_line, report_text, withdrawn_of};

use crate::offline::Outcome;
use relay_arguments::Removal;
use relay_queue::Selected;
use std::alloc::{AllocError, Global};
use std::io::{self, Write};

/// The number of withdrawn recipients, and the messages that were refused.
#[derive(Drop)]
pub(crate) struct Report {
    removal: Removal,
    recipients: u64,
    /// A line for each message that was refused, each with its LF: `15 busy`.
    refused: Vec<u8>,
}

impl Report {
    /// Returns the report of nothing. Allocates nothing.
    pub(crate) fn new(alloc: Global, removal: Removal) -> Self
        ensures { (result.removal ≡ removal) × (result.recipients ≡ 0) × (result.refused.items ≡ []) }
    {
        Report {
            removal,
            recipients: 0,
            refused: Vec::new(alloc),
        }
    }

    /// Returns whether a message was refused.
    pub(crate) fn has_refused(&self) -> bool
        ensures { (result ≡ false) ↔ (self.now.refused.items ≡ []) }
    {
        !self.refused.is_empty()
    }

    /// Counts recipients that were withdrawn.
    fn count(&mut self, recipients: u64)
        ensures count { self.new.recipients ≡ min (self.old.recipients + recipients) (2 ^ 64 - 1) }
        ensures rest { (self.new.removal ≡ self.old.removal) × (self.new.refused ≡ self.old.refused) }
    {
        self.recipients = self.recipients.saturating_add(recipients);
    }

    /// Adds the line of a message that was refused. Fails if memory runs out.
    fn refuse(&mut self, line: &[u8]) -> Result<(), AllocError>
        ensures line { OnOk result (self.new.refused.items ≡ self.old.refused.items ++ line.now ++ 10 ∷ []) }
        ensures rest { (self.new.removal ≡ self.old.removal) × (self.new.recipients ≡ self.old.recipients) }
    {
        self.refused.extend_from_slice(line)?;
        self.refused.push(b'\n')?;
        Ok(())
    }

    /// Adds the outcomes of withdrawing places of messages, one after the other. Fails if memory runs out.
    pub(crate) fn add_outcomes(
        &mut self,
        alloc: Global,
        messages: &[Selected],
        outcomes: &[Outcome],
    ) -> Result<(), AllocError>
        ensures { OnOk result (TellsMore messages.now outcomes.now self.old self.new) }
    {
        let mut recipients = 0_u64;
        for (selected, outcome) in messages.iter().zip(outcomes) {
            self.add_refused(alloc, selected, *outcome)?;
            recipients = recipients.saturating_add(withdrawn_of(selected, *outcome));
        }
        self.count(recipients);
        Ok(())
    }

    /// Adds the line of a message, if it was refused. Fails if memory runs out.
    fn add_refused(
        &mut self,
        alloc: Global,
        selected: &Selected,
        outcome: Outcome,
    ) -> Result<(), AllocError>
        ensures refused { OnOk result (self.new.refused.items
            ≡ self.old.refused.items ++ refused_line selected.now outcome) }
        ensures rest { (self.new.removal ≡ self.old.removal) × (self.new.recipients ≡ self.old.recipients) }
    {
        match outcome {
            Outcome::Withdrawn => Ok(()),
            Outcome::Unknown => self.refuse_for(alloc, selected.message, " unknown"),
            Outcome::Busy => self.refuse_for(alloc, selected.message, " busy"),
            Outcome::Full => self.refuse_for(alloc, selected.message, " full"),
        }
    }

    /// Adds the line of a message that was refused for this reason. Fails if memory runs out.
    fn refuse_for(&mut self, alloc: Global, message: u64, reason: &str) -> Result<(), AllocError>
        ensures line { OnOk result (self.new.refused.items
            ≡ self.old.refused.items ++ (decimal message ++ reason.now) ++ 10 ∷ []) }
        ensures rest { (self.new.removal ≡ self.old.removal) × (self.new.recipients ≡ self.old.recipients) }
    {
        let line = format!(in alloc; "{message}{reason}")?;
        self.refuse(line.as_str().as_bytes())
    }

    /// Adds the lines of a relay's answer, each of which begins with a space. Fails if memory runs out.
    pub(crate) fn add_answer(&mut self, lines: &[u8]) -> Result<(), AllocError> {
        for line in lines.split(|octet| *octet == b'\n') {
            if let Some(text) = line.strip_prefix(b" ") {
                match count_in(text) {
                    Some(recipients) => self.count(recipients),
                    None => self.refuse(text)?,
                }
            }
        }
        Ok(())
    }

    /// Prints the messages that were refused, and the number of withdrawn recipients.
    pub(crate) fn print<W: Write>(&self, writer: &mut W) -> io::Result<()>
        ensures { OnOk result (Appends (W.contents writer.old) (W.contents writer.new) (report_text self.now)) }
    {
        let word = done_word(self.removal);
        writer.write_all(self.refused.as_slice())?;
        writeln!(writer, "{word} recipients={}", self.recipients)?;
        writer.flush()
    }
}

/// Returns what was done to the recipients, in a word.
fn done_word(removal: Removal) -> &'static str
    ensures { result.now ≡ done_word removal }
{
    match removal {
        Removal::Return => "returned",
        Removal::Discard => "discarded",
    }
}

/// Returns how many recipients of a message were withdrawn.
fn withdrawn_of(selected: &Selected, outcome: Outcome) -> u64
    ensures { result ≡ withdrawn_of selected.now outcome }
{
    match outcome {
        Outcome::Withdrawn => selected.places.len() as u64,
        Outcome::Unknown | Outcome::Busy | Outcome::Full => 0,
    }
}

/// Returns the number in a line like `returned recipients=3`; `None` if the line is another.
fn count_in(line: &[u8]) -> Option<u64> {
    let digits = match line.strip_prefix(b"returned recipients=") {
        Some(digits) => digits,
        None => line.strip_prefix(b"discarded recipients=")?,
    };
    std::str::from_utf8(digits).ok()?.parse::<u64>().ok()
}
