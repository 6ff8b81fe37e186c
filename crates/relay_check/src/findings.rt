//! Findings in a text: errors and warnings, with their places.
ghost use Rattle.std.specs.Prelude.{◌≡◌, ◌++◌, true, IfOk, OnOk};
ghost use Rattle.std.specs.List.{flat_map, list_any};
ghost use Rattle.std.specs.List.Sorted.{IsPermutation};
ghost use Rattle.relay_check.specs.Check.{HasError, finding_line, is_error, is_severe, severity_text};

use crate::position::{Place, Position, position_of};
use std::alloc::{AllocError, Global};
use std::fmt;

/// The severity of a finding.
#[derive(Clone, Copy, Drop, PartialEq, Eq)]
enum Severity {
    /// No relay can run with this text.
    Error,
    /// A relay can run with this text, but ignores a part of it.
    Ignored,
    /// A relay can run with this text, but may do what isn't meant.
    Warning,
}

impl Severity {
    /// Returns whether a text with such a finding fails the check.
    fn is_severe(self) -> bool
        ensures { result ≡ is_severe self }
    {
        match self {
            Severity::Error | Severity::Ignored => true,
            Severity::Warning => false,
        }
    }
}

impl fmt::Display for Severity {
    ghost use Rattle.std.specs.Prelude.{Some};
    ghost use Rattle.relay_check.specs.Check.{severity_text};

    ghost output = { λ severity. Some (severity_text severity) };

    fn fmt<W: fmt::Write>(&self, f: &mut fmt::Formatter<W>) -> fmt::Result {
        f.write_str(match self {
            Severity::Error | Severity::Ignored => "error",
            Severity::Warning => "warning",
        })
    }
}

/// One finding.
#[derive(Drop)]
struct Finding {
    position: Position,
    severity: Severity,
    message: String,
}

impl Finding {
    /// Adds the line of the finding.
    fn push_line(&self, alloc: Global, file: &str, lines: &mut Vec<u8>) -> Result<(), AllocError>
        ensures { OnOk result (lines.new.items ≡ lines.old.items ++ finding_line file.now self.now) }
    {
        let Position { line, column } = self.position;
        let severity = self.severity;
        let message = self.message.as_str();
        let text = format!(in alloc; "{file}:{line}:{column}: {severity}: {message}\n")?;
        lines.extend_from_slice(text.as_bytes())
    }
}

/// The findings in a text so far.
#[derive(Drop)]
pub(crate) struct Findings<'t> {
    text: &'t str,
    found: Vec<Finding>,
}

impl<'t> Findings<'t> {
    /// Creates a list without findings for a text. Allocates nothing.
    pub fn new(alloc: Global, text: &'t str) -> Self {
        Findings {
            text,
            found: Vec::new(alloc),
        }
    }

    /// Returns the text from this octet up to the end of its line.
    pub fn line_from(&self, index: usize) -> &'t str {
        let rest = self.text.get(index..).unwrap_or("");
        rest.lines().next().unwrap_or("")
    }

    /// Adds an error. Fails if memory runs out.
    pub fn error(&mut self, place: Place<'_>, message: String) -> Result<(), AllocError>
        ensures { OnOk result (HasError self.new.found.items) }
    {
        self.add(Severity::Error, place, message)
    }

    /// Adds something that a relay ignores, which counts as an error until [`Findings::soften`]. Fails if memory runs
    /// out.
    pub fn ignored(&mut self, place: Place<'_>, message: String) -> Result<(), AllocError> {
        self.add(Severity::Ignored, place, message)
    }

    /// Adds a warning. Fails if memory runs out.
    pub fn warning(&mut self, place: Place<'_>, message: String) -> Result<(), AllocError> {
        self.add(Severity::Warning, place, message)
    }

    #[tactic(auto, using(crate::proofs::FindingLemmas::error_added))]
    fn add(
        &mut self,
        severity: Severity,
        place: Place<'_>,
        message: String,
    ) -> Result<(), AllocError>
        ensures { OnOk result (is_severe severity ≡ true → HasError self.new.found.items) }
    {
        let finding = Finding {
            position: position_of(self.text, place),
            severity,
            message,
        };
        self.found.push(finding)?;
        Ok(())
    }

    /// Returns whether a finding is an error.
    pub fn has_error(&self) -> bool
        ensures { result ≡ list_any is_error self.now.found.items }
    {
        self.found
            .iter()
            .any(|finding| finding.severity.is_severe())
    }

    /// Turns findings of ignored parts into warnings.
    pub fn soften(&mut self) {
        for finding in self.found.iter_mut() {
            if finding.severity == Severity::Ignored {
                finding.severity = Severity::Warning;
            }
        }
    }

    /// Sorts the findings by their places.
    pub fn sort(&mut self) -> Result<(), AllocError>
        ensures { IsPermutation self.old.found.items self.new.found.items }
    {
        self.found.sort_by_key(|finding| finding.position)
    }

    /// Returns a line for each finding, with the name of the file that holds the text.
    pub fn lines(&self, alloc: Global, file: &str) -> Result<Vec<u8>, AllocError>
        ensures { IfOk result (λ lines. lines.items ≡ flat_map (finding_line file.now) self.now.found.items) }
    {
        let mut lines = Vec::new(alloc);
        for finding in &self.found {
            finding.push_line(alloc, file, &mut lines)?;
        }
        Ok(lines)
    }
}
