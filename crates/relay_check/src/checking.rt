ghost use Rattle.std.specs.Prelude.{◌≡◌, ◌⊎◌, ◌↔◌, false, IfOk, IsTrue, OnOk};
ghost use Rattle.toml.specs.Errors.{IsMemory};
ghost use Rattle.relay_check.specs.Check.{HasError, IsChecked, IsWarned, SaysConfiguration};

use crate::document::routes_of;
use crate::findings::Findings;
use crate::known_keys::check_keys;
use crate::networks::{BALANCERS, CLIENTS, TRUSTED_CLIENTS, check_networks};
use crate::position::Place;
use crate::risks::check_risks;
use crate::routes::check_routes;
use crate::shown::printable;
use crate::values::check_values;
use relay_files::{Fault, configuration_text, write_out};
use relay_routes::{Config, ConfigFault};
use std::alloc::{AllocError, Global};
use std::fs::File;
use std::io::Write;
use std::rt::Files;

/// Checks the configuration in a file, and writes each finding as a line to `writer`, in the order of their places:
/// `FILE:LINE:COLUMN: error|warning: ..`. Returns whether a relay can run with the file, which means that no finding is
/// an error. Fails if the file can't be read, a line can't be written, or memory runs out.
pub fn check<F: Files<File = File>, W: Write>(
    alloc: Global,
    files: &F,
    file: &str,
    writer: &mut W,
) -> Result<bool, Fault>
    ensures { IfOk result (λ passes. IsChecked file.now passes (W.contents writer.old) (W.contents writer.new)) }
{
    let text = configuration_text(alloc, files, file)?;
    let mut findings = Findings::new(alloc, text.as_str());
    check_text(alloc, files, text.as_str(), &mut findings)?;
    findings.sort()?;
    let lines = findings.lines(alloc, file)?;
    write_out(writer, lines.as_slice())?;
    Ok(!findings.has_error())
}

/// Writes the findings of [`check`] as warnings before a relay runs with the configuration in a file; nothing if no
/// relay can run with it. Fails as [`check`] does.
pub fn warn<F: Files<File = File>, W: Write>(
    alloc: Global,
    files: &F,
    file: &str,
    writer: &mut W,
) -> Result<(), Fault>
    ensures { OnOk result ((W.contents writer.new ≡ W.contents writer.old)
        ⊎ IsWarned file.now (W.contents writer.old) (W.contents writer.new)) }
{
    let text = configuration_text(alloc, files, file)?;
    let mut findings = Findings::new(alloc, text.as_str());
    let is_configuration = check_text(alloc, files, text.as_str(), &mut findings)?;
    findings.soften();
    if !is_configuration || findings.has_error() {
        return Ok(());
    }
    findings.sort()?;
    let lines = findings.lines(alloc, file)?;
    write_out(writer, lines.as_slice())?;
    Ok(())
}

/// Finds all errors of a text, and its risks if a relay can run with it. Returns whether the text is a configuration;
/// if it isn't, one of the findings is an error.
fn check_text<F: Files<File = File>>(
    alloc: Global,
    files: &F,
    text: &str,
    findings: &mut Findings<'_>,
) -> Result<bool, Fault>
    ensures answers { IfOk result (λ is_configuration. IsTrue is_configuration ↔ SaysConfiguration text.now) }
    ensures found { IfOk result (λ is_configuration. is_configuration ≡ false → HasError findings.new.found.items) }
{
    let document = match toml::table_from_str(alloc, text) {
        Ok(document) => document,
        Err(error) => {
            check_syntax(alloc, &error, findings)?;
            return Ok(false);
        }
    };
    check_keys(alloc, &document, findings)?;
    check_values(alloc, text, findings)?;
    if let Some(routes) = routes_of(&document) {
        check_routes(alloc, routes, findings)?;
    }
    check_networks(alloc, &document, TRUSTED_CLIENTS, findings)?;
    check_networks(alloc, &document, BALANCERS, findings)?;
    check_networks(alloc, &document, CLIENTS, findings)?;
    match Config::read(alloc, text) {
        Ok(config) => {
            check_risks(alloc, files, &config, &document, findings)?;
            Ok(true)
        }
        Err(fault) if fault == ConfigFault::NoMemory => Err(Fault::NoMemory),
        Err(fault) => {
            refuse(alloc, fault, findings)?;
            Ok(false)
        }
    }
}

/// Adds the reader's fault as an error, if no check before has found one.
fn refuse(alloc: Global, fault: ConfigFault, findings: &mut Findings<'_>) -> Result<(), AllocError>
    ensures { OnOk result (HasError findings.new.found.items) }
{
    if findings.has_error() {
        return Ok(());
    }
    let message = format!(in alloc; "{fault}")?;
    findings.error(Place::Whole, message)
}

/// Finds where a text stops being TOML. Fails if the TOML reader ran out of memory.
fn check_syntax(
    alloc: Global,
    error: &toml::de::Error,
    findings: &mut Findings<'_>,
) -> Result<(), AllocError>
    ensures syntax { IfOk result (λ _. ¬ IsMemory error.now) }
    ensures found { OnOk result (HasError findings.new.found.items) }
{
    let Some(span) = error.span() else {
        return Err(AllocError);
    };
    let message = syntax_message(alloc, error.message(), findings.line_from(span.start))?;
    findings.error(Place::Octet(span.start), message)
}

/// Returns the message for a text that isn't TOML, given what the reader says and the line from that place on, which
/// shows a key that stands twice.
fn syntax_message(alloc: Global, reason: &str, line: &str) -> Result<String, AllocError> {
    if reason != "duplicate key" {
        return format!(in alloc; "not TOML: {reason}");
    }
    let shown = printable(alloc, line)?;
    format!(in alloc; "not TOML: {reason}, {shown}: remove one of its lines")
}
