//! The exit statuses, and the lines of faults.
ghost use Rattle.std.specs.Prelude.{◌≡◌, ◌⊎◌, false, true, MatchResult};

use relay_files::Fault;
use std::fmt::Display;
use std::io::Write;

/// The exit status of a run without a fault.
pub(crate) const DONE: u8 = 0;

/// The exit status of a run with a fault.
const FAULT: u8 = 1;

/// The exit status for wrong arguments.
pub(crate) const WRONG_ARGUMENTS: u8 = 2;

/// Returns the exit status of a subcommand; a fault gets a line on `errors`.
pub(crate) fn ended<F: Display + Drop, E: Write>(end: Result<(), F>, errors: &mut E) -> u8
    ensures by_end { MatchResult end (λ _. result ≡ 0) (λ _. result ≡ 1) }
    ensures status { (result ≡ 0) ⊎ (result ≡ 1) }
{
    match end {
        Ok(()) => DONE,
        Err(fault) => fail(errors, fault),
    }
}

/// Returns the exit status of a subcommand that locks the spool; a fault gets its line and the advice on it on
/// `errors`.
pub(crate) fn ended_alone<E: Write>(end: Result<(), Fault>, errors: &mut E) -> u8
    ensures by_end { MatchResult end (λ _. result ≡ 0) (λ _. result ≡ 1) }
    ensures status { (result ≡ 0) ⊎ (result ≡ 1) }
{
    match end {
        Ok(()) => DONE,
        Err(fault) => fail_with_advice(errors, fault),
    }
}

/// Returns the exit status of a subcommand that answers yes (0) or no (1); a fault gets a line on `errors`.
pub(crate) fn answered<E: Write>(answer: Result<bool, Fault>, errors: &mut E) -> u8
    ensures by_answer { MatchResult answer
        (λ yes. (yes ≡ true → result ≡ 0) × (yes ≡ false → result ≡ 1)) (λ _. result ≡ 1) }
    ensures status { (result ≡ 0) ⊎ (result ≡ 1) }
{
    match answer {
        Ok(true) => DONE,
        Ok(false) => FAULT,
        Err(why) => fail(errors, why),
    }
}

/// Writes the line of a fault, and the advice on it in a line of its own, if there is any. Returns the exit status.
pub(crate) fn fail_with_advice<E: Write>(errors: &mut E, fault: Fault) -> u8
    ensures { result ≡ 1 }
{
    let status = fail(errors, fault);
    if let Some(advice) = fault.advice() {
        // If this can't be written, nothing is left to do: the line of the fault was.
        let _ = writeln!(errors, "relayd: {advice}");
    }
    status
}

/// Writes the line of a fault, and returns the exit status.
pub(crate) fn fail<E: Write, F: Display + Drop>(errors: &mut E, fault: F) -> u8
    ensures { result ≡ 1 }
{
    // If this line can't be written, nothing is left to do: the exit status reports the fault.
    let _ = writeln!(errors, "relayd: {fault}");
    FAULT
}
