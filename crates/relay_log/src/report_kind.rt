//! What a report tells of, for its line in the log.
ghost use Rattle.std.specs.Prelude.{◌≡◌, ◌↔◌, IsTrue};
ghost use Rattle.relay_report.specs.Boundary.{StandsIn};
ghost use Rattle.relay_report.specs.StatusFields.{action_of};
ghost use Rattle.relay_book.specs.declared.due_report.DueReport.TheVariants.{OfDelay, OfFailure, OfRelay};
ghost use Rattle.relay_log.specs.ReportKind.{HasKind, IsWorst, Reports};

use memchr::memmem;
use relay_book::DueReport;
use relay_report::split_report;

/// Returns what a report tells of: a recipient that failed; if there is none, one that is delayed; else one that was
/// relayed. Reads the `Action:` fields of its delivery status (RFC 3464, section 2.3.3). Returns `None` for a text that
/// has none of these, or isn't a report. Allocates nothing.
pub(crate) fn report_kind(report: &[u8]) -> Option<DueReport>
    ensures { HasKind report.now result }
{
    match split_report(report) {
        None => None,
        Some(parts) => worst_of(parts.second),
    }
}

/// Returns the word of the log for the kind of a report: that of its `Action:` field.
pub(crate) fn kind_word(kind: DueReport) -> &'static [u8]
    ensures { result.now ≡ action_of kind }
{
    match kind {
        DueReport::OfFailure => b"failed",
        DueReport::OfDelay => b"delayed",
        DueReport::OfRelay => b"relayed",
    }
}

/// Returns the worst that a delivery status says of a recipient.
fn worst_of(status: &[u8]) -> Option<DueReport>
    ensures { IsWorst status.now result }
{
    if reports_failure(status) {
        Some(DueReport::OfFailure)
    } else if reports_delay(status) {
        Some(DueReport::OfDelay)
    } else if reports_relay(status) {
        Some(DueReport::OfRelay)
    } else {
        None
    }
}

fn reports_failure(status: &[u8]) -> bool
    ensures { IsTrue result ↔ Reports OfFailure status.now }
{
    has_text(status, b"\r\nAction: failed\r\n")
}

fn reports_delay(status: &[u8]) -> bool
    ensures { IsTrue result ↔ Reports OfDelay status.now }
{
    has_text(status, b"\r\nAction: delayed\r\n")
}

fn reports_relay(status: &[u8]) -> bool
    ensures { IsTrue result ↔ Reports OfRelay status.now }
{
    has_text(status, b"\r\nAction: relayed\r\n")
}

/// Returns whether a text is somewhere in some octets.
fn has_text(octets: &[u8], text: &[u8]) -> bool
    ensures { IsTrue result ↔ StandsIn text.now octets.now }
{
    match memmem::find(octets, text) {
        Some(_) => true,
        None => false,
    }
}
