//! Which report a place is owed.
ghost use Rattle.std.specs.Prelude.{◌≡◌, slice_get};
ghost use Rattle.std.specs.Option.{option_copied};
ghost use Rattle.relay_book.specs.declared.version.Version.TheVariants.{WithDelay};
ghost use Rattle.relay_book.specs.Queue.{reports_at};
ghost use Rattle.relay_report.specs.Multipart.{due_at, fails_at};
ghost use Rattle.relay_report.specs.Report.{is_due};

use relay_book::{DueReport, Message, Ruling, Verdict, Version};
use relay_envelope::Recipient;
use relay_trace::Moment;

/// Returns which report is due of a place of a message by a verdict at a time (RFC 3461, section 5.2), by an outcome as
/// a node writes it: none of a place that the message doesn't have. Allocates nothing.
pub fn due_report(message: &Message, place: u8, verdict: &Verdict, now: Moment) -> Option<DueReport>
    ensures { result ≡ due_at message.now now (record { place = place; verdict = verdict.now }) }
{
    message.due_report_at(Version::WithDelay, now, place, verdict)
}

/// Returns the same of a ruling.
pub(crate) fn due_at(message: &Message, ruling: &Ruling, now: Moment) -> Option<DueReport>
    ensures { result ≡ due_at message.now now ruling.now }
{
    due_report(message, ruling.place, &ruling.verdict, now)
}

/// Returns whether a report is due of a message by verdicts at a time: of one of their places. Allocates nothing.
pub fn is_due(message: &Message, rulings: &[Ruling], now: Moment) -> bool
    ensures { result ≡ is_due message.now now rulings.now }
{
    rulings
        .iter()
        .any(|ruling| reports_at(message, ruling, now))
}

/// Returns whether a failure is reported of the place of a verdict.
pub(crate) fn fails_at(message: &Message, ruling: &Ruling, now: Moment) -> bool
    ensures { result ≡ fails_at message.now now ruling.now }
{
    match due_at(message, ruling, now) {
        Some(DueReport::OfFailure) => true,
        Some(DueReport::OfRelay) => false,
        Some(DueReport::OfDelay) => false,
        None => false,
    }
}

/// Returns whether a report is due of the place of a verdict.
fn reports_at(message: &Message, ruling: &Ruling, now: Moment) -> bool
    ensures { result ≡ reports_at WithDelay message.now now ruling.now }
{
    due_at(message, ruling, now).is_some()
}

/// Returns the recipient of a place.
pub(crate) fn recipient_at(message: &Message, place: u8) -> Option<&Recipient>
    ensures { option_copied result ≡ slice_get message.now.accept.envelope.recipients place }
{
    message
        .accept
        .envelope
        .recipients
        .as_slice()
        .get(usize::from(place))
}
