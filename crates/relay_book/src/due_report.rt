ghost use Rattle.std.specs.Prelude.{◌≡◌};
ghost use Rattle.relay_book.specs.DueReport.{due_for, due_report_of, report_of_delay, report_of_fate};
ghost use Rattle.relay_book.specs.DueReport.{report_of_withdrawal, reports_delay, wants_delay, wants_failure};
ghost use Rattle.relay_book.specs.DueReport.{wants_success};

use crate::change::{Accept, Verdict, Withdrawal};
use crate::fate::{Fate, fate_of};
use crate::message::Place;
use crate::version::Version;
use relay_envelope::Notify;
use relay_trace::Moment;

/// The kind of a report on a place.
#[derive(Clone, Copy)]
pub enum DueReport {
    /// Delivery failed.
    OfFailure,
    /// It was relayed to a next hop that makes no reports itself.
    OfRelay,
    /// It is delayed, and is tried again.
    OfDelay,
}

/// Returns which report is due by a verdict at a time of this place of a message, which has this index: none of a place
/// without a recipient.
pub(crate) fn due_for(
    version: Version,
    accept: &Accept,
    at: Moment,
    place: Place,
    index: u8,
    verdict: &Verdict,
) -> Option<DueReport>
    ensures { result ≡ due_for version accept.now at place (record { place = index; verdict = verdict.now }) }
{
    let envelope = &accept.envelope;
    match envelope.recipients.as_slice().get(usize::from(index)) {
        Some(recipient) => {
            let fate = fate_of(accept.at, at, verdict);
            due_report_of(
                version,
                envelope.reverse_path.as_slice(),
                recipient.notify,
                place,
                fate,
            )
        }
        None => None,
    }
}

/// Returns which report is due of a place (RFC 3461, section 5.2): none to the null reverse path, and else by the
/// version of the outcome, by what became of the place and was known of it, and by its NOTIFY.
fn due_report_of(
    version: Version,
    reverse_path: &[u8],
    notify: Option<Notify>,
    place: Place,
    fate: Fate,
) -> Option<DueReport>
    ensures { result ≡ due_report_of version reverse_path.now notify place fate }
{
    if matches!(reverse_path, b"<>") {
        None
    } else {
        report_of_fate(version, notify, place, fate)
    }
}

fn report_of_fate(
    version: Version,
    notify: Option<Notify>,
    place: Place,
    fate: Fate,
) -> Option<DueReport>
    ensures { result ≡ report_of_fate version notify place fate }
{
    match fate {
        Fate::Waits => None,
        Fate::Late => report_of_delay(version, notify, place),
        Fate::Failed => wants_failure(notify).then_some(DueReport::OfFailure),
        Fate::Relayed(true) => None,
        Fate::Relayed(false) => wants_success(notify).then_some(DueReport::OfRelay),
        Fate::Removed(withdrawal) => report_of_withdrawal(withdrawal, notify),
    }
}

/// Returns the report of a place that the postmaster has ended: as of a failure where it returns the place, and none if
/// it discards it.
fn report_of_withdrawal(withdrawal: Withdrawal, notify: Option<Notify>) -> Option<DueReport>
    ensures { result ≡ report_of_withdrawal withdrawal notify }
{
    match withdrawal {
        Withdrawal::Return => wants_failure(notify).then_some(DueReport::OfFailure),
        Withdrawal::Discard => None,
    }
}

/// Returns the report of a delay, once: of a place that wasn't reported as delayed before.
fn report_of_delay(version: Version, notify: Option<Notify>, place: Place) -> Option<DueReport>
    ensures { result ≡ report_of_delay version notify place }
{
    let is_due = reports_delay(version) && wants_delay(notify) && !place.delayed;
    is_due.then_some(DueReport::OfDelay)
}

/// Returns whether outcomes of this version report a delay.
fn reports_delay(version: Version) -> bool
    ensures { result ≡ reports_delay version }
{
    match version {
        Version::WithoutDelay => false,
        Version::WithDelay => true,
        Version::WithWithdrawal => true,
    }
}

/// Returns whether a failure is reported where NOTIFY wasn't given, or names it.
fn wants_failure(notify: Option<Notify>) -> bool
    ensures { result ≡ wants_failure notify }
{
    match notify {
        None => true,
        Some(Notify::Never) => false,
        Some(Notify::On(outcomes)) => outcomes.failure,
    }
}

/// Returns whether a success is reported where NOTIFY names it.
fn wants_success(notify: Option<Notify>) -> bool
    ensures { result ≡ wants_success notify }
{
    match notify {
        None => false,
        Some(Notify::Never) => false,
        Some(Notify::On(outcomes)) => outcomes.success,
    }
}

/// Returns whether a delay is reported where NOTIFY names it.
fn wants_delay(notify: Option<Notify>) -> bool
    ensures { result ≡ wants_delay notify }
{
    match notify {
        None => false,
        Some(Notify::Never) => false,
        Some(Notify::On(outcomes)) => outcomes.delay,
    }
}
