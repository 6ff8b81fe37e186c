//! Whether a change may be stored, and whether it fits a message.
ghost use Rattle.std.specs.Prelude.{◌≡◌, ◌↔◌, ◌<◌, ◌^◌, [], false, IsTrue};
ghost use Rattle.std.specs.List.{AllByRecursion, list_any};
ghost use Rattle.relay_book.specs.Record.{AreOfVersion, IsAccept, IsOutcome, IsRefusal, IsRuling, IsVerdict};
ghost use Rattle.relay_book.specs.Record.{is_of_version, is_withdrawn};
ghost use Rattle.relay_book.specs.Fields.{AreSome};
ghost use Rattle.relay_book.specs.Queue.{AllWithoutHop, AreRulings, FitsMessage, holds_at, is_without_hop};
ghost use Rattle.relay_book.specs.Queue.{reports_at};

use crate::change::{Accept, Outcome, Ruling, Verdict};
use crate::limits::{
    REFUSAL_LIMIT, REPORT_LIMIT, is_printable, is_reply_code, may_be_hop, text_limit,
};
use crate::message::{Message, Place};
use crate::version::Version;
use relay_envelope::is_envelope;
use relay_trace::{LAST_SECOND, Moment};

/// The most verdicts of an outcome.
const RULING_LIMIT: usize = 100;

/// Returns whether an accept may be stored.
pub(crate) fn is_accept(accept: &Accept) -> bool
    ensures { IsTrue result ↔ IsAccept accept.now }
{
    accept.at.seconds() <= LAST_SECOND
        && is_envelope(&accept.envelope)
        && accept.stored_text.len() <= text_limit(accept.envelope.reverse_path.as_slice())
}

/// Returns whether an outcome may be stored, by its fields alone.
pub(crate) fn is_outcome(outcome: &Outcome) -> bool
    ensures { IsTrue result ↔ IsOutcome outcome.now }
{
    is_outcome_for(outcome.message, outcome)
}

#[tactic(auto, using(crate::proofs::OutcomeLemmas::are_rulings, crate::proofs::OutcomeLemmas::may_be_stored))]
fn is_outcome_for(_message: u64, outcome: &Outcome) -> bool
    requires { _message ≡ outcome.now.message }
    ensures { IsTrue result ↔ IsOutcome outcome.now }
{
    if outcome.at.seconds() > LAST_SECOND || !may_be_hop(outcome.hop.as_slice()) {
        return false;
    }
    if !are_some(outcome.rulings.as_slice()) {
        return false;
    }
    if !are_of_version(outcome.version, outcome.rulings.as_slice()) {
        return false;
    }
    outcome.report.len() <= REPORT_LIMIT
}

/// Returns whether there are 1 to 100 verdicts that may be stored.
fn are_some(rulings: &[Ruling]) -> bool
    ensures { IsTrue result ↔ AreSome IsRuling rulings.now }
{
    1 <= rulings.len() && rulings.len() <= RULING_LIMIT && are_valid(rulings)
}

fn are_valid(rulings: &[Ruling]) -> bool
    ensures { IsTrue result ↔ AllByRecursion IsRuling rulings.now }
{
    match rulings {
        [] => true,
        [first, rest @ ..] => is_ruling(first) && are_valid(rest),
    }
}

fn is_ruling(ruling: &Ruling) -> bool
    ensures { IsTrue result ↔ IsRuling ruling.now }
{
    is_verdict_of(ruling.place, &ruling.verdict)
}

fn is_verdict_of(_place: u8, verdict: &Verdict) -> bool
    ensures { IsTrue result ↔ ((_place < 2 ^ 8) × IsVerdict verdict.now) }
{
    is_verdict(verdict)
}

fn is_verdict(verdict: &Verdict) -> bool
    ensures { IsTrue result ↔ IsVerdict verdict.now }
{
    match verdict {
        Verdict::Taken { .. } => true,
        Verdict::Refused { code, text } => is_refusal(*code, text.as_slice()),
        Verdict::Later => true,
        Verdict::CantSend => true,
        Verdict::NoRoute => true,
        Verdict::Withdrawn(_) => true,
    }
}

fn is_refusal(code: u16, text: &[u8]) -> bool
    ensures { IsTrue result ↔ IsRefusal code text.now }
{
    is_reply_code(code) && text.len() <= REFUSAL_LIMIT && is_printable(text)
}

/// Returns whether the verdicts are those of a version: the postmaster's in the third, and in no other.
pub(crate) fn are_of_version(version: Version, rulings: &[Ruling]) -> bool
    ensures { IsTrue result ↔ AreOfVersion version rulings.now }
{
    match rulings {
        [] => true,
        [first, rest @ ..] => {
            is_of_version(version, &first.verdict) && are_of_version(version, rest)
        }
    }
}

fn is_of_version(version: Version, verdict: &Verdict) -> bool
    ensures { result ≡ is_of_version version verdict.now }
{
    match version {
        Version::WithoutDelay => !is_withdrawn(verdict),
        Version::WithDelay => !is_withdrawn(verdict),
        Version::WithWithdrawal => is_withdrawn(verdict),
    }
}

fn is_withdrawn(verdict: &Verdict) -> bool
    ensures { result ≡ is_withdrawn verdict.now }
{
    matches!(verdict, Verdict::Withdrawn(_))
}

/// Returns whether an outcome fits its message: it rules on held places, which rise, names a hop exactly if an attempt
/// was made, and has a report exactly if one is due.
pub(crate) fn fits_message(message: &Message, outcome: &Outcome) -> bool
    ensures { IsTrue result ↔ FitsMessage message.now outcome.now }
{
    are_held(message.places.as_slice(), 0, outcome.rulings.as_slice())
        && hop_fits(outcome)
        && report_fits(message, outcome)
}

/// Returns whether the places rise, from a least one, and each is held.
fn are_held(places: &[Place], least: u16, rulings: &[Ruling]) -> bool
    ensures { IsTrue result ↔ AreRulings places.now least rulings.now }
{
    match rulings {
        [] => true,
        [first, rest @ ..] => {
            least <= u16::from(first.place)
                && holds_at(places, usize::from(first.place))
                && are_held(places, u16::from(first.place) + 1, rest)
        }
    }
}

fn holds_at(places: &[Place], index: usize) -> bool
    ensures { result ≡ holds_at places.now index }
{
    match places.get(index) {
        Some(place) => place.held,
        None => false,
    }
}

/// Returns whether a hop is named exactly if an attempt was made.
fn hop_fits(outcome: &Outcome) -> bool
    ensures { IsTrue result ↔ ((outcome.now.hop ≡ []) ↔ AllWithoutHop outcome.now.rulings) }
{
    let unnamed = outcome.hop.is_empty();
    let without_hop = all_without_hop(outcome.rulings.as_slice());
    unnamed == without_hop
}

fn all_without_hop(rulings: &[Ruling]) -> bool
    ensures { IsTrue result ↔ AllWithoutHop rulings.now }
{
    match rulings {
        [] => true,
        [first, rest @ ..] => is_without_hop(&first.verdict) && all_without_hop(rest),
    }
}

fn is_without_hop(verdict: &Verdict) -> bool
    ensures { result ≡ is_without_hop verdict.now }
{
    matches!(verdict, Verdict::NoRoute | Verdict::Withdrawn(_))
}

/// Returns whether there is a report exactly if one is due.
fn report_fits(message: &Message, outcome: &Outcome) -> bool
    ensures { IsTrue result
        ↔ ((outcome.now.report ≡ [])
        ↔ (list_any (reports_at outcome.now.version message.now outcome.now.at) outcome.now.rulings ≡ false)) }
{
    let unreported = outcome.report.is_empty();
    let none_due = is_none_due(message, outcome);
    unreported == none_due
}

/// Returns whether no report is due.
fn is_none_due(message: &Message, outcome: &Outcome) -> bool
    ensures { IsTrue result
        ↔ (list_any (reports_at outcome.now.version message.now outcome.now.at) outcome.now.rulings ≡ false) }
{
    !any_due(message, outcome)
}

fn any_due(message: &Message, outcome: &Outcome) -> bool
    ensures { result
        ≡ list_any (reports_at outcome.now.version message.now outcome.now.at) outcome.now.rulings }
{
    let rulings = outcome.rulings.as_slice();
    rulings.iter().any(|ruling| reports_at(message, outcome.version, outcome.at, ruling))
}

/// Returns whether a report is due for a place.
fn reports_at(message: &Message, version: Version, at: Moment, ruling: &Ruling) -> bool
    ensures { result ≡ reports_at version message.now at ruling.now }
{
    message
        .due_report_at(version, at, ruling.place, &ruling.verdict)
        .is_some()
}
