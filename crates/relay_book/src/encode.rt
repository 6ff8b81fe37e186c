//! Records and messages written.
ghost use Rattle.std.specs.Prelude.{◌≡◌, ◌++◌, ◌∷◌, ◌<◌, ◌≤◌, ◌^◌, length, OnOk, IfOk};
ghost use Rattle.std.specs.List.{flat_map, AllByRecursion, zip};
ghost use Rattle.relay_envelope.specs.Envelope.{IsEnvelope, IsRecipient};
ghost use Rattle.relay_book.specs.Record.{IsAccept, IsChange, IsOutcome, IsRuling, IsVerdict, accept_octets, counted};
ghost use Rattle.relay_book.specs.Record.{encode, notify_number, octets_8, outcome_kind, outcome_octets, written};
ghost use Rattle.relay_book.specs.Record.{recipient_octets, ret_number, ruling_octets, sized_2, verdict_octets};
ghost use Rattle.relay_book.specs.declared.version.SnapshotVersion.TheVariants.{WithDelay};
ghost use Rattle.relay_book.specs.Snapshot.{IsQueued, entry_octets, place_octets, placed_octets};

use crate::change::{Accept, Change, Outcome, Ruling, Verdict, Withdrawal};
use crate::field::{push_1, push_2, push_8, push_sized_2, push_sized_4};
use crate::message::{Message, Place};
use crate::version::Version;
use relay_envelope::{Notify, Recipient, Ret};
use std::alloc::{AllocError, Global};

/// Returns the one record of a change that may be stored. Fails if memory runs out.
pub fn encode_change(alloc: Global, change: &Change) -> Result<Vec<u8>, AllocError>
    requires { IsChange change.now }
    ensures { IfOk result (λ octets. octets.items ≡ encode change.now) }
{
    let mut out = Vec::new(alloc);
    match change {
        Change::Accept(accept) => {
            push_1(&mut out, 1)?;
            push_accept(&mut out, accept)?;
        }
        Change::Outcome(outcome) => {
            push_1(&mut out, outcome_kind(outcome.version))?;
            push_outcome(&mut out, outcome)?;
        }
    }
    Ok(out)
}

/// Adds the fields of an accept.
#[tactic(auto, using(crate::proofs::FitLemmas::text_fits))]
fn push_accept(out: &mut Vec<u8>, accept: &Accept) -> Result<(), AllocError>
    requires { IsAccept accept.now }
    ensures { OnOk result (out.new.items ≡ out.old.items ++ accept_octets accept.now) }
{
    push_mail(out, accept)?;
    push_recipients(out, accept.envelope.recipients.as_slice())?;
    push_sized_4(out, accept.stored_text.as_slice())
}

/// Adds what an accept says before its recipients: its time, and the three of MAIL.
#[tactic(auto, using(crate::proofs::FitLemmas::fields_fit))]
fn push_mail(out: &mut Vec<u8>, accept: &Accept) -> Result<(), AllocError>
    requires { IsAccept accept.now }
    ensures { OnOk result (out.new.items ≡ out.old.items ++ (octets_8 accept.now.at
        ++ (sized_2 accept.now.envelope.reverse_path
        ++ (ret_number accept.now.envelope.ret ∷ sized_2 (written accept.now.envelope.envid))))) }
{
    let envelope = &accept.envelope;
    push_8(out, accept.at.seconds())?;
    push_sized_2(out, envelope.reverse_path.as_slice())?;
    push_1(out, number_of_ret(envelope.ret))?;
    match &envelope.envid {
        Some(envid) => push_sized_2(out, envid.as_slice()),
        None => push_sized_2(out, b""),
    }
}

fn number_of_ret(ret: Option<Ret>) -> u8
    ensures { result ≡ ret_number ret }
{
    match ret {
        None => 0,
        Some(Ret::Full) => 1,
        Some(Ret::Hdrs) => 2,
    }
}

/// Adds recipients after their count.
fn push_recipients(out: &mut Vec<u8>, recipients: &[Recipient]) -> Result<(), AllocError>
    requires few { length recipients.now ≤ 100 }
    requires valid { AllByRecursion IsRecipient recipients.now }
    ensures { OnOk result (out.new.items ≡ out.old.items ++ counted recipient_octets recipients.now) }
{
    push_1(out, recipients.len() as u8)?;
    for recipient in recipients {
        push_recipient(out, recipient)?;
    }
    Ok(())
}

/// Adds a recipient.
#[tactic(auto, using(crate::proofs::FitLemmas::path_fits, crate::proofs::FitLemmas::given_orcpt_fits))]
fn push_recipient(out: &mut Vec<u8>, recipient: &Recipient) -> Result<(), AllocError>
    requires { IsRecipient recipient.now }
    ensures { OnOk result (out.new.items ≡ out.old.items ++ recipient_octets recipient.now) }
{
    push_sized_2(out, recipient.path.as_slice())?;
    push_1(out, number_of_notify(recipient.notify))?;
    match &recipient.orcpt {
        Some(orcpt) => push_sized_2(out, orcpt.as_slice()),
        None => push_sized_2(out, b""),
    }
}

fn number_of_notify(notify: Option<Notify>) -> u8
    ensures { result ≡ notify_number notify }
{
    match notify {
        None => 0,
        Some(Notify::Never) => 1,
        Some(Notify::On(outcomes)) => {
            let success = if outcomes.success { 2 } else { 0 };
            let failure = if outcomes.failure { 4 } else { 0 };
            let delay = if outcomes.delay { 8 } else { 0 };
            success + failure + delay
        }
    }
}

/// Returns the first octet of an outcome.
fn outcome_kind(version: Version) -> u8
    ensures { result ≡ outcome_kind version }
{
    match version {
        Version::WithoutDelay => 2,
        Version::WithDelay => 4,
        Version::WithWithdrawal => 6,
    }
}

/// Adds the fields of an outcome.
fn push_outcome(out: &mut Vec<u8>, outcome: &Outcome) -> Result<(), AllocError>
    requires { IsOutcome outcome.now }
    ensures { OnOk result (out.new.items ≡ out.old.items ++ outcome_octets outcome.now) }
{
    push_8(out, outcome.message)?;
    push_8(out, outcome.at.seconds())?;
    push_sized_2(out, outcome.hop.as_slice())?;
    push_rulings(out, outcome.rulings.as_slice())?;
    push_sized_4(out, outcome.report.as_slice())
}

/// Adds verdicts after their count.
fn push_rulings(out: &mut Vec<u8>, rulings: &[Ruling]) -> Result<(), AllocError>
    requires few { length rulings.now ≤ 100 }
    requires valid { AllByRecursion IsRuling rulings.now }
    ensures { OnOk result (out.new.items ≡ out.old.items ++ counted ruling_octets rulings.now) }
{
    push_1(out, rulings.len() as u8)?;
    for ruling in rulings {
        push_ruling(out, ruling)?;
    }
    Ok(())
}

/// Adds a place and its verdict.
fn push_ruling(out: &mut Vec<u8>, ruling: &Ruling) -> Result<(), AllocError>
    requires { IsRuling ruling.now }
    ensures { OnOk result (out.new.items ≡ out.old.items ++ ruling_octets ruling.now) }
{
    push_1(out, ruling.place)?;
    push_verdict(out, &ruling.verdict)
}

/// Adds a verdict.
fn push_verdict(out: &mut Vec<u8>, verdict: &Verdict) -> Result<(), AllocError>
    requires { IsVerdict verdict.now }
    ensures { OnOk result (out.new.items ≡ out.old.items ++ verdict_octets verdict.now) }
{
    match verdict {
        Verdict::Taken { dsn: true } => push_1(out, 1),
        Verdict::Taken { dsn: false } => push_1(out, 2),
        Verdict::Refused { code, text } => {
            push_1(out, 3)?;
            push_2(out, *code)?;
            push_1(out, text.len() as u8)?;
            out.extend_from_slice(text.as_slice())
        }
        Verdict::Later => push_1(out, 4),
        Verdict::CantSend => push_1(out, 5),
        Verdict::NoRoute => push_1(out, 6),
        Verdict::Withdrawn(Withdrawal::Return) => push_1(out, 7),
        Verdict::Withdrawn(Withdrawal::Discard) => push_1(out, 8),
    }
}

/// Adds a message that is queued, by the second version: its number, and the fields of its accept, each recipient
/// followed by its place.
#[tactic(auto, using(crate::proofs::FitLemmas::text_fits), unfolding(crate::specs::Snapshot::entry_octets))]
pub(crate) fn push_entry(
    out: &mut Vec<u8>,
    number: u64,
    message: &Message,
) -> Result<(), AllocError>
    requires { IsQueued (number, message.now) }
    ensures { OnOk result (out.new.items ≡ out.old.items ++ entry_octets WithDelay (number, message.now)) }
{
    push_8(out, number)?;
    push_mail(out, &message.accept)?;
    push_placed(
        out,
        message.accept.envelope.recipients.as_slice(),
        message.places.as_slice(),
    )?;
    push_sized_4(out, message.accept.stored_text.as_slice())
}

/// Adds recipients, each followed by its place, after their count.
fn push_placed(
    out: &mut Vec<u8>,
    recipients: &[Recipient],
    places: &[Place],
) -> Result<(), AllocError>
    requires few { length recipients.now ≤ 100 }
    requires as_many { length places.now ≡ length recipients.now }
    requires valid { AllByRecursion IsRecipient recipients.now }
    ensures { OnOk result
        (out.new.items ≡ out.old.items ++ counted (placed_octets WithDelay) (zip recipients.now places.now)) }
{
    push_1(out, recipients.len() as u8)?;
    push_row(out, recipients, places)?;
    Ok(())
}

/// Adds recipients, each followed by its place.
fn push_row(out: &mut Vec<u8>, recipients: &[Recipient], places: &[Place]) -> Result<(), AllocError>
    requires { AllByRecursion IsRecipient recipients.now }
    ensures { OnOk result
        (out.new.items ≡ out.old.items ++ flat_map (placed_octets WithDelay) (zip recipients.now places.now)) }
{
    match recipients {
        [] => Ok(()),
        [recipient, others @ ..] => match places {
            [] => Ok(()),
            [place, rest @ ..] => {
                push_recipient(out, recipient)?;
                push_place(out, *place)?;
                push_row(out, others, rest)
            }
        },
    }
}

/// Adds a place: whether it is held, its Later verdicts, whether it was reported as delayed, and when it is due.
fn push_place(out: &mut Vec<u8>, place: Place) -> Result<(), AllocError>
    ensures { OnOk result (out.new.items ≡ out.old.items ++ place_octets WithDelay place) }
{
    push_1(out, if place.held { 1 } else { 0 })?;
    push_1(out, place.laters)?;
    push_1(out, if place.delayed { 1 } else { 0 })?;
    push_8(out, place.due)
}
