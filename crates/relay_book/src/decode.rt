//! Records read back.
ghost use Rattle.std.specs.Prelude.{◌≡◌, ◌≢◌, ◌<◌, ◌^◌, length, MatchOption, ◌∷◌, IfOk, IfSome, IsErrOf, IsTrue, ◌↔◌};
ghost use Rattle.relay_envelope.specs.Envelope.{IsRecipient, IsReversePath, may_be_envid, envelope_from};
ghost use Rattle.relay_envelope.specs.Mail.{mail_value};
ghost use Rattle.relay_book.specs.Record.{IsAccept, IsChange, IsNoRecord, IsOutcome, MayBeHop, accept_octets, encode};
ghost use Rattle.relay_book.specs.Record.{outcome_kind, outcome_octets, sized_4, text_limit};
ghost use Rattle.relay_book.specs.Fields.{BeginsAccept, BeginsRecord, BeginsWithHop, BeginsWithMail, HasNoHead};
ghost use Rattle.relay_book.specs.Fields.{IsNoSized, MayBeRecord, SpellsHead, SpellsAccept, SpellsNoAccept};
ghost use Rattle.relay_book.specs.Fields.{SpellsNoOutcome, SpellsNoneOf, SpellsOutcome};

mod entry;
mod mail;
mod outlined;
mod placed;
mod recipient;
mod ruling;
mod tail;

use crate::change::{Accept, Change, Outcome, Rulings};
use crate::fault::BookFault;
use crate::field::{read_4, read_8, read_sized_2};
use crate::judge::are_of_version;
use crate::limits::{REPORT_LIMIT, may_be_hop, text_limit};
use crate::version::Version;
pub(crate) use entry::next_entry;
use mail::mail_of;
pub(crate) use outlined::next_outlined;
use recipient::{read_fields, read_recipients};
use relay_envelope::{Envelope, Recipients};
use relay_octets::Octets;
use relay_trace::Moment;
use ruling::read_rulings;
use std::alloc::Global;
pub(crate) use tail::after;

/// Returns the change of which these octets are the record, with one copy of each text. It fails with `BadRecord`
/// exactly if they are no record of a change, and if memory runs out. Memory is wanted first for the recipients or the
/// verdicts: what is before them, and how many they are, is read first, and octets that spell no such fields are
/// refused however little memory there is. What is after, and whether the fields are valid, may be left unjudged if
/// memory runs out.
#[tactic(auto, using(crate::proofs::ChangeFieldLemmas::refused_changes, crate::proofs::BeginLemmas::begun_changes))]
pub fn decode_change(alloc: Global, text: &[u8]) -> Result<Change, BookFault>
    ensures change { IfOk result (λ change. IsChange change × (text.now ≡ encode change)) }
    ensures bad { IsErrOf result BookFault.BadRecord → IsNoRecord text.now }
    ensures memory { IsErrOf result BookFault.NoMemory → MayBeRecord text.now }
{
    let Some((kind, fields)) = text.split_first() else {
        return Err(BookFault::BadRecord);
    };
    match *kind {
        1 => {
            let accept = read_accept(alloc, fields)?;
            Ok(Change::Accept(accept))
        }
        2 => decode_outcome(alloc, Version::WithoutDelay, fields),
        4 => decode_outcome(alloc, Version::WithDelay, fields),
        6 => decode_outcome(alloc, Version::WithWithdrawal, fields),
        _ => Err(BookFault::BadRecord),
    }
}

/// Returns the outcome of a version whose fields these are.
fn decode_outcome(alloc: Global, version: Version, fields: &[u8]) -> Result<Change, BookFault>
    ensures change { IfOk result (λ change.
        IsChange change × (outcome_kind version ∷ fields.now ≡ encode change)) }
    ensures bad { IsErrOf result BookFault.BadRecord → SpellsNoneOf version fields.now }
    ensures memory { IsErrOf result BookFault.NoMemory → BeginsWithHop fields.now }
{
    let outcome = read_outcome(alloc, version, fields)?;
    Ok(Change::Outcome(outcome))
}

/// Returns the same change, where the octets are to be had. The stored text of an accept keeps their memory, and isn't
/// copied.
#[tactic(auto, using(crate::proofs::AcceptLemmas::record_is_accept, crate::proofs::AcceptLemmas::record_is_text))]
pub fn decode_record(alloc: Global, octets: Vec<u8>) -> Result<Change, BookFault>
    ensures change { IfOk result (λ change. IsChange change × (octets.items ≡ encode change)) }
    ensures bad { IsErrOf result BookFault.BadRecord → IsNoRecord octets.items }
    ensures memory { IsErrOf result BookFault.NoMemory → MayBeRecord octets.items }
{
    match head_of(alloc, octets.as_slice())? {
        Some((at, envelope, head)) => Ok(Change::Accept(Accept {
            at,
            envelope,
            stored_text: Octets::new(after(octets, head)),
        })),
        None => decode_change(alloc, octets.as_slice()),
    }
}

/// Returns what the record of an accept says before its stored text, and none for another record.
#[tactic(auto, using(crate::proofs::BeginLemmas::accept_records))]
fn head_of(alloc: Global, octets: &[u8]) -> Result<Option<AcceptHead>, BookFault>
    ensures accept { IfOk result (λ found. IfSome found
        (λ parts. BeginsRecord octets.now parts.0 parts.1 parts.2)) }
    ensures bad { IsErrOf result BookFault.BadRecord → IsNoRecord octets.now }
    ensures memory { IsErrOf result BookFault.NoMemory → MayBeRecord octets.now }
{
    let Some((kind, fields)) = octets.split_first() else {
        return Ok(None);
    };
    if *kind != 1 {
        return Ok(None);
    }
    let (at, envelope, head) = read_accept_head(alloc, fields)?;
    Ok(Some((at, envelope, head + 1)))
}

/// Returns the text after its length of four octets that the whole text is.
#[tactic(auto, using(crate::proofs::AcceptLemmas::no_last_short, crate::proofs::AcceptLemmas::no_last_other))]
fn read_last(text: &[u8]) -> Option<&[u8]>
    ensures { MatchOption result (IsNoSized text.now)
        (λ field. (text.now ≡ sized_4 field.now) × (length field.now < 2 ^ 32)) }
{
    let (len, rest) = read_4(text)?;
    if rest.len() == len as usize {
        Some(rest)
    } else {
        None
    }
}

/// The fields of an accept: its time, the three of MAIL, the recipients and the stored text.
type AcceptFields<'a> = (u64, &'a [u8], u8, &'a [u8], Recipients, &'a [u8]);

/// Cuts an accept into its fields.
fn split_accept(alloc: Global, text: &[u8]) -> Result<AcceptFields<'_>, BookFault>
    ensures fields { IfOk result (λ parts.
        SpellsAccept text.now parts.0 parts.1.now parts.2 parts.3.now parts.4 parts.5.now) }
    ensures bad { IsErrOf result BookFault.BadRecord → SpellsNoAccept text.now }
    ensures memory { IsErrOf result BookFault.NoMemory → BeginsWithMail text.now }
{
    let Some((at, rest)) = read_8(text) else {
        return Err(BookFault::BadRecord);
    };
    let Some((path, ret, envid, rest)) = read_fields(rest) else {
        return Err(BookFault::BadRecord);
    };
    let (recipients, rest) = read_recipients(alloc, rest)?;
    match read_last(rest) {
        Some(stored_text) => Ok((at, path, ret, envid, recipients, stored_text)),
        None => Err(BookFault::BadRecord),
    }
}

/// What an accept says before its stored text: its time and its envelope, and how many octets that takes.
type AcceptHead = (Moment, Envelope, usize);

/// Returns what the accept says before its stored text that the text spells.
fn read_accept_head(alloc: Global, text: &[u8]) -> Result<AcceptHead, BookFault>
    ensures accept { IfOk result (λ parts. BeginsAccept text.now parts.0 parts.1 parts.2) }
    ensures bad { IsErrOf result BookFault.BadRecord → SpellsNoAccept text.now }
    ensures memory { IsErrOf result BookFault.NoMemory → BeginsWithMail text.now }
{
    let (at, path, ret, envid, recipients, stored_text) = split_accept(alloc, text)?;
    let Some(mail) = mail_of(path, ret, envid) else {
        return Err(BookFault::BadRecord);
    };
    let Ok(at) = Moment::new(at) else {
        return Err(BookFault::BadRecord);
    };
    if stored_text.len() > text_limit(path) {
        return Err(BookFault::BadRecord);
    }
    let head = text.len() - stored_text.len();
    let mut envelope = Envelope::new(alloc, mail)?;
    envelope.recipients = recipients;
    Ok((at, envelope, head))
}

/// Returns the accept that the text spells.
fn read_accept(alloc: Global, text: &[u8]) -> Result<Accept, BookFault>
    ensures accept { IfOk result (λ accept. IsAccept accept × (text.now ≡ accept_octets accept)) }
    ensures bad { IsErrOf result BookFault.BadRecord → SpellsNoAccept text.now }
    ensures memory { IsErrOf result BookFault.NoMemory → BeginsWithMail text.now }
{
    let (at, envelope, head) = read_accept_head(alloc, text)?;
    Ok(Accept {
        at,
        envelope,
        stored_text: Octets::from_slice(alloc, &text[head..])?,
    })
}

/// The fields of an outcome: its message, its time, the hop, the verdicts and the report.
type OutcomeFields<'a> = (u64, u64, &'a [u8], Rulings, &'a [u8]);

/// Returns an outcome's message, its time and its hop, and what follows them.
#[tactic(auto, using(crate::proofs::OutcomeLemmas::outcome_heads))]
fn read_head(text: &[u8]) -> Option<(u64, u64, &[u8], &[u8])>
    ensures { MatchOption result (HasNoHead text.now)
        (λ parts. SpellsHead text.now parts.0 parts.1 parts.2.now parts.3.now) }
{
    let (message, rest) = read_8(text)?;
    let (at, rest) = read_8(rest)?;
    let (hop, rest) = read_sized_2(rest)?;
    Some((message, at, hop, rest))
}

/// Cuts an outcome into its fields.
fn split_outcome(alloc: Global, text: &[u8]) -> Result<OutcomeFields<'_>, BookFault>
    ensures fields { IfOk result (λ parts.
        SpellsOutcome text.now parts.0 parts.1 parts.2.now parts.3 parts.4.now) }
    ensures bad { IsErrOf result BookFault.BadRecord → SpellsNoOutcome text.now }
    ensures memory { IsErrOf result BookFault.NoMemory → BeginsWithHop text.now }
{
    let Some((message, at, hop, rest)) = read_head(text) else {
        return Err(BookFault::BadRecord);
    };
    let (rulings, rest) = read_rulings(alloc, rest)?;
    match read_last(rest) {
        Some(report) => Ok((message, at, hop, rulings, report)),
        None => Err(BookFault::BadRecord),
    }
}

/// Returns the outcome of a version that the text spells: verdicts of another version are none.
#[tactic(auto, using(crate::proofs::OutcomeLemmas::judged_outcomes, crate::proofs::BeginLemmas::spelled_with_hop))]
fn read_outcome(alloc: Global, version: Version, text: &[u8]) -> Result<Outcome, BookFault>
    ensures outcome { IfOk result (λ outcome. IsOutcome outcome × (text.now ≡ outcome_octets outcome)) }
    ensures version { IfOk result (λ outcome. outcome.version ≡ version) }
    ensures bad { IsErrOf result BookFault.BadRecord → SpellsNoneOf version text.now }
    ensures memory { IsErrOf result BookFault.NoMemory → BeginsWithHop text.now }
{
    let (message, at, hop, rulings, report) = split_outcome(alloc, text)?;
    let Ok(at) = Moment::new(at) else {
        return Err(BookFault::BadRecord);
    };
    if !may_be_hop(hop) || report.len() > REPORT_LIMIT {
        return Err(BookFault::BadRecord);
    }
    if !are_of_version(version, rulings.as_slice()) {
        return Err(BookFault::BadRecord);
    }
    Ok(Outcome {
        version,
        message,
        at,
        hop: Octets::from_slice(alloc, hop)?,
        rulings,
        report: Octets::from_slice(alloc, report)?,
    })
}
