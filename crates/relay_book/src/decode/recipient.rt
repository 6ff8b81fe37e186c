//! The recipients of a record.
ghost use Rattle.std.specs.Prelude.{◌≡◌, ◌≢◌, ◌++◌, true, ℕ, List, Option, MatchOption, IfOk, IsErrOf};
ghost use Rattle.std.specs.List.{flat_map};
ghost use Rattle.std.specs.Option.{option_copied};
ghost use Rattle.relay_envelope.specs.declared.envelope.Recipient.{Recipient};
ghost use Rattle.relay_envelope.specs.declared.parameters.Notify.{Notify as AnyNotify};
ghost use Rattle.relay_envelope.specs.Envelope.{IsRecipient, may_be_notify, may_be_orcpt, IsWrittenPath};
ghost use Rattle.relay_envelope.specs.Envelope.{recipient_from};
ghost use Rattle.relay_envelope.specs.Path.{is_forward, path_text, value_of};
ghost use Rattle.relay_envelope.specs.Mail.{rcpt_value};
ghost use Rattle.relay_book.specs.Record.{counted, notify_number, recipient_octets, written};
ghost use Rattle.relay_book.specs.Fields.{SpellsFields, HasFields, HasNoFields, HaveCount, AreSome, HasCount};
ghost use Rattle.relay_book.specs.Fields.{HasNoCounted, HasNoRow, HasNone, IsNoRecipient};

use crate::fault::BookFault;
use crate::field::read_sized_2;
use relay_envelope::{Notify, Outcomes, Path, Rcpt, Recipient, Recipients, is_orcpt};
use std::alloc::Global;

/// Returns the NOTIFY of a number.
fn notify_of(number: u8) -> Option<Option<Notify>>
    ensures { MatchOption result
        ((notify : Option AnyNotify) → may_be_notify notify ≡ true → number ≢ notify_number notify)
        (λ notify. (may_be_notify notify ≡ true) × (number ≡ notify_number notify)) }
{
    match number {
        0 => Some(None),
        1 => Some(Some(Notify::Never)),
        2 => Some(Some(on(true, false, false))),
        4 => Some(Some(on(false, true, false))),
        6 => Some(Some(on(true, true, false))),
        8 => Some(Some(on(false, false, true))),
        10 => Some(Some(on(true, false, true))),
        12 => Some(Some(on(false, true, true))),
        14 => Some(Some(on(true, true, true))),
        _ => None,
    }
}

fn on(success: bool, failure: bool, delay: bool) -> Notify
    ensures { result ≡ AnyNotify.On (record { success = success; failure = failure; delay = delay }) }
{
    Notify::On(Outcomes {
        success,
        failure,
        delay,
    })
}

/// Returns the forward path that the whole text is.
fn forward_path(text: &[u8]) -> Option<Path<'_>>
    ensures { MatchOption result (¬ IsWrittenPath is_forward text.now)
        (λ path. IsWrittenPath is_forward text.now × (text.now ≡ path_text (value_of path))) }
{
    let path = Path::read(text)?;
    match path {
        Path::Null => None,
        Path::Postmaster(_) => Some(path),
        Path::Mailbox(_) => Some(path),
    }
}

/// ORCPT as it was written, or none if the text is empty.
fn orcpt_of(text: &[u8]) -> Option<Option<&[u8]>>
    ensures { MatchOption result
        ((orcpt : Option (List ℕ)) → may_be_orcpt orcpt ≡ true → text.now ≢ written orcpt)
        (λ orcpt. (may_be_orcpt (option_copied orcpt) ≡ true) × (text.now ≡ written (option_copied orcpt))) }
{
    if text.is_empty() {
        return Some(None);
    }
    if is_orcpt(text) {
        Some(Some(text))
    } else {
        None
    }
}

/// Returns a text after its length, an octet, a text after its length, and what follows them: what MAIL says, or a
/// recipient.
#[tactic(auto, using(crate::proofs::FieldLemmas::recipient_fields))]
pub(crate) fn read_fields(text: &[u8]) -> Option<(&[u8], u8, &[u8], &[u8])>
    ensures { MatchOption result
        (HasNoFields text.now)
        (λ parts. SpellsFields text.now parts.0.now parts.1 parts.2.now parts.3.now) }
{
    let (path, after) = read_sized_2(text)?;
    let (number, after) = after.split_first()?;
    let (orcpt, after) = read_sized_2(after)?;
    Some((path, *number, orcpt, after))
}

/// Returns the recipient of these fields.
#[tactic(auto, using(crate::proofs::FieldLemmas::refused_recipients))]
fn recipient_of<'a>(path: &'a [u8], number: u8, orcpt: &'a [u8]) -> Option<Rcpt<'a>>
    ensures { MatchOption result
        (IsNoRecipient path.now number orcpt.now)
        (λ rcpt. IsRecipient (recipient_from (rcpt_value rcpt))
        × HasFields (recipient_from (rcpt_value rcpt)) path.now number orcpt.now) }
{
    let path = forward_path(path)?;
    let notify = notify_of(number)?;
    let orcpt = orcpt_of(orcpt)?;
    Some(Rcpt {
        path,
        notify,
        orcpt,
    })
}

/// Returns a recipient, and what follows it.
#[tactic(auto, using(crate::proofs::FieldLemmas::judged_recipients))]
pub(super) fn read_recipient(text: &[u8]) -> Option<(Rcpt<'_>, &[u8])>
    ensures { MatchOption result
        (HasNone IsRecipient recipient_octets text.now)
        (λ parts. IsRecipient (recipient_from (rcpt_value parts.0))
        × (text.now ≡ recipient_octets (recipient_from (rcpt_value parts.0)) ++ parts.1.now)) }
{
    let (path, number, orcpt, after) = read_fields(text)?;
    let rcpt = recipient_of(path, number, orcpt)?;
    Some((rcpt, after))
}

/// Returns this many recipients, and what follows them.
fn read_row(alloc: Global, count: u8, text: &[u8]) -> Result<(Recipients, &[u8]), BookFault>
    ensures row { IfOk result (λ parts. HaveCount IsRecipient count parts.0
        × (text.now ≡ flat_map recipient_octets parts.0 ++ parts.1.now)) }
    ensures bad { IsErrOf result BookFault.BadRecord → HasNoRow IsRecipient recipient_octets count text.now }
{
    let mut recipients = Recipients::with_capacity(alloc, count as usize)?;
    let mut rest = text;
    for index in 0..count {
        match read_recipient(rest) {
            None => return Err(BookFault::BadRecord),
            Some((rcpt, after)) => {
                recipients.push(Recipient::new(alloc, rcpt)?)?;
                rest = after;
            }
        }
    }
    Ok((recipients, rest))
}

/// 1 to 100 recipients after their count, and what follows them.
#[tactic(auto, using(crate::proofs::RowLemmas::counted_rows, crate::proofs::BeginLemmas::has_count))]
pub(crate) fn read_recipients(alloc: Global, text: &[u8]) -> Result<(Recipients, &[u8]), BookFault>
    ensures counted { IfOk result (λ parts. AreSome IsRecipient parts.0
        × (text.now ≡ counted recipient_octets parts.0 ++ parts.1.now)) }
    ensures bad { IsErrOf result BookFault.BadRecord → HasNoCounted IsRecipient recipient_octets text.now }
    ensures memory { IsErrOf result BookFault.NoMemory → HasCount text.now }
{
    let Some((count, rest)) = text.split_first() else {
        return Err(BookFault::BadRecord);
    };
    if *count < 1 || *count > 100 {
        return Err(BookFault::BadRecord);
    }
    read_row(alloc, *count, rest)
}
