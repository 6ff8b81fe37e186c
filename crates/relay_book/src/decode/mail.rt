//! What MAIL says in a record.
ghost use Rattle.std.specs.Prelude.{◌≡◌, ◌≢◌, true, ℕ, List, Option, MatchOption};
ghost use Rattle.std.specs.Option.{option_copied};
ghost use Rattle.relay_envelope.specs.declared.parameters.Ret.{Ret as AnyRet};
ghost use Rattle.relay_envelope.specs.Envelope.{IsReversePath, may_be_envid, envelope_from};
ghost use Rattle.relay_envelope.specs.Path.{path_text, value_of};
ghost use Rattle.relay_envelope.specs.Mail.{mail_value};
ghost use Rattle.relay_book.specs.Record.{ret_number, written};
ghost use Rattle.relay_book.specs.Fields.{HasMailFields, IsMail, IsNoMail};

use relay_envelope::{Mail, Path, Ret, is_envid, is_reverse_path};

/// Returns the reverse path that the whole text is.
fn reverse_path(text: &[u8]) -> Option<Path<'_>>
    ensures { MatchOption result (¬ IsReversePath text.now)
        (λ path. IsReversePath text.now × (text.now ≡ path_text (value_of path))) }
{
    if is_reverse_path(text) {
        Path::read(text)
    } else {
        None
    }
}

/// Returns the RET of a number.
fn ret_of(number: u8) -> Option<Option<Ret>>
    ensures { MatchOption result ((ret : Option AnyRet) → number ≢ ret_number ret)
        (λ ret. number ≡ ret_number ret) }
{
    match number {
        0 => Some(None),
        1 => Some(Some(Ret::Full)),
        2 => Some(Some(Ret::Hdrs)),
        _ => None,
    }
}

/// ENVID as it was written, or none if the text is empty.
fn envid_of(text: &[u8]) -> Option<Option<&[u8]>>
    ensures { MatchOption result
        ((envid : Option (List ℕ)) → may_be_envid envid ≡ true → text.now ≢ written envid)
        (λ envid. (may_be_envid (option_copied envid) ≡ true) × (text.now ≡ written (option_copied envid))) }
{
    if text.is_empty() {
        return Some(None);
    }
    if is_envid(text) {
        Some(Some(text))
    } else {
        None
    }
}

/// Returns what MAIL said, by the fields of a record.
#[tactic(auto, using(crate::proofs::MailFieldLemmas::refused_mail))]
pub(super) fn mail_of<'a>(path: &'a [u8], ret: u8, envid: &'a [u8]) -> Option<Mail<'a>>
    ensures { MatchOption result
        (IsNoMail path.now ret envid.now)
        (λ mail. IsMail (envelope_from (mail_value mail))
        × HasMailFields (envelope_from (mail_value mail)) path.now ret envid.now) }
{
    let path = reverse_path(path)?;
    let ret = ret_of(ret)?;
    let envid = envid_of(envid)?;
    Some(Mail {
        reverse_path: path,
        ret,
        envid,
    })
}
