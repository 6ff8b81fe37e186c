//! Comparison of two accepts, part by part. Allocates nothing.
ghost use Rattle.std.specs.Prelude.{◌≡◌, ◌↔◌, IsTrue};
ghost use Rattle.std.specs.Option.{option_copied};

use relay_book::Accept;
use relay_envelope::{Envelope, Recipient};

/// Returns whether two accepts have the same time, envelope and stored text.
pub(crate) fn is_same_accept(one: &Accept, other: &Accept) -> bool
    ensures { IsTrue result ↔ (one.now ≡ other.now) }
{
    one.at == other.at
        && one.stored_text.as_slice() == other.stored_text.as_slice()
        && is_same_envelope(&one.envelope, &other.envelope)
}

/// Returns whether two envelopes are the same.
fn is_same_envelope(one: &Envelope, other: &Envelope) -> bool
    ensures { IsTrue result ↔ (one.now ≡ other.now) }
{
    one.reverse_path.as_slice() == other.reverse_path.as_slice()
        && one.ret == other.ret
        && is_same_text(
            one.envid.as_ref().map(|envid| envid.as_slice()),
            other.envid.as_ref().map(|envid| envid.as_slice()),
        )
        && are_same_recipients(one.recipients.as_slice(), other.recipients.as_slice())
}

/// Returns whether two lists of recipients are the same, in order.
fn are_same_recipients(one: &[Recipient], other: &[Recipient]) -> bool
    ensures { IsTrue result ↔ (one.now ≡ other.now) }
{
    if one.len() != other.len() {
        return false;
    }
    for (at, recipient) in one.iter().enumerate() {
        if !is_same_recipient(recipient, &other[at]) {
            return false;
        }
    }
    true
}

/// Returns whether two recipients are the same.
fn is_same_recipient(one: &Recipient, other: &Recipient) -> bool
    ensures { IsTrue result ↔ (one.now ≡ other.now) }
{
    one.path.as_slice() == other.path.as_slice()
        && one.notify == other.notify
        && is_same_text(
            one.orcpt.as_ref().map(|orcpt| orcpt.as_slice()),
            other.orcpt.as_ref().map(|orcpt| orcpt.as_slice()),
        )
}

/// Returns whether two optional texts are the same.
fn is_same_text(one: Option<&[u8]>, other: Option<&[u8]>) -> bool
    ensures { IsTrue result ↔ (option_copied one.entry ≡ option_copied other.entry) }
{
    match (one, other) {
        (Some(one), Some(other)) => one == other,
        (None, None) => true,
        (Some(_), None) => false,
        (None, Some(_)) => false,
    }
}
