//! Tests of octets from elsewhere, such as a disk: whether they may be stored. Nothing here allocates.
ghost use Rattle.std.specs.Prelude.{◌≡◌, ◌↔◌, IsTrue};
ghost use Rattle.std.specs.List.{AllByRecursion};
ghost use Rattle.relay_envelope.specs.Envelope.{IsEnvelope, IsForwardPath, IsRecipient, IsReversePath, may_be_envid};
ghost use Rattle.relay_envelope.specs.Envelope.{may_be_notify, may_be_orcpt};

use crate::envelope::{Envelope, Orcpt, Recipient};
use crate::parameters::{Notify, is_envid, is_orcpt};
use crate::path::Path;
use crate::xtext::Xtext;

/// The most recipients of an envelope (RFC 5321, section 4.5.3.1.8).
const RECIPIENT_LIMIT: usize = 100;

/// Returns whether the whole text is a path of MAIL: `<>`, or a mailbox in brackets.
#[tactic(auto, using(crate::proofs::ValidityLemmas::none_other))]
pub fn is_reverse_path(text: &[u8]) -> bool
    ensures { IsTrue result ↔ IsReversePath text.now }
{
    match Path::read(text) {
        None => false,
        Some(Path::Null) => true,
        Some(Path::Postmaster(_)) => false,
        Some(Path::Mailbox(_)) => true,
    }
}

/// Returns whether the whole text is a path of RCPT: the postmaster's, or a mailbox in brackets.
#[tactic(auto, using(crate::proofs::ValidityLemmas::none_other))]
pub fn is_forward_path(text: &[u8]) -> bool
    ensures { IsTrue result ↔ IsForwardPath text.now }
{
    match Path::read(text) {
        None => false,
        Some(Path::Null) => false,
        Some(Path::Postmaster(_)) => true,
        Some(Path::Mailbox(_)) => true,
    }
}

/// Returns whether the recipient may be stored: a forward path, outcomes of which NOTIFY names one at least, and an
/// ORCPT.
pub fn is_recipient(recipient: &Recipient) -> bool
    ensures { IsTrue result ↔ IsRecipient recipient.now }
{
    is_forward_path(recipient.path.as_slice())
        && may_be_notify(recipient.notify)
        && may_be_orcpt(&recipient.orcpt)
}

/// Returns whether the envelope may be stored: a reverse path, an ENVID, and 1 to 100 recipients that may be stored.
pub fn is_envelope(envelope: &Envelope) -> bool
    ensures { IsTrue result ↔ IsEnvelope envelope.now }
{
    is_reverse_path(envelope.reverse_path.as_slice())
        && may_be_envid(&envelope.envid)
        && (1..=RECIPIENT_LIMIT).contains(&envelope.recipients.len())
        && are_recipients(envelope.recipients.as_slice())
}

fn are_recipients(recipients: &[Recipient]) -> bool
    ensures { IsTrue result ↔ AllByRecursion IsRecipient recipients.now }
{
    for recipient in recipients {
        if !is_recipient(recipient) {
            return false;
        }
    }
    true
}

fn may_be_envid(envid: &Option<Xtext>) -> bool
    ensures { result ≡ may_be_envid envid.now }
{
    match envid {
        None => true,
        Some(envid) => is_envid(envid.as_slice()),
    }
}

fn may_be_orcpt(orcpt: &Option<Orcpt>) -> bool
    ensures { result ≡ may_be_orcpt orcpt.now }
{
    match orcpt {
        None => true,
        Some(orcpt) => is_orcpt(orcpt.as_slice()),
    }
}

/// Returns whether a list of outcomes, if it was given, names one at least.
pub fn may_be_notify(notify: Option<Notify>) -> bool
    ensures { result ≡ may_be_notify notify }
{
    match notify {
        None => true,
        Some(Notify::Never) => true,
        Some(Notify::On(outcomes)) => outcomes.success || outcomes.failure || outcomes.delay,
    }
}
