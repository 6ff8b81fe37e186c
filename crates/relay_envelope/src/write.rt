//! How MAIL and RCPT are written: keywords in upper case, one space before each, nothing for what was not given.
ghost use Rattle.std.specs.Prelude.{◌≡◌, ◌++◌, IfOk, OnOk, true, false};
ghost use Rattle.std.specs.List.{join_with_byte};
ghost use Rattle.relay_envelope.specs.Envelope.{envid_text, mail_text, notify_text, notify_value, orcpt_text};
ghost use Rattle.relay_envelope.specs.Envelope.{outcome_words, outcomes_of, rcpt_text, ret_text};

use crate::envelope::{Envelope, Orcpt, Recipient};
use crate::parameters::{Notify, Outcomes, Ret};
use crate::xtext::Xtext;
use relay_octets::Octets;
use std::alloc::{AllocError, Global};

/// Writes the text after the colon of `MAIL FROM:`. Fails if memory runs out.
pub fn write_mail(alloc: Global, envelope: &Envelope) -> Result<Octets, AllocError>
    ensures { IfOk result (λ text. text ≡ mail_text envelope.now) }
{
    let mut text = Octets::from_slice(alloc, envelope.reverse_path.as_slice())?;
    text.push_slice(written_ret(envelope.ret))?;
    push_envid(&mut text, &envelope.envid)?;
    Ok(text)
}

/// Writes the text after the colon of `RCPT TO:`. Fails if memory runs out.
pub fn write_rcpt(alloc: Global, recipient: &Recipient) -> Result<Octets, AllocError>
    ensures { IfOk result (λ text. text ≡ rcpt_text recipient.now) }
{
    let mut text = Octets::from_slice(alloc, recipient.path.as_slice())?;
    push_notify(&mut text, recipient.notify)?;
    push_orcpt(&mut text, &recipient.orcpt)?;
    Ok(text)
}

fn written_ret(ret: Option<Ret>) -> &'static [u8]
    ensures { result.now ≡ ret_text ret }
{
    match ret {
        None => b"",
        Some(Ret::Full) => b" RET=FULL",
        Some(Ret::Hdrs) => b" RET=HDRS",
    }
}

fn push_envid(text: &mut Octets, envid: &Option<Xtext>) -> Result<(), AllocError>
    ensures { OnOk result (text.new ≡ text.old ++ envid_text envid.now) }
{
    match envid {
        None => Ok(()),
        Some(envid) => {
            text.push_slice(b" ENVID=")?;
            text.push_slice(envid.as_slice())
        }
    }
}

fn push_notify(text: &mut Octets, notify: Option<Notify>) -> Result<(), AllocError>
    ensures { OnOk result (text.new ≡ text.old ++ notify_text notify) }
{
    match notify {
        None => Ok(()),
        Some(notify) => {
            text.push_slice(b" NOTIFY=")?;
            text.push_slice(written_notify(notify))
        }
    }
}

fn push_orcpt(text: &mut Octets, orcpt: &Option<Orcpt>) -> Result<(), AllocError>
    ensures { OnOk result (text.new ≡ text.old ++ orcpt_text orcpt.now) }
{
    match orcpt {
        None => Ok(()),
        Some(orcpt) => {
            text.push_slice(b" ORCPT=")?;
            text.push_slice(orcpt.as_slice())
        }
    }
}

fn written_notify(notify: Notify) -> &'static [u8]
    ensures { result.now ≡ notify_value notify }
{
    match notify {
        Notify::Never => b"NEVER",
        Notify::On(outcomes) => written_outcomes(outcomes),
    }
}

/// Returns the words in the order SUCCESS, FAILURE, DELAY, in whatever order they came.
fn written_outcomes(outcomes: Outcomes) -> &'static [u8]
    ensures { result.now ≡ join_with_byte 44 (outcome_words outcomes) }
{
    if outcomes.success {
        with_success(outcomes.failure, outcomes.delay)
    } else {
        without_success(outcomes.failure, outcomes.delay)
    }
}

fn with_success(failure: bool, delay: bool) -> &'static [u8]
    ensures { result.now ≡ join_with_byte 44 (outcome_words (outcomes_of true failure delay)) }
{
    match (failure, delay) {
        (true, true) => b"SUCCESS,FAILURE,DELAY",
        (true, false) => b"SUCCESS,FAILURE",
        (false, true) => b"SUCCESS,DELAY",
        (false, false) => b"SUCCESS",
    }
}

fn without_success(failure: bool, delay: bool) -> &'static [u8]
    ensures { result.now ≡ join_with_byte 44 (outcome_words (outcomes_of false failure delay)) }
{
    match (failure, delay) {
        (true, true) => b"FAILURE,DELAY",
        (true, false) => b"FAILURE",
        (false, true) => b"DELAY",
        (false, false) => b"",
    }
}
