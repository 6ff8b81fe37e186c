//! Parameters of MAIL and RCPT (RFC 3461, section 4). Reading them takes no memory.
ghost use Rattle.std.specs.Prelude.{◌≡◌};
ghost use Rattle.std.specs.List.{slice_split};
ghost use Rattle.relay_envelope.specs.Parameters.{mail_answer, mail_parameters_of, mail_value, notify_of, rcpt_answer};
ghost use Rattle.relay_envelope.specs.Parameters.{rcpt_parameters_of, rcpt_value, ret_of, with_mail_parameter};
ghost use Rattle.relay_envelope.specs.Parameters.{with_envid, with_notify, with_orcpt, with_outcome};
ghost use Rattle.relay_envelope.specs.Parameters.{with_rcpt_parameter, with_ret, is_octet, no_outcomes, with_outcomes};

mod value;

use crate::fault::EnvelopeFault;
use crate::part::{first_part, keyword_and_value};
use relay_lines::word::is_word;
pub(crate) use value::type_and_address;
pub use value::{is_envid, is_orcpt};

/// How much of a message a report returns (RFC 3461, section 4.3).
#[derive(Clone, Copy, Debug, PartialEq, Eq)]
pub enum Ret {
    /// The whole message.
    Full,
    /// Its headers alone.
    Hdrs,
}

/// The outcomes that are to be reported.
#[derive(Clone, Copy, Debug, PartialEq, Eq)]
pub struct Outcomes {
    /// The message was delivered, or relayed to a server that doesn't report.
    pub success: bool,
    /// The message could not be delivered.
    pub failure: bool,
    /// The message is late.
    pub delay: bool,
}

/// When to report to the sender (RFC 3461, section 4.1).
#[derive(Clone, Copy, Debug, PartialEq, Eq)]
pub enum Notify {
    /// In no case.
    Never,
    /// At these outcomes, of which there is at least one.
    On(Outcomes),
}

/// The parameters of MAIL: slices of the text.
#[derive(Clone, Copy)]
pub(crate) struct MailParameters<'a> {
    pub(crate) ret: Option<Ret>,
    pub(crate) envid: Option<&'a [u8]>,
}

/// The parameters of RCPT: slices of the text.
#[derive(Clone, Copy)]
pub(crate) struct RcptParameters<'a> {
    pub(crate) notify: Option<Notify>,
    pub(crate) orcpt: Option<&'a [u8]>,
}

/// Reads what is after the path of MAIL.
#[tactic(auto, unfolding(crate::specs::Parameters::mail_parameters_of))]
pub(crate) fn read_mail_parameters(text: &[u8]) -> Result<MailParameters<'_>, EnvelopeFault>
    ensures { mail_answer result ≡ mail_parameters_of text.now }
{
    let mut given = MailParameters {
        ret: None,
        envid: None,
    };
    let mut rest = text;
    while let Some((word, after)) = first_part(b' ', rest) {
        given = with_mail_parameter(given, word)?;
        rest = after;
    }
    with_mail_parameter(given, rest)
}

/// Reads what is after the path of RCPT.
#[tactic(auto, unfolding(crate::specs::Parameters::rcpt_parameters_of))]
pub(crate) fn read_rcpt_parameters(text: &[u8]) -> Result<RcptParameters<'_>, EnvelopeFault>
    ensures { rcpt_answer result ≡ rcpt_parameters_of text.now }
{
    let mut given = RcptParameters {
        notify: None,
        orcpt: None,
    };
    let mut rest = text;
    while let Some((word, after)) = first_part(b' ', rest) {
        given = with_rcpt_parameter(given, word)?;
        rest = after;
    }
    with_rcpt_parameter(given, rest)
}

/// Returns the parameters of MAIL with a further one.
#[tactic(auto, unfolding(crate::specs::Parameters::with_mail_parameter))]
fn with_mail_parameter<'a>(
    old: MailParameters<'a>,
    word: &'a [u8],
) -> Result<MailParameters<'a>, EnvelopeFault>
    ensures { mail_answer result ≡ with_mail_parameter word.now (mail_value old.entry) }
{
    if word.is_empty() {
        return Ok(old);
    }
    let (keyword, value) = keyword_and_value(word);
    if is_word(keyword, b"RET") {
        with_ret(old, value)
    } else if is_word(keyword, b"ENVID") {
        with_envid(old, value)
    } else {
        Err(EnvelopeFault::UnknownParameter)
    }
}

/// Returns the parameters of RCPT with a further one.
#[tactic(auto, unfolding(crate::specs::Parameters::with_rcpt_parameter))]
fn with_rcpt_parameter<'a>(
    old: RcptParameters<'a>,
    word: &'a [u8],
) -> Result<RcptParameters<'a>, EnvelopeFault>
    ensures { rcpt_answer result ≡ with_rcpt_parameter word.now (rcpt_value old.entry) }
{
    if word.is_empty() {
        return Ok(old);
    }
    let (keyword, value) = keyword_and_value(word);
    if is_word(keyword, b"NOTIFY") {
        with_notify(old, value)
    } else if is_word(keyword, b"ORCPT") {
        with_orcpt(old, value)
    } else {
        Err(EnvelopeFault::UnknownParameter)
    }
}

fn with_ret<'a>(old: MailParameters<'a>, value: &[u8]) -> Result<MailParameters<'a>, EnvelopeFault>
    ensures { mail_answer result ≡ with_ret value.now (mail_value old.entry) }
{
    if old.ret.is_some() {
        return Err(EnvelopeFault::Repeated);
    }
    match ret_of(value) {
        Some(ret) => Ok(MailParameters {
            ret: Some(ret),
            envid: old.envid,
        }),
        None => Err(EnvelopeFault::BadValue),
    }
}

fn with_envid<'a>(
    old: MailParameters<'a>,
    value: &'a [u8],
) -> Result<MailParameters<'a>, EnvelopeFault>
    ensures { mail_answer result ≡ with_envid value.now (mail_value old.entry) }
{
    if old.envid.is_some() {
        Err(EnvelopeFault::Repeated)
    } else if is_envid(value) {
        Ok(MailParameters {
            ret: old.ret,
            envid: Some(value),
        })
    } else {
        Err(EnvelopeFault::BadValue)
    }
}

fn with_notify<'a>(
    old: RcptParameters<'a>,
    value: &[u8],
) -> Result<RcptParameters<'a>, EnvelopeFault>
    ensures { rcpt_answer result ≡ with_notify value.now (rcpt_value old.entry) }
{
    if old.notify.is_some() {
        return Err(EnvelopeFault::Repeated);
    }
    match notify_of(value) {
        Some(notify) => Ok(RcptParameters {
            notify: Some(notify),
            orcpt: old.orcpt,
        }),
        None => Err(EnvelopeFault::BadValue),
    }
}

fn with_orcpt<'a>(
    old: RcptParameters<'a>,
    value: &'a [u8],
) -> Result<RcptParameters<'a>, EnvelopeFault>
    ensures { rcpt_answer result ≡ with_orcpt value.now (rcpt_value old.entry) }
{
    if old.orcpt.is_some() {
        Err(EnvelopeFault::Repeated)
    } else if is_orcpt(value) {
        Ok(RcptParameters {
            notify: old.notify,
            orcpt: Some(value),
        })
    } else {
        Err(EnvelopeFault::BadValue)
    }
}

/// Returns the value of RET, in any letter case.
#[tactic(auto, unfolding(crate::specs::Parameters::ret_of))]
fn ret_of(value: &[u8]) -> Option<Ret>
    ensures { result ≡ ret_of value.now }
{
    if is_word(value, b"FULL") {
        Some(Ret::Full)
    } else if is_word(value, b"HDRS") {
        Some(Ret::Hdrs)
    } else {
        None
    }
}

/// Returns the value of NOTIFY: NEVER, or a list of outcomes, each at most once.
#[tactic(auto, unfolding(crate::specs::Parameters::notify_of))]
fn notify_of(value: &[u8]) -> Option<Notify>
    ensures { result ≡ notify_of value.now }
{
    if is_word(value, b"NEVER") {
        return Some(Notify::Never);
    }
    match outcomes_of(value) {
        Some(outcomes) => Some(Notify::On(outcomes)),
        None => None,
    }
}

/// Returns the outcomes of a list, each at most once.
fn outcomes_of(value: &[u8]) -> Option<Outcomes>
    ensures { result ≡ with_outcomes (slice_split (is_octet 44) value.now) no_outcomes }
{
    let mut outcomes = Outcomes {
        success: false,
        failure: false,
        delay: false,
    };
    let mut rest = value;
    while let Some((word, after)) = first_part(b',', rest) {
        outcomes = with_outcome(outcomes, word)?;
        rest = after;
    }
    with_outcome(outcomes, rest)
}

/// Returns the outcomes with a further one that isn't among them.
#[tactic(auto, unfolding(crate::specs::Parameters::with_outcome))]
fn with_outcome(old: Outcomes, word: &[u8]) -> Option<Outcomes>
    ensures { result ≡ with_outcome word.now old }
{
    if is_word(word, b"SUCCESS") {
        if old.success {
            None
        } else {
            Some(Outcomes {
                success: true,
                failure: old.failure,
                delay: old.delay,
            })
        }
    } else if is_word(word, b"FAILURE") {
        if old.failure {
            None
        } else {
            Some(Outcomes {
                success: old.success,
                failure: true,
                delay: old.delay,
            })
        }
    } else if is_word(word, b"DELAY") {
        if old.delay {
            None
        } else {
            Some(Outcomes {
                success: old.success,
                failure: old.failure,
                delay: true,
            })
        }
    } else {
        None
    }
}
