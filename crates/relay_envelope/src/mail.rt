//! The text after the colon of `MAIL FROM:` (RFC 5321, section 4.1.1.2).
ghost use Rattle.std.specs.Prelude.{◌≡◌};
ghost use Rattle.relay_envelope.specs.Path.{value_of, is_reverse as reverse};
ghost use Rattle.relay_envelope.specs.Parameters.{mail_parameters_of};
ghost use Rattle.relay_envelope.specs.Mail.{ReadsMail, mail_of, mail_reading};

use crate::fault::EnvelopeFault;
use crate::parameters::{Ret, read_mail_parameters};
use crate::path::{Path, begin_path};

/// The values of MAIL, as slices of the text.
#[derive(Clone, Copy, Debug)]
pub struct Mail<'a> {
    /// Where reports go: `<>` for none, or a mailbox.
    pub reverse_path: Path<'a>,
    /// How much of the message a report returns, if given.
    pub ret: Option<Ret>,
    /// ENVID as it was written, if given: xtext of 1 to 100 octets, which stands for printable ones.
    pub envid: Option<&'a [u8]>,
}

/// Reads the text after the colon of `MAIL FROM:`. Allocates nothing.
pub fn read_mail(text: &[u8]) -> Result<Mail<'_>, EnvelopeFault>
    ensures { ReadsMail text.now (mail_reading result) }
{
    let Some((path, rest)) = begin_path(text) else {
        return Err(EnvelopeFault::BadPath);
    };
    if !is_reverse(&path) {
        return Err(EnvelopeFault::BadPath);
    }
    after_path(path, rest)
}

/// Returns the path with the parameters that follow it.
fn after_path<'a>(path: Path<'a>, rest: &'a [u8]) -> Result<Mail<'a>, EnvelopeFault>
    ensures { mail_reading result ≡ mail_of (value_of path.entry) (mail_parameters_of rest.now) }
{
    match read_mail_parameters(rest) {
        Ok(given) => Ok(Mail {
            reverse_path: path,
            ret: given.ret,
            envid: given.envid,
        }),
        Err(fault) => Err(fault),
    }
}

/// Returns whether MAIL may have this path.
fn is_reverse(path: &Path<'_>) -> bool
    ensures { result ≡ reverse (value_of path.now) }
{
    match path {
        Path::Null => true,
        Path::Postmaster(_) => false,
        Path::Mailbox(_) => true,
    }
}
