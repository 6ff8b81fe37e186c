//! The text after the colon of `RCPT TO:` (RFC 5321, section 4.1.1.3).
ghost use Rattle.std.specs.Prelude.{◌≡◌};
ghost use Rattle.relay_envelope.specs.Path.{value_of, is_forward as forward};
ghost use Rattle.relay_envelope.specs.Parameters.{rcpt_parameters_of};
ghost use Rattle.relay_envelope.specs.Mail.{ReadsRcpt, rcpt_of, rcpt_reading};

use crate::fault::EnvelopeFault;
use crate::parameters::{Notify, read_rcpt_parameters};
use crate::path::{Path, begin_path};

/// The values of RCPT, as slices of the text.
#[derive(Clone, Copy, Debug)]
pub struct Rcpt<'a> {
    /// The forward path: the postmaster's, or a mailbox.
    pub path: Path<'a>,
    /// When to report, if given.
    pub notify: Option<Notify>,
    /// ORCPT as it was written, if given: at most 500 octets, a type, `;` and xtext, which stands for printable octets.
    pub orcpt: Option<&'a [u8]>,
}

/// Reads the text after the colon of `RCPT TO:`. Allocates nothing.
pub fn read_rcpt(text: &[u8]) -> Result<Rcpt<'_>, EnvelopeFault>
    ensures { ReadsRcpt text.now (rcpt_reading result) }
{
    let Some((path, rest)) = begin_path(text) else {
        return Err(EnvelopeFault::BadPath);
    };
    if !is_forward(&path) {
        return Err(EnvelopeFault::BadPath);
    }
    after_path(path, rest)
}

/// Returns the path with the parameters that follow it.
fn after_path<'a>(path: Path<'a>, rest: &'a [u8]) -> Result<Rcpt<'a>, EnvelopeFault>
    ensures { rcpt_reading result ≡ rcpt_of (value_of path.entry) (rcpt_parameters_of rest.now) }
{
    match read_rcpt_parameters(rest) {
        Ok(given) => Ok(Rcpt {
            path,
            notify: given.notify,
            orcpt: given.orcpt,
        }),
        Err(fault) => Err(fault),
    }
}

/// Returns whether RCPT may have this path.
fn is_forward(path: &Path<'_>) -> bool
    ensures { result ≡ forward (value_of path.now) }
{
    match path {
        Path::Null => false,
        Path::Postmaster(_) => true,
        Path::Mailbox(_) => true,
    }
}
