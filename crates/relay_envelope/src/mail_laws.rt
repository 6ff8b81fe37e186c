//! Laws of the texts of MAIL and RCPT, whoever reads them.
ghost use Rattle.relay_envelope.specs.Mail.{MailIsOne, MailIsSome, RcptIsOne, RcptIsSome};

/// A text of MAIL has no two values or faults.
pub fn mail_is_one()
    ensures { MailIsOne }
{}

/// A text of RCPT has no two values or faults.
pub fn rcpt_is_one()
    ensures { RcptIsOne }
{}

/// No text of MAIL is without a value or a fault.
pub fn mail_is_some()
    ensures { MailIsSome }
{}

/// No text of RCPT is without a value or a fault.
pub fn rcpt_is_some()
    ensures { RcptIsSome }
{}
