//! Laws of envelopes that may be stored, whoever writes and reads them.
ghost use Rattle.relay_envelope.specs.Envelope.{ReversePathIsForward, MailIsReadAgain, RcptIsReadAgain};
ghost use Rattle.relay_envelope.specs.Envelope.{ReadMailIsValid, ReadRcptIsValid, MailIsCommandLine, RcptIsCommandLine};

/// A reverse path that isn't `<>` is a forward path.
pub fn reverse_path_is_forward()
    ensures { ReversePathIsForward }
{}

/// What is written of an envelope that may be stored is read again as the same.
pub fn mail_is_read_again()
    ensures { MailIsReadAgain }
{}

/// What is written of a recipient that may be stored is read again as the same.
pub fn rcpt_is_read_again()
    ensures { RcptIsReadAgain }
{}

/// What a MAIL said may be stored.
pub fn read_mail_is_valid()
    ensures { ReadMailIsValid }
{}

/// What a RCPT said may be stored.
pub fn read_rcpt_is_valid()
    ensures { ReadRcptIsValid }
{}

/// The line of MAIL that is written of an envelope that may be stored is one of that MAIL, with its parameters and with
/// none.
pub fn mail_is_command_line()
    ensures { MailIsCommandLine }
{}

/// The line of RCPT that is written of a recipient that may be stored is one of that RCPT, with its parameters and with
/// none.
pub fn rcpt_is_command_line()
    ensures { RcptIsCommandLine }
{}
