//! Laws of the parameters of MAIL and RCPT, whoever reads them: nothing here speaks of an order of reading.
ghost use Rattle.relay_envelope.specs.ParameterRow.{MailRowIsRead, MailRowSaysOne, RcptRowIsRead, RcptRowSaysOne};
ghost use Rattle.relay_envelope.specs.ParameterRow.{TextIsRow};

/// After a path of MAIL each keyword stands once at most, with the value that is read of it, or the first faulty word
/// fixes the fault.
pub fn mail_row_is_read()
    ensures { MailRowIsRead }
{}

/// The same after a path of RCPT.
pub fn rcpt_row_is_read()
    ensures { RcptRowIsRead }
{}

/// A row of MAIL says one thing: its values, or one fault.
pub fn mail_row_says_one()
    ensures { MailRowSaysOne }
{}

/// A row of RCPT says one thing.
pub fn rcpt_row_says_one()
    ensures { RcptRowSaysOne }
{}

/// Each text is a row of words with a space between each two.
pub fn text_is_row()
    ensures { TextIsRow }
{}
