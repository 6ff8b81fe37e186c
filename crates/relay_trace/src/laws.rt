//! Laws of dates, header sections and time stamp lines.
ghost use Rattle.relay_trace.specs.DateTime.{DateTextHas31Octets, DateTextIsOne, DateTextTellsMoment};
ghost use Rattle.relay_trace.specs.DateTime.{LastSecondIsShown};
ghost use Rattle.relay_trace.specs.DateLine.{DateTextHasNoCrlf};
ghost use Rattle.relay_trace.specs.HeaderSection.{HeaderEndsAtEmptyLine, HeaderEndsWithText, HeaderGoesOn, LinesAreOne};
ghost use Rattle.relay_trace.specs.HeaderSection.{ReceivedIsTested};
ghost use Rattle.relay_trace.specs.TimeStamp.{PassingAddsOne, PassingKeepsHeader, TimeStampIsOne, TimeStampIsOneField};
ghost use Rattle.relay_trace.specs.TimeStamp.{TimeStampIsShort};

/// A time has one date text.
pub fn date_text_is_one()
    ensures { DateTextIsOne }
{}

/// Two times with the same date text are the same.
pub fn date_text_tells_moment()
    ensures { DateTextTellsMoment }
{}

/// A date text has 31 octets.
pub fn date_text_has_31_octets()
    ensures { DateTextHas31Octets }
{}

/// A date text has no CR LF.
pub fn date_text_has_no_crlf()
    ensures { DateTextHasNoCrlf }
{}

/// The last time is 31 December 9998, 23:59:59.
pub fn last_second_is_shown()
    ensures { LastSecondIsShown }
{}

/// A text splits into lines in one way.
pub fn lines_are_one()
    ensures { LinesAreOne }
{}

/// A line counts as a `Received:` field exactly if it begins with that, in any letter case.
pub fn received_is_tested()
    ensures { ReceivedIsTested }
{}

/// A line which isn't empty continues the header section.
pub fn header_goes_on()
    ensures { HeaderGoesOn }
{}

/// An empty line ends the header section.
pub fn header_ends_at_empty_line()
    ensures { HeaderEndsAtEmptyLine }
{}

/// Octets after the last CR LF are a line of the header section too.
pub fn header_ends_with_text()
    ensures { HeaderEndsWithText }
{}

/// A time stamp has one line.
pub fn time_stamp_is_one()
    ensures { TimeStampIsOne }
{}

/// A time stamp line has no empty line in it, and is one `Received:` field.
pub fn time_stamp_is_one_field()
    ensures { TimeStampIsOneField }
{}

/// A time stamp line has at most 113 octets beside the client's word and the host's name.
pub fn time_stamp_is_short()
    ensures { TimeStampIsShort }
{}

/// A text with its time stamp line has one `Received:` field more than its content.
pub fn passing_adds_one()
    ensures { PassingAddsOne }
{}

/// The header section of such a text is the time stamp line and the content's header section.
pub fn passing_keeps_header()
    ensures { PassingKeepsHeader }
{}
