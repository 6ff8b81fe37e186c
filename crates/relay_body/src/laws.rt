//! Laws of dot texts and of bare line ends, whoever reads or writes them.
ghost use Rattle.relay_body.specs.BareEnds.{BareEndIsSeen};
ghost use Rattle.relay_body.specs.DotLaws.{ContentEndsInLineEnd, EachContentIsWritten, HoldsWithinLimit, LineEndIsSeen};
ghost use Rattle.relay_body.specs.DotLaws.{NoTextBeginsAnother, NoTextIsEmpty, OneContent, OneText};
ghost use Rattle.relay_body.specs.DotLaws.{ReadingHasNoDotText, ReadingIsOpen, SeenIsLineEnd, WrittenIsRead};

/// A text has one content.
pub fn one_content()
    ensures { OneContent }
{}

/// No dot text begins another.
pub fn no_text_begins_another()
    ensures { NoTextBeginsAnother }
{}

/// What is written is read.
pub fn written_is_read()
    ensures { WrittenIsRead }
{}

/// A content has one text.
pub fn one_text()
    ensures { OneText }
{}

/// Each content that is empty or ends in CR LF can be written.
pub fn each_content_is_written()
    ensures { EachContentIsWritten }
{}

/// Each content that is read is empty or ends in CR LF.
pub fn content_ends_in_line_end()
    ensures { ContentEndsInLineEnd }
{}

/// A reader that isn't done has used no whole dot text.
pub fn reading_has_no_dot_text()
    ensures { ReadingHasNoDotText }
{}

/// A reader that reads on is neither done nor has it failed.
pub fn reading_is_open()
    ensures { ReadingIsOpen }
{}

/// No dot text is empty.
pub fn no_text_is_empty()
    ensures { NoTextIsEmpty }
{}

/// The test for a final CR LF passes for no octets, and for octets that end in CR LF.
pub fn line_end_is_seen()
    ensures { LineEndIsSeen }
{}

/// The test for a final CR LF passes for nothing else.
pub fn seen_is_line_end()
    ensures { SeenIsLineEnd }
{}

/// A reader holds no more octets of content than its limit.
pub fn holds_within_limit()
    ensures { HoldsWithinLimit }
{}

/// Octets have no bare CR or LF exactly if they are lines that each end in CR LF, and a rest with neither.
pub fn bare_end_is_seen()
    ensures { BareEndIsSeen }
{}
