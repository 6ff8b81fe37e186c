//! Laws of command lines, whoever reads them.
ghost use Rattle.relay_lines.specs.Word.{AddressLiteralIsTested, HostWordIsTested};
ghost use Rattle.relay_lines.specs.WrittenCommand.{WrittenCommandIsRead};
ghost use Rattle.relay_lines.specs.Command.{EveryLineSplits, SplitIsOne, ReadingIsOfWords, ReadingIsOfSpelling};
ghost use Rattle.relay_lines.specs.Command.{BadByteIsFound, UnknownIsFound, BadArgumentIsFound, NotOfferedIsFound};
ghost use Rattle.relay_lines.specs.Command.{BadChunkSizeIsFound, LetterCaseIsFree, CommandHasNoCrlf};

/// A line has a word and an argument.
pub fn every_line_splits()
    ensures { EveryLineSplits }
{}

/// A line has no other word and no other argument.
pub fn split_is_one()
    ensures { SplitIsOne }
{}

/// A line is read as its word and its argument, whatever spaces are between and after them.
pub fn reading_is_of_words()
    ensures { ReadingIsOfWords }
{}

/// What is read is spelled so, and what is spelled so is read.
pub fn reading_is_of_spelling()
    ensures { ReadingIsOfSpelling }
{}

/// A bad octet is found exactly if the word isn't BDAT, and it or the argument holds one.
pub fn bad_byte_is_found()
    ensures { BadByteIsFound }
{}

/// A line is unknown exactly if it is printable and its word is no verb.
pub fn unknown_is_found()
    ensures { UnknownIsFound }
{}

/// An argument is bad exactly if the line is printable, its word is a verb that is offered but not BDAT, and the two
/// spell no command.
pub fn bad_argument_is_found()
    ensures { BadArgumentIsFound }
{}

/// A verb isn't offered exactly if the line is printable, and its word is EXPN or TURN.
pub fn not_offered_is_found()
    ensures { NotOfferedIsFound }
{}

/// A bad chunk size is found exactly if the word is BDAT, and the argument spells no chunk.
pub fn bad_chunk_size_is_found()
    ensures { BadChunkSizeIsFound }
{}

/// The letter case of a verb doesn't matter.
pub fn letter_case_is_free()
    ensures { LetterCaseIsFree }
{}

/// A line that is read as a command has no CR LF in it.
pub fn command_has_no_crlf()
    ensures { CommandHasNoCrlf }
{}

/// What a client writes of a command is read as that command, has no CR LF in it, and is no longer
/// than a line may be.
pub fn written_command_is_read()
    ensures { WrittenCommandIsRead }
{}

/// The test for an address literal passes exactly if the text is one.
pub fn address_literal_is_tested()
    ensures { AddressLiteralIsTested }
{}

/// The test for a host word passes exactly if the text is one.
pub fn host_word_is_tested()
    ensures { HostWordIsTested }
{}
