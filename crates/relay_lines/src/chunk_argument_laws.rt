//! Laws of the argument of BDAT, whoever reads it.
ghost use Rattle.relay_lines.specs.ChunkArgument.{BdatArgumentIsOfSpelling, BdatBeginningIsTested, DecimalIsChunkSize};
ghost use Rattle.relay_lines.specs.ChunkArgument.{ElevenDigitsAreTooMany, LeadingZeroSaysNothing, OneBdatArgument};

/// What is read is spelled so, and what is spelled so is read.
pub fn bdat_argument_is_of_spelling()
    ensures { BdatArgumentIsOfSpelling }
{}

/// A text spells one argument at most.
pub fn one_bdat_argument()
    ensures { OneBdatArgument }
{}

/// A text that begins with more than 10 digits spells no argument.
pub fn eleven_digits_are_too_many()
    ensures { ElevenDigitsAreTooMany }
{}

/// A zero before the digits of a chunk-size changes nothing.
pub fn leading_zero_says_nothing()
    ensures { LeadingZeroSaysNothing }
{}

/// The decimal of a number of 32 bits is read as that chunk-size.
pub fn decimal_is_chunk_size()
    ensures { DecimalIsChunkSize }
{}

/// The test for BDAT passes exactly if a line begins with it.
pub fn bdat_beginning_is_tested()
    ensures { BdatBeginningIsTested }
{}
