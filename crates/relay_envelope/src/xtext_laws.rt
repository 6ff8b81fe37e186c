//! Laws of xtext, whoever reads it.
ghost use Rattle.relay_envelope.specs.Xtext.{DecodedIsSpelled, EncodedIsDecoded};

/// A text stands for octets exactly if it spells them.
pub fn decoded_is_spelled()
    ensures { DecodedIsSpelled }
{}

/// What is encoded stands for the octets that it was made of.
pub fn encoded_is_decoded()
    ensures { EncodedIsDecoded }
{}
