//! Laws of lines (RFC 5321, section 2.3.8).
ghost use Rattle.relay_octets.specs.Line.{FirstLineIsOne, FirstLineStays, CrlfIsTested, NoCrIsNoCrlf, JoinHasNoCrlf};

/// A stream has at most one first line.
pub fn first_line_is_one()
    ensures { FirstLineIsOne }
{}

/// Octets added to a stream don't change its first line.
pub fn first_line_stays()
    ensures { FirstLineStays }
{}

/// The test for CR LF fails exactly if the octets have none.
pub fn crlf_is_tested()
    ensures { CrlfIsTested }
{}

/// Octets without a CR have no CR LF. They are given as octets that all pass a test which a CR fails.
pub fn no_cr_is_no_crlf()
    ensures { NoCrIsNoCrlf }
{}

/// Joined octets have no CR LF exactly if neither part has one and none spans the seam.
pub fn join_has_no_crlf()
    ensures { JoinHasNoCrlf }
{}
