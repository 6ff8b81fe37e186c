//! Laws of reports, whoever writes them.
ghost use Rattle.relay_report.specs.Boundary.{BoundaryIsOne, BoundaryIsThere};
ghost use Rattle.relay_report.specs.Fits.{DueReportFits, ReportIsShort};
ghost use Rattle.relay_report.specs.Lines.{ReportHasNoReceived, ReportHasShortLines, ToldBreaksNoLine};
ghost use Rattle.relay_report.specs.Split.{PartsAreOne, ReportComesApart};

/// A report has at most 2^18 octets beside the stored text.
pub fn report_is_short()
    ensures { ReportIsShort }
{}

/// There is a report exactly if one is due, and it is short enough for the record of an outcome.
pub fn due_report_fits()
    ensures { DueReportFits }
{}

/// Three parts have a boundary, and its number is at most 20 for each of their octets.
pub fn boundary_is_there()
    ensures { BoundaryIsThere }
{}

/// Three parts have one boundary.
pub fn boundary_is_one()
    ensures { BoundaryIsOne }
{}

/// A text has its three parts in one way.
pub fn parts_are_one()
    ensures { PartsAreOne }
{}

/// A report has the three parts that it was made of.
pub fn report_comes_apart()
    ensures { ReportComesApart }
{}

/// Nothing that is filled into a report breaks one of its lines: no CR LF is in a path, an ENVID, an ORCPT, a refusal's
/// text or a name.
pub fn told_breaks_no_line()
    ensures { ToldBreaksNoLine }
{}

/// The header section of a report, its part for people and its delivery status are lines of at most 998 octets, each
/// with its CR LF (RFC 5322, section 2.1.1).
pub fn report_has_short_lines()
    ensures { ReportHasShortLines }
{}

/// A report has no field `Received:` in its header section, so it has crossed no host.
pub fn report_has_no_received()
    ensures { ReportHasNoReceived }
{}
