//! Laws of requests, whoever reads them.
ghost use Rattle.relay_control.specs.HeldFile.{HeldReadsBack};
ghost use Rattle.relay_control.specs.Laws.{RequestIsOne, RequestIsRead, RequestIsShort};

/// A line asks for one thing.
pub fn request_is_one()
    ensures { RequestIsOne }
{}

/// What a caller writes is read as what it asks for, whatever follows its line.
pub fn request_is_read()
    ensures { RequestIsRead }
{}

/// A request has at most 271 octets, so its line fits the 4,096 that are read. One that names recipients has at most 8,
/// 21 more for each message and 3 more for each place: whoever writes it keeps its line within 4,096 octets.
pub fn request_is_short()
    ensures { RequestIsShort }
{}

/// What was written of held mail is read as the same mail.
pub fn held_reads_back()
    ensures { HeldReadsBack }
{}
