//! Laws of headers, whoever reads them.
ghost use Rattle.relay_proxy.specs.Laws.{ClientBlockIsHeader, ClientLineIsHeader, FrontIsUnfinished, HeaderIsAll};
ghost use Rattle.relay_proxy.specs.Laws.{HeaderIsBounded, HeaderIsFinished, HeaderIsOne, HeaderIsRead};

/// No header begins another one: of two with which the same octets begin, each is the other, and says the same.
pub fn header_is_one()
    ensures { HeaderIsOne }
{}

/// A header has 13 to 536 octets.
pub fn header_is_bounded()
    ensures { HeaderIsBounded }
{}

/// Where a header stands no more octets are waited for.
pub fn header_is_finished()
    ensures { HeaderIsFinished }
{}

/// Octets with which a header begins, and that lack some of it, are waited for.
pub fn front_is_unfinished()
    ensures { FrontIsUnfinished }
{}

/// A header is read, whatever follows it.
pub fn header_is_read()
    ensures { HeaderIsRead }
{}

/// Where no more octets are read than [`Unfinished`](crate::Reading::Unfinished) says are missing, a header that stands
/// then is all that was read: nothing after it was.
pub fn header_is_all()
    ensures { HeaderIsAll }
{}

/// What a proxy writes in version 1 is a header that says so.
pub fn client_line_is_header()
    ensures { ClientLineIsHeader }
{}

/// What a proxy writes in version 2 is a header that says so, whatever 508 octets at most follow the addresses.
pub fn client_block_is_header()
    ensures { ClientBlockIsHeader }
{}
