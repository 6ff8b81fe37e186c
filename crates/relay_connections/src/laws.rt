//! Laws of a relay's clients, whatever calls are made.
ghost use Rattle.relay_connections.specs.Arrivals.{ClientsFollowHeaders, ReadsAreOne};
ghost use Rattle.relay_connections.specs.Served.{FreeAreServed, LeavesThen, LeftAreServed, NotedAreServed};
ghost use Rattle.relay_connections.specs.Served.{ServedAreMatched, ServedGoesOn};

use crate::stream::Stream;
use relay_disk::Disk;

/// A served client has its session and its connection under its own number, and is the session's peer.
pub fn served_are_matched<S: Stream, D: Disk>()
    ensures { ServedAreMatched D.honest D.words S.remaining S.contents }
{}

/// A new relay serves an empty table of clients.
pub fn free_are_served<S: Stream, D: Disk>()
    ensures { FreeAreServed D.honest D.words S.remaining S.contents }
{}

/// What leaves clients alone leaves them served, after the changes that were added.
pub fn left_are_served<S: Stream, D: Disk>()
    ensures { LeftAreServed D.honest D.words S.remaining S.contents }
{}

/// Calls that leave clients alone leave them alone together.
pub fn leaves_then<D: Disk>()
    ensures { LeavesThen D.honest D.words }
{}

/// Clients that are served after some changes and more are served after the changes.
pub fn served_goes_on<S: Stream, D: Disk>()
    ensures { ServedGoesOn D.honest D.words S.remaining S.contents }
{}

/// Noting readiness doesn't change how clients are served.
pub fn noted_are_served<S: Stream, D: Disk>()
    ensures { NotedAreServed D.honest D.words S.remaining S.contents }
{}

/// A balancer's client comes after the header with which its connection began, and has the address in the header.
pub fn clients_follow_headers<S: Stream>()
    ensures { ClientsFollowHeaders S.remaining S.contents }
{}

/// Several reads of a header are as one, and noting readiness reads nothing.
pub fn reads_are_one<S: Stream>()
    ensures { ReadsAreOne S.remaining S.contents }
{}
