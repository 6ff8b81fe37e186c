//! Laws of a relay's connections, whatever calls are made.
ghost use Rattle.relay_loop.specs.Called.{CallsAreAmong, CallsFollow, NothingIsNoCall, OneIsCalled};
ghost use Rattle.relay_loop.specs.Closing.{ClosingIsReply};
ghost use Rattle.relay_loop.specs.GroupHopLaws.{GroupsHand, GroupsLeaveHops};
ghost use Rattle.relay_loop.specs.GroupLaws.{GroupsTalk};
ghost use Rattle.relay_loop.specs.Laws.{HandsStay, OthersHand};
ghost use Rattle.relay_loop.specs.Laws.{OthersTalk, QueuedAreAccepted, TalksAreDialogues, TalksStay};

use relay_disk::Disk;

/// The exchange with a client is a dialogue, and what was written to the client is a prefix of its output.
pub fn talks_are_dialogues<D>()
    ensures { TalksAreDialogues D }
{}

/// Each offer of a client that was answered by a number is accepted by the change of that number.
pub fn queued_are_accepted<D>()
    ensures { QueuedAreAccepted D }
{}

/// A client's exchange goes on unchanged while changes are added, as long as its session and its connection are the
/// same.
pub fn talks_stay<D>()
    ensures { TalksStay D }
{}

/// A call on a session, or on an attempt, changes nothing in the exchanges with all other clients.
pub fn others_talk<D>()
    ensures { OthersTalk D }
{}

/// The relaying to a next hop goes on unchanged while changes are added, as long as its attempt and its connection are
/// the same.
pub fn hands_stay<D>()
    ensures { HandsStay D }
{}

/// A call on an attempt, or on a session, changes nothing in the relaying to all other next hops.
pub fn others_hand<D>()
    ensures { OthersHand D }
{}

/// After a call on several pieces and replies, each client's exchange goes on, and the used octets follow its input; or
/// its session has closed, and its last octets are handed out; or one of its pieces was refused, and its connection is
/// gone.
pub fn groups_talk<D: Disk>()
    ensures { GroupsTalk D.honest D.words }
{}

/// After such a call, each attempt goes on, and the used octets of its replies follow its input; or it has ended by
/// them, with one outcome among the changes, and its last octets are handed out; or one of its replies was refused, and
/// the attempt and its connection are gone.
pub fn groups_hand<D: Disk>()
    ensures { GroupsHand D.honest D.words }
{}

/// Such a call changes nothing in the relaying to a next hop that has no reply in it.
pub fn groups_leave_hops<D: Disk>()
    ensures { GroupsLeaveHops D.honest D.words }
{}

/// The text with which the relay closes a connection unasked is one reply.
pub fn closing_is_reply()
    ensures { ClosingIsReply }
{}

/// A relay to which nothing was done has no call.
pub fn nothing_is_no_call<D: Disk>()
    ensures { NothingIsNoCall D.honest D.words }
{}

/// A call alone is a list of calls.
pub fn one_is_called<D: Disk>()
    ensures { OneIsCalled D.honest D.words }
{}

/// Calls, and then calls, are calls.
pub fn calls_follow<D: Disk>()
    ensures { CallsFollow D.honest D.words }
{}

/// Calls of a sort are calls of each sort that has them all.
pub fn calls_are_among<D: Disk>()
    ensures { CallsAreAmong D.honest D.words }
{}
