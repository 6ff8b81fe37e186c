//! Laws of the custody of each recipient, by the list of changes.
ghost use Rattle.relay_book.specs.DelayLaw.{DelayIsTold, FoldDelays, LaterReportAlike};
ghost use Rattle.relay_book.specs.DueLaw.{FoldDue, QueueListsDue, QueueTellsDue};
ghost use Rattle.relay_book.specs.HeldLaw.{FoldFinds, QueuedIsHeld};
ghost use Rattle.relay_book.specs.Marks.{ExactlyOne, FoldHolds, FoldKnows, LeavingIsListed, MessageStays, OneMoreHolds};
ghost use Rattle.relay_book.specs.Marks.{QueueLeaves, QueuedMayBeStored, ReportMayBeStored, StepsLeave};

/// The queue of a list of changes holds exactly what is held.
pub fn fold_holds()
    ensures { FoldHolds }
{}

/// A place is held exactly if the queued message of its number holds it.
pub fn fold_finds()
    ensures { FoldFinds }
{}

/// Each added place is exactly one of held, transferred, ended and withdrawn.
pub fn exactly_one()
    ensures { ExactlyOne }
{}

/// One change more takes what leaves, and adds what is new.
pub fn one_more_holds()
    ensures { OneMoreHolds }
{}

/// What leaves of the queue of a list leaves by the list.
pub fn queue_leaves()
    ensures { QueueLeaves }
{}

/// A place leaves by a change exactly if the change lists it.
pub fn leaving_is_listed()
    ensures { LeavingIsListed }
{}

/// A queued message is the message of its number, with a place for each recipient.
pub fn fold_knows()
    ensures { FoldKnows }
{}

/// The due time of each held place is by its acceptance and its Later verdicts.
pub fn fold_due()
    ensures { FoldDue }
{}

/// The queue of a list has a place due at a time exactly if the place is held and the list has it due then.
pub fn queue_tells_due()
    ensures { QueueTellsDue }
{}

/// What the queue of a list has due by a time are the held places that the list has due then, in order.
pub fn queue_lists_due()
    ensures { QueueListsDue }
{}

/// A queued message has a held place.
pub fn queued_is_held()
    ensures { QueuedIsHeld }
{}

/// A message stays what it was accepted as, whatever changes follow.
pub fn message_stays()
    ensures { MessageStays }
{}

/// A report that an outcome queues may be stored as an accept.
pub fn report_may_be_stored()
    ensures { ReportMayBeStored }
{}

/// A queued message may be stored.
pub fn queued_may_be_stored()
    ensures { QueuedMayBeStored }
{}

/// Of what a change makes of places of a queue, what leaves is what leaves of the queue.
pub fn steps_leave()
    ensures { StepsLeave }
{}

/// A held place was reported as delayed exactly if one of the changes has put it off when it was late, and its sender
/// had asked to be told.
pub fn fold_delays()
    ensures { FoldDelays }
{}

/// An outcome tells of a place as delayed exactly if it puts the place off when it is late, and not so late that it
/// fails, its sender had asked to be told, and no change before has put it off so.
pub fn delay_is_told()
    ensures { DelayIsTold }
{}

/// Outcomes of later versions than the first report alike.
pub fn later_report_alike()
    ensures { LaterReportAlike }
{}
