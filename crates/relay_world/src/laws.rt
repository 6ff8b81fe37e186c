//! What the invariant of two relays guarantees for their mail, and that each event preserves it.
ghost use Rattle.relay_world.specs.Content.{ContentIsKept};
ghost use Rattle.relay_world.specs.Custody.{AcceptedIsAcknowledged, AcknowledgedIsAccepted, AnsweredIsAcknowledged};
ghost use Rattle.relay_world.specs.Custody.{CustodyIsKept};
ghost use Rattle.relay_world.specs.HangUp.{HangingUpEnds, HangingUpKeeps};
ghost use Rattle.relay_world.specs.Stops.{DownIsNotRefused, ReopeningKeeps, StayingDownKeeps, StayingUpKeeps};
ghost use Rattle.relay_world.specs.Stops.{StoppingGivingUpKeeps, StoppingHearingKeeps, StoppingKeeps};
ghost use Rattle.relay_world.specs.Stops.{StoppingLosingKeeps, StoppingReadingKeeps};
ghost use Rattle.relay_world.specs.Steps.{BreakingKeeps, CuttingOffKeeps, DroppingKeeps, EndingKeeps, GivingUpKeeps};
ghost use Rattle.relay_world.specs.Steps.{HearingKeeps, LosingKeeps, OpeningKeeps, ReadingKeeps, StartingKeeps};
ghost use Rattle.relay_world.specs.Steps.{TickingKeeps, WritingKeeps};
ghost use Rattle.relay_world.specs.Crashes.{CrashingInHearingKeeps, CrashingInLosingKeeps, CrashingInReadingKeeps};
ghost use Rattle.relay_world.specs.Groups.{HearingAllKeeps, ReopeningAfterGroupKeeps};

use relay_disk::Disk;

/// Each recipient that a node acknowledged is held, was taken by its next hop, or has ended for a cause with its
/// report.
pub fn custody_is_kept<D: Disk>()
    ensures { CustodyIsKept D.honest D.words }
{}

/// Each message that a node has acknowledged on a link it has accepted there.
pub fn acknowledged_is_accepted<D: Disk>()
    ensures { AcknowledgedIsAccepted D.honest D.words }
{}

/// Each message whose answer a node has written on a link, broken or not, it has acknowledged there.
pub fn answered_is_acknowledged<D: Disk>()
    ensures { AnsweredIsAcknowledged D }
{}

/// Each message that a node has accepted on an unbroken link it has acknowledged there.
pub fn accepted_is_acknowledged<D: Disk>()
    ensures { AcceptedIsAcknowledged D.honest D.words }
{}

/// As mail data an attempt writes the stored text and nothing else, and the next node stores it after one new time
/// stamp line.
pub fn content_is_kept<D: Disk>()
    ensures { ContentIsKept D.honest D.words }
{}

/// Opening a link from outside to a node preserves the invariant.
pub fn opening_keeps<D: Disk>()
    ensures { OpeningKeeps D.honest D.words }
{}

/// Writing octets from outside on a link preserves the invariant.
pub fn writing_keeps<D: Disk>()
    ensures { WritingKeeps D.honest D.words }
{}

/// Hearing octets of a client preserves the invariant; accepted mail adds one change.
pub fn hearing_keeps<D: Disk>()
    ensures { HearingKeeps D.honest D.words }
{}

/// Hearing octets on several links and reading replies of several attempts, whose records then go to the spool
/// together, preserves the invariant; each accept and each outcome adds one change.
pub fn hearing_all_keeps<D: Disk>()
    ensures { HearingAllKeeps D.honest D.words }
{}

/// Ending a session preserves the invariant.
pub fn ending_keeps<D: Disk>()
    ensures { EndingKeeps D.honest D.words }
{}

/// Cutting a session off with one last reply preserves the invariant.
pub fn cutting_off_keeps<D: Disk>()
    ensures { CuttingOffKeeps D.honest D.words }
{}

/// Beginning an attempt on a link preserves the invariant.
pub fn starting_keeps<D: Disk>()
    ensures { StartingKeeps D.honest D.words }
{}

/// Reading replies in an attempt preserves the invariant; if they end it, its outcome adds one change.
pub fn reading_keeps<D: Disk>()
    ensures { ReadingKeeps D.honest D.words }
{}

/// Losing the link of an attempt preserves the invariant; the outcome adds one change.
pub fn losing_keeps<D: Disk>()
    ensures { LosingKeeps D.honest D.words }
{}

/// Dropping an attempt preserves the invariant.
pub fn dropping_keeps<D: Disk>()
    ensures { DroppingKeeps D.honest D.words }
{}

/// Breaking a link on which nothing goes on preserves the invariant.
pub fn breaking_keeps<D: Disk>()
    ensures { BreakingKeeps D.honest D.words }
{}

/// Giving up places without a hop preserves the invariant; their outcome adds one change.
pub fn giving_up_keeps<D: Disk>()
    ensures { GivingUpKeeps D.honest D.words }
{}

/// Setting the clock preserves the invariant.
pub fn ticking_keeps<D: Disk>()
    ensures { TickingKeeps D.honest D.words }
{}

/// A node that stays up and keeps its changes preserves the invariant.
pub fn staying_up_keeps<D: Disk>()
    ensures { StayingUpKeeps D.honest D.words }
{}

/// Stopping a node between two calls preserves the invariant.
pub fn stopping_keeps<D: Disk>()
    ensures { StoppingKeeps D.honest D.words }
{}

/// Stopping a node while it adds an accept preserves the invariant: the next opening decides whether the accept is
/// there.
pub fn stopping_hearing_keeps<D: Disk>()
    ensures { StoppingHearingKeeps D.honest D.words }
{}

/// Stopping a node while it adds the outcome of an attempt that replies ended preserves the invariant.
pub fn stopping_reading_keeps<D: Disk>()
    ensures { StoppingReadingKeeps D.honest D.words }
{}

/// Stopping a node while it adds the outcome of an attempt whose link was lost preserves the invariant.
pub fn stopping_losing_keeps<D: Disk>()
    ensures { StoppingLosingKeeps D.honest D.words }
{}

/// Stopping a node while it gives up places without a hop preserves the invariant.
pub fn stopping_giving_up_keeps<D: Disk>()
    ensures { StoppingGivingUpKeeps D.honest D.words }
{}

/// A node that is down, and whose disks aren't opened, preserves the invariant.
pub fn staying_down_keeps<D: Disk>()
    ensures { StayingDownKeeps D.honest D.words }
{}

/// Opening a node again on honest disks preserves the invariant, with or without the undecided change.
pub fn reopening_keeps<D: Disk>()
    ensures { D.honest → ReopeningKeeps D.honest D.words }
{}

/// Opening a node on honest disks after a stop that came while several records went to its spool together preserves the
/// invariant, with all of them or none.
pub fn reopening_after_group_keeps<D: Disk>()
    ensures { D.honest → ReopeningAfterGroupKeeps D.honest D.words }
{}

/// A node that is down is never refused because of the octets of its disks, if they are honest.
pub fn down_is_not_refused<D: Disk>()
    ensures { D.honest → DownIsNotRefused D.honest D.words }
{}

/// Ending sessions of a node and dropping attempts of it, several at once, preserves the invariant.
pub fn hanging_up_keeps<D: Disk>()
    ensures { HangingUpKeeps D.honest D.words }
{}

/// A node whose sessions have all ended, and whose attempts are all dropped, has no session and no running attempt.
pub fn hanging_up_ends<D: Disk>()
    ensures { HangingUpEnds D }
{}

/// Crashing in a call that hears octets preserves the invariant, while other attempts still run on the node's links.
pub fn crashing_in_hearing_keeps<D: Disk>()
    ensures { CrashingInHearingKeeps D.honest D.words }
{}

/// Crashing in a call that reads replies preserves the invariant.
pub fn crashing_in_reading_keeps<D: Disk>()
    ensures { CrashingInReadingKeeps D.honest D.words }
{}

/// Crashing in a call that reports a lost link preserves the invariant.
pub fn crashing_in_losing_keeps<D: Disk>()
    ensures { CrashingInLosingKeeps D.honest D.words }
{}
