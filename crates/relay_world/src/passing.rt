//! Laws of relaying between two nodes: what one node has recorded of a place is true at its next hop.
ghost use Rattle.relay_world.specs.Causes.{LeavingIsCaused};
ghost use Rattle.relay_world.specs.Chain.{ChainsAreShort};
ghost use Rattle.relay_world.specs.Copies.{CopiesAreFew};
ghost use Rattle.relay_world.specs.CrashRuns.{CompactingHappens, CrashingHappens, CrashingKeepsOnce};
ghost use Rattle.relay_world.specs.CrashRuns.{RestingCrashHappens};
ghost use Rattle.relay_world.specs.Growth.{GrownListsBegin, RunsGrow};
ghost use Rattle.relay_world.specs.Fuses.{OpeningSetsNone, StoppingSetsNone, StopsCountDown};
ghost use Rattle.relay_world.specs.Forbidden.{DroppingBreaks, ForgettingBreaks, LeadingElsewhereBreaks};
ghost use Rattle.relay_world.specs.Forbidden.{LosingOutcomeBreaks, LosingRecordBreaks, LosingRowBreaks};
ghost use Rattle.relay_world.specs.Invented.{InventingBreaks};
ghost use Rattle.relay_world.specs.HopLinks.{HopLinksAtFirst};
ghost use Rattle.relay_world.specs.Once.{HopLinksAreKept, OnceAtFirst, OnceIsKept, RunsKeepAll};
ghost use Rattle.relay_world.specs.Passing.{AtMostOneChild, OthersAreNotHeld, TakenIsAccepted};
ghost use Rattle.relay_world.specs.Promise.{PromiseIsKept, UnaskedIsKept};
ghost use Rattle.relay_world.specs.Transfers.{TransferredIsAccepted};
ghost use Rattle.relay_world.specs.Unsound.{ForgettingOutcomeBreaks, HealingBreaks, MisnamingBreaks};
ghost use Rattle.relay_world.specs.Unsound.{StoppingIsFailing};

use relay_disk::Disk;

/// A place with the verdict `Taken` was accepted by its next hop: the attempt has read a 2yz reply to its RCPT and to
/// the mail data. If a node serves the link, the attempt has exactly one child, which holds the place.
pub fn taken_is_accepted<D: Disk>()
    ensures { TakenIsAccepted D.honest D.words }
{}

/// A place to which a node's replies gave another verdict than `Taken` is held by no child.
pub fn others_are_not_held<D: Disk>()
    ensures { OthersAreNotHeld D.honest D.words }
{}

/// An attempt has at most one child at a node. The child holds the places whose RCPTs were accepted in replies that the
/// attempt has read.
pub fn at_most_one_child<D: Disk>()
    ensures { AtMostOneChild D.honest D.words }
{}

/// In a world in which no link, attempt or accept exists yet, no place is tried twice.
pub fn once_at_first<D: Disk>()
    ensures { OnceAtFirst D.words }
{}

/// No event makes a place be tried twice at a time, or again after an attempt that relayed it.
pub fn once_is_kept<D: Disk>()
    ensures { OnceIsKept D.honest D.words }
{}

/// In a world without attempts, each attempt has the right link.
pub fn hop_links_at_first<D: Disk>()
    ensures { HopLinksAtFirst D }
{}

/// After each event, each attempt has the right link: to the node that has the hop's name, or to outside.
pub fn hop_links_are_kept<D: Disk>()
    ensures { HopLinksAreKept D.honest D.words }
{}

/// Any number of events preserve the invariant, and also that each place is tried once, that attempts have the right
/// links, and that each line of the ledger has its source.
pub fn runs_keep_all<D: Disk>()
    ensures { RunsKeepAll D.honest D.words }
{}

/// Each transferred place was accepted by its next hop, in an attempt of its node for its message.
pub fn transferred_is_accepted<D: Disk>()
    ensures { TransferredIsAccepted D.honest D.words }
{}

/// Each place that has left did so by the course of an attempt for its message, or because it has no hop.
pub fn leaving_is_caused<D: Disk>()
    ensures { LeavingIsCaused D.honest D.words }
{}

/// A node that records an outcome without an attempt, unless all its places have no hop, violates what events preserve.
pub fn inventing_breaks<D: Disk>()
    ensures { InventingBreaks D.honest D.words }
{}

/// A node whose queue lacks a place that its records hold violates the invariant.
pub fn dropping_breaks<D: Disk>()
    ensures { DroppingBreaks D.honest D.words }
{}

/// A ledger that loses a line violates what events preserve.
pub fn forgetting_breaks<D: Disk>()
    ensures { ForgettingBreaks D.honest D.words }
{}

/// No event lets a node acknowledge mail whose record isn't staged for the spool.
pub fn losing_record_breaks<D: Disk>()
    ensures { LosingRecordBreaks D.honest D.words }
{}

/// No event lets replies end an attempt whose outcome isn't staged for the spool.
pub fn losing_outcome_breaks<D: Disk>()
    ensures { LosingOutcomeBreaks D.honest D.words }
{}

/// No event lets staged records stay out of an honest spool: the node has then accepted nothing, and no attempt has
/// ended.
pub fn losing_row_breaks<D: Disk>()
    ensures { LosingRowBreaks D.honest D.words }
{}

/// An attempt for a node's name whose link leads to another node violates what events preserve.
pub fn leading_elsewhere_breaks<D: Disk>()
    ensures { LeadingElsewhereBreaks D }
{}

/// A ledger in which a line names a wrong link, or none, has a line without a source.
pub fn misnaming_breaks<D: Disk>()
    ensures { MisnamingBreaks D }
{}

/// Forgetting or changing the outcome of an attempt violates what events preserve.
pub fn forgetting_outcome_breaks<D: Disk>()
    ensures { ForgettingOutcomeBreaks D }
{}

/// Repairing a broken link, or writing on it, violates what events preserve.
pub fn healing_breaks<D: Disk>()
    ensures { HealingBreaks D }
{}

/// A node stops in a call only because its device has failed.
pub fn stopping_is_failing<D: Disk>()
    ensures { StoppingIsFailing D.honest D.words }
{}

/// A device fault that is set for a later call comes nearer by the calls that the node's events make, and lets each of
/// them succeed.
pub fn stops_count_down<D: Disk>()
    ensures { StopsCountDown D.honest D.words }
{}

/// A stop of a node sets no device fault for a later call: one that was set is gone, or nearer by the calls made.
pub fn stopping_sets_none<D: Disk>()
    ensures { StoppingSetsNone D.honest D.words }
{}

/// An opening of a node sets no device fault for a later call: one that was set is nearer by the calls made.
pub fn opening_sets_none<D: Disk>()
    ensures { OpeningSetsNone D.honest D.words }
{}

/// A place is copied to its next hop at most once, and once more for each lost reply.
pub fn copies_are_few<D: Disk>()
    ensures { CopiesAreFew D.honest D.words }
{}

/// A child has one `Received:` field more than its parent, and accepted mail has at most 99 of them; so no chain of
/// children has more than 100 accepts.
pub fn chains_are_short<D: Disk>()
    ensures { ChainsAreShort D.honest D.words }
{}

/// Over any number of events, records of nodes, lines of the ledger, and octets written and read on links are only
/// added.
pub fn runs_grow<D: Disk>()
    ensures { RunsGrow D.honest D.words }
{}

/// If a world has grown so, the list of changes of each node begins with its earlier list.
pub fn grown_lists_begin<D: Disk>()
    ensures { GrownListsBegin D.honest D.words }
{}

/// After any number of events, each recipient that a node acknowledged, and each recipient of a report, is held there,
/// was accepted by its next hop with its values, or has ended for a cause with the report that is owed. A node holds
/// nothing that its replies refused. There is at most one copy, and one more for each lost reply. Nothing else was
/// relayed, each line of the ledger has its source, and attempts have gone on or ended.
pub fn promise_is_kept<D: Disk>()
    ensures { PromiseIsKept D.honest D.words }
{}

/// Where the postmaster has asked for nothing, of each recipient has come one of three: it is held, its next hop has
/// accepted it, or it has ended for a cause that isn't his.
pub fn unasked_is_kept<D: Disk>()
    ensures { UnaskedIsKept D }
{}

/// Crashing in a call preserves that each place is tried once.
pub fn crashing_keeps_once<D: Disk>()
    ensures { CrashingKeepsOnce D.honest D.words }
{}

/// A crash in a call, while other attempts still run on the node's links, is a run of two events.
pub fn crashing_happens<D: Disk>()
    ensures { CrashingHappens D.honest D.words }
{}

/// A crash between two calls, while places without a hop are given up, or while the spool is compacted, is a run of two
/// events.
pub fn resting_crash_happens<D: Disk>()
    ensures { RestingCrashHappens D.honest D.words }
{}

/// Compacting a spool is one event; a crash in that call and the opening after it are a run of three.
pub fn compacting_happens<D: Disk>()
    ensures { CompactingHappens D.honest D.words }
{}
