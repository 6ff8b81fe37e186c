//! Each call of a relay that runs in a world is an event of the world, after which the relay runs there still.
ghost use Rattle.relay_daemon.specs.Events.{AcceptingOpens, BeginningRuns, CompactingIsAnEvent, ConnectionsTalk};
ghost use Rattle.relay_daemon.specs.Events.{CuttingOffCloses, EndingEnds};
ghost use Rattle.relay_daemon.specs.Elsewhere.{LeavingAloneGoesOn, LeftAloneRunsOn, OthersLeaveAlone};
ghost use Rattle.relay_daemon.specs.Events.{GivingUpIsAnEvent, HearingAllIsAnEvent, HearingHears, HearingIntoHears};
ghost use Rattle.relay_daemon.specs.Events.{LosingIsAnEvent, ReadingIntoReads};
ghost use Rattle.relay_daemon.specs.Events.{RefusingDrops, ReplyingReads, SettlingHearsAll, StartingStarts};
ghost use Rattle.relay_daemon.specs.Events.{TrimmingGoesOn, WithdrawingIsAnEvent, WritingOutStays, WritingToHopsStays};
ghost use Rattle.relay_daemon.specs.Networks.{NetworksKeepThePromise};
ghost use Rattle.relay_daemon.specs.Sequences.{CallsKeepThePromise};

use relay_disk::Disk;
use relay_records::list_laws::none_is_awaited;
use relay_world::passing::promise_is_kept;

/// A relay that begins without connections runs in a world whose host is up with its node.
pub fn beginning_runs<D>()
    ensures { BeginningRuns D }
{}

/// Each client of a relay that runs in a bound world has had an exchange, which is what its link has carried.
pub fn connections_talk<D: Disk>()
    ensures { ConnectionsTalk D.honest D.words }
{}

/// A relay that has compacted its spool has compacted it in its world.
pub fn compacting_is_an_event<D: Disk>()
    ensures { CompactingIsAnEvent D.honest D.words }
{}

/// A relay that has shortened its spare disk stays up in its world, and keeps its changes.
pub fn trimming_goes_on<D: Disk>()
    ensures { TrimmingGoesOn D.honest D.words }
{}

/// A relay that has given up the places of a message that have no hop has given them up in its world.
pub fn giving_up_is_an_event<D: Disk>()
    ensures { GivingUpIsAnEvent D.honest D.words }
{}

/// A relay that has withdrawn places of a message has given them up in its world, as the postmaster asked.
pub fn withdrawing_is_an_event<D: Disk>()
    ensures { WithdrawingIsAnEvent D.honest D.words }
{}

/// A relay that has accepted a connection has opened a link from outside.
pub fn accepting_opens<D>()
    ensures { AcceptingOpens D }
{}

/// A relay that has ended the session of a client has ended it in its world.
pub fn ending_ends<D>()
    ensures { EndingEnds D }
{}

/// A relay that ends the session of a client with a closing reply has cut the client off.
pub fn cutting_off_closes<D>()
    ensures { CuttingOffCloses D }
{}

/// A relay that has begun an attempt over a new link to the hop has begun it in its world.
pub fn starting_starts<D: Disk>()
    ensures { StartingStarts D.honest D.words }
{}

/// A relay that has heard octets of a client has heard them on the client's link.
pub fn hearing_hears<D: Disk>()
    ensures { HearingHears D.honest D.words }
{}

/// A relay that has read replies of a hop has read them on the attempt's link.
pub fn replying_reads<D: Disk>()
    ensures { ReplyingReads D.honest D.words }
{}

/// A relay that has refused replies of a hop, or the loss of its connection, has dropped the attempt.
pub fn refusing_drops<D>()
    ensures { RefusingDrops D }
{}

/// A relay that has written out octets to a client runs on in the same world.
pub fn writing_out_stays<D>()
    ensures { WritingOutStays D }
{}

/// A relay that has written out octets to a hop runs on in the same world.
pub fn writing_to_hops_stays<D>()
    ensures { WritingToHopsStays D }
{}

/// A relay that has recorded the loss of the connection to a hop has recorded it in its world.
pub fn losing_is_an_event<D: Disk>()
    ensures { LosingIsAnEvent D.honest D.words }
{}

/// A relay that hears octets of a client in a group has heard them on the client's link.
pub fn hearing_into_hears<D: Disk>()
    ensures { HearingIntoHears D.honest D.words }
{}

/// A relay that reads replies of a hop in a group has read them on the attempt's link.
pub fn reading_into_reads<D: Disk>()
    ensures { ReadingIntoReads D.honest D.words }
{}

/// A relay that has added the changes of a group to its spool has heard and read the group in its world.
pub fn settling_hears_all<D: Disk>()
    ensures { SettlingHearsAll D.honest D.words }
{}

/// A relay that was given octets of several clients and next hops in one call has heard and read them in its world, in
/// one event.
pub fn hearing_all_is_an_event<D: Disk>()
    ensures { HearingAllIsAnEvent D.honest D.words }
{
    none_is_awaited::<D>();
}

/// A relay whose node was left alone runs on, whatever happens elsewhere.
pub fn left_alone_runs_on<D>()
    ensures { LeftAloneRunsOn D }
{}

/// A node that is left alone, and then again, is left alone in both.
pub fn leaving_alone_goes_on<D>()
    ensures { LeavingAloneGoesOn D }
{}

/// Whatever another node does, what outside writes on links, the break of a link, and the setting of the clock leave a
/// node alone.
pub fn others_leave_alone<D: Disk>()
    ensures { OthersLeaveAlone D.honest D.words }
{}

/// Calls of a relay, one after another, keep the promise for mail, whatever happens elsewhere before, between and after
/// them.
pub fn calls_keep_the_promise<D: Disk>()
    ensures { CallsKeepThePromise D.honest D.words }
{
    none_is_awaited::<D>();
    promise_is_kept::<D>();
}

/// Calls of several relays of a network, in any order, keep the promise for mail, whatever happens elsewhere before,
/// between and after them.
pub fn networks_keep_the_promise<D: Disk>()
    ensures { NetworksKeepThePromise D.honest D.words }
{
    none_is_awaited::<D>();
    promise_is_kept::<D>();
}
