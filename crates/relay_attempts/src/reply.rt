//! Replies to attempts, and connections that are lost.
ghost use Rattle.std.specs.Prelude.{◌≡◌, List, Err, IfErr, IfOk, length};
ghost use Rattle.relay_report.specs.Report.{reporter_of};
ghost use Rattle.relay_attempts.specs.Attempts.{Serves};
ghost use Rattle.relay_attempts.specs.Reply.{CutsReply, HasHeard, HasNoRoomAtEnd, RefusesToHear, Replies, TellsAt};
ghost use Rattle.relay_attempts.specs.Reply.{Told};
ghost use Rattle.relay_attempts.specs.Reply.{CutsLoss, EndsBy, HasNoRoomAtLoss, IsLost};
ghost use Rattle.relay_attempts.specs.Staging.{HasHeardAfter, HasNoRoomAtEndAfter, RefusesToHearAfter};
ghost use Rattle.relay_attempts.specs.Staging.{RepliesAfter};
ghost use Rattle.relay_book.specs.declared.change.Change.{Change};
ghost use Rattle.relay_records.specs.Records.{Keeps};
ghost use Rattle.relay_records.specs.Staged.{Awaits};
ghost use Rattle.relay_slots.specs.Slots.{OthersStay};

use crate::attempts::Attempts;
use crate::hear::Hearing;
use relay_disk::Disk;
use relay_records::{NodeFault, Records, Staged};
use relay_routes::Config;
use relay_trace::Moment;
use std::alloc::Global;

/// The result of a reply to an attempt.
#[derive(Drop)]
pub struct Replied {
    /// How many octets of the piece were used: all, unless the attempt has ended.
    pub used: usize,
    /// The octets for the next hop.
    pub out: Vec<u8>,
    /// The number of the change that was made, where the attempt has ended.
    pub change: Option<u64>,
}

impl Attempts {
    /// Uses octets that the server of an attempt wrote, all of them or up to the attempt's end. At its end one outcome
    /// is added, of exactly its places, each with its verdict, in one change with the report that is owed.
    ///
    /// `Stopped` is answered first, and then `Unknown`, if there is no such attempt; nothing is changed then. At
    /// `NoMemory` and `Full` the attempt is gone, and the records are as they were. It is gone too where the device
    /// fails now: then a stop leaves the changes as they were, or with the outcome.
    pub fn reply<D: Disk>(
        &mut self,
        alloc: Global,
        config: &Config,
        records: &mut Records<D>,
        attempt: usize,
        piece: &[u8],
        now: Moment,
    ) -> Result<Replied, NodeFault>
        requires serves { Serves config.now.host config.now.routes self.old records.old.queue }
        ensures replies { (changes : List Change) (told : Told) → Keeps D.honest D.words records.old changes
            → TellsAt config.now.host records.old.queue self.old.runs attempt told
            → IfOk result (λ replied. Replies D.honest D.words (reporter_of config.now) now changes attempt told
            piece.now records.old records.new self.new.runs replied replied.change) }
        ensures cut { (changes : List Change) (told : Told) → Keeps D.honest D.words records.old changes
            → TellsAt config.now.host records.old.queue self.old.runs attempt told
            → result ≡ Err NodeFault.Stopped
            → CutsReply D.honest D.words (reporter_of config.now) now changes attempt told piece.now records.new }
        ensures full { (told : Told) → TellsAt config.now.host records.old.queue self.old.runs attempt told
            → result ≡ Err NodeFault.Full → HasNoRoomAtEnd (reporter_of config.now) now told piece.now records.old }
        ensures heard { IfOk result (HasHeard D.words (reporter_of config.now) now attempt (length piece.now)
            self.old.runs self.new.runs records.old records.new) }
        ensures refused { IfErr result (RefusesToHear D.words attempt self.old self.new
            records.old records.new) }
        ensures others { OthersStay self.old.runs self.new.runs attempt }
        ensures serves { Serves config.now.host config.now.routes self.new records.new.queue }
    {
        if !records.is_live() {
            return Err(NodeFault::Stopped);
        }
        let Hearing { used, out, outcome } = self.hear(alloc, records, attempt, piece, now)?;
        let Some(outcome) = outcome else {
            return Ok(Replied {
                used,
                out,
                change: None,
            });
        };
        match self.conclude(alloc, config, records, outcome, used) {
            Ok(number) => Ok(Replied {
                used,
                out,
                change: Some(number),
            }),
            Err(fault) => Err(fault),
        }
    }

    /// Uses octets that the server of an attempt wrote, as [`Attempts::reply`] does, but puts the outcome at the
    /// attempt's end after the changes of a row, in one change with the report that is owed. No device is called: until
    /// the row has come into the spool, a stop leaves nothing of the outcome.
    ///
    /// `Unknown` is answered if there is no such attempt, and nothing is changed then. At `NoMemory` and `Full` the
    /// attempt is gone, and records and row are as they were.
    pub fn reply_into<D: Disk>(
        &mut self,
        alloc: Global,
        config: &Config,
        records: &mut Records<D>,
        row: &mut Staged,
        attempt: usize,
        piece: &[u8],
        now: Moment,
    ) -> Result<Replied, NodeFault>
        requires serves { Serves config.now.host config.now.routes self.old records.old.queue }
        ensures replies { (changes pending : List Change) (told : Told)
            → Awaits D.honest D.words records.old changes pending row.old
            → TellsAt config.now.host records.old.queue self.old.runs attempt told
            → IfOk result (λ replied. RepliesAfter D.honest D.words (reporter_of config.now) changes pending row.old
            now attempt told piece.now records.old records.new row.new self.new.runs replied replied.change) }
        ensures full { (told : Told) → TellsAt config.now.host records.old.queue self.old.runs attempt told
            → result ≡ Err NodeFault.Full
            → HasNoRoomAtEndAfter (reporter_of config.now) now told piece.now records.old row.old }
        ensures heard { IfOk result (HasHeardAfter (reporter_of config.now) now attempt (length piece.now)
            self.old.runs self.new.runs records.old records.new row.old row.new) }
        ensures refused { IfErr result (RefusesToHearAfter attempt self.old self.new records.old records.new
            row.old row.new) }
        ensures others { OthersStay self.old.runs self.new.runs attempt }
        ensures serves { Serves config.now.host config.now.routes self.new records.new.queue }
    {
        let Hearing { used, out, outcome } = self.hear(alloc, records, attempt, piece, now)?;
        let Some(outcome) = outcome else {
            return Ok(Replied {
                used,
                out,
                change: None,
            });
        };
        match self.conclude_into(alloc, config, records, row, outcome, used) {
            Ok(number) => Ok(Replied {
                used,
                out,
                change: Some(number),
            }),
            Err(fault) => Err(fault),
        }
    }

    /// Ends an attempt whose connection is lost: each of its places may be tried again, or has failed where it was
    /// tried for too long. One outcome says so, in one change with the report that is owed, whose number is the answer.
    /// The faults are those of [`Attempts::reply`], and leave the same.
    pub fn lost<D: Disk>(
        &mut self,
        alloc: Global,
        config: &Config,
        records: &mut Records<D>,
        attempt: usize,
        now: Moment,
    ) -> Result<u64, NodeFault>
        requires serves { Serves config.now.host config.now.routes self.old records.old.queue }
        ensures lost { (changes : List Change) (told : Told) → Keeps D.honest D.words records.old changes
            → TellsAt config.now.host records.old.queue self.old.runs attempt told
            → IfOk result (IsLost D.honest D.words (reporter_of config.now) now changes attempt told records.old
            records.new self.new.runs) }
        ensures cut { (changes : List Change) (told : Told) → Keeps D.honest D.words records.old changes
            → TellsAt config.now.host records.old.queue self.old.runs attempt told
            → result ≡ Err NodeFault.Stopped
            → CutsLoss D.honest D.words (reporter_of config.now) now changes attempt told records.new }
        ensures full { (told : Told) → TellsAt config.now.host records.old.queue self.old.runs attempt told
            → result ≡ Err NodeFault.Full → HasNoRoomAtLoss (reporter_of config.now) now told records.old }
        ensures ends { IfOk result (EndsBy D.words (reporter_of config.now) now attempt self.old.runs self.new.runs
            records.old records.new) }
        ensures refused { IfErr result (RefusesToHear D.words attempt self.old self.new
            records.old records.new) }
        ensures others { OthersStay self.old.runs self.new.runs attempt }
        ensures serves { Serves config.now.host config.now.routes self.new records.new.queue }
    {
        if !records.is_live() {
            return Err(NodeFault::Stopped);
        }
        let Some(run) = self.runs.take(attempt) else {
            return Err(NodeFault::Unknown);
        };
        let Ok(verdicts) = run.client.broken() else {
            return Err(NodeFault::NoMemory);
        };
        run.has_few_places(records);
        let Ok(outcome) = run.outcome(alloc, verdicts, now) else {
            return Err(NodeFault::NoMemory);
        };
        match self.conclude(alloc, config, records, outcome, 0) {
            Ok(number) => Ok(number),
            Err(fault) => Err(fault),
        }
    }
}
