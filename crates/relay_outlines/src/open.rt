//! Disks opened for a look.
ghost use Rattle.std.specs.Prelude.{ℕ, List, [], IfErr, IfOk, IsTrue, MatchResult};
ghost use Rattle.relay_disk.specs.Disks.{FailsNot, seen_of};
ghost use Rattle.relay_spool.specs.Cursor.{HasRead};
ghost use Rattle.relay_spool.specs.Run.{EachOnlyReads};
ghost use Rattle.relay_book.specs.Queue.{Queue};
ghost use Rattle.relay_records.specs.Open.{FailsFor, RefusesImage};
ghost use Rattle.relay_outlines.specs.Look.{Shows};

use crate::look::Look;
use crate::reading::{Reading, read_outline};
use relay_disk::{Disk, Disks};
use relay_records::{Cause, NotOpened};
use relay_spool::Cursor;
use std::alloc::Global;

/// A look at the queue that disks hold, and the disks.
#[derive(Drop)]
pub struct Looked<D> {
    pub look: Look,
    pub disk: Disks<D>,
}

/// Returns a look at the queue that disks hold. The disks are synced and read, and not written. They are refused
/// exactly as [`Records::open`](relay_records::Records::open) refuses them. It needs memory for a block, the outline of
/// the queue, and the longest body that isn't a snapshot: of a snapshot it holds no stored text.
pub fn look_at<D: Disk>(alloc: Global, disk: Disks<D>) -> Result<Looked<D>, NotOpened<D>>
    ensures shows { IfOk result (λ looked. (queue : Queue) × Shows D.honest D.words disk looked.look queue) }
    ensures refused { IfErr result (λ refused. RefusesImage D.honest (seen_of D.words disk) refused.cause) }
    ensures keeps { D.honest → MatchResult result
        (λ looked. EachOnlyReads D.words disk looked.disk)
        (λ refused. EachOnlyReads D.words disk refused.disk) }
    ensures failures { MatchResult result (λ looked. FailsNot D.words disk looked.disk)
        (λ refused. FailsFor D.words disk refused.disk refused.cause) }
{
    match Cursor::start(alloc, disk) {
        Ok(cursor) => look_by(alloc, cursor),
        Err(refused) => Err(NotOpened {
            cause: Cause::Spool(refused.fault),
            disk: refused.disk,
        }),
    }
}

/// Returns the same by a cursor that has read nothing yet.
fn look_by<D: Disk>(alloc: Global, cursor: Cursor<D>) -> Result<Looked<D>, NotOpened<D>>
    requires live { IsTrue cursor.live }
    requires start { D.honest → HasRead (seen_of D.words cursor.disk) cursor.side cursor.place [] }
    ensures shows { IfOk result
        (λ looked. (queue : Queue) × Shows D.honest D.words cursor.disk looked.look queue) }
    ensures refused { IfErr result
        (λ refused. RefusesImage D.honest (seen_of D.words cursor.disk) refused.cause) }
    ensures keeps { D.honest → MatchResult result
        (λ looked. EachOnlyReads D.words cursor.disk looked.disk)
        (λ refused. EachOnlyReads D.words cursor.disk refused.disk) }
    ensures failures { MatchResult result (λ looked. FailsNot D.words cursor.disk looked.disk)
        (λ refused. FailsFor D.words cursor.disk refused.disk refused.cause) }
{
    let mut cursor = cursor;
    match read_outline(alloc, &mut cursor) {
        Ok(Reading::Outline(outline)) => Ok(Looked {
            look: Look::new(outline, cursor.place()),
            disk: cursor.into_disk(),
        }),
        Ok(Reading::Bad(number)) => Err(NotOpened {
            cause: Cause::BadRecord(number),
            disk: cursor.into_disk(),
        }),
        Err(fault) => Err(NotOpened {
            cause: Cause::Spool(fault),
            disk: cursor.into_disk(),
        }),
    }
}
