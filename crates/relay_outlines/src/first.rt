//! The first body of a spool, read block by block into an outline: the snapshot of a queue holds all of its texts.
ghost use Rattle.std.specs.Prelude.{◌≡◌, ◌+◌, ◌<◌, ◌≤◌, [], IfErr, IfOk, IsTrue, MatchResult, OnOk};
ghost use Rattle.relay_disk.specs.Disks.{FailsNot, seen_of};
ghost use Rattle.relay_spool.specs.Cursor.{HasRead};
ghost use Rattle.relay_spool.specs.Part.{IsNoPart};
ghost use Rattle.relay_spool.specs.Run.{EachOnlyReads};
ghost use Rattle.relay_spool.specs.Spool.{FailsBy, RefusesToOpen};
ghost use Rattle.relay_outlines.specs.Reading.{FirstLeaves, ReadsBlocks, is_there};

use relay_book::{Book, BookFault, FirstOutline};
use relay_disk::Disk;
use relay_spool::{Cursor, SpoolFault};
use std::alloc::Global;

/// The most octets of the first body that are read at once.
const BLOCK: usize = 1 << 16;

/// What the first body of a spool leaves.
#[derive(Drop)]
pub(crate) enum First {
    /// There is no body.
    Missing,
    /// A queue of this outline.
    Leaves(Book),
    /// No queue.
    LeavesNone,
}

/// Reads the first body of a spool. Of a snapshot it holds one block, or the envelope of one message, and the outline
/// of those before.
pub(crate) fn read_first<D: Disk>(
    alloc: Global,
    cursor: &mut Cursor<D>,
) -> Result<First, SpoolFault>
    requires live { IsTrue cursor.old.live }
    requires start { D.honest → HasRead (seen_of D.words cursor.old.disk) cursor.old.side cursor.old.place [] }
    ensures leaves { IfOk result
        (FirstLeaves D.honest (seen_of D.words cursor.old.disk) cursor.old.side cursor.new.place) }
    ensures live { IfOk result (λ first. cursor.new.live ≡ is_there first) }
    ensures moves { IfOk result (λ first. IsTrue (is_there first) → 1 ≤ cursor.new.place) }
    ensures side { cursor.new.side ≡ cursor.old.side }
    ensures refused { IfErr result (RefusesToOpen D.honest (seen_of D.words cursor.old.disk)) }
    ensures keeps { D.honest → EachOnlyReads D.words cursor.old.disk cursor.new.disk }
    ensures failures { MatchResult result (λ _. FailsNot D.words cursor.old.disk cursor.new.disk)
        (FailsBy D.words cursor.old.disk cursor.new.disk) }
{
    match cursor.begin()? {
        None => Ok(First::Missing),
        Some(count) => {
            let first = read_blocks(alloc, cursor, count)?;
            match first.finish(alloc) {
                Ok(book) => Ok(First::Leaves(book)),
                Err(BookFault::BadRecord) => Ok(First::LeavesNone),
                Err(BookFault::NoMemory) => Err(SpoolFault::NoMemory),
            }
        }
    }
}

/// Reads this many octets, which are all of a body that was begun, block by block.
fn read_blocks<D: Disk>(
    alloc: Global,
    cursor: &mut Cursor<D>,
    count: usize,
) -> Result<FirstOutline, SpoolFault>
    requires live { IsTrue cursor.old.live }
    requires within { cursor.old.place + count < cursor.old.size }
    ensures reads { IfOk result (ReadsBlocks
        D.honest (seen_of D.words cursor.old.disk) cursor.old.side count cursor.old.place cursor.new.place) }
    ensures live { OnOk result (IsTrue cursor.new.live) }
    ensures moves { OnOk result (cursor.old.place ≤ cursor.new.place) }
    ensures side { cursor.new.side ≡ cursor.old.side }
    ensures refused { IfErr result IsNoPart }
    ensures keeps { D.honest → EachOnlyReads D.words cursor.old.disk cursor.new.disk }
    ensures failures { MatchResult result (λ _. FailsNot D.words cursor.old.disk cursor.new.disk)
        (FailsBy D.words cursor.old.disk cursor.new.disk) }
{
    let mut first = FirstOutline::new(alloc);
    let mut left = count;
    while left > 0 {
        let block = cursor.read_part(left.min(BLOCK))?;
        left -= block.len();
        first.read(alloc, block)?;
    }
    Ok(first)
}
