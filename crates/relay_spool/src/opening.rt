// Two disks, of which one is taken and read.
ghost use Rattle.std.specs.Prelude.{◌≡◌, ◌≤◌, ◌^◌, Some, IfErr, IfOk, OnOk, MatchResult};
ghost use Rattle.relay_disk.specs.Device.{IsSettled as IsDiskSettled};
ghost use Rattle.relay_disk.specs.Disks.{CountsFailure, FailsNot, Images, IsSettled, seen_of};
ghost use Rattle.relay_spool.specs.Image.{size_of};
ghost use Rattle.relay_spool.specs.Opening.{Chooses, IsHeadOf};
ghost use Rattle.relay_spool.specs.Run.{EachOnlyReads};
ghost use Rattle.relay_spool.specs.Spool.{FailsBy, MakesSome, PassesAny, RefusesToOpen, Rests, texts_of};

use crate::SpoolFault;
use crate::chain::{Found, read_bodies};
use crate::head::read_head;
use crate::heads::{Choice, Head, OpenHead};
use crate::taken::Taken;
use relay_disk::{Disk, DiskFault, Disks, Side};
use std::alloc::Global;

/// What two disks hold.
#[derive(Drop)]
pub(crate) struct Opening {
    pub(crate) taken: Taken,
    pub(crate) found: Found,
}

/// Reads the spool that two disks hold. Both are synced first, and none is written.
pub(crate) fn open_disks<D: Disk>(
    alloc: Global,
    disks: &mut Disks<D>,
) -> Result<Opening, SpoolFault>
    ensures rests { D.honest → IfOk result (λ opening.
        Rests D.words disks.new opening.taken (texts_of opening.found.bodies)) }
    ensures size { IfOk result (λ opening.
        (opening.found.size ≡ size_of (texts_of opening.found.bodies)) × (opening.found.size ≤ 2 ^ 40)) }
    ensures refused { IfErr result (RefusesToOpen D.honest (seen_of D.words disks.old)) }
    ensures keeps { D.honest → EachOnlyReads D.words disks.old disks.new }
    ensures failures { MatchResult result (λ _. FailsNot D.words disks.old disks.new)
        (FailsBy D.words disks.old disks.new) }
    ensures calls { MakesSome D.words disks.old disks.new result }
{
    let first = read_head(&mut disks.first)?;
    let second = read_second_head(disks)?;
    match choose(first, second) {
        None => Err(SpoolFault::NotASpool),
        Some(choice) => read_chosen(alloc, disks, choice),
    }
}

/// Reads the disk that is taken of two that were synced.
fn read_chosen<D: Disk>(
    alloc: Global,
    disks: &mut Disks<D>,
    choice: Choice,
) -> Result<Opening, SpoolFault>
    requires chosen { D.honest → Chooses (seen_of D.words disks.old) (Some choice) }
    requires settled { D.honest → IsSettled D.words disks.old }
    ensures rests { D.honest → IfOk result (λ opening.
        Rests D.words disks.new opening.taken (texts_of opening.found.bodies)) }
    ensures size { IfOk result (λ opening.
        (opening.found.size ≡ size_of (texts_of opening.found.bodies)) × (opening.found.size ≤ 2 ^ 40)) }
    ensures refused { IfErr result (RefusesToOpen D.honest (seen_of D.words disks.old)) }
    ensures keeps { D.honest → EachOnlyReads D.words disks.old disks.new }
    ensures failures { MatchResult result (λ _. FailsNot D.words disks.old disks.new)
        (FailsBy D.words disks.old disks.new) }
    ensures calls { PassesAny D.words disks.old disks.new }
{
    let found = read_bodies(alloc, disks, choice.taken.side, choice.head.size)?;
    Ok(Opening {
        taken: choice.taken,
        found,
    })
}

/// Reads the head of the second disk, after a sync.
pub(crate) fn read_second_head<D: Disk>(disks: &mut Disks<D>) -> Result<Head, DiskFault>
    ensures head { D.honest → IfOk result (IsHeadOf (D.words.seen disks.old.second)) }
    ensures settled { D.honest → OnOk result (IsDiskSettled D.words disks.new.second) }
    ensures keeps { D.honest → EachOnlyReads D.words disks.old disks.new }
    ensures failures { CountsFailure D.words disks.old disks.new result }
    ensures calls { PassesAny D.words disks.old disks.new }
{
    disks.turn(Side::Second);
    let head = read_head(&mut disks.first);
    disks.turn(Side::Second);
    head
}

/// Returns the choice of the disk of this side, which has this head.
fn choice_of(side: Side, head: OpenHead, other: Head) -> Choice
    ensures { (result.head ≡ head) × (result.taken
        ≡ record { side = side; generation = head.generation; other = other.gate }) }
{
    Choice {
        taken: Taken {
            side,
            generation: head.generation,
            other: other.gate,
        },
        head,
    }
}

/// Returns which of two disks with these heads is taken: of those with an open head the one with the greater
/// generation, and at equal ones the first.
pub(crate) fn choose(first: Head, second: Head) -> Option<Choice>
    ensures { (images : Images) → IsHeadOf images.first first → IsHeadOf images.second second
        → Chooses images result }
{
    match (first.opening, second.opening) {
        (None, None) => None,
        (Some(head), None) => Some(choice_of(Side::First, head, second)),
        (None, Some(head)) => Some(choice_of(Side::Second, head, first)),
        (Some(one), Some(two)) => {
            if one.generation < two.generation {
                Some(choice_of(Side::Second, two, first))
            } else {
                Some(choice_of(Side::First, one, second))
            }
        }
    }
}
