// Makes an empty spool on two empty disks.
ghost use Rattle.std.specs.Prelude.{◌≡◌, ◌≢◌, [], length, OnOk, IfErr, IfOk, MatchBool, MatchResult};
ghost use Rattle.relay_disk.specs.Device.{CountsFailure as CountsDiskFailure, IsSettled as IsDiskSettled};
ghost use Rattle.relay_disk.specs.Device.{OnlyFuseChanges};
ghost use Rattle.relay_disk.specs.Disks.{CountsFailure, FailsNot, IsSettled, LeavesNothing, no_octets, seen_of};
ghost use Rattle.relay_spool.specs.Pair.{HasNoBody};
ghost use Rattle.relay_spool.specs.Run.{AtEachMoment as AtEachDiskMoment, EachOnlyReads, EachStaysShort, IsShort};
ghost use Rattle.relay_spool.specs.Run.{Makes as DiskMakes};
ghost use Rattle.relay_spool.specs.Spool.{AtEachMoment, FailsBy, IsMade, Makes, RefusesToCreate, created};

use crate::SpoolFault;
use crate::gate::{open_gate, write_through};
use crate::head::HEAD_GATE;
use relay_disk::{Disk, DiskFault, Disks, Side};

/// What the first disk holds before its head gate is opened: generation 1, and closed gates.
const FIRST_DISK: [u8; 18] = *b"RELAYQ01\0\0\0\0\0\0\0\0\x01\0";

/// What the second disk holds: generation 0, and closed gates.
const SECOND_DISK: [u8; 18] = *b"RELAYQ01\0\0\0\0\0\0\0\0\0\0";

/// Makes an empty spool on two empty disks, by eight calls of the device.
pub(crate) fn make_spool<D: Disk>(disks: &mut Disks<D>) -> Result<(), SpoolFault>
    ensures created { D.honest → OnOk result (IsMade D.words disks.old disks.new) }
    ensures refused { IfErr result (RefusesToCreate D.honest D.words disks.old disks.new) }
    ensures stop { D.honest → LeavesNothing D.words disks.old
        → AtEachMoment D.words disks.old disks.new HasNoBody }
    ensures failures { MatchResult result (λ _. FailsNot D.words disks.old disks.new)
        (FailsBy D.words disks.old disks.new) }
    ensures calls { Makes D.words 8 disks.old disks.new result }
{
    if !are_empty(disks)? {
        return Err(SpoolFault::NotEmpty);
    }
    write_heads(disks)?;
    Ok(())
}

/// Returns whether both disks are of size 0.
fn are_empty<D: Disk>(disks: &mut Disks<D>) -> Result<bool, DiskFault>
    ensures empty { D.honest → IfOk result (λ is_empty. MatchBool is_empty
        (seen_of D.words disks.old ≡ no_octets) (seen_of D.words disks.old ≢ no_octets)) }
    ensures keeps { D.honest → EachOnlyReads D.words disks.old disks.new }
    ensures failures { CountsFailure D.words disks.old disks.new result }
    ensures calls { Makes D.words 2 disks.old disks.new result }
{
    let first = disks.first.size()?;
    let second = size_of_second(disks)?;
    Ok(first == 0 && second == 0)
}

/// Returns how many octets the second disk holds.
fn size_of_second<D: Disk>(disks: &mut Disks<D>) -> Result<usize, DiskFault>
    ensures size { D.honest → IfOk result (λ size. size ≡ length (D.words.seen disks.old.second)) }
    ensures keeps { D.honest → EachOnlyReads D.words disks.old disks.new }
    ensures failures { CountsFailure D.words disks.old disks.new result }
    ensures calls { Makes D.words 1 disks.old disks.new result }
{
    disks.turn(Side::Second);
    let size = disks.first.size();
    disks.turn(Side::Second);
    size
}

/// Writes an empty spool to empty disks, by six calls. The second disk is written first, and its head
/// stays closed.
fn write_heads<D: Disk>(disks: &mut Disks<D>) -> Result<(), DiskFault>
    requires { D.honest → seen_of D.words disks.old ≡ no_octets }
    ensures written { D.honest
        → OnOk result ((seen_of D.words disks.new ≡ created) × IsSettled D.words disks.new) }
    ensures stop { D.honest → IsSettled D.words disks.old → EachStaysShort D.words disks.old disks.new }
    ensures failures { CountsFailure D.words disks.old disks.new result }
    ensures calls { Makes D.words 6 disks.old disks.new result }
{
    write_second(disks)?;
    write_first(&mut disks.first)
}

/// Writes a closed head to an empty second disk, by two calls.
fn write_second<D: Disk>(disks: &mut Disks<D>) -> Result<(), DiskFault>
    requires { D.honest → D.words.seen disks.old.second ≡ [] }
    ensures written { D.honest → OnOk result (D.words.seen disks.new.second ≡ created.second) }
    ensures settled { D.honest → OnOk result (IsDiskSettled D.words disks.new.second) }
    ensures stop { D.honest → IsDiskSettled D.words disks.old.second
        → AtEachDiskMoment D.words disks.old.second disks.new.second IsShort }
    ensures first { OnlyFuseChanges D.honest D.words disks.old.first disks.new.first }
    ensures failures { CountsFailure D.words disks.old disks.new result }
    ensures calls { Makes D.words 2 disks.old disks.new result }
{
    disks.turn(Side::Second);
    let answer = write_through(&mut disks.first, 0, &SECOND_DISK);
    disks.turn(Side::Second);
    answer
}

/// Writes an empty spool to an empty first disk, by four calls. The head's gate is opened last.
fn write_first<D: Disk>(disk: &mut D) -> Result<(), DiskFault>
    requires { D.honest → D.words.seen disk.old ≡ [] }
    ensures written { D.honest → OnOk result (D.words.seen disk.new ≡ created.first) }
    ensures settled { D.honest → OnOk result (IsDiskSettled D.words disk.new) }
    ensures stop { D.honest → IsDiskSettled D.words disk.old
        → AtEachDiskMoment D.words disk.old disk.new IsShort }
    ensures failures { CountsDiskFailure D.words disk.old disk.new result }
    ensures calls { DiskMakes D.words 4 disk.old disk.new result }
{
    write_through(disk, 0, &FIRST_DISK)?;
    open_gate(disk, HEAD_GATE)
}
