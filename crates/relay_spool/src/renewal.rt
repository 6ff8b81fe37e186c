// A spool's body compacted, on the disk that isn't taken.
ghost use Rattle.std.specs.Prelude.{◌≡◌, ◌≢◌, ◌+◌, ◌<◌, ◌≤◌, ◌^◌, [], ◌∷◌, ℕ, List, length, slice_index, vec_capacity};
ghost use Rattle.std.specs.Prelude.{Some, IfOk, IsOk, OnOk};
ghost use Rattle.relay_disk.specs.Device.{CountsFailure as CountsDiskFailure, IsSettled, written};
ghost use Rattle.relay_disk.specs.Disks.{CountsFailure, other};
ghost use Rattle.relay_spool.specs.Head.{HasHeadGate, IsClosedOr, IsFilled, IsGateOf, IsNotOpen, IsOldOrNew, IsRenewal};
ghost use Rattle.relay_spool.specs.Head.{renewal_calls, renewed};
ghost use Rattle.relay_spool.specs.Pair.{HasBodies, renewed_taken};
ghost use Rattle.relay_spool.specs.Run.{AtEachMoment as AtEachDiskMoment, Makes as DiskMakes};
ghost use Rattle.relay_spool.specs.Spool.{AtEachMoment, IsBeforeOrOne, Makes, Rests};

use crate::gate::{CLOSED, OPEN, open_gate, write_through};
use crate::head::{GENERATION, HEAD_GATE};
use crate::taken::{HeadGate, Taken};
use relay_disk::laws::writes_leave_the_rest;
use relay_disk::{Disk, DiskFault, Disks};
use std::alloc::AllocError;

/// How many octets of those around the body stand in front of it: the generation, an open gate and the length.
const FRONT: usize = 13;

/// How many octets `Spool::compact` puts around the body that it is given, in the memory of that body.
pub const RENEWAL_OVERHEAD: usize = FRONT + 1;

/// Returns what is after the head gate of a spool of this generation with this body alone. It is made in the memory of
/// the body, and fails only if that has no room for these octets and can't be given any.
pub(crate) fn renewal_of(generation: u64, body: Vec<u8>) -> Result<Vec<u8>, AllocError>
    requires { length body.items < 2 ^ 32 }
    ensures renewal { IfOk result (λ octets. IsRenewal octets.items generation body.items) }
    ensures room { length body.items + 14 ≤ vec_capacity body → IsOk result }
{
    let size = (body.len() as u32).to_be_bytes();
    let mut octets = body;
    octets.push(CLOSED)?;
    octets.extend_from_slice(&generation.to_be_bytes())?;
    octets.push(OPEN)?;
    octets.extend_from_slice(&size)?;
    octets.rotate_right(FRONT);
    Ok(octets)
}

/// Writes a spool with one body to the disk that isn't taken, which is then, by five calls, or by seven where its head
/// is open. The disk that was taken is unchanged.
pub(crate) fn renew<D: Disk>(
    disks: &mut Disks<D>,
    taken: Taken,
    gate: HeadGate,
    octets: &[u8],
) -> Result<(), DiskFault>
    requires { D.honest → IsGateOf (D.words.seen (other taken.side disks.old)) (Some gate) }
    ensures renewed { D.honest → (before : List (List ℕ)) (body : List ℕ)
        → Rests D.words disks.old taken before → IsRenewal octets.now (taken.generation + 1) body
        → OnOk result (Rests D.words disks.new (renewed_taken taken) (body ∷ [])) }
    ensures stop { D.honest → (before : List (List ℕ)) (body : List ℕ)
        → Rests D.words disks.old taken before → IsRenewal octets.now (taken.generation + 1) body
        → AtEachMoment D.words disks.old disks.new (HasBodies (IsBeforeOrOne before body)) }
    ensures failures { CountsFailure D.words disks.old disks.new result }
    ensures calls { Makes D.words (renewal_calls (Some gate)) disks.old disks.new result }
{
    let side = taken.side.turned();
    disks.turn(side);
    let answer = write_anew(&mut disks.first, gate, octets);
    disks.turn(side);
    answer
}

/// Writes a spool to a disk that has a head gate. An open one is closed first.
fn write_anew<D: Disk>(disk: &mut D, gate: HeadGate, octets: &[u8]) -> Result<(), DiskFault>
    requires { D.honest → IsGateOf (D.words.seen disk.old) (Some gate) }
    ensures renewed { D.honest → OnOk result (D.words.seen disk.new ≡ renewed octets.now) }
    ensures settled { D.honest → OnOk result (IsSettled D.words disk.new) }
    ensures stop { D.honest → IsSettled D.words disk.old → AtEachDiskMoment D.words disk.old disk.new
        (IsOldOrNew (D.words.seen disk.old) (renewed octets.now)) }
    ensures failures { CountsDiskFailure D.words disk.old disk.new result }
    ensures calls { DiskMakes D.words (renewal_calls (Some gate)) disk.old disk.new result }
{
    match gate {
        HeadGate::Open => {
            close_head(disk)?;
            write_closed(disk, octets)
        }
        HeadGate::Closed => write_closed(disk, octets),
    }
}

/// Closes an open head gate, by two calls.
pub(crate) fn close_head<D: Disk>(disk: &mut D) -> Result<(), DiskFault>
    requires { D.honest → HasHeadGate (D.words.seen disk.old)
        × (slice_index (D.words.seen disk.old) 8 ≡ 1) }
    ensures written { D.honest → OnOk result
        (D.words.seen disk.new ≡ written (D.words.seen disk.old) 8 (0 ∷ [])) }
    ensures closed { D.honest → OnOk result (HasHeadGate (D.words.seen disk.new)
        × (slice_index (D.words.seen disk.new) 8 ≢ 1)) }
    ensures settled { D.honest → OnOk result (IsSettled D.words disk.new) }
    ensures stop { D.honest → IsSettled D.words disk.old → AtEachDiskMoment D.words disk.old disk.new
        (IsClosedOr (D.words.seen disk.old)) }
    ensures failures { CountsDiskFailure D.words disk.old disk.new result }
    ensures calls { DiskMakes D.words 2 disk.old disk.new result }
{
    writes_leave_the_rest();
    write_through(disk, HEAD_GATE, &[CLOSED])
}

/// Writes a spool after a closed head gate, and then opens that, by five calls.
fn write_closed<D: Disk>(disk: &mut D, octets: &[u8]) -> Result<(), DiskFault>
    requires { D.honest → HasHeadGate (D.words.seen disk.old)
        × (slice_index (D.words.seen disk.old) 8 ≢ 1) }
    ensures renewed { D.honest → OnOk result (D.words.seen disk.new ≡ renewed octets.now) }
    ensures settled { D.honest → OnOk result (IsSettled D.words disk.new) }
    ensures stop { D.honest → IsSettled D.words disk.old
        → AtEachDiskMoment D.words disk.old disk.new (IsClosedOr (renewed octets.now)) }
    ensures failures { CountsDiskFailure D.words disk.old disk.new result }
    ensures calls { DiskMakes D.words 5 disk.old disk.new result }
{
    writes_leave_the_rest();
    fill(disk, octets)?;
    open_gate(disk, HEAD_GATE)
}

/// Writes all but the gate, after a closed one, by three calls.
fn fill<D: Disk>(disk: &mut D, octets: &[u8]) -> Result<(), DiskFault>
    requires { D.honest → HasHeadGate (D.words.seen disk.old)
        × (slice_index (D.words.seen disk.old) 8 ≢ 1) }
    ensures filled { D.honest → OnOk result (IsFilled (D.words.seen disk.new) octets.now) }
    ensures settled { D.honest → OnOk result (IsSettled D.words disk.new) }
    ensures stop { D.honest → IsSettled D.words disk.old
        → AtEachDiskMoment D.words disk.old disk.new IsNotOpen }
    ensures failures { CountsDiskFailure D.words disk.old disk.new result }
    ensures calls { DiskMakes D.words 3 disk.old disk.new result }
{
    disk.cut(GENERATION)?;
    disk.write_at(GENERATION, octets)?;
    disk.sync()
}
