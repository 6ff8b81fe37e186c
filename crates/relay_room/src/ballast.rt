//! A file of zeros beside the spool, which takes room on its disk until outcomes need that.
ghost use Rattle.std.specs.Prelude.{◌≡◌, ◌≤◌, ◌<◌, ◌*◌, ◌+◌, ◌^◌, min, [], length, IfOk, OnOk};
ghost use Rattle.relay_disk.specs.Device.{CountsFailure, Fails, FailsNot, IsSettled};
ghost use Rattle.relay_room.specs.Room.{HasHeld, Lasts, ballast_of, kept_of};

use relay_disk::{Disk, DiskFault};

/// How many octets are written by one call.
const BLOCK: usize = 4_096;

/// Returns how many octets a ballast has for a relay whose messages have up to this many: 64 outcomes with reports that
/// return headers, and one that returns a whole message; and no fewer than 4 MiB.
pub fn ballast_size(max_content: usize) -> u32
    requires { max_content ≤ 2 ^ 24 }
    ensures { result ≡ ballast_of max_content }
{
    (max_content + 2_228_224).max(4_194_304) as u32
}

/// Gives the ballast up: its octets are room for others then.
pub fn give_up<D: Disk>(disk: &mut D) -> Result<(), DiskFault>
    ensures empty { D.honest → OnOk result (D.words.seen disk.new ≡ []) }
    ensures settled { D.honest → OnOk result (IsSettled D.words disk.new) }
    ensures time { D.honest → Lasts D.words disk.old disk.new }
    ensures failures { CountsFailure D.words disk.old disk.new result }
{
    disk.cut(0)?;
    disk.sync()
}

/// Tests how much room the disk has, up to twice the size of the ballast, in octets: this many are written and synced.
/// If all of them are there, the ballast stays; else nothing does, and a write has failed. A failure to sync or to cut
/// is a fault.
pub fn test_room<D: Disk>(disk: &mut D, size: usize) -> Result<usize, DiskFault>
    requires { size < 2 ^ 62 }
    ensures held { D.honest → IfOk result (HasHeld D.words disk.old disk.new) }
    ensures left { D.honest → IfOk result (λ room. length (D.words.seen disk.new) ≡ kept_of room size) }
    ensures settled { D.honest → OnOk result (IsSettled D.words disk.new) }
    ensures most { IfOk result (λ room. room ≤ size * 2) }
    ensures whole { IfOk result (λ room. room ≡ size * 2 → FailsNot D.words disk.old disk.new) }
    ensures part { IfOk result (λ room. room < size * 2 → Fails D.words disk.old disk.new) }
{
    give_up(disk)?;
    let most = size * 2;
    let room = write_zeros(disk, most);
    disk.sync()?;
    disk.cut(if room == most { size } else { 0 })?;
    disk.sync()?;
    Ok(room)
}

/// Writes zeros on an empty disk, up to this many, as far as that goes: how many are there.
pub(crate) fn write_zeros<D: Disk>(disk: &mut D, most: usize) -> usize
    requires { D.honest → D.words.seen disk.old ≡ [] }
    ensures there { D.honest → result ≤ length (D.words.seen disk.new) }
    ensures time { D.honest → Lasts D.words disk.old disk.new }
    ensures most { result ≤ most }
    ensures whole { result ≡ most → D.honest → length (D.words.seen disk.new) ≡ most }
    ensures failed { result < most → Fails D.words disk.old disk.new }
    ensures ok { result ≡ most → FailsNot D.words disk.old disk.new }
{
    let zeros = [0; BLOCK];
    let mut room = 0;
    while room < most {
        let step = BLOCK.min(most - room);
        match disk.write_at(room, &zeros[..step]) {
            Ok(()) => room += step,
            Err(_) => return room,
        }
    }
    room
}
