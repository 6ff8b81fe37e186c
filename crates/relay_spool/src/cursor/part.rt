// A body that is read in parts, so that a caller need not hold the whole of a long one.
ghost use Rattle.std.specs.Prelude.{◌≡◌, ◌+◌, ◌<◌, ◌++◌, ℕ, List, true, is_some, length, IfErr, IfOk, IfSome};
ghost use Rattle.std.specs.Prelude.{IsTrue, MatchResult, OnOk};
ghost use Rattle.relay_disk.specs.Device.{FailsNot as DiskFailsNot};
ghost use Rattle.relay_disk.specs.Disks.{FailsNot, mine, seen_of};
ghost use Rattle.relay_spool.specs.Blocks.{IsAt};
ghost use Rattle.relay_spool.specs.Cursor.{HasRead, HasReadOne};
ghost use Rattle.relay_spool.specs.Part.{BeginsNext, BeginsOne, HasPart, HasPartOne, IsNoPart};
ghost use Rattle.relay_spool.specs.Run.{EachOnlyReads, FailsBy as DiskFailsBy, OnlyReads as DiskOnlyReads};
ghost use Rattle.relay_spool.specs.Run.{PassesAny as DiskPassesAny, RefusesToRead};
ghost use Rattle.relay_spool.specs.Spool.{FailsBy, PassesAny, RefusesToOpen};

use super::Cursor;
use crate::SpoolFault;
use crate::chain::{SIZE_LIMIT, next_length};
use crate::reader::Reader;
use relay_disk::{Disk, Disks, Side};
use std::alloc::Global;

impl<D: Disk> Cursor<D> {
    /// Begins the next body and returns its length in octets, or `None` after the last body. All its octets are read
    /// next, by `read_part`. A body that passes the end of the disk is refused here. Nothing more can be read after
    /// `None`, or after a fault. Allocates nothing.
    pub fn begin(&mut self) -> Result<Option<usize>, SpoolFault>
        requires live { IsTrue self.old.live }
        ensures begun { D.honest → (bodies : List (List ℕ))
            → HasRead (seen_of D.words self.old.disk) self.old.side self.old.place bodies
            → IfOk result (BeginsNext (seen_of D.words self.old.disk) self.old.side bodies self.new.place) }
        ensures live { IfOk result (λ left. self.new.live ≡ is_some left) }
        ensures within { IfOk result (λ left. IfSome left
            (λ count. (self.old.place < self.new.place) × (self.new.place + count < self.new.size))) }
        ensures same { (self.new.side ≡ self.old.side) × (self.new.size ≡ self.old.size) }
        ensures refused { (bodies : List (List ℕ))
            → (D.honest → HasRead (seen_of D.words self.old.disk) self.old.side self.old.place bodies)
            → IfErr result (RefusesToOpen D.honest (seen_of D.words self.old.disk)) }
        ensures keeps { D.honest → EachOnlyReads D.words self.old.disk self.new.disk }
        ensures failures { MatchResult result (λ _. FailsNot D.words self.old.disk self.new.disk)
            (FailsBy D.words self.old.disk self.new.disk) }
        ensures calls { PassesAny D.words self.old.disk self.new.disk }
    {
        self.live = false;
        match begin_next(&mut self.disk, self.side, &mut self.reader) {
            Ok(Some(left)) => {
                self.live = true;
                Ok(Some(left))
            }
            Ok(None) => Ok(None),
            Err(fault) => Err(fault),
        }
    }

    /// Returns the next octets of the body that `begin` began, this many. Nothing more can be read after a fault. It
    /// needs memory for these octets.
    pub fn read_part(&mut self, count: usize) -> Result<Vec<u8>, SpoolFault>
        requires live { IsTrue self.old.live }
        requires within { self.old.place + count < self.old.size }
        ensures part { D.honest → (left : ℕ) (bodies : List (List ℕ)) (part : List ℕ)
            → HasPart (seen_of D.words self.old.disk) self.old.side self.old.place (count + left) bodies part
            → IfOk result (λ octets. HasPart (seen_of D.words self.old.disk) self.old.side self.new.place left bodies
            (part ++ octets.items)) }
        ensures count { IfOk result (λ octets. length octets.items ≡ count) }
        ensures place { OnOk result (self.new.place ≡ self.old.place + count) }
        ensures live { OnOk result (self.new.live ≡ true) }
        ensures same { (self.new.side ≡ self.old.side) × (self.new.size ≡ self.old.size) }
        ensures refused { IfErr result IsNoPart }
        ensures keeps { D.honest → EachOnlyReads D.words self.old.disk self.new.disk }
        ensures failures { MatchResult result (λ _. FailsNot D.words self.old.disk self.new.disk)
            (FailsBy D.words self.old.disk self.new.disk) }
        ensures calls { PassesAny D.words self.old.disk self.new.disk }
    {
        self.live = false;
        match read_on(
            self.alloc,
            &mut self.disk,
            self.side,
            &mut self.reader,
            count,
        ) {
            Ok(octets) => {
                self.live = true;
                Ok(octets)
            }
            Err(fault) => Err(fault),
        }
    }
}

/// Reads the next gate of the disk of this side, and the length of the body after it where it is open.
fn begin_next<D: Disk>(
    disks: &mut Disks<D>,
    side: Side,
    reader: &mut Reader,
) -> Result<Option<usize>, SpoolFault>
    requires more { reader.old.place < reader.old.size }
    requires at { D.honest → IsAt (D.words.seen (mine side disks.old)) reader.old }
    ensures begun { D.honest → (bodies : List (List ℕ))
        → HasRead (seen_of D.words disks.old) side reader.old.place bodies
        → IfOk result (BeginsNext (seen_of D.words disks.old) side bodies reader.new.place) }
    ensures within { IfOk result (λ left. IfSome left
        (λ count. (reader.old.place < reader.new.place) × (reader.new.place + count < reader.new.size))) }
    ensures size { reader.new.size ≡ reader.old.size }
    ensures at { D.honest → IfOk result (λ _. IsAt (D.words.seen (mine side disks.new)) reader.new) }
    ensures refused { (bodies : List (List ℕ))
        → (D.honest → HasRead (seen_of D.words disks.old) side reader.old.place bodies)
        → IfErr result (RefusesToOpen D.honest (seen_of D.words disks.old)) }
    ensures keeps { D.honest → EachOnlyReads D.words disks.old disks.new }
    ensures failures { MatchResult result (λ _. FailsNot D.words disks.old disks.new)
        (FailsBy D.words disks.old disks.new) }
    ensures calls { PassesAny D.words disks.old disks.new }
{
    disks.turn(side);
    let left = begin_one(&mut disks.first, reader);
    disks.turn(side);
    left
}

/// Returns the same of one disk. A spool of more than 2^40 octets is refused at its end.
#[tactic(auto, using(crate::proofs::CursorLemmas::read_end))]
fn begin_one<D: Disk>(disk: &mut D, reader: &mut Reader) -> Result<Option<usize>, SpoolFault>
    requires more { reader.old.place < reader.old.size }
    requires at { D.honest → IsAt (D.words.seen disk.old) reader.old }
    ensures begun { D.honest → (bodies : List (List ℕ)) → HasReadOne (D.words.seen disk.old) reader.old.place bodies
        → IfOk result (BeginsOne (D.words.seen disk.old) bodies reader.new.place) }
    ensures within { IfOk result (λ left. IfSome left
        (λ count. (reader.old.place < reader.new.place) × (reader.new.place + count < reader.new.size))) }
    ensures size { reader.new.size ≡ reader.old.size }
    ensures at { D.honest → IfOk result (λ _. IsAt (D.words.seen disk.new) reader.new) }
    ensures refused { (bodies : List (List ℕ))
        → (D.honest → HasReadOne (D.words.seen disk.old) reader.old.place bodies)
        → IfErr result (RefusesToRead D.honest (D.words.seen disk.old)) }
    ensures keeps { D.honest → DiskOnlyReads D.words disk.old disk.new }
    ensures failures { MatchResult result (λ _. DiskFailsNot D.words disk.old disk.new)
        (DiskFailsBy D.words disk.old disk.new) }
    ensures calls { DiskPassesAny D.words disk.old disk.new }
{
    let found = next_length(disk, reader)?;
    match found {
        Some(left) => Ok(Some(left)),
        None if reader.place > SIZE_LIMIT => Err(SpoolFault::Full),
        None => Ok(None),
    }
}

/// Reads the next octets of the disk of this side, this many.
fn read_on<D: Disk>(
    alloc: Global,
    disks: &mut Disks<D>,
    side: Side,
    reader: &mut Reader,
    count: usize,
) -> Result<Vec<u8>, SpoolFault>
    requires more { reader.old.place + count < reader.old.size }
    requires at { D.honest → IsAt (D.words.seen (mine side disks.old)) reader.old }
    ensures part { D.honest → (left : ℕ) (bodies : List (List ℕ)) (part : List ℕ)
        → HasPart (seen_of D.words disks.old) side reader.old.place (count + left) bodies part
        → IfOk result (λ octets. HasPart (seen_of D.words disks.old) side reader.new.place left bodies
        (part ++ octets.items)) }
    ensures count { IfOk result (λ octets. length octets.items ≡ count) }
    ensures place { OnOk result (reader.new.place ≡ reader.old.place + count) }
    ensures size { reader.new.size ≡ reader.old.size }
    ensures at { D.honest → OnOk result (IsAt (D.words.seen (mine side disks.new)) reader.new) }
    ensures refused { IfErr result IsNoPart }
    ensures keeps { D.honest → EachOnlyReads D.words disks.old disks.new }
    ensures failures { MatchResult result (λ _. FailsNot D.words disks.old disks.new)
        (FailsBy D.words disks.old disks.new) }
    ensures calls { PassesAny D.words disks.old disks.new }
{
    disks.turn(side);
    let octets = read_on_one(alloc, &mut disks.first, reader, count);
    disks.turn(side);
    octets
}

/// Returns the same of one disk.
fn read_on_one<D: Disk>(
    alloc: Global,
    disk: &mut D,
    reader: &mut Reader,
    count: usize,
) -> Result<Vec<u8>, SpoolFault>
    requires more { reader.old.place + count < reader.old.size }
    requires at { D.honest → IsAt (D.words.seen disk.old) reader.old }
    ensures part { D.honest → (left : ℕ) (bodies : List (List ℕ)) (part : List ℕ)
        → HasPartOne (D.words.seen disk.old) reader.old.place (count + left) bodies part
        → IfOk result (λ octets. HasPartOne (D.words.seen disk.old) reader.new.place left bodies
        (part ++ octets.items)) }
    ensures count { IfOk result (λ octets. length octets.items ≡ count) }
    ensures place { OnOk result (reader.new.place ≡ reader.old.place + count) }
    ensures size { reader.new.size ≡ reader.old.size }
    ensures at { D.honest → OnOk result (IsAt (D.words.seen disk.new) reader.new) }
    ensures refused { IfErr result IsNoPart }
    ensures keeps { D.honest → DiskOnlyReads D.words disk.old disk.new }
    ensures failures { MatchResult result (λ _. DiskFailsNot D.words disk.old disk.new)
        (DiskFailsBy D.words disk.old disk.new) }
    ensures calls { DiskPassesAny D.words disk.old disk.new }
{
    let octets = reader.take_one(alloc, disk, count)?;
    Ok(octets)
}
