// A spool that is read body by body, without what can be added to it.
ghost use Rattle.std.specs.Prelude.{◌≡◌, ◌<◌, ◌^◌, ℕ, List, [], Some, true, is_some, IfErr, IfOk, IfSome};
ghost use Rattle.std.specs.Prelude.{IsTrue, MatchResult};
ghost use Rattle.relay_disk.specs.Device.{FailsNot as DiskFailsNot};
ghost use Rattle.relay_disk.specs.Disks.{FailsNot, mine, seen_of};
ghost use Rattle.relay_spool.specs.Blocks.{IsAt};
ghost use Rattle.relay_spool.specs.Cursor.{HasRead, HasReadOne, ReadsNext, ReadsOne};
ghost use Rattle.relay_spool.specs.Opening.{Chooses};
ghost use Rattle.relay_spool.specs.Run.{EachOnlyReads, FailsBy as DiskFailsBy, OnlyReads as DiskOnlyReads};
ghost use Rattle.relay_spool.specs.Run.{PassesAny as DiskPassesAny, RefusesToRead};
ghost use Rattle.relay_spool.specs.Spool.{FailsBy, MakesSome, PassesAny, RefusesToOpen};

mod part;

use crate::chain::{SIZE_LIMIT, next_body};
use crate::head::{HEAD_SIZE, read_head};
use crate::heads::Choice;
use crate::opening::{choose, read_second_head};
use crate::reader::Reader;
use crate::{Refused, SpoolFault};
use relay_disk::{Disk, Disks, Side};
use relay_pieces::Pieces;
use std::alloc::Global;
use std::marker::Model;

/// Reads a spool body by body, so that a caller need not hold all bodies at once. The disks are synced and read, and
/// not written.
pub struct Cursor<D: Disk> {
    alloc: Global,
    disk: Disks<D>,
    side: Side,
    reader: Reader,
    live: bool,
}

// Written out, so that the proof of a caller that drops a cursor stops at this function.
impl<D: Disk + Drop> Drop for Cursor<D> {
    fn drop(self) {
        let Cursor {
            alloc: _,
            disk: _disk,
            side: _,
            reader: _reader,
            live: _,
        } = self;
    }
}

impl<D: Disk> Model for Cursor<D> {
    ghost use Rattle.relay_spool.specs.Cursor.{AtGate, IsWithin, at_gate_code};

    ghost Value = { AtGate D };

    ghost coded = { at_gate_code D.code };

    ghost view = { λ c. record {
      disk = c.disk;
      side = c.side;
      place = c.reader.place;
      size = c.reader.size;
      live = c.live;
    } };

    ghost invariant = { λ c. IsWithin D.honest D.words c.reader c.live c.side c.disk };
}

impl<D: Disk> Cursor<D> {
    ghost use Rattle.relay_spool.specs.Spool.{PassesSome};

    /// Finds the spool that these disks hold, as [`Spool::open`](crate::Spool::open) does, and reads no body yet. Of
    /// the disk that is taken and of the other it reads the head alone. Disks that are refused come back, as they were.
    /// It needs memory for one block.
    pub fn start(alloc: Global, disk: Disks<D>) -> Result<Cursor<D>, Refused<D>>
        ensures start { D.honest → IfOk result
            (λ cursor. HasRead (seen_of D.words disk) cursor.side cursor.place []) }
        ensures live { IfOk result (λ cursor. cursor.live ≡ true) }
        ensures refused { IfErr result
            (λ refused. RefusesToOpen D.honest (seen_of D.words disk) refused.fault) }
        ensures keeps { D.honest → MatchResult result
            (λ cursor. EachOnlyReads D.words disk cursor.disk)
            (λ refused. EachOnlyReads D.words disk refused.disk) }
        ensures failures { MatchResult result (λ cursor. FailsNot D.words disk cursor.disk)
            (λ refused. FailsBy D.words disk refused.disk refused.fault) }
        ensures calls { MatchResult result (λ cursor. PassesSome D.words disk cursor.disk)
            (λ refused. PassesAny D.words disk refused.disk) }
    {
        let mut disk = disk;
        match choose_disk(&mut disk) {
            Ok(choice) => match Reader::new(alloc, HEAD_SIZE, choice.head.size) {
                Ok(reader) => Ok(Cursor {
                    alloc,
                    disk,
                    side: choice.taken.side,
                    reader,
                    live: true,
                }),
                Err(_) => Err(Refused {
                    fault: SpoolFault::NoMemory,
                    disk,
                }),
            },
            Err(fault) => Err(Refused { fault, disk }),
        }
    }

    /// Returns the next body, or `None` after the last. Nothing more can be read then, or after a fault. Each octet is
    /// read once. It needs memory for the body.
    pub fn next(&mut self) -> Result<Option<Pieces>, SpoolFault>
        requires live { IsTrue self.old.live }
        ensures next { D.honest → (bodies : List (List ℕ))
            → HasRead (seen_of D.words self.old.disk) self.old.side self.old.place bodies
            → IfOk result (ReadsNext (seen_of D.words self.old.disk) self.old.side bodies self.new.place) }
        ensures live { IfOk result (λ body. self.new.live ≡ is_some body) }
        ensures moves { IfOk result (λ body. IfSome body
            (λ _. (self.old.place < self.new.place) × (self.new.place < self.new.size))) }
        ensures same { (self.new.side ≡ self.old.side) × (self.new.size ≡ self.old.size) }
        ensures bound { self.new.size < 2 ^ 64 }
        ensures refused { (bodies : List (List ℕ))
            → (D.honest → HasRead (seen_of D.words self.old.disk) self.old.side self.old.place bodies)
            → IfErr result (RefusesToOpen D.honest (seen_of D.words self.old.disk)) }
        ensures keeps { D.honest → EachOnlyReads D.words self.old.disk self.new.disk }
        ensures failures { MatchResult result (λ _. FailsNot D.words self.old.disk self.new.disk)
            (FailsBy D.words self.old.disk self.new.disk) }
        ensures calls { PassesAny D.words self.old.disk self.new.disk }
    {
        self.live = false;
        match read_next(self.alloc, &mut self.disk, self.side, &mut self.reader) {
            Ok(Some(body)) => {
                self.live = true;
                Ok(Some(body))
            }
            Ok(None) => Ok(None),
            Err(fault) => Err(fault),
        }
    }

    /// Returns the place of the next gate, or after the last body how many octets the spool takes.
    pub fn place(&self) -> usize
        ensures { result ≡ self.now.place }
    {
        self.reader.place
    }

    /// Returns the disks.
    pub fn into_disk(self) -> Disks<D>
        ensures { result ≡ self.disk }
    {
        let Cursor {
            alloc: _,
            disk,
            side: _,
            reader: _reader,
            live: _,
        } = self;
        disk
    }
}

/// Finds which of two disks is taken, and reads no body. Both are synced first, and none is written.
fn choose_disk<D: Disk>(disks: &mut Disks<D>) -> Result<Choice, SpoolFault>
    ensures chosen { D.honest → IfOk result (λ choice. Chooses (seen_of D.words disks.old) (Some choice)) }
    ensures refused { IfErr result (RefusesToOpen D.honest (seen_of D.words disks.old)) }
    ensures keeps { D.honest → EachOnlyReads D.words disks.old disks.new }
    ensures failures { MatchResult result (λ _. FailsNot D.words disks.old disks.new)
        (FailsBy D.words disks.old disks.new) }
    ensures calls { MakesSome D.words disks.old disks.new result }
{
    let head = read_head(&mut disks.first)?;
    let other = read_second_head(disks)?;
    match choose(head, other) {
        Some(choice) => Ok(choice),
        None => Err(SpoolFault::NotASpool),
    }
}

/// Reads the next gate of the disk of this side, and the body after it where it is open.
fn read_next<D: Disk>(
    alloc: Global,
    disks: &mut Disks<D>,
    side: Side,
    reader: &mut Reader,
) -> Result<Option<Pieces>, SpoolFault>
    requires more { reader.old.place < reader.old.size }
    requires at { D.honest → IsAt (D.words.seen (mine side disks.old)) reader.old }
    ensures next { D.honest → (bodies : List (List ℕ))
        → HasRead (seen_of D.words disks.old) side reader.old.place bodies
        → IfOk result (ReadsNext (seen_of D.words disks.old) side bodies reader.new.place) }
    ensures moves { IfOk result (λ body. IfSome body
        (λ _. (reader.old.place < reader.new.place) × (reader.new.place < reader.new.size))) }
    ensures size { reader.new.size ≡ reader.old.size }
    ensures at { D.honest → IfOk result (λ _. IsAt (D.words.seen (mine side disks.new)) reader.new) }
    ensures refused { (bodies : List (List ℕ))
        → (D.honest → HasRead (seen_of D.words disks.old) side reader.old.place bodies)
        → IfErr result (RefusesToOpen D.honest (seen_of D.words disks.old)) }
    ensures keeps { D.honest → EachOnlyReads D.words disks.old disks.new }
    ensures failures { MatchResult result (λ _. FailsNot D.words disks.old disks.new)
        (FailsBy D.words disks.old disks.new) }
    ensures calls { PassesAny D.words disks.old disks.new }
{
    disks.turn(side);
    let body = read_one(alloc, &mut disks.first, reader);
    disks.turn(side);
    body
}

/// Returns the same of one disk. A spool of more than 2^40 octets is refused at its end.
#[tactic(auto, using(crate::proofs::CursorLemmas::read_end))]
fn read_one<D: Disk>(
    alloc: Global,
    disk: &mut D,
    reader: &mut Reader,
) -> Result<Option<Pieces>, SpoolFault>
    requires more { reader.old.place < reader.old.size }
    requires at { D.honest → IsAt (D.words.seen disk.old) reader.old }
    ensures next { D.honest → (bodies : List (List ℕ)) → HasReadOne (D.words.seen disk.old) reader.old.place bodies
        → IfOk result (ReadsOne (D.words.seen disk.old) bodies reader.new.place) }
    ensures moves { IfOk result (λ body. IfSome body
        (λ _. (reader.old.place < reader.new.place) × (reader.new.place < reader.new.size))) }
    ensures size { reader.new.size ≡ reader.old.size }
    ensures at { D.honest → IfOk result (λ _. IsAt (D.words.seen disk.new) reader.new) }
    ensures refused { (bodies : List (List ℕ))
        → (D.honest → HasReadOne (D.words.seen disk.old) reader.old.place bodies)
        → IfErr result (RefusesToRead D.honest (D.words.seen disk.old)) }
    ensures keeps { D.honest → DiskOnlyReads D.words disk.old disk.new }
    ensures failures { MatchResult result (λ _. DiskFailsNot D.words disk.old disk.new)
        (DiskFailsBy D.words disk.old disk.new) }
    ensures calls { DiskPassesAny D.words disk.old disk.new }
{
    let found = next_body(alloc, disk, reader)?;
    match found {
        Some(body) => Ok(Some(body)),
        None if reader.place > SIZE_LIMIT => Err(SpoolFault::Full),
        None => Ok(None),
    }
}
