//! Records made on empty disks, and opened on disks that hold a spool.
ghost use Rattle.std.specs.Prelude.{◌≡◌, [], None, IfErr, IfOk, MatchResult, OnOk};
ghost use Rattle.relay_disk.specs.Disks.{FailsNot, LeavesNothing, no_octets, seen_of};
ghost use Rattle.relay_spool.specs.Pair.{HasNoBody};
ghost use Rattle.relay_spool.specs.Spool.{AtEachMoment, CallsUpTo, OnlyReads, Passes, PassesAny};
ghost use Rattle.relay_records.specs.Records.{Keeps};
ghost use Rattle.relay_records.specs.Open.{FailsFor, Opens, RefusesDisk, RefusesImage};

use crate::fault::{Cause, NotOpened};
use crate::reading::read_bodies;
use crate::records::Records;
use relay_book::Book;
use relay_disk::{Disk, Disks};
use relay_spool::{Opened, Spool};
use std::alloc::Global;

impl<D: Disk> Records<D> {
    /// No changes, on two disks of size 0. Disks of which one isn't empty come back unchanged, and disks that failed
    /// with any octets. Allocates nothing.
    pub fn create(alloc: Global, disk: Disks<D>) -> Result<Self, NotOpened<D>>
        ensures keeps { IfOk result (λ records. Keeps D.honest D.words records []) }
        ensures new { IfOk result (λ records. (records.noted ≡ None) × (records.spool.size ≡ 18)) }
        ensures empty { D.honest → OnOk result (seen_of D.words disk ≡ no_octets) }
        ensures refused { IfErr result
            (λ refused. RefusesDisk D.honest D.words disk refused.disk refused.cause) }
        ensures stop { D.honest → LeavesNothing D.words disk → MatchResult result
            (λ records. AtEachMoment D.words disk records.spool.disk HasNoBody)
            (λ refused. AtEachMoment D.words disk refused.disk HasNoBody) }
        ensures failures { MatchResult result (λ records. FailsNot D.words disk records.spool.disk)
            (λ refused. FailsFor D.words disk refused.disk refused.cause) }
        ensures calls { MatchResult result (λ records. Passes D.words 8 disk records.spool.disk)
            (λ refused. CallsUpTo D.words 8 disk refused.disk) }
    {
        match Spool::create(alloc, disk) {
            Ok(spool) => Ok(Records {
                spool,
                book: Book::new(alloc),
                noted: None,
            }),
            Err(refused) => Err(NotOpened {
                cause: Cause::Spool(refused.fault),
                disk: refused.disk,
            }),
        }
    }

    /// Returns the changes that disks hold. The disks are synced and read, and not written: where they are refused,
    /// they come back as they were. It needs memory for the bodies, and beside them for a block and the queue; each
    /// body is let go when it has been read, or has become a message's text.
    pub fn open(alloc: Global, disk: Disks<D>) -> Result<Self, NotOpened<D>>
        ensures opens { IfOk result (Opens D.honest D.words disk) }
        ensures refused { IfErr result (λ refused. RefusesImage D.honest (seen_of D.words disk) refused.cause) }
        ensures keeps { D.honest → MatchResult result
            (λ records. OnlyReads D.words disk records.spool.disk)
            (λ refused. OnlyReads D.words disk refused.disk) }
        ensures failures { MatchResult result (λ records. FailsNot D.words disk records.spool.disk)
            (λ refused. FailsFor D.words disk refused.disk refused.cause) }
        ensures calls { IfErr result (λ refused. PassesAny D.words disk refused.disk) }
    {
        match Spool::open(alloc, disk) {
            Ok(Opened { spool, bodies }) => match read_bodies(alloc, bodies) {
                Ok(book) => Ok(Records {
                    spool,
                    book,
                    noted: None,
                }),
                Err(cause) => Err(NotOpened {
                    cause,
                    disk: spool.into_disk(),
                }),
            },
            Err(refused) => Err(NotOpened {
                cause: Cause::Spool(refused.fault),
                disk: refused.disk,
            }),
        }
    }
}
