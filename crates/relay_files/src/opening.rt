//! Reading a spool without writing to it, also while a relay runs on it.
ghost use Rattle.std.specs.Prelude.{◌≡◌, IfOk, IfSome};
ghost use Rattle.relay_files.specs.Opening.{IsOpened};

use crate::fault::Fault;
use crate::settings::spool_files_to_read;
use relay_disk::{Disk, DiskFault, Disks, FileDisk};
use relay_records::{Cause, NotOpened, Records};
use relay_routes::Config;
use relay_spool::SpoolFault;
use std::alloc::Global;
use std::fs::File;
use std::rt::Files;

/// How often a spool is opened again, if a running relay compacts it while it is being read.
pub(crate) const OPENINGS: u32 = 1_000;

/// The octets at the start of a spool's file: the magic, a gate, and the generation.
const HEAD_SIZE: usize = 17;

/// What changes when a spool's file is compacted or grows: its first octets and its size, as far as they can be read.
#[derive(Clone, Copy, PartialEq, Eq)]
pub(crate) struct Sight {
    size: Result<usize, DiskFault>,
    head: Result<[u8; HEAD_SIZE], DiskFault>,
}

/// Opens the spool that a configuration names for reading only, without a lock. Returns the records that its files held
/// at some time during this call: a running relay may append to the spool and compact it meanwhile. The first file must
/// exist; no file is made or written.
pub fn open_to_read<F: Files<File = File>>(
    alloc: Global,
    files: &F,
    config: &Config,
) -> Result<Records<FileDisk>, Fault>
    ensures { IfOk result IsOpened }
{
    for _ in 0..OPENINGS {
        if let Some(records) = open_unless_it_changed(alloc, files, config)? {
            return Ok(records);
        }
    }
    Err(Fault::Device)
}

/// Returns the records of the spool, or `None` if the head of a file has changed, because a running relay has compacted
/// the spool. A running relay also appends: if a change appended meanwhile passes the end that the file had, the spool
/// is read as it was before that change.
fn open_unless_it_changed<F: Files<File = File>>(
    alloc: Global,
    files: &F,
    config: &Config,
) -> Result<Option<Records<FileDisk>>, Fault>
    ensures { IfOk result (λ found. IfSome found IsOpened) }
{
    let mut disks = spool_files_to_read(alloc, files, config)?;
    let sights = sights_of(&mut disks);
    match Records::open(alloc, disks) {
        Ok(records) => unless_changed(alloc, files, config, records, &sights),
        Err(NotOpened { cause, disk }) => {
            let mut disks = disk;
            if sights_of(&mut disks) == sights {
                return Err(Fault::from(cause));
            }
            match cause {
                Cause::Spool(SpoolFault::Damaged(gate)) => {
                    open_up_to(alloc, files, config, disks, gate, &sights)
                }
                _ => Ok(None),
            }
        }
    }
}

/// Returns the records of the spool as it was while the gate at this offset was closed, which a running relay has
/// opened since; `None` if that relay has compacted the spool.
fn open_up_to<F: Files<File = File>>(
    alloc: Global,
    files: &F,
    config: &Config,
    disks: Disks<FileDisk>,
    gate: usize,
    sights: &[Sight; 2],
) -> Result<Option<Records<FileDisk>>, Fault>
    ensures { IfOk result (λ found. IfSome found IsOpened) }
{
    let mut disks = disks;
    disks.first.reads_up_to(gate);
    disks.second.reads_up_to(gate);
    match Records::open(alloc, disks) {
        Ok(records) => unless_changed(alloc, files, config, records, sights),
        Err(_refused) => Ok(None),
    }
}

/// Returns the records, or `None` if the head of a file of their spool has changed.
fn unless_changed<F: Files<File = File>>(
    alloc: Global,
    files: &F,
    config: &Config,
    records: Records<FileDisk>,
    before: &[Sight; 2],
) -> Result<Option<Records<FileDisk>>, Fault>
    ensures { IfOk result (λ found. IfSome found (λ same. same ≡ records)) }
{
    let mut disks = spool_files_to_read(alloc, files, config)?;
    if have_heads_of(&sights_of(&mut disks), before) {
        Ok(Some(records))
    } else {
        Ok(None)
    }
}

/// Returns the head and the size of each of two files.
pub(crate) fn sights_of(disks: &mut Disks<FileDisk>) -> [Sight; 2] {
    [sight_of(&mut disks.first), sight_of(&mut disks.second)]
}

fn sight_of(disk: &mut FileDisk) -> Sight {
    let size = disk.size();
    let mut head = [0; HEAD_SIZE];
    match disk.read(0, &mut head) {
        Ok(()) => Sight {
            size,
            head: Ok(head),
        },
        Err(fault) => Sight {
            size,
            head: Err(fault),
        },
    }
}

/// Returns whether each file has the same head as before, so that it wasn't compacted while it was read.
pub(crate) fn have_heads_of(now: &[Sight; 2], before: &[Sight; 2]) -> bool {
    now[0].head == before[0].head && now[1].head == before[1].head
}
