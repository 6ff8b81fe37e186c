//! Looking at a spool's queue without its texts, also while a relay runs on it.
ghost use Rattle.std.specs.Prelude.{◌≡◌, IfOk, IfSome};
ghost use Rattle.relay_book.specs.Queue.{Queue};
ghost use Rattle.relay_files.specs.Opening.{IsLook};

use crate::fault::Fault;
use crate::opening::{OPENINGS, Sight, have_heads_of, sights_of};
use crate::settings::spool_files_to_read;
use relay_disk::{Disks, FileDisk};
use relay_outlines::{Look, Looked, look_at};
use relay_records::{Cause, NotOpened};
use relay_routes::Config;
use relay_spool::SpoolFault;
use std::alloc::Global;
use std::fs::File;
use std::rt::Files;

/// Opens the spool that a configuration names as [`open_to_read`](crate::open_to_read) does, and returns a look at its
/// queue. No more than one body of the spool is in memory at a time. It fails as that does.
pub fn open_to_look<F: Files<File = File>>(
    alloc: Global,
    files: &F,
    config: &Config,
) -> Result<Look, Fault>
    ensures { IfOk result (λ look. (queue : Queue) × IsLook look queue) }
{
    for _ in 0..OPENINGS {
        if let Some(look) = look_unless_it_changed(alloc, files, config)? {
            return Ok(look);
        }
    }
    Err(Fault::Device)
}

/// Returns a look at the queue, or `None` if the head of a file has changed, because a running relay has compacted the
/// spool. A running relay also appends: if a change appended meanwhile passes the end that the file had, the queue is
/// that before the change.
fn look_unless_it_changed<F: Files<File = File>>(
    alloc: Global,
    files: &F,
    config: &Config,
) -> Result<Option<Look>, Fault>
    ensures { IfOk result (λ found. IfSome found (λ look. (queue : Queue) × IsLook look queue)) }
{
    let mut disks = spool_files_to_read(alloc, files, config)?;
    let sights = sights_of(&mut disks);
    match look_at(alloc, disks) {
        Ok(Looked { look, disk: _disk }) => look_unless_changed(
            alloc, files, config, look, &sights,
        ),
        Err(NotOpened { cause, disk }) => {
            let mut disks = disk;
            if sights_of(&mut disks) == sights {
                return Err(Fault::from(cause));
            }
            match cause {
                Cause::Spool(SpoolFault::Damaged(gate)) => {
                    look_up_to(alloc, files, config, disks, gate, &sights)
                }
                _ => Ok(None),
            }
        }
    }
}

/// Returns a look at the queue as it was while the gate at this offset was closed, which a running relay has opened
/// since; `None` if that relay has compacted the spool.
fn look_up_to<F: Files<File = File>>(
    alloc: Global,
    files: &F,
    config: &Config,
    disks: Disks<FileDisk>,
    gate: usize,
    sights: &[Sight; 2],
) -> Result<Option<Look>, Fault>
    ensures { IfOk result (λ found. IfSome found (λ look. (queue : Queue) × IsLook look queue)) }
{
    let mut disks = disks;
    disks.first.reads_up_to(gate);
    disks.second.reads_up_to(gate);
    match look_at(alloc, disks) {
        Ok(Looked { look, disk: _disk }) => look_unless_changed(alloc, files, config, look, sights),
        Err(_refused) => Ok(None),
    }
}

/// Returns the look, or `None` if the head of a file of the spool has changed.
fn look_unless_changed<F: Files<File = File>>(
    alloc: Global,
    files: &F,
    config: &Config,
    look: Look,
    before: &[Sight; 2],
) -> Result<Option<Look>, Fault>
    ensures { IfOk result (λ found. IfSome found (λ same. same ≡ look)) }
{
    let mut disks = spool_files_to_read(alloc, files, config)?;
    if have_heads_of(&sights_of(&mut disks), before) {
        Ok(Some(look))
    } else {
        Ok(None)
    }
}
