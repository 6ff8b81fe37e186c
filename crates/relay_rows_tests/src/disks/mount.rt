//! Steps that turn what is held into another thing; other steps are those of a disk or of a spool.
//!
//! - `disk OCTETS`: a disk in memory with this image;
//! - `with OCTETS`: that disk as the first of two, and a second one with this image;
//! - `exchanged`: the two disks, of which the second is now the first;
//! - `anew`: a disk in memory with the image of the one in hand, or two;
//! - `stop PICK`: what a stop leaves of the disk, or of both, by the pick;
//! - `create`, `open`: a spool on the disks in hand, which answers how many bodies and octets it has;
//! - `bodiless`: nothing of the disks in hand, which answers whether they hold no spool, or one without a body;
//! - `unmount`: the disks of the spool.
use crate::answer::{Answer, RowsFault};
use crate::disks::device::{ask_disk, ask_disks, ask_spool, number_of};
use crate::disks::held::{Held, Mounted};
use crate::disks::octets::octets_of;
use relay_disk::{Disks, MemoryDisk, Reboot};
use relay_pieces::Pieces;
use relay_spool::{Opened, Refused, Spool, SpoolFault};
use std::alloc::Global;
use std::mem;

/// Takes a step, and tells what it answers.
pub fn take_step(held: &mut Held, step: &str, number: u64, answer: &mut Answer) {
    let (name, text) = step.split_once(' ').unwrap_or((step, ""));
    *held = mem::replace(held, Held::Nothing).turned(answer, name, text, number);
}

/// Returns a disk with the image that a text writes.
pub fn disk_of_text(answer: &mut Answer, text: &str) -> MemoryDisk {
    let image = octets_of(answer, text);
    disk_of(answer, image.as_slice())
}

/// Returns a disk with this image.
fn disk_of(answer: &mut Answer, image: &[u8]) -> MemoryDisk {
    match MemoryDisk::with_image(answer.alloc, image) {
        Ok(disk) => disk,
        Err(_) => {
            answer.stop(RowsFault::NoMemory);
            MemoryDisk::new(answer.alloc)
        }
    }
}

/// Returns what becomes of a disk by a step.
pub fn turn_disk(
    answer: &mut Answer,
    mut disk: MemoryDisk,
    name: &str,
    text: &str,
    number: u64,
) -> Held {
    match name {
        "with" => {
            answer.say("ok");
            let second = disk_of_text(answer, text);
            Held::Disks(Disks {
                first: disk,
                second,
            })
        }
        "anew" => {
            answer.say("ok");
            Held::Disk(disk_of(answer, disk.image()))
        }
        "stop" => stop_disk(answer, disk, number_of(text, number)),
        _ => {
            ask_disk(answer, &mut disk, name, text, number);
            Held::Disk(disk)
        }
    }
}

fn stop_disk(answer: &mut Answer, disk: MemoryDisk, pick: u64) -> Held {
    answer.say("ok");
    match disk.after_stop(pick) {
        Ok(stopped) => Held::Disk(stopped),
        Err(_) => {
            answer.stop(RowsFault::NoMemory);
            Held::Nothing
        }
    }
}

/// Returns what becomes of two disks by a step.
pub fn turn_disks(
    answer: &mut Answer,
    mut disks: Disks<MemoryDisk>,
    name: &str,
    text: &str,
    number: u64,
) -> Held {
    match name {
        "exchanged" => exchanged(answer, disks),
        "anew" => both_again(answer, &disks),
        "stop" => stop_disks(answer, disks, number_of(text, number)),
        "create" => created(answer, disks),
        "open" => opened(answer, disks),
        "bodiless" => {
            answer.decide(is_bodiless(answer.alloc, disks));
            Held::Nothing
        }
        _ => {
            ask_disks(answer, &mut disks, name, text, number);
            Held::Disks(disks)
        }
    }
}

fn exchanged(answer: &mut Answer, disks: Disks<MemoryDisk>) -> Held {
    answer.say("ok");
    let Disks { first, second } = disks;
    Held::Disks(Disks {
        first: second,
        second: first,
    })
}

fn both_again(answer: &mut Answer, disks: &Disks<MemoryDisk>) -> Held {
    answer.say("ok");
    let first = disk_of(answer, disks.first.image());
    let second = disk_of(answer, disks.second.image());
    Held::Disks(Disks { first, second })
}

fn stop_disks(answer: &mut Answer, disks: Disks<MemoryDisk>, pick: u64) -> Held {
    answer.say("ok");
    match disks.after_stop(pick) {
        Ok(stopped) => Held::Disks(stopped),
        Err(_) => {
            answer.stop(RowsFault::NoMemory);
            Held::Nothing
        }
    }
}

/// Returns what becomes of a spool by a step.
pub fn turn_spool(answer: &mut Answer, mut mounted: Mounted, name: &str, text: &str) -> Held {
    if name == "unmount" {
        answer.say("ok");
        return Held::Disks(mounted.into_disks());
    }
    ask_spool(answer, &mut mounted, name, text);
    Held::Spool(mounted)
}

fn created(answer: &mut Answer, disks: Disks<MemoryDisk>) -> Held {
    match Spool::create(answer.alloc, disks) {
        Ok(spool) => hold(answer, spool, Vec::new(answer.alloc)),
        Err(refused) => refuse(answer, refused),
    }
}

fn opened(answer: &mut Answer, disks: Disks<MemoryDisk>) -> Held {
    match Spool::open(answer.alloc, disks) {
        Ok(Opened { spool, bodies }) => hold(answer, spool, bodies),
        Err(refused) => refuse(answer, refused),
    }
}

/// Returns whether disks hold no spool, or one without a body.
fn is_bodiless(alloc: Global, disks: Disks<MemoryDisk>) -> bool {
    match Spool::open(alloc, disks) {
        Ok(opened) => opened.bodies.is_empty(),
        Err(refused) => refused.fault == SpoolFault::NotASpool,
    }
}

fn hold(answer: &mut Answer, spool: Spool<MemoryDisk>, bodies: Vec<Pieces>) -> Held {
    answer.count("", bodies.len() as u64);
    answer.count(" in ", spool.size() as u64);
    Held::Spool(Mounted { spool, bodies })
}

fn refuse(answer: &mut Answer, refused: Refused<MemoryDisk>) -> Held {
    let Refused { fault, disk } = refused;
    answer.show(&fault);
    Held::Disks(disk)
}
