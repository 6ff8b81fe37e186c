//! Steps that call a disk, or two, or a spool and leave it in hand.
//!
//! - of a disk `size`, `sync`, `failures`, `write PLACE OCTETS`, `cut SIZE` and `fuse CALLS`; `image OCTETS` asks
//!   whether that is the image, and `read PLACE OCTETS` whether that is what is read;
//! - of two disks `fuse CALLS`, and `first STEP` and `second STEP` for a step of one of them;
//! - of a spool `size`, `live`, `fuse CALLS`, `append OCTETS` and `compact OCTETS`; `body INDEX OCTETS` asks whether
//!   that is the body with which the spool was opened.
use crate::answer::Answer;
use crate::disks::calls::{append, compact};
use crate::disks::held::Mounted;
use crate::disks::octets::octets_of;
use relay_disk::{Disk, DiskFault, Disks, MemoryDisk, Reboot};
use relay_pieces::Pieces;
use relay_spool::SpoolFault;

/// Returns the number that a text writes, where `N` is this one.
pub fn number_of(text: &str, number: u64) -> u64 {
    if text == "N" {
        number
    } else {
        text.parse::<u64>().unwrap_or(0)
    }
}

/// Tells what a disk answers to a step.
pub fn ask_disk(answer: &mut Answer, disk: &mut MemoryDisk, name: &str, text: &str, number: u64) {
    match name {
        "size" => tell_size(answer, disk.size()),
        "sync" => answer.done(disk.sync()),
        "failures" => answer.count("", disk.failures()),
        "fuse" => {
            disk.fuse(number_of(text, number));
            answer.say("ok");
        }
        "image" => {
            let image = octets_of(answer, text);
            answer.decide(disk.image() == image.as_slice());
        }
        _ => call_at(answer, disk, name, text, number),
    }
}

/// Tells a size, or the fault of the call that asked for it.
fn tell_size(answer: &mut Answer, size: Result<usize, DiskFault>) {
    match size {
        Ok(size) => answer.count("", size as u64),
        Err(fault) => answer.show(&fault),
    }
}

/// The same of a step at a place.
fn call_at(answer: &mut Answer, disk: &mut MemoryDisk, name: &str, text: &str, number: u64) {
    let (place, octets) = text.split_once(' ').unwrap_or((text, "-"));
    let place = number_of(place, number) as usize;
    let octets = octets_of(answer, octets);
    if disk.image().len() < place {
        return answer.say("no place");
    }
    match name {
        "write" => answer.done(disk.write_at(place, octets.as_slice())),
        "read" => read(answer, disk, place, octets.as_slice()),
        "cut" => answer.done(disk.cut(place)),
        _ => answer.say("no step"),
    }
}

/// Returns whether these octets are read, at a place within the disk.
fn read(answer: &mut Answer, disk: &mut MemoryDisk, place: usize, octets: &[u8]) {
    let mut into = Vec::new(answer.alloc);
    for octet in octets {
        answer.push(&mut into, octet.wrapping_add(1));
    }
    match read_into(disk, place, into.as_mut_slice()) {
        Some(Ok(())) => answer.decide(into.as_slice() == octets),
        Some(Err(fault)) => answer.show(&fault),
        None => answer.say("no place"),
    }
}

/// Reads octets. It answers nothing if they pass the end.
fn read_into(
    disk: &mut MemoryDisk,
    place: usize,
    into: &mut [u8],
) -> Option<Result<(), DiskFault>> {
    let size = disk.image().len();
    if size < place || size - place < into.len() {
        return None;
    }
    Some(disk.read(place, into))
}

/// Tells what two disks answer to a step.
pub fn ask_disks(
    answer: &mut Answer,
    disks: &mut Disks<MemoryDisk>,
    name: &str,
    text: &str,
    number: u64,
) {
    let (step, rest) = text.split_once(' ').unwrap_or((text, ""));
    match name {
        "fuse" => {
            disks.fuse(number_of(text, number));
            answer.say("ok");
        }
        "first" => ask_disk(answer, &mut disks.first, step, rest, number),
        "second" => ask_disk(answer, &mut disks.second, step, rest, number),
        _ => answer.say("no step"),
    }
}

/// Tells what a spool answers to a step.
pub fn ask_spool(answer: &mut Answer, mounted: &mut Mounted, name: &str, text: &str) {
    match name {
        "size" => answer.count("", mounted.spool.size() as u64),
        "live" => answer.decide(mounted.spool.is_live()),
        "fuse" => {
            mounted.spool.fuse(number_of(text, 0));
            answer.say("ok");
        }
        "append" => {
            let body = octets_of(answer, text);
            tell_unless_spent(answer, append(&mut mounted.spool, body.as_slice()));
        }
        "compact" => {
            let body = octets_of(answer, text);
            tell_unless_spent(answer, compact(&mut mounted.spool, body));
        }
        "body" => ask_body(answer, mounted.bodies.as_slice(), text),
        _ => answer.say("no step"),
    }
}

fn tell_unless_spent(answer: &mut Answer, appended: Option<Result<(), SpoolFault>>) {
    match appended {
        Some(appended) => answer.done(appended),
        None => answer.say("spent"),
    }
}

/// Returns whether the body of this index has these octets.
fn ask_body(answer: &mut Answer, bodies: &[Pieces], text: &str) {
    let (index, octets) = text.split_once(' ').unwrap_or((text, "-"));
    let octets = octets_of(answer, octets);
    match bodies.get(number_of(index, 0) as usize) {
        Some(body) => answer.decide(has_octets(body, octets.as_slice())),
        None => answer.say("no"),
    }
}

fn has_octets(body: &Pieces, octets: &[u8]) -> bool {
    body.len() == octets.len() && body.front() == octets
}
