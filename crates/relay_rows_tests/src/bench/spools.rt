use crate::answer::Answer;
use crate::bench::disks::files;
use relay_disk::FileDisk;
use relay_spool::Spool;
use std::fs::{File, OpenOptions};
use std::io;
use std::os::unix::fs::FileExt;
use std::test::Fail;

/// Opens the spool in these files, and counts its bodies and their octets.
pub fn open_spool(rt: &HostRuntime, told: &mut Answer, path: &str) -> Result<(), Fail> {
    match Spool::open(rt.alloc(), files(rt, path)?) {
        Ok(opened) => {
            told.count("", opened.bodies.len() as u64);
            told.count(" bodies in ", opened.spool.size() as u64);
            told.say(" octets");
            Ok(())
        }
        Err(_) => Err(Fail::new("the spool was refused")),
    }
}

/// Makes a spool in these files, which are to be empty, and appends a body this many times.
pub fn append_bodies(
    rt: &HostRuntime,
    told: &mut Answer,
    times: u64,
    body: &[u8],
    path: &str,
) -> Result<(), Fail> {
    match Spool::create(rt.alloc(), files(rt, path)?) {
        Ok(spool) => append_each(told, spool, times, body),
        Err(_) => Err(Fail::new("the spool was refused")),
    }
}

/// Appends a body this many times.
fn append_each(
    told: &mut Answer,
    mut spool: Spool<FileDisk>,
    times: u64,
    body: &[u8],
) -> Result<(), Fail> {
    if !takes_each(&mut spool, times, body) {
        return Err(Fail::new("a body was refused"));
    }
    told.count("", times);
    told.count(" bodies, ", spool.size() as u64);
    told.say(" octets");
    Ok(())
}

/// Appends a body this many times, and says whether the spool took each.
fn takes_each(spool: &mut Spool<FileDisk>, times: u64, body: &[u8]) -> bool {
    if u32::try_from(body.len()).is_err() {
        return false;
    }
    for _ in 0..times {
        if !spool.is_live() || spool.append(body).is_err() {
            return false;
        }
    }
    true
}

/// Does on a bare file what the device does for this many appends that add as many octets each, and no more: the
/// octets, a sync, an octet before them, a sync.
pub fn sync_twice(
    rt: &HostRuntime,
    told: &mut Answer,
    times: u64,
    octets: &[u8],
    path: &str,
) -> Result<(), Fail> {
    let file = OpenOptions::new().write(true).create(true).open(rt, path)?;
    let mut place: u64 = 0;
    for _ in 0..times {
        sync_link(&file, place, octets)?;
        place = place.saturating_add(octets.len() as u64);
    }
    told.count("", times);
    told.count(" times two, ", place);
    told.say(" octets");
    Ok(())
}

/// Writes these octets after a place, and then an octet there, with a sync after each write.
fn sync_link(file: &File, place: u64, octets: &[u8]) -> io::Result<()> {
    file.write_all_at(octets, place.saturating_add(1))?;
    file.sync_data()?;
    file.write_all_at(b"1", place)?;
    file.sync_data()
}
