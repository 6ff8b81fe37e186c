use relay_disk::{Disks, FileDisk};
use std::fs;
use std::test::Fail;

/// Returns the two files of the spool at this path, which are made where they aren't there.
pub fn files(rt: &HostRuntime, path: &str) -> Result<Disks<FileDisk>, Fail> {
    let second = second_of(rt, path)?;
    Ok(Disks {
        first: FileDisk::open(rt, path)?,
        second: FileDisk::open(rt, second.as_str())?,
    })
}

/// Takes away the files of the spool at this path, if they are there.
pub fn forget(rt: &HostRuntime, path: &str) -> Result<(), Fail> {
    let _ = fs::remove_file(rt, path);
    let _ = fs::remove_file(rt, second_of(rt, path)?.as_str());
    Ok(())
}

fn second_of(rt: &HostRuntime, path: &str) -> Result<String, Fail> {
    Ok(format!(in rt.alloc(); "{path}.2")?)
}
