//! A configuration file, and the spool that it names.
ghost use Rattle.std.specs.Prelude.{◌≡◌, ◌↔◌, ℕ, false, true, List, IfOk, IsOk, IsTrue, Err, Ok};
ghost use Rattle.relay_node.specs.Node.{IsIdle};
ghost use Rattle.relay_routes.specs.Config.{ReadsConfig};

use crate::fault::Fault;
use relay_disk::{Disks, FileDisk};
use relay_node::Node;
use relay_routes::Config;
use std::alloc::{AllocError, Global};
use std::fs::{self, File};
use std::io;
use std::path::Path;
use std::rt::Files;

/// Returns the configuration in the file at this path. Faults are checked in this order: the file, its content.
pub fn configuration<F: Files<File = File>>(
    alloc: Global,
    files: &F,
    path: &str,
) -> Result<Config, Fault>
    ensures { IfOk result (λ config. (text : List ℕ) × ReadsConfig text (Ok config)) }
{
    let text = configuration_text(alloc, files, path)?;
    Ok(Config::read(alloc, text.as_str())?)
}

/// Returns the configuration in the file at this path twice, from one reading of the file, because a node keeps one for
/// itself. Faults are checked in the same order.
pub fn configurations<F: Files<File = File>>(
    alloc: Global,
    files: &F,
    path: &str,
) -> Result<(Config, Config), Fault>
    ensures { IfOk result (λ both. (text : List ℕ) × ReadsConfig text (Ok both.0) × ReadsConfig text (Ok both.1)) }
{
    let text = configuration_text(alloc, files, path)?;
    let first = Config::read(alloc, text.as_str())?;
    let second = Config::read(alloc, text.as_str())?;
    Ok((first, second))
}

/// Returns the text of the configuration file at this path.
pub fn configuration_text<F: Files<File = File>>(
    alloc: Global,
    files: &F,
    path: &str,
) -> Result<String, Fault> {
    match text_of(alloc, files, path) {
        Ok(text) => Ok(text),
        Err(error) => Err(Fault::of_input(&error)),
    }
}

fn text_of<F: Files<File = File>>(alloc: Global, files: &F, path: &str) -> io::Result<String> {
    io::read_to_string(alloc, File::open(files, path)?)
}

/// Returns the two files of the spool that the configuration names. The second has the first's name with `.2` appended.
/// If both names lead to one file, fails as if the second couldn't be opened.
pub(crate) fn spool_files<F: Files<File = File>>(
    alloc: Global,
    files: &F,
    config: &Config,
) -> Result<Disks<FileDisk>, Fault> {
    let second = second_name(alloc, config)?;
    let disks = Disks {
        first: unless_device(FileDisk::open(files, config.spool.as_str()))?,
        second: unless_device(FileDisk::open(files, second.as_str()))?,
    };
    match disks.first.is_same_file(&disks.second) {
        Ok(false) => Ok(disks),
        Ok(true) => Err(Fault::Device),
        Err(error) => Err(Fault::of_device(&error)),
    }
}

/// Returns the two files for reading only. The first must exist. If the second doesn't, returns the first in place of
/// both; of two equal heads the first file's is taken.
pub(crate) fn spool_files_to_read<F: Files<File = File>>(
    alloc: Global,
    files: &F,
    config: &Config,
) -> Result<Disks<FileDisk>, Fault> {
    let first = config.spool.as_str();
    let second = second_name(alloc, config)?;
    Ok(Disks {
        first: unless_device(FileDisk::open_to_read(files, first))?,
        second: unless_device(open_either(files, second.as_str(), first))?,
    })
}

/// Opens the file at this path for reading only, or the one at the other path if there is none.
fn open_either<F: Files<File = File>>(files: &F, path: &str, other: &str) -> io::Result<FileDisk> {
    match FileDisk::open_to_read(files, path) {
        Err(error) if error.kind() == io::ErrorKind::NotFound => FileDisk::open_to_read(
            files, other,
        ),
        opened => opened,
    }
}

/// Returns the name of the second file.
fn second_name(alloc: Global, config: &Config) -> Result<String, AllocError> {
    format!(in alloc; "{}.2", config.spool.as_str())
}

/// Returns the file, or [`Fault::Device`] if it couldn't be opened.
fn unless_device(disk: io::Result<FileDisk>) -> Result<FileDisk, Fault> {
    match disk {
        Ok(disk) => Ok(disk),
        Err(error) => Err(Fault::of_device(&error)),
    }
}

/// Returns the files of the spool, both locked for this process. If the spool was never made, makes no file, and fails
/// as if the first were empty.
fn locked_spool_files<F: Files<File = File>>(
    alloc: Global,
    files: &F,
    config: &Config,
) -> Result<Disks<FileDisk>, Fault> {
    let first = config.spool.as_str();
    if is_absent(
        fs::exists(files, first),
        fs::exists(files, folder_of(first)),
    ) {
        return Err(Fault::NotASpool);
    }
    let disks = spool_files(alloc, files, config)?;
    lock(&disks.first)?;
    lock(&disks.second)?;
    Ok(disks)
}

/// Returns whether a file is missing from an existing folder, given what was found at their paths. If that isn't known,
/// opening the file will say why.
fn is_absent(file: io::Result<bool>, folder: io::Result<bool>) -> bool
    ensures { IsTrue result ↔ ((file ≡ Ok false) × (folder ≡ Ok true)) }
{
    matches!((file, folder), (Ok(false), Ok(true)))
}

/// Returns the folder of the file at this path.
fn folder_of(path: &str) -> &str {
    match Path::new(path).parent() {
        Some(folder) if !folder.as_str().is_empty() => folder.as_str(),
        _ => ".",
    }
}

/// Locks a file for this process.
fn lock(disk: &FileDisk) -> Result<(), Fault> {
    unless_locked(disk.try_lock())
}

/// Returns the fault of a lock that wasn't taken: another process holds it, or the device has failed.
fn unless_locked(taken: io::Result<bool>) -> Result<(), Fault>
    ensures taken { IsOk result ↔ (taken ≡ Ok true) }
    ensures locked { (result ≡ Err Fault.Locked) ↔ (taken ≡ Ok false) }
{
    match taken {
        Ok(true) => Ok(()),
        Ok(false) => Err(Fault::Locked),
        Err(error) => Err(Fault::of_device(&error)),
    }
}

/// Returns the node of the spool that the configuration names, live and idle, with this configuration. Locks the
/// spool's files for this process. Faults are checked in this order: the files, their locks ([`Fault::Locked`]), their
/// content. If the first file is absent, fails with [`Fault::NotASpool`], and makes no file.
pub fn locked_node<F: Files<File = File>>(
    alloc: Global,
    files: &F,
    config: Config,
) -> Result<Node<FileDisk>, Fault>
    ensures idle { IfOk result (IsIdle config) }
    ensures live { IfOk result (λ node. node.records.spool.live ≡ true) }
{
    let disks = locked_spool_files(alloc, files, &config)?;
    match Node::open(alloc, config, disks) {
        Ok(node) => Ok(node),
        Err(refused) => Err(Fault::from(refused.cause)),
    }
}
