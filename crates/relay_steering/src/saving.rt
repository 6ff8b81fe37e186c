//! The subcommand `save`, and saving mail before it is withdrawn.
ghost use Rattle.std.specs.Prelude.{IfOk};
ghost use Rattle.relay_steering.specs.Withdrawing.{AreSome};

use crate::steering_fault::SteeringFault;
use relay_disk::FileDisk;
use relay_files::{configuration, open_to_read};
use relay_queue::{MessageForm, QueueFault, Selected, print_message};
use relay_records::Records;
use std::alloc::{AllocError, Global};
use std::fmt;
use std::fs::File;
use std::io::{self, Write};
use std::rt::{Clock, Env, Files};

/// Why a message wasn't saved. Its text follows `relayd: `.
#[derive(Drop)]
pub enum SaveFault {
    /// The message can't be read.
    Queue(QueueFault),
    /// The file can't be made or written.
    File(io::Error),
}

impl fmt::Display for SaveFault {
    fn fmt<W: fmt::Write>(&self, f: &mut fmt::Formatter<W>) -> fmt::Result {
        match self {
            SaveFault::Queue(fault) => write!(f, "{fault}"),
            SaveFault::File(error) => write!(f, "file: {error}"),
        }
    }
}

/// Writes the text of a message, octet by octet, to a new file, and syncs that. Fails if the file exists, and leaves a
/// part of it if it can't be written.
pub fn save<R: Files<File = File> + Env + Clock + AllocGlobal>(
    alloc: Global,
    rt: &R,
    path: &str,
    number: u64,
    into: &str,
) -> Result<(), SaveFault> {
    let mut text = Vec::new(alloc);
    if let Err(fault) = print_message(alloc, rt, path, number, MessageForm::Raw, &mut text) {
        return Err(SaveFault::Queue(fault));
    }
    match write_new(rt, into, text.as_slice()) {
        Ok(()) => Ok(()),
        Err(error) => Err(SaveFault::File(error)),
    }
}

/// Writes a new file, and syncs it.
fn write_new<F: Files<File = File>>(files: &F, path: &str, text: &[u8]) -> io::Result<()> {
    let mut file = File::create_new(files, path)?;
    file.write_all(text)?;
    file.sync_all()
}

/// Saves the text of each of these messages in a folder, to a new file named by the message's number, as `7.eml`, and
/// syncs the files and the folder. Returns the messages that were saved; a line on `errors` says why one wasn't. Fails
/// if the configuration or the spool can't be read, or memory runs out.
pub(crate) fn save_each<R: Files<File = File>, E: Write>(
    alloc: Global,
    rt: &R,
    file: &str,
    folder: &str,
    messages: Vec<Selected>,
    errors: &mut E,
) -> Result<Vec<Selected>, SteeringFault>
    ensures { IfOk result (λ saved. AreSome saved.items messages.items) }
{
    let config = configuration(alloc, rt, file)?;
    let records = open_to_read(alloc, rt, &config)?;
    let mut saved = write_each(alloc, rt, &records, folder, messages, errors)?;
    if let Err(error) = sync_folder(rt, folder) {
        // A stop of the machine may take the files away. If this line can't be written, nothing is left to do.
        let _ = writeln!(errors, "relayd: {folder}: {error}");
        saved.clear();
    }
    Ok(saved)
}

/// Saves the text of each of these messages to a new file in a folder. Returns the messages that were saved; a line on
/// `errors` says why one wasn't. Fails if memory runs out.
fn write_each<F: Files<File = File>, E: Write>(
    alloc: Global,
    files: &F,
    records: &Records<FileDisk>,
    folder: &str,
    messages: Vec<Selected>,
    errors: &mut E,
) -> Result<Vec<Selected>, AllocError>
    ensures { IfOk result (λ saved. AreSome saved.items messages.items) }
{
    let mut saved = Vec::new(alloc);
    for selected in messages {
        if save_in(alloc, files, records, folder, selected.message, errors)? {
            saved.push(selected)?;
        }
    }
    Ok(saved)
}

/// Saves the text of a message to a new file in a folder. Returns whether it was saved; a line on `errors` says why it
/// wasn't. Fails if memory runs out.
fn save_in<F: Files<File = File>, E: Write>(
    alloc: Global,
    files: &F,
    records: &Records<FileDisk>,
    folder: &str,
    number: u64,
    errors: &mut E,
) -> Result<bool, AllocError> {
    // If a line can't be written, nothing is left to do: the message stays queued.
    let Some(message) = records.message(number) else {
        let _ = writeln!(errors, "relayd: message {number} is not queued");
        return Ok(false);
    };
    let path = format!(in alloc; "{folder}/{number}.eml")?;
    if let Err(error) = write_new(files, path.as_str(), message.accept.stored_text.as_slice()) {
        let _ = writeln!(errors, "relayd: {path}: {error}");
        return Ok(false);
    }
    Ok(true)
}

/// Syncs the names of the files in a folder.
fn sync_folder<F: Files<File = File>>(files: &F, folder: &str) -> io::Result<()> {
    File::open(files, folder)?.sync_all()
}
