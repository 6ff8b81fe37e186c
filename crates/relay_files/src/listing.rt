//! Making and listing the spool that a configuration names.
ghost use Rattle.std.specs.Prelude.{◌≡◌, ◌++◌, ◌∷◌, [], decimal, IfOk, OnOk};
ghost use Rattle.relay_files.specs.Listing.{IsListed, line_at, listed_line, listing_of};

use crate::fault::Fault;
use crate::line_writer::write_out;
use crate::looking::open_to_look;
use crate::settings::{configuration, spool_files};
use itoa::Buffer;
use relay_node::Node;
use relay_outlines::Look;
use std::alloc::{AllocError, Global};
use std::fs::File;
use std::io::Write;
use std::rt::Files;

/// Makes an empty spool in the files that the configuration names, which must be empty or absent.
pub fn init<F: Files<File = File>>(alloc: Global, files: &F, path: &str) -> Result<(), Fault> {
    let config = configuration(alloc, files, path)?;
    let disks = spool_files(alloc, files, &config)?;
    match Node::create(alloc, config, disks) {
        Ok(_) => Ok(()),
        Err(refused) => Err(Fault::from(refused.cause)),
    }
}

/// Writes a line for each recipient in the spool, in the order of the queue: the number of its message, its place in
/// that message, its path, and when it is due, in seconds since 1970. Opens the files for reading only, so that a relay
/// may be running on them. Faults are checked in this order: the configuration file, its content, the spool, the
/// writer. If the writer fails, some of the lines may be written.
pub fn list<F: Files<File = File>, W: Write>(
    alloc: Global,
    files: &F,
    path: &str,
    writer: &mut W,
) -> Result<(), Fault>
    ensures { OnOk result (IsListed (W.contents writer.old) (W.contents writer.new)) }
{
    let config = configuration(alloc, files, path)?;
    let look = open_to_look(alloc, files, &config)?;
    let lines = listing_of(alloc, &look)?;
    write_out(writer, lines.as_slice())?;
    Ok(())
}

/// Returns the lines of all held recipients.
fn listing_of(alloc: Global, look: &Look) -> Result<Vec<u8>, AllocError>
    ensures { IfOk result (λ lines. lines.items ≡ listing_of look.now.queue) }
{
    let mut lines = Vec::new(alloc);
    let marks = look.held(alloc)?;
    for mark in &marks {
        push_place(&mut lines, look, *mark)?;
    }
    Ok(lines)
}

/// Adds the line of a place, if it is held.
fn push_place(lines: &mut Vec<u8>, look: &Look, mark: (u64, u8)) -> Result<(), AllocError>
    ensures { OnOk result (lines.new.items ≡ lines.old.items ++ line_at look.now.queue mark) }
{
    match look.place(mark.0, mark.1) {
        Some(held) => push_line(lines, mark, held.path, held.due),
        None => Ok(()),
    }
}

/// Adds the line of a recipient.
fn push_line(lines: &mut Vec<u8>, mark: (u64, u8), path: &[u8], due: u64) -> Result<(), AllocError>
    ensures { OnOk result (lines.new.items ≡ lines.old.items ++ listed_line mark.0 mark.1 (path.now, due)) }
{
    push_number(lines, mark.0, b' ')?;
    push_number(lines, u64::from(mark.1), b' ')?;
    lines.extend_from_slice(path)?;
    lines.push(b' ')?;
    push_number(lines, due, b'\n')
}

/// Adds a number in decimal, and the octet after it.
fn push_number(lines: &mut Vec<u8>, number: u64, after: u8) -> Result<(), AllocError>
    ensures { OnOk result (lines.new.items ≡ lines.old.items ++ decimal number ++ after ∷ []) }
{
    lines.extend_from_slice(Buffer::new().format(number).as_bytes())?;
    lines.push(after)?;
    Ok(())
}
