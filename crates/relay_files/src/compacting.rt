//! Compacts a spool into one record of what its queue holds.
use crate::fault::Fault;
use crate::settings::{configuration, locked_node};
use std::alloc::Global;
use std::fs::File;
use std::io::{self, Write};
use std::rt::Files;

/// Compacts the spool that the configuration names, onto the other of its files, and writes a line with its sizes
/// before and after, in octets. Locks the files for this process. Faults are checked in this order: the configuration
/// file, its content, the spool, the second file, and whether the queue is too large for one file.
pub fn compact<F: Files<File = File>, W: Write>(
    alloc: Global,
    files: &F,
    path: &str,
    writer: &mut W,
) -> Result<(), Fault> {
    let config = configuration(alloc, files, path)?;
    let mut node = locked_node(alloc, files, config)?;
    let (before, after) = node.compact()?;
    match write_sizes(writer, before, after) {
        Ok(()) => Ok(()),
        Err(error) => Err(Fault::of_output(&error)),
    }
}

fn write_sizes<W: Write>(writer: &mut W, before: usize, after: usize) -> io::Result<()> {
    writeln!(writer, "{before} {after}")?;
    writer.flush()
}
