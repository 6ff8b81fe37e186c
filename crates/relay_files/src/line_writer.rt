//! Buffered writers of whole lines.
ghost use Rattle.std.specs.Prelude.{◌≡◌, [], IfErr, IfOk, OnOk};
ghost use Rattle.std.specs.Io.Buffered.{writer_buffer};
ghost use Rattle.std.specs.Io.KnownBytes.{Appends};

use crate::fault::Fault;
use std::alloc::Global;
use std::io::{self, BufWriter, Write};

/// Returns a writer that buffers up to 8,192 octets until it is flushed. A line that is flushed when it is complete
/// takes one write, and no more memory. Fails if memory runs out.
pub fn gathering<W: Write>(alloc: Global, writer: &mut W) -> Result<BufWriter<&mut W>, Fault>
    ensures empty { IfOk result (λ gathering. writer_buffer gathering ≡ []) }
    ensures err { IfErr result (λ fault. fault ≡ Fault.NoMemory) }
{
    match BufWriter::new(alloc, writer) {
        Ok(gathering) => Ok(gathering),
        Err(_) => Err(Fault::NoMemory),
    }
}

/// Writes all octets, and flushes the writer.
pub fn write_out<W: Write>(writer: &mut W, octets: &[u8]) -> Result<(), Fault>
    ensures { OnOk result (Appends (W.contents writer.old) (W.contents writer.new) octets.now) }
{
    match write_and_flush(writer, octets) {
        Ok(()) => Ok(()),
        Err(error) => Err(Fault::of_output(&error)),
    }
}

fn write_and_flush<W: Write>(writer: &mut W, octets: &[u8]) -> io::Result<()>
    ensures { OnOk result (Appends (W.contents writer.old) (W.contents writer.new) octets.now) }
{
    writer.write_all(octets)?;
    writer.flush()?;
    Ok(())
}
