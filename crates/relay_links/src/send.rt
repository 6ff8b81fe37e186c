//! Octets that are written and flushed.
ghost use Rattle.std.specs.Prelude.{◌≡◌, ◌≢◌, ℕ, List, [], ◌++◌, IfErr, OnOk, OnErr};
ghost use Rattle.std.specs.Io.KnownBytes.{Appends};

use crate::fault::LinkFault;
use crate::whole::write_whole;
use std::io::Write;

/// Writes the octets, and flushes the writer. After a fault a prefix of them was written.
pub fn send<W: Write>(writer: &mut W, octets: &[u8]) -> Result<(), LinkFault>
    ensures ok { OnOk result (Appends (W.contents writer.old) (W.contents writer.new) octets.now) }
    ensures err { OnErr result ((front : List ℕ) × (rest : List ℕ) × (octets.now ≡ front ++ rest)
        × Appends (W.contents writer.old) (W.contents writer.new) front) }
    ensures output { IfErr result (λ fault. fault ≡ LinkFault.Output) }
{
    if write_whole(writer, octets).is_err() {
        return Err(LinkFault::Output);
    }
    if writer.flush().is_err() {
        return Err(LinkFault::Output);
    }
    Ok(())
}

/// Writes octets after which nothing comes, and flushes the writer. It fails only if they couldn't be written whole,
/// and then a prefix of them was written: a flush that fails comes after all of them.
pub(crate) fn send_last<W: Write>(writer: &mut W, octets: &[u8]) -> Result<(), LinkFault>
    ensures ok { OnOk result (Appends (W.contents writer.old) (W.contents writer.new) octets.now) }
    ensures err { OnErr result ((front : List ℕ) × (rest : List ℕ) × (octets.now ≡ front ++ rest) × (rest ≢ [])
        × Appends (W.contents writer.old) (W.contents writer.new) front) }
{
    if write_whole(writer, octets).is_err() {
        return Err(LinkFault::Output);
    }
    let _ = writer.flush();
    Ok(())
}
