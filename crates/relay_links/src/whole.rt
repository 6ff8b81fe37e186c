ghost use Rattle.std.specs.Prelude.{◌≡◌, ◌≢◌, ℕ, List, [], ◌++◌, OnOk, OnErr};
ghost use Rattle.std.specs.Io.KnownBytes.{Appends};

use std::io::{Error, ErrorKind, Result, Write};

/// How many interrupted writes are tried again.
const TRIES: u64 = 1_099_511_627_776;

/// Writes all of the octets. If it fails, a prefix of them was written, and not all. A write that takes no octet counts
/// as a fault, and so does an interrupted one where 2^40 of them were tried again.
pub fn write_whole<W: Write>(writer: &mut W, octets: &[u8]) -> Result<()>
    ensures ok { OnOk result (Appends (W.contents writer.old) (W.contents writer.new) octets.now) }
    ensures err { OnErr result ((front : List ℕ) × (rest : List ℕ) × (octets.now ≡ front ++ rest) × (rest ≢ [])
        × Appends (W.contents writer.old) (W.contents writer.new) front) }
{
    let mut written = 0;
    let mut tries = TRIES;
    while written < octets.len() {
        match writer.write(&octets[written..]) {
            Ok(0) => return Err(Error::from(ErrorKind::WriteZero)),
            Ok(count) => written += count,
            Err(error) => {
                if error.kind() != ErrorKind::Interrupted || tries == 0 {
                    return Err(error);
                }
                tries -= 1;
            }
        }
    }
    Ok(())
}
