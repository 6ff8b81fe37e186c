//! A stream without a system, for tests: its reads and writes take parts, as a script says.
ghost use Rattle.std.specs.Prelude.{◌≡◌, ◌≤◌, ◌<◌, IfOk};

use crate::stream::Stream;
use std::io::{self, Error, ErrorKind, Read, Write};

/// A stream that reads from its reader, and writes to its writer. Each read and each write takes the next number of the
/// script, which is the most octets that it moves; at 0 it would have to wait. After the script all octets move.
#[derive(Drop)]
pub struct ScriptedStream<R, W> {
    pub reader: R,
    pub writer: W,
    script: Vec<usize>,
    /// How many numbers of the script are used.
    step: usize,
}

impl<R, W> ScriptedStream<R, W> {
    /// Returns a stream from which nothing was read, and to which nothing was written.
    pub fn new(reader: R, writer: W, script: Vec<usize>) -> Self
        ensures reader { result.reader ≡ reader }
        ensures writer { result.writer ≡ writer }
    {
        ScriptedStream {
            reader,
            writer,
            script,
            step: 0,
        }
    }
}

/// Returns how many octets the next read or write moves, if there is room for `room`.
fn next(script: &[usize], step: &mut usize, room: usize) -> io::Result<usize>
    ensures within { IfOk result (λ count. count ≤ room) }
    ensures some { IfOk result (λ count. 0 < room → 0 < count) }
{
    let most = match script.get(*step) {
        Some(most) => *most,
        None => return Ok(room),
    };
    *step = step.saturating_add(1);
    if most == 0 {
        return Err(Error::from(ErrorKind::WouldBlock));
    }
    Ok(room.min(most))
}

impl<R: Read, W: Write> Stream for ScriptedStream<R, W> {
    type Registry = ();

    ghost remaining = { λ stream. R.remaining stream.reader };

    ghost contents = { λ stream. W.contents stream.writer };

    fn try_read(&mut self, into: &mut [u8]) -> io::Result<usize> {
        let count = next(self.script.as_slice(), &mut self.step, into.len())?;
        self.reader.read(&mut into[..count])
    }

    fn try_write(&mut self, octets: &[u8]) -> io::Result<usize> {
        let count = next(self.script.as_slice(), &mut self.step, octets.len())?;
        self.writer.write(&octets[..count])
    }

    fn set_nodelay(&mut self) {}

    fn shut_down(&mut self) {}

    fn has_connected(&self) -> io::Result<bool> {
        Ok(true)
    }

    fn register(&mut self, _registry: &(), _token: usize, _again: bool) -> io::Result<()> {
        Ok(())
    }

    fn deregister(&mut self, _registry: &()) -> io::Result<()> {
        Ok(())
    }
}
