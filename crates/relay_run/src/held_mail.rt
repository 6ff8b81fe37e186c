//! The file of held mail, which is beside the spool: `SPOOL.held`.
ghost use Rattle.std.specs.Prelude.{IfOk, IsTrue};
ghost use Rattle.relay_run.specs.Holding.{IsKept};
ghost use Rattle.relay_run.specs.Reloading.{HoldsAlike};

use crate::documents::Documents;
use relay_control::laws::held_reads_back;
use relay_control::{Held, HeldFault, read_held, write_held};
use relay_files::Fault;
use std::alloc::{AllocError, Global};
use std::fs::File;
use std::io::{ErrorKind, Read};
use std::rt::Files;

/// The file of held mail.
pub(crate) struct HeldMail {
    alloc: Global,
    path: String,
    /// The path at which the next content is written, before it replaces the file.
    new_path: String,
}

// Written out, so that what drops it calls this, and doesn't look into its parts.
impl Drop for HeldMail {
    fn drop(self) {
        let HeldMail {
            alloc: _,
            path: _path,
            new_path: _new_path,
        } = self;
    }
}

impl HeldMail {
    /// Returns the file beside the spool at this path. Fails if memory runs out.
    pub(crate) fn beside(alloc: Global, spool: &str) -> Result<Self, AllocError> {
        Ok(HeldMail {
            alloc,
            path: format!(in alloc; "{spool}.held")?,
            new_path: format!(in alloc; "{spool}.held.new")?,
        })
    }

    /// Reads what is held: nothing if there is no file. Fails if the file can't be read or has other content, because
    /// mail that a postmaster has held must not be sent.
    pub(crate) fn read<F: Files<File = File>>(&self, files: &F) -> Result<Held, Fault> {
        let mut file = match File::open(files, self.path.as_str()) {
            Ok(file) => file,
            Err(error) if error.kind() == ErrorKind::NotFound => return Ok(Held::new(self.alloc)),
            Err(error) => return Err(Fault::of_input(&error)),
        };
        let mut bytes = Vec::new(self.alloc);
        if let Err(error) = file.read_to_end(&mut bytes) {
            return Err(Fault::of_input(&error));
        }
        let Ok(text) = std::str::from_utf8(bytes.as_slice()) else {
            return Err(Fault::Input);
        };
        match read_held(self.alloc, text) {
            Ok(held) => Ok(held),
            Err(HeldFault::NoMemory) => Err(Fault::NoMemory),
            Err(HeldFault::BadText) => Err(Fault::Input),
        }
    }

    /// Writes a new file, which replaces the old one once it is on the device. Returns whether that is done.
    pub(crate) fn write<O: Documents>(&self, files: &O, held: &Held) -> bool
        ensures { IsTrue result → IsKept O.has_replaced files.now self.now held.now }
    {
        let Ok(text) = write_held(self.alloc, held) else {
            return false;
        };
        let path = self.path.as_str();
        match files.replace(self.new_path.as_str(), path, text.as_str()) {
            Ok(()) => true,
            Err(_) => false,
        }
    }
}

/// Returns a copy of held mail. Fails if memory runs out.
pub(crate) fn copy_held(alloc: Global, held: &Held) -> Result<Held, AllocError>
    ensures { IfOk result (HoldsAlike held.now) }
{
    held_reads_back();
    let Ok(text) = write_held(alloc, held) else {
        return Err(AllocError);
    };
    match read_held(alloc, text.as_str()) {
        Ok(copy) => Ok(copy),
        Err(_) => Err(AllocError),
    }
}
