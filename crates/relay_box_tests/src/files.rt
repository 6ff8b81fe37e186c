//! The files of the box: that of the configuration, and that of held mail.
use relay_files::Fault;
use relay_run::{Documents, Settings};
use std::alloc::Global;
use std::cell::Cell;
use std::io::{self, Error, ErrorKind};

/// The text of the configuration's file, and whether the file of held mail can be written. What is written there is
/// dropped, since a relay that is started again holds nothing.
pub struct BoxFiles {
    pub config: String,
    pub takes_held: Cell<bool>,
}

// Written out, so that the proof of a caller that drops it stops at this function.
impl Drop for BoxFiles {
    fn drop(self) {
        let BoxFiles {
            config: _config,
            takes_held: _,
        } = self;
    }
}

impl BoxFiles {
    /// Returns an empty configuration.
    pub fn new(alloc: Global) -> Self {
        BoxFiles {
            config: String::new(alloc),
            takes_held: Cell::new(true),
        }
    }
}

impl Documents for BoxFiles {
    ghost has_read = { λ files path found. Unit {0} };

    ghost has_replaced = { λ files path text. Unit {0} };

    fn settings(&self, alloc: Global, _path: &str) -> Result<Settings, Fault> {
        Settings::read(alloc, self.config.as_str())
    }

    fn replace(&self, _new_path: &str, _path: &str, _text: &str) -> io::Result<()> {
        if self.takes_held.get() {
            Ok(())
        } else {
            Err(Error::from(ErrorKind::Other))
        }
    }
}
