//! The files that a postmaster's requests read and write.
use crate::start::{Settings, read_settings};
use relay_files::Fault;
use std::alloc::Global;
use std::fs::{self, File};
use std::io::{self, Write};
use std::path::Path;
use std::rt::Files;

/// The file of the configuration, and the file of held mail.
pub trait Documents {
    ghost use Rattle.std.specs.Prelude.{List, OnOk, Result, ℕ};
    ghost use Rattle.relay_files.specs.declared.fault.Fault.{Fault};
    ghost use Rattle.relay_run.specs.declared.start.Settings.{Settings};

    // the configuration at this path was read with this result
    ghost has_read: { Self → List ℕ → Result Settings Fault → Type 0 };

    // the file at this path was replaced by one with this text
    ghost has_replaced: { Self → List ℕ → List ℕ → Type 0 };

    /// Reads the configuration at a path.
    fn settings(&self, alloc: Global, path: &str) -> Result<Settings, Fault>
        ensures { has_read self.now path.now result };

    /// Writes a text to the file at `new_path`, which replaces the file at `path` once it is on the device.
    fn replace(&self, new_path: &str, path: &str, text: &str) -> io::Result<()>
        ensures { OnOk result (has_replaced self.now path.now text.now) };
}

/// The files of the system.
#[derive(Drop)]
pub(crate) struct SystemFiles<'a, F> {
    pub(crate) files: &'a F,
}

impl<F: Files<File = File>> Documents for SystemFiles<'_, F> {
    ghost has_read = { λ files path found. Unit {0} };

    ghost has_replaced = { λ files path text. Unit {0} };

    fn settings(&self, alloc: Global, path: &str) -> Result<Settings, Fault> {
        read_settings(alloc, self.files, path)
    }

    fn replace(&self, new_path: &str, path: &str, text: &str) -> io::Result<()> {
        let mut file = File::create(self.files, new_path)?;
        file.write_all(text.as_bytes())?;
        file.sync_all()?;
        fs::rename(self.files, new_path, path)?;
        // A stop must not bring the old file back.
        File::open(self.files, folder_of(path))?.sync_all()
    }
}

/// Returns the folder of a file.
fn folder_of(path: &str) -> &str {
    match Path::new(path).parent() {
        Some(folder) if !folder.as_str().is_empty() => folder.as_str(),
        _ => ".",
    }
}
