//! The file descriptors of the standard streams.
use std::fs::{File, OpenOptions};
use std::io;
use std::os::fd::{AsRawFd, IntoRawFd, RawFd};
use std::rt::Files;

/// The device that takes the place of a closed stream.
const NULL_DEVICE: &str = "/dev/null";

/// The descriptor of standard input.
const STANDARD_INPUT: RawFd = 0;

/// The descriptor of standard error, the last of the standard streams.
const STANDARD_ERROR: RawFd = 2;

/// Opens the null device for each standard stream that is closed, until the process ends, so that no file opened later
/// gets such a descriptor and then receives what is written to the stream. The system gives the lowest free descriptor.
/// Standard input is opened for writing only, the others for reading only, so that each use of a stream that was closed
/// still fails. Fails if the system gives no descriptor.
pub fn hold_standard_streams<F: Files<File = File>>(files: &F) -> io::Result<()> {
    hold_up_to(
        STANDARD_INPUT,
        OpenOptions::new().write(true).open(files, NULL_DEVICE)?,
    );
    for _ in STANDARD_INPUT..=STANDARD_ERROR {
        if !hold_up_to(STANDARD_ERROR, File::open(files, NULL_DEVICE)?) {
            return Ok(());
        }
    }
    Err(io::Error::from(io::ErrorKind::Unsupported))
}

/// Keeps a file open until the process ends if its descriptor is at most `last`, and returns whether it is; else closes
/// it.
fn hold_up_to(last: RawFd, file: File) -> bool {
    let holds = file.as_raw_fd() <= last;
    if holds {
        let _ = file.into_raw_fd();
    }
    holds
}
