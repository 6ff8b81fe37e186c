//! The control socket: its listener and its callers.
ghost use Rattle.std.specs.Prelude.{◌≤◌};

use crate::answers::Answer;
use crate::start::PAGE_TOKEN;
use mio::net::{UnixListener, UnixStream};
use mio::{Interest, Registry, Token};
use relay_connections::{Now, Readiness};
use relay_control::{Callers, MOST_CALLERS, Request};
use relay_status::StatusPage;
use std::alloc::{AllocError, Global};
use std::fs::{self, File, Permissions};
use std::io::{self, ErrorKind};
use std::net::Net;
use std::os::fd::{AsFd, AsRawFd};
use std::os::unix::fs::{FileTypeExt, PermissionsExt, chown};
use std::os::unix::net::{SocketAddr, UnixListener as BlockingListener};
use std::rt::Files;

/// The mode of its file: the user that runs the relay may send requests, and root.
const MODE: u32 = 0o600;

/// The mode of its file if a group may send requests too.
const GROUP_MODE: u32 = 0o660;

/// The most callers that wait to be accepted.
const BACKLOG: i32 = 16;

/// The control socket. If it fails while the relay serves, only its callers notice.
pub(crate) struct ControlSocket {
    /// `None` if no socket is configured.
    listener: Option<UnixListener>,
    /// Whether callers may be waiting at it.
    is_ready: bool,
    callers: Callers,
}

// Written out, so that what drops it calls this, and doesn't look into its parts.
impl Drop for ControlSocket {
    fn drop(self) {
        let ControlSocket {
            listener: _listener,
            is_ready: _,
            callers: _callers,
        } = self;
    }
}

impl ControlSocket {
    /// The token of its listener; those of its callers follow in the order of their numbers.
    pub(crate) const TOKEN: usize = PAGE_TOKEN + StatusPage::TOKENS;

    /// How many tokens it has.
    pub(crate) const TOKENS: usize = 1 + MOST_CALLERS;

    /// Opens the socket at this path, or none, for this group too, if any. Removes a socket that an earlier run left
    /// there: the caller holds the spool's lock, so nobody serves it. Fails if the socket can't be made, it can't be
    /// given to the group, or memory runs out.
    pub(crate) fn open<R: Files<File = File> + Net>(
        alloc: Global,
        rt: &R,
        registry: &Registry,
        path: Option<&str>,
        group: Option<u32>,
    ) -> io::Result<Self> {
        let listener = match path {
            Some(path) => Some(listener_at(rt, registry, path, group)?),
            None => None,
        };
        Ok(ControlSocket {
            is_ready: listener.is_some(),
            listener,
            callers: Callers::new(alloc)?,
        })
    }

    /// Returns no socket, at which nobody asks for anything. Fails if memory runs out.
    pub(crate) fn none(alloc: Global) -> Result<Self, AllocError> {
        Ok(ControlSocket {
            listener: None,
            is_ready: false,
            callers: Callers::new(alloc)?,
        })
    }

    /// Notes what the listener, whose number is 0, or a caller, from 1 on, may be ready for, as the system reports it.
    pub(crate) fn note(&mut self, number: usize, ready: Readiness) {
        if number == 0 {
            self.is_ready = true;
        } else {
            self.callers.note(number - 1, ready.reads, ready.writes);
        }
    }

    /// Accepts callers and serves each once. Returns a request that waits to be done, and the number of its caller.
    pub(crate) fn serve(&mut self, registry: &Registry, now: &Now) -> Option<(usize, Request)> {
        if self.listener.is_none() {
            return None;
        }
        self.admit(registry, now);
        self.callers.serve(now.tick);
        self.callers.take_request()
    }

    /// Gives a caller its answer. If there was no memory for one, closes its connection.
    pub(crate) fn answer(&mut self, number: usize, answer: Answer) {
        self.callers.answer(number, answer);
    }

    /// Keeps the connection of a caller until this tick at least.
    pub(crate) fn keep(&mut self, number: usize, tick: u64) {
        self.callers.keep(number, tick);
    }

    /// Accepts the callers that are waiting, while there is room for them.
    fn admit(&mut self, registry: &Registry, now: &Now) {
        for _ in 0..MOST_CALLERS {
            if !self.is_ready {
                return;
            }
            let (Some(listener), Some(number)) = (&self.listener, self.callers.free()) else {
                return;
            };
            match listener.accept() {
                Ok((stream, _)) => {
                    if let Some(stream) = registered(registry, stream, number) {
                        self.callers.put(number, stream, now.tick);
                    }
                }
                Err(error) => {
                    if error.kind() != ErrorKind::Interrupted {
                        // The system reports the next caller.
                        self.is_ready = false;
                    }
                }
            }
        }
    }

    /// Returns whether something can be done at once.
    pub(crate) fn is_ready(&self, now: &Now) -> bool {
        (self.is_ready && self.callers.free().is_some())
            || self.callers.is_ready()
            || self.callers.next_deadline(u64::MAX) <= now.tick
    }

    /// Returns the tick at which the connection of a caller is closed, or `otherwise` if that is earlier.
    pub(crate) fn next_deadline(&self, otherwise: u64) -> u64
        ensures { result ≤ otherwise }
    {
        self.callers.next_deadline(otherwise)
    }
}

/// Returns the registered listener at a path, for the members of this group too, if any.
fn listener_at<R: Files<File = File> + Net>(
    rt: &R,
    registry: &Registry,
    path: &str,
    group: Option<u32>,
) -> io::Result<UnixListener> {
    remove_old(rt, path)?;
    let socket = rt.unix_socket()?;
    // Linux makes the file with the mode of the socket, so others can't connect before the mode is set.
    checked(libc::fchmod(socket.as_raw_fd(), MODE))?;
    rt.bind_unix(socket.as_fd(), &SocketAddr::from_pathname(path)?)?;
    fs::set_permissions(rt, path, Permissions::from_mode(MODE))?;
    if let Some(group) = group {
        // The file belongs to the group before its members may use it, and never to another that may.
        chown(rt, path, None, Some(group))?;
        fs::set_permissions(rt, path, Permissions::from_mode(GROUP_MODE))?;
    }
    checked(libc::net::listen(socket.as_raw_fd(), BACKLOG))?;
    let listener = BlockingListener::from(socket);
    listener.set_nonblocking(true)?;
    let mut listener = UnixListener::from_std(listener);
    registry.register(
        &mut listener,
        Token(ControlSocket::TOKEN),
        Interest::READABLE,
    )?;
    Ok(listener)
}

/// Removes a socket that an earlier run left. Fails if another file is there, and leaves it.
fn remove_old<F: Files>(files: &F, path: &str) -> io::Result<()> {
    match fs::symlink_metadata(files, path) {
        Ok(found) if found.file_type().is_socket() => fs::remove_file(files, path),
        Ok(_) => Err(io::Error::from(ErrorKind::AlreadyExists)),
        Err(error) if error.kind() == ErrorKind::NotFound => Ok(()),
        Err(error) => Err(error),
    }
}

/// Returns the error of a system call, which returns 0 if it has succeeded.
fn checked(status: i32) -> io::Result<()> {
    if status == 0 {
        Ok(())
    } else {
        Err(io::Error::from(ErrorKind::Other))
    }
}

/// Returns the registered stream of a caller; `None` if it can't be registered.
fn registered(registry: &Registry, stream: UnixStream, number: usize) -> Option<UnixStream> {
    let mut stream = stream;
    let token = Token(
        ControlSocket::TOKEN
            .saturating_add(1)
            .saturating_add(number),
    );
    let ways = Interest::READABLE | Interest::WRITABLE;
    match registry.register(&mut stream, token, ways) {
        Ok(()) => Some(stream),
        Err(_) => None,
    }
}
