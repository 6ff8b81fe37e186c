//! Connections in memory: what the other side has sent, and what the relay has written and read.
ghost use Rattle.std.specs.Io.{ReadsAtMost, WritesAtMost};

use relay_connections::{Readiness, Stream};
use std::alloc::Global;
use std::cell::{Cell, RefCell};
use std::io::{self, Error, ErrorKind};
use std::rc::Rc;

/// One connection, as its other side sees it.
pub struct Wire {
    /// What it has sent so far.
    pub input: RefCell<Vec<u8>>,
    /// How many octets of that the relay has read.
    pub place: Cell<usize>,
    /// How many octets it has read since it was last asked for.
    read: Cell<usize>,
    /// What the relay has written since it was last asked for.
    pub output: RefCell<Vec<u8>>,
    /// How many octets more it takes.
    pub room: Cell<usize>,
    /// Whether nothing follows its input.
    pub has_ended: Cell<bool>,
    pub is_broken: Cell<bool>,
    pub is_connected: Cell<bool>,
    /// The token under which the relay waits for it, if it does.
    pub token: Cell<Option<usize>>,
    /// Whether it may be ready for something of which the relay wasn't told.
    pub has_changed: Cell<bool>,
    /// Whether the relay has shut down its side, and whether it has closed the connection.
    pub is_shut: Cell<bool>,
    pub is_closed: Cell<bool>,
    /// Whether it was answered that the connection is closed: nothing follows.
    pub is_told: Cell<bool>,
}

// Written out, so that the proof of a caller that drops it stops at this function.
impl Drop for Wire {
    fn drop(self) {
        let Wire {
            input: _input,
            place: _,
            read: _,
            output: _output,
            room: _,
            has_ended: _,
            is_broken: _,
            is_connected: _,
            token: _,
            has_changed: _,
            is_shut: _,
            is_closed: _,
            is_told: _,
        } = self;
    }
}

impl Wire {
    /// Returns a connection on which nothing was sent. It takes any number of octets.
    pub fn new(alloc: Global, is_connected: bool) -> Self {
        Wire {
            input: RefCell::new(Vec::new(alloc)),
            place: Cell::new(0),
            read: Cell::new(0),
            output: RefCell::new(Vec::new(alloc)),
            room: Cell::new(usize::MAX),
            has_ended: Cell::new(false),
            is_broken: Cell::new(false),
            is_connected: Cell::new(is_connected),
            token: Cell::new(None),
            has_changed: Cell::new(false),
            is_shut: Cell::new(false),
            is_closed: Cell::new(false),
            is_told: Cell::new(false),
        }
    }

    /// Sends octets to the relay.
    pub fn send(&self, octets: &[u8]) -> io::Result<()> {
        if let Ok(mut input) = self.input.try_borrow_mut() {
            input.extend_from_slice(octets)?;
        }
        self.has_changed.set(true);
        Ok(())
    }

    /// Lets nothing follow what was sent.
    pub fn end(&self) {
        self.has_ended.set(true);
        self.has_changed.set(true);
    }

    /// Breaks the connection: what is unread is lost.
    pub fn reset(&self) {
        self.is_broken.set(true);
        self.has_changed.set(true);
    }

    /// Sets how many octets more it takes.
    pub fn set_room(&self, room: usize) {
        self.room.set(room);
        self.has_changed.set(true);
    }

    /// Establishes a pending connection.
    pub fn connect(&self) {
        self.is_connected.set(true);
        self.has_changed.set(true);
    }

    /// Returns how many octets wait to be read.
    fn unread(&self) -> usize {
        match self.input.try_borrow() {
            Ok(input) => input.len().saturating_sub(self.place.get()),
            Err(_) => 0,
        }
    }

    /// Returns the token under which the relay waits for the connection, and what it may be ready for, if that has
    /// changed since the relay was told.
    pub fn take_event(&self) -> Option<(usize, Readiness)> {
        if !self.has_changed.get() || self.is_closed.get() {
            return None;
        }
        let token = self.token.get()?;
        self.has_changed.set(false);
        let ends = self.is_broken.get() || (self.is_connected.get() && self.has_ended.get());
        let is_open = self.is_connected.get();
        let ready = Readiness {
            reads: ends || (is_open && self.unread() > 0),
            writes: self.is_broken.get() || (is_open && self.room.get() > 0),
            ends,
        };
        if ready.reads || ready.writes {
            Some((token, ready))
        } else {
            None
        }
    }

    /// Reads octets that were sent.
    fn read(&self, into: &mut [u8]) -> io::Result<usize>
        ensures { ReadsAtMost result into.new }
    {
        self.check()?;
        let Ok(input) = self.input.try_borrow() else {
            return Err(Error::from(ErrorKind::Other));
        };
        let rest = input.as_slice().get(self.place.get()..).unwrap_or(&[]);
        let count = rest.len().min(into.len());
        if count == 0 && !into.is_empty() && !self.has_ended.get() {
            return Err(Error::from(ErrorKind::WouldBlock));
        }
        into[..count].copy_from_slice(&rest[..count]);
        self.place.set(self.place.get().saturating_add(count));
        self.read.set(self.read.get().saturating_add(count));
        Ok(count)
    }

    /// Takes octets, as many as there is room for.
    fn write(&self, octets: &[u8]) -> io::Result<usize>
        ensures { WritesAtMost result octets.now }
    {
        self.check()?;
        let count = self.room.get().min(octets.len());
        if count == 0 && !octets.is_empty() {
            return Err(Error::from(ErrorKind::WouldBlock));
        }
        let Ok(mut output) = self.output.try_borrow_mut() else {
            return Err(Error::from(ErrorKind::Other));
        };
        output.extend_from_slice(&octets[..count])?;
        if self.room.get() != usize::MAX {
            self.room.set(self.room.get().saturating_sub(count));
        }
        Ok(count)
    }

    /// Returns how many octets the relay has read since this was last asked for.
    pub fn take_read(&self) -> usize {
        self.read.replace(0)
    }

    /// Fails unless octets can pass.
    fn check(&self) -> io::Result<()> {
        if self.is_broken.get() {
            Err(Error::from(ErrorKind::ConnectionReset))
        } else if self.is_connected.get() {
            Ok(())
        } else {
            Err(Error::from(ErrorKind::NotConnected))
        }
    }
}

/// The relay's side of a connection.
pub struct WireStream {
    pub wire: Rc<Wire>,
}

impl Drop for WireStream {
    fn drop(self) {
        self.wire.is_closed.set(true);
        let WireStream { wire: _wire } = self;
    }
}

impl Stream for WireStream {
    type Registry = ();

    fn try_read(&mut self, into: &mut [u8]) -> io::Result<usize> {
        self.wire.read(into)
    }

    fn try_write(&mut self, octets: &[u8]) -> io::Result<usize> {
        self.wire.write(octets)
    }

    fn set_nodelay(&mut self) {}

    fn shut_down(&mut self) {
        self.wire.is_shut.set(true);
    }

    fn has_connected(&self) -> io::Result<bool> {
        if self.wire.is_broken.get() {
            return Err(Error::from(ErrorKind::ConnectionReset));
        }
        Ok(self.wire.is_connected.get())
    }

    fn register(&mut self, _registry: &(), token: usize, _again: bool) -> io::Result<()> {
        self.wire.token.set(Some(token));
        self.wire.has_changed.set(true);
        Ok(())
    }

    fn deregister(&mut self, _registry: &()) -> io::Result<()> {
        self.wire.token.set(None);
        Ok(())
    }
}
