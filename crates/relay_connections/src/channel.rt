ghost use Rattle.std.specs.Prelude.{◌≡◌, ◌≢◌, ◌≤◌, ◌↔◌, ◌||◌, [], ◌++◌, IfOk, IsTrue, MatchResult, Some, drop, false};
ghost use Rattle.std.specs.Prelude.{length, take, true};
ghost use Rattle.std.specs.Io.KnownBytes.{Appends, IsAtEnd, Keeps};
ghost use Rattle.relay_connections.specs.Channel.{IsEndTrue, KeepsInput, KeepsOctets, KeepsOutput, held_of, input_left};
ghost use Rattle.relay_connections.specs.Channel.{FailsReading, FailsWriting, IsUnder, MayWrite, WasTried, is_readable};
ghost use Rattle.relay_connections.specs.Channel.{is_shut, is_writable};
ghost use Rattle.relay_connections.specs.Channel.{noted, output_of, unread_of};
ghost use Rattle.relay_connections.specs.Readiness.{readiness_of};
ghost use Rattle.relay_connections.specs.declared.block.TheConstants.{BLOCK_SIZE};

use crate::block::{BLOCK_SIZE, Block};
use crate::held::Held;
use crate::stream::Stream;
use mio::event::Event;
use mio::net::TcpStream;
use std::alloc::Global;
use std::io::{self, ErrorKind};

/// What a connection may be ready for.
#[derive(Clone, Copy)]
pub struct Readiness {
    /// Whether a read may yield octets, the end or an error.
    pub reads: bool,
    /// Whether a write may take octets, or yield an error.
    pub writes: bool,
    /// Whether the end or an error follows what can be read.
    pub ends: bool,
}

impl Readiness {
    /// Returns the readiness in an event.
    pub fn of(event: &Event) -> Self
        ensures { result ≡ readiness_of event.now }
    {
        Readiness {
            reads: event.is_readable() || event.is_read_closed() || event.is_error(),
            writes: event.is_writable() || event.is_write_closed() || event.is_error(),
            ends: event.is_read_closed() || event.is_error(),
        }
    }
}

/// A non-blocking connection, with up to 65,536 octets that were read and aren't used yet, up to 4,096 octets that are
/// held back and written before all others, and its readiness. The system reports a change of readiness once, so the
/// connection counts as ready from then on, until a read or a write would have to wait.
pub struct Channel<S = TcpStream> {
    alloc: Global,
    stream: S,
    /// The octets that are written before all others.
    held: Held,
    /// Whether it is registered with the poll.
    is_registered: bool,
    /// Whether its write side is shut down.
    is_shut: bool,
    ready: Readiness,
    /// How it has ended, if it has: its input has ended, or a call has failed.
    end: Option<End>,
    block: Block,
}

/// How a connection has ended.
#[derive(Clone, Copy, PartialEq, Eq)]
pub enum End {
    /// Its input has ended. What is unwritten may still be written.
    Input,
    /// It is broken: nothing more is read or written.
    Broken,
}

// Written out, so that the proof of a caller that drops a connection stops at this function.
impl<S: Drop> Drop for Channel<S> {
    fn drop(self) {
        let Channel {
            alloc: _,
            stream: _stream,
            held: _held,
            is_registered: _,
            is_shut: _,
            ready: _,
            end: _,
            block: _block,
        } = self;
    }
}

impl<S: Stream> Channel<S> {
    /// Makes the connection of this stream. It may be written at once, and is read after the system reports it
    /// readable.
    pub fn new(alloc: Global, stream: S) -> Self
        ensures stream { result.stream ≡ stream }
        ensures unread { unread_of result ≡ [] }
        ensures held { held_of result ≡ [] }
        ensures writes { is_writable result ≡ true }
        ensures open { is_shut result ≡ false }
        ensures end { IsEndTrue S.remaining S.contents result }
    {
        Channel {
            alloc,
            stream,
            held: Held::new(alloc),
            is_registered: false,
            is_shut: false,
            ready: Readiness {
                reads: false,
                writes: true,
                ends: false,
            },
            end: None,
            block: Block::new(alloc),
        }
    }

    /// Returns its stream.
    pub fn stream(&self) -> &S
        ensures { result.now ≡ self.now.stream }
    {
        &self.stream
    }

    /// Registers it with the poll under this token; what it is ready for already is reported too. Fails if the system
    /// refuses.
    pub fn register(&mut self, registry: &S::Registry, token: usize) -> io::Result<()>
        ensures under { IfOk result (λ _. IsUnder token (S.registered self.new.stream)) }
        ensures input { KeepsInput S.remaining S.contents self.old self.new }
        ensures output { KeepsOutput S.remaining S.contents self.old self.new }
        ensures writes { is_writable self.new ≡ is_writable self.old }
    {
        self.stream.register(registry, token, self.is_registered)?;
        self.is_registered = true;
        Ok(())
    }

    /// Returns whether it is connected, or why connecting has failed.
    pub fn has_connected(&self) -> io::Result<bool> {
        self.stream.has_connected()
    }

    /// Notes what it may be ready for, as the system reports it.
    pub fn note(&mut self, ready: Readiness)
        ensures octets { KeepsOctets self.old self.new }
        ensures end { self.new.end ≡ self.old.end }
        ensures writes { is_writable self.new ≡ is_writable self.old || ready.writes }
        ensures all { self.new ≡ noted ready self.old }
    {
        self.ready.reads |= ready.reads;
        self.ready.writes |= ready.writes;
        self.ready.ends |= ready.ends;
    }

    /// Counts it as not writable, until the system reports that it is.
    pub fn awaits_writing(&mut self)
        ensures octets { KeepsOctets self.old self.new }
        ensures end { self.new.end ≡ self.old.end }
        ensures writes { is_writable self.new ≡ false }
    {
        self.ready.writes = false;
    }

    /// Returns how it has ended, if it has, and all that was read is used.
    pub fn end(&self) -> Option<End>
        ensures used { result ≡ Some End.Input → unread_of self.now ≡ [] }
        ensures end { (end : End) → result ≡ Some end → self.now.end ≡ Some end }
        ensures broken { self.now.end ≡ Some End.Broken → result ≡ Some End.Broken }
        ensures input { self.now.end ≡ Some End.Input → unread_of self.now ≡ [] → result ≡ Some End.Input }
    {
        match self.end {
            Some(End::Broken) => Some(End::Broken),
            Some(End::Input) if self.block.is_empty() => Some(End::Input),
            Some(End::Input) => None,
            None => None,
        }
    }

    /// Returns what was read and isn't used yet.
    pub fn piece(&self) -> &[u8]
        ensures { result.now ≡ unread_of self.now }
    {
        self.block.piece()
    }

    /// Returns whether all that was read is used.
    pub(crate) fn is_used(&self) -> bool
        ensures { IsTrue result ↔ (unread_of self.now ≡ []) }
    {
        self.block.is_empty()
    }

    /// Marks `count` more octets as used, or all if there are fewer.
    pub fn used(&mut self, count: usize)
        ensures used { unread_of self.new ≡ drop count (unread_of self.old) }
        ensures left { self.new.stream ≡ self.old.stream }
        ensures end { self.new.end ≡ self.old.end }
        ensures output { KeepsOutput S.remaining S.contents self.old self.new }
    {
        self.block.used(count);
    }

    /// Returns whether it can be read, or written if `waits` says that octets are unwritten, at once.
    pub fn is_ready(&self, waits: bool) -> bool
        ensures { unread_of self.now ≢ [] → waits ≡ false → result ≡ true }
    {
        if self.end == Some(End::Broken) {
            true
        } else if waits {
            self.ready.writes
        } else {
            !self.block.is_empty() || self.ready.reads || self.end.is_some()
        }
    }

    /// Returns whether it may be writable.
    pub fn may_write(&self) -> bool
        ensures { result ≡ is_writable self.now }
    {
        self.ready.writes
    }

    /// Reads a block of up to 65,536 octets, if the last one is used and there may be more. Returns whether octets
    /// arrived.
    pub fn fill(&mut self) -> bool
        ensures unread { unread_of self.old ≢ [] → self.new ≡ self.old }
        ensures none { unread_of self.old ≢ [] → result ≡ false }
        ensures input { Keeps (input_left S.remaining S.contents self.old)
            (input_left S.remaining S.contents self.new) }
        ensures came { unread_of self.old ≡ [] → IsTrue result ↔ (unread_of self.new ≢ []) }
        ensures full { BLOCK_SIZE ≤ length (unread_of self.new) → is_readable self.new ≡ is_readable self.old }
        ensures ending { self.old.ready.ends ≡ true → result ≡ true → is_readable self.new ≡ is_readable self.old }
        ensures end { IsEndTrue S.remaining S.contents self.old → IsEndTrue S.remaining S.contents self.new }
        ensures output { KeepsOutput S.remaining S.contents self.old self.new }
    {
        if !self.ready.reads || self.end.is_some() || !self.block.is_empty() {
            return false;
        }
        match self.block.fill(self.alloc, &mut self.stream) {
            Ok(0) => {
                self.end = Some(End::Input);
                false
            }
            Ok(count) => {
                // A read that doesn't fill the block has taken all there is, and the system will report what comes
                // later; except an end that it has reported already.
                if count < BLOCK_SIZE && !self.ready.ends {
                    self.ready.reads = false;
                }
                true
            }
            Err(error) => {
                self.note_read_fault(error.kind());
                false
            }
        }
    }

    fn note_read_fault(&mut self, kind: ErrorKind)
        ensures fails { FailsReading kind self.old self.new }
        ensures octets { KeepsOctets self.old self.new }
        ensures end { IsEndTrue S.remaining S.contents self.old → IsEndTrue S.remaining S.contents self.new }
    {
        match kind {
            ErrorKind::WouldBlock => self.ready.reads = false,
            ErrorKind::Interrupted => {}
            _ => self.end = Some(End::Broken),
        }
    }

    /// Returns whether octets are held back.
    pub(crate) fn is_holding(&self) -> bool
        ensures { IsTrue result ↔ (held_of self.now ≢ []) }
    {
        !self.held.is_empty()
    }

    /// Returns the octets that are held back.
    pub(crate) fn held(&self) -> &[u8]
        ensures { result.now ≡ held_of self.now }
    {
        self.held.as_slice()
    }

    /// Holds octets back, to be written with those that come next. Returns false if they are too many or memory runs
    /// out; they aren't held then.
    pub(crate) fn hold(&mut self, octets: &[u8]) -> bool
        ensures held { result ≡ true → held_of self.new ≡ held_of self.old ++ octets.now }
        ensures stream { self.new.stream ≡ self.old.stream }
        ensures input { KeepsInput S.remaining S.contents self.old self.new }
        ensures shut { is_shut self.new ≡ is_shut self.old }
        ensures same { result ≡ false → self.new ≡ self.old }
    {
        self.held.push(octets)
    }

    /// Writes what is held back, and then as many of these octets as the stream takes at once. Returns how many of
    /// these are written or held. Writes nothing after its write side was shut down.
    pub fn write(&mut self, octets: &[u8]) -> usize
        ensures output { Appends (output_of S.remaining S.contents self.old) (output_of S.remaining S.contents self.new)
            (take result octets.now) }
        ensures within { result ≤ length octets.now }
        ensures input { KeepsInput S.remaining S.contents self.old self.new }
        ensures shut { is_shut self.new ≡ is_shut self.old }
        ensures silent { is_shut self.old ≡ true → S.contents self.new.stream ≡ S.contents self.old.stream }
        ensures none { held_of self.old ≡ [] → held_of self.new ≡ [] }
    {
        if self.held.is_empty() {
            return self.write_now(octets);
        }
        let joins = self.held.push(octets);
        self.write_held();
        if joins {
            octets.len()
        } else if self.held.is_empty() {
            self.write_now(octets)
        } else {
            0
        }
    }

    /// Writes as much of what is held back as the stream takes at once.
    pub(crate) fn write_held(&mut self)
        ensures output { Keeps (output_of S.remaining S.contents self.old) (output_of S.remaining S.contents self.new) }
        ensures input { KeepsInput S.remaining S.contents self.old self.new }
        ensures shut { is_shut self.new ≡ is_shut self.old }
        ensures silent { is_shut self.old ≡ true → self.new ≡ self.old }
        ensures none { held_of self.old ≡ [] → self.new ≡ self.old }
        ensures tried { held_of self.old ≢ [] → MayWrite self.old
            → WasTried (S.tries self.old.stream) (S.tries self.new.stream) }
    {
        if self.held.is_empty() || !self.can_write() {
            return;
        }
        let answer = self.stream.try_write(self.held.as_slice());
        let count = self.written(answer);
        self.held.wrote(count);
    }

    /// Writes as many of these octets as the stream takes at once, and returns how many; nothing is held back.
    fn write_now(&mut self, octets: &[u8]) -> usize
        requires { held_of self.old ≡ [] }
        ensures output { Appends (output_of S.remaining S.contents self.old) (output_of S.remaining S.contents self.new)
            (take result octets.now) }
        ensures within { result ≤ length octets.now }
        ensures input { KeepsInput S.remaining S.contents self.old self.new }
        ensures held { held_of self.new ≡ held_of self.old }
        ensures shut { is_shut self.new ≡ is_shut self.old }
        ensures silent { is_shut self.old ≡ true → self.new ≡ self.old }
        ensures tried { octets.now ≢ [] → MayWrite self.old
            → WasTried (S.tries self.old.stream) (S.tries self.new.stream) }
    {
        if octets.is_empty() || !self.can_write() {
            return 0;
        }
        let answer = self.stream.try_write(octets);
        self.written(answer)
    }

    /// Returns whether octets may be written to it at once.
    fn can_write(&self) -> bool
        ensures shut { is_shut self.now ≡ true → result ≡ false }
        ensures may { IsTrue result ↔ MayWrite self.now }
    {
        self.ready.writes && !self.is_shut && self.end != Some(End::Broken)
    }

    /// Returns how many octets a write has taken, and whether another may follow.
    fn written(&mut self, answer: io::Result<usize>) -> usize
        ensures octets { KeepsOctets self.old self.new }
        ensures end { IsEndTrue S.remaining S.contents self.old → IsEndTrue S.remaining S.contents self.new }
        ensures count { MatchResult answer (λ count. result ≡ count) (λ _. result ≡ 0) }
    {
        match answer {
            Ok(0) => {
                self.end = Some(End::Broken);
                0
            }
            Ok(count) => count,
            Err(error) => {
                self.note_write_fault(error.kind());
                0
            }
        }
    }

    fn note_write_fault(&mut self, kind: ErrorKind)
        ensures fails { FailsWriting kind self.old self.new }
        ensures octets { KeepsOctets self.old self.new }
        ensures end { IsEndTrue S.remaining S.contents self.old → IsEndTrue S.remaining S.contents self.new }
    {
        match kind {
            ErrorKind::WouldBlock => self.ready.writes = false,
            ErrorKind::Interrupted => {}
            _ => self.end = Some(End::Broken),
        }
    }

    /// Shuts the write side down.
    pub(crate) fn shut_down(&mut self)
        ensures input { KeepsInput S.remaining S.contents self.old self.new }
        ensures held { held_of self.new ≡ held_of self.old }
        ensures taken { S.contents self.new.stream ≡ S.contents self.old.stream }
        ensures shut { is_shut self.new ≡ true }
    {
        self.stream.shut_down();
        self.is_shut = true;
    }
}
