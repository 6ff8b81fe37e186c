//! Opening a spool again after its device has failed, on the files that are open and locked already.
ghost use Rattle.std.specs.Prelude.{ℕ, ◌≡◌, IfErr, IfOk, IsErr, OnOk};
ghost use Rattle.relay_run.specs.Reopening.{HasFailedToSync, HasOpened, HasOpenedIn, IsWhole, KeepsConfig, config_for};
ghost use Rattle.relay_run.specs.Reopening.{config_in};
ghost use Rattle.relay_run.specs.Room.{MayStart};

use crate::acceptor::refuse_all;
use crate::device::Device;
use crate::failures::Failures;
use crate::journal::Journal;
use crate::known::Known;
use crate::listen::Listen;
use crate::pauses::Pauses;
use crate::room::{Ballast, Room};
use relay_connections::Stream;
use relay_disk::{Disk, Disks};
use relay_files::Fault;
use relay_loop::Relay;
use relay_node::{Node, NotOpened, NotReopened};
use relay_routes::Config;
use std::alloc::{AllocError, Global};
use std::io::Write;
use std::rt::Clock;
use std::time::Duration;

/// The greatest limit that a spool may have, in octets.
const GREATEST_LIMIT: u64 = 549_755_813_888;

/// How many times per second waiting clients are refused while the spool isn't open.
const TELLINGS: u64 = 5;

/// How many milliseconds are between two of these times.
const TELLING_PAUSE: u64 = 200;

/// A spool that isn't open, and its configuration.
struct Closed<D> {
    config: Config,
    disks: Disks<D>,
}

// Written out, so that the proof of a caller that drops it stops at this function.
impl<D: Drop> Drop for Closed<D> {
    fn drop(self) {
        let Closed {
            config: _config,
            disks: _disks,
        } = self;
    }
}

/// The result of opening a spool.
enum Opening<D: Disk> {
    /// It is open.
    Done(Relay<D>),
    /// Its device has failed, or memory ran out: it is tried again later.
    Failed(Closed<D>),
}

/// Why a spool is opened again.
#[derive(Drop)]
pub(crate) enum Why {
    /// Its device has failed.
    Failed,
    /// There is room again, after its limit was lowered for lack of room.
    Renewed,
    /// The relay has this configuration from now on.
    Reloaded(Config),
}

/// Opens the spool of a relay again, and checks that it is the known one: if its device has failed, once a test finds
/// room; else at once. Drops all connections. Fails if a sync has failed.
pub(crate) fn reopen<
    C: Clock,
    E: Write,
    S: Stream + Drop,
    D: Device + Drop,
    F: Ballast,
    L: Listen<Stream = S>,
>(
    journal: &mut Journal<'_, C, E>,
    relay: Relay<D>,
    known: Known,
    why: Why,
    listener: &mut L,
    room: &mut Room<F>,
    pauses: &mut Pauses,
) -> Result<Relay<D>, Fault>
    ensures synced { HasFailedToSync D.has_failed_to_sync relay.node.records.spool.disk → IsErr result }
    ensures whole { IfOk result (λ opened. IsWhole known opened.node.records.queue.next
        opened.node.records.spool.size) }
    ensures tested { why ≡ Why.Failed → IfOk result (λ _. MayStart room.new known.size) }
    ensures config { IfOk result (λ opened. KeepsConfig (config_for why relay.node.config) opened.node.config) }
    ensures opened { IfOk result (HasOpened D.Disk.honest D.Disk.words) }
{
    match why {
        Why::Failed => open_again(journal, relay, known, listener, room, pauses),
        Why::Renewed => open_bounded(journal.alloc, relay, known, room),
        Why::Reloaded(config) => {
            open_under(config, journal, relay, known, listener, room, pauses)
        }
    }
}

/// Opens the spool of a relay under another configuration, with the limit that the room allows; later if its device
/// fails, or memory runs out. Drops all connections. Fails if a sync has failed, or if the spool's content isn't what
/// was known.
fn open_under<
    C: Clock,
    E: Write,
    S: Stream + Drop,
    D: Device + Drop,
    F: Ballast,
    L: Listen<Stream = S>,
>(
    config: Config,
    journal: &mut Journal<'_, C, E>,
    relay: Relay<D>,
    known: Known,
    listener: &mut L,
    room: &mut Room<F>,
    pauses: &mut Pauses,
) -> Result<Relay<D>, Fault>
    ensures synced { HasFailedToSync D.has_failed_to_sync relay.node.records.spool.disk → IsErr result }
    ensures whole { IfOk result (λ opened. IsWhole known opened.node.records.queue.next
        opened.node.records.spool.size) }
    ensures config { IfOk result (λ opened. KeepsConfig config opened.node.config) }
    ensures opened { IfOk result (HasOpened D.Disk.honest D.Disk.words) }
{
    let mut closed = Closed::of(relay.into_node());
    sync(&mut closed.disks)?;
    closed.config = config;
    open_configured(journal, closed, known, listener, room, pauses)
}

/// Opens a spool whose configuration is new, as [`open_under`].
fn open_configured<
    C: Clock,
    E: Write,
    S: Stream + Drop,
    D: Device + Drop,
    F: Ballast,
    L: Listen<Stream = S>,
>(
    journal: &mut Journal<'_, C, E>,
    closed: Closed<D>,
    known: Known,
    listener: &mut L,
    room: &mut Room<F>,
    pauses: &mut Pauses,
) -> Result<Relay<D>, Fault>
    ensures whole { IfOk result (λ opened. IsWhole known opened.node.records.queue.next
        opened.node.records.spool.size) }
    ensures config { IfOk result (λ opened. KeepsConfig closed.config opened.node.config) }
    ensures opened { IfOk result (HasOpened D.Disk.honest D.Disk.words) }
{
    let mut closed = closed;
    room.reconfigure(&closed.config, known.size());
    closed.bound(room)?;
    match closed.open(journal.alloc)? {
        Opening::Done(relay) => unless_less(known, relay, room),
        Opening::Failed(closed) => await_device(journal, closed, known, listener, room, pauses),
    }
}

/// Opens the spool of a relay again after its device has failed: after 1 second, 2, 4 and up to 60, as often as it
/// takes until a test finds room for the outcome of an attempt. Logs the failure, and that the spool is open again.
/// Drops all connections of the relay, and refuses clients that come meanwhile. Fails at once if a sync has failed,
/// because written octets may be lost then, and if the spool's content isn't what was known.
fn open_again<
    C: Clock,
    E: Write,
    S: Stream + Drop,
    D: Device + Drop,
    F: Ballast,
    L: Listen<Stream = S>,
>(
    journal: &mut Journal<'_, C, E>,
    relay: Relay<D>,
    known: Known,
    listener: &mut L,
    room: &mut Room<F>,
    pauses: &mut Pauses,
) -> Result<Relay<D>, Fault>
    ensures synced { HasFailedToSync D.has_failed_to_sync relay.node.records.spool.disk → IsErr result }
    ensures whole { IfOk result (λ opened. IsWhole known opened.node.records.queue.next
        opened.node.records.spool.size) }
    ensures tested { IfOk result (λ _. MayStart room.new known.size) }
    ensures config { IfOk result (λ opened. KeepsConfig relay.node.config opened.node.config) }
    ensures opened { IfOk result (HasOpened D.Disk.honest D.Disk.words) }
{
    pauses.note_failure(known.size());
    let closed = Closed::of(relay.into_node());
    await_device(journal, closed, known, listener, room, pauses)
}

/// Opens a spool whose device has failed, after 1 second, 2, 4 and up to 60, as [`open_again`].
fn await_device<
    C: Clock,
    E: Write,
    S: Stream + Drop,
    D: Device + Drop,
    F: Ballast,
    L: Listen<Stream = S>,
>(
    journal: &mut Journal<'_, C, E>,
    closed: Closed<D>,
    known: Known,
    listener: &mut L,
    room: &mut Room<F>,
    pauses: &mut Pauses,
) -> Result<Relay<D>, Fault>
    ensures synced { HasFailedToSync D.has_failed_to_sync closed.disks → IsErr result }
    ensures whole { IfOk result (λ opened. IsWhole known opened.node.records.queue.next
        opened.node.records.spool.size) }
    ensures tested { IfOk result (λ _. MayStart room.new known.size) }
    ensures config { IfOk result (λ opened. KeepsConfig closed.config opened.node.config) }
    ensures opened { IfOk result (HasOpened D.Disk.honest D.Disk.words) }
{
    let mut closed = closed;
    let failed = pauses.failures.side(&closed.disks);
    sync(&mut closed.disks)?;
    let reason = room.fail();
    journal.device_failed(reason, failed, &closed.config, pauses.seconds);
    wait_for_room(journal, closed, known, listener, room, pauses)
}

/// Opens the spool of a relay with the limit that the room allows. Drops all connections. Fails if a sync has failed,
/// or if the spool's content isn't what was known.
pub(crate) fn open_bounded<D: Device + Drop, F: Ballast>(
    alloc: Global,
    relay: Relay<D>,
    known: Known,
    room: &mut Room<F>,
) -> Result<Relay<D>, Fault>
    ensures synced { HasFailedToSync D.has_failed_to_sync relay.node.records.spool.disk → IsErr result }
    ensures whole { IfOk result (λ opened. IsWhole known opened.node.records.queue.next
        opened.node.records.spool.size) }
    ensures config { IfOk result (λ opened. KeepsConfig relay.node.config opened.node.config) }
    ensures opened { IfOk result (HasOpened D.Disk.honest D.Disk.words) }
{
    let mut closed = Closed::of(relay.into_node());
    sync(&mut closed.disks)?;
    open_at_once(alloc, closed, known, room)
}

/// Opens a spool with the limit that the room allows.
fn open_at_once<D: Device + Drop, F: Ballast>(
    alloc: Global,
    closed: Closed<D>,
    known: Known,
    room: &mut Room<F>,
) -> Result<Relay<D>, Fault>
    ensures whole { IfOk result (λ opened. IsWhole known opened.node.records.queue.next
        opened.node.records.spool.size) }
    ensures config { IfOk result (λ opened. KeepsConfig closed.config opened.node.config) }
    ensures opened { IfOk result (HasOpened D.Disk.honest D.Disk.words) }
{
    let mut closed = closed;
    closed.bound(room)?;
    match closed.open(alloc)? {
        Opening::Done(relay) => unless_less(known, relay, room),
        Opening::Failed(_closed) => Err(Fault::NoMemory),
    }
}

/// Opens a spool as soon as its device works and there is room.
fn wait_for_room<
    C: Clock,
    E: Write,
    S: Stream + Drop,
    D: Device + Drop,
    F: Ballast,
    L: Listen<Stream = S>,
>(
    journal: &mut Journal<'_, C, E>,
    closed: Closed<D>,
    known: Known,
    listener: &mut L,
    room: &mut Room<F>,
    pauses: &mut Pauses,
) -> Result<Relay<D>, Fault>
    requires { ¬ MayStart room.old known.size }
    ensures whole { IfOk result (λ opened. IsWhole known opened.node.records.queue.next
        opened.node.records.spool.size) }
    ensures tested { IfOk result (λ _. MayStart room.new known.size) }
    ensures config { IfOk result (λ opened. KeepsConfig closed.config opened.node.config) }
    ensures opened { IfOk result (HasOpened D.Disk.honest D.Disk.words) }
{
    let mut closed = closed;
    let line = refusal(journal.alloc, &closed.config)?;
    for _ in 0..u64::MAX {
        pause(journal.clock, pauses.next(), listener, line.as_slice());
        room.test(known.size());
        if room.may_start(known.size()) {
            closed.bound(room)?;
            pauses.failures = Failures::of(&closed.disks);
            match closed.open(journal.alloc)? {
                Opening::Done(relay) => {
                    pauses.opened_size = relay.node().size();
                    journal.opened_again(room.is_short());
                    return unless_less(known, relay, room);
                }
                Opening::Failed(again) => closed = again,
            }
        }
        sync(&mut closed.disks)?;
    }
    Err(Fault::Device)
}

/// Returns the relay, or fails if its spool isn't the known one.
fn unless_less<D: Disk + Drop, F: Disk>(
    known: Known,
    relay: Relay<D>,
    room: &mut Room<F>,
) -> Result<Relay<D>, Fault>
    ensures whole { IfOk result (λ opened. IsWhole known opened.node.records.queue.next
        opened.node.records.spool.size) }
    ensures stays { (size : ℕ) → MayStart room.old size → MayStart room.new size }
    ensures same { IfOk result (λ opened. opened ≡ relay) }
    ensures opened { HasOpened D.honest D.words relay → IfOk result (HasOpened D.honest D.words) }
{
    if !known.is_in(&Known::of(&relay)) {
        return Err(Fault::Device);
    }
    room.opened();
    Ok(relay)
}

/// Waits for this many seconds, and refuses clients that come meanwhile.
fn pause<C: Clock, S: Stream + Drop, L: Listen<Stream = S>>(
    clock: &C,
    seconds: u64,
    listener: &mut L,
    line: &[u8],
) {
    for _ in 0..seconds.saturating_mul(TELLINGS) {
        clock.sleep(Duration::from_millis(TELLING_PAUSE));
        refuse_all(listener, line);
    }
}

/// Returns the reply that refuses clients for lack of room, code 421.
fn refusal(alloc: Global, config: &Config) -> Result<Vec<u8>, AllocError> {
    let mut line = Vec::new(alloc);
    line.extend_from_slice(b"421 ")?;
    line.extend_from_slice(config.host.as_slice())?;
    line.extend_from_slice(b" insufficient system storage, closing\r\n")?;
    Ok(line)
}

/// Syncs both files. Fails if a sync of one has failed before.
fn sync<D: Device>(disks: &mut Disks<D>) -> Result<(), Fault>
    ensures failed { HasFailedToSync D.has_failed_to_sync disks.old → IsErr result }
    ensures fault { IfErr result (λ fault. fault ≡ Fault.Device) }
{
    match (disks.first.sync_again(), disks.second.sync_again()) {
        (Ok(()), Ok(())) => Ok(()),
        _ => Err(Fault::Device),
    }
}

impl<D: Disk + Drop> Closed<D> {
    /// Returns the spool of a node.
    fn of(node: Node<D>) -> Self
        ensures disks { result.disks ≡ node.records.spool.disk }
        ensures config { result.config ≡ node.config }
    {
        let (config, disks) = node.into_parts();
        Closed { config, disks }
    }

    /// Sets the limit that the room allows.
    fn bound<F: Disk>(&mut self, room: &Room<F>) -> Result<(), Fault>
        ensures { OnOk result (KeepsConfig self.old.config self.new.config) }
    {
        let (Ok(first), Ok(second)) = (self.disks.first.size(), self.disks.second.size()) else {
            return Err(Fault::Device);
        };
        let limit = room.limit(first.saturating_add(second) as u64);
        self.config.spool_limit = limit.min(GREATEST_LIMIT).max(1);
        Ok(())
    }

    /// Opens the spool. Fails if its content isn't a spool.
    fn open(self, alloc: Global) -> Result<Opening<D>, Fault>
        ensures config { IfOk result (λ opening. config_in opening ≡ self.config) }
        ensures opened { IfOk result (HasOpenedIn D.honest D.words) }
    {
        let Closed { config, disks } = self;
        match Node::open_again(alloc, config, disks) {
            Ok(node) => match Relay::new(alloc, node) {
                Ok(relay) => Ok(Opening::Done(relay)),
                Err(node) => Ok(Opening::Failed(Closed::of(node))),
            },
            Err(NotReopened { config, refused }) => {
                let NotOpened { cause, disk } = refused;
                match Fault::from(cause) {
                    Fault::Device | Fault::NoMemory => Ok(Opening::Failed(Closed {
                        config,
                        disks: disk,
                    })),
                    fault => Err(fault),
                }
            }
        }
    }
}
