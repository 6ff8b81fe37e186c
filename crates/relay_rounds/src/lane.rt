//! A link with the pass of the thread that serves it.
ghost use Rattle.std.specs.Prelude.{◌≡◌};
ghost use Rattle.relay_rounds.specs.declared.lane.Lane.{Lane};
ghost use Rattle.relay_rounds.specs.Round.{Ends, IsBegun, IsRestOf, IsServed};

use crate::served::Served;
use relay_disk::Disk;
use relay_hub::{Hub, Opening, Pass, hub_link};
use relay_links::LinkFault;
use relay_routes::Config;
use relay_trace::Moment;
use std::alloc::Global;
use std::io::{Read, Write};
use std::snapshot::Snapshot;
use std::sync::Wait;
use std::sync::atomic::{AtomicBool, Ordering};
use std::thread::{Promise, PromisedHandle, Scope, Threads};

/// A link, and the pass of the thread that serves it.
pub(crate) struct Lane<J: Opening, R, W> {
    pub(crate) pass: Pass<J>,
    /// The IPv4 address of its client.
    pub(crate) peer: [u8; 4],
    pub(crate) reader: R,
    pub(crate) writer: W,
    /// The result of the link; `None` if no thread served it.
    pub(crate) ended: Option<Result<(), LinkFault>>,
}

// Written out, so that the proof of a caller that drops a lane stops at this function.
impl<J: Opening, R: Drop, W: Drop> Drop for Lane<J, R, W> {
    fn drop(self) {
        let Lane {
            pass: _pass,
            peer: _,
            reader: _reader,
            writer: _writer,
            ended: _,
        } = self;
    }
}

impl<J: Opening, R, W> Lane<J, R, W> {
    /// Splits the lane into its pass and the rest, which has no receipts yet.
    pub(crate) fn into_parts(self, alloc: Global) -> (Pass<J>, Served<R, W>)
        ensures pass { result.0 ≡ self.pass }
        ensures rest { IsRestOf self result.1 }
    {
        let Lane {
            pass,
            peer,
            reader,
            writer,
            ended,
        } = self;
        let rest = Served {
            peer,
            reader,
            writer,
            receipts: Vec::new(alloc),
            ended,
        };
        (pass, rest)
    }
}

/// What all threads of a round share.
pub(crate) struct Shop<'a, D: Disk, J: Opening, T> {
    pub(crate) rt: &'a T,
    pub(crate) alloc: Global,
    pub(crate) hub: &'a Hub<D, J>,
    pub(crate) config: &'a Config,
    /// The acceptance time of the round's mail.
    pub(crate) at: Moment,
}

// Written out, since its parts need not be droppable themselves.
impl<D: Disk, J: Opening, T> Drop for Shop<'_, D, J, T> {
    fn drop(self) {
        let Shop {
            rt: _,
            alloc: _,
            hub: _,
            config: _,
            at: _,
        } = self;
    }
}

/// What a thread's result is judged by: the lane that it was given, the configuration and the acceptance time.
#[derive(Drop)]
pub(crate) struct WasLane<J: Opening, R, W> {
    lane: Snapshot<Lane<J, R, W>>,
    config: Snapshot<Config>,
    at: Moment,
}

impl<J: Opening, R: Read, W: Write> Promise<Lane<J, R, W>> for WasLane<J, R, W> {
    ghost use Rattle.relay_rounds.specs.Round.{IsServed};

    ghost kept_by = { λ was served. IsServed J.has_answered R.remaining W.contents was.config.value was.at
        was.lane.value served };
}

/// A lane that a thread serves, or that got no thread.
#[derive(Drop)]
pub(crate) enum Started<J: Opening, R: Read, W: Write> {
    Running(PromisedHandle<Lane<J, R, W>, WasLane<J, R, W>>),
    Idle(Lane<J, R, W>),
}

/// Serves a lane, or returns it unchanged if `has_thread` is false.
pub(crate) fn serve_lane<D: Disk, J: Opening, T: Wait, R: Read, W: Write>(
    shop: &Shop<'_, D, J, T>,
    lane: Lane<J, R, W>,
    has_thread: &AtomicBool,
) -> Lane<J, R, W>
    ensures { IsServed J.has_answered R.remaining W.contents shop.now.config.now shop.now.at lane result }
{
    let mut lane = lane;
    if !has_thread.load(Ordering::SeqCst) {
        lane.ended = None;
        return lane;
    }
    let ended = hub_link(
        shop.rt,
        shop.alloc,
        shop.hub,
        &mut lane.pass,
        shop.config,
        lane.peer,
        &mut lane.reader,
        &mut lane.writer,
        shop.at,
    );
    lane.ended = Some(ended);
    lane
}

/// Spawns a thread that serves the lane. If no thread is available, the lane comes back unchanged: `has_thread` is set
/// to false before the closure, which came back unrun, is called here.
pub(crate) fn start_lane<
    's,
    E,
    D: Disk + Send,
    J: Opening + Send + Sync,
    T: Wait + Sync,
    R: Read + Send + Drop + 's,
    W: Write + Send + Drop + 's,
>(
    scope: &Scope<'s, E>,
    shop: &'s Shop<'s, D, J, T>,
    lane: Lane<J, R, W>,
    has_thread: &'s AtomicBool,
) -> Started<J, R, W>
    ensures { IsBegun J.has_answered R.remaining W.contents shop.now.config.now shop.now.at lane result }
{
    let was = WasLane {
        lane: Snapshot::of(&lane),
        config: Snapshot::of(shop.config),
        at: shop.at,
    };
    match scope.spawn_with(was, move || serve_lane(shop, lane, has_thread)) {
        Ok(handle) => Started::Running(handle),
        Err(refused) => {
            has_thread.store(false, Ordering::SeqCst);
            Started::Idle((refused.value)())
        }
    }
}

/// Waits for the lane's thread, if it has one, and returns the lane.
pub(crate) fn end_lane<J: Opening, T: Threads, R: Read + Drop, W: Write + Drop>(
    rt: &T,
    started: Started<J, R, W>,
) -> Lane<J, R, W>
    ensures { Ends J.has_answered R.remaining W.contents started result }
{
    match started {
        Started::Running(handle) => handle.join(rt),
        Started::Idle(lane) => lane,
    }
}
