//! A round: links served concurrently, on a thread each, over one shared node.
ghost use Rattle.std.specs.Prelude.{◌≡◌, ◌≤◌, [], List, vec_len, vec_capacity, IfErr, IfOk};
ghost use Rattle.relay_book.specs.declared.change.Change.{Change};
ghost use Rattle.relay_records.specs.Records.{Keeps};
ghost use Rattle.relay_rounds.specs.declared.served.Served.{Served};
ghost use Rattle.relay_hub.specs.Hub.{Answers, Gives};
ghost use Rattle.relay_hub.specs.Receipts.{AreNew};
ghost use Rattle.relay_rounds.specs.Round.{AreTogether, HasRoom, HasRun, HaveComeOut, receipts_of};

use crate::lane::{Lane, Shop, Started};
use crate::lanes::{lanes_of, put_together, serve_lanes, take_apart};
use crate::served::{Link, Served};
use relay_disk::Disk;
use relay_hub::{Hub, Opening, Pass};
use relay_node::Node;
use relay_routes::Config;
use relay_trace::Moment;
use std::alloc::{AllocError, Global};
use std::io::{Read, Write};
use std::marker::Brand;
use std::sync::Wait;
use std::sync::atomic::AtomicBool;
use std::sync::ledger::Blank;
use std::thread::Threads;

/// The result of a round.
pub struct Ended<D: Disk, R, W> {
    pub node: Node<D>,
    /// The served links, in the order in which they came.
    pub links: Vec<Served<R, W>>,
    /// Whether the receipts are exactly what the node has accepted.
    pub agrees: bool,
}

/// A round that couldn't begin because memory ran out. No link was read or written.
pub struct NotBegun<D: Disk, R, W> {
    pub node: Node<D>,
    pub links: Vec<Link<R, W>>,
}

// Written out, so that the proof of a caller that drops one stops at this function.
impl<D: Disk + Drop, R: Drop, W: Drop> Drop for Ended<D, R, W> {
    fn drop(self) {
        let Ended {
            node: _node,
            links: _links,
            agrees: _,
        } = self;
    }
}

impl<D: Disk + Drop, R: Drop, W: Drop> Drop for NotBegun<D, R, W> {
    fn drop(self) {
        let NotBegun {
            node: _node,
            links: _links,
        } = self;
    }
}

/// Memory for all that a round makes of its links, reserved before the first link runs.
pub(crate) struct Room<J: Opening, R: Read, W: Write> {
    pub(crate) have_threads: Vec<AtomicBool>,
    pub(crate) lanes: Vec<Lane<J, R, W>>,
    pub(crate) started: Vec<Started<J, R, W>>,
    pub(crate) ended: Vec<Lane<J, R, W>>,
    pub(crate) passes: Vec<Pass<J>>,
    pub(crate) rests: Vec<Served<R, W>>,
    pub(crate) served: Vec<Served<R, W>>,
}

impl<J: Opening, R: Read + Drop, W: Write + Drop> Drop for Room<J, R, W> {
    fn drop(self) {
        let Room {
            have_threads: _have_threads,
            lanes: _lanes,
            started: _started,
            ended: _ended,
            passes: _passes,
            rests: _rests,
            served: _served,
        } = self;
    }
}

impl<D: Disk, R, W> Ended<D, R, W> {
    /// Returns the node, the served links in order, and whether the receipts are exactly what the node has accepted.
    pub fn into_parts(self) -> (Node<D>, Vec<Served<R, W>>, bool)
        ensures { (result.0 ≡ self.node) × (result.1.items ≡ self.links.items) × (result.2 ≡ self.agrees) }
    {
        let Ended {
            node,
            links,
            agrees,
        } = self;
        (node, links, agrees)
    }
}

impl<D: Disk, R, W> NotBegun<D, R, W> {
    /// Returns the node and the links.
    pub fn into_parts(self) -> (Node<D>, Vec<Link<R, W>>)
        ensures { (result.0 ≡ self.node) × (result.1.items ≡ self.links.items) }
    {
        let NotBegun { node, links } = self;
        (node, links)
    }
}

/// Serves each of 1 to 64 links on a thread of its own, and returns the node when all have ended. A link for which no
/// thread is available comes back untouched. `now` is the acceptance time of all mail.
pub fn round<
    D: Disk + Drop + Send,
    T: Threads + Wait + Sync,
    R: Read + Send + Drop,
    W: Write + Send + Drop,
>(
    rt: &T,
    alloc: Global,
    node: Node<D>,
    config: &Config,
    links: Vec<Link<R, W>>,
    now: Moment,
) -> Result<Ended<D, R, W>, NotBegun<D, R, W>>
    requires { (1 ≤ vec_len links) × (vec_len links ≤ 64) }
    ensures links { IfOk result (λ ended. HaveComeOut
        (Gives D.honest D.words (Keeps D.honest D.words node.records) node.config) R.remaining W.contents config.now now
        links.items ended.links.items) }
    ensures run { (changes : List Change) → Keeps D.honest D.words node.records changes
        → IfOk result (λ ended. HasRun D.honest D.words changes (receipts_of ended.links.items)
        ended.node.records ended.agrees) }
    ensures not_begun { IfErr result (λ not_begun. (not_begun.node ≡ node)
        × (not_begun.links.items ≡ links.items)) }
{
    let blank = Blank::new(links.len() as u64);
    round_by::<Brand, D, T, R, W>(rt, alloc, node, blank, config, links, now)
}

/// Serves the links, with the ledger that `J` names.
fn round_by<
    J: Opening + Send + Sync,
    D: Disk + Drop + Send,
    T: Threads + Wait + Sync,
    R: Read + Send + Drop,
    W: Write + Send + Drop,
>(
    rt: &T,
    alloc: Global,
    node: Node<D>,
    blank: Blank,
    config: &Config,
    links: Vec<Link<R, W>>,
    now: Moment,
) -> Result<Ended<D, R, W>, NotBegun<D, R, W>>
    requires name { blank.name ≡ J.name }
    requires parts { (blank.parts ≡ J.parts) × (blank.parts ≡ vec_len links) }
    requires few { vec_len links ≤ 64 }
    requires starts { (changes : List Change) → J.starts changes
        → Keeps D.honest D.words node.records changes }
    requires answers { Answers D.honest D.words J.starts node.config J.has_answered }
    ensures links { IfOk result (λ ended. HaveComeOut J.has_answered R.remaining W.contents config.now now links.items
        ended.links.items) }
    ensures run { (changes : List Change) → J.starts changes
        → IfOk result (λ ended. HasRun D.honest D.words changes (receipts_of ended.links.items)
        ended.node.records ended.agrees) }
    ensures not_begun { IfErr result (λ not_begun. (not_begun.node ≡ node)
        × (not_begun.links.items ≡ links.items)) }
{
    let Ok(room) = room_for::<J, R, W>(alloc, links.len()) else {
        return Err(NotBegun { node, links });
    };
    let (hub, passes) = match Hub::<D, J>::new(alloc, node, blank, links.len() as u8) {
        Ok(made) => made,
        Err(node) => return Err(NotBegun { node, links }),
    };
    Ok(room.run(rt, alloc, hub, passes, config, links, now))
}

/// Reserves memory for a round of this many links. Fails if memory runs out.
fn room_for<J: Opening, R: Read + Drop, W: Write + Drop>(
    alloc: Global,
    count: usize,
) -> Result<Room<J, R, W>, AllocError>
    ensures { IfOk result (λ room. HasRoom count room) }
{
    let have_threads = words(alloc, count)?;
    Ok(Room {
        have_threads,
        lanes: Vec::with_capacity(alloc, count)?,
        started: Vec::with_capacity(alloc, count)?,
        ended: Vec::with_capacity(alloc, count)?,
        passes: Vec::with_capacity(alloc, count)?,
        rests: Vec::with_capacity(alloc, count)?,
        served: Vec::with_capacity(alloc, count)?,
    })
}

/// Returns `count` flags, all set: each says that its lane has a thread. Fails if memory runs out.
fn words(alloc: Global, count: usize) -> Result<Vec<AtomicBool>, AllocError>
    ensures { IfOk result (λ words. vec_len words ≡ count) }
{
    let mut words = Vec::with_capacity(alloc, count)?;
    for _i in 0..count {
        words.push(AtomicBool::new(true))?;
    }
    Ok(words)
}

/// Takes back the node and the passes of all links. Returns them, and whether the receipts are exactly what the node has
/// accepted.
fn close<D: Disk, J: Opening>(hub: Hub<D, J>, passes: Vec<Pass<J>>) -> (Node<D>, Vec<Pass<J>>, bool)
    requires { vec_len passes ≡ J.parts }
    ensures passes { result.1.items ≡ passes.items }
    ensures run { (changes : List Change) → J.starts changes
        → HasRun D.honest D.words changes passes.items result.0.records result.2 }
{
    match hub.close(passes) {
        Ok((node, passes)) => (node, passes, true),
        Err(mismatch) => {
            let (node, passes) = mismatch.into_parts();
            (node, passes, false)
        }
    }
}

impl<J: Opening + Send + Sync, R: Read + Send + Drop, W: Write + Send + Drop> Room<J, R, W> {
    /// Serves the links, and compares their receipts with what the node has accepted.
    fn run<D: Disk + Drop + Send, T: Threads + Wait + Sync>(
        self,
        rt: &T,
        alloc: Global,
        hub: Hub<D, J>,
        passes: Vec<Pass<J>>,
        config: &Config,
        links: Vec<Link<R, W>>,
        now: Moment,
    ) -> Ended<D, R, W>
        requires room { HasRoom (vec_len links) self }
        requires passes { AreNew (vec_len links) passes.items }
        requires parts { vec_len links ≡ J.parts }
        ensures links { HaveComeOut J.has_answered R.remaining W.contents config.now now links.items
            result.links.items }
        ensures run { (changes : List Change) → J.starts changes
            → HasRun D.honest D.words changes (receipts_of result.links.items) result.node.records result.agrees }
    {
        let (passes, rests, served) = {
            let shop = Shop {
                rt,
                alloc,
                hub: &hub,
                config,
                at: now,
            };
            self.serve(&shop, passes, links)
        };
        let (node, passes, agrees) = close(hub, passes);
        Ended {
            node,
            links: put_together(passes, rests, served),
            agrees,
        }
    }

    /// Serves the links. Returns the passes, the rest of each lane, and the room to join both.
    fn serve<D: Disk + Drop + Send, T: Threads + Wait + Sync>(
        self,
        shop: &Shop<'_, D, J, T>,
        passes: Vec<Pass<J>>,
        links: Vec<Link<R, W>>,
    ) -> (Vec<Pass<J>>, Vec<Served<R, W>>, Vec<Served<R, W>>)
        requires room { HasRoom (vec_len links) self }
        requires passes { AreNew (vec_len links) passes.items }
        ensures out { (served : List (Served R W)) → AreTogether result.0.items result.1.items served
            → HaveComeOut J.has_answered R.remaining W.contents shop.now.config.now shop.now.at links.items served }
        ensures many { (vec_len result.0 ≡ vec_len links) × (vec_len result.1 ≡ vec_len links) }
        ensures served { (result.2.items ≡ []) × (vec_len links ≤ vec_capacity result.2) }
    {
        let Room {
            have_threads,
            lanes,
            started,
            ended,
            passes: freed,
            rests,
            served,
        } = self;
        let lanes = lanes_of(links, passes, lanes);
        let lanes = serve_lanes(shop, lanes, have_threads.as_slice(), started, ended);
        let (passes, rests) = take_apart(shop.alloc, lanes, freed, rests);
        (passes, rests, served)
    }
}
