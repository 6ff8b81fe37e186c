//! Lists of lanes: joined from links and passes, served by a thread each, and split again.
ghost use Rattle.std.specs.Prelude.{◌≡◌, ◌≤◌, ◌<◌, [], length, vec_len, vec_capacity};
ghost use Rattle.relay_hub.specs.Receipts.{AreNew};
ghost use Rattle.relay_rounds.specs.Round.{AreApart, AreTogether, Ends, IsBegun, IsLaneOf, IsServed, MayBegin};
ghost use Rattle.relay_rounds.specs.Row.{EachIs};

use crate::lane::{Lane, Shop, Started, end_lane, start_lane};
use crate::row::{map_into, put};
use crate::served::{Link, Served};
use relay_disk::Disk;
use relay_hub::{Opening, Pass};
use std::alloc::Global;
use std::io::{Read, Write};
use std::sync::Wait;
use std::sync::atomic::AtomicBool;
use std::thread;
use std::thread::{Scope, Threads};

/// Joins each link with a pass without receipts, in order.
pub(crate) fn lanes_of<J: Opening, R: Drop, W: Drop>(
    links: Vec<Link<R, W>>,
    passes: Vec<Pass<J>>,
    lanes: Vec<Lane<J, R, W>>,
) -> Vec<Lane<J, R, W>>
    requires passes { AreNew (vec_len links) passes.items }
    requires empty { lanes.items ≡ [] }
    requires room { vec_len links ≤ vec_capacity lanes }
    ensures lanes { EachIs (λ link lane. IsLaneOf link lane) links.items result.items }
    ensures many { vec_len result ≡ vec_len links }
{
    let mut lanes = lanes;
    let mut passes = passes.into_iter();
    for link in links {
        let Some(pass) = passes.next() else {
            unreachable!()
        };
        put(&mut lanes, link.into_lane(pass));
    }
    lanes
}

/// Serves each lane on a thread of its own, and waits for all of them.
pub(crate) fn serve_lanes<
    D: Disk + Drop + Send,
    J: Opening + Send + Sync,
    T: Threads + Wait + Sync,
    R: Read + Send + Drop,
    W: Write + Send + Drop,
>(
    shop: &Shop<'_, D, J, T>,
    lanes: Vec<Lane<J, R, W>>,
    have_threads: &[AtomicBool],
    started: Vec<Started<J, R, W>>,
    ended: Vec<Lane<J, R, W>>,
) -> Vec<Lane<J, R, W>>
    requires { MayBegin (vec_len lanes) (length have_threads.now) started.items (vec_capacity started) ended.items
        (vec_capacity ended) }
    ensures served { EachIs (λ lane served. IsServed J.has_answered R.remaining W.contents shop.now.config.now
        shop.now.at lane served) lanes.items result.items }
    ensures many { vec_len result ≡ vec_len lanes }
{
    thread::scope(
        thread::scope_env(),
        shop.rt,
        |scope| -> Vec<Lane<J, R, W>>
            requires { MayBegin (vec_len lanes) (length have_threads.now) started.items (vec_capacity started)
                ended.items (vec_capacity ended) }
            ensures { EachIs (λ lane served. IsServed J.has_answered R.remaining W.contents
                shop.entry.now.config.now shop.entry.now.at lane served) lanes.items result.items
                × (vec_len result ≡ vec_len lanes) }
        {
            let started = start_lanes(scope, shop, lanes, have_threads, started);
            end_lanes(shop.rt, started, ended)
        },
    )
}

/// Spawns a thread for each lane.
fn start_lanes<
    's,
    E,
    D: Disk + Send,
    J: Opening + Send + Sync,
    T: Wait + Sync,
    R: Read + Send + Drop + 's,
    W: Write + Send + Drop + 's,
>(
    scope: &Scope<'s, E>,
    shop: &'s Shop<'s, D, J, T>,
    lanes: Vec<Lane<J, R, W>>,
    have_threads: &'s [AtomicBool],
    started: Vec<Started<J, R, W>>,
) -> Vec<Started<J, R, W>>
    requires empty { started.items ≡ [] }
    requires room { vec_len lanes ≤ vec_capacity started }
    requires words { vec_len lanes ≤ length have_threads.now }
    ensures begun { EachIs (λ lane one. IsBegun J.has_answered R.remaining W.contents shop.now.config.now shop.now.at
        lane one) lanes.items result.items }
    ensures many { vec_len result ≡ vec_len lanes }
{
    map_into(
        lanes,
        started,
        |at, lane| -> Started<J, R, W>
            requires { at < length have_threads.now }
            ensures { IsBegun J.has_answered R.remaining W.contents shop.entry.now.config.now shop.entry.now.at lane
                result }
        { start_lane(scope, shop, lane, &have_threads[at]) },
    )
}

/// Waits for each thread, in order.
fn end_lanes<J: Opening, T: Threads, R: Read + Drop, W: Write + Drop>(
    rt: &T,
    started: Vec<Started<J, R, W>>,
    ended: Vec<Lane<J, R, W>>,
) -> Vec<Lane<J, R, W>>
    requires empty { ended.items ≡ [] }
    requires room { vec_len started ≤ vec_capacity ended }
    ensures ended { EachIs (λ one lane. Ends J.has_answered R.remaining W.contents one lane) started.items
        result.items }
    ensures many { vec_len result ≡ vec_len started }
{
    map_into(
        started,
        ended,
        |_, one| -> Lane<J, R, W>
            ensures { Ends J.has_answered R.remaining W.contents one result }
        { end_lane(rt, one) },
    )
}

/// Splits each lane into its pass and the rest.
pub(crate) fn take_apart<J: Opening, R: Drop, W: Drop>(
    alloc: Global,
    lanes: Vec<Lane<J, R, W>>,
    passes: Vec<Pass<J>>,
    rests: Vec<Served<R, W>>,
) -> (Vec<Pass<J>>, Vec<Served<R, W>>)
    requires empty { (passes.items ≡ []) × (rests.items ≡ []) }
    requires room { (vec_len lanes ≤ vec_capacity passes) × (vec_len lanes ≤ vec_capacity rests) }
    ensures apart { AreApart lanes.items result.0.items result.1.items }
    ensures many { (vec_len result.0 ≡ vec_len lanes) × (vec_len result.1 ≡ vec_len lanes) }
{
    let mut passes = passes;
    let mut rests = rests;
    for lane in lanes {
        let (pass, rest) = lane.into_parts(alloc);
        put(&mut passes, pass);
        put(&mut rests, rest);
    }
    (passes, rests)
}

/// Joins the receipts of each pass with the rest of its lane.
pub(crate) fn put_together<J: Opening, R: Drop, W: Drop>(
    passes: Vec<Pass<J>>,
    rests: Vec<Served<R, W>>,
    served: Vec<Served<R, W>>,
) -> Vec<Served<R, W>>
    requires many { vec_len rests ≡ vec_len passes }
    requires empty { served.items ≡ [] }
    requires room { vec_len passes ≤ vec_capacity served }
    ensures { AreTogether passes.items rests.items result.items }
{
    let mut served = served;
    let mut rests = rests.into_iter();
    for pass in passes {
        let Some(rest) = rests.next() else {
            unreachable!()
        };
        put(&mut served, rest.with(pass.into_receipts()));
    }
    served
}
