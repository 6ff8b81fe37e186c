//! Places that the postmaster withdraws.
ghost use Rattle.std.specs.Prelude.{◌≡◌, ◌≤◌, ◌↔◌, List, Err, IfErr, IfOk, IsTrue, length, true};
ghost use Rattle.relay_attempts.specs.Attempts.{Serves};
ghost use Rattle.relay_attempts.specs.Withdrawals.{AddsWithdrawal, CutsWithdrawal, EndsWithdrawal, NamesHeld};
ghost use Rattle.relay_attempts.specs.Withdrawals.{RefusesToWithdraw, is_held_of, is_named, is_tried, named_places};
ghost use Rattle.relay_attempts.specs.Withdrawals.{tries_one, withdrawal_of, withdrawn};
ghost use Rattle.relay_book.specs.Queue.{holds_at};
ghost use Rattle.relay_book.specs.declared.change.Change.{Change};
ghost use Rattle.relay_records.specs.Records.{Keeps};
ghost use Rattle.relay_report.specs.Report.{reporter_of};
ghost use Rattle.std.specs.List.{AllByRecursion, list_any};

use crate::attempts::Attempts;
use crate::runs::Run;
use relay_book::{Message, Outcome, Place, Ruling, Rulings, Verdict, Version, Withdrawal};
use relay_disk::Disk;
use relay_octets::Octets;
use relay_records::{NodeFault, Records};
use relay_routes::Config;
use relay_slots::Slots;
use relay_trace::Moment;
use std::alloc::{AllocError, Global};

impl Attempts {
    /// Ends places of a message as the postmaster asks, all in one change with the report that is owed, whose number is
    /// the answer. The places may be named in any order, and more than once. The first fault in this order is answered:
    /// `Stopped`; `Unknown` where no such message is queued, no place is named, or one that isn't held; `Busy` where a
    /// running attempt tries one of them; then `NoMemory` and `Full`, for lack of memory or of room. Nothing is changed
    /// then; the attempts go on at every answer.
    pub fn withdraw<D: Disk>(
        &mut self,
        alloc: Global,
        config: &Config,
        records: &mut Records<D>,
        number: u64,
        places: &[u8],
        withdrawal: Withdrawal,
        now: Moment,
    ) -> Result<u64, NodeFault>
        requires serves { Serves config.now.host config.now.routes self.old records.old.queue }
        ensures ok { (changes : List Change) → Keeps D.honest D.words records.old changes
            → IfOk result (AddsWithdrawal D.honest D.words (reporter_of config.now) number now withdrawal places.now
            changes records.old records.new) }
        ensures cut { (changes : List Change) → Keeps D.honest D.words records.old changes
            → result ≡ Err NodeFault.Stopped
            → CutsWithdrawal D.honest D.words (reporter_of config.now) number now withdrawal places.now changes
            records.old records.new }
        ensures ends { IfOk result (EndsWithdrawal D.words (reporter_of config.now) self.old.runs number now
            withdrawal places.now records.old records.new) }
        ensures refused { IfErr result (RefusesToWithdraw D.words (reporter_of config.now) self.old.runs number now
            withdrawal places.now records.old records.new) }
        ensures runs { self.new.runs ≡ self.old.runs }
        ensures serves { Serves config.now.host config.now.routes self.new records.new.queue }
    {
        if !records.is_live() {
            return Err(NodeFault::Stopped);
        }
        let Some(message) = records.message(number) else {
            return Err(NodeFault::Unknown);
        };
        if !names_held(message, places) {
            return Err(NodeFault::Unknown);
        }
        if is_tried(&self.runs, number, places) {
            return Err(NodeFault::Busy);
        }
        let Ok(outcome) = withdrawal_of(alloc, message, number, places, withdrawal, now) else {
            return Err(NodeFault::NoMemory);
        };
        match self.conclude(alloc, config, records, outcome, 0) {
            Ok(added) => Ok(added),
            Err(fault) => Err(fault),
        }
    }
}

/// Returns whether a place of a message is named, and each that is named is held.
pub(crate) fn names_held(message: &Message, names: &[u8]) -> bool
    ensures held { IsTrue result ↔ NamesHeld names.now message.now }
    ensures within { length message.now.places ≤ 100 }
{
    let places = message.places.as_slice();
    !names.is_empty() && all_held(places, names)
}

/// Returns whether each of these places is held.
fn all_held(places: &[Place], names: &[u8]) -> bool
    ensures { IsTrue result ↔ AllByRecursion (λ name. holds_at places.now name ≡ true) names.now }
{
    match names {
        [] => true,
        [first, rest @ ..] => holds_at(places, usize::from(*first)) && all_held(places, rest),
    }
}

/// Returns whether the place of this number is held.
fn holds_at(places: &[Place], index: usize) -> bool
    ensures { result ≡ holds_at places.now index }
{
    match places.get(index) {
        Some(place) => place.held,
        None => false,
    }
}

/// Returns whether the number of a place is among these.
fn is_named(names: &[u8], index: usize) -> bool
    ensures { result ≡ is_named names.now index }
{
    names.iter().any(|name| usize::from(*name) == index)
}

/// Returns whether a place is held, and its number is among these.
fn is_held_of(names: &[u8], index: usize, place: Place) -> bool
    ensures { result ≡ is_held_of names.now index place }
{
    place.held && is_named(names, index)
}

/// Returns whether a running attempt for a message tries one of these places.
pub(crate) fn is_tried(runs: &Slots<Run>, number: u64, names: &[u8]) -> bool
    ensures { result ≡ is_tried runs.now number names.now }
{
    runs.as_slice()
        .iter()
        .any(|run| tries_one(run, number, names))
}

/// Returns whether an attempt is for a message, and tries one of these places.
fn tries_one(run: &Option<Run>, number: u64, names: &[u8]) -> bool
    ensures { result ≡ tries_one number names.now run.now }
{
    match run {
        Some(run) => run.message == number && has_named(run.places.as_slice(), names),
        None => false,
    }
}

/// Returns whether one of the places is among these.
fn has_named(places: &[u8], names: &[u8]) -> bool
    ensures { result ≡ list_any (is_named names.now) places.now }
{
    places
        .iter()
        .any(|place| is_named(names, usize::from(*place)))
}

/// Returns the outcome by which the postmaster ends the named places of a message. Fails if memory runs out.
pub(crate) fn withdrawal_of(
    alloc: Global,
    message: &Message,
    number: u64,
    names: &[u8],
    withdrawal: Withdrawal,
    now: Moment,
) -> Result<Outcome, AllocError>
    ensures { IfOk result (λ outcome. outcome ≡ withdrawal_of number now withdrawal names.now message.now) }
{
    let places = named_places(alloc, message, names)?;
    Ok(Outcome {
        version: Version::WithWithdrawal,
        message: number,
        at: now,
        hop: Octets::new(Vec::new(alloc)),
        rulings: withdrawn(alloc, places.as_slice(), withdrawal)?,
        report: Octets::new(Vec::new(alloc)),
    })
}

/// Returns the held places of a message that are named, in order. Fails if memory runs out.
fn named_places(alloc: Global, message: &Message, names: &[u8]) -> Result<Vec<u8>, AllocError>
    ensures { IfOk result (λ places. places.items ≡ named_places names.now message.now) }
{
    let mut places = Vec::new(alloc);
    for (index, place) in message.places.as_slice().iter().enumerate() {
        if is_held_of(names, index, *place) {
            places.push(index as u8)?;
        }
    }
    Ok(places)
}

/// Returns the postmaster's verdict for each of these places. Fails if memory runs out.
fn withdrawn(alloc: Global, places: &[u8], withdrawal: Withdrawal) -> Result<Rulings, AllocError>
    ensures { IfOk result (λ rulings. rulings ≡ withdrawn withdrawal places.now) }
{
    let mut rulings = Rulings::new(alloc);
    for place in places {
        rulings.push(Ruling {
            place: *place,
            verdict: Verdict::Withdrawn(withdrawal),
        })?;
    }
    Ok(rulings)
}
