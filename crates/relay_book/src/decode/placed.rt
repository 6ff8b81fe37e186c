//! The recipients of a snapshot's message, each followed by its place.
ghost use Rattle.std.specs.Prelude.{◌≡◌, ◌++◌, ◌∷◌, [], ◌≤◌, List, length, MatchOption, IfOk, OnOk, IsErrOf};
ghost use Rattle.std.specs.List.{zip};
ghost use Rattle.relay_envelope.specs.Envelope.{IsRecipient, recipient_from};
ghost use Rattle.relay_envelope.specs.Mail.{rcpt_value};
ghost use Rattle.relay_book.specs.Fields.{HasNoCounted, HasNoRow, HasNone};
ghost use Rattle.relay_book.specs.Queue.{held_place};
ghost use Rattle.relay_book.specs.Record.{recipient_octets};
ghost use Rattle.relay_book.specs.Snapshot.{IsPlace, IsPlaceBy, place_octets, placed_octets};
ghost use Rattle.relay_book.specs.SnapshotFields.{HasNoDelay, HasNoPlaceFields, HasPlaceFields, IsNoPlace, IsPlacedBy};
ghost use Rattle.relay_book.specs.SnapshotFields.{ReadsPlaced, ReadsRow, SpellsDelay, SpellsPlace};

use super::recipient::read_recipient;
use crate::fault::BookFault;
use crate::field::read_8;
use crate::message::{Place, Places};
use crate::retry::LEFT_PLACE;
use crate::version::SnapshotVersion;
use relay_envelope::{Rcpt, Recipient, Recipients};
use std::alloc::{AllocError, Global};

/// The most Later verdicts that a place counts.
const LATER_LIMIT: u8 = 4;

/// Returns the place of these fields.
fn place_of(held: u8, laters: u8, delayed: u8, due: u64) -> Option<Place>
    ensures { MatchOption result (IsNoPlace held laters delayed due)
        (λ place. IsPlace place × HasPlaceFields place held laters delayed due) }
{
    match held {
        0 => left_place(laters, delayed, due),
        1 => held_place(laters, delayed, due),
        _ => None,
    }
}

/// Returns a place that left, of which no Later verdict counts, which wasn't reported as delayed and isn't due.
fn left_place(laters: u8, delayed: u8, due: u64) -> Option<Place>
    ensures { MatchOption result (IsNoPlace 0 laters delayed due)
        (λ place. IsPlace place × HasPlaceFields place 0 laters delayed due) }
{
    if laters == 0 && delayed == 0 && due == 0 {
        Some(LEFT_PLACE)
    } else {
        None
    }
}

/// Returns a place that is held.
fn held_place(laters: u8, delayed: u8, due: u64) -> Option<Place>
    ensures { MatchOption result (IsNoPlace 1 laters delayed due)
        (λ place. IsPlace place × HasPlaceFields place 1 laters delayed due) }
{
    if laters > LATER_LIMIT {
        return None;
    }
    match delayed {
        0 => Some(waiting_place(laters, false, due)),
        1 => Some(waiting_place(laters, true, due)),
        _ => None,
    }
}

fn waiting_place(laters: u8, delayed: bool, due: u64) -> Place
    ensures { result ≡ held_place laters delayed due }
{
    Place {
        held: true,
        laters,
        delayed,
        due,
    }
}

/// Returns whether a place was reported as delayed, and what follows it: the first version says nothing, which counts
/// as 0.
#[tactic(auto, using(crate::proofs::PlacedLemmas::said_of_delay))]
fn split_delay(version: SnapshotVersion, text: &[u8]) -> Option<(u8, &[u8])>
    ensures { MatchOption result (HasNoDelay version text.now)
        (λ parts. SpellsDelay version text.now parts.0 parts.1.now) }
{
    match version {
        SnapshotVersion::WithoutDelay => Some((0, text)),
        SnapshotVersion::WithDelay => {
            let (delayed, rest) = text.split_first()?;
            Some((*delayed, rest))
        }
    }
}

/// Returns the fields of a place, and what follows them.
#[tactic(auto, using(crate::proofs::PlacedLemmas::place_fields))]
fn split_place(version: SnapshotVersion, text: &[u8]) -> Option<(u8, u8, u8, u64, &[u8])>
    ensures { MatchOption result (HasNoPlaceFields version text.now)
        (λ parts. SpellsPlace version text.now parts.0 parts.1 parts.2 parts.3 parts.4.now) }
{
    let (held, after) = text.split_first()?;
    let (laters, after) = after.split_first()?;
    let (delayed, after) = split_delay(version, after)?;
    match read_8(after) {
        None => None,
        Some((due, rest)) => Some((*held, *laters, delayed, due, rest)),
    }
}

/// Returns a place, and what follows it.
#[tactic(auto, using(crate::proofs::PlacedLemmas::judged_places))]
fn read_place(version: SnapshotVersion, text: &[u8]) -> Option<(Place, &[u8])>
    ensures { MatchOption result (HasNone (IsPlaceBy version) (place_octets version) text.now)
        (λ parts. IsPlaceBy version parts.0 × (text.now ≡ place_octets version parts.0 ++ parts.1.now)) }
{
    let (held, laters, delayed, due, rest) = split_place(version, text)?;
    let place = place_of(held, laters, delayed, due)?;
    Some((place, rest))
}

/// Returns a recipient and its place, and what follows them.
#[tactic(auto, using(crate::proofs::PlacedLemmas::placed_recipients))]
fn read_one(version: SnapshotVersion, text: &[u8]) -> Option<(Rcpt<'_>, Place, &[u8])>
    ensures { MatchOption result (HasNone (IsPlacedBy version) (placed_octets version) text.now)
        (λ parts. IsPlacedBy version (recipient_from (rcpt_value parts.0), parts.1)
        × (text.now ≡ placed_octets version (recipient_from (rcpt_value parts.0), parts.1) ++ parts.2.now)) }
{
    let (rcpt, after) = read_recipient(text)?;
    match read_place(version, after) {
        None => None,
        Some((place, rest)) => Some((rcpt, place, rest)),
    }
}

/// Adds a place.
fn push_place(places: &mut Vec<Place>, place: Place) -> Result<(), AllocError>
    ensures { OnOk result (places.new.items ≡ places.old.items ++ place ∷ []) }
{
    places.push(place)?;
    Ok(())
}

/// Returns this many recipients and their places, and what follows them.
fn read_row(
    alloc: Global,
    version: SnapshotVersion,
    count: u8,
    text: &[u8],
) -> Result<(Recipients, Vec<Place>, &[u8]), BookFault>
    ensures row { IfOk result (λ parts. ReadsRow version count text.now parts.0 parts.1.items parts.2.now) }
    ensures bad { IsErrOf result BookFault.BadRecord
        → HasNoRow (IsPlacedBy version) (placed_octets version) count text.now }
{
    let mut recipients = Recipients::with_capacity(alloc, count as usize)?;
    let mut places = Vec::with_capacity(alloc, count as usize)?;
    let mut rest = text;
    for index in 0..count {
        match read_one(version, rest) {
            None => return Err(BookFault::BadRecord),
            Some((rcpt, place, after)) => {
                recipients.push(Recipient::new(alloc, rcpt)?)?;
                push_place(&mut places, place)?;
                rest = after;
            }
        }
    }
    Ok((recipients, places, rest))
}

/// 1 to 100 recipients and their places after their count, and what follows them.
#[tactic(auto, using(crate::proofs::RowLemmas::refused_rows, crate::proofs::PlacedLemmas::placed_rows))]
pub(super) fn read_placed(
    alloc: Global,
    version: SnapshotVersion,
    text: &[u8],
) -> Result<(Recipients, Places, &[u8]), BookFault>
    ensures placed { IfOk result (λ parts. ReadsPlaced version text.now parts.0 parts.1 parts.2.now) }
    ensures bad { IsErrOf result BookFault.BadRecord
        → HasNoCounted (IsPlacedBy version) (placed_octets version) text.now }
{
    let Some((count, after)) = text.split_first() else {
        return Err(BookFault::BadRecord);
    };
    if *count < 1 || *count > 100 {
        return Err(BookFault::BadRecord);
    }
    let (recipients, places, rest) = read_row(alloc, version, *count, after)?;
    Ok((recipients, Places::new(places), rest))
}
