// The image that a stop leaves, from the stored calls and the number that picks it.
ghost use Rattle.std.specs.Prelude.{◌≡◌, ◌<◌, ◌≤◌, ◌^◌, max, true, if◌then◌else◌, length, reverse, slice_index};
ghost use Rattle.std.specs.Prelude.{slice_index_or, IfOk, IfNone, IfSome};
ghost use Rattle.relay_disk.specs.MayLeave.{seen_after, are_within, synced_after};
ghost use Rattle.relay_disk.specs.Pick.{is_written, is_changed, reach, changed_octet, octet_at, octet_left, IsPicked};

use crate::call::{Call, overwrite};
use std::alloc::{AllocError, Global};

// The calls up to the last good sync.
fn settled(calls: &[Call]) -> &[Call]
    ensures same { (start : _)
        → seen_after start (reverse result.now) ≡ synced_after start (reverse calls.now) }
    ensures within { (start : _) → are_within start (reverse calls.now) ≡ true
        → are_within start (reverse result.now) ≡ true }
{
    let mut rest = calls;
    while let Some((last, earlier)) = rest.split_last() {
        if last.is_sync() {
            return rest;
        }
        rest = earlier;
    }
    rest
}

// What a read gives after these calls on a disk that began so.
fn replay(alloc: Global, start: &[u8], calls: &[Call]) -> Result<Vec<u8>, AllocError>
    requires { are_within start.now (reverse calls.now) ≡ true }
    ensures { IfOk result (λ image. image.items ≡ seen_after start.now (reverse calls.now)) }
{
    let mut image = Vec::from_slice(alloc, start)?;
    for call in calls {
        call.replay(&mut image)?;
    }
    Ok(image)
}

fn is_written(calls: &[Call], at: usize) -> bool
    ensures { result ≡ is_written (reverse calls.now) at }
{
    let mut rest = calls;
    while let Some((last, earlier)) = rest.split_last() {
        if last.is_sync() {
            return false;
        }
        let (place, count) = last.range();
        if place <= at && at - place < count {
            return true;
        }
        rest = earlier;
    }
    false
}

// The greatest end of the ranges since the last good sync, or none if it is no `usize`.
fn reach(calls: &[Call]) -> Option<usize>
    ensures end { IfSome result (λ end. end ≡ reach (reverse calls.now)) }
    ensures too_far { IfNone result (2 ^ 64 ≤ reach (reverse calls.now)) }
{
    let mut end = 0;
    let mut rest = calls;
    while let Some((last, earlier)) = rest.split_last() {
        if last.is_sync() {
            return Some(end);
        }
        let (place, count) = last.range();
        if count > 0 {
            end = end.max(place.checked_add(count)?);
        }
        rest = earlier;
    }
    Some(end)
}

fn changed_octet(pick: u64, below: usize, is: u8, was: u8) -> u8
    ensures { result ≡ changed_octet pick below is was }
{
    match pick {
        2 => 1,
        3 => 255,
        _ if (below as u64) < pick.saturating_sub(4) => is,
        _ => was,
    }
}

fn is_changed(synced: &[u8], calls: &[Call], at: usize) -> bool
    ensures { result ≡ is_changed synced.now (reverse calls.now) at }
{
    at >= synced.len() || is_written(calls, at)
}

fn octet_at(pick: u64, synced: &[u8], now: &[u8], at: usize, changed: bool, below: usize) -> u8
    ensures { result ≡ octet_at pick synced.now now.now at changed below }
{
    let was = synced.get(at).copied().unwrap_or(0);
    let is = now.get(at).copied().unwrap_or(was);
    if changed {
        changed_octet(pick, below, is, was)
    } else {
        is
    }
}

// The image by a pick from 2 on.
fn torn(
    alloc: Global,
    synced: &[u8],
    now: &[u8],
    calls: &[Call],
    pick: u64,
) -> Result<Vec<u8>, AllocError>
    ensures size { IfOk result (λ image. length image.items
        ≡ max (length now.now) (reach (reverse calls.now))) }
    ensures octets { IfOk result (λ image. (at : _) → at < length image.items
        → slice_index image.items at ≡ octet_left pick synced.now now.now (reverse calls.now) at) }
{
    let size = now.len().max(reach(calls).ok_or(AllocError)?);
    let mut image = Vec::new(alloc);
    let mut below = 0;
    for at in 0..size {
        let changed = is_changed(synced, calls, at);
        image.push(octet_at(pick, synced, now, at, changed, below))?;
        below += usize::from(changed);
    }
    Ok(image)
}

/// Returns the image that a stop leaves by this pick.
pub(crate) fn picked(
    alloc: Global,
    start: &[u8],
    calls: &[Call],
    now: &[u8],
    pick: u64,
) -> Result<Vec<u8>, AllocError>
    requires { are_within start.now (reverse calls.now) ≡ true }
    ensures { IfOk result (λ image. IsPicked pick
        (synced_after start.now (reverse calls.now)) now.now (reverse calls.now) image.items) }
{
    if pick == 1 {
        return Vec::from_slice(alloc, now);
    }
    let synced = replay(alloc, start, settled(calls))?;
    if pick == 0 {
        return Ok(synced);
    }
    torn(alloc, &synced, now, calls, pick)
}
