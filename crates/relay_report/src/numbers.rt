//! The numbers after a stem in a text.
ghost use Rattle.std.specs.Prelude.{◌≡◌, ◌++◌, ◌+◌, ◌<◌, ◌≤◌, length, drop, take, IfSome, OnOk, MatchOption, Some};
ghost use Rattle.std.specs.Option.{option_to_list};
ghost use Rattle.memchr.specs.Find.{FindsNeedle};
ghost use Rattle.relay_report.specs.Numbers.{all_begun, grown, leading, longer, Collects, NextIsAfter};

use memchr::arch::all::is_prefix;
use memchr::memchr;
use memchr::memmem::Finder;
use std::alloc::AllocError;

/// How many octets are checked for the next stem before the whole rest is searched: where stems stand close, as in a
/// text full of boundaries, to begin a search costs more than the look.
const NEAR: usize = 32;

/// Returns the number with one digit more.
fn longer(value: u64, octet: u8) -> Option<u64>
    ensures { result ≡ longer value octet }
{
    if octet < 48 || 57 < octet {
        None
    } else {
        value.checked_mul(10)?.checked_add((octet - 48) as u64)
    }
}

/// Returns the number with the digits after it that the text begins with, as far as it has 64 bits.
fn grown(first: u64, text: &[u8]) -> u64
    ensures { result ≡ grown first text.now }
{
    let mut value = first;
    for octet in text {
        match longer(value, *octet) {
            None => return value,
            Some(next) => value = next,
        }
    }
    value
}

/// Returns the longest number whose text begins this text.
fn leading(text: &[u8]) -> Option<u64>
    ensures { result ≡ leading text.now }
{
    match text {
        [] => None,
        [48, ..] => Some(0),
        [first, rest @ ..] => match longer(0, *first) {
            None => None,
            Some(value) => Some(grown(value, rest)),
        },
    }
}

/// Adds the longest number whose text begins this text.
fn push_leading(taken: &mut Vec<u64>, text: &[u8]) -> Result<(), AllocError>
    ensures { OnOk result (taken.new.items ≡ taken.old.items ++ option_to_list (leading text.now)) }
{
    match leading(text) {
        None => Ok(()),
        Some(number) => {
            taken.push(number)?;
            Ok(())
        }
    }
}

/// Adds the longest number at each place where the stem is in the text: their digits begin all the numbers that stand
/// after the stem somewhere.
pub(crate) fn collect(
    taken: &mut Vec<u64>,
    stem: &Finder<'_>,
    text: &[u8],
) -> Result<(), AllocError>
    requires { 0 < length stem.now }
    ensures { OnOk result (Collects stem.now text.now (all_begun taken.old.items) (all_begun taken.new.items)) }
{
    let step = least_step(stem.needle());
    let mut rest = text;
    while let Some(place) = find_stem(rest, stem) {
        push_leading(taken, after(rest, place + stem.needle().len()))?;
        rest = after(rest, place + step);
    }
    Ok(())
}

/// How far after a place of the stem its next one is at least: as long as the stem, if it doesn't overlap itself.
#[tactic(auto, using(crate::proofs::NearLemmas::first_step))]
fn least_step(stem: &[u8]) -> usize
    requires { 0 < length stem.now }
    ensures after { NextIsAfter stem.now result }
    ensures within { (0 < result) × (result ≤ length stem.now) }
{
    for step in 1..stem.len() {
        if is_prefix(stem, &stem[step..]) {
            return step;
        }
    }
    stem.len()
}

/// Returns the first place of the stem, which isn't empty.
fn find_stem(text: &[u8], stem: &Finder<'_>) -> Option<usize>
    ensures first { FindsNeedle text.now stem.now 0 result }
    ensures within { MatchOption result (Unit {0}) (λ place. place + length stem.now ≤ length text.now) }
{
    if let Some(place) = find_near(text, stem.needle()) {
        return Some(place);
    }
    stem.find(text)
}

/// Returns the first place of the stem, if it is that of the first octet near by that is like the stem's first one.
#[tactic(auto, using(crate::proofs::NearLemmas::first_like))]
fn find_near(text: &[u8], stem: &[u8]) -> Option<usize>
    ensures { IfSome result (λ place. FindsNeedle text.now stem.now 0 (Some place)) }
{
    if stem.is_empty() {
        return None;
    }
    match memchr(stem[0], front(text)) {
        None => None,
        Some(place) => {
            if is_prefix(after(text, place), stem) {
                Some(place)
            } else {
                None
            }
        }
    }
}

/// Returns the octets that are near.
fn front(text: &[u8]) -> &[u8]
    ensures front { result.now ≡ take (length result.now) text.now }
    ensures within { length result.now ≤ length text.now }
{
    &text[..text.len().min(NEAR)]
}

/// Returns what stands from a place on.
fn after(text: &[u8], place: usize) -> &[u8]
    requires { place ≤ length text.now }
    ensures { result.now ≡ drop place text.now }
{
    &text[place..]
}
