//! Recipients of queued messages, as `return` and `discard` name them.
ghost use Rattle.std.specs.Prelude.{◌≡◌, ◌++◌, IfOk, MatchOption, OnOk};
ghost use Rattle.relay_control.specs.Named.{HasNoName, HasNoNames, HasNoPlace, HasNoPlaces, IsNameText, IsPlaceText};
ghost use Rattle.relay_control.specs.Named.{AreNamesText, ArePlacesText, named_text, names_text, places_text};

use crate::front::cut;
use crate::number::{push_number, read_number};
use std::alloc::{AllocError, Global};

/// The most messages that one request names.
pub const MOST_NAMED: usize = 64;

/// Recipients of a message.
#[derive(Drop)]
pub struct Named {
    /// The number of the message.
    pub message: u64,
    /// The recipients' places in its envelope: at least one, each below 100, in ascending order.
    pub places: Vec<u8>,
}

/// Reads `NUMBER:PLACE,.. ..`, 64 messages at most: `None` if the text isn't that. Fails if memory runs out.
pub(crate) fn read_names(alloc: Global, text: &[u8]) -> Result<Option<Vec<Named>>, AllocError>
    ensures { IfOk result (λ found. MatchOption found (HasNoNames text.now)
        (λ names. AreNamesText text.now names.items)) }
{
    let mut names = Vec::new(alloc);
    let mut rest = Some(text);
    while let Some(octets) = rest {
        if MOST_NAMED <= names.len() {
            return Ok(None);
        }
        let (word, next) = cut(octets, b' ');
        match read_named(alloc, word)? {
            Some(named) => names.push(named)?,
            None => return Ok(None),
        }
        rest = next;
    }
    Ok(Some(names))
}

/// Reads `NUMBER:PLACE,..`: `None` if the text isn't that. Fails if memory runs out.
fn read_named(alloc: Global, text: &[u8]) -> Result<Option<Named>, AllocError>
    ensures { IfOk result (λ found. MatchOption found (HasNoName text.now) (IsNameText text.now)) }
{
    let (digits, rest) = cut(text, b':');
    let Some(list) = rest else {
        return Ok(None);
    };
    let Some(message) = read_number(digits) else {
        return Ok(None);
    };
    match read_places(alloc, list)? {
        Some(places) => Ok(Some(Named { message, places })),
        None => Ok(None),
    }
}

/// Reads `PLACE,..`: `None` if the text isn't that. Fails if memory runs out.
fn read_places(alloc: Global, text: &[u8]) -> Result<Option<Vec<u8>>, AllocError>
    ensures { IfOk result (λ found. MatchOption found (HasNoPlaces text.now)
        (λ places. ArePlacesText text.now places.items)) }
{
    let mut places = Vec::new(alloc);
    let mut least = 0;
    let mut rest = Some(text);
    while let Some(octets) = rest {
        let (digits, next) = cut(octets, b',');
        let Some(place) = read_place(digits, least) else {
            return Ok(None);
        };
        places.push(place)?;
        least = place + 1;
        rest = next;
    }
    Ok(Some(places))
}

/// Returns the place below 100, and not below the least one, that a text writes.
fn read_place(text: &[u8], least: u8) -> Option<u8>
    ensures { MatchOption result (HasNoPlace text.now least) (IsPlaceText text.now least) }
{
    match read_number(text) {
        Some(number) => {
            if u64::from(least) <= number && number < 100 {
                Some(number as u8)
            } else {
                None
            }
        }
        None => None,
    }
}

/// Adds names as requests write them. Fails if memory runs out.
pub(crate) fn push_names(text: &mut Vec<u8>, names: &[Named]) -> Result<(), AllocError>
    ensures { OnOk result (text.new.items ≡ text.old.items ++ names_text names.now) }
{
    for (index, named) in names.iter().enumerate() {
        if 0 < index {
            text.push(b' ')?;
        }
        push_named(text, named)?;
    }
    Ok(())
}

/// Adds the recipients of one message. Fails if memory runs out.
fn push_named(text: &mut Vec<u8>, named: &Named) -> Result<(), AllocError>
    ensures { OnOk result (text.new.items ≡ text.old.items ++ named_text named.now) }
{
    push_number(text, named.message)?;
    text.push(b':')?;
    push_places(text, named.places.as_slice())
}

/// Adds places, with commas between them. Fails if memory runs out.
fn push_places(text: &mut Vec<u8>, places: &[u8]) -> Result<(), AllocError>
    ensures { OnOk result (text.new.items ≡ text.old.items ++ places_text places.now) }
{
    for (index, place) in places.iter().enumerate() {
        if 0 < index {
            text.push(b',')?;
        }
        push_number(text, u64::from(*place))?;
    }
    Ok(())
}
