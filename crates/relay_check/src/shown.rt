//! Values as findings show them: on one line, cut where they are long, with printable octets only.
ghost use Rattle.std.specs.Prelude.{◌≡◌, true, IfOk, string_bytes};
ghost use Rattle.relay_check.specs.Shown.{IsShown, is_printable};

use std::alloc::{AllocError, Global};
use toml::{Table, Value};

/// The most octets that are shown of a value or of a line.
const MOST_SHOWN: usize = 160;

/// After this many octets a string is cut.
const LONG_TEXT: usize = 120;

/// After this many octets an array or a table is cut.
const LONG_LIST: usize = 60;

/// After this many octets a string in an array, or a key in a table, is cut.
const LONG_ITEM: usize = 30;

/// Returns a value as TOML on one line: a string with escapes, of an array its elements, and of a table its keys; `..`
/// stands for what has no room. Fails if memory runs out.
pub(crate) fn shown(alloc: Global, value: &Value) -> Result<String, AllocError>
    ensures { IfOk result (λ text. IsShown (string_bytes text)) }
{
    let text = match value {
        Value::String(text) => quoted(alloc, text.as_str(), LONG_TEXT)?,
        Value::Array(values) => elements(alloc, values.as_slice())?,
        value => element(alloc, value)?,
    };
    printable(alloc, text.as_str())
}

/// Returns the first 160 characters of a text, with `?` in place of each one that isn't printable. Fails if memory runs
/// out.
#[tactic(auto, using(crate::proofs::ShownLemmas::shown_more))]
pub(crate) fn printable(alloc: Global, text: &str) -> Result<String, AllocError>
    ensures { IfOk result (λ shown. IsShown (string_bytes shown)) }
{
    let mut shown = String::new(alloc);
    for character in text.chars() {
        if shown.len() >= MOST_SHOWN {
            break;
        }
        shown.push(screened(character))?;
    }
    Ok(shown)
}

/// Returns the character, or `?` if it isn't printable.
fn screened(character: char) -> char
    ensures { is_printable result ≡ true }
{
    if is_printable(character) {
        character
    } else {
        '?'
    }
}

/// Returns whether a character is a printable one of ASCII, from the space to `~`.
fn is_printable(character: char) -> bool
    ensures { result ≡ is_printable character }
{
    ' ' <= character && character <= '~'
}

/// Returns the elements of an array, as far as they have room.
fn elements(alloc: Global, values: &[Value]) -> Result<String, AllocError> {
    let mut list = String::from_str(alloc, "[")?;
    for (index, value) in values.iter().enumerate() {
        let element = element(alloc, value)?;
        if !push_item(&mut list, index, element.as_str())? {
            break;
        }
    }
    list.push_str("]")?;
    Ok(list)
}

/// Returns an element of an array. Of an array in an array nothing is shown but that it is one.
fn element(alloc: Global, value: &Value) -> Result<String, AllocError> {
    match value {
        Value::String(text) => quoted(alloc, text.as_str(), LONG_ITEM),
        Value::Array(_) => String::from_str(alloc, "[..]"),
        Value::Table(members) => keys(alloc, members),
        value => format!(in alloc; "{value}"),
    }
}

/// Returns the keys of a table, as far as they have room, without their values.
fn keys(alloc: Global, members: &Table) -> Result<String, AllocError> {
    if members.is_empty() {
        return String::from_str(alloc, "{}");
    }
    let mut list = String::from_str(alloc, "{ ")?;
    for (index, key) in members.keys().enumerate() {
        let mut item = String::new(alloc);
        let is_whole = push_escaped(&mut item, key.as_str(), LONG_ITEM)?;
        item.push_str(if is_whole { " = .." } else { ".. = .." })?;
        if !push_item(&mut list, index, item.as_str())? {
            break;
        }
    }
    list.push_str(" }")?;
    Ok(list)
}

/// Adds an item to a list, or `..` if it has no room. Returns whether it had.
fn push_item(list: &mut String, index: usize, item: &str) -> Result<bool, AllocError> {
    if index > 0 {
        list.push_str(", ")?;
    }
    let fits = list.len().saturating_add(item.len()) <= LONG_LIST;
    list.push_str(if fits { item } else { ".." })?;
    Ok(fits)
}

/// Returns a string in quotes, or the first part of a long one.
fn quoted(alloc: Global, text: &str, most: usize) -> Result<String, AllocError> {
    let mut shown = String::from_str(alloc, "\"")?;
    let is_whole = push_escaped(&mut shown, text, most)?;
    shown.push_str(if is_whole { "\"" } else { "\".." })?;
    Ok(shown)
}

/// Adds a text with escapes, or the first part of a long one. Returns whether it is whole.
fn push_escaped(shown: &mut String, text: &str, most: usize) -> Result<bool, AllocError> {
    for character in text.chars() {
        if shown.len() >= most {
            return Ok(false);
        }
        for part in character.escape_default() {
            shown.push(part)?;
        }
    }
    Ok(true)
}
