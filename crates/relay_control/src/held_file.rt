//! The file of held mail: TOML with the names of next hops at `hops`, and the numbers of messages at `messages`.
ghost use Rattle.std.specs.List.{AllByRecursion};
ghost use Rattle.std.specs.Prelude.{◌≡◌, ◌<◌, ◌^◌, Err, IfOk, List, MatchOption, Some, string_bytes, ℕ};
ghost use Rattle.toml.specs.Data.{array, get_member};
ghost use Rattle.toml.specs.View.{items_view, table_view, view};
ghost use Rattle.relay_control.specs.HeldFile.{AreMessages, AreNames, HasNoArray, HoldsDocument, HoldsNumbers};
ghost use Rattle.relay_control.specs.HeldFile.{IsBadText};
ghost use Rattle.relay_control.specs.HeldFile.{IsDocumentOf, IsMessage, IsName, IsTextOf, ReadsHeld, SaysNothing};
ghost use Rattle.relay_control.specs.HeldFile.{document_with};

use crate::held::Held;
use relay_routes::HostName;
use std::alloc::{AllocError, Global};
use std::collections::BTreeSet;
use std::str;
use toml::{Table, Value};

/// Why a text says nothing of what is held, or can't be written.
#[derive(Clone, Copy, Drop, PartialEq, Eq)]
pub enum HeldFault {
    /// It isn't TOML, `hops` is no array of names, `messages` is no array of numbers, or another key is there.
    BadText,
    /// Memory ran out.
    NoMemory,
}

/// Reads the text of the file.
pub fn read_held(alloc: Global, text: &str) -> Result<Held, HeldFault>
    ensures ok { IfOk result (ReadsHeld text.now) }
    ensures bad { (result ≡ Err HeldFault.BadText) → IsBadText text.now }
{
    let document = match toml::table_from_str(alloc, text) {
        Ok(document) => document,
        Err(fault) if fault.is_memory() => return Err(HeldFault::NoMemory),
        Err(_) => return Err(HeldFault::BadText),
    };
    match held_of(alloc, &document) {
        Ok(Some(held)) => Ok(held),
        Ok(None) => Err(HeldFault::BadText),
        Err(_) => Err(HeldFault::NoMemory),
    }
}

/// Returns the mail that a document says is held. Fails if memory runs out.
fn held_of(alloc: Global, document: &Table) -> Result<Option<Held>, AllocError>
    ensures { IfOk result (λ found. MatchOption found (SaysNothing (table_view document.now))
        (HoldsDocument (table_view document.now))) }
{
    if document.len() != 2 {
        return Ok(None);
    }
    let Some(names) = array_at(document, "hops") else {
        return Ok(None);
    };
    let Some(numbers) = array_at(document, "messages") else {
        return Ok(None);
    };
    let Some(hops) = read_names(alloc, names)? else {
        return Ok(None);
    };
    let Some(messages) = read_numbers(alloc, numbers)? else {
        return Ok(None);
    };
    Ok(Some(Held::of(hops, messages)))
}

/// Returns the values of the array at a key.
fn array_at<'a>(document: &'a Table, key: &str) -> Option<&'a [Value]>
    ensures { MatchOption result (HasNoArray key.now (table_view document.now))
        (λ values. get_member key.now (table_view document.now) ≡ Some (array (items_view values.now))) }
{
    let Some(value) = document.get(key) else {
        return None;
    };
    match value.as_array() {
        Some(values) => Some(values.as_slice()),
        None => None,
    }
}

/// Returns the names of next hops that values are, if each is one. Fails if memory runs out.
fn read_names(alloc: Global, values: &[Value]) -> Result<Option<Vec<HostName>>, AllocError>
    ensures { IfOk result (λ found. MatchOption found
        ((names : List (List ℕ)) → ¬ AreNames (items_view values.now) names)
        (λ names. AreNames (items_view values.now) names.items)) }
{
    let mut names = Vec::new(alloc);
    for value in values {
        match read_name(alloc, value)? {
            Some(name) => names.push(name)?,
            None => return Ok(None),
        }
    }
    Ok(Some(names))
}

/// Returns the name of a next hop that a value is. Fails if memory runs out.
fn read_name(alloc: Global, value: &Value) -> Result<Option<HostName>, AllocError>
    ensures { IfOk result (λ found. MatchOption found ((name : List ℕ) → ¬ IsName (view value.now) name)
        (IsName (view value.now))) }
{
    match value.as_str() {
        Some(text) => HostName::read(alloc, text.as_bytes()),
        None => Ok(None),
    }
}

/// Returns the numbers of messages that values are, if each is one. Fails if memory runs out.
fn read_numbers(
    alloc: Global,
    values: &[Value],
) -> Result<Option<BTreeSet<u64, Global>>, AllocError>
    ensures { IfOk result (λ found. MatchOption found
        ((numbers : List ℕ) → ¬ AreMessages (items_view values.now) numbers)
        (HoldsNumbers (items_view values.now))) }
{
    let mut messages = BTreeSet::new(alloc);
    for value in values {
        match read_number(value) {
            Some(number) => {
                messages.insert(number)?;
            }
            None => return Ok(None),
        }
    }
    Ok(Some(messages))
}

/// Returns the number of a message that a value is.
fn read_number(value: &Value) -> Option<u64>
    ensures { MatchOption result ((number : ℕ) → ¬ IsMessage (view value.now) number)
        (IsMessage (view value.now)) }
{
    match value.as_integer() {
        Some(number) if 0 <= number => Some(number as u64),
        _ => None,
    }
}

/// Writes the text of the file: `BadText` if the number of a message is above 2^63 - 1, which TOML can't write.
pub fn write_held(alloc: Global, held: &Held) -> Result<String, HeldFault>
    ensures ok { IfOk result (λ text. IsTextOf (string_bytes text) held.now) }
    ensures bad { (result ≡ Err HeldFault.BadText)
        → ¬ AllByRecursion (λ number. number < 2 ^ 63) held.now.messages.keys }
{
    match document_of(alloc, held) {
        Ok(Some(document)) => match toml::table_to_string(alloc, &document) {
            Ok(text) => Ok(text),
            Err(_) => Err(HeldFault::NoMemory),
        },
        Ok(None) => Err(HeldFault::BadText),
        Err(_) => Err(HeldFault::NoMemory),
    }
}

/// Returns the document of held mail, if the number of each message is below 2^63. Fails if memory runs out.
fn document_of(alloc: Global, held: &Held) -> Result<Option<Table>, AllocError>
    ensures { IfOk result (λ found. MatchOption found
        (¬ AllByRecursion (λ number. number < 2 ^ 63) held.now.messages.keys)
        (λ document. IsDocumentOf (table_view document) held.now)) }
{
    let hops = name_values(alloc, held.hops())?;
    match number_values(alloc, held.messages())? {
        Some(messages) => Ok(Some(table_of(alloc, hops, messages)?)),
        None => Ok(None),
    }
}

/// Returns the values of names. Fails if memory runs out.
fn name_values(alloc: Global, names: &[HostName]) -> Result<Vec<Value>, AllocError>
    ensures { IfOk result (λ values. AreNames (items_view values.items) names.now) }
{
    let mut values = Vec::new(alloc);
    for name in names {
        values.push(name_value(alloc, name)?)?;
    }
    Ok(values)
}

/// Returns the value of a name. Fails if memory runs out.
fn name_value(alloc: Global, name: &HostName) -> Result<Value, AllocError>
    ensures { IfOk result (λ value. IsName (view value) name.now) }
{
    match str::from_utf8(name.as_slice()) {
        Ok(text) => Value::string(alloc, text),
        Err(_) => unreachable!(),
    }
}

/// Returns the values of numbers, if each is below 2^63. Fails if memory runs out.
fn number_values(
    alloc: Global,
    numbers: &BTreeSet<u64, Global>,
) -> Result<Option<Vec<Value>>, AllocError>
    ensures { IfOk result (λ found. MatchOption found
        (¬ AllByRecursion (λ number. number < 2 ^ 63) numbers.now.keys)
        (λ values. AreMessages (items_view values.items) numbers.now.keys)) }
{
    let mut values = Vec::new(alloc);
    for number in numbers.iter() {
        if *number > i64::MAX as u64 {
            return Ok(None);
        }
        values.push(Value::Integer(*number as i64))?;
    }
    Ok(Some(values))
}

/// Returns the document with these arrays. Fails if memory runs out.
fn table_of(alloc: Global, hops: Vec<Value>, messages: Vec<Value>) -> Result<Table, AllocError>
    ensures { IfOk result (λ document. table_view document
        ≡ document_with (items_view hops.items) (items_view messages.items)) }
{
    let mut document = Table::new(alloc);
    let hops_key = String::from_str(alloc, "hops")?;
    let messages_key = String::from_str(alloc, "messages")?;
    let _ = document.insert(hops_key, Value::Array(hops))?;
    let _ = document.insert(messages_key, Value::Array(messages))?;
    Ok(document)
}
