//! A queued recipient as a JSON object (RFC 8259).
ghost use Rattle.std.specs.Prelude.{◌≡◌, ◌-◌, codes, IfOk, OnOk, string_bytes};
ghost use Rattle.std.specs.List.{list_all};
ghost use Rattle.std.specs.Option.{option_copied};
ghost use Rattle.serde_json.specs.Data.{null};
ghost use Rattle.serde_json.specs.Events.{SendsValue};
ghost use Rattle.serde_json.specs.Written.{compact_text};
ghost use Rattle.relay_lines.specs.Word.{is_printable};
ghost use Rattle.relay_listing.specs.Object.{WritesMember, hop_value, number_value, object_of, text_of, text_value};
ghost use Rattle.relay_listing.specs.Row.{said_by};

use crate::row::Row;
use relay_lines::word::is_printable;
use relay_trace::Moment;
use serde::{Described, Serialize, Serializer};
use std::alloc::{AllocError, Global};
use std::str;

/// A queued recipient as an object, at a time.
#[derive(Clone, Copy)]
struct Listed<'a> {
    row: &'a Row<'a>,
    now: Moment,
}

impl Described for Listed<'_> {
    ghost writes = { λ listed. SendsValue (object_of listed.now (said_by listed.row.now)) };
}

// Written out, since the contract of a derived impl doesn't say what it writes.
impl Serialize for Listed<'_> {
    fn serialize<S: Serializer>(&self, out: &mut S) -> Result<(), S::Error> {
        let row = self.row;
        out.begin_map(Some(10))?;
        write_number(out, "message", row.number)?;
        write_number(out, "place", u64::from(row.place))?;
        write_number(out, "accepted", row.accepted.seconds())?;
        write_number(out, "age", age_of(row, self.now))?;
        write_number(out, "size", row.size as u64)?;
        write_text(out, "reverse_path", row.reverse_path)?;
        write_text(out, "recipient", row.path)?;
        write_hop(out, row.hop)?;
        write_number(out, "tries", u64::from(row.tries))?;
        write_number(out, "next_try", row.due)?;
        out.end_map()
    }
}

/// Returns a recipient as a JSON object at a time, without spaces. Fails if memory runs out.
pub fn object_text(alloc: Global, row: &Row<'_>, now: Moment) -> Result<String, AllocError>
    ensures { IfOk result (λ text. string_bytes text ≡ compact_text (object_of now (said_by row.now))) }
{
    match serde_json::to_string(alloc, &Listed { row, now }) {
        Ok(text) => Ok(text),
        Err(_) => Err(AllocError),
    }
}

/// Returns how many seconds ago the message of a recipient was accepted; 0 if the clock is before that.
pub fn age_of(row: &Row<'_>, now: Moment) -> u64
    ensures { result ≡ now - row.now.accepted }
{
    now.seconds().saturating_sub(row.accepted.seconds())
}

/// Writes a member that is a number.
fn write_number<S: Serializer>(out: &mut S, name: &str, number: u64) -> Result<(), S::Error>
    ensures { OnOk result (WritesMember name.now (number_value number) (S.written out.old) (S.written out.new)) }
{
    out.key(name)?;
    out.u64(number)
}

/// Writes a member that is a path or a name.
fn write_text<S: Serializer>(out: &mut S, name: &str, octets: &[u8]) -> Result<(), S::Error>
    ensures { OnOk result (WritesMember name.now (text_value octets.now) (S.written out.old) (S.written out.new)) }
{
    out.key(name)?;
    out.str(text_of(octets))
}

/// Writes the name of the next hop, or null without one.
fn write_hop<S: Serializer>(out: &mut S, hop: Option<&[u8]>) -> Result<(), S::Error>
    ensures { OnOk result (WritesMember (codes "hop") (hop_value (option_copied hop.entry)) (S.written out.old)
        (S.written out.new)) }
{
    match hop {
        Some(name) => write_text(out, "hop", name),
        None => write_null(out, "hop"),
    }
}

/// Writes a member that is null.
fn write_null<S: Serializer>(out: &mut S, name: &str) -> Result<(), S::Error>
    ensures { OnOk result (WritesMember name.now null (S.written out.old) (S.written out.new)) }
{
    out.key(name)?;
    out.unit()
}

/// Returns the text of a path or of a name, or the empty text if it isn't printable ASCII.
fn text_of(octets: &[u8]) -> &str
    ensures { result.now ≡ text_of octets.now }
{
    if !are_printable(octets) {
        return "";
    }
    match str::from_utf8(octets) {
        Ok(text) => text,
        Err(_) => "",
    }
}

fn are_printable(octets: &[u8]) -> bool
    ensures { result ≡ list_all is_printable octets.now }
{
    octets.iter().all(|octet| is_printable(*octet))
}
