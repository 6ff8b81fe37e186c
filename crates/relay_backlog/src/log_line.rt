ghost use Rattle.std.specs.Prelude.{◌≡◌, ◌<◌, ◌++◌, ℕ, List, IfOk, OnErr, OnOk, length};
ghost use Rattle.std.specs.List.{flat_map};
ghost use Rattle.relay_octets.specs.Beginning.{Begins};
ghost use Rattle.relay_backlog.specs.LogLine.{IsLogLine, are_bare, cut, hex_digit, hex_octet, is_bare, is_bare_octet};
ghost use Rattle.relay_backlog.specs.LogLine.{key_text, needs_backslash, number_text, quoted, quoted_octet};
ghost use Rattle.relay_backlog.specs.LogLine.{shown_octet, value_text, with_field};

use crate::stamp::write_stamp;
use itoa::Buffer;
use relay_lines::word::{all_shown, is_printable};
use relay_trace::Moment;
use std::alloc::{AllocError, Global};
use std::io;

/// How many octets a line has at most, before the `}` of JSON and the LF.
const LIMIT: usize = 998;

/// How many octets of a value stand in a line.
const VALUE_LIMIT: usize = 320;

/// How lines are written.
#[derive(Clone, Copy, Debug, Drop, PartialEq, Eq)]
pub enum Form {
    /// `relayd: sent message=1 reply="250 OK"`, after the time.
    Text,
    /// An object of JSON (RFC 8259): `{"time":"2026-11-24T08:00:01Z","event":"sent","message":1,"reply":"250 OK"}`.
    Json,
}

/// A line of the log while it is written: an event, and then its fields in the order in which they come. A field is
/// left out if it makes the line longer than 1,000 octets. Of a value the first 320 octets are written.
pub struct LogLine {
    alloc: Global,
    form: Form,
    octets: Vec<u8>,
}

// Written out, so that the proof of a caller that drops it stops at this function.
impl Drop for LogLine {
    fn drop(self) {
        let LogLine {
            alloc: _,
            form: _,
            octets: _octets,
        } = self;
    }
}

impl LogLine {
    /// Makes a line of this event, which a word names, with the time before it if there is one. It fails if memory runs
    /// out.
    pub fn new(
        alloc: Global,
        form: Form,
        moment: Option<Moment>,
        event: &[u8],
    ) -> io::Result<Self> {
        let mut octets = Vec::new(alloc);
        match form {
            Form::Text => write_beginning(&mut octets, moment, event)?,
            Form::Json => write_json_beginning(&mut octets, moment, event)?,
        }
        Ok(LogLine {
            alloc,
            form,
            octets,
        })
    }

    /// Adds octets as the value of a key. In text they stand in quotes unless all are graphic and none is a quote or a
    /// backslash; inside quotes `\` precedes these two, and an octet outside 32 to 126 is `\xHH`, in JSON `\u00HH`. If
    /// memory runs out, the line is as before.
    pub fn octets(&mut self, key: &[u8], value: &[u8]) -> Result<(), AllocError>
        ensures ok { OnOk result (self.new.octets.items ≡ with_field self.old.octets.items
            (key_text self.old.form key.now ++ value_text self.old.form (cut value.now))) }
        ensures err { OnErr result (self.new.octets.items ≡ self.old.octets.items) }
        ensures form { self.new.form ≡ self.old.form }
    {
        let start = self.octets.len();
        let pushed = push_octets(&mut self.octets, self.form, key, cut(value));
        keep_whole(&mut self.octets, start, pushed)
    }

    /// Adds a number as the value of a key; in text with a unit after it. If memory runs out, the line is as before.
    pub fn number(&mut self, key: &[u8], value: u64, unit: &[u8]) -> Result<(), AllocError>
        ensures ok { OnOk result (self.new.octets.items ≡ with_field self.old.octets.items
            (key_text self.old.form key.now ++ number_text self.old.form value unit.now)) }
        ensures err { OnErr result (self.new.octets.items ≡ self.old.octets.items) }
        ensures form { self.new.form ≡ self.old.form }
    {
        let start = self.octets.len();
        let pushed = push_number(&mut self.octets, self.form, key, value, unit);
        keep_whole(&mut self.octets, start, pushed)
    }

    /// Returns the octets of the line, with its LF. It fails if memory runs out.
    pub fn ended(mut self) -> Result<Vec<u8>, AllocError>
        ensures { IfOk result (λ line. IsLogLine line.items) }
    {
        if self.form == Form::Json {
            self.octets.push(b'}')?;
        }
        log_line(self.alloc, self.octets.as_slice())
    }
}

/// Returns as much of a value as is in a line.
fn cut(value: &[u8]) -> &[u8]
    ensures { result.now ≡ cut value.now }
{
    if value.len() < VALUE_LIMIT {
        value
    } else {
        &value[..VALUE_LIMIT]
    }
}

/// Leaves out what was added after this place, if it is not whole or makes the line too long.
fn keep_whole(
    line: &mut Vec<u8>,
    start: usize,
    pushed: Result<(), AllocError>,
) -> Result<(), AllocError>
    ensures ok { OnOk pushed ((before field : List ℕ) → line.old.items ≡ before ++ field → start ≡ length before
        → line.new.items ≡ with_field before field) }
    ensures err { OnErr pushed ((before : List ℕ) → Begins before line.old.items → start ≡ length before
        → line.new.items ≡ before) }
    ensures same { result ≡ pushed }
{
    match pushed {
        Ok(()) => leave_out_long(line, start),
        Err(_) => line.truncate(start),
    }
    pushed
}

/// Leaves out what was added after this place, if it makes the line too long.
#[tactic(auto, using(crate::proofs::FieldLemmas::field_fits, crate::proofs::FieldLemmas::field_left_out))]
fn leave_out_long(line: &mut Vec<u8>, start: usize)
    ensures { (before field : List ℕ) → line.old.items ≡ before ++ field → start ≡ length before
        → line.new.items ≡ with_field before field }
{
    if LIMIT < line.len() {
        line.truncate(start);
    }
}

/// Returns a line of these octets, up to the 999th. An octet that isn't printable stands as `?`. It fails if memory
/// runs out.
fn log_line(alloc: Global, octets: &[u8]) -> Result<Vec<u8>, AllocError>
    ensures { IfOk result (λ line. IsLogLine line.items) }
{
    let mut line = all_shown(alloc, &octets[..octets.len().min(LIMIT + 1)])?;
    line.push(b'\n')?;
    Ok(line)
}

fn write_beginning(octets: &mut Vec<u8>, moment: Option<Moment>, event: &[u8]) -> io::Result<()> {
    if let Some(moment) = moment {
        write_stamp(octets, moment)?;
    }
    octets.extend_from_slice(b"relayd: ")?;
    octets.extend_from_slice(event)?;
    Ok(())
}

fn write_json_beginning(
    octets: &mut Vec<u8>,
    moment: Option<Moment>,
    event: &[u8],
) -> io::Result<()> {
    octets.push(b'{')?;
    if let Some(moment) = moment {
        octets.extend_from_slice(b"\"time\":\"")?;
        write_stamp(octets, moment)?;
        // A stamp has a space after it.
        let _space = octets.pop();
        octets.extend_from_slice(b"\",")?;
    }
    octets.extend_from_slice(b"\"event\":\"")?;
    octets.extend_from_slice(event)?;
    octets.push(b'"')?;
    Ok(())
}

/// Adds a key, and octets as its value.
fn push_octets(line: &mut Vec<u8>, form: Form, key: &[u8], value: &[u8]) -> Result<(), AllocError>
    ensures ok { OnOk result (line.new.items
        ≡ line.old.items ++ key_text form key.now ++ value_text form value.now) }
    ensures err { OnErr result (Begins line.old.items line.new.items) }
{
    push_key(line, form, key)?;
    if form == Form::Text && is_bare(value) {
        line.extend_from_slice(value)
    } else {
        push_quoted(line, form, value)
    }
}

/// Adds a key, and a number as its value.
fn push_number(
    line: &mut Vec<u8>,
    form: Form,
    key: &[u8],
    value: u64,
    unit: &[u8],
) -> Result<(), AllocError>
    ensures ok { OnOk result (line.new.items
        ≡ line.old.items ++ key_text form key.now ++ number_text form value unit.now) }
    ensures err { OnErr result (Begins line.old.items line.new.items) }
{
    push_key(line, form, key)?;
    let mut digits = Buffer::new();
    line.extend_from_slice(digits.format(value).as_bytes())?;
    match form {
        Form::Text => line.extend_from_slice(unit),
        Form::Json => Ok(()),
    }
}

/// Adds what is before a value.
fn push_key(line: &mut Vec<u8>, form: Form, key: &[u8]) -> Result<(), AllocError>
    ensures ok { OnOk result (line.new.items ≡ line.old.items ++ key_text form key.now) }
    ensures err { OnErr result (Begins line.old.items line.new.items) }
{
    match form {
        Form::Text => {
            line.extend_from_slice(b" ")?;
            line.extend_from_slice(key)?;
            line.extend_from_slice(b"=")
        }
        Form::Json => {
            line.extend_from_slice(b",\"")?;
            line.extend_from_slice(key)?;
            line.extend_from_slice(b"\":")
        }
    }
}

/// Adds octets in quotes.
fn push_quoted(line: &mut Vec<u8>, form: Form, octets: &[u8]) -> Result<(), AllocError>
    ensures ok { OnOk result (line.new.items ≡ line.old.items ++ quoted form octets.now) }
    ensures err { OnErr result (Begins line.old.items line.new.items) }
{
    line.extend_from_slice(b"\"")?;
    push_each(line, form, octets)?;
    line.extend_from_slice(b"\"")
}

/// Adds each octet as it is in quotes.
fn push_each(line: &mut Vec<u8>, form: Form, octets: &[u8]) -> Result<(), AllocError>
    ensures ok { OnOk result (line.new.items ≡ line.old.items ++ flat_map (quoted_octet form) octets.now) }
    ensures err { OnErr result (Begins line.old.items line.new.items) }
{
    for octet in octets {
        push_octet(line, form, *octet)?;
    }
    Ok(())
}

/// Adds an octet as it is in quotes. If memory runs out, nothing is added.
fn push_octet(line: &mut Vec<u8>, form: Form, octet: u8) -> Result<(), AllocError>
    ensures ok { OnOk result (line.new.items ≡ line.old.items ++ quoted_octet form octet) }
    ensures err { OnErr result (line.new.items ≡ line.old.items) }
{
    if is_printable(octet) {
        push_shown(line, octet)
    } else {
        push_hex(line, form, octet)
    }
}

/// Adds a printable octet as it is in quotes. If memory runs out, nothing is added.
fn push_shown(line: &mut Vec<u8>, octet: u8) -> Result<(), AllocError>
    ensures ok { OnOk result (line.new.items ≡ line.old.items ++ shown_octet octet) }
    ensures err { OnErr result (line.new.items ≡ line.old.items) }
{
    if needs_backslash(octet) {
        line.extend_from_slice(&[b'\\', octet])
    } else {
        line.extend_from_slice(&[octet])
    }
}

/// Adds an octet by its two hexadecimal digits. If memory runs out, nothing is added.
fn push_hex(line: &mut Vec<u8>, form: Form, octet: u8) -> Result<(), AllocError>
    ensures ok { OnOk result (line.new.items ≡ line.old.items ++ hex_octet form octet) }
    ensures err { OnErr result (line.new.items ≡ line.old.items) }
{
    let (high, low) = (hex_digit(octet / 16), hex_digit(octet % 16));
    match form {
        Form::Text => line.extend_from_slice(&[b'\\', b'x', high, low]),
        Form::Json => line.extend_from_slice(&[b'\\', b'u', b'0', b'0', high, low]),
    }
}

/// Returns the hexadecimal digit of a value below 16.
fn hex_digit(value: u8) -> u8
    requires { value < 16 }
    ensures { result ≡ hex_digit value }
{
    if value < 10 {
        b'0' + value
    } else {
        b'a' - 10 + value
    }
}

/// Returns whether octets need no quotes in text.
fn is_bare(octets: &[u8]) -> bool
    ensures { result ≡ is_bare octets.now }
{
    !octets.is_empty() && are_bare(octets)
}

#[tactic(auto, unfolding(crate::specs::LogLine::are_bare))]
fn are_bare(octets: &[u8]) -> bool
    ensures { result ≡ are_bare octets.now }
{
    octets.iter().all(|octet| is_bare_octet(*octet))
}

fn is_bare_octet(octet: u8) -> bool
    ensures { result ≡ is_bare_octet octet }
{
    octet.is_ascii_graphic() && !needs_backslash(octet)
}

fn needs_backslash(octet: u8) -> bool
    ensures { result ≡ needs_backslash octet }
{
    octet == b'"' || octet == b'\\'
}
