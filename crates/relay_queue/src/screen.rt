ghost use Rattle.std.specs.Prelude.{◌≡◌, ℕ, List, ◌++◌, ◌∷◌, ◌-◌, ◌<◌, ◌^◌, [], length, decimal, IfOk, OnOk, true};
ghost use Rattle.std.specs.List.{list_all};
ghost use Rattle.relay_lines.specs.Word.{is_printable};
ghost use Rattle.relay_listing.specs.Amounts.{amount_text, size_text, span_text, tenth_text};
ghost use Rattle.relay_queue.specs.Screen.{AreSafe, IsShownText, escape, hex_digit, padding, shown, shown_last};
ghost use Rattle.relay_queue.specs.Screen.{shown_lines, shown_octet};

use itoa::Buffer;
use relay_lines::word::is_printable;
use relay_listing::Amount;
use relay_octets::find_crlf;
use std::alloc::{AllocError, Global};
use std::marker::Model;

/// Text for a terminal: printable ASCII and line feeds only. Printable octets of mail are shown as they are, all others
/// as `\xHH`.
#[derive(Drop)]
pub struct Screen {
    text: Vec<u8>,
}

impl Model for Screen {
    ghost use Rattle.std.specs.Prelude.{List, ℕ};
    ghost use Rattle.relay_queue.specs.Screen.{AreSafe};

    ghost Value = { List ℕ };

    ghost view = { λ screen. screen.text.items };

    ghost invariant = { λ screen. AreSafe screen.text.items };
}

impl Screen {
    /// Returns an empty text. Allocates nothing.
    pub fn new(alloc: Global) -> Self
        ensures { result ≡ [] }
    {
        Screen {
            text: Vec::new(alloc),
        }
    }

    /// Returns the text.
    pub fn as_slice(&self) -> &[u8]
        ensures value { result.now ≡ self.now }
        ensures safe { AreSafe self.now }
    {
        self.text.as_slice()
    }

    /// Returns the text as a `Vec`. Allocates nothing.
    pub(crate) fn into_vec(self) -> Vec<u8>
        ensures value { result.items ≡ self }
        ensures safe { AreSafe result.items }
    {
        let Screen { text } = self;
        text
    }

    /// Clears the text, and keeps its memory.
    pub fn clear(&mut self)
        ensures { self.new ≡ [] }
    {
        self.text.clear();
    }

    /// Adds octets, escaping those that aren't printable.
    pub fn push(&mut self, octets: &[u8]) -> Result<(), AllocError>
        ensures { OnOk result (self.new ≡ self.old ++ shown octets.now) }
    {
        for octet in octets {
            self.push_octet(*octet)?;
        }
        Ok(())
    }

    /// Adds an octet, escaped if it isn't printable.
    fn push_octet(&mut self, octet: u8) -> Result<(), AllocError>
        ensures { OnOk result (self.new ≡ self.old ++ shown_octet octet) }
    {
        if is_printable(octet) {
            self.text.push(octet)?;
            Ok(())
        } else {
            self.text.extend_from_slice(&escape(octet))
        }
    }

    /// Adds a text of lines: each CR LF ends a line, and all other octets are escaped unless printable.
    pub fn push_text(&mut self, text: &[u8]) -> Result<(), AllocError>
        ensures { OnOk result ((added : List ℕ) × (self.new ≡ self.old ++ added) × IsShownText text.now added) }
    {
        let mut rest = text;
        while let Some(place) = find_crlf(rest) {
            let line = &rest[..place];
            rest = &rest[place + 2..];
            self.push(line)?;
            self.end_line()?;
        }
        self.push_last(rest)
    }

    /// Adds what follows the last CR LF of a text, if anything.
    fn push_last(&mut self, rest: &[u8]) -> Result<(), AllocError>
        ensures { OnOk result (self.new ≡ self.old ++ shown_last rest.now) }
    {
        if rest.is_empty() {
            return Ok(());
        }
        self.push(rest)?;
        self.end_line()
    }

    /// Adds lines, each of which ends with LF: other octets are escaped unless printable.
    pub(crate) fn push_lines(&mut self, lines: &[u8]) -> Result<(), AllocError>
        ensures { OnOk result (self.new ≡ self.old ++ shown_lines lines.now) }
    {
        for octet in lines {
            if *octet == b'\n' {
                self.end_line()?;
            } else {
                self.push_octet(*octet)?;
            }
        }
        Ok(())
    }

    /// Adds a span of time, in whole seconds, minutes, hours or days.
    pub(crate) fn push_span(&mut self, seconds: u64) -> Result<(), AllocError>
        ensures { OnOk result (self.new ≡ self.old ++ span_text seconds) }
    {
        self.push_amount(Amount::of_span(seconds))
    }

    /// Adds a size, in octets, KiB, MiB or GiB.
    pub(crate) fn push_size(&mut self, octets: u64) -> Result<(), AllocError>
        ensures { OnOk result (self.new ≡ self.old ++ size_text octets) }
    {
        self.push_amount(Amount::of_size(octets))
    }

    fn push_amount(&mut self, amount: Amount) -> Result<(), AllocError>
        requires unit { list_all is_printable amount.unit.now ≡ true }
        ensures { OnOk result (self.new ≡ self.old ++ amount_text amount) }
    {
        self.push_number(amount.whole)?;
        self.push_tenth(amount.tenth)?;
        self.push(amount.unit)
    }

    /// Adds the tenths of an amount, if it has any.
    fn push_tenth(&mut self, tenth: Option<u64>) -> Result<(), AllocError>
        ensures { OnOk result (self.new ≡ self.old ++ tenth_text tenth) }
    {
        match tenth {
            Some(tenth) => {
                self.push(b".")?;
                self.push_number(tenth)
            }
            None => Ok(()),
        }
    }

    /// Adds a number in decimal.
    pub fn push_number(&mut self, number: u64) -> Result<(), AllocError>
        ensures { OnOk result (self.new ≡ self.old ++ decimal number) }
    {
        self.text
            .extend_from_slice(Buffer::new().format(number).as_bytes())
    }

    /// Adds spaces.
    pub fn push_spaces(&mut self, count: usize) -> Result<(), AllocError>
        ensures { OnOk result (self.new ≡ self.old ++ padding count) }
    {
        for _ in 0..count {
            self.text.push(b' ')?;
        }
        Ok(())
    }

    /// Ends a line.
    pub fn end_line(&mut self) -> Result<(), AllocError>
        ensures { OnOk result (self.new ≡ self.old ++ 10 ∷ []) }
    {
        self.text.push(b'\n')?;
        Ok(())
    }
}

/// Returns the four octets that escape an octet.
fn escape(octet: u8) -> [u8; 4]
    ensures { result ≡ escape octet }
{
    [b'\\', b'x', hex_digit(octet / 16), hex_digit(octet % 16)]
}

/// Returns a hexadecimal digit.
fn hex_digit(digit: u8) -> u8
    requires { digit < 16 }
    ensures { result ≡ hex_digit digit }
{
    if digit < 10 {
        b'0' + digit
    } else {
        b'a' - 10 + digit
    }
}
