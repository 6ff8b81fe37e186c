//! Numbers of a request: decimal, without leading zeros.
ghost use Rattle.std.specs.Prelude.{◌≡◌, ◌++◌, ◌<◌, ◌↔◌, IsTrue, MatchOption, OnOk, decimal, slice_index};
ghost use Rattle.relay_control.specs.Number.{HasNoNumber, HasNoSeconds, IsNumber, IsSeconds};

use itoa::Buffer;
use std::alloc::AllocError;
use std::str;

/// The number 0.
const ZERO: &[u8] = b"0";

/// Returns the number of 64 bits that a text writes.
pub(crate) fn read_number(text: &[u8]) -> Option<u64>
    ensures { MatchOption result (HasNoNumber text.now) (IsNumber text.now) }
{
    if text == ZERO {
        Some(0)
    } else if begins_above_zero(text) {
        number_of(text)
    } else {
        None
    }
}

/// Returns the seconds that a text writes, a number of 16 bits.
pub(crate) fn read_seconds(text: &[u8]) -> Option<u16>
    ensures { MatchOption result (HasNoSeconds text.now) (IsSeconds text.now) }
{
    match read_number(text) {
        None => None,
        Some(number) => {
            if number <= 65_535 {
                Some(number as u16)
            } else {
                None
            }
        }
    }
}

/// Returns the number of 64 bits that a text writes which begins neither with a sign nor with a zero.
fn number_of(text: &[u8]) -> Option<u64>
    requires { 48 < slice_index text.now 0 }
    ensures { MatchOption result (HasNoNumber text.now) (IsNumber text.now) }
{
    match str::from_utf8(text) {
        Ok(digits) => digits.parse().ok(),
        Err(_) => None,
    }
}

/// Returns whether a text begins with an octet above the digit 0: with a digit from 1, or with what no number has.
fn begins_above_zero(text: &[u8]) -> bool
    ensures { IsTrue result ↔ 48 < slice_index text.now 0 }
{
    match text {
        [first, ..] => b'0' < *first,
        [] => false,
    }
}

/// Adds a number in decimal. Fails if memory runs out.
pub(crate) fn push_number(text: &mut Vec<u8>, number: u64) -> Result<(), AllocError>
    ensures { OnOk result (text.new.items ≡ text.old.items ++ decimal number) }
{
    text.extend_from_slice(Buffer::new().format(number).as_bytes())
}
