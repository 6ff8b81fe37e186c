ghost use Rattle.std.specs.Prelude.{◌≡◌, ◌<◌, ◌≤ℤ◌, pos, IfOk, IfErr};
ghost use Rattle.std.specs.Int.{IsInRange};
ghost use Rattle.jiff.specs.Words.{monday_zero};
ghost use Rattle.relay_trace.specs.DateTime.{IsShown, IsDateText, date_time_text, day_name, month_name, two_digits};

use crate::moment::{Moment, TraceFault};
use jiff::Timestamp;
use jiff::civil::{DateTime, Weekday};
use jiff::tz::Offset;
use std::alloc::Global;

/// The length of a date text, in octets.
const DATE_LEN: usize = 31;

/// Returns the date and time in UTC (RFC 5322, section 3.3), as `Thu, 01 Jan 1970 00:00:00 +0000`. Fails if memory
/// runs out.
pub fn date_text(alloc: Global, moment: Moment) -> Result<Vec<u8>, TraceFault>
    ensures text { IfOk result (λ text. IsDateText moment text.items) }
    ensures fault { IfErr result (λ fault. fault ≡ TraceFault.NoMemory) }
{
    Ok(Vec::from_slice(alloc, &date_octets(moment))?)
}

/// Returns the date text of a time, without an allocation.
pub(crate) fn date_octets(moment: Moment) -> [u8; DATE_LEN]
    ensures { IsDateText moment result }
{
    print(shown_at(moment))
}

/// Returns what calendar and clock show in UTC.
fn shown_at(moment: Moment) -> DateTime
    ensures { IsShown moment result }
{
    let Ok(instant) = Timestamp::from_second(moment.seconds() as i64) else {
        unreachable!("every moment is a timestamp")
    };
    Offset::UTC.to_datetime(instant)
}

/// Prints a date and time, from the year 0 on.
fn print(shown: DateTime) -> [u8; DATE_LEN]
    requires { pos 0 ≤ℤ shown.date.year }
    ensures { result ≡ date_time_text shown }
{
    let [w0, w1, w2] = *day_name(shown.weekday());
    let [d0, d1] = two_digits(shown.day() as u8);
    let [m0, m1, m2] = *month_name(shown.month() as u8);
    let year = shown.year() as u16;
    let [y0, y1] = two_digits((year / 100) as u8);
    let [y2, y3] = two_digits((year % 100) as u8);
    let [h0, h1] = two_digits(shown.hour() as u8);
    let [n0, n1] = two_digits(shown.minute() as u8);
    let [s0, s1] = two_digits(shown.second() as u8);
    [
        w0, w1, w2, b',', b' ', d0, d1, b' ', m0, m1, m2, b' ', y0, y1, y2, y3, b' ', h0, h1, b':',
        n0, n1, b':', s0, s1, b' ', b'+', b'0', b'0', b'0', b'0',
    ]
}

/// Returns the name of a day of the week (RFC 5322, `day-name`).
fn day_name(weekday: Weekday) -> &'static [u8; 3]
    ensures { result.now ≡ day_name (monday_zero weekday) }
{
    match weekday {
        Weekday::Monday => b"Mon",
        Weekday::Tuesday => b"Tue",
        Weekday::Wednesday => b"Wed",
        Weekday::Thursday => b"Thu",
        Weekday::Friday => b"Fri",
        Weekday::Saturday => b"Sat",
        Weekday::Sunday => b"Sun",
    }
}

/// Returns the name of a month by its number, from 1.
fn month_name(month: u8) -> &'static [u8; 3]
    requires { IsInRange 1 12 month }
    ensures { result.now ≡ month_name month }
{
    const NAMES: [&[u8; 3]; 12] = [
        b"Jan", b"Feb", b"Mar", b"Apr", b"May", b"Jun", b"Jul", b"Aug", b"Sep", b"Oct", b"Nov",
        b"Dec",
    ];
    NAMES[month as usize - 1]
}

/// Prints a number in two digits.
fn two_digits(number: u8) -> [u8; 2]
    requires { number < 100 }
    ensures { result ≡ two_digits number }
{
    [b'0' + number / 10, b'0' + number % 10]
}
