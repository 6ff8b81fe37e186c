//! Times in the time zone of this machine.
use jiff::Timestamp;
use jiff::civil::DateTime;
use jiff::tz::{SystemTimeZone, TimeZone, TimeZoneDatabase};
use relay_trace::Moment;
use std::alloc::{AllocGlobal, Global};
use std::rt::{Env, Files};

/// The length of a time, in octets.
pub(crate) const TIME_LENGTH: usize = 25;

/// The time zone of this machine, from `TZ` or `/etc/localtime`; UTC if neither can be read.
#[derive(Drop)]
pub struct Zone {
    system: Option<SystemTimeZone>,
    none: TimeZoneDatabase,
}

impl Zone {
    /// Reads the time zone.
    pub fn read<R: Env + Files + AllocGlobal>(alloc: Global, rt: &R) -> Self {
        let none = TimeZoneDatabase::new(alloc);
        match SystemTimeZone::read(rt) {
            Ok(system) => Zone {
                system: Some(system),
                none,
            },
            Err(_) => Zone { system: None, none },
        }
    }

    /// Returns a time, in seconds since 1970, in the form of RFC 3339 with the zone's offset at that time:
    /// `2024-02-29T23:59:59+01:00`. Years past 9998 are shown as the last second of 9998.
    pub(crate) fn time(&self, seconds: u64) -> [u8; TIME_LENGTH] {
        let Ok(instant) = Timestamp::from_second(Moment::nearest(seconds).seconds() as i64) else {
            unreachable!("every moment is a timestamp")
        };
        let zone = self.zone();
        print(zone.to_datetime(instant), zone.to_offset(instant).seconds())
    }

    fn zone(&self) -> TimeZone<'_> {
        match &self.system {
            Some(system) => match system.time_zone(&self.none) {
                Ok(zone) => zone,
                Err(_) => TimeZone::UTC,
            },
            None => TimeZone::UTC,
        }
    }
}

/// Returns the text of a local date and time at this offset, in seconds east of UTC.
fn print(shown: DateTime, offset: i32) -> [u8; TIME_LENGTH] {
    let year = shown.year().unsigned_abs();
    let [y0, y1] = two_digits(u32::from(year / 100));
    let [y2, y3] = two_digits(u32::from(year % 100));
    let [m0, m1] = two_digits(u32::from(shown.month().unsigned_abs()));
    let [d0, d1] = two_digits(u32::from(shown.day().unsigned_abs()));
    let [h0, h1] = two_digits(u32::from(shown.hour().unsigned_abs()));
    let [n0, n1] = two_digits(u32::from(shown.minute().unsigned_abs()));
    let [s0, s1] = two_digits(u32::from(shown.second().unsigned_abs()));
    let sign = if offset < 0 { b'-' } else { b'+' };
    let minutes = offset.unsigned_abs() / 60;
    let [o0, o1] = two_digits(minutes / 60);
    let [p0, p1] = two_digits(minutes % 60);
    [
        y0, y1, y2, y3, b'-', m0, m1, b'-', d0, d1, b'T', h0, h1, b':', n0, n1, b':', s0, s1, sign,
        o0, o1, b':', p0, p1,
    ]
}

/// Returns the last two digits of a number.
fn two_digits(number: u32) -> [u8; 2] {
    [b'0' + (number / 10 % 10) as u8, b'0' + (number % 10) as u8]
}
