//! The timestamp in front of a line.
use jiff::Timestamp;
use relay_trace::Moment;
use std::io::{self, Write};

/// Writes a timestamp as RFC 3339 does, in UTC and with a space after it: `2024-02-29T23:59:59Z `.
pub fn write_stamp(line: &mut Vec<u8>, moment: Moment) -> io::Result<()> {
    let Ok(instant) = Timestamp::from_second(moment.seconds() as i64) else {
        unreachable!("every moment is a timestamp")
    };
    write!(line, "{instant} ")
}
