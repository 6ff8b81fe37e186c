//! Times, dates, time stamp lines and header sections (RFC 5321, section 4.4; RFC 5322, sections 2.2 and 3.3).
#![tactic(auto)]

mod clock;
mod date;
mod header;
pub mod laws;
mod moment;
mod received;

pub use clock::clock_moment;
pub use date::date_text;
pub use header::{header_end, received_count};
pub use moment::{LAST_SECOND, Moment, TraceFault};
pub use received::{Protocol, TimeStamp, received_line};
