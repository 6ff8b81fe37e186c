//! Reports: the text of a delivery status notification (RFC 3461, section 6; RFC 3464).
#![tactic(auto)]

mod boundary;
mod due;
mod field;
mod header;
pub mod laws;
mod marks;
mod numbers;
mod part_text;
mod parts;
mod report;
mod sentences;
mod status_code;
mod status_fields;
mod subject;

pub use boundary::boundary_for;
pub use due::{due_report, is_due};
pub use parts::{Parts, split_report};
pub use report::{Report, report_content, report_if_due};
