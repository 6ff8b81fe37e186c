//! Changes of the queue, the records that they are written as, and the queue in memory (the book).
#![tactic(auto)]

mod book;
mod change;
pub mod custody_laws;
mod decode;
mod due_report;
mod encode;
mod fate;
mod fault;
mod field;
mod judge;
mod length;
mod limits;
mod message;
mod outline;
pub mod outline_laws;
mod question;
mod ready;
pub mod record_laws;
mod retry;
mod version;

pub use book::{Book, FirstOutline};
pub use change::{Accept, Change, Outcome, Ruling, Rulings, Verdict, Withdrawal};
pub use decode::{decode_change, decode_record};
pub use due_report::DueReport;
pub use encode::encode_change;
pub use fate::{Fate, PlaceStep, Way, fate_of};
pub use fault::BookFault;
pub use limits::{
    FIRST_WAIT, LAST_NUMBER, LATENESS, LONGEST_WAIT, PATIENCE, REFUSAL_LIMIT, REPORT_LIMIT,
    STORED_TEXT_LIMIT,
};
pub use message::{Message, Place, Places};
pub use outline::length_in;
pub use question::{PlaceQuestion, Question};
pub use ready::Ready;
pub use version::Version;
