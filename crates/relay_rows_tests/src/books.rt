//! The rows of books. A row applies a change to a book, asks that book, reads a record, takes a record or a snapshot in
//! hand and changes an octet of it, or writes, reads or cuts a snapshot: its answer is after it. Of the rows of
//! reports, one shows the report of an outcome and whether it is taken apart again, or the boundary of three parts: its
//! answer stands alone.

mod hex;
mod octets;
pub mod report;
mod snapshot;
pub mod subject;
