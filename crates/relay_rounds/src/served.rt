//! A link before and after its round.
ghost use Rattle.std.specs.Prelude.{◌≡◌, []};
ghost use Rattle.relay_rounds.specs.Round.{IsLaneOf, IsWith};

use crate::lane::Lane;
use relay_hub::{Opening, Pass, Receipt};
use relay_links::LinkFault;

/// A client's connection, before it is served.
pub struct Link<R, W> {
    /// The IPv4 address of its client.
    pub peer: [u8; 4],
    pub reader: R,
    pub writer: W,
}

/// A client's connection, after it was served.
pub struct Served<R, W> {
    /// The IPv4 address of its client.
    pub peer: [u8; 4],
    pub reader: R,
    pub writer: W,
    /// The receipts of the mail that it queued, in order.
    pub receipts: Vec<Receipt>,
    /// The result of the link; `None` if no thread was available, and then nothing was read or written.
    pub ended: Option<Result<(), LinkFault>>,
}

// Written out, so that the proof of a caller that drops one stops at this function.
impl<R: Drop, W: Drop> Drop for Link<R, W> {
    fn drop(self) {
        let Link {
            peer: _,
            reader: _reader,
            writer: _writer,
        } = self;
    }
}

impl<R: Drop, W: Drop> Drop for Served<R, W> {
    fn drop(self) {
        let Served {
            peer: _,
            reader: _reader,
            writer: _writer,
            receipts: _receipts,
            ended: _,
        } = self;
    }
}

impl<R, W> Link<R, W> {
    /// Joins the link with a pass into a lane that hasn't begun.
    pub(crate) fn into_lane<J: Opening>(self, pass: Pass<J>) -> Lane<J, R, W>
        requires { pass ≡ [] }
        ensures { IsLaneOf self result }
    {
        let Link {
            peer,
            reader,
            writer,
        } = self;
        Lane {
            pass,
            peer,
            reader,
            writer,
            ended: None,
        }
    }
}

impl<R, W> Served<R, W> {
    /// Returns the same result with these receipts.
    pub(crate) fn with(self, receipts: Vec<Receipt>) -> Served<R, W>
        ensures { IsWith receipts.items self result }
    {
        let mut served = self;
        served.receipts = receipts;
        served
    }
}
