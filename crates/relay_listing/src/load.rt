//! The queue by next hop.
ghost use Rattle.std.specs.Prelude.{◌≡◌, OnOk};
ghost use Rattle.relay_listing.specs.Load.{hop_of, load_of, load_with, loads_in, loads_with, with_recipient};
ghost use Rattle.relay_listing.specs.Row.{said_by};

use crate::row::Row;
use indexmap::IndexMap;
use std::alloc::{AllocError, Global};

/// What is queued for one next hop.
#[derive(Clone, Copy)]
pub struct Load {
    /// How many messages have a recipient there.
    pub messages: u64,
    pub recipients: u64,
    /// The octets of those messages.
    pub octets: u64,
    /// When the oldest of them was accepted, in seconds since 1970.
    pub oldest: u64,
    /// The earliest time at which a recipient is due, in seconds since 1970.
    pub due: u64,
    /// The number of the message that was counted last.
    pub last: u64,
}

/// The queue by the names of the next hops. The empty name is for recipients without one.
pub type Loads = IndexMap<Vec<u8>, Load>;

/// Counts a recipient for its next hop. The recipients of one message are counted one after another.
pub fn count_row(alloc: Global, loads: &mut Loads, row: &Row<'_>) -> Result<(), AllocError>
    ensures { OnOk result (loads_in loads.new.entries ≡ loads_with (loads_in loads.old.entries) (said_by row.now)) }
{
    let name = hop_of(row);
    match loads.get_mut(name) {
        Some(load) => {
            *load = load.with(row);
            Ok(())
        }
        None => {
            loads.insert(Vec::from_slice(alloc, name)?, Load::of(row))?;
            Ok(())
        }
    }
}

/// Returns the name of a recipient's next hop, or the empty one.
fn hop_of<'a>(row: &Row<'a>) -> &'a [u8]
    ensures { result.now ≡ hop_of (said_by row.now) }
{
    match row.hop {
        Some(name) => name,
        None => b"",
    }
}

impl Load {
    /// Returns the load of one recipient.
    fn of(row: &Row<'_>) -> Self
        ensures { result ≡ load_of (said_by row.now) }
    {
        Load {
            messages: 1,
            recipients: 1,
            octets: row.size as u64,
            oldest: row.accepted.seconds(),
            due: row.due,
            last: row.number,
        }
    }

    /// Returns the load with one more recipient, whose message is the last one counted or a new one.
    fn with(self, row: &Row<'_>) -> Self
        ensures { result ≡ load_with self (said_by row.now) }
    {
        let load = self.with_recipient(row);
        if self.last == row.number {
            return load;
        }
        Load {
            messages: self.messages.saturating_add(1),
            octets: self.octets.saturating_add(row.size as u64),
            recipients: load.recipients,
            oldest: load.oldest,
            due: load.due,
            last: load.last,
        }
    }

    /// Returns the load with one more recipient of a message that is counted.
    fn with_recipient(self, row: &Row<'_>) -> Self
        ensures { result ≡ with_recipient self (said_by row.now) }
    {
        Load {
            messages: self.messages,
            recipients: self.recipients.saturating_add(1),
            octets: self.octets,
            oldest: self.oldest.min(row.accepted.seconds()),
            due: self.due.min(row.due),
            last: row.number,
        }
    }
}
