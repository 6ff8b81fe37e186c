//! The work of a message.
ghost use Rattle.std.specs.Prelude.{◌≡◌, ◌≤◌, ◌++◌, [], drop, length, IfOk, OnOk};
ghost use Rattle.std.specs.List.{flat_map, list_any};
ghost use Rattle.std.specs.Option.{option_copied, option_map_or};
ghost use Rattle.relay_attempts.specs.Gathering.{at_number};
ghost use Rattle.relay_attempts.specs.Hops.{due_hop, due_hops};
ghost use Rattle.relay_attempts.specs.Work.{is_try_of, message_works, no_route, one_try, tries};

use crate::hops::{has_stranded, hop_of_place, is_due};
use crate::runs::{Run, is_running};
use relay_book::{Message, Place};
use relay_disk::Disk;
use relay_envelope::Recipients;
use relay_records::Records;
use relay_routes::{HostName, Table};
use relay_slots::Slots;
use relay_trace::Moment;
use std::alloc::{AllocError, Global};
use std::collections::BTreeSet;

/// Work for a message.
#[derive(Drop)]
pub enum Work {
    /// A held place of the message of this number has no hop.
    NoRoute(u64),
    /// A place of the message of this number is due that goes to the hop of this name, and no attempt for both is
    /// running.
    Try(u64, HostName),
}

/// Finds the work of messages.
#[derive(Clone, Copy)]
pub(crate) struct Finder<'a> {
    pub(crate) alloc: Global,
    /// Where mail goes.
    pub(crate) table: &'a Table,
    /// The running attempts.
    pub(crate) runs: &'a Slots<Run>,
    /// The time at which places are due.
    pub(crate) at: Moment,
}

impl<'a> Finder<'a> {
    /// Returns the work of the messages of these numbers.
    pub(crate) fn works<D: Disk>(
        &self,
        records: &Records<D>,
        numbers: &BTreeSet<u64, Global>,
    ) -> Result<Vec<Work>, AllocError>
        ensures { IfOk result (λ works. works.items
            ≡ flat_map (at_number (message_works self.now.table.now self.now.runs.now self.now.at)
            records.now.queue.messages) numbers.now.keys) }
    {
        let mut works = Vec::new(self.alloc);
        for number in numbers.iter() {
            if let Some(message) = records.message(*number) {
                self.push_works(&mut works, *number, message)?;
            }
        }
        Ok(works)
    }

    /// Adds the work of a message.
    pub(crate) fn push_works(
        &self,
        works: &mut Vec<Work>,
        number: u64,
        message: &Message,
    ) -> Result<(), AllocError>
        ensures { OnOk result (works.new.items ≡ works.old.items
            ++ message_works self.now.table.now self.now.runs.now self.now.at number message.now) }
    {
        self.push_no_route(works, number, message)?;
        self.push_tries(works, number, message)
    }

    /// Adds that a place has no hop, where one has none.
    fn push_no_route(
        &self,
        works: &mut Vec<Work>,
        number: u64,
        message: &Message,
    ) -> Result<(), AllocError>
        ensures { OnOk result (works.new.items
            ≡ works.old.items ++ no_route self.now.table.now number message.now) }
    {
        if has_stranded(self.table, message) {
            works.push(Work::NoRoute(number))?;
        }
        Ok(())
    }

    /// Adds a try of each hop that a place is due for, in the order of their first places.
    fn push_tries(
        &self,
        works: &mut Vec<Work>,
        number: u64,
        message: &Message,
    ) -> Result<(), AllocError>
        ensures { OnOk result (works.new.items ≡ works.old.items
            ++ tries self.now.runs.now number
            (due_hops self.now.table.now self.now.at message.now.accept.envelope.recipients
            message.now.places)) }
    {
        let start = works.len();
        let recipients = &message.accept.envelope.recipients;
        for (index, place) in message.places.as_slice().iter().enumerate() {
            self.push_try(
                works,
                start,
                number,
                self.due_hop(recipients, index, *place),
            )?;
        }
        Ok(())
    }

    /// Returns the hop of a place that is due.
    fn due_hop(&self, recipients: &Recipients, index: usize, place: Place) -> Option<&'a HostName>
        ensures { option_copied result
            ≡ due_hop self.now.table.now self.now.at recipients.now index place }
    {
        if is_due(place, self.at) {
            hop_of_place(self.table, recipients, index)
        } else {
            None
        }
    }

    /// Adds a try of a hop that is there, unless an attempt is running for it, or one is after the first works.
    fn push_try(
        &self,
        works: &mut Vec<Work>,
        first: usize,
        number: u64,
        hop: Option<&HostName>,
    ) -> Result<(), AllocError>
        requires { first ≤ length works.old.items }
        ensures { OnOk result (works.new.items ≡ works.old.items
            ++ option_map_or (one_try self.now.runs.now number (drop first works.old.items))
            (option_copied hop.entry) []) }
    {
        let Some(hop) = hop else {
            return Ok(());
        };
        if !is_running(self.runs, number, hop) && !has_try(&works.as_slice()[first..], hop) {
            works.push(Work::Try(number, hop.copy(self.alloc)?))?;
        }
        Ok(())
    }
}

/// Returns whether a hop is tried.
fn has_try(works: &[Work], hop: &HostName) -> bool
    ensures { result ≡ list_any (is_try_of hop.now) works.now }
{
    works.iter().any(|work| is_try_of(work, hop))
}

/// Returns whether this is a try of a hop.
fn is_try_of(work: &Work, hop: &HostName) -> bool
    ensures { result ≡ is_try_of hop.now work.now }
{
    match work {
        Work::NoRoute(_) => false,
        Work::Try(_, name) => name.as_slice() == hop.as_slice(),
    }
}
