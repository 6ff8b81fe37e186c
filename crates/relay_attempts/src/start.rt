//! Attempts that begin.
ghost use Rattle.std.specs.Prelude.{◌≡◌, true, false, IfErr, IfOk, Some};
ghost use Rattle.relay_attempts.specs.Attempts.{Begun, RefusesToStart, RefusesToStartAtMost, Serves, Starts};
ghost use Rattle.relay_attempts.specs.Attempts.{StartsAtMost};
ghost use Rattle.relay_attempts.specs.Hops.{at_most, due_places_in, is_any};

use crate::attempts::Attempts;
use crate::hops::{due_places, has_due};
use crate::runs::{Run, is_running};
use relay_book::Message;
use relay_client::Attempt;
use relay_disk::Disk;
use relay_records::{NodeFault, Records};
use relay_routes::{Config, HostName, Table};
use relay_trace::Moment;
use std::alloc::{AllocError, Global};

/// An attempt that has begun.
#[derive(Drop)]
pub struct Started {
    /// Its number, 0 to 63.
    pub attempt: usize,
    /// The places that it is for, in order.
    pub places: Vec<u8>,
}

impl Attempts {
    /// Begins an attempt for the places of a message that are due and go to this hop, under the least free number. The
    /// first fault in this order is answered, and nothing is changed then: `Stopped`, `Unknown` where no such message
    /// is queued, `TooMany` where 64 attempts are running, `Busy` where one for this message and hop is, `NotDue` where
    /// no place is; then lack of memory.
    pub fn start<D: Disk>(
        &mut self,
        alloc: Global,
        config: &Config,
        records: &Records<D>,
        message: u64,
        hop: &HostName,
        now: Moment,
    ) -> Result<Started, NodeFault>
        ensures starts { IfOk result (Starts config.now.host config.now.routes message hop.now now
            records.now.queue self.old.runs self.new.runs) }
        ensures live { IfOk result (λ _. records.now.spool.live ≡ true) }
        ensures refused { IfErr result (RefusesToStart config.now.host config.now.routes message hop.now now
            records.now self.old.runs) }
        ensures unchanged { IfErr result (λ _. self.new ≡ self.old) }
        ensures serves { Serves config.now.host config.now.routes self.old records.now.queue
            → Serves config.now.host config.now.routes self.new records.now.queue }
        ensures rest { (self.new.stranded ≡ self.old.stranded) × (self.new.room ≡ self.old.room) }
    {
        self.start_at_most(alloc, config, records, message, hop, None, now)
    }

    /// Begins an attempt as [`Attempts::start`], for the first `most` of those places: so one attempt of a message
    /// with many recipients can't meet a next hop's limit of refused commands. Where `most` is 0, it is `NotDue`.
    #[allow(too_many_arguments)]
    pub fn start_some<D: Disk>(
        &mut self,
        alloc: Global,
        config: &Config,
        records: &Records<D>,
        message: u64,
        hop: &HostName,
        most: usize,
        now: Moment,
    ) -> Result<Started, NodeFault>
        ensures starts { IfOk result (StartsAtMost config.now.host config.now.routes message hop.now (Some most) now
            records.now.queue self.old.runs self.new.runs) }
        ensures live { IfOk result (λ _. records.now.spool.live ≡ true) }
        ensures refused { IfErr result (RefusesToStartAtMost config.now.host config.now.routes message hop.now
            (Some most) now records.now self.old.runs) }
        ensures unchanged { IfErr result (λ _. self.new ≡ self.old) }
        ensures serves { Serves config.now.host config.now.routes self.old records.now.queue
            → Serves config.now.host config.now.routes self.new records.now.queue }
        ensures rest { (self.new.stranded ≡ self.old.stranded) × (self.new.room ≡ self.old.room) }
    {
        self.start_at_most(alloc, config, records, message, hop, Some(most), now)
    }

    /// Begins an attempt for the first of the places that are due and go to this hop, all if no most is said.
    fn start_at_most<D: Disk>(
        &mut self,
        alloc: Global,
        config: &Config,
        records: &Records<D>,
        message: u64,
        hop: &HostName,
        most: Option<usize>,
        now: Moment,
    ) -> Result<Started, NodeFault>
        ensures starts { IfOk result (StartsAtMost config.now.host config.now.routes message hop.now most now
            records.now.queue self.old.runs self.new.runs) }
        ensures live { IfOk result (λ _. records.now.spool.live ≡ true) }
        ensures refused { IfErr result (RefusesToStartAtMost config.now.host config.now.routes message hop.now most
            now records.now self.old.runs) }
        ensures unchanged { IfErr result (λ _. self.new ≡ self.old) }
        ensures serves { Serves config.now.host config.now.routes self.old records.now.queue
            → Serves config.now.host config.now.routes self.new records.now.queue }
        ensures rest { (self.new.stranded ≡ self.old.stranded) × (self.new.room ≡ self.old.room) }
    {
        if !records.is_live() {
            return Err(NodeFault::Stopped);
        }
        let Some(queued) = records.message(message) else {
            return Err(NodeFault::Unknown);
        };
        let Some(attempt) = self.runs.free() else {
            return Err(NodeFault::TooMany);
        };
        if is_running(&self.runs, message, hop) {
            return Err(NodeFault::Busy);
        }
        if !has_first_due(&config.routes, queued, hop, most, now) {
            return Err(NodeFault::NotDue);
        }
        let Ok(places) = first_due_places(alloc, &config.routes, queued, hop, most, now) else {
            return Err(NodeFault::NoMemory);
        };
        let Ok(begun) = begun(alloc, &config.host, message, hop, places.as_slice()) else {
            return Err(NodeFault::NoMemory);
        };
        self.runs.put(attempt, begun);
        Ok(Started { attempt, places })
    }
}

/// Returns whether such a place is due for which an attempt may begin.
fn has_first_due(
    table: &Table,
    message: &Message,
    hop: &HostName,
    most: Option<usize>,
    now: Moment,
) -> bool
    ensures { result ≡ is_any (at_most most (due_places_in table.now hop.now now message.now)) }
{
    match most {
        Some(0) => false,
        _ => has_due(table, message, hop, now),
    }
}

/// Returns the first of the places of a message that are due and go to this hop, in order; all if no most is said.
/// Fails if memory runs out.
fn first_due_places(
    alloc: Global,
    table: &Table,
    message: &Message,
    hop: &HostName,
    most: Option<usize>,
    now: Moment,
) -> Result<Vec<u8>, AllocError>
    ensures { IfOk result (λ places. places.items
        ≡ at_most most (due_places_in table.now hop.now now message.now)) }
{
    let mut places = due_places(alloc, table, message, hop, now)?;
    if let Some(most) = most {
        places.truncate(most);
    }
    Ok(places)
}

/// Returns an attempt of this host that begins. Fails if memory runs out.
fn begun(
    alloc: Global,
    host: &HostName,
    message: u64,
    hop: &HostName,
    places: &[u8],
) -> Result<Run, AllocError>
    ensures { IfOk result (λ run. Begun host.now message hop.now places.now run) }
{
    Ok(Run {
        message,
        hop: hop.copy(alloc)?,
        places: places.to_vec(alloc)?,
        client: Attempt::begin(alloc, host.as_slice(), places.to_vec(alloc)?)?,
    })
}
