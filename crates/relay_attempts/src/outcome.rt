//! An outcome with the report that is owed.
ghost use Rattle.std.specs.Prelude.{◌≡◌, ◌≤◌, ◌<◌, ◌^◌, List, Err, IfErr, IfOk, IsTrue};
ghost use Rattle.relay_book.specs.declared.change.Change.{Change};
ghost use Rattle.relay_envelope.specs.HostName.{IsHostName};
ghost use Rattle.relay_attempts.specs.Staging.{GrowsRowBy, RefusesToStageOutcome, StagesOutcome};
ghost use Rattle.relay_records.specs.Records.{Keeps};
ghost use Rattle.relay_records.specs.Staged.{Awaits};
ghost use Rattle.relay_attempts.specs.AddedOutcome.{AddsOutcome, CutsOutcome, GrowsBy, IsReported, MayCome};
ghost use Rattle.relay_attempts.specs.AddedOutcome.{RefusesOutcome, reported_as};
ghost use Rattle.relay_report.specs.Report.{reporter};

use relay_book::{Change, Outcome, encode_change};
use relay_disk::Disk;
use relay_octets::Octets;
use relay_records::list_laws::awaited_are_numbered;
use relay_records::{NodeFault, Records, Staged};
use relay_report::{Report, report_if_due};
use relay_routes::ReportForm;
use relay_trace::LAST_SECOND;
use std::alloc::{AllocError, Global};

/// Adds an outcome of a queued message, with the report that is owed by this host in this form, in one change; what its
/// report says doesn't count. The answer is its number, and `used` is how many octets of its piece the call had used.
/// All growths come before the append.
///
/// `NoMemory` changes nothing, and so does `Full`, where changes have no numbers any more or the spool would pass 2^40
/// octets. At `Stopped` the device failed: a stop leaves the changes as they were or with this one, and it is noted.
pub(crate) fn add_outcome<D: Disk>(
    alloc: Global,
    host: &[u8],
    form: ReportForm,
    records: &mut Records<D>,
    outcome: Outcome,
    used: usize,
) -> Result<u64, NodeFault>
    requires live { IsTrue records.old.spool.live }
    requires host { IsHostName host.now }
    requires comes { MayCome records.old.queue outcome }
    ensures ok { (changes : List Change) → Keeps D.honest D.words records.old changes
        → IfOk result (AddsOutcome D.honest D.words (reporter host.now form) changes outcome used records.new) }
    ensures cut { (changes : List Change) → Keeps D.honest D.words records.old changes
        → result ≡ Err NodeFault.Stopped
        → CutsOutcome D.honest D.words (reporter host.now form) changes outcome used records.new }
    ensures grows { IfOk result (GrowsBy D.words (reporter host.now form) outcome records.old records.new) }
    ensures full { 2 ^ 62 < records.old.queue.next → result ≡ Err NodeFault.Full }
    ensures refused { IfErr result (RefusesOutcome D.words (reporter host.now form) outcome records.old records.new) }
{
    if !records.has_number() {
        return Err(NodeFault::Full);
    }
    let change = reported(alloc, host, form, records, outcome)?;
    let octets = Octets::new(encode_change(alloc, &change)?);
    records.add(alloc, change, octets, used)
}

/// Stages an outcome of a queued message after the changes of a row, with the report that is owed by this host in this
/// form, in one change; what its report says doesn't count. The answer is its number, and `used` is how many octets of
/// its piece the call had used. No device is called.
///
/// `NoMemory` leaves records and row as they were, and so does `Full`, where changes have no numbers any more or the
/// spool would pass 2^40 octets with the row.
pub(crate) fn stage_outcome<D: Disk>(
    alloc: Global,
    host: &[u8],
    form: ReportForm,
    records: &mut Records<D>,
    row: &mut Staged,
    outcome: Outcome,
    used: usize,
) -> Result<u64, NodeFault>
    requires host { IsHostName host.now }
    requires comes { MayCome records.old.queue outcome }
    ensures stages { (changes pending : List Change) → Awaits D.honest D.words records.old changes pending row.old
        → IfOk result (StagesOutcome D.honest D.words (reporter host.now form) changes pending row.old outcome used
        records.new row.new) }
    ensures grows { IfOk result (GrowsRowBy (reporter host.now form) outcome used records.old records.new row.old
        row.new) }
    ensures refused { IfErr result (RefusesToStageOutcome (reporter host.now form) outcome records.old records.new
        row.old row.new) }
{
    awaited_are_numbered::<D>();
    if !records.has_number() {
        return Err(NodeFault::Full);
    }
    let change = reported(alloc, host, form, records, outcome)?;
    let octets = Octets::new(encode_change(alloc, &change)?);
    records.stage(alloc, row, change, octets, used)
}

/// Returns the outcome as a change, with the report that is owed. Fails if memory runs out.
fn reported<D: Disk>(
    alloc: Global,
    host: &[u8],
    form: ReportForm,
    records: &Records<D>,
    outcome: Outcome,
) -> Result<Change, AllocError>
    requires number { records.now.queue.next ≤ 2 ^ 62 }
    requires host { IsHostName host.now }
    requires comes { MayCome records.now.queue outcome }
    ensures { IfOk result (IsReported (reporter host.now form) records.now.queue outcome) }
{
    let Some(message) = records.message(outcome.message) else {
        unreachable!()
    };
    records.is_queue();
    let is_moment = outcome.at.seconds() <= LAST_SECOND;
    prove!(is_moment);
    let report = report_if_due(
        alloc,
        &Report {
            form,
            host,
            number: records.next_number(),
            message,
            hop: outcome.hop.as_slice(),
            rulings: outcome.rulings.as_slice(),
            at: outcome.at,
        },
    )?;
    Ok(with_report(outcome, report))
}

/// Returns the outcome with another report.
fn with_report(mut outcome: Outcome, report: Octets) -> Change
    ensures { result ≡ reported_as outcome report }
{
    outcome.report = report;
    Change::Outcome(outcome)
}
