//! Laws of records and snapshots, and of the bodies of a spool.
ghost use Rattle.relay_book.specs.Record.{EncodingIsOne};
ghost use Rattle.relay_book.specs.Snapshot.{SnapshotIsOne};
ghost use Rattle.relay_book.specs.StandsFor.{BodiesLeaveOne, EncodingsStand, FoundIsQueued, ListIsQueue};
ghost use Rattle.relay_book.specs.StandsFor.{NoneStandForNone, OneMoreStands, QueueIsRead, RecordIsShort};
ghost use Rattle.relay_book.specs.StandsFor.{SnapshotIsRead, SnapshotStands, StepIsQueue};

/// Two different changes that may be stored have different encodings.
pub fn encoding_is_one()
    ensures { EncodingIsOne }
{}

/// Octets are the snapshot of one queue.
pub fn snapshot_is_one()
    ensures { SnapshotIsOne }
{}

/// No bodies stand for no changes.
pub fn none_stand_for_none()
    ensures { NoneStandForNone }
{}

/// A change that fits, and its encoding, may be added.
pub fn one_more_stands()
    ensures { OneMoreStands }
{}

/// What is read from bodies is the queue of the changes that they stand for, and no other.
pub fn queue_is_read()
    ensures { QueueIsRead }
{}

/// Bodies leave one queue.
pub fn bodies_leave_one()
    ensures { BodiesLeaveOne }
{}

/// The encodings of changes stand for them.
pub fn encodings_stand()
    ensures { EncodingsStand }
{}

/// A queue that may be stored stays one with each change that fits it.
pub fn step_is_queue()
    ensures { StepIsQueue }
{}

/// The queue of a list may be stored.
pub fn list_is_queue()
    ensures { ListIsQueue }
{}

/// A message of a queue that may be stored may be stored under its number.
pub fn found_is_queued()
    ensures { FoundIsQueued }
{}

/// A snapshot that is short enough to be a body reads as its queue.
pub fn snapshot_is_read()
    ensures { SnapshotIsRead }
{}

/// The snapshot of the queue of a list stands for the list.
pub fn snapshot_stands()
    ensures { SnapshotStands }
{}

/// A record is short enough to be a body.
pub fn record_is_short()
    ensures { RecordIsShort }
{}
