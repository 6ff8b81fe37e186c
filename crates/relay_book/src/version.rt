/// The version of an outcome. A node writes the third for places that the postmaster withdraws, and else the second,
/// and reads all.
#[derive(Clone, Copy, Debug)]
pub enum Version {
    /// The first, which knows of no report of a delay.
    WithoutDelay,
    /// The second, by which a place that is late is reported as delayed, once.
    WithDelay,
    /// The third, whose verdicts are the postmaster's.
    WithWithdrawal,
}

/// The version of a snapshot. A node writes the second alone, and reads both.
#[derive(Clone, Copy)]
pub(crate) enum SnapshotVersion {
    /// The first, which says of no place that it was reported as delayed.
    WithoutDelay,
    /// The second, which says so.
    WithDelay,
}
