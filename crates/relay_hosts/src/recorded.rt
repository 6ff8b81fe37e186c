//! What a change has recorded.
use relay_book::PlaceStep;

/// What a change has recorded, according to its note.
pub struct Recorded {
    /// How many recipients an accept has; 0 for an outcome.
    pub accepted: usize,
    /// Each place that left or was delayed, in order, with how.
    pub left: Vec<(u8, PlaceStep)>,
    /// Whether it queued a report.
    pub report: bool,
}

// Written out, so that the proof of a caller that drops one stops at this function.
impl Drop for Recorded {
    fn drop(self) {
        let Recorded {
            accepted: _,
            left: _left,
            report: _,
        } = self;
    }
}
