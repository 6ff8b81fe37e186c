//! What reports the readiness of the box's streams.
use crate::disk::BoxDisk;
use crate::files::BoxFiles;
use crate::world::WireStream;
use relay_connections::{Now, Readiness};
use relay_log::Counters;
use relay_loop::Relay;
use relay_run::{Control, Watch};
use relay_status::Connections;
use std::collections::VecDeque;

/// Reports what streams may be ready for, and never waits. Nobody sees the relay's state, and it has no control socket.
pub struct BoxWatch {
    /// Tokens, and what may be ready under each, of which the relay wasn't told yet.
    pub reports: VecDeque<(usize, Readiness)>,
}

// Written out, so that the proof of a caller that drops it stops at this function.
impl Drop for BoxWatch {
    fn drop(self) {
        let BoxWatch { reports: _reports } = self;
    }
}

impl Watch<WireStream, BoxDisk> for BoxWatch {
    type Files = BoxFiles;

    fn registry(&self) -> &() {
        &()
    }

    fn shortened(&self, milliseconds: u64, _now: &Now) -> u64 {
        milliseconds
    }

    fn wait(&mut self, _milliseconds: u64) {}

    fn take_report(&mut self) -> Option<(usize, Readiness)> {
        self.reports.pop_front()
    }

    fn show(
        &mut self,
        _relay: &Relay<BoxDisk>,
        _connections: Connections<'_>,
        _counters: &Counters,
        _now: &Now,
    ) {}

    fn control(&self) -> Option<Control<'_, BoxFiles>> {
        None
    }
}
