//! What follows once a next hop has answered.
ghost use Rattle.relay_next_hops.specs.Lanes.{KeepsCounts};

use crate::hop::Hop;
use crate::lanes::Lanes;
use relay_connections::Now;
use relay_log::Log;

/// Notes if the next hop of a connection has answered for the first time, and its last reply of this turn.
pub(crate) fn note_spoken<S>(
    hop: &Hop<S>,
    had_spoken: bool,
    lanes: &mut Lanes,
    now: &Now,
    log: &mut Log<'_, Vec<u8>>,
)
    ensures counts { KeepsCounts lanes.old lanes.new }
{
    if hop.has_spoken && !had_spoken {
        tell_back(hop, lanes, now, log);
        lanes.answered(hop.aim.lane);
    }
    if let Some(reply) = &hop.heard.last {
        // If memory runs out, the one before stays.
        let _ = lanes
            .last_replies
            .note_reply(hop.name.as_slice(), reply, now.moment);
    }
}

/// Logs that the next hop of a connection has answered, if it was put on hold and hadn't answered since.
fn tell_back<S>(hop: &Hop<S>, lanes: &Lanes, now: &Now, log: &mut Log<'_, Vec<u8>>) {
    if let Some(outage) = lanes.outage(hop.aim.lane) {
        let seconds = now.tick.saturating_sub(outage.since) / 1_000;
        log.came_back(hop.name.as_slice(), hop.aim.at, seconds, outage.failures);
    }
}
