//! Runs of lines of which only the first may begin with a period: they are sent and kept unchanged.
ghost use Rattle.std.specs.Prelude.{◌<◌, ◌≤◌, length, take, MatchOption};
ghost use Rattle.relay_body.specs.DotSteps.{EndsRun, HasNoPeriodLine};

use memchr::memmem;

/// A line end, and the period that begins the next line.
const PERIOD_LINE: &[u8; 3] = b"\r\n.";

/// Returns the index after the first line end that a period follows.
pub(crate) fn run_end(octets: &[u8]) -> Option<usize>
    ensures ends { MatchOption result (HasNoPeriodLine octets.now) (λ end. EndsRun octets.now end) }
{
    match memmem::find(octets, PERIOD_LINE) {
        Some(place) => Some(place + 2),
        None => None,
    }
}

/// Returns the length of the first run: all octets if no later line begins with a period.
pub(crate) fn run_len(octets: &[u8]) -> usize
    requires { 0 < length octets.now }
    ensures some { 0 < result }
    ensures within { result ≤ length octets.now }
    ensures none { HasNoPeriodLine (take result octets.now) }
{
    match run_end(octets) {
        Some(end) => end,
        None => octets.len(),
    }
}
