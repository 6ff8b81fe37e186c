//! Which refusals to clients have a line in the log: up to ten for each address and minute. One more line then has the
//! number of the others.
ghost use Rattle.std.specs.Prelude.{◌≡◌, ◌≤◌, ◌<◌, ℕ, None, Some, MatchOption, length, replicate, true};
ghost use Rattle.relay_log.specs.RejectionMinutes.{IsFirst, IsNotLate, Notes, RunsNowhere, again, begun, end_of};
ghost use Rattle.relay_log.specs.RejectionMinutes.{first_of, is_running, left_after, minute_at, over_at, places_of};

use std::net::SocketAddrV4;

/// The most lines for an address in a minute, beside the one that has the number of the other refusals.
const MOST_LINES: u64 = 10;

/// The length of a minute, in milliseconds.
const MINUTE: u64 = 60_000;

/// How many addresses have a minute at a time.
pub(crate) const ADDRESSES: usize = 64;

/// The refusals to clients of an address within a minute, which begins with the first of them.
#[derive(Clone, Copy)]
pub(crate) struct RejectionMinute {
    /// The client that was refused last.
    pub(crate) peer: SocketAddrV4,
    /// The tick, in milliseconds, at which the minute is over.
    end: u64,
    /// How many of the refusals have a line.
    lines: u64,
    /// How many have none.
    pub(crate) untold: u64,
}

impl RejectionMinute {
    /// Returns the minute that a refusal at this tick begins, and that has its line.
    fn begun(peer: SocketAddrV4, tick: u64) -> Self
        ensures { result ≡ begun peer tick }
    {
        RejectionMinute {
            peer,
            end: tick.saturating_add(MINUTE),
            lines: 1,
            untold: 0,
        }
    }

    /// Returns the minute after one more refusal, which has a line if fewer than ten have.
    fn again(self, peer: SocketAddrV4) -> Self
        ensures { result ≡ again peer self }
    {
        if self.lines < MOST_LINES {
            RejectionMinute {
                peer,
                end: self.end,
                lines: self.lines + 1,
                untold: self.untold,
            }
        } else {
            RejectionMinute {
                peer,
                end: self.end,
                lines: self.lines,
                untold: self.untold.saturating_add(1),
            }
        }
    }
}

/// Returns whether a place has a minute of this address that isn't over.
fn is_running(place: &Option<RejectionMinute>, address: [u8; 4], tick: u64) -> bool
    ensures { result ≡ is_running address tick place.now }
{
    match place {
        Some(minute) => tick < minute.end && minute.peer.ip().octets() == address,
        None => false,
    }
}

/// Returns the tick at which the minute of a place is over; 0 if the place is free.
fn end_of(place: &Option<RejectionMinute>) -> u64
    ensures { result ≡ end_of place.now }
{
    match place {
        Some(minute) => minute.end,
        None => 0,
    }
}

/// Returns the tick at which a line is due for the minute of a place, if one is, else the last tick.
fn deadline_of(place: &Option<RejectionMinute>) -> u64
    ensures { IsNotLate result place.now }
{
    match place {
        Some(minute) if 0 < minute.untold => minute.end,
        _ => u64::MAX,
    }
}

/// Returns that of two places whose minute is over first.
fn first_of(places: &[Option<RejectionMinute>], one: usize, other: usize) -> usize
    requires one { one < length places.now }
    requires other { other < length places.now }
    ensures { result ≡ first_of places.now one other }
{
    if end_of(&places[other]) < end_of(&places[one]) {
        other
    } else {
        one
    }
}

/// The minutes of up to 64 addresses. It allocates nothing.
#[derive(Clone, Copy)]
pub struct RejectionMinutes {
    places: [Option<RejectionMinute>; ADDRESSES],
}

impl RejectionMinutes {
    /// Returns a table without a minute.
    pub fn new() -> Self
        ensures { places_of result ≡ replicate ADDRESSES None }
    {
        RejectionMinutes {
            places: [None; ADDRESSES],
        }
    }

    /// Counts a refusal to a client at this tick. Returns whether it has a line; and if it begins a minute of its
    /// address, what was in the place that this takes: a free one, or that of the minute that is over first.
    pub(crate) fn note(&mut self, peer: SocketAddrV4, tick: u64) -> (bool, Option<RejectionMinute>)
        ensures { Notes peer tick (places_of self.old) (places_of self.new) result.0 result.1 }
    {
        match self.running(peer.ip().octets(), tick) {
            Some((number, minute)) => {
                self.places[number] = Some(minute.again(peer));
                (minute.lines < MOST_LINES, None)
            }
            None => {
                let number = self.first();
                let taken = self.places[number];
                self.places[number] = Some(RejectionMinute::begun(peer, tick));
                (true, taken)
            }
        }
    }

    /// Takes the minute of a place out if it is over at this tick.
    pub(crate) fn take_over(&mut self, number: usize, tick: u64) -> Option<RejectionMinute>
        ensures taken { result ≡ over_at tick (minute_at (places_of self.old) number) }
        ensures left { places_of self.new ≡ left_after tick (places_of self.old) number }
    {
        let minute = match self.places.get(number) {
            Some(Some(minute)) if minute.end <= tick => *minute,
            _ => return None,
        };
        self.places[number] = None;
        Some(minute)
    }

    /// Returns the tick at which a minute is over that has refusals without a line, or `otherwise` if that is earlier.
    pub fn next_deadline(&self, otherwise: u64) -> u64
        ensures within { result ≤ otherwise }
        ensures due { (number : ℕ) → IsNotLate result (minute_at (places_of self.now) number) }
    {
        let mut next = otherwise;
        for number in 0..ADDRESSES {
            next = next.min(deadline_of(&self.places[number]));
        }
        next
    }

    /// Returns the place of the minute of an address that isn't over, and that minute.
    fn running(&self, address: [u8; 4], tick: u64) -> Option<(usize, RejectionMinute)>
        ensures found { MatchOption result (RunsNowhere address tick (places_of self.now))
            (λ found. (minute_at (places_of self.now) found.0 ≡ Some found.1)
            × (is_running address tick (Some found.1) ≡ true)) }
        ensures within { MatchOption result (Unit {0}) (λ found. found.0 < ADDRESSES) }
    {
        for number in 0..ADDRESSES {
            if is_running(&self.places[number], address, tick) {
                if let Some(minute) = self.places[number] {
                    return Some((number, minute));
                }
            }
        }
        None
    }

    /// Returns the first place that is free, or else that of the minute that is over first.
    fn first(&self) -> usize
        ensures first { IsFirst (places_of self.now) result }
        ensures within { result < ADDRESSES }
    {
        let mut first = 0;
        for number in 1..ADDRESSES {
            first = first_of(&self.places, first, number);
        }
        first
    }
}
