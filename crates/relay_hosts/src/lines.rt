//! How many ledger lines may still be needed.
ghost use Rattle.std.specs.Prelude.{◌≡◌, ◌+◌, ℕ, MatchOption, length};
ghost use Rattle.relay_hosts.specs.Host.{undecided_in};
ghost use Rattle.relay_hosts.specs.Room.{lines_held, lines_left, lines_of_attempt, lines_to_come};
ghost use Rattle.relay_world.specs.Ledger.{lines_of};

use crate::host::{Host, HostState, Origin, Undecided};
use crate::links::is_running;
use relay_disk::Disk;
use relay_world::Attempt;

/// Returns how many lines attempts may still need: one for each place of a running attempt. `None` on overflow.
pub fn lines_to_come(attempts: &[Attempt]) -> Option<usize>
    ensures { MatchOption result (Unit {0}) (λ lines. lines ≡ lines_to_come attempts.now) }
{
    let mut lines = 0;
    for place in 0..attempts.len() {
        lines = add_lines(lines, lines_of_attempt(&attempts[place]))?;
    }
    Some(lines)
}

/// Returns how many lines nodes that are down may still need: those of their undecided changes. `None` on overflow.
pub fn lines_left<D: Disk>(hosts: &[Host<D>]) -> Option<usize>
    ensures { MatchOption result (Unit {0}) (λ lines. lines ≡ lines_left 0 hosts.now) }
{
    let mut lines = 0;
    for node in 0..hosts.len() {
        lines = add_lines(lines, hosts[node].lines_held())?;
    }
    Some(lines)
}

/// Returns the sum of two numbers of lines; `None` on overflow.
fn add_lines(lines: usize, more: usize) -> Option<usize>
    ensures { MatchOption result (Unit {0}) (λ sum. sum ≡ lines + more) }
{
    lines.checked_add(more)
}

/// Returns how many lines one attempt may still need.
fn lines_of_attempt(attempt: &Attempt) -> usize
    ensures { result ≡ lines_of_attempt attempt.now }
{
    if is_running(attempt.fate) {
        return attempt.places.len();
    }
    0
}

impl<D: Disk> Host<D> {
    /// Returns how many lines the node may still need, if it is down.
    fn lines_held(&self) -> usize
        ensures { (node : ℕ) → result ≡ lines_held node self.now.state }
    {
        let HostState::Down(down) = &self.state else {
            return 0;
        };
        let Some(undecided) = &down.undecided else {
            return 0;
        };
        undecided.lines()
    }
}

impl Undecided {
    /// Returns how many lines the change would add.
    fn lines(&self) -> usize
        ensures { (node : ℕ) → result ≡ length (lines_of node (undecided_in self.now)) }
    {
        match self.origin {
            Origin::FromClient(_) => 1,
            Origin::FromReplies(_, _, _) => self.note.left.len(),
            Origin::FromLoss(_, _, _) => self.note.left.len(),
            Origin::FromGivingUp(_) => self.note.left.len(),
        }
    }
}
