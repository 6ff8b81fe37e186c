//! Lines of the ledger.
ghost use Rattle.std.specs.Prelude.{◌≡◌, ◌+◌, ◌++◌, ◌≤◌, length, vec_capacity, vec_len};
ghost use Rattle.relay_world.specs.Ledger.{left_lines, report_told};

use relay_book::PlaceStep;
use relay_world::Line;

/// Returns the number of a change if it queued a report, else 0.
pub fn report_told(change: u64, report: bool) -> u64
    ensures { result ≡ report_told change report }
{
    if report { change } else { 0 }
}

/// Adds a line for each place of a message that left or was delayed. There is room for them.
pub fn push_left(
    ledger: &mut Vec<Line>,
    node: usize,
    message: u64,
    link: usize,
    report: u64,
    left: &[(u8, PlaceStep)],
)
    requires { vec_len ledger.old + length left.now ≤ vec_capacity ledger.old }
    ensures items { ledger.new.items ≡ ledger.old.items ++ left_lines node message link report left.now }
    ensures len { vec_len ledger.new ≡ vec_len ledger.old + length left.now }
    ensures capacity { vec_capacity ledger.old ≤ vec_capacity ledger.new }
{
    for (place, step) in left {
        ledger
            .push(Line::Became {
                step: *step,
                node,
                number: message,
                place: *place,
                link,
                report,
            })
            .unwrap();
    }
}
