//! What an outcome makes of places.
ghost use Rattle.std.specs.Prelude.{◌≡◌, IfOk};
ghost use Rattle.relay_book.specs.Marks.{place_step, place_steps_by, step_of};

use crate::change::{Outcome, Ruling};
use crate::due_report::DueReport;
use crate::fate::{PlaceStep, Way, fate_of};
use crate::message::Message;
use crate::retry::tells_delay;
use crate::version::Version;
use relay_trace::Moment;
use std::alloc::{AllocError, Global};

/// Returns what the verdicts of an outcome make of the places of a message, in order.
pub(super) fn place_steps_by(
    alloc: Global,
    message: &Message,
    outcome: &Outcome,
) -> Result<Vec<(u8, PlaceStep)>, AllocError>
    ensures { IfOk result (λ steps.
        steps.items
        ≡ place_steps_by outcome.now.version message.now outcome.now.at outcome.now.rulings) }
{
    let mut steps = Vec::new(alloc);
    for ruling in outcome.rulings.as_slice() {
        if let Some(step) = place_step(outcome.version, message, outcome.at, ruling) {
            steps.push((ruling.place, step))?;
        }
    }
    Ok(steps)
}

/// Returns what a verdict makes of a place.
fn place_step(version: Version, message: &Message, at: Moment, ruling: &Ruling) -> Option<PlaceStep>
    ensures { result ≡ place_step version message.now at ruling.now }
{
    let way = fate_of(message.accept.at, at, &ruling.verdict).way();
    let due = message.due_report_at(version, at, ruling.place, &ruling.verdict);
    step_of(way, due)
}

/// What is told of a place: that it leaves in this way, or that this report of a delay was due.
fn step_of(way: Option<Way>, due: Option<DueReport>) -> Option<PlaceStep>
    ensures { result ≡ step_of way due }
{
    match way {
        Some(way) => Some(PlaceStep::Left(way)),
        None => tells_delay(due).then_some(PlaceStep::Delayed),
    }
}
