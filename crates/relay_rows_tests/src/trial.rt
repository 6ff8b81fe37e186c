use crate::course::{Course, Cutting};
use crate::scenario::{Numbers, Scenario};
use crate::scene::Scene;
use crate::spelling::push_escaped;
use crate::stage::Stage;
use relay_trace::Moment;
use std::alloc::{AllocError, Global};
use std::mem;

/// Plays a scenario in each of its courses, and says what came first that isn't written down.
pub fn difference_of(alloc: Global, scenario: &Scenario<'_>) -> Result<Option<String>, AllocError> {
    match scenario.calls {
        Some(calls) => difference_at_stops(alloc, scenario, calls),
        None => difference_by_cutting(alloc, scenario),
    }
}

/// Plays a scenario for each number of calls that pass, and for each pick.
fn difference_at_stops(
    alloc: Global,
    scenario: &Scenario<'_>,
    numbers: Numbers,
) -> Result<Option<String>, AllocError> {
    for calls in numbers.first..=numbers.last {
        for pick in scenario.picks.first..=scenario.picks.last {
            let course = Course {
                cutting: Cutting::WHOLE,
                calls,
                pick,
                is_crowded: false,
            };
            let difference = play(alloc, scenario, course, &mut Vec::new(alloc))?;
            if difference.is_some() {
                return Ok(difference);
            }
        }
    }
    Ok(None)
}

/// Plays a scenario whole, for each cutting, and among other clients, after which the disks hold the same.
fn difference_by_cutting(
    alloc: Global,
    scenario: &Scenario<'_>,
) -> Result<Option<String>, AllocError> {
    let mut images = Vec::new(alloc);
    for cutting in scenario.cuttings(alloc)?.as_slice() {
        let course = Course {
            cutting: *cutting,
            calls: 0,
            pick: 0,
            is_crowded: false,
        };
        let difference = play(alloc, scenario, course, &mut images)?;
        if difference.is_some() {
            return Ok(difference);
        }
    }
    let course = Course {
        cutting: Cutting::WHOLE,
        calls: 0,
        pick: 0,
        is_crowded: true,
    };
    play(alloc, scenario, course, &mut images)
}

/// Plays a scenario in one course, and says what came first that isn't written down, or that the disks hold other
/// images than these at last. In the place of no images it leaves those of the disks.
fn play(
    alloc: Global,
    scenario: &Scenario<'_>,
    course: Course,
    images: &mut Vec<u8>,
) -> Result<Option<String>, AllocError> {
    let Ok(now) = Moment::new(0) else {
        return Err(AllocError);
    };
    let mut stage = Stage::new(alloc, course, now);
    let difference = play_on(&mut stage, scenario, images)?;
    if stage.scene.is_short {
        return Err(AllocError);
    }
    Ok(difference)
}

/// Returns the same on a stage on which nothing has happened.
fn play_on<'a>(
    stage: &mut Stage<'a>,
    scenario: &Scenario<'a>,
    images: &mut Vec<u8>,
) -> Result<Option<String>, AllocError> {
    for step in scenario.steps.as_slice() {
        stage.perform(step);
        if !step.allows(stage.scene.came.as_slice()) {
            return Ok(Some(told(&stage.scene, step.event)?));
        }
        stage.scene.came.clear();
    }
    stage.tell_images();
    if images.is_empty() {
        mem::swap(images, &mut stage.scene.came);
    } else if images.as_slice() != stage.scene.came.as_slice() {
        return Ok(Some(told(&stage.scene, "the last images")?));
    }
    Ok(None)
}

/// Tells the outcome of an event.
fn told(scene: &Scene, event: &str) -> Result<String, AllocError> {
    let Course {
        cutting,
        calls,
        pick,
        is_crowded,
    } = scene.course;
    let first = cutting.first;
    let mut text = format!(in scene.alloc;
        "{event}, of {calls} calls, pick {pick}, cut at {first}, crowded {is_crowded}: "
    )?;
    push_escaped(&mut text, scene.came.as_slice())?;
    Ok(text)
}
