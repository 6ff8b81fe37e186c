use crate::answer::Answer;
use crate::disks::held::Held;
use crate::disks::mount::take_step;

/// A row: the first and the last number by which it is played, steps between ` ; `, and after ` => ` as many answers
/// between ` ; `. Where the word `N` is in a step, it is the number.
#[derive(Clone, Copy)]
pub struct Row<'a> {
    first: u64,
    last: u64,
    steps: &'a str,
    answers: &'a str,
}

impl<'a> Row<'a> {
    /// Reads a row.
    pub fn read(line: &'a str) -> Self {
        let (given, answers) = line.split_once(" => ").unwrap_or((line, ""));
        let (first, rest) = given.split_once(' ').unwrap_or((given, ""));
        let (last, steps) = rest.split_once(' ').unwrap_or((rest, ""));
        Row {
            first: first.parse::<u64>().unwrap_or(0),
            last: last.parse::<u64>().unwrap_or(0),
            steps,
            answers,
        }
    }

    /// Returns the first number by which the row comes otherwise than it is written down, if there is one. What came by
    /// it is the answer.
    pub fn difference(self, answer: &mut Answer) -> Option<u64> {
        for number in self.first..=self.last {
            answer.text.clear();
            play(self.steps, number, answer);
            if answer.text.as_str() != self.answers {
                return Some(number);
            }
        }
        None
    }
}

/// Tells what steps answer, one after another, in an answer of which nothing is told.
fn play(steps: &str, number: u64, answer: &mut Answer) {
    let mut held = Held::Nothing;
    for step in steps.split(" ; ") {
        if !answer.text.is_empty() {
            answer.say(" ; ");
        }
        take_step(&mut held, step, number, answer);
    }
}
