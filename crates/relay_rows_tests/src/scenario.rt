use crate::course::Cutting;
use crate::step::Step;
use std::alloc::{AllocError, Global};

/// What happens to a node, one event after another, and the outcome of each.
///
/// After `name ` stands its name, after `calls ` how many calls of the device pass before one fails, and after `picks `
/// what a stop leaves, each from the first number to the last: then it is played for each of them, and else for each
/// cutting of what the other sides say, after `sizes ` in pieces of these sizes. `differs` says that something else
/// comes than what is there.
pub struct Scenario<'a> {
    pub name: &'a str,
    /// It is played for each of these.
    pub calls: Option<Numbers>,
    pub picks: Numbers,
    /// How many octets pieces have, a space between each two sizes; none where it is cut in two.
    pub sizes: &'a str,
    /// Something else comes of it than what is there.
    pub differs: bool,
    pub steps: Vec<Step<'a>>,
}

/// Numbers that follow one another.
#[derive(Clone, Copy)]
pub struct Numbers {
    pub first: u64,
    pub last: u64,
}

impl Drop for Scenario<'_> {
    fn drop(self) {
        let Scenario {
            name: _,
            calls: _,
            picks: _,
            sizes: _,
            differs: _,
            steps: _steps,
        } = self;
    }
}

impl<'a> Scenario<'a> {
    /// Makes a scenario of which no line is read.
    pub fn new(alloc: Global) -> Self {
        Scenario {
            name: "",
            calls: None,
            picks: Numbers { first: 0, last: 0 },
            sizes: "",
            differs: false,
            steps: Vec::new(alloc),
        }
    }

    /// Takes a line of the scenario.
    pub fn take(&mut self, alloc: Global, line: &'a str) -> Result<(), AllocError> {
        let (word, text) = line.split_once(' ').unwrap_or((line, ""));
        match word {
            "name" => self.name = text,
            "calls" => self.calls = Some(numbers_of(text)),
            "picks" => self.picks = numbers_of(text),
            "sizes" => self.sizes = text,
            "differs" => self.differs = true,
            "#" => (),
            _ => return self.take_step(alloc, line, word, text),
        }
        Ok(())
    }

    /// Takes an event, or a line that belongs to the last one.
    fn take_step(
        &mut self,
        alloc: Global,
        line: &'a str,
        word: &str,
        text: &str,
    ) -> Result<(), AllocError> {
        if let Some(step) = self.steps.last_mut()
            && step.take(word, text.as_bytes())?
        {
            return Ok(());
        }
        self.steps.push(Step::new(alloc, line))?;
        Ok(())
    }

    /// Returns the ways in which what other sides say comes: all at once; in two pieces, cut at each octet, or in
    /// pieces of each size, cut at each place first; and octet by octet.
    pub fn cuttings(&self, alloc: Global) -> Result<Vec<Cutting>, AllocError> {
        let mut cuttings = Vec::new(alloc);
        cuttings.push(Cutting::WHOLE)?;
        if self.sizes.is_empty() {
            for first in 1..self.longest() {
                let rest = usize::MAX;
                cuttings.push(Cutting { first, rest })?;
            }
        }
        for size in self.sizes.split(' ') {
            let rest = size.parse::<usize>().unwrap_or(0);
            for first in 1..=rest {
                cuttings.push(Cutting { first, rest })?;
            }
        }
        cuttings.push(Cutting::OCTETS)?;
        Ok(cuttings)
    }

    /// Returns how many octets the longest of what other sides say has.
    fn longest(&self) -> usize {
        let mut longest = 0;
        for step in self.steps.as_slice() {
            longest = step.said.len().max(longest);
        }
        longest
    }
}

/// Returns the numbers from the first word to the second.
fn numbers_of(text: &str) -> Numbers {
    let (first, last) = text.split_once(' ').unwrap_or((text, text));
    Numbers {
        first: first.parse::<u64>().unwrap_or(0),
        last: last.parse::<u64>().unwrap_or(0),
    }
}
