//! Laws of the outline of a queue.
ghost use Rattle.relay_book.specs.Outline.{OutlineFinds, OutlineFits, OutlineHolds, OutlineSteps, OutlineTells};

/// The outline after a change is the outline before it after the outlined change.
pub fn outline_steps()
    ensures { OutlineSteps }
{}

/// A change that may be stored fits a queue exactly if the outlined change fits the outline.
pub fn outline_fits()
    ensures { OutlineFits }
{}

/// The same places are held in an outline.
pub fn outline_holds()
    ensures { OutlineHolds }
{}

/// A message is found in an outline exactly if it is in the queue, and it is outlined there.
pub fn outline_finds()
    ensures { OutlineFinds }
{}

/// An outlined text says how long the text is.
pub fn outline_tells()
    ensures { OutlineTells }
{}
