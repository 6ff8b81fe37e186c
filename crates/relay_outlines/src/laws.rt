//! Laws of queues with blank texts.
ghost use Rattle.relay_outlines.specs.Laws.{BlankTextsHold, BlankTextsWait};

/// The same places are held in a queue with blank texts.
pub fn blank_texts_hold()
    ensures { BlankTextsHold }
{}

/// The same recipients are due at the same times there.
pub fn blank_texts_wait()
    ensures { BlankTextsWait }
{}
