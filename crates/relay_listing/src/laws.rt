//! Laws of what views show of queues with blank texts.
ghost use Rattle.relay_listing.specs.Blank.{BlankTextsShow};

/// The same recipients stand at all places of a queue with blank texts.
pub fn blank_texts_show()
    ensures { BlankTextsShow }
{}
