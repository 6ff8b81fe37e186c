//! Laws of the calls of a node, whoever makes them.
ghost use Rattle.relay_node.specs.Attempts.{ToldStays};
ghost use Rattle.relay_node.specs.Queued.{QueuedGrows};

/// A call on a session adds to the offers that were queued just those that it queues.
pub fn queued_grows()
    ensures { QueuedGrows }
{}

/// What is told of an attempt stays so while changes are added, as long as the attempt is the same.
pub fn told_stays()
    ensures { ToldStays }
{}
