use crate::change::Outcome;
use crate::message::Message;
use std::marker::Model;

/// A change, and the message that it queues.
#[derive(Drop)]
pub(crate) enum Made {
    /// An accept, as its message.
    Accepted(Message),
    /// An outcome without a report.
    Ruled(Outcome),
    /// An outcome whose report is this message, which has its text.
    Reported(Outcome, Message),
}

/// A change that a book has made room for.
#[derive(Drop)]
pub struct Ready {
    pub(crate) made: Made,
    /// When the places of its message were due.
    pub(crate) were_due: Vec<u64>,
}

impl Model for Ready {
    ghost use Rattle.relay_book.specs.Ready.{ReadyShown, ready_shown};

    ghost Value = { ReadyShown };

    ghost view = { λ ready. ready_shown ready.made };
}
