//! The table of a conversation: the client's action after each reply (RFC 5321, sections 3.1 to 3.3 and 4.2).
ghost use Rattle.std.specs.Prelude.{◌≡◌};
ghost use Rattle.relay_lines.specs.Reply.{Reply};
ghost use Rattle.relay_course.specs.Progress.{Delivery, Progress, after_answer};
ghost use Rattle.relay_client.specs.Action.{done_by};

use relay_course::{Awaited, ReplyKind};

/// The client's action after a reply.
#[derive(Clone, Copy)]
pub(crate) enum Action {
    /// EHLO.
    Greet,
    /// Keep the offered extensions, and begin the transaction.
    TakeOffer,
    /// HELO.
    GreetPlainly,
    /// The transaction begins.
    Begin,
    /// The next RCPT, or the content after the last one.
    GoOn,
    /// The text.
    SendText,
    /// The end, by a reply of this kind to the content.
    EndAfterContent(ReplyKind),
    /// The end: it may be tried again.
    PutOff,
    /// The end: it is refused for good.
    Refuse,
}

/// Returns the table: by what waited and by the kind of the reply, what is done.
pub(crate) fn action_after(waited: Awaited, kind: ReplyKind) -> Action
    ensures { (delivery : Delivery) (reply : Reply) (old : Progress)
        → after_answer delivery waited kind reply old ≡ done_by delivery result reply old }
{
    match (waited, kind) {
        (Awaited::Greeting, ReplyKind::Completion) => Action::Greet,
        (Awaited::Ehlo, ReplyKind::Completion) => Action::TakeOffer,
        (Awaited::Ehlo, ReplyKind::Permanent) => Action::GreetPlainly,
        (Awaited::Helo, ReplyKind::Completion) => Action::Begin,
        (Awaited::Mail, ReplyKind::Completion) => Action::GoOn,
        (Awaited::Rcpt(_), _) => Action::GoOn,
        (Awaited::Data, ReplyKind::Intermediate) => Action::SendText,
        (Awaited::Content, _) => Action::EndAfterContent(kind),
        (Awaited::Greeting, ReplyKind::Intermediate) => Action::PutOff,
        (Awaited::Greeting, ReplyKind::Transient) => Action::PutOff,
        (Awaited::Greeting, ReplyKind::Permanent) => Action::Refuse,
        (Awaited::Ehlo, ReplyKind::Intermediate) => Action::PutOff,
        (Awaited::Ehlo, ReplyKind::Transient) => Action::PutOff,
        (Awaited::Helo, ReplyKind::Intermediate) => Action::PutOff,
        (Awaited::Helo, ReplyKind::Transient) => Action::PutOff,
        (Awaited::Helo, ReplyKind::Permanent) => Action::Refuse,
        (Awaited::Mail, ReplyKind::Intermediate) => Action::PutOff,
        (Awaited::Mail, ReplyKind::Transient) => Action::PutOff,
        (Awaited::Mail, ReplyKind::Permanent) => Action::Refuse,
        (Awaited::Data, ReplyKind::Completion) => Action::PutOff,
        (Awaited::Data, ReplyKind::Transient) => Action::PutOff,
        (Awaited::Data, ReplyKind::Permanent) => Action::Refuse,
    }
}
