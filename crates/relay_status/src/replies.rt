//! The last replies of next hops, as the page shows them.
ghost use Rattle.std.specs.Prelude.{◌≡◌};
ghost use Rattle.relay_log.specs.LastReplies.{answer_of};
ghost use Rattle.relay_status.specs.Replies.{reason_of, said, said_in};

use relay_listing::Loads;
use relay_log::{Answer, LastReplies, Loss};
use relay_page::{LastReply, MOST_HOPS};
use std::alloc::{AllocError, Global};

/// Returns the last reply of each of these next hops that the page shows, in their order. Fails if memory runs out.
pub(crate) fn replies_of<'a>(
    alloc: Global,
    replies: &'a LastReplies,
    loads: &Loads,
) -> Result<Vec<LastReply<'a>>, AllocError> {
    let mut shown = Vec::new(alloc);
    for (name, _load) in loads.iter().take(MOST_HOPS) {
        shown.push(last_reply_of(replies, name.as_slice()))?;
    }
    Ok(shown)
}

/// Returns the last reply of the next hop of this name.
fn last_reply_of<'a>(replies: &'a LastReplies, name: &[u8]) -> LastReply<'a>
    ensures { said_in result ≡ said (answer_of replies.now name.now) }
{
    match replies.get(name) {
        Some(Answer::Replied(text, at)) => LastReply::Replied(text.as_slice(), at.seconds()),
        Some(Answer::Failed(loss, at)) => LastReply::Failed(reason_of(*loss), at.seconds()),
        None => LastReply::NoneYet,
    }
}

/// Returns the words of the log for the reason of a failed connection.
fn reason_of(loss: Loss) -> &'static [u8]
    ensures { result.now ≡ reason_of loss }
{
    match loss {
        Loss::Refused => b"connection refused",
        Loss::Unreachable => b"unreachable",
        Loss::Silent => b"timeout",
        Loss::Cut => b"connection closed",
    }
}
