//! The rows of the page's tables.
ghost use Rattle.std.specs.Prelude.{◌≡◌, ◌++◌, OnOk};
ghost use Rattle.relay_page.specs.Rows.{hop_row, load_cells, reply_text, shown_name, waiting_row, waiting_rows};

use relay_listing::{Load, Piece, push_pieces};
use std::alloc::AllocError;

/// A queued recipient.
#[derive(Clone, Copy)]
pub struct Waiting<'a> {
    /// The number of its message.
    pub number: u64,
    /// When its message was accepted, in seconds since 1970.
    pub accepted: u64,
    /// The reverse path of its message.
    pub reverse_path: &'a [u8],
    /// Its forward path.
    pub path: &'a [u8],
    /// How often it was deferred; 4 stands for four times and more.
    pub tries: u8,
    /// When it is due, in seconds since 1970.
    pub due: u64,
}

/// The last reply of a next hop.
#[derive(Clone, Copy)]
pub enum LastReply<'a> {
    /// There is none yet.
    NoneYet,
    /// Its code and text, and when it came, in seconds since 1970.
    Replied(&'a [u8], u64),
    /// There was none, for this reason: the last connection failed, at this time in seconds since 1970.
    Failed(&'a [u8], u64),
}

/// Adds the row of a next hop at a time.
pub(crate) fn push_hop<'a>(
    text: &mut Vec<u8>,
    name: &[u8],
    load: &Load,
    reply: LastReply<'a>,
    now: u64,
) -> Result<(), AllocError>
    ensures { OnOk result (text.new.items ≡ text.old.items ++ hop_row name.now load.now reply.entry now) }
{
    push_load(text, name, load, now)?;
    push_reply(text, reply, now)?;
    push_pieces(text, &[Piece::Markup(b"</span></td></tr>\n")])
}

/// Adds the cells of a next hop's load, and the start of the next cell.
fn push_load(text: &mut Vec<u8>, name: &[u8], load: &Load, now: u64) -> Result<(), AllocError>
    ensures { OnOk result (text.new.items ≡ text.old.items ++ load_cells name.now load.now now) }
{
    push_pieces(
        text,
        &[
            Piece::Markup(b"<tr><th scope=\"row\">"),
            Piece::Text(shown_name(name)),
            Piece::Markup(b"</th><td data-name=\"Messages\">"),
            Piece::Number(load.messages),
            Piece::Markup(b"</td><td data-name=\"Recipients\">"),
            Piece::Number(load.recipients),
            Piece::Markup(b"</td><td data-name=\"Size\">"),
            Piece::Size(load.octets),
            Piece::Markup(b"</td><td data-name=\"Oldest\">"),
            Piece::Span(now.saturating_sub(load.oldest)),
            Piece::Markup(b"</td><td data-name=\"Next try\">"),
            Piece::Wait(load.due.saturating_sub(now)),
            Piece::Markup(b"</td><td class=\"l\" data-name=\"Last reply\"><span>"),
        ],
    )
}

/// Adds the last reply of a next hop, and how long ago it came.
#[tactic(auto, unfolding(crate::specs::Rows::reply_text))]
fn push_reply<'a>(text: &mut Vec<u8>, reply: LastReply<'a>, now: u64) -> Result<(), AllocError>
    ensures { OnOk result (text.new.items ≡ text.old.items ++ reply_text reply.entry now) }
{
    let (before, octets, at): (&'static [u8], &'a [u8], u64) = match reply {
        LastReply::NoneYet => return push_pieces(text, &[Piece::Markup(b"none yet")]),
        LastReply::Replied(octets, at) => (b"", octets, at),
        LastReply::Failed(reason, at) => (b"no reply: ", reason, at),
    };
    push_pieces(
        text,
        &[
            Piece::Markup(before),
            Piece::Text(octets),
            Piece::Markup(b" <small>"),
            Piece::Span(now.saturating_sub(at)),
            Piece::Markup(b" ago</small>"),
        ],
    )
}

/// Returns the name of a next hop, or the text for recipients without one.
fn shown_name(name: &[u8]) -> &[u8]
    ensures { result.now ≡ shown_name name.now }
{
    if name.is_empty() { b"no route" } else { name }
}

/// Adds the row of a recipient at a time.
pub(crate) fn push_waiting<'a>(
    text: &mut Vec<u8>,
    waiting: Waiting<'a>,
    now: u64,
) -> Result<(), AllocError>
    ensures { OnOk result (text.new.items ≡ text.old.items ++ waiting_row waiting.entry now) }
{
    let reverse_path: &'a [u8] = waiting.reverse_path;
    let path: &'a [u8] = waiting.path;
    push_pieces(
        text,
        &[
            Piece::Markup(b"<tr><th scope=\"row\">"),
            Piece::Number(waiting.number),
            Piece::Markup(b"</th><td class=\"l\" data-name=\"From\">"),
            Piece::Text(reverse_path),
            Piece::Markup(b"</td><td class=\"l\" data-name=\"To\">"),
            Piece::Text(path),
            Piece::Markup(b"</td><td data-name=\"Age\">"),
            Piece::Span(now.saturating_sub(waiting.accepted)),
            Piece::Markup(b"</td><td data-name=\"Tries\">"),
            Piece::Number(u64::from(waiting.tries)),
            Piece::Markup(b"</td><td data-name=\"Next try\">"),
            Piece::Wait(waiting.due.saturating_sub(now)),
            Piece::Markup(b"</td></tr>\n"),
        ],
    )
}

/// Adds the rows of recipients at a time.
pub(crate) fn push_all_waiting(
    text: &mut Vec<u8>,
    all: &[Waiting<'_>],
    now: u64,
) -> Result<(), AllocError>
    ensures { OnOk result (text.new.items ≡ text.old.items ++ waiting_rows all.now now) }
{
    for waiting in all {
        push_waiting(text, *waiting, now)?;
    }
    Ok(())
}
