//! The page for people.
ghost use Rattle.std.specs.Prelude.{◌≡◌, ◌==◌, if◌then◌else◌};

use crate::history::{History, MINUTES};
use crate::plot::push_plot;
use crate::rows::{LastReply, Waiting, push_all_waiting, push_hop};
use crate::style::{BEGINNING, STYLE};
use relay_listing::{Loads, Piece, push_pieces};
use relay_trace::{Moment, TraceFault, date_text};
use std::alloc::{AllocError, Global};

/// The most next hops of the page.
pub const MOST_HOPS: usize = 100;

/// Counts since the relay began.
#[derive(Clone, Copy)]
pub struct Totals {
    /// Messages that were accepted.
    pub accepted: u64,
    /// Commands and mail data that were refused.
    pub rejected: u64,
    /// Recipients that a next hop has taken.
    pub sent: u64,
    /// Recipients that an attempt left in the queue, once for each attempt.
    pub deferred: u64,
    /// Recipients that failed, or whose message was too old.
    pub failed: u64,
}

/// What the page shows.
#[derive(Drop)]
pub struct View<'a> {
    /// The relay's name.
    pub host: &'a [u8],
    pub now: Moment,
    /// When the relay began.
    pub since: Moment,
    pub totals: Totals,
    /// The size of the spool in octets, and its greatest size.
    pub spool_size: u64,
    pub spool_limit: u64,
    /// The queue by next hop.
    pub loads: &'a Loads,
    /// The last reply of each of these next hops, in their order.
    pub replies: &'a [LastReply<'a>],
    /// How many recipients are queued.
    pub recipients: u64,
    /// How many clients are connected, and how many attempts are running.
    pub sessions: u64,
    pub attempts: u64,
    /// The recipients that have been queued for the longest time.
    pub oldest: &'a [Waiting<'a>],
    pub history: &'a History,
}

/// Returns the text of the page. Fails if memory runs out.
pub fn page_text(alloc: Global, view: &View<'_>) -> Result<Vec<u8>, AllocError> {
    let mut text = Vec::new(alloc);
    push_pieces(
        &mut text,
        &[
            Piece::Markup(BEGINNING),
            Piece::Text(view.host),
            Piece::Markup(STYLE),
            Piece::Text(view.host),
            Piece::Markup(b"</h1>\n"),
        ],
    )?;
    push_moment(alloc, &mut text, view)?;
    push_totals(&mut text, view)?;
    push_queue(&mut text, view)?;
    push_day(&mut text, view.history)?;
    push_oldest(&mut text, view)?;
    push_pieces(
        &mut text,
        &[Piece::Markup(
            b"<p><a href=\"/queue.json\">queue.json</a> &middot; <a href=\"/metrics\">metrics</a></p>\n\
</main>\n</body>\n</html>\n",
        )],
    )?;
    Ok(text)
}

/// Adds the time at which the page was made, and how long the relay has been running.
fn push_moment(alloc: Global, text: &mut Vec<u8>, view: &View<'_>) -> Result<(), AllocError> {
    let date = match date_text(alloc, view.now) {
        Ok(date) => date,
        Err(TraceFault::NoMemory | TraceFault::OutOfRange) => return Err(AllocError),
    };
    push_pieces(
        text,
        &[
            Piece::Markup(b"<p class=\"when\"><span>"),
            Piece::Text(date.as_slice()),
            Piece::Markup(b"</span> <span>up for "),
            Piece::Span(view.now.seconds().saturating_sub(view.since.seconds())),
            Piece::Markup(b"</span></p>\n"),
        ],
    )
}

/// Adds the counts of the relay.
fn push_totals(text: &mut Vec<u8>, view: &View<'_>) -> Result<(), AllocError> {
    push_pieces(text, &[Piece::Markup(b"<section>\n<dl>\n")])?;
    push_number(text, b"Queued recipients", view.recipients)?;
    push_number(text, b"Sessions", view.sessions)?;
    push_number(text, b"Running attempts", view.attempts)?;
    push_number(text, b"Accepted messages", view.totals.accepted)?;
    push_number(text, b"Sent recipients", view.totals.sent)?;
    push_number(text, b"Deferred", view.totals.deferred)?;
    push_number(text, b"Failed", view.totals.failed)?;
    push_number(text, b"Refused to clients", view.totals.rejected)?;
    push_pieces(
        text,
        &[
            Piece::Markup(b"<div><dt>Spool of "),
            Piece::Size(view.spool_limit),
            Piece::Markup(b"</dt><dd>"),
            Piece::Size(view.spool_size),
            Piece::Markup(b"</dd></div>\n</dl>\n</section>\n"),
        ],
    )
}

fn push_number(text: &mut Vec<u8>, name: &'static [u8], number: u64) -> Result<(), AllocError> {
    push_pieces(
        text,
        &[
            Piece::Markup(b"<div><dt>"),
            Piece::Markup(name),
            Piece::Markup(b"</dt><dd>"),
            Piece::Number(number),
            Piece::Markup(b"</dd></div>\n"),
        ],
    )
}

/// Adds the queue by next hop.
fn push_queue(text: &mut Vec<u8>, view: &View<'_>) -> Result<(), AllocError> {
    push_pieces(
        text,
        &[Piece::Markup(b"<section>\n<h2>Queue by next hop</h2>\n")],
    )?;
    if view.loads.is_empty() {
        return push_pieces(
            text,
            &[Piece::Markup(b"<p>Nothing is queued.</p>\n</section>\n")],
        );
    }
    push_pieces(
        text,
        &[Piece::Markup(
            b"<table class=\"hops\">\n<thead><tr><th>Next hop</th><th>Messages</th><th>Recipients</th><th>Size</th>\
<th>Oldest</th><th>Next try</th><th class=\"l\">Last reply</th></tr></thead>\n<tbody>\n",
        )],
    )?;
    for index in 0..view.loads.len().min(MOST_HOPS) {
        if let Some((name, load)) = view.loads.get_index(index) {
            let reply = match view.replies.get(index) {
                Some(reply) => *reply,
                None => LastReply::NoneYet,
            };
            push_hop(text, name.as_slice(), load, reply, view.now.seconds())?;
        }
    }
    push_pieces(text, &[Piece::Markup(b"</tbody>\n</table>\n")])?;
    if view.loads.len() > MOST_HOPS {
        push_pieces(
            text,
            &[Piece::Markup(b"<p>More next hops stand in the metrics.</p>\n")],
        )?;
    }
    push_pieces(text, &[Piece::Markup(b"</section>\n")])
}

/// Adds the recipients that have been queued for the longest time.
fn push_oldest(text: &mut Vec<u8>, view: &View<'_>) -> Result<(), AllocError> {
    if view.oldest.is_empty() {
        return Ok(());
    }
    push_pieces(
        text,
        &[Piece::Markup(
            b"<section>\n<h2>Waiting longest</h2>\n<table class=\"mail\">\n<thead><tr><th>Message</th>\
<th class=\"l\">From</th><th class=\"l\">To</th><th>Age</th><th>Tries</th><th>Next try</th></tr></thead>\n<tbody>\n",
        )],
    )?;
    push_all_waiting(text, view.oldest, view.now.seconds())?;
    push_pieces(text, &[Piece::Markup(b"</tbody>\n</table>\n</section>\n")])
}

/// Adds the last 24 hours.
fn push_day(text: &mut Vec<u8>, history: &History) -> Result<(), AllocError> {
    let day = history.sum(0, MINUTES as u64);
    push_pieces(
        text,
        &[
            Piece::Markup(
                b"<section>\n<h2>Last 24 hours</h2>\n<p><span class=\"key\" style=\"--c:var(--came)\">",
            ),
            Piece::Number(day.accepted),
            Piece::Markup(noun(day.accepted, b" message", b" messages")),
            Piece::Markup(b" accepted</span> <span class=\"key\" style=\"--c:var(--went)\">"),
            Piece::Number(day.sent),
            Piece::Markup(noun(day.sent, b" recipient", b" recipients")),
            Piece::Markup(b" sent</span></p>\n"),
        ],
    )?;
    push_plot(text, history)?;
    push_pieces(text, &[Piece::Markup(b"</section>\n")])
}

/// Returns the noun for this many: the singular for one, and else the plural.
fn noun(count: u64, singular: &'static [u8], plural: &'static [u8]) -> &'static [u8]
    ensures { result.now ≡ (if count == 1 then singular.now else plural.now) }
{
    if count == 1 { singular } else { plural }
}
