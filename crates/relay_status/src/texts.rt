//! What the page shows: the relay's state as a page, as metrics, and as a list of the queue.
ghost use Rattle.std.specs.Prelude.{◌≡◌, ◌++◌, IfOk, OnOk};
ghost use Rattle.relay_listing.specs.Object.{object_at};
ghost use Rattle.relay_page.specs.Listing.{lines_of, listing};

use crate::metrics::{metrics_of, rejections};
use crate::replies::replies_of;
use relay_disk::{Disk, FileDisk};
use relay_listing::row_in;
use relay_log::{Counters, LastReplies};
use relay_loop::Relay;
use relay_node::Node;
use relay_page::{
    History, Kind, MOST_LISTED, Mark, Survey, Target, Totals, View, Waiting, page_text, push_cut,
    push_listed,
};
use relay_trace::Moment;
use std::alloc::{AllocError, Global};

/// How many of the recipients with the longest wait the page shows.
const MOST_OLDEST: usize = 20;

/// The connections of a relay.
#[derive(Clone, Copy)]
pub struct Connections<'a> {
    /// How many clients are connected, of at most 64.
    pub sessions: u64,
    /// How many attempts are running, of at most 64.
    pub attempts: u64,
    /// The last reply of each next hop.
    pub replies: &'a LastReplies,
}

/// The state of a relay at some time.
#[derive(Drop)]
pub(crate) struct State<'a> {
    pub(crate) relay: &'a Relay<FileDisk>,
    pub(crate) connections: Connections<'a>,
    pub(crate) counters: &'a Counters,
    pub(crate) survey: &'a Survey,
    pub(crate) history: &'a History,
    /// When the relay began.
    pub(crate) since: Moment,
    /// When something was last added to the spool.
    pub(crate) appended: Option<Moment>,
    pub(crate) now: Moment,
}

/// Returns the requested text, and its media type. Fails if memory runs out.
pub(crate) fn text_of(
    alloc: Global,
    target: Target,
    state: &State<'_>,
) -> Result<(Kind, Vec<u8>), AllocError>
    ensures queue { target ≡ Target.Queue → IfOk result (λ answer. (answer.0 ≡ Kind.JsonLines) × (answer.1.items
        ≡ listing state.entry.now.now state.entry.now.relay.now.node.config.routes
        state.entry.now.relay.now.node.records.queue state.entry.now.survey.now.marks.items)) }
{
    match target {
        Target::Page => Ok((Kind::Html, page_of(alloc, state)?)),
        Target::Metrics => Ok((Kind::Metrics, metrics_of(alloc, state)?)),
        Target::Queue => {
            let (node, marks) = (state.relay.node(), state.survey.marks());
            Ok((Kind::JsonLines, list_of(alloc, node, marks, state.now)?))
        }
    }
}

fn page_of(alloc: Global, state: &State<'_>) -> Result<Vec<u8>, AllocError> {
    let node = state.relay.node();
    let counters = state.counters;
    let oldest = oldest_of(alloc, state)?;
    let replies = replies_of(alloc, state.connections.replies, state.survey.loads())?;
    let view = View {
        host: node.config().host.as_slice(),
        now: state.now,
        since: state.since,
        totals: Totals {
            accepted: counters.accepted,
            rejected: rejections(counters),
            sent: counters.sent,
            deferred: counters.deferred,
            failed: counters.failed.saturating_add(counters.expired),
        },
        spool_size: node.size() as u64,
        spool_limit: node.config().spool_limit,
        loads: state.survey.loads(),
        replies: replies.as_slice(),
        recipients: state.survey.marks().len() as u64,
        sessions: state.connections.sessions,
        attempts: state.connections.attempts,
        oldest: oldest.as_slice(),
        history: state.history,
    };
    page_text(alloc, &view)
}

/// Returns the recipients with the longest wait: the first of the queue.
fn oldest_of<'a>(alloc: Global, state: &State<'a>) -> Result<Vec<Waiting<'a>>, AllocError> {
    let mut all = Vec::new(alloc);
    let marks = state.survey.marks();
    for index in 0..marks.len().min(MOST_OLDEST) {
        let (number, place) = marks[index];
        if let Some(waiting) = waiting_at(state.relay, number, place) {
            all.push(waiting)?;
        }
    }
    Ok(all)
}

/// Returns the recipient at a place of the message of this number, if it is queued.
fn waiting_at(relay: &Relay<FileDisk>, number: u64, place: u8) -> Option<Waiting<'_>> {
    let node = relay.node();
    let message = node.message(number)?;
    match row_in(&node.config().routes, number, place, message) {
        Some(row) => Some(Waiting {
            number,
            accepted: row.accepted.seconds(),
            reverse_path: row.reverse_path,
            path: row.path,
            tries: row.tries,
            due: row.due,
        }),
        None => None,
    }
}

/// Returns the first recipients of the queue as JSON, with a last line if the list is cut.
fn list_of<D: Disk>(
    alloc: Global,
    node: &Node<D>,
    marks: &[Mark],
    now: Moment,
) -> Result<Vec<u8>, AllocError>
    ensures { IfOk result (λ text. text.items
        ≡ listing now node.now.config.routes node.now.records.queue marks.now) }
{
    let mut text = Vec::new(alloc);
    let listed = MOST_LISTED.min(marks.len());
    push_lines(alloc, &mut text, node, &marks[..listed], now)?;
    if listed < marks.len() {
        push_cut(&mut text, listed as u64, marks.len() as u64)?;
    }
    Ok(text)
}

/// Adds the lines of these recipients, as far as they are queued.
fn push_lines<D: Disk>(
    alloc: Global,
    text: &mut Vec<u8>,
    node: &Node<D>,
    marks: &[Mark],
    now: Moment,
) -> Result<(), AllocError>
    ensures { OnOk result (text.new.items
        ≡ text.old.items ++ lines_of now node.now.config.routes node.now.records.queue marks.now) }
{
    for mark in marks {
        push_line(alloc, text, node, *mark, now)?;
    }
    Ok(())
}

/// Adds the line of a recipient, if it is queued.
fn push_line<D: Disk>(
    alloc: Global,
    text: &mut Vec<u8>,
    node: &Node<D>,
    mark: Mark,
    now: Moment,
) -> Result<(), AllocError>
    ensures { OnOk result (text.new.items
        ≡ text.old.items ++ object_at now node.now.config.routes node.now.records.queue mark) }
{
    match node.message(mark.0) {
        Some(message) => {
            let routes = &node.config().routes;
            push_listed(alloc, text, routes, mark.0, mark.1, message, now)
        }
        None => Ok(()),
    }
}
