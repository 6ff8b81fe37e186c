//! Metrics in Prometheus' text exposition format, version 0.0.4.
ghost use Rattle.std.specs.Prelude.{◌≡◌, ◌++◌, ◌∷◌, [], OnOk, codes, decimal};
ghost use Rattle.relay_listing.specs.Load.{loads_in};
ghost use Rattle.relay_listing.specs.Metrics.{head_of, help_by_hop, kind_text, labelled_text, metric_by_hop};
ghost use Rattle.relay_listing.specs.Metrics.{metrics_by_hop, name_by_hop, sample_text, value_by_hop};

use crate::load::{Load, Loads};
use crate::pieces::{Piece, push_pieces};
use std::alloc::AllocError;

/// The type of a metric.
#[derive(Clone, Copy, Drop, PartialEq, Eq)]
pub enum Course {
    /// A value that only rises, from 0 at the relay's start.
    Counter,
    /// A value that rises and falls.
    Gauge,
}

impl Course {
    fn text(self) -> &'static [u8]
        ensures { result.now ≡ kind_text self }
    {
        match self {
            Course::Counter => b"counter",
            Course::Gauge => b"gauge",
        }
    }
}

/// Adds the lines before the samples of a metric.
pub fn push_head(
    text: &mut Vec<u8>,
    name: &'static [u8],
    course: Course,
    help: &'static [u8],
) -> Result<(), AllocError>
    ensures { OnOk result (text.new.items ≡ text.old.items ++ head_of name.now course help.now) }
{
    push_pieces(
        text,
        &[
            Piece::Markup(b"# HELP "),
            Piece::Markup(name),
            Piece::Markup(b" "),
            Piece::Markup(help),
            Piece::Markup(b"\n# TYPE "),
            Piece::Markup(name),
            Piece::Markup(b" "),
            Piece::Markup(course.text()),
            Piece::Markup(b"\n"),
        ],
    )
}

/// Adds a sample of a metric without labels.
pub fn push_sample(text: &mut Vec<u8>, name: &'static [u8], value: u64) -> Result<(), AllocError>
    ensures { OnOk result (text.new.items ≡ text.old.items ++ sample_text name.now value) }
{
    push_pieces(
        text,
        &[
            Piece::Markup(name),
            Piece::Markup(b" "),
            Piece::Number(value),
            Piece::Markup(b"\n"),
        ],
    )
}

/// Adds a sample of a metric with one label. The label's value is a host name or a word, in which no octet needs an
/// escape.
pub fn push_labelled(
    text: &mut Vec<u8>,
    name: &'static [u8],
    label: &'static [u8],
    of: &[u8],
    value: u64,
) -> Result<(), AllocError>
    ensures { OnOk result (text.new.items ≡ text.old.items ++ labelled_text name.now label.now of.now value) }
{
    push_pieces(
        text,
        &[
            Piece::Markup(name),
            Piece::Markup(b"{"),
            Piece::Markup(label),
            Piece::Markup(b"=\""),
            Piece::Text(of),
            Piece::Markup(b"\"} "),
            Piece::Number(value),
            Piece::Markup(b"\n"),
        ],
    )
}

/// Adds a metric with one sample and no label.
pub fn push_alone(
    text: &mut Vec<u8>,
    name: &'static [u8],
    course: Course,
    help: &'static [u8],
    value: u64,
) -> Result<(), AllocError>
    ensures { OnOk result (text.new.items
        ≡ text.old.items ++ (head_of name.now course help.now ++ sample_text name.now value)) }
{
    push_head(text, name, course, help)?;
    push_sample(text, name, value)
}

/// A metric of each next hop.
#[derive(Clone, Copy)]
enum ByHop {
    Messages,
    Recipients,
    Octets,
    OldestAge,
    NextTry,
}

/// Adds the gauges of each next hop, with its name as the label `hop`, which is empty for recipients without one.
pub fn push_loads(text: &mut Vec<u8>, loads: &Loads, now: u64) -> Result<(), AllocError>
    ensures { OnOk result (text.new.items ≡ text.old.items ++ metrics_by_hop now (loads_in loads.now.entries)) }
{
    push_by_hop(text, ByHop::Messages, loads, now)?;
    push_by_hop(text, ByHop::Recipients, loads, now)?;
    push_by_hop(text, ByHop::Octets, loads, now)?;
    push_by_hop(text, ByHop::OldestAge, loads, now)?;
    push_by_hop(text, ByHop::NextTry, loads, now)
}

fn push_by_hop(text: &mut Vec<u8>, metric: ByHop, loads: &Loads, now: u64) -> Result<(), AllocError>
    ensures { OnOk result (text.new.items ≡ text.old.items ++ metric_by_hop metric now (loads_in loads.now.entries)) }
{
    push_head(text, metric.name(), Course::Gauge, metric.help())?;
    for (hop, load) in loads.iter() {
        let value = metric.value(load, now);
        push_labelled(text, metric.name(), b"hop", hop.as_slice(), value)?;
    }
    Ok(())
}

impl ByHop {
    fn name(self) -> &'static [u8]
        ensures { result.now ≡ name_by_hop self }
    {
        match self {
            ByHop::Messages => b"relayd_queue_messages",
            ByHop::Recipients => b"relayd_queue_recipients",
            ByHop::Octets => b"relayd_queue_bytes",
            ByHop::OldestAge => b"relayd_queue_oldest_age_seconds",
            ByHop::NextTry => b"relayd_queue_next_try_timestamp_seconds",
        }
    }

    fn help(self) -> &'static [u8]
        ensures { result.now ≡ help_by_hop self }
    {
        match self {
            ByHop::Messages => b"Queued messages by next hop.",
            ByHop::Recipients => b"Queued recipients by next hop.",
            ByHop::Octets => b"Octets of queued messages by next hop.",
            ByHop::OldestAge => b"Age of the oldest queued message by next hop.",
            ByHop::NextTry => b"Time at which a recipient is due first, by next hop.",
        }
    }

    fn value(self, load: &Load, now: u64) -> u64
        ensures { result ≡ value_by_hop self now load.now }
    {
        match self {
            ByHop::Messages => load.messages,
            ByHop::Recipients => load.recipients,
            ByHop::Octets => load.octets,
            ByHop::OldestAge => now.saturating_sub(load.oldest),
            ByHop::NextTry => load.due,
        }
    }
}
