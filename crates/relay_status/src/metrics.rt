//! The metrics of a relay, in Prometheus' text exposition format.
use crate::metrics::Value::{Counter, Gauge};
use crate::texts::{Connections, State};
use relay_log::Counters;
use relay_page::{Course, push_alone, push_head, push_labelled, push_loads};
use relay_trace::Moment;
use std::alloc::{AllocError, Global};

/// A metric with one sample and no label.
#[derive(Clone, Copy)]
struct Metric {
    name: &'static [u8],
    help: &'static [u8],
    value: Value,
}

/// What a metric's sample says.
#[derive(Clone, Copy)]
enum Value {
    /// What only rises, from 0 at the relay's start.
    Counter(u64),
    /// What rises and falls.
    Gauge(u64),
}

/// Returns the metrics of a relay. Fails if memory runs out.
pub(crate) fn metrics_of(alloc: Global, state: &State<'_>) -> Result<Vec<u8>, AllocError> {
    let mut text = Vec::new(alloc);
    push_each(&mut text, &of_mail(state.counters))?;
    push_each(
        &mut text,
        &of_connections(state.counters, state.connections),
    )?;
    push_rejections(&mut text, state.counters)?;
    push_loads(&mut text, state.survey.loads(), state.now.seconds())?;
    push_each(&mut text, &of_spool(state))?;
    if let Some(appended) = state.appended {
        push_each(&mut text, &[last_append(appended)])?;
    }
    push_each(&mut text, &[start(state.since)])?;
    Ok(text)
}

/// Adds metrics, each with its sample.
fn push_each(text: &mut Vec<u8>, metrics: &[Metric]) -> Result<(), AllocError> {
    for metric in metrics {
        let (course, value) = match metric.value {
            Counter(value) => (Course::Counter, value),
            Gauge(value) => (Course::Gauge, value),
        };
        push_alone(text, metric.name, course, metric.help, value)?;
    }
    Ok(())
}

/// The metrics of mail.
fn of_mail(counters: &Counters) -> [Metric; 6] {
    [
        Metric {
            name: b"relayd_messages_accepted_total",
            help: b"Messages that were accepted.",
            value: Counter(counters.accepted),
        },
        Metric {
            name: b"relayd_recipients_sent_total",
            help: b"Recipients that a next hop has taken.",
            value: Counter(counters.sent),
        },
        Metric {
            name: b"relayd_recipients_deferred_total",
            help: b"Recipients that an attempt left in the queue, once for each attempt.",
            value: Counter(counters.deferred),
        },
        Metric {
            name: b"relayd_recipients_failed_total",
            help: b"Recipients that a next hop has refused, or to which no route leads.",
            value: Counter(counters.failed),
        },
        Metric {
            name: b"relayd_recipients_expired_total",
            help: b"Recipients that were given up because their message was too old.",
            value: Counter(counters.expired),
        },
        Metric {
            name: b"relayd_reports_queued_total",
            help: b"Delivery status notifications that were queued.",
            value: Counter(counters.reports),
        },
    ]
}

/// The metrics of connections: how many there were, and how many there are.
fn of_connections(counters: &Counters, connections: Connections<'_>) -> [Metric; 6] {
    [
        Metric {
            name: b"relayd_connections_total",
            help: b"Client connections that were served.",
            value: Counter(counters.connections),
        },
        Metric {
            name: b"relayd_connections_turned_away_total",
            help: b"Client connections for which there was no room.",
            value: Counter(counters.turned_away),
        },
        Metric {
            name: b"relayd_connections_timed_out_total",
            help: b"Client connections that were cut off after a silence.",
            value: Counter(counters.timeouts),
        },
        Metric {
            name: b"relayd_hop_holds_total",
            help: b"How often a next hop was left alone because it could not be reached.",
            value: Counter(counters.holds),
        },
        Metric {
            name: b"relayd_sessions",
            help: b"Clients that are connected, 64 at most.",
            value: Gauge(connections.sessions),
        },
        Metric {
            name: b"relayd_attempts_running",
            help: b"Attempts that run, each with a connection to a next hop, 64 at most.",
            value: Gauge(connections.attempts),
        },
    ]
}

/// The metrics of the spool and its device.
fn of_spool(state: &State<'_>) -> [Metric; 4] {
    let node = state.relay.node();
    [
        Metric {
            name: b"relayd_spool_bytes",
            help: b"Octets of the spool file in use.",
            value: Gauge(node.size() as u64),
        },
        Metric {
            name: b"relayd_spool_limit_bytes",
            help: b"Octets that the spool file may take.",
            value: Gauge(node.config().spool_limit),
        },
        Metric {
            name: b"relayd_spool_compactions_total",
            help: b"How often the spool was compacted.",
            value: Counter(state.counters.compactions),
        },
        Metric {
            name: b"relayd_device_failures_total",
            help: b"How often the device of the spool failed.",
            value: Counter(state.counters.device_failures),
        },
    ]
}

fn last_append(appended: Moment) -> Metric {
    Metric {
        name: b"relayd_last_append_timestamp_seconds",
        help: b"Time at which something was added to the spool last.",
        value: Gauge(appended.seconds()),
    }
}

fn start(since: Moment) -> Metric {
    Metric {
        name: b"relayd_start_timestamp_seconds",
        help: b"Time at which the relay began.",
        value: Gauge(since.seconds()),
    }
}

/// Adds the refusals by cause.
fn push_rejections(text: &mut Vec<u8>, counters: &Counters) -> Result<(), AllocError> {
    let name = b"relayd_rejections_total";
    let help = b"Replies to clients that refused something, by cause.";
    push_head(text, name, Course::Counter, help)?;
    for (cause, count) in rejections_by_cause(counters) {
        push_labelled(text, name, b"cause", cause, count)?;
    }
    Ok(())
}

/// Returns how many commands and mail data were refused.
pub(crate) fn rejections(counters: &Counters) -> u64 {
    let mut sum: u64 = 0;
    for (_cause, count) in rejections_by_cause(counters) {
        sum = sum.saturating_add(count);
    }
    sum
}

/// Returns how many commands, mail data and connections were refused, by reply code and cause.
fn rejections_by_cause(counters: &Counters) -> [(&'static [u8], u64); 11] {
    let rejected = counters.rejected;
    [
        (b"no_route", rejected.no_route),
        (b"routed_address", rejected.routed_address),
        (b"spool_full", rejected.spool_full),
        (b"too_many_recipients", rejected.too_many_recipients),
        (b"too_large", rejected.too_large),
        (b"bad_content", rejected.bad_content),
        (b"bad_sequence", rejected.bad_sequence),
        (b"syntax", rejected.syntax),
        (b"not_offered", rejected.not_offered),
        (b"closing", rejected.closing),
        (b"no_service", rejected.no_service),
    ]
}
