//! The arguments of the subcommands that steer a running relay.
ghost use Rattle.std.specs.Prelude.{◌≡◌, option_map};
ghost use Rattle.std.specs.Option.{option_map_or};
ghost use Rattle.clap.specs.Words.{found_of, rows_of};
ghost use Rattle.relay_arguments.specs.Arguments.{drain_asked, flush_asked, hold_asked, mail_in, mail_value};
ghost use Rattle.relay_arguments.specs.Arguments.{named_mail_in, names_mail, release_asked, reload_asked};
ghost use Rattle.relay_arguments.specs.Arguments.{seconds_in, steering_by, streams_asked, task_value};

use crate::looks::{is_some_text, message_number, text_of};
use crate::tasks::{Control, Task};
use crate::withdrawing::withdrawing_named;
use crate::words::{config_or_default, number_of};
use clap::ArgMatches;

/// The most seconds that a drain may take.
pub(crate) const MOST_SECONDS: u64 = 65_535;

/// How many seconds a drain may take by default.
const DRAIN_SECONDS: u16 = 60;

/// Which queued mail a request is about.
#[derive(Clone, Copy, Drop)]
pub enum Mail<'a> {
    /// The mail of the next hop of this name.
    Hop(&'a str),
    /// The message of this number.
    Message(u64),
}

/// A request to a running relay.
#[derive(Clone, Copy, Drop)]
pub enum Steering<'a> {
    /// Try this mail now, or all queued mail.
    Flush(Option<Mail<'a>>),
    /// Begin no attempt for this mail.
    Hold(Mail<'a>),
    /// Begin attempts for this mail again.
    Release(Mail<'a>),
    /// Stop when all attempts have ended, or after this many seconds.
    Drain(u16),
    /// Read the configuration again, and serve by it.
    Reload,
}

/// Returns the task of this name, if it is one that steers a running relay, or one of [`withdrawing_named`].
pub(crate) fn steering_named<'a>(name: &str, matches: &ArgMatches<'a>) -> Option<Task<'a>>
    ensures { option_map_or task_value result (streams_asked name.now)
        ≡ steering_by name.now (rows_of (found_of matches.now)) }
{
    match name {
        "flush" => Some(flush_asked(matches)),
        "hold" => Some(hold_asked(matches)),
        "release" => Some(release_asked(matches)),
        "drain" => Some(drain_asked(matches)),
        "reload" => Some(reload_asked(matches)),
        _ => withdrawing_named(name, matches),
    }
}

/// Returns the subcommand `flush`.
fn flush_asked<'a>(matches: &ArgMatches<'a>) -> Task<'a>
    ensures { task_value result ≡ flush_asked (rows_of (found_of matches.now)) }
{
    Task::Control(Control::Steer {
        file: config_or_default(matches),
        asked: Steering::Flush(named_mail(matches)),
    })
}

/// Returns the subcommand `hold`.
fn hold_asked<'a>(matches: &ArgMatches<'a>) -> Task<'a>
    ensures { task_value result ≡ hold_asked (rows_of (found_of matches.now)) }
{
    Task::Control(Control::Steer {
        file: config_or_default(matches),
        asked: Steering::Hold(mail_given(matches)),
    })
}

/// Returns the subcommand `release`.
fn release_asked<'a>(matches: &ArgMatches<'a>) -> Task<'a>
    ensures { task_value result ≡ release_asked (rows_of (found_of matches.now)) }
{
    Task::Control(Control::Steer {
        file: config_or_default(matches),
        asked: Steering::Release(mail_given(matches)),
    })
}

/// Returns the subcommand `drain`.
fn drain_asked<'a>(matches: &ArgMatches<'a>) -> Task<'a>
    ensures { task_value result ≡ drain_asked (rows_of (found_of matches.now)) }
{
    Task::Control(Control::Steer {
        file: config_or_default(matches),
        asked: Steering::Drain(seconds(matches)),
    })
}

/// Returns the subcommand `reload`.
fn reload_asked<'a>(matches: &ArgMatches<'a>) -> Task<'a>
    ensures { task_value result ≡ reload_asked (rows_of (found_of matches.now)) }
{
    Task::Control(Control::Steer {
        file: config_or_default(matches),
        asked: Steering::Reload,
    })
}

/// Returns whether a next hop or a message is named.
pub(crate) fn names_mail(matches: &ArgMatches<'_>) -> bool
    ensures { result ≡ names_mail (rows_of (found_of matches.now)) }
{
    is_some_text(matches, "hop") || is_some_text(matches, "message")
}

/// Returns the mail that is named, if any is.
fn named_mail<'a>(matches: &ArgMatches<'a>) -> Option<Mail<'a>>
    ensures { option_map mail_value result ≡ named_mail_in (rows_of (found_of matches.now)) }
{
    if names_mail(matches) {
        Some(mail_given(matches))
    } else {
        None
    }
}

/// Returns the mail that is named; arguments that name none are refused.
fn mail_given<'a>(matches: &ArgMatches<'a>) -> Mail<'a>
    ensures { mail_value result ≡ mail_in (rows_of (found_of matches.now)) }
{
    match text_of(matches, "hop") {
        Some(name) => Mail::Hop(name),
        None => Mail::Message(message_number(matches, "message")),
    }
}

/// Returns the number of `--seconds`, 60 by default.
fn seconds(matches: &ArgMatches<'_>) -> u16
    ensures { result ≡ seconds_in (rows_of (found_of matches.now)) }
{
    match matches.get_str("seconds") {
        Some(text) => number_of(text, 0, MOST_SECONDS) as u16,
        None => DRAIN_SECONDS,
    }
}
