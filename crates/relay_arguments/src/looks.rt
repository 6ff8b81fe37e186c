//! The arguments of the subcommands that show the queue.
ghost use Rattle.std.specs.Prelude.{◌≡◌, is_some};
ghost use Rattle.std.specs.Option.{option_copied};
ghost use Rattle.clap.specs.Words.{first_of, found_of, rows_of};
ghost use Rattle.relay_arguments.specs.Arguments.{is_plain, list_asked, message_number_in, rows_asked_in};
ghost use Rattle.relay_arguments.specs.Arguments.{rows_value, show_asked, status_asked, task_value};

use crate::tasks::{Look, Task};
use crate::words::{config, config_or_default, is_given, number_of};
use clap::ArgMatches;

/// Which queued recipients are listed, and how.
#[derive(Clone, Copy, Drop)]
pub struct Listing<'a> {
    /// As JSON objects instead of a table.
    pub json: bool,
    /// Only those of this next hop.
    pub hop: Option<&'a str>,
    /// Only those of messages with this reverse path.
    pub from: Option<&'a str>,
    /// Only those with this forward path.
    pub to: Option<&'a str>,
    /// Only those of messages that are at least this old.
    pub older: Option<&'a str>,
}

/// Returns the subcommand `list`; with one of its options it is a listing.
pub(crate) fn list_asked<'a>(matches: &ArgMatches<'a>) -> Task<'a>
    ensures { task_value result ≡ list_asked (rows_of (found_of matches.now)) }
{
    let file = config(matches);
    let asked = rows_asked(matches);
    if is_plain(&asked) && !is_given(matches, "long") {
        Task::Look(Look::List(file))
    } else {
        Task::Look(Look::Listing { file, asked })
    }
}

/// Returns the subcommand `show`.
pub(crate) fn show_asked<'a>(matches: &ArgMatches<'a>) -> Task<'a>
    ensures { task_value result ≡ show_asked (rows_of (found_of matches.now)) }
{
    Task::Look(Look::Show {
        file: config_or_default(matches),
        number: message_number(matches, "number"),
        raw: is_given(matches, "raw"),
    })
}

/// Returns the subcommand `status`.
pub(crate) fn status_asked<'a>(matches: &ArgMatches<'a>) -> Task<'a>
    ensures { task_value result ≡ status_asked (rows_of (found_of matches.now)) }
{
    Task::Look(Look::Status {
        file: config_or_default(matches),
        prometheus: is_given(matches, "prometheus"),
    })
}

/// Returns which recipients are listed, and how.
fn rows_asked<'a>(matches: &ArgMatches<'a>) -> Listing<'a>
    ensures { rows_value result ≡ rows_asked_in (rows_of (found_of matches.now)) }
{
    Listing {
        json: is_given(matches, "json"),
        hop: text_of(matches, "hop"),
        from: text_of(matches, "from"),
        to: text_of(matches, "to"),
        older: text_of(matches, "older"),
    }
}

/// Returns whether a listing has no options.
fn is_plain(listing: &Listing<'_>) -> bool
    ensures { result ≡ is_plain (rows_value listing.now) }
{
    !listing.json
        && listing.hop.is_none()
        && listing.from.is_none()
        && listing.to.is_none()
        && listing.older.is_none()
}

/// Returns the value of an option, if it was given.
pub(crate) fn text_of<'a>(matches: &ArgMatches<'a>, option: &str) -> Option<&'a str>
    ensures { option_copied result ≡ first_of option.now (rows_of (found_of matches.now)) }
{
    matches.get_str(option)
}

/// Returns whether an option was given.
pub(crate) fn is_some_text(matches: &ArgMatches<'_>, option: &str) -> bool
    ensures { result ≡ is_some (first_of option.now (rows_of (found_of matches.now))) }
{
    matches.get_str(option).is_some()
}

/// Returns the number of the message that an argument names; arguments without one are refused.
pub(crate) fn message_number(matches: &ArgMatches<'_>, argument: &str) -> u64
    ensures { result ≡ message_number_in argument.now (rows_of (found_of matches.now)) }
{
    match matches.get_str(argument) {
        Some(text) => number_of(text, 1, u64::MAX),
        None => 1,
    }
}
