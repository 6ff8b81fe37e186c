ghost use Rattle.std.specs.Prelude.{◌≡◌, ◌≤◌, codes, map, option_map, IfOk};
ghost use Rattle.std.specs.Option.{option_map_or};
ghost use Rattle.clap.specs.Words.{FailsBy, first_of, found_of, rows_of, subcommand_rows_of};
ghost use Rattle.relay_arguments.specs.Arguments.{WordsAreTaken, asked, asked_by, asked_in, asked_of};
ghost use Rattle.relay_arguments.specs.Arguments.{check_asked, choice_kinds, config_in, config_or_default_in};
ghost use Rattle.relay_arguments.specs.Arguments.{faults_in, is_given_in};
ghost use Rattle.relay_arguments.specs.Arguments.{number_of, push_asked, relaying_by, rounds_in, run_asked};
ghost use Rattle.relay_arguments.specs.Arguments.{serve_asked, streams_asked, task_value, workers_in};

use crate::choices::choice_fault;
use crate::grammar::program;
use crate::looks::{list_asked, show_asked, status_asked};
use crate::steering::steering_named;
use crate::tasks::{Relaying, Task};
use clap::{ArgMatches, Error};
use std::alloc::Global;
use std::convert::AsStr;

/// What the program shall do.
#[derive(Clone, Copy, Drop)]
pub enum Subcommand<'a> {
    /// Run one session from standard input to standard output.
    Session,
    /// Play a script for 2 to 16 relays from standard input.
    Play,
    /// Work on the files of a configuration.
    Task(Task<'a>),
}

/// The configuration file of subcommands that need not be given one.
const DEFAULT_CONFIG: &str = "/etc/relayd.toml";

/// The most rounds of `serve`.
pub(crate) const MOST_ROUNDS: u64 = 1_000_000;

/// The most connections of one round.
pub(crate) const MOST_WORKERS: u64 = 64;

/// Reads the arguments, the first of which is the program's name. An error has a text for the user: what is wrong with
/// the arguments, or the help or the version that they ask for.
pub fn arguments<'a, S: AsStr>(
    alloc: Global,
    version: &'a str,
    words: &'a [S],
) -> Result<Subcommand<'a>, Error>
    ensures faults { FailsBy (faults_in (map S.text words.now)) result }
    ensures asked { IfOk result (λ subcommand. asked subcommand ≡ asked_in (map S.text words.now)) }
{
    let matches = program(alloc, version)?.try_get_matches_from(words)?;
    checked(alloc, &matches)
}

/// Returns the subcommand that was given. Fails if its mail is named wrongly, or if memory runs out.
fn checked<'a>(alloc: Global, matches: &ArgMatches<'a>) -> Result<Subcommand<'a>, Error>
    ensures faults { FailsBy (choice_kinds (subcommand_rows_of matches.now)) result }
    ensures asked { IfOk result (λ subcommand. asked subcommand ≡ asked_of (subcommand_rows_of matches.now)) }
{
    match choice_fault(matches) {
        Some(fault) => Err(fault.error(alloc)?),
        None => Ok(asked_for(matches)),
    }
}

/// Returns the subcommand that was given.
fn asked_for<'a>(matches: &ArgMatches<'a>) -> Subcommand<'a>
    ensures { asked result ≡ asked_of (subcommand_rows_of matches.now) }
{
    match matches.subcommand() {
        Some((name, matches)) => named(name, matches),
        None => Subcommand::Session,
    }
}

/// Returns the subcommand of this name.
fn named<'a>(name: &str, matches: &ArgMatches<'a>) -> Subcommand<'a>
    ensures { asked result ≡ asked_by name.now (rows_of (found_of matches.now)) }
{
    match task_named(name, matches) {
        Some(task) => Subcommand::Task(task),
        None if name == "play" => Subcommand::Play,
        None => Subcommand::Session,
    }
}

/// Returns the task of this name, if it is one.
fn task_named<'a>(name: &str, matches: &ArgMatches<'a>) -> Option<Task<'a>>
    ensures { option_map_or task_value result (streams_asked name.now)
        ≡ asked_by name.now (rows_of (found_of matches.now)) }
{
    match name {
        "init" => Some(Task::Init(config(matches))),
        "list" => Some(list_asked(matches)),
        "show" => Some(show_asked(matches)),
        "status" => Some(status_asked(matches)),
        "compact" => Some(Task::Compact(config(matches))),
        "check" => Some(check_asked(matches)),
        _ => relaying_named(name, matches),
    }
}

/// Returns the task of this name, if it is one that serves clients and relays mail, or one of [`steering_named`].
fn relaying_named<'a>(name: &str, matches: &ArgMatches<'a>) -> Option<Task<'a>>
    ensures { option_map_or task_value result (streams_asked name.now)
        ≡ relaying_by name.now (rows_of (found_of matches.now)) }
{
    match name {
        "run" => Some(run_asked(matches)),
        "serve" => Some(serve_asked(matches)),
        "push" => Some(push_asked(matches)),
        _ => steering_named(name, matches),
    }
}

/// Returns the subcommand `check`.
fn check_asked<'a>(matches: &ArgMatches<'a>) -> Task<'a>
    ensures { task_value result ≡ check_asked (rows_of (found_of matches.now)) }
{
    Task::Check {
        file: config_or_default(matches),
        route: route(matches),
    }
}

/// Returns the subcommand `run`.
fn run_asked<'a>(matches: &ArgMatches<'a>) -> Task<'a>
    ensures { task_value result ≡ run_asked (rows_of (found_of matches.now)) }
{
    Task::Relay(Relaying::Run {
        file: config_or_default(matches),
        quiet: is_given(matches, "quiet"),
    })
}

/// Returns the subcommand `serve`.
fn serve_asked<'a>(matches: &ArgMatches<'a>) -> Task<'a>
    ensures { task_value result ≡ serve_asked (rows_of (found_of matches.now)) }
{
    Task::Relay(Relaying::Serve {
        file: config(matches),
        rounds: rounds(matches),
        workers: workers(matches),
        log: is_given(matches, "log"),
    })
}

/// Returns the subcommand `push`.
fn push_asked<'a>(matches: &ArgMatches<'a>) -> Task<'a>
    ensures { task_value result ≡ push_asked (rows_of (found_of matches.now)) }
{
    Task::Relay(Relaying::Push {
        file: config(matches),
        log: is_given(matches, "log"),
    })
}

/// Returns the file of `--config`, which the argument parser requires.
pub(crate) fn config<'a>(matches: &ArgMatches<'a>) -> &'a str
    ensures { result.now ≡ config_in (rows_of (found_of matches.now)) }
{
    matches.get_str("config").unwrap_or("")
}

/// Returns the file of `--config`, or the default one.
pub(crate) fn config_or_default<'a>(matches: &ArgMatches<'a>) -> &'a str
    ensures { result.now ≡ config_or_default_in (rows_of (found_of matches.now)) }
{
    matches.get_str("config").unwrap_or(DEFAULT_CONFIG)
}

/// Returns the address of `--route`, if it was given.
fn route<'a>(matches: &ArgMatches<'a>) -> Option<&'a str>
    ensures { option_map (λ address. address.now) result
        ≡ first_of (codes "route") (rows_of (found_of matches.now)) }
{
    matches.get_str("route")
}

/// Returns the number of `--rounds`, 1 by default.
fn rounds(matches: &ArgMatches<'_>) -> u32
    ensures { result ≡ rounds_in (rows_of (found_of matches.now)) }
{
    match matches.get_str("rounds") {
        Some(text) => number_of(text, 1, MOST_ROUNDS) as u32,
        None => 1,
    }
}

/// Returns the number of `--workers`, 1 by default.
fn workers(matches: &ArgMatches<'_>) -> u8
    ensures { result ≡ workers_in (rows_of (found_of matches.now)) }
{
    match matches.get_str("workers") {
        Some(text) => number_of(text, 1, MOST_WORKERS) as u8,
        None => 1,
    }
}

/// Returns the number in a text, from `least` to `most`; the argument parser refuses other texts.
pub(crate) fn number_of(text: &str, least: u64, most: u64) -> u64
    requires { least ≤ most }
    ensures number { result ≡ number_of least most text.now }
    ensures within { result ≤ most }
{
    match text.parse::<u64>() {
        Ok(number) => {
            if number < least {
                least
            } else if most < number {
                least
            } else {
                number
            }
        }
        Err(_) => least,
    }
}

/// Returns whether the switch of this name was given.
pub(crate) fn is_given(matches: &ArgMatches<'_>, switch: &str) -> bool
    ensures { result ≡ is_given_in switch.now (rows_of (found_of matches.now)) }
{
    match matches.get_str(switch) {
        Some(text) => text == "true",
        None => false,
    }
}

/// A law about arguments, written out: what is wrong with them, and what they ask for.
pub fn words_are_taken()
    ensures { WordsAreTaken }
{}
