//! The arguments of the subcommands that withdraw queued mail or save it.
ghost use Rattle.std.specs.Prelude.{◌≡◌};
ghost use Rattle.std.specs.Option.{option_map_or};
ghost use Rattle.clap.specs.Words.{found_of, rows_of};
ghost use Rattle.relay_arguments.specs.Arguments.{chooses_mail, choice_in, choice_value, into_in, save_asked};
ghost use Rattle.relay_arguments.specs.Arguments.{streams_asked, task_value, withdraw_asked, withdrawing_by};

use crate::looks::{is_some_text, message_number, text_of};
use crate::tasks::{Control, Task};
use crate::words::{config_or_default, is_given};
use clap::ArgMatches;

/// How queued mail is withdrawn.
#[derive(Clone, Copy, Drop)]
pub enum Removal {
    /// It is returned to its reverse path, with a delivery status notification.
    Return,
    /// It ends without a notification.
    Discard,
}

/// Which queued mail is withdrawn: that which matches every option that is given, of which there is at least one.
#[derive(Clone, Copy, Drop)]
pub struct Choice<'a> {
    /// Only messages with these numbers, separated by commas.
    pub numbers: Option<&'a str>,
    /// Only recipients of this next hop.
    pub hop: Option<&'a str>,
    /// Only messages with this reverse path.
    pub from: Option<&'a str>,
    /// Only recipients with this forward path.
    pub to: Option<&'a str>,
}

/// Returns the task of this name, if it is one that withdraws mail or saves it.
pub(crate) fn withdrawing_named<'a>(name: &str, matches: &ArgMatches<'a>) -> Option<Task<'a>>
    ensures { option_map_or task_value result (streams_asked name.now)
        ≡ withdrawing_by name.now (rows_of (found_of matches.now)) }
{
    match name {
        "return" => Some(withdraw_asked(Removal::Return, matches)),
        "discard" => Some(withdraw_asked(Removal::Discard, matches)),
        "save" => Some(save_asked(matches)),
        _ => None,
    }
}

/// Returns the subcommand `return` or `discard`.
fn withdraw_asked<'a>(removal: Removal, matches: &ArgMatches<'a>) -> Task<'a>
    ensures { task_value result ≡ withdraw_asked removal (rows_of (found_of matches.now)) }
{
    Task::Control(Control::Withdraw {
        file: config_or_default(matches),
        removal,
        choice: choice_given(matches),
        folder: text_of(matches, "save"),
        yes: is_given(matches, "yes"),
    })
}

/// Returns the subcommand `save`.
fn save_asked<'a>(matches: &ArgMatches<'a>) -> Task<'a>
    ensures { task_value result ≡ save_asked (rows_of (found_of matches.now)) }
{
    Task::Control(Control::Save {
        file: config_or_default(matches),
        number: message_number(matches, "number"),
        into: into(matches),
    })
}

/// Returns whether an option chooses mail.
pub(crate) fn chooses_mail(matches: &ArgMatches<'_>) -> bool
    ensures { result ≡ chooses_mail (rows_of (found_of matches.now)) }
{
    is_some_text(matches, "message")
        || is_some_text(matches, "hop")
        || is_some_text(matches, "from")
        || is_some_text(matches, "to")
}

/// Returns which mail is withdrawn.
fn choice_given<'a>(matches: &ArgMatches<'a>) -> Choice<'a>
    ensures { choice_value result ≡ choice_in (rows_of (found_of matches.now)) }
{
    Choice {
        numbers: text_of(matches, "message"),
        hop: text_of(matches, "hop"),
        from: text_of(matches, "from"),
        to: text_of(matches, "to"),
    }
}

/// Returns the file that a message is saved to; the argument parser refuses arguments without one.
fn into<'a>(matches: &ArgMatches<'a>) -> &'a str
    ensures { result.now ≡ into_in (rows_of (found_of matches.now)) }
{
    matches.get_str("file").unwrap_or("")
}
