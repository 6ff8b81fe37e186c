//! What the argument parser can't refuse: mail that isn't named, or that is named twice.
ghost use Rattle.std.specs.Prelude.{◌≡◌, IfOk};
ghost use Rattle.clap.specs.Words.{found_of, kind_of, rows_of, subcommand_rows_of};
ghost use Rattle.relay_arguments.specs.Arguments.{choice_kinds, choice_kinds_by, kind_of_choice, kinds_of};
ghost use Rattle.relay_arguments.specs.Arguments.{mail_kinds, withdrawal_kinds};

use crate::grammar::program;
use crate::looks::is_some_text;
use crate::steering::names_mail;
use crate::withdrawing::chooses_mail;
use clap::error::ErrorKind;
use clap::{ArgMatches, Error};
use std::alloc::{AllocError, Global};

/// What is wrong with the mail that is named.
#[derive(Clone, Copy, Drop)]
pub(crate) enum ChoiceFault {
    /// Both a next hop and a message are named.
    Both,
    /// Neither a next hop nor a message is named.
    Neither,
    /// No option chooses mail to withdraw.
    Nothing,
}

impl ChoiceFault {
    /// Returns the kind of the error.
    fn kind(self) -> ErrorKind
        ensures { result ≡ kind_of_choice self }
    {
        match self {
            ChoiceFault::Both => ErrorKind::ArgumentConflict,
            ChoiceFault::Neither => ErrorKind::MissingRequiredArgument,
            ChoiceFault::Nothing => ErrorKind::MissingRequiredArgument,
        }
    }

    /// Returns the text of the error.
    fn text(self) -> &'static str {
        match self {
            ChoiceFault::Both => "--hop and --message cannot be used together",
            ChoiceFault::Neither => "name the mail by --hop or --message",
            ChoiceFault::Nothing => "choose the mail by --message, --hop, --from or --to",
        }
    }

    /// Returns the error, with the program's usage. Fails if memory runs out.
    pub(crate) fn error(self, alloc: Global) -> Result<Error, AllocError>
        ensures { IfOk result (λ error. kind_of error ≡ kind_of_choice self) }
    {
        let kind = self.kind();
        let text = self.text();
        // The usage doesn't show the version.
        program(alloc, "")?.error(kind, text)
    }
}

/// Returns what is wrong with the mail that the arguments name, if anything is.
pub(crate) fn choice_fault(matches: &ArgMatches<'_>) -> Option<ChoiceFault>
    ensures { kinds_of result ≡ choice_kinds (subcommand_rows_of matches.now) }
{
    match matches.subcommand() {
        Some((name, matches)) => choice_fault_of(name, matches),
        None => None,
    }
}

/// Returns what is wrong with the mail that the arguments of a subcommand name, if anything is.
fn choice_fault_of(name: &str, matches: &ArgMatches<'_>) -> Option<ChoiceFault>
    ensures { kinds_of result ≡ choice_kinds_by name.now (rows_of (found_of matches.now)) }
{
    match name {
        "flush" => mail_fault(matches, false),
        "hold" | "release" => mail_fault(matches, true),
        "return" | "discard" => withdrawal_fault(matches),
        _ => None,
    }
}

/// Returns what is wrong with the next hop and the message that are named; one of them must be if it is `needed`.
fn mail_fault(matches: &ArgMatches<'_>, needed: bool) -> Option<ChoiceFault>
    ensures { kinds_of result ≡ mail_kinds needed (rows_of (found_of matches.now)) }
{
    if is_some_text(matches, "hop") && is_some_text(matches, "message") {
        Some(ChoiceFault::Both)
    } else if needed && !names_mail(matches) {
        Some(ChoiceFault::Neither)
    } else {
        None
    }
}

/// Returns what is wrong with the options that choose mail to withdraw.
fn withdrawal_fault(matches: &ArgMatches<'_>) -> Option<ChoiceFault>
    ensures { kinds_of result ≡ withdrawal_kinds (rows_of (found_of matches.now)) }
{
    if chooses_mail(matches) {
        None
    } else {
        Some(ChoiceFault::Nothing)
    }
}
