//! The grammar of the program's arguments: its subcommands and their options.
ghost use Rattle.std.specs.Prelude.{◌≡◌, map, IfOk};
ghost use Rattle.clap.specs.Words.{app_of};
ghost use Rattle.relay_arguments.specs.Arguments.{program_of, relayd, without_subcommands};
ghost use Rattle.relay_arguments.specs.Grammar.{shape_in};

use crate::syntax::{Syntax, subcommand};
use crate::table::SUBCOMMANDS;
use clap::Command;
use std::alloc::{AllocError, Global};

/// Returns the grammar of the program, whose version this is. Fails if memory runs out.
pub(crate) fn program<'a>(alloc: Global, version: &'a str) -> Result<Command<'a>, AllocError>
    ensures { IfOk result (λ command. app_of command ≡ relayd) }
{
    with_subcommands(alloc, version, &SUBCOMMANDS)
}

/// Returns the grammar of the program with these subcommands. Fails if memory runs out.
fn with_subcommands<'a>(
    alloc: Global,
    version: &'a str,
    table: &[Syntax],
) -> Result<Command<'a>, AllocError>
    ensures { IfOk result (λ command. app_of command ≡ program_of (map shape_in table.now)) }
{
    let mut command = without_subcommands(alloc, version);
    for syntax in table {
        command = command.subcommand(subcommand(alloc, syntax)?)?;
    }
    Ok(command)
}

/// Returns the grammar without subcommands, one of which is required.
fn without_subcommands<'a>(alloc: Global, version: &'a str) -> Command<'a>
    ensures { app_of result ≡ without_subcommands }
{
    Command::new(alloc, "relayd")
        .about("A store-and-forward SMTP relay")
        .version(version)
        .disable_help_subcommand(true)
        .subcommand_required(true)
}
