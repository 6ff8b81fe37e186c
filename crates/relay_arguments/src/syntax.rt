//! The syntax of a subcommand: its parameters, and what `--help` prints of them.
ghost use Rattle.std.specs.Prelude.{◌≡◌, false, IfOk};
ghost use Rattle.clap.specs.Words.{app_of, rule_of};
ghost use Rattle.relay_arguments.specs.Grammar.{alone, rule_in, shape_in, taking_rule_in};

use clap::builder::ValueParser;
use clap::{Arg, ArgAction, Command};
use std::alloc::{AllocError, Global};

/// A subcommand.
#[derive(Clone, Copy, Drop)]
pub(crate) struct Syntax {
    pub(crate) name: &'static str,
    /// What it does.
    pub(crate) about: &'static str,
    /// A line that shows a use of it.
    pub(crate) example: &'static str,
    pub(crate) parameters: &'static [Parameter],
}

/// A parameter of a subcommand.
#[derive(Clone, Copy, Drop)]
pub(crate) struct Parameter {
    /// Its name, by which its value is read. An option is given by it, as `--config`.
    pub(crate) name: &'static str,
    pub(crate) form: Form,
    pub(crate) takes: Takes,
    pub(crate) help: &'static str,
}

/// How a parameter is given.
#[derive(Clone, Copy, Drop)]
pub(crate) enum Form {
    /// By its name, as `--hop`, or not at all.
    Optional,
    /// By its name.
    Required,
    /// By its place.
    Positional,
}

/// What a parameter takes.
#[derive(Clone, Copy, Drop)]
pub(crate) enum Takes {
    /// No value.
    Nothing,
    /// Any value, which `--help` calls by this name.
    Text(&'static str),
    /// A number from the least to the most, which `--help` calls by this name.
    Number(&'static str, u64, u64),
}

/// Returns the grammar of a subcommand. Fails if memory runs out.
pub(crate) fn subcommand<'a>(alloc: Global, syntax: &Syntax) -> Result<Command<'a>, AllocError>
    ensures { IfOk result (λ command. app_of command ≡ alone (shape_in syntax.now)) }
{
    let mut command = Command::new(alloc, syntax.name)
        .about(syntax.about)
        .after_help(syntax.example);
    for parameter in syntax.parameters {
        command = command.arg(argument(alloc, parameter))?;
    }
    Ok(command)
}

/// Returns the argument that a parameter is.
fn argument<'a>(alloc: Global, parameter: &Parameter) -> Arg<'a>
    ensures rule { rule_of result ≡ rule_in parameter.now }
    ensures local { result.global ≡ false }
{
    let argument = taking(alloc, parameter);
    match parameter.form {
        Form::Optional => argument.long(parameter.name),
        Form::Required => argument.long(parameter.name).required(true),
        Form::Positional => argument.required(true),
    }
}

/// Returns an argument with the name, help and values of a parameter.
fn taking<'a>(alloc: Global, parameter: &Parameter) -> Arg<'a>
    ensures rule { rule_of result ≡ taking_rule_in parameter.now }
    ensures local { result.global ≡ false }
{
    let argument = Arg::new(alloc, parameter.name).help(parameter.help);
    match parameter.takes {
        Takes::Nothing => argument.action(ArgAction::SetTrue),
        Takes::Text(value) => argument.action(ArgAction::Set).value_name(value),
        Takes::Number(value, least, most) => argument
            .action(ArgAction::Set)
            .value_name(value)
            .value_parser(ValueParser::Unsigned(least, most)),
    }
}
