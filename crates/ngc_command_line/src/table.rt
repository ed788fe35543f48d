//! How a command is built from a row of the table.

ghost use Rattle.std.specs.Prelude.{◌≡◌, IfOk, fold, map};
ghost use Rattle.clap.specs.Words.{app_of, new_app, rule_of, with_rule};
ghost use Rattle.ngc_command_line.specs.Rows.{app_for, rule_for, taking};

use clap::builder::ValueParser;
use clap::{Arg, ArgAction, Command};
use std::alloc::{AllocError, Global};

// The values of an argument. Help shows the text as the value's name.
pub(crate) enum Takes<'a> {
    Nothing,
    Text(&'a str),
    // A text each time that the argument is written.
    Texts(&'a str),
    // A number within these bounds.
    Number(&'a str, u64, u64),
}

// An argument of a command, and its text in the help.
pub(crate) struct Argument<'a> {
    pub name: &'a str,
    // Whether its value follows `--` and its name.
    pub is_named: bool,
    pub is_required: bool,
    pub takes: Takes<'a>,
    pub help: &'a str,
}

// A subcommand of the program, and its text in the help.
pub(crate) struct SubcommandRow<'a> {
    pub name: &'a str,
    pub about: &'a str,
    pub help_end: &'a str,
    pub arguments: &'a [Argument<'a>],
}

fn taking<'a>(arg: Arg<'a>, takes: &Takes<'a>) -> Arg<'a>
    ensures { rule_of result ≡ taking takes.now (rule_of arg.entry) }
{
    match takes {
        Takes::Nothing => arg.action(ArgAction::SetTrue),
        Takes::Text(value) => arg.action(ArgAction::Set).value_name(value),
        Takes::Texts(value) => arg.action(ArgAction::Append).value_name(value),
        Takes::Number(value, least, most) => arg
            .action(ArgAction::Set)
            .value_name(value)
            .value_parser(ValueParser::unsigned(*least, *most)),
    }
}

fn build_argument<'a>(alloc: Global, argument: &Argument<'a>) -> Arg<'a>
    ensures { rule_of result ≡ rule_for argument.now }
{
    let bare = Arg::new(alloc, argument.name)
        .help(argument.help)
        .required(argument.is_required);
    if argument.is_named {
        taking(bare.long(argument.name), &argument.takes)
    } else {
        taking(bare, &argument.takes)
    }
}

fn with_arguments<'a>(
    alloc: Global,
    command: Command<'a>,
    arguments: &[Argument<'a>],
) -> Result<Command<'a>, AllocError>
    ensures { IfOk result
        (λ c. app_of c ≡ fold with_rule (app_of command.entry) (map rule_for arguments.now)) }
{
    let mut command = command;
    for argument in arguments {
        command = command.arg(build_argument(alloc, argument))?;
    }
    Ok(command)
}

// Returns a command with no arguments yet.
pub(crate) fn bare_command<'a>(
    alloc: Global,
    name: &'a str,
    about: &'a str,
    help_end: &'a str,
) -> Command<'a>
    ensures { app_of result ≡ new_app name.entry.now }
{
    Command::new(alloc, name).about(about).after_help(help_end)
}

pub(crate) fn build_subcommand<'a>(
    alloc: Global,
    row: &SubcommandRow<'a>,
) -> Result<Command<'a>, AllocError>
    ensures { IfOk result (λ c. app_of c ≡ app_for row.now) }
{
    let bare = bare_command(alloc, row.name, row.about, row.help_end);
    with_arguments(alloc, bare, row.arguments)
}
