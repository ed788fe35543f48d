//! The command `ngc`, with its subcommands.

ghost use Rattle.std.specs.Prelude.{◌≡◌, IfOk, fold, map};
ghost use Rattle.clap.specs.Words.{app_of, with_subcommand};
ghost use Rattle.ngc_command_line.specs.CommandLine.{ngc_app, ngc_settings};
ghost use Rattle.ngc_command_line.specs.Rows.{app_for, app_named, shape_named};

use crate::adapt::ADAPT;
use crate::arguments::help_end;
use crate::certify::CERTIFY;
use crate::check::CHECK;
use crate::draw::DRAW;
use crate::explain::EXPLAIN;
use crate::guide::{HELP, VERSION};
use crate::list::LIST;
use crate::live::LIVE;
use crate::machine::MACHINE;
use crate::place::PLACE;
use crate::report::REPORT;
use crate::run::{PULSES, RUN};
use crate::show::SHOW;
use crate::table::{SubcommandRow, bare_command, build_subcommand};
use clap::Command;
use std::alloc::{AllocError, Global};

enum Subcommand {
    List,
    Certify,
    Check,
    Run,
    Pulses,
    Live,
    Draw,
    Show,
    Report,
    Place,
    Adapt,
    Machine,
    Explain,
    Help,
    Version,
}

// In the order of the help.
const SUBCOMMANDS: [Subcommand; 15] = [
    Subcommand::List,
    Subcommand::Certify,
    Subcommand::Check,
    Subcommand::Run,
    Subcommand::Pulses,
    Subcommand::Live,
    Subcommand::Draw,
    Subcommand::Show,
    Subcommand::Report,
    Subcommand::Place,
    Subcommand::Adapt,
    Subcommand::Machine,
    Subcommand::Explain,
    Subcommand::Help,
    Subcommand::Version,
];

// Returns a row by its name. One table of all the rows would be a constant that takes minutes to
// prove.
fn row_named(subcommand: &Subcommand) -> &'static SubcommandRow<'static>
    ensures { app_for result.now ≡ app_named subcommand.now }
{
    match subcommand {
        Subcommand::List => &LIST,
        Subcommand::Certify => &CERTIFY,
        Subcommand::Check => &CHECK,
        Subcommand::Run => &RUN,
        Subcommand::Pulses => &PULSES,
        Subcommand::Live => &LIVE,
        Subcommand::Draw => &DRAW,
        Subcommand::Show => &SHOW,
        Subcommand::Report => &REPORT,
        Subcommand::Place => &PLACE,
        Subcommand::Adapt => &ADAPT,
        Subcommand::Machine => &MACHINE,
        Subcommand::Explain => &EXPLAIN,
        Subcommand::Help => &HELP,
        Subcommand::Version => &VERSION,
    }
}

// Returns the program's own settings, with no subcommand yet.
fn without_subcommands<'a>(alloc: Global) -> Result<Command<'a>, AllocError>
    ensures { IfOk result (λ c. app_of c ≡ ngc_settings) }
{
    bare_command(
        alloc,
        "ngc",
        "List, certify, check, run and draw part programs in RS274/NGC",
        help_end!("  ngc list --program examples/facing.ngc"),
    )
    .no_binary_name(true)
    .subcommand_required(true)
    .disable_help_subcommand(true)
    .bin_name("ngc")
}

fn with_subcommands<'a>(
    alloc: Global,
    command: Command<'a>,
    subcommands: &[Subcommand],
) -> Result<Command<'a>, AllocError>
    ensures { IfOk result
        (λ c. app_of c ≡ fold with_subcommand (app_of command.entry)
        (map shape_named subcommands.now)) }
{
    let mut command = command;
    for subcommand in subcommands {
        command = command.subcommand(build_subcommand(alloc, row_named(subcommand))?)?;
    }
    Ok(command)
}

pub(crate) fn ngc_command<'a>(alloc: Global) -> Result<Command<'a>, AllocError>
    ensures { IfOk result (λ c. app_of c ≡ ngc_app) }
{
    with_subcommands(alloc, without_subcommands(alloc)?, &SUBCOMMANDS)
}
