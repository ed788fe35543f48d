//! `ngc show`.

ghost use Rattle.clap.specs.Words.{found_of, rows_of};
ghost use Rattle.ngc_command_line.specs.Meant.{AreShowOptions, HasShowValues};

use crate::arguments::{REQUIRED_MACHINE, flag_is_set, help_end, required};
use crate::options::ShowOptions;
use crate::table::{Argument, SubcommandRow, Takes};
use clap::ArgMatches;

const TOOLS: Argument<'static> = Argument {
    name: "tools",
    is_named: true,
    is_required: false,
    takes: Takes::Text("FILE"),
    help: "Tool table in TOML [default: no tools]",
};

const WARNINGS: Argument<'static> = Argument {
    name: "warnings",
    is_named: true,
    is_required: false,
    takes: Takes::Nothing,
    help: "Print only the warnings [default: the whole sheet]",
};

pub(crate) static SHOW: SubcommandRow<'static> = SubcommandRow {
    name: "show",
    about: "Print a machine and its tools in millimetres, with warnings",
    help_end: help_end!(
        "  ngc show --machine examples/small_mill.toml --tools examples/tools.toml"
    ),
    arguments: &[REQUIRED_MACHINE, TOOLS, WARNINGS],
};

pub(crate) fn show_options<'a>(found: &ArgMatches<'a>) -> ShowOptions<'a>
    requires { HasShowValues (rows_of (found_of found.now)) }
    ensures { AreShowOptions (rows_of (found_of found.now)) result }
{
    ShowOptions {
        machine: required(found, "machine"),
        tools: found.get_str("tools"),
        warnings: flag_is_set(found, "warnings"),
    }
}
