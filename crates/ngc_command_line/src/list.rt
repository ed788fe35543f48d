//! `ngc list`.

ghost use Rattle.std.specs.Prelude.{◌≡◌, Some};
ghost use Rattle.clap.specs.Words.{found_of, rows_of};
ghost use Rattle.ngc_command_line.specs.Meant.{AreListOptions, changes_in};

use crate::ListOptions;
use crate::arguments::{DELETE, DIALECT, ORIGIN, PROGRAM, flag_is_set, help_end};
use crate::table::{Argument, SubcommandRow, Takes};
use clap::ArgMatches;
use ngc_margins::Changes;

const MACHINE: Argument<'static> = Argument {
    name: "machine",
    is_named: true,
    is_required: false,
    takes: Takes::Text("FILE"),
    help: "Machine file in TOML: its step, start, home points\nand origins [default: a built-in small mill]",
};

const TOOLS: Argument<'static> = Argument {
    name: "tools",
    is_named: true,
    is_required: false,
    takes: Takes::Text("FILE"),
    help: "Tool table in TOML: each tool's number, size and offset\n[default: no tools]",
};

pub(crate) static LIST: SubcommandRow<'static> = SubcommandRow {
    name: "list",
    about: "Print the commands of a part program, one a line",
    help_end: help_end!(program "  ngc list --program examples/facing.ngc"),
    arguments: &[PROGRAM, MACHINE, TOOLS, DELETE, ORIGIN, DIALECT],
};

pub(crate) fn list_options<'a>(found: &ArgMatches<'a>, changes: Changes) -> ListOptions<'a>
    requires { changes_in (rows_of (found_of found.now)) ≡ Some changes }
    ensures { AreListOptions (rows_of (found_of found.now)) result }
{
    ListOptions {
        program: found.get_str("program"),
        machine: found.get_str("machine"),
        tools: found.get_str("tools"),
        delete: flag_is_set(found, "delete"),
        changes,
        dialect: found.get_str("dialect"),
    }
}
