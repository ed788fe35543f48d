//! `ngc adapt`.

ghost use Rattle.clap.specs.Words.{found_of, rows_of};
ghost use Rattle.ngc_command_line.specs.Meant.{AreAdaptOptions, HasAdaptValues};

use crate::arguments::{DELETE, PROGRAM, flag_is_set, help_end, required};
use crate::options::AdaptOptions;
use crate::table::{Argument, SubcommandRow, Takes};
use clap::ArgMatches;

const FROM: Argument<'static> = Argument {
    name: "from",
    is_named: true,
    is_required: true,
    takes: Takes::Text("CONTROL"),
    help: "Control that the part program is written for:\nlinuxcnc, grbl, mach3 or fanuc; also `--dialect`",
};

const MACHINE: Argument<'static> = Argument {
    name: "machine",
    is_named: true,
    is_required: false,
    takes: Takes::Text("FILE"),
    help: "Machine file in TOML: its step, start, home points\nand origins [default: a built-in small mill]",
};

const TOOLS: Argument<'static> = Argument {
    name: "tools",
    is_named: true,
    is_required: false,
    takes: Takes::Text("FILE"),
    help: "Tool table in TOML: each tool's number, size and offset\n[default: no tools]",
};

pub(crate) static ADAPT: SubcommandRow<'static> = SubcommandRow {
    name: "adapt",
    about: "Print a part program for another control as one for this",
    help_end: help_end!(program "  ngc adapt --from grbl --program part.nc > part.ngc"),
    arguments: &[FROM, MACHINE, TOOLS, PROGRAM, DELETE],
};

pub(crate) fn adapt_options<'a>(found: &ArgMatches<'a>) -> AdaptOptions<'a>
    requires { HasAdaptValues (rows_of (found_of found.now)) }
    ensures { AreAdaptOptions (rows_of (found_of found.now)) result }
{
    AdaptOptions {
        from: required(found, "from"),
        machine: found.get_str("machine"),
        tools: found.get_str("tools"),
        program: found.get_str("program"),
        delete: flag_is_set(found, "delete"),
    }
}
