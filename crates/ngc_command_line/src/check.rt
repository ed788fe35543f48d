//! `ngc check`.

ghost use Rattle.std.specs.Prelude.{◌≡◌, Some};
ghost use Rattle.clap.specs.Words.{found_of, rows_of};
ghost use Rattle.ngc_command_line.specs.Meant.{AreCheckOptions, HasCheckValues, changes_in};

use crate::CheckOptions;
use crate::arguments::{
    DIALECT, FIXTURE, MARGIN, ORIGIN, PROGRAM, RAPIDS, REQUIRED_CERTIFICATE, REQUIRED_MACHINE,
    REQUIRED_TOOLS, STOCK, TRAVEL_MARGIN, help_end, required,
};
use crate::table::SubcommandRow;
use clap::ArgMatches;
use ngc_margins::Changes;

pub(crate) static CHECK: SubcommandRow<'static> = SubcommandRow {
    name: "check",
    about: "Print `accepted` if the certificate holds for the part program",
    help_end: help_end!(
        program "  ngc check --program examples/slot.ngc --certificate slot.cert \\
    --machine examples/clamped_mill.toml --tools examples/tools.toml"
    ),
    arguments: &[
        REQUIRED_MACHINE,
        REQUIRED_TOOLS,
        REQUIRED_CERTIFICATE,
        PROGRAM,
        ORIGIN,
        FIXTURE,
        STOCK,
        MARGIN,
        TRAVEL_MARGIN,
        RAPIDS,
        DIALECT,
    ],
};

pub(crate) fn check_options<'a>(found: &ArgMatches<'a>, changes: Changes) -> CheckOptions<'a>
    requires values { HasCheckValues (rows_of (found_of found.now)) }
    requires changes { changes_in (rows_of (found_of found.now)) ≡ Some changes }
    ensures { AreCheckOptions (rows_of (found_of found.now)) result }
{
    CheckOptions {
        machine: required(found, "machine"),
        tools: required(found, "tools"),
        certificate: required(found, "certificate"),
        program: found.get_str("program"),
        changes,
        dialect: found.get_str("dialect"),
    }
}
