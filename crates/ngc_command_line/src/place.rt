//! `ngc place`.

ghost use Rattle.std.specs.Prelude.{◌≡◌, Some};
ghost use Rattle.clap.specs.Words.{found_of, rows_of};
ghost use Rattle.ngc_command_line.specs.Meant.{ArePlaceOptions, HasPlaceValues, changes_in};

use crate::arguments::{
    CUTS, DIALECT, FIXTURE, MARGIN, ORIGIN, PROGRAM, RAPIDS, REQUIRED_MACHINE, REQUIRED_TOOLS,
    STOCK, TRAVEL_MARGIN, flag_is_set, help_end, required,
};
use crate::certify::cuts_of;
use crate::options::PlaceOptions;
use crate::report::JSON;
use crate::table::{Argument, SubcommandRow, Takes};
use clap::ArgMatches;
use ngc_margins::Changes;

const SYSTEM: Argument<'static> = Argument {
    name: "system",
    is_named: true,
    is_required: false,
    takes: Takes::Text("SYSTEM"),
    help: "Coordinate system whose origin is shifted: 54 to 59,\n59.1, 59.2 or 59.3 [default: 54]",
};

pub(crate) static PLACE: SubcommandRow<'static> = SubcommandRow {
    name: "place",
    about: "Find where the origin of a coordinate system may lie for a part program to fit",
    help_end: help_end!(
        program "  ngc place --program examples/slot.ngc \\
    --machine examples/clamped_mill.toml --tools examples/tools.toml"
    ),
    arguments: &[
        REQUIRED_MACHINE,
        REQUIRED_TOOLS,
        PROGRAM,
        SYSTEM,
        CUTS,
        JSON,
        ORIGIN,
        FIXTURE,
        STOCK,
        MARGIN,
        TRAVEL_MARGIN,
        RAPIDS,
        DIALECT,
    ],
};

pub(crate) fn place_options<'a>(found: &ArgMatches<'a>, changes: Changes) -> PlaceOptions<'a>
    requires values { HasPlaceValues (rows_of (found_of found.now)) }
    requires changes { changes_in (rows_of (found_of found.now)) ≡ Some changes }
    ensures { ArePlaceOptions (rows_of (found_of found.now)) result }
{
    PlaceOptions {
        machine: required(found, "machine"),
        tools: required(found, "tools"),
        program: found.get_str("program"),
        system: found.get_str("system"),
        cuts: cuts_of(found),
        json: flag_is_set(found, "json"),
        changes,
        dialect: found.get_str("dialect"),
    }
}
