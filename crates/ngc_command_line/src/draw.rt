//! `ngc draw`.

ghost use Rattle.std.specs.Prelude.{◌≡◌, Some};
ghost use Rattle.clap.specs.Words.{found_of, rows_of};
ghost use Rattle.ngc_command_line.specs.Meant.{AreDrawOptions, HasDrawValues, changes_in};

use crate::arguments::{
    DELETE, DIALECT, FIXTURE, MARGIN, ORIGIN, PROGRAM, RAPIDS, REQUIRED_MACHINE, REQUIRED_TOOLS,
    STOCK, TRAVEL_MARGIN, flag_is_set, help_end, required,
};
use crate::options::DrawOptions;
use crate::report::cells_of;
use crate::table::{Argument, SubcommandRow, Takes};
use clap::ArgMatches;
use ngc_margins::Changes;

const VIEW: Argument<'static> = Argument {
    name: "view",
    is_named: true,
    is_required: false,
    takes: Takes::Text("VIEW"),
    help: "From where to look: top, front, side or iso\n[default: top]",
};

const CERTIFICATE: Argument<'static> = Argument {
    name: "certificate",
    is_named: true,
    is_required: false,
    takes: Takes::Text("FILE"),
    help: "Certificate to check, as `ngc certify` prints it\n[default: try to make one]",
};

const BODIES: Argument<'static> = Argument {
    name: "bodies",
    is_named: true,
    is_required: false,
    takes: Takes::Nothing,
    help: "Draw also the rectangles that the tool fills\nover the boxes of the certificate",
};

const WHOLE: Argument<'static> = Argument {
    name: "whole",
    is_named: true,
    is_required: false,
    takes: Takes::Nothing,
    help: "Show the whole travel, also where it is more than\nthree times larger than fixtures and path",
};

const MAP: Argument<'static> = Argument {
    name: "map",
    is_named: true,
    is_required: false,
    takes: Takes::Nothing,
    help: "Print a PNG picture of the heights that are left of\nthe material, red where a motion may touch it; ignore\n--view, --bodies, --whole and --certificate",
};

const MAP_CELLS: Argument<'static> = Argument {
    name: "cells",
    is_named: true,
    is_required: false,
    takes: Takes::Number("N", 1, 4_000_000),
    help: "Most cells of the map, 1 to 4000000\n[default: 250000]",
};

pub(crate) static DRAW: SubcommandRow<'static> = SubcommandRow {
    name: "draw",
    about: "Draw a part program, its fixtures and its travel as an SVG picture",
    help_end: help_end!(
        program "  ngc draw --program examples/slot.ngc \\
    --machine examples/clamped_mill.toml --tools examples/tools.toml > slot.svg"
    ),
    arguments: &[
        REQUIRED_MACHINE,
        REQUIRED_TOOLS,
        CERTIFICATE,
        PROGRAM,
        VIEW,
        DELETE,
        BODIES,
        WHOLE,
        MAP,
        ORIGIN,
        FIXTURE,
        STOCK,
        MAP_CELLS,
        MARGIN,
        TRAVEL_MARGIN,
        RAPIDS,
        DIALECT,
    ],
};

pub(crate) fn draw_options<'a>(found: &ArgMatches<'a>, changes: Changes) -> DrawOptions<'a>
    requires values { HasDrawValues (rows_of (found_of found.now)) }
    requires changes { changes_in (rows_of (found_of found.now)) ≡ Some changes }
    ensures { AreDrawOptions (rows_of (found_of found.now)) result }
{
    DrawOptions {
        machine: required(found, "machine"),
        tools: required(found, "tools"),
        certificate: found.get_str("certificate"),
        program: found.get_str("program"),
        view: found.get_str("view"),
        delete: flag_is_set(found, "delete"),
        bodies: flag_is_set(found, "bodies"),
        whole: flag_is_set(found, "whole"),
        map: flag_is_set(found, "map"),
        cells: cells_of(found),
        changes,
        dialect: found.get_str("dialect"),
    }
}
