//! `ngc report`.

ghost use Rattle.std.specs.Prelude.{◌≡◌, IfSome, Some, codes};
ghost use Rattle.clap.specs.Words.{IsUnsignedIn, first_of, found_of, rows_of};
ghost use Rattle.ngc_command_line.specs.Meant.{AreCells, AreReportOptions, HasReportValues};
ghost use Rattle.ngc_command_line.specs.Meant.{changes_in};

use crate::arguments::{
    CUTS, DIALECT, FIXTURE, MARGIN, ORIGIN, PROGRAM, RAPIDS, REQUIRED_MACHINE, REQUIRED_TOOLS,
    STOCK, TRAVEL_MARGIN, flag_is_set, help_end, required,
};
use crate::certify::cuts_of;
use crate::options::ReportOptions;
use crate::table::{Argument, SubcommandRow, Takes};
use clap::ArgMatches;
use ngc_margins::Changes;

const ALL: Argument<'static> = Argument {
    name: "all",
    is_named: true,
    is_required: false,
    takes: Takes::Nothing,
    help: "Where it doesn't fit, tell every command that\nis in the way, and not the first alone",
};

pub(crate) const JSON: Argument<'static> = Argument {
    name: "json",
    is_named: true,
    is_required: false,
    takes: Takes::Nothing,
    help: "Print the same facts as a JSON document",
};

const CELLS: Argument<'static> = Argument {
    name: "cells",
    is_named: true,
    is_required: false,
    takes: Takes::Number("N", 1, 4_000_000),
    help: "Most cells that the material is divided into, 1 to\n4000000: with more the margin is smaller\n[default: 250000]",
};

pub(crate) static REPORT: SubcommandRow<'static> = SubcommandRow {
    name: "report",
    about: "Tell whether a part program fits, and how long it takes",
    help_end: help_end!(
        program "  ngc report --program examples/slot.ngc \\
    --machine examples/clamped_mill.toml --tools examples/tools.toml"
    ),
    arguments: &[
        REQUIRED_MACHINE,
        REQUIRED_TOOLS,
        PROGRAM,
        CUTS,
        ALL,
        JSON,
        ORIGIN,
        FIXTURE,
        STOCK,
        CELLS,
        MARGIN,
        TRAVEL_MARGIN,
        RAPIDS,
        DIALECT,
    ],
};

fn cells_in(text: &str) -> u32
    requires { IsUnsignedIn 1 4000000 text.now }
    ensures { AreCells (Some text.now) (Some result) }
{
    match text.parse::<u32>() {
        Ok(cells) => cells,
        Err(_) => unreachable!(),
    }
}

// Returns the number of cells of the option `--cells`.
pub(crate) fn cells_of(found: &ArgMatches<'_>) -> Option<u32>
    requires { IfSome (first_of (codes "cells") (rows_of (found_of found.now)))
        (IsUnsignedIn 1 4000000) }
    ensures { AreCells (first_of (codes "cells") (rows_of (found_of found.now))) result }
{
    match found.get_str("cells") {
        Some(text) => Some(cells_in(text)),
        None => None,
    }
}

pub(crate) fn report_options<'a>(found: &ArgMatches<'a>, changes: Changes) -> ReportOptions<'a>
    requires values { HasReportValues (rows_of (found_of found.now)) }
    requires changes { changes_in (rows_of (found_of found.now)) ≡ Some changes }
    ensures { AreReportOptions (rows_of (found_of found.now)) result }
{
    ReportOptions {
        machine: required(found, "machine"),
        tools: required(found, "tools"),
        program: found.get_str("program"),
        cuts: cuts_of(found),
        all: flag_is_set(found, "all"),
        json: flag_is_set(found, "json"),
        changes,
        cells: cells_of(found),
        dialect: found.get_str("dialect"),
    }
}
