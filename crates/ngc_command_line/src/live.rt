//! `ngc live`.

ghost use Rattle.std.specs.Prelude.{◌≡◌, Some};
ghost use Rattle.clap.specs.Words.{found_of, rows_of};
ghost use Rattle.ngc_command_line.specs.Meant.{AreLiveOptions, HasLiveValues, changes_in};

use crate::arguments::{
    DELETE, DIALECT, FIXTURE, MARGIN, ORIGIN, RAPIDS, REQUIRED_CERTIFICATE, REQUIRED_MACHINE,
    REQUIRED_TOOLS, STOCK, TRAVEL_MARGIN, flag_is_set, help_end, required,
};
use crate::options::LiveOptions;
use crate::run::{INVERTED, LOG_OUTPUT, mask_of};
use crate::table::{Argument, SubcommandRow, Takes};
use clap::ArgMatches;
use ngc_margins::Changes;

const REQUIRED_PROGRAM: Argument<'static> = Argument {
    name: "program",
    is_named: true,
    is_required: true,
    takes: Takes::Text("FILE"),
    help: "Part program to run. Standard input has the events",
};

const FEED_RING: Argument<'static> = Argument {
    name: "feed-ring",
    is_named: true,
    is_required: false,
    takes: Takes::Nothing,
    help: "Load commands before each tick, while the ring\nhas space [default: events load them]",
};

const ABORT: Argument<'static> = Argument {
    name: "abort",
    is_named: true,
    is_required: false,
    takes: Takes::Nothing,
    help: "End at the last line at once, even at full speed\n[default: hold, and end at rest]",
};

pub(crate) static LIVE: SubcommandRow<'static> = SubcommandRow {
    name: "live",
    about: "Run a part program over events as they arrive on standard input",
    help_end: help_end!(
        program "  ngc live --program examples/slot.ngc --certificate slot.cert \\
    --machine examples/clamped_mill.toml --tools examples/tools.toml"
    ),
    arguments: &[
        REQUIRED_MACHINE,
        REQUIRED_TOOLS,
        REQUIRED_CERTIFICATE,
        REQUIRED_PROGRAM,
        DELETE,
        LOG_OUTPUT,
        INVERTED,
        FEED_RING,
        ABORT,
        ORIGIN,
        FIXTURE,
        STOCK,
        MARGIN,
        TRAVEL_MARGIN,
        RAPIDS,
        DIALECT,
    ],
};

pub(crate) fn live_options<'a>(found: &ArgMatches<'a>, changes: Changes) -> LiveOptions<'a>
    requires values { HasLiveValues (rows_of (found_of found.now)) }
    requires changes { changes_in (rows_of (found_of found.now)) ≡ Some changes }
    ensures { AreLiveOptions (rows_of (found_of found.now)) result }
{
    LiveOptions {
        machine: required(found, "machine"),
        tools: required(found, "tools"),
        certificate: required(found, "certificate"),
        program: required(found, "program"),
        delete: flag_is_set(found, "delete"),
        output: found.get_str("output"),
        inverted: mask_of(found),
        feed_ring: flag_is_set(found, "feed-ring"),
        aborts: flag_is_set(found, "abort"),
        changes,
        dialect: found.get_str("dialect"),
    }
}
