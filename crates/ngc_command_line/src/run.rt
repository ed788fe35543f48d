//! `ngc run` and `ngc pulses`.

ghost use Rattle.std.specs.Prelude.{◌≡◌, IfSome, Some, codes};
ghost use Rattle.clap.specs.Words.{IsUnsignedIn, first_of, found_of, rows_of};
ghost use Rattle.ngc_command_line.specs.Meant.{AreRunsOptions, HasRunValues, IsMask, changes_in};

use crate::arguments::{
    DELETE, DIALECT, FIXTURE, MARGIN, ORIGIN, PROGRAM, RAPIDS, REQUIRED_CERTIFICATE,
    REQUIRED_MACHINE, REQUIRED_TOOLS, STOCK, TRAVEL_MARGIN, flag_is_set, help_end, required,
};
use crate::options::{Options, Recording, RunOptions, RunThroughOptions};
use crate::table::{Argument, SubcommandRow, Takes};
use clap::ArgMatches;
use ngc_margins::Changes;

const EVENTS: Argument<'static> = Argument {
    name: "events",
    is_named: true,
    is_required: false,
    takes: Takes::Text("FILE"),
    help: "List of events: what is done at the panel, and when\n[default: run the program through]",
};

pub(crate) const LOG_OUTPUT: Argument<'static> = Argument {
    name: "output",
    is_named: true,
    is_required: false,
    takes: Takes::Text("FORM"),
    help: "What to print: log; times, the log with the ticks\nbefore each line; or samples, which are two bytes\nfor each tick [default: log]",
};

const PULSES_OUTPUT: Argument<'static> = Argument {
    name: "output",
    is_named: true,
    is_required: false,
    takes: Takes::Text("FORM"),
    help: "What to print: vcd, or samples, which are two bytes\nfor each tick [default: vcd]",
};

pub(crate) const INVERTED: Argument<'static> = Argument {
    name: "inverted",
    is_named: true,
    is_required: false,
    takes: Takes::Number("MASK", 0, 255),
    help: "Bits to turn over in each byte of the samples,\n0 to 255 [default: 0]",
};

pub(crate) static RUN: SubcommandRow<'static> = SubcommandRow {
    name: "run",
    about: "Run a part program through, or over events, and print the log",
    help_end: help_end!(
        program "  ngc run --program examples/slot.ngc --certificate slot.cert \\
    --machine examples/clamped_mill.toml --tools examples/tools.toml"
    ),
    arguments: &[
        REQUIRED_MACHINE,
        REQUIRED_TOOLS,
        REQUIRED_CERTIFICATE,
        EVENTS,
        PROGRAM,
        DELETE,
        LOG_OUTPUT,
        INVERTED,
        ORIGIN,
        FIXTURE,
        STOCK,
        MARGIN,
        TRAVEL_MARGIN,
        RAPIDS,
        DIALECT,
    ],
};

pub(crate) static PULSES: SubcommandRow<'static> = SubcommandRow {
    name: "pulses",
    about: "Run a part program as `run` does, and print the pulses",
    help_end: help_end!(
        program "  ngc pulses --program examples/slot.ngc --certificate slot.cert \\
    --machine examples/clamped_mill.toml --tools examples/tools.toml > slot.vcd"
    ),
    arguments: &[
        REQUIRED_MACHINE,
        REQUIRED_TOOLS,
        REQUIRED_CERTIFICATE,
        EVENTS,
        PROGRAM,
        DELETE,
        PULSES_OUTPUT,
        INVERTED,
        ORIGIN,
        FIXTURE,
        STOCK,
        MARGIN,
        TRAVEL_MARGIN,
        RAPIDS,
        DIALECT,
    ],
};

fn mask_in(text: &str) -> u8
    requires { IsUnsignedIn 0 255 text.now }
    ensures { IsMask (Some text.now) result }
{
    match text.parse::<u8>() {
        Ok(mask) => mask,
        Err(_) => unreachable!(),
    }
}

pub(crate) fn mask_of(found: &ArgMatches<'_>) -> u8
    requires { IfSome (first_of (codes "inverted") (rows_of (found_of found.now)))
        (IsUnsignedIn 0 255) }
    ensures { IsMask (first_of (codes "inverted") (rows_of (found_of found.now))) result }
{
    match found.get_str("inverted") {
        Some(text) => mask_in(text),
        None => 0,
    }
}

// Returns the options of a run with events, or of a run through to the program's end.
pub(crate) fn run_options<'a>(
    recording: Recording,
    found: &ArgMatches<'a>,
    changes: Changes,
) -> Options<'a>
    requires values { HasRunValues (rows_of (found_of found.now)) }
    requires changes { changes_in (rows_of (found_of found.now)) ≡ Some changes }
    ensures { AreRunsOptions recording (rows_of (found_of found.now)) result }
{
    let machine = required(found, "machine");
    let tools = required(found, "tools");
    let certificate = required(found, "certificate");
    let program = found.get_str("program");
    let delete = flag_is_set(found, "delete");
    let output = found.get_str("output");
    let inverted = mask_of(found);
    let dialect = found.get_str("dialect");
    match found.get_str("events") {
        Some(events) => Options::Run(RunOptions {
            recording,
            machine,
            tools,
            certificate,
            events,
            program,
            delete,
            output,
            inverted,
            changes,
            dialect,
        }),
        None => Options::RunThrough(RunThroughOptions {
            recording,
            machine,
            tools,
            certificate,
            program,
            delete,
            output,
            inverted,
            changes,
            dialect,
        }),
    }
}
