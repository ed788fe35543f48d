//! `ngc machine`.

ghost use Rattle.clap.specs.Words.{found_of, rows_of};
ghost use Rattle.ngc_command_line.specs.Meant.{AreMachineOptions};

use crate::arguments::{flag_is_set, help_end};
use crate::options::MachineOptions;
use crate::table::{Argument, SubcommandRow, Takes};
use clap::ArgMatches;

const GRBL: Argument<'static> = Argument {
    name: "grbl",
    is_named: true,
    is_required: false,
    takes: Takes::Text("FILE"),
    help: "What GRBL prints for `$$`, in place of the four below",
};

const STEPS: Argument<'static> = Argument {
    name: "steps-per-mm",
    is_named: true,
    is_required: false,
    takes: Takes::Text("N"),
    help: "Steps of the motors for a millimetre: one number for all\naxes, or X,Y,Z",
};

const TRAVEL: Argument<'static> = Argument {
    name: "travel",
    is_named: true,
    is_required: false,
    takes: Takes::Text("X,Y,Z"),
    help: "How far each axis goes, in mm",
};

const FEED: Argument<'static> = Argument {
    name: "feed",
    is_named: true,
    is_required: false,
    takes: Takes::Text("X,Y,Z"),
    help: "Greatest speed of each axis, in mm/min",
};

const ACCELERATION: Argument<'static> = Argument {
    name: "acceleration",
    is_named: true,
    is_required: false,
    takes: Takes::Text("X,Y,Z"),
    help: "Greatest acceleration of each axis, in mm/s2",
};

const CORNER: Argument<'static> = Argument {
    name: "corner",
    is_named: true,
    is_required: false,
    takes: Takes::Text("SPEED"),
    help: "Speed through a corner, in mm/s\n[default: what is reached in 5 ms, at least 2]",
};

const TICKS: Argument<'static> = Argument {
    name: "ticks",
    is_named: true,
    is_required: false,
    takes: Takes::Text("N"),
    help: "Ticks of the controller a second\n[default: about two for each step of the fastest axis]",
};

const FRAME: Argument<'static> = Argument {
    name: "frame",
    is_named: true,
    is_required: false,
    takes: Takes::Text("END"),
    help: "Where the zero of each axis is, low or high\n[default: low for X and Y, high for Z]",
};

const JUMP: Argument<'static> = Argument {
    name: "jump",
    is_named: true,
    is_required: false,
    takes: Takes::Text("SPEED"),
    help: "Change of speed where two motions meet, in mm/s\n[default: as the corner]",
};

const TURN: Argument<'static> = Argument {
    name: "turn",
    is_named: true,
    is_required: false,
    takes: Takes::Text("ACCELERATION"),
    help: "Greatest acceleration on arcs, in mm/s2\n[default: the least of the axes]",
};

const START: Argument<'static> = Argument {
    name: "start",
    is_named: true,
    is_required: false,
    takes: Takes::Text("X,Y,Z"),
    help: "Where the machine starts, in mm [default: 0,0,0]",
};

const HOME28: Argument<'static> = Argument {
    name: "home28",
    is_named: true,
    is_required: false,
    takes: Takes::Text("X,Y,Z"),
    help: "Where G28 goes, in mm [default: the start]",
};

const HOME30: Argument<'static> = Argument {
    name: "home30",
    is_named: true,
    is_required: false,
    takes: Takes::Text("X,Y,Z"),
    help: "Where G30 goes, in mm [default: the start]",
};

const RING: Argument<'static> = Argument {
    name: "ring",
    is_named: true,
    is_required: false,
    takes: Takes::Text("N"),
    help: "Commands that are loaded and not done at most,\n16 to 1024 [default: 256]",
};

const ARC_FEED: Argument<'static> = Argument {
    name: "arc-feed",
    is_named: true,
    is_required: false,
    takes: Takes::Nothing,
    help: "Run arcs at their feed and `turn` at every place:\nthe default (`arc_feed` in the file switches it off)",
};

const RATES: Argument<'static> = Argument {
    name: "rates",
    is_named: true,
    is_required: false,
    takes: Takes::Nothing,
    help: "Print the rates of version 2 in place of figures with\ntheir units",
};

pub(crate) static MACHINE: SubcommandRow<'static> = SubcommandRow {
    name: "machine",
    about: "Print a machine file from figures at hand, or from a dump of GRBL's settings",
    help_end: help_end!(
        "  ngc machine --steps-per-mm 800 --travel 300,180,45 \\
    --feed 1000,1000,600 --acceleration 30,30,20 > mill.toml"
    ),
    arguments: &[
        GRBL,
        STEPS,
        TRAVEL,
        FEED,
        ACCELERATION,
        CORNER,
        TICKS,
        FRAME,
        JUMP,
        TURN,
        START,
        HOME28,
        HOME30,
        RING,
        ARC_FEED,
        RATES,
    ],
};

pub(crate) fn machine_options<'a>(found: &ArgMatches<'a>) -> MachineOptions<'a>
    ensures { AreMachineOptions (rows_of (found_of found.now)) result }
{
    MachineOptions {
        grbl: found.get_str("grbl"),
        steps: found.get_str("steps-per-mm"),
        travel: found.get_str("travel"),
        feed: found.get_str("feed"),
        acceleration: found.get_str("acceleration"),
        corner: found.get_str("corner"),
        ticks: found.get_str("ticks"),
        frame: found.get_str("frame"),
        jump: found.get_str("jump"),
        turn: found.get_str("turn"),
        start: found.get_str("start"),
        home28: found.get_str("home28"),
        home30: found.get_str("home30"),
        ring: found.get_str("ring"),
        arc_feed: flag_is_set(found, "arc-feed"),
        rates: flag_is_set(found, "rates"),
    }
}
