//! Arguments that several subcommands have, and what `clap` found for them.

ghost use Rattle.std.specs.Prelude.{◌≡◌, Some};
ghost use Rattle.clap.specs.Words.{first_of, found_of, rows_of};
ghost use Rattle.ngc_command_line.specs.Meant.{HasValue, is_set};

use crate::table::{Argument, Takes};
use clap::ArgMatches;

// The end of a command's help, with an example. `program` precedes the example of a command that
// reads a part program.
macro_rules! help_end {
    ($example:literal) => {
        help_end!($example, "")
    };
    (program $example:literal) => {
        help_end!(
            $example,
            "`ngc.toml` beside the program, or `--job FILE`, names machine, tools
and more: `ngc report part.nc` is then a whole command.
"
        )
    };
    ($example:literal, $job:literal) => {
        concat!(
            "Example:\n",
            $example,
            "

`--out FILE` writes the output to a file: whole, or not at all.
",
            $job,
            "
Exit status:
  0  done
  1  input could not be read, output not written, or memory ran out
  2  the command line was wrong, or had `--help`
  3  the part program, machine file, tool table or events were refused
  4  the certificate was refused, or none clears the program

A refusal names its fault by a number, as in `ngc: fault 113 line 7 column 4`.
`ngc explain 113` explains it."
        )
    };
}

pub(crate) use help_end;

pub(crate) const PROGRAM: Argument<'static> = Argument {
    name: "program",
    is_named: true,
    is_required: false,
    takes: Takes::Text("FILE"),
    help: "Part program to read [default: standard input]",
};

pub(crate) const REQUIRED_MACHINE: Argument<'static> = Argument {
    name: "machine",
    is_named: true,
    is_required: true,
    takes: Takes::Text("FILE"),
    help: "Machine file in TOML: its step, travel and fixtures",
};

pub(crate) const REQUIRED_TOOLS: Argument<'static> = Argument {
    name: "tools",
    is_named: true,
    is_required: true,
    takes: Takes::Text("FILE"),
    help: "Tool table in TOML: each tool's number, size\nand offset",
};

pub(crate) const REQUIRED_CERTIFICATE: Argument<'static> = Argument {
    name: "certificate",
    is_named: true,
    is_required: true,
    takes: Takes::Text("FILE"),
    help: "Certificate to check, as `ngc certify` prints it",
};

pub(crate) const CUTS: Argument<'static> = Argument {
    name: "cuts",
    is_named: true,
    is_required: false,
    takes: Takes::Number("N", 1, 65_535),
    help: "Most pieces that a motion is cut into, 1 to 65535\n[default: 8]",
};

pub(crate) const DELETE: Argument<'static> = Argument {
    name: "delete",
    is_named: true,
    is_required: false,
    takes: Takes::Nothing,
    help: "Turn block delete on: leave out the lines\nthat begin with `/` [default: off]",
};

pub(crate) const ORIGIN: Argument<'static> = Argument {
    name: "origin",
    is_named: true,
    is_required: false,
    takes: Takes::Texts("PLACE"),
    help: "Origin of a system in place of the machine file's, in\nmm, as 54=60,40,-140, or with a unit, as\n\"54=2.5, 1, -3 in\"; once for each system",
};

pub(crate) const FIXTURE: Argument<'static> = Argument {
    name: "fixture",
    is_named: true,
    is_required: false,
    takes: Takes::Texts("BOX"),
    help: "Box that tools stay out of, added for this call, in\nmm, as clamp=54:-30,20,-10,-5,40,15, or with a unit, as\n\"clamp=54: 0, 0, 0 in to 1, 2, 0.5 in\"; up to 16 times",
};

pub(crate) const STOCK: Argument<'static> = Argument {
    name: "stock",
    is_named: true,
    is_required: false,
    takes: Takes::Text("BOX"),
    help: "Material in place of the machine file's, in mm, as\n54:0,0,-20,100,60,0, or with a unit, as\n\"54: 0, 0, -1 in to 4, 2, 0 in\"",
};

pub(crate) const MARGIN: Argument<'static> = Argument {
    name: "margin",
    is_named: true,
    is_required: false,
    takes: Takes::Text("MM"),
    help: "How far to keep from every fixture, 0 to 100 mm\n[default: the machine file's]",
};

pub(crate) const TRAVEL_MARGIN: Argument<'static> = Argument {
    name: "travel-margin",
    is_named: true,
    is_required: false,
    takes: Takes::Text("MM"),
    help: "How far to keep from the travel limits, 0 to 100 mm\n[default: the machine file's]",
};

pub(crate) const RAPIDS: Argument<'static> = Argument {
    name: "rapids",
    is_named: true,
    is_required: false,
    takes: Takes::Text("WAY"),
    help: "Way of a traverse: straight, or free within the box\nof its ends [default: the machine file's]",
};

pub(crate) const DIALECT: Argument<'static> = Argument {
    name: "dialect",
    is_named: true,
    is_required: false,
    takes: Takes::Text("NAME"),
    help: "Language of the part program: linuxcnc, grbl, mach3,\nfanuc or ngc [default: the machine file's, or ngc]",
};

pub(crate) fn flag_is_set(found: &ArgMatches<'_>, name: &str) -> bool
    ensures { result ≡ is_set name.now (rows_of (found_of found.now)) }
{
    match found.get_str(name) {
        Some(text) => text == "true",
        None => false,
    }
}

// Returns the value of an option that may not be left out.
pub(crate) fn required<'a>(found: &ArgMatches<'a>, name: &str) -> &'a str
    requires { HasValue name.now (rows_of (found_of found.now)) }
    ensures { Some result.now ≡ first_of name.now (rows_of (found_of found.now)) }
{
    match found.get_str(name) {
        Some(text) => text,
        None => unreachable!(),
    }
}
