//! `ngc explain`.

ghost use Rattle.std.specs.Prelude.{◌≡◌, Some, codes};
ghost use Rattle.clap.specs.Words.{IsUnsignedIn, first_of, found_of, rows_of};
ghost use Rattle.ngc_command_line.specs.Meant.{HasExplainValues, IsNumber};

use crate::arguments::{help_end, required};
use crate::table::{Argument, SubcommandRow, Takes};
use clap::ArgMatches;

const NUMBER: Argument<'static> = Argument {
    name: "number",
    is_named: false,
    is_required: true,
    takes: Takes::Number("N", 1, 999),
    help: "Number of a fault, as its line tells it",
};

pub(crate) static EXPLAIN: SubcommandRow<'static> = SubcommandRow {
    name: "explain",
    about: "Print the rule of a fault, an example, and what to do",
    help_end: help_end!("  ngc explain 113"),
    arguments: &[NUMBER],
};

fn number_in(text: &str) -> u16
    requires { IsUnsignedIn 1 999 text.now }
    ensures { IsNumber (Some text.now) result }
{
    match text.parse::<u16>() {
        Ok(number) => number,
        Err(_) => unreachable!(),
    }
}

pub(crate) fn explained_number(found: &ArgMatches<'_>) -> u16
    requires { HasExplainValues (rows_of (found_of found.now)) }
    ensures { IsNumber (first_of (codes "number") (rows_of (found_of found.now))) result }
{
    number_in(required(found, "number"))
}
