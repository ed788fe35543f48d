//! `ngc help` and `ngc version`.

ghost use Rattle.std.specs.Prelude.{◌≡◌, codes, option_map};
ghost use Rattle.clap.specs.Words.{first_of, found_of, rows_of};

use crate::arguments::help_end;
use crate::table::{Argument, SubcommandRow, Takes};
use clap::ArgMatches;

const TOPIC: Argument<'static> = Argument {
    name: "command",
    is_named: false,
    is_required: false,
    takes: Takes::Text("COMMAND"),
    help: "Command whose help is printed [default: all of them]",
};

pub(crate) static HELP: SubcommandRow<'static> = SubcommandRow {
    name: "help",
    about: "Print the help of a command",
    help_end: help_end!("  ngc help list"),
    arguments: &[TOPIC],
};

pub(crate) static VERSION: SubcommandRow<'static> = SubcommandRow {
    name: "version",
    about: "Print the name and the version of the program",
    help_end: help_end!("  ngc version"),
    arguments: &[],
};

// Returns the command whose help is requested.
pub(crate) fn topic<'a>(found: &ArgMatches<'a>) -> Option<&'a str>
    ensures { option_map (λ name. name.now) result
        ≡ first_of (codes "command") (rows_of (found_of found.now)) }
{
    found.get_str("command")
}
