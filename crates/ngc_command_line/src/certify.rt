//! `ngc certify`.

ghost use Rattle.std.specs.Prelude.{◌≡◌, IfSome, Some, codes};
ghost use Rattle.clap.specs.Words.{IsUnsignedIn, first_of, found_of, rows_of};
ghost use Rattle.ngc_command_line.specs.Meant.{AreCertifyOptions, AreCuts, HasCertifyValues};
ghost use Rattle.ngc_command_line.specs.Meant.{IsFormat, changes_in};

use crate::arguments::{
    CUTS, DIALECT, FIXTURE, MARGIN, ORIGIN, PROGRAM, RAPIDS, REQUIRED_MACHINE, REQUIRED_TOOLS,
    STOCK, TRAVEL_MARGIN, help_end, required,
};
use crate::options::{CertifyOptions, Format};
use crate::table::{Argument, SubcommandRow, Takes};
use clap::ArgMatches;
use ngc_margins::Changes;

const FORMAT: Argument<'static> = Argument {
    name: "format",
    is_named: true,
    is_required: false,
    takes: Takes::Number("VERSION", 1, 2),
    help: "Version of the text, 1 or 2: 2 is shorter where both\nsettings of block delete begin alike\n[default: 1]",
};

pub(crate) static CERTIFY: SubcommandRow<'static> = SubcommandRow {
    name: "certify",
    about: "Print a certificate that travel is kept and fixtures are cleared",
    help_end: help_end!(
        program "  ngc certify --program examples/slot.ngc \\
    --machine examples/clamped_mill.toml --tools examples/tools.toml > slot.cert"
    ),
    arguments: &[
        REQUIRED_MACHINE,
        REQUIRED_TOOLS,
        PROGRAM,
        CUTS,
        FORMAT,
        ORIGIN,
        FIXTURE,
        STOCK,
        MARGIN,
        TRAVEL_MARGIN,
        RAPIDS,
        DIALECT,
    ],
};

fn cuts_in(text: &str) -> u16
    requires { IsUnsignedIn 1 65535 text.now }
    ensures { AreCuts (Some text.now) result }
{
    match text.parse::<u16>() {
        Ok(cuts) => cuts,
        Err(_) => unreachable!(),
    }
}

pub(crate) fn cuts_of(found: &ArgMatches<'_>) -> u16
    requires { IfSome (first_of (codes "cuts") (rows_of (found_of found.now)))
        (IsUnsignedIn 1 65535) }
    ensures { AreCuts (first_of (codes "cuts") (rows_of (found_of found.now))) result }
{
    match found.get_str("cuts") {
        Some(text) => cuts_in(text),
        None => 8,
    }
}

fn format_in(text: &str) -> Format
    requires { IsUnsignedIn 1 2 text.now }
    ensures { IsFormat (Some text.now) result }
{
    match text.parse::<u8>() {
        Ok(1) => Format::One,
        Ok(2) => Format::Two,
        _ => unreachable!(),
    }
}

fn format_of(found: &ArgMatches<'_>) -> Format
    requires { IfSome (first_of (codes "format") (rows_of (found_of found.now)))
        (IsUnsignedIn 1 2) }
    ensures { IsFormat (first_of (codes "format") (rows_of (found_of found.now))) result }
{
    match found.get_str("format") {
        Some(text) => format_in(text),
        None => Format::One,
    }
}

pub(crate) fn certify_options<'a>(found: &ArgMatches<'a>, changes: Changes) -> CertifyOptions<'a>
    requires values { HasCertifyValues (rows_of (found_of found.now)) }
    requires changes { changes_in (rows_of (found_of found.now)) ≡ Some changes }
    ensures { AreCertifyOptions (rows_of (found_of found.now)) result }
{
    CertifyOptions {
        machine: required(found, "machine"),
        tools: required(found, "tools"),
        program: found.get_str("program"),
        cuts: cuts_of(found),
        format: format_of(found),
        changes,
        dialect: found.get_str("dialect"),
    }
}
