//! `--origin`, `--fixture`, `--stock`, `--margin`, `--travel-margin` and `--rapids`.

ghost use Rattle.std.specs.Prelude.{◌≡◌, Err, MatchResult, None, Ok, Some};
ghost use Rattle.clap.specs.Words.{found_of, rows_of};
ghost use Rattle.clap.specs.Words.{first_of};
ghost use Rattle.std.specs.Prelude.{codes};
ghost use Rattle.ngc_added_boxes.specs.Texts.{and_stock};
ghost use Rattle.ngc_command_line.specs.Meant.{change_texts, changes_in, demands_written};
ghost use Rattle.ngc_command_line.specs.Meant.{fixtures_in, origins_in};

use crate::UsageFault;
use clap::ArgMatches;
use ngc_added_boxes::{BoxMistake, Boxes, RefusedBox, read_fixtures, read_stock};
use ngc_margins::{Changes, DemandMistake, Demands, read_demands};
use ngc_origins::{OriginMistake, Origins, Refused, read_origins};
use std::alloc::Global;

/// Why the values of these options are refused.
#[derive(Clone, Copy)]
pub(crate) enum RefusedChange<'a> {
    /// A value of `--origin`.
    Origin(Refused<'a>),
    /// A value of `--fixture`.
    Fixture(RefusedBox<'a>),
    /// The value of `--stock`.
    Stock(BoxMistake),
    /// A value of another option.
    Demand(DemandMistake),
}

// Returns the origins in the words of a subcommand, or the first text that is no origin.
fn origins_of<'a>(found: &ArgMatches<'a>) -> Result<Origins, Refused<'a>>
    ensures { MatchResult result
        (λ origins. origins_in (rows_of (found_of found.now)) ≡ Ok origins)
        (λ refused. origins_in (rows_of (found_of found.now)) ≡ Err refused.mistake) }
{
    match found.get_strs("origin") {
        Some(texts) => read_origins(texts),
        None => Ok(Origins::none()),
    }
}

fn reason(mistake: OriginMistake) -> &'static str {
    match mistake {
        OriginMistake::NoSystem => "the system is 54 to 59, 59.1, 59.2 or 59.3",
        OriginMistake::NoPlace => {
            "X, Y and Z are three numbers from -1000 to 1000, in mm, with at most six decimals,\nor lengths with a unit, as 2.5, 1, -3 in"
        }
        OriginMistake::Twice => "this system has an origin already",
    }
}

// Returns the fixtures in the words of a subcommand, or the first text that is none.
fn fixtures_of<'a>(found: &ArgMatches<'a>) -> Result<Boxes, RefusedBox<'a>>
    ensures { MatchResult result
        (λ boxes. fixtures_in (rows_of (found_of found.now)) ≡ Ok boxes)
        (λ refused. fixtures_in (rows_of (found_of found.now)) ≡ Err refused.mistake) }
{
    match found.get_strs("fixture") {
        Some(texts) => read_fixtures(texts),
        None => Ok(Boxes::none()),
    }
}

// Returns these boxes with the block of material in the words of a subcommand, if there is one.
fn with_stock_of(found: &ArgMatches<'_>, boxes: Boxes) -> Result<Boxes, BoxMistake>
    ensures { result ≡ and_stock (Ok boxes) (first_of (codes "stock") (rows_of (found_of found.now))) }
{
    match found.get_str("stock") {
        Some(text) => read_stock(boxes, text),
        None => Ok(boxes),
    }
}

fn origin_fault(alloc: Global, refused: &Refused<'_>) -> UsageFault {
    let (text, reason) = (refused.text, reason(refused.mistake));
    let told = format!(in alloc;
        "error: invalid value '{text}' for '--origin <PLACE>': {reason}

For more information, try '--help'.
"
    );
    match told {
        Ok(text) => UsageFault::Usage(text),
        Err(_) => UsageFault::Memory,
    }
}

fn box_reason(mistake: BoxMistake, corners: &'static str) -> &'static str {
    match mistake {
        BoxMistake::NoName => "the name before `=` is 1 to 40 printable characters",
        BoxMistake::NoSystem => "the system before `:` is 54 to 59, 59.1, 59.2 or 59.3",
        BoxMistake::NoCorners => corners,
        BoxMistake::Flat => "the two corners differ in X, in Y and in Z",
        BoxMistake::TooMany => "at most 16 fixtures are added",
    }
}

fn box_fault(alloc: Global, option: &str, text: &str, reason: &str) -> UsageFault {
    let told = format!(in alloc;
        "error: invalid value '{text}' for '--{option} <BOX>': {reason}

For more information, try '--help'.
"
    );
    match told {
        Ok(text) => UsageFault::Usage(text),
        Err(_) => UsageFault::Memory,
    }
}

fn fixture_fault(alloc: Global, refused: &RefusedBox<'_>) -> UsageFault {
    let corners =
        "two corners are six numbers from -4000 to 4000, in mm, with at most six decimals,\nor two places with a unit, as 0, 0, -1 in to 4, 2, 0 in";
    let reason = box_reason(refused.mistake, corners);
    box_fault(alloc, "fixture", refused.text, reason)
}

fn stock_fault(alloc: Global, found: &ArgMatches<'_>, mistake: BoxMistake) -> UsageFault {
    let corners =
        "two corners are six numbers from -1000 to 1000, in mm, with at most six decimals,\nor two places with a unit, as 0, 0, -1 in to 4, 2, 0 in";
    let text = found.get_str("stock").unwrap_or("");
    box_fault(alloc, "stock", text, box_reason(mistake, corners))
}

// Returns what the other three options demand, or the first that is refused.
fn demands_of(found: &ArgMatches<'_>) -> Result<Demands, DemandMistake>
    ensures { result ≡ demands_written (change_texts (rows_of (found_of found.now))) }
{
    read_demands(
        found.get_str("margin"),
        found.get_str("travel-margin"),
        found.get_str("rapids"),
    )
}

// Returns what the words of a subcommand replace, or the first value that is refused.
pub(crate) fn changes_of<'a>(found: &ArgMatches<'a>) -> Result<Changes, RefusedChange<'a>>
    ensures { MatchResult result
        (λ changes. changes_in (rows_of (found_of found.now)) ≡ Some changes)
        (λ refused. changes_in (rows_of (found_of found.now)) ≡ None) }
{
    let origins = match origins_of(found) {
        Ok(origins) => origins,
        Err(refused) => return Err(RefusedChange::Origin(refused)),
    };
    let fixtures = match fixtures_of(found) {
        Ok(fixtures) => fixtures,
        Err(refused) => return Err(RefusedChange::Fixture(refused)),
    };
    let boxes = match with_stock_of(found, fixtures) {
        Ok(boxes) => boxes,
        Err(mistake) => return Err(RefusedChange::Stock(mistake)),
    };
    match demands_of(found) {
        Ok(demands) => Ok(Changes {
            origins,
            boxes,
            demands,
        }),
        Err(mistake) => Err(RefusedChange::Demand(mistake)),
    }
}

fn name(mistake: DemandMistake) -> &'static str {
    match mistake {
        DemandMistake::Margin => "margin",
        DemandMistake::TravelMargin => "travel-margin",
        DemandMistake::Rapids => "rapids",
    }
}

fn written(mistake: DemandMistake) -> &'static str {
    match mistake {
        DemandMistake::Margin => "--margin <MM>",
        DemandMistake::TravelMargin => "--travel-margin <MM>",
        DemandMistake::Rapids => "--rapids <WAY>",
    }
}

fn demand_reason(mistake: DemandMistake) -> &'static str {
    match mistake {
        DemandMistake::Rapids => "a traverse is straight or free",
        _ => "a margin is a number from 0 to 100, in mm, with at most six decimals",
    }
}

fn demand_fault(alloc: Global, found: &ArgMatches<'_>, mistake: DemandMistake) -> UsageFault {
    let (written, reason) = (written(mistake), demand_reason(mistake));
    let text = found.get_str(name(mistake)).unwrap_or("");
    let told = format!(in alloc;
        "error: invalid value '{text}' for '{written}': {reason}

For more information, try '--help'.
"
    );
    match told {
        Ok(text) => UsageFault::Usage(text),
        Err(_) => UsageFault::Memory,
    }
}

/// Returns the fault that tells of a refused value.
pub(crate) fn change_fault(
    alloc: Global,
    found: &ArgMatches<'_>,
    refused: &RefusedChange<'_>,
) -> UsageFault {
    match refused {
        RefusedChange::Origin(refused) => origin_fault(alloc, refused),
        RefusedChange::Fixture(refused) => fixture_fault(alloc, refused),
        RefusedChange::Stock(mistake) => stock_fault(alloc, found, *mistake),
        RefusedChange::Demand(mistake) => demand_fault(alloc, found, *mistake),
    }
}
