//! Parts of a sheet as texts. A key that isn't in the file is `-`.

use crate::words::refusal_text;
use ngc_dialect_names::Dialect;
use ngc_machine_figures::{
    AxisSheet, BoxSheet, ControlSheet, FixtureSheet, Length, PlaceSheet, Sheet, SheetFault, Speed,
    StockSheet, System,
};
use ngc_machine_files::{Name, Rapids};
use ngc_quantities::Place;
use std::alloc::{AllocError, Global};

fn dialect_word(dialect: Option<Dialect>) -> &'static str {
    match dialect {
        None => "-",
        Some(dialect) => dialect.name(),
    }
}

fn flag_word(flag: Option<bool>) -> &'static str {
    match flag {
        None => "-",
        Some(true) => "true",
        Some(false) => "false",
    }
}

fn rapids_word(rapids: Option<Rapids>) -> &'static str {
    match rapids {
        None => "-",
        Some(Rapids::Straight) => "straight",
        Some(Rapids::Free) => "free",
    }
}

fn number_text(alloc: Global, number: Option<u32>) -> Result<String, AllocError> {
    match number {
        None => format!(in alloc; "-"),
        Some(number) => format!(in alloc; "{number}"),
    }
}

fn speed_text(alloc: Global, speed: Option<Speed>) -> Result<String, AllocError> {
    match speed {
        None => format!(in alloc; "-"),
        Some(speed) => {
            let speed = speed.nanometres_a_minute;
            format!(in alloc; "{speed}")
        }
    }
}

fn length_text(alloc: Global, length: Option<Length>) -> Result<String, AllocError> {
    match length {
        None => format!(in alloc; "-"),
        Some(length) => {
            let length = length.nanometres;
            format!(in alloc; "{length}")
        }
    }
}

fn place_text(alloc: Global, place: Option<Place>) -> Result<String, AllocError> {
    match place {
        None => format!(in alloc; "-"),
        Some(Place { x, y, z }) => format!(in alloc; "{x},{y},{z}"),
    }
}

fn box_text(alloc: Global, corners: &BoxSheet) -> Result<String, AllocError> {
    let from = place_text(alloc, Some(corners.from))?;
    let to = place_text(alloc, Some(corners.to))?;
    format!(in alloc; "{from} to {to}")
}

fn control_text(alloc: Global, sheet: &ControlSheet) -> Result<String, AllocError> {
    let (dialect, changer) = (dialect_word(sheet.dialect), flag_word(sheet.changer));
    let ticks = number_text(alloc, sheet.ticks)?;
    let ring = number_text(alloc, sheet.ring)?;
    let corner = speed_text(alloc, sheet.corner)?;
    let jump = speed_text(alloc, sheet.jump)?;
    let arc_feed = number_text(alloc, sheet.arc_feed)?;
    let turn = match sheet.turn {
        None => 0,
        Some(turn) => turn.nanometres_a_second_squared,
    };
    format!(in alloc; "{dialect} {changer} {ticks} {ring} {corner} {jump} {arc_feed} {turn}")
}

fn places_text(alloc: Global, sheet: &PlaceSheet) -> Result<String, AllocError> {
    let margin = length_text(alloc, sheet.margin)?;
    let travel = length_text(alloc, sheet.travel_margin)?;
    let rapids = rapids_word(sheet.rapids);
    let start = place_text(alloc, sheet.start)?;
    let home28 = place_text(alloc, sheet.home28)?;
    let home30 = place_text(alloc, sheet.home30)?;
    format!(in alloc; "{margin} {travel} {rapids} {start} {home28} {home30}")
}

fn axis_text(alloc: Global, sheet: &AxisSheet) -> Result<String, AllocError> {
    let (nanometres, steps) = (sheet.motor.nanometres, sheet.motor.steps);
    let (low, high) = (sheet.travel.low, sheet.travel.high);
    let speed = sheet.speed.nanometres_a_minute;
    let acceleration = sheet.acceleration.nanometres_a_second_squared;
    format!(in alloc; "{nanometres}/{steps} {low} to {high} {speed} {acceleration}")
}

fn origins_text(alloc: Global, origins: &[Option<Place>; 9]) -> Result<String, AllocError> {
    let mut text = String::new(alloc);
    for origin in origins {
        let origin = place_text(alloc, *origin)?;
        if !text.is_empty() {
            text.push(' ')?;
        }
        text.push_str(origin.as_str())?;
    }
    Ok(text)
}

fn name_word(name: &Option<Name>) -> &str {
    match name {
        None => "-",
        Some(name) => str::from_utf8(name.as_bytes()).unwrap_or("?"),
    }
}

fn fixtures_text(alloc: Global, fixtures: &[FixtureSheet]) -> Result<String, AllocError> {
    let mut text = String::new(alloc);
    for fixture in fixtures {
        let name = name_word(&fixture.name);
        let system = system_text(alloc, fixture.system)?;
        let corners = box_text(alloc, &fixture.corners)?;
        if !text.is_empty() {
            text.push(' ')?;
        }
        text.push_str(name)?;
        text.push(' ')?;
        text.push_str(system.as_str())?;
        text.push(' ')?;
        text.push_str(corners.as_str())?;
    }
    Ok(text)
}

fn system_text(alloc: Global, system: Option<System>) -> Result<String, AllocError> {
    match system {
        None => format!(in alloc; "-"),
        Some(system) => {
            let number = system.number;
            format!(in alloc; "{number}")
        }
    }
}

fn stock_text(alloc: Global, stock: &Option<StockSheet>) -> Result<String, AllocError> {
    match stock {
        None => format!(in alloc; "-"),
        Some(stock) => {
            let system = system_text(alloc, stock.system)?;
            let corners = box_text(alloc, &stock.corners)?;
            format!(in alloc; "{system} {corners}")
        }
    }
}

fn part_text(alloc: Global, part: &str, sheet: &Sheet) -> Result<String, AllocError> {
    match part {
        "control" => control_text(alloc, &sheet.head.control),
        "places" => places_text(alloc, &sheet.head.places),
        "x" => axis_text(alloc, &sheet.head.axes.x),
        "y" => axis_text(alloc, &sheet.head.axes.y),
        "z" => axis_text(alloc, &sheet.head.axes.z),
        "origins" => origins_text(alloc, &sheet.head.origins),
        "fixtures" => fixtures_text(alloc, sheet.fixtures.as_slice()),
        "stock" => stock_text(alloc, &sheet.stock),
        _ => format!(in alloc; "no part"),
    }
}

/// Returns a part of a sheet, or the refusal.
pub(crate) fn shown(
    alloc: Global,
    part: &str,
    found: &Result<Sheet, SheetFault>,
) -> Result<String, AllocError> {
    match found {
        Ok(sheet) => part_text(alloc, part, sheet),
        Err(SheetFault::Memory) => format!(in alloc; "no memory"),
        Err(SheetFault::Refused(refusal)) => refusal_text(alloc, refusal),
    }
}
