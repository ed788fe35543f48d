//! Figures from the settings that a controller with Grbl prints.
ghost use Rattle.std.specs.Prelude.{◌≡◌, ◌+◌, ◌≤◌};
ghost use Rattle.ngc_machine_maker.specs.Grbl as spec;
ghost use Rattle.ngc_machine_maker.specs.Options as options;

use crate::decimal::{begins, is_number, number_in, without_first};
use crate::figures::{
    Dump, End, Figures, Length, PerAxis, PlaceForm, StepsPerMillimetre, StoredPlaces, Supplied,
};
use crate::motors::motors_of;
use crate::options::{accelerations, all_at, figures_by, length_of, lengths, speeds};
use crate::refusal::FigureRefusal;
use crate::stored::places_in;
use ngc_grbl_lines::{setting_number, setting_value, split_line};

/// The settings that are used. `None`: the dump doesn't have it. Lengths are in nanometres, speeds
/// and accelerations in thousandths of a millimetre.
#[derive(Clone, Copy)]
pub(crate) struct Settings {
    pub motors: PerAxis<StepsPerMillimetre>,
    pub feed: PerAxis<Option<u32>>,
    pub acceleration: PerAxis<Option<u32>>,
    pub travel: PerAxis<u32>,
    pub mask: Option<u32>,
    pub pull_off: Option<u32>,
    pub unit: Option<u32>,
}

#[tactic(auto, unfolding(crate::specs::Grbl::has_setting))]
fn has_setting(number: u32, line: &[u8]) -> bool
    ensures { result ≡ spec.has_setting number line.now }
{
    match number_in(setting_number(line), 0) {
        None => false,
        Some(read) => read == number,
    }
}

// Returns why the value of a setting can't be used.
fn unusable(number: u32, at: usize, text: &[u8]) -> FigureRefusal
    ensures { result ≡ spec.unusable number at text.now }
{
    let size = without_first(text);
    if begins(b'-', text) && is_number(size, size.len()) {
        FigureRefusal::Negative(number, at)
    } else if is_number(text, text.len()) {
        FigureRefusal::Digits(number, at)
    } else {
        FigureRefusal::Setting(number, at)
    }
}

#[tactic(auto, unfolding(crate::specs::Grbl::value_in))]
fn value_in(
    number: u32,
    places: usize,
    at: usize,
    text: &[u8],
) -> Result<Option<u32>, FigureRefusal>
    requires { places ≤ 6 }
    ensures { result ≡ spec.value_in number places at text.now }
{
    match number_in(text, places) {
        None => Err(unusable(number, at, text)),
        Some(value) => Ok(Some(value)),
    }
}

// Returns the value of a setting, in units of which 10 ^ `places` make one, if a dump has it.
#[tactic(auto, unfolding(crate::specs::Grbl::setting))]
fn setting(text: &[u8], number: u32, places: usize) -> Result<Option<u32>, FigureRefusal>
    requires { places ≤ 6 }
    ensures { result ≡ spec.setting text.now number places }
{
    let mut at: usize = 1;
    let mut rest = text;
    while !rest.is_empty() {
        let (line, others) = split_line(rest);
        if has_setting(number, line) {
            return value_in(number, places, at, setting_value(line));
        }
        at += 1;
        rest = others;
    }
    Ok(None)
}

// Returns the values of three successive settings.
fn three_settings(
    text: &[u8],
    number: u32,
    places: usize,
) -> Result<PerAxis<Option<u32>>, FigureRefusal>
    requires number { number ≤ 1000 }
    requires places { places ≤ 6 }
    ensures { result ≡ spec.three_settings text.now number places }
{
    let x = setting(text, number, places)?;
    let y = setting(text, number + 1, places)?;
    let z = setting(text, number + 2, places)?;
    Ok(PerAxis { x, y, z })
}

fn required(text: &[u8], number: u32, places: usize) -> Result<u32, FigureRefusal>
    requires { places ≤ 6 }
    ensures { result ≡ spec.required text.now number places }
{
    match setting(text, number, places)? {
        None => Err(FigureRefusal::Missing(number)),
        Some(value) => Ok(value),
    }
}

fn three_required(text: &[u8], number: u32, places: usize) -> Result<PerAxis<u32>, FigureRefusal>
    requires number { number ≤ 1000 }
    requires places { places ≤ 6 }
    ensures { result ≡ spec.three_required text.now number places }
{
    let x = required(text, number, places)?;
    let y = required(text, number + 1, places)?;
    let z = required(text, number + 2, places)?;
    Ok(PerAxis { x, y, z })
}

fn settings_in(text: &[u8]) -> Result<Settings, FigureRefusal>
    ensures { result ≡ spec.settings_in text.now }
{
    let steps = three_required(text, 100, 6)?;
    let feed = three_settings(text, 110, 3)?;
    let acceleration = three_settings(text, 120, 3)?;
    let travel = three_required(text, 130, 6)?;
    let mask = setting(text, 23, 0)?;
    let pull_off = setting(text, 27, 6)?;
    let unit = setting(text, 13, 0)?;
    Ok(Settings {
        motors: motors_of(&steps),
        feed,
        acceleration,
        travel,
        mask,
        pull_off,
        unit,
    })
}

fn or_default(otherwise: u32, value: Option<u32>) -> u32
    ensures { result ≡ spec.or_default otherwise value }
{
    match value {
        None => otherwise,
        Some(value) => value,
    }
}

fn each_or(otherwise: u32, values: &PerAxis<Option<u32>>) -> PerAxis<u32>
    ensures { result ≡ spec.each_or otherwise values.now }
{
    PerAxis {
        x: or_default(otherwise, values.x),
        y: or_default(otherwise, values.y),
        z: or_default(otherwise, values.z),
    }
}

fn each_missing(values: &PerAxis<Option<u32>>) -> PerAxis<bool>
    ensures { result ≡ spec.each_missing values.now }
{
    PerAxis {
        x: values.x.is_none(),
        y: values.y.is_none(),
        z: values.z.is_none(),
    }
}

fn has_places(places: &StoredPlaces) -> bool
    ensures { result ≡ spec.has_places places.now }
{
    places.g54.is_some()
        || places.g55.is_some()
        || places.g56.is_some()
        || places.g57.is_some()
        || places.g58.is_some()
        || places.g59.is_some()
        || places.g28.is_some()
        || places.g30.is_some()
        || places.g92.is_some()
}

// Returns which of GRBL's defaults are supplied.
fn supplied(settings: &Settings, places: &StoredPlaces) -> Supplied
    ensures { result ≡ spec.supplied settings.now places.now }
{
    Supplied {
        unit: settings.unit.is_none() && has_places(places),
        ends: settings.mask.is_none(),
        pull_off: settings.pull_off.is_none(),
        feed: each_missing(&settings.feed),
        acceleration: each_missing(&settings.acceleration),
    }
}

fn homed(bit: u32, pull_off: u32, travel: u32) -> Length
    ensures { result ≡ options.length_of (spec.homed bit pull_off travel) }
{
    if bit == 1 {
        length_of(travel.saturating_sub(pull_off))
    } else {
        length_of(pull_off)
    }
}

fn homed_axes(mask: u32, pull_off: u32, travel: &PerAxis<u32>) -> PerAxis<Length>
    ensures { result ≡
        options.each_of options.length_of (spec.homed_axes mask pull_off travel.now) }
{
    PerAxis {
        x: homed(mask % 2, pull_off, travel.x),
        y: homed(mask / 2 % 2, pull_off, travel.y),
        z: homed(mask / 4 % 2, pull_off, travel.z),
    }
}

// Returns where homing ends.
fn homed_start(settings: &Settings) -> PerAxis<Length>
    ensures { result ≡ spec.homed_start settings.now }
{
    let mask = or_default(0, settings.mask);
    let pull_off = or_default(1_000_000, settings.pull_off);
    homed_axes(mask, pull_off, &settings.travel)
}

fn plain_figures(settings: &Settings) -> Figures
    ensures { result ≡ spec.plain_figures settings.now }
{
    let feed = each_or(500_000, &settings.feed);
    let acceleration = each_or(10_000, &settings.acceleration);
    figures_by(
        settings.motors,
        lengths(&settings.travel),
        speeds(&feed),
        accelerations(&acceleration),
        all_at(End::High),
    )
}

fn started_by_grbl(figures: &Figures, start: PerAxis<Length>, dump: Dump) -> Figures
    ensures { result ≡ spec.started_by_grbl figures.now start dump }
{
    Figures {
        start,
        grbl: true,
        dump,
        ..*figures
    }
}

fn figures_from(settings: &Settings, places: StoredPlaces) -> Figures
    ensures { result ≡ spec.figures_from settings.now places }
{
    let dump = Dump {
        supplied: supplied(settings, &places),
        places,
    };
    started_by_grbl(&plain_figures(settings), homed_start(settings), dump)
}

/// Returns the figures in what a terminal saved of a controller with Grbl: the settings that it
/// prints after `$$`, and the places that it prints after `$#`. Zero is at the high end of each axis,
/// the start is where homing ends, and programs are in the language of Grbl. A speed, an
/// acceleration, `$23`, `$27` or `$13` that is missing is Grbl's default. It refuses the first
/// setting that can't be read, steps or travel that are missing, and the first place that can't be
/// read. Places may be up to 4,000 mm from zero if `far` says so, and otherwise up to 1,000 mm.
pub fn read_grbl(far: bool, text: &[u8]) -> Result<Figures, FigureRefusal>
    ensures { result ≡ spec.figures_in far text.now }
{
    let settings = settings_in(text)?;
    let inches = or_default(0, settings.unit) != 0;
    let places = places_in(text, PlaceForm { inches, far })?;
    Ok(figures_from(&settings, places))
}
