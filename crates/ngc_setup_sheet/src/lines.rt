//! The lines of a machine, of a fixture and of a tool.
ghost use Rattle.std.specs.Prelude.{◌≡◌, ◌≤◌, ◌<◌, ◌+◌, ◌++◌, min, length, unsigned_abs};
ghost use Rattle.arrayvec.specs.ArrayVec.{array_vec_len};
ghost use Rattle.ngc_machine_files.specs.Machine.{file_of};
ghost use Rattle.ngc_machine_files.specs.Ranges.{IsRate};
ghost use Rattle.ngc_setup_sheet.specs.Reaches.{IsReach};
ghost use Rattle.ngc_fixed_length.specs.declared.modes.System.TheVariants as systems;
ghost use Rattle.ngc_setup_sheet.specs.declared.line.Figure.TheVariants as figures;
ghost use Rattle.ngc_setup_sheet.specs.Sheets.{line_where, warned, from, axis_speed, step_facts};
ghost use Rattle.ngc_setup_sheet.specs.Sheets.{have_one_step, motor_fact, motor_facts, step_fact, steps_fact};
ghost use Rattle.ngc_setup_sheet.specs.Sheets.{jump_facts, ring_facts, arc_feed_facts, changer_facts, is_free, margin_line, margin_facts, rate_facts, machine_places, corner_notes};
ghost use Rattle.ngc_setup_sheet.specs.Sheets.{is_zero, origin_lines, next_system, origins_from};
ghost use Rattle.ngc_setup_sheet.specs.Sheets.{machine_warnings, machine_lines, fixture_facts};
ghost use Rattle.ngc_setup_sheet.specs.Sheets.{acceleration_facts, acceleration_figure, arc_warning};
ghost use Rattle.ngc_setup_sheet.specs.Sheets.{accelerations_of, axis_acceleration, have_one_acceleration};
ghost use Rattle.ngc_setup_sheet.specs.Sheets.{axis_fact, axis_written, corner_note_by, cutter_lines};
ghost use Rattle.ngc_setup_sheet.specs.Sheets.{feed_lines, is_thousandths, limit_lines, short_warning};
ghost use Rattle.ngc_setup_sheet.specs.Sheets.{speed_facts, speed_figure, thin_warning, turning_lines};
ghost use Rattle.ngc_setup_sheet.specs.Sheets.{fixture_lines, part_line, part_lines, tool_facts};
ghost use Rattle.ngc_setup_sheet.specs.Sheets.{tool_lines, dialect_facts, stock_facts, machine_end};
ghost use Rattle.ngc_setup_sheet.specs.declared.line.Warning.TheVariants as warnings;

use crate::line::{Axis, Fact, Figure, Line, Span, Warning};
use crate::reach::{Reach, end_of, is_out_of_reach, is_outside_travel};
use crate::warnings::{
    is_odd_acceleration, is_odd_offset, is_odd_speed, is_short_tool, is_shorter, is_slow_on_arcs,
    is_thin,
};
use arrayvec::ArrayVec;
use ngc_file_figures::{
    AxisFigures, Cutter, Limits, MachineFigures, ToolLimits, acceleration_of, corner_of, jump_of,
    limits_of, speeds_of, turn_of,
};
use ngc_fixed_length::{Nm, Point3, System};
use ngc_machine_files::{ArcFeed, AxisRates, Fixture, Machine, Part, Parts, Rapids, Tool};
use ngc_machine_speeds::{
    acceleration, arc_acceleration, axis_changes, millimetres_a_minute, motor_steps_a_millimetre,
    steps_a_millimetre,
};
use ngc_motors::MotorStep;
use std::alloc::Allocator;

/// Space for the lines of a machine, of a fixture or of a tool.
pub(crate) type Lines = ArrayVec<Line, 57>;

const SHORT_TRAVEL: i64 = 10_000_000;

fn add_all(lines: &mut Lines, told: &[Line])
    requires { array_vec_len lines.old + length told.now ≤ 57 }
    ensures items { lines.new.items ≡ lines.old.items ++ told.now }
    ensures count { array_vec_len lines.new ≡ array_vec_len lines.old + length told.now }
{
    let _ = lines.try_extend_from_slice(told);
}

/// Adds a line if a condition holds.
fn add_where(lines: &mut Lines, holds: bool, line: Line)
    requires { array_vec_len lines.old < 57 }
    ensures items { lines.new.items ≡ lines.old.items ++ line_where holds line }
    ensures few { array_vec_len lines.new ≤ array_vec_len lines.old + 1 }
{
    if holds {
        add_all(lines, &[line]);
    }
}

fn warn(lines: &mut Lines, wrong: bool, warning: Warning)
    requires { array_vec_len lines.old < 57 }
    ensures items { lines.new.items ≡ lines.old.items ++ warned wrong warning }
    ensures few { array_vec_len lines.new ≤ array_vec_len lines.old + 1 }
{
    add_where(lines, wrong, Line::Warning(warning));
}

fn from(fact: Fact, low: Nm, high: Nm) -> Line
    ensures { result ≡ from fact low high }
{
    let span = Span {
        low: low.nanometres(),
        high: high.nanometres(),
    };
    Line::Fact(fact, Figure::Span(span))
}

// Returns whether a number of thousandths is one of millionths.
fn is_thousandths(number: u128, millionths: u64) -> bool
    ensures { result ≡ is_thousandths number millionths }
{
    millionths % 1_000 == 0 && u128::from(millionths / 1_000) == number
}

// Returns a speed, and what was written if that prints another number.
fn speed_figure(written: Option<u64>, number: u128) -> Figure
    ensures { result ≡ speed_figure written number }
{
    match written {
        Some(written) if !is_thousandths(number, written) => {
            Figure::SpeedAsWritten(number, written)
        }
        _ => Figure::Speed(number),
    }
}

fn acceleration_figure(written: Option<u64>, number: u128) -> Figure
    ensures { result ≡ acceleration_figure written number }
{
    match written {
        Some(written) if !is_thousandths(number, written) => {
            Figure::AccelerationAsWritten(number, written)
        }
        _ => Figure::Acceleration(number),
    }
}

fn axis_speed<A: Allocator>(machine: &Machine<A>, rate: u32) -> u128
    requires { IsRate rate }
    ensures { result ≡ axis_speed (file_of machine.now) rate }
{
    millimetres_a_minute(machine, machine.max_rate.min(rate))
}

// Returns what the grid's step and its number in a millimetre are called: those of the path, where a
// motor has another step.
fn step_names(one: bool) -> (Fact, Fact)
    ensures { result ≡ (step_fact one, steps_fact one) }
{
    if one {
        (Fact::Step, Fact::Steps)
    } else {
        (Fact::PathStep, Fact::PathSteps)
    }
}

fn step_facts<A: Allocator>(machine: &Machine<A>, written: &Option<MachineFigures>) -> [Line; 6]
    ensures { result ≡ step_facts (file_of machine.now) written.now }
{
    let (step, steps) = step_names(have_one_step(machine));
    let a_millimetre = Figure::PerMillimetre(steps_a_millimetre(machine));
    let greatest = Figure::Speed(millimetres_a_minute(machine, machine.max_rate));
    let corner = speed_figure(
        corner_of(written),
        millimetres_a_minute(machine, machine.corner),
    );
    [
        Line::Machine,
        Line::Fact(step, Figure::Length(machine.step.nanometres())),
        Line::Fact(steps, a_millimetre),
        Line::Fact(Fact::Ticks, Figure::PerSecond(machine.ticks_per_second)),
        Line::Fact(Fact::GreatestSpeed, greatest),
        Line::Fact(Fact::CornerSpeed, corner),
    ]
}

fn have_one_step<A: Allocator>(machine: &Machine<A>) -> bool
    ensures { result ≡ have_one_step (file_of machine.now) }
{
    let steps = &machine.motor_steps;
    let grid = machine.step.nanometres();
    steps.x.is_grid_step(grid) && steps.y.is_grid_step(grid) && steps.z.is_grid_step(grid)
}

// Returns the line of a motor. A step of whole nanometres is said as a length, and any other by the
// steps per millimetre.
fn motor_fact(axis: Axis, step: &MotorStep) -> Line
    ensures { result ≡ motor_fact axis step.now }
{
    if step.steps == 1 && step.nanometres <= 1_000_000 {
        return Line::Fact(Fact::Motor(axis), Figure::Length(step.nanometres as i64));
    }
    let steps = Figure::PerMillimetre(motor_steps_a_millimetre(step));
    Line::Fact(Fact::MotorSteps(axis), steps)
}

// Adds the step of each motor, unless it is that of the grid on all axes.
fn add_motors<A: Allocator>(lines: &mut Lines, machine: &Machine<A>)
    requires { array_vec_len lines.old + 3 ≤ 57 }
    ensures items { lines.new.items ≡ lines.old.items ++ motor_facts (file_of machine.now) }
    ensures few { array_vec_len lines.new ≤ array_vec_len lines.old + 3 }
{
    if !have_one_step(machine) {
        let steps = &machine.motor_steps;
        add_all(
            lines,
            &[
                motor_fact(Axis::X, &steps.x),
                motor_fact(Axis::Y, &steps.y),
                motor_fact(Axis::Z, &steps.z),
            ],
        );
    }
}

fn add_jump<A: Allocator>(lines: &mut Lines, machine: &Machine<A>, written: &Option<MachineFigures>)
    requires { array_vec_len lines.old < 57 }
    ensures items { lines.new.items
        ≡ lines.old.items ++ jump_facts (file_of machine.now) written.now }
    ensures few { array_vec_len lines.new ≤ array_vec_len lines.old + 1 }
{
    let speed = speed_figure(
        jump_of(written),
        millimetres_a_minute(machine, machine.jump),
    );
    add_where(lines, 0 < machine.jump, Line::Fact(Fact::Jump, speed));
}

fn add_ring<A: Allocator>(lines: &mut Lines, machine: &Machine<A>)
    requires { array_vec_len lines.old < 57 }
    ensures items { lines.new.items ≡ lines.old.items ++ ring_facts (file_of machine.now) }
    ensures few { array_vec_len lines.new ≤ array_vec_len lines.old + 1 }
{
    let ring = Line::Fact(Fact::Ring, Figure::Count(machine.ring));
    add_where(lines, machine.ring != 16, ring);
}

fn add_arc_feed<A: Allocator>(lines: &mut Lines, machine: &Machine<A>)
    requires { array_vec_len lines.old < 57 }
    ensures items { lines.new.items ≡ lines.old.items ++ arc_feed_facts (file_of machine.now) }
    ensures few { array_vec_len lines.new ≤ array_vec_len lines.old + 1 }
{
    match &machine.arc_feed {
        ArcFeed::Off => {}
        ArcFeed::Feed => add_all(lines, &[Line::Fact(Fact::ArcFeed, Figure::ByPlace)]),
        ArcFeed::FeedAndTurn => {
            add_all(lines, &[Line::Fact(Fact::ArcFeed, Figure::ByPlaceWithTurn)]);
        }
    }
}

fn add_changer<A: Allocator>(lines: &mut Lines, machine: &Machine<A>)
    requires { array_vec_len lines.old < 57 }
    ensures items { lines.new.items ≡ lines.old.items ++ changer_facts (file_of machine.now) }
    ensures few { array_vec_len lines.new ≤ array_vec_len lines.old + 1 }
{
    add_where(
        lines,
        machine.changer,
        Line::Fact(Fact::Changer, Figure::ByMachine),
    );
}

fn add_margin(lines: &mut Lines, fact: Fact, margin: Nm)
    requires { array_vec_len lines.old < 57 }
    ensures items { lines.new.items ≡ lines.old.items ++ margin_line fact margin }
    ensures few { array_vec_len lines.new ≤ array_vec_len lines.old + 1 }
{
    let nanometres = margin.nanometres();
    add_where(
        lines,
        nanometres != 0,
        Line::Fact(fact, Figure::Length(nanometres)),
    );
}

fn add_margins<A: Allocator>(lines: &mut Lines, machine: &Machine<A>)
    requires { array_vec_len lines.old + 3 ≤ 57 }
    ensures items { lines.new.items ≡ lines.old.items ++ margin_facts (file_of machine.now) }
    ensures few { array_vec_len lines.new ≤ array_vec_len lines.old + 3 }
{
    add_margin(lines, Fact::Margin, machine.margins.fixtures);
    add_margin(lines, Fact::TravelMargin, machine.margins.travel);
    add_where(
        lines,
        is_free(machine.rapids),
        Line::Fact(Fact::Rapids, Figure::AnyWay),
    );
}

fn is_free(rapids: Rapids) -> bool
    ensures { result ≡ is_free rapids }
{
    match rapids {
        Rapids::Straight => false,
        Rapids::Free => true,
    }
}

fn add_dialect<A: Allocator>(lines: &mut Lines, machine: &Machine<A>)
    requires { array_vec_len lines.old < 57 }
    ensures items { lines.new.items ≡ lines.old.items ++ dialect_facts (file_of machine.now) }
    ensures few { array_vec_len lines.new ≤ array_vec_len lines.old + 1 }
{
    match machine.dialect {
        None => {}
        Some(dialect) => add_all(
            lines,
            &[Line::Fact(Fact::Dialect, Figure::Language(dialect))],
        ),
    }
}

fn add_stock<A: Allocator>(lines: &mut Lines, machine: &Machine<A>)
    requires { array_vec_len lines.old < 57 }
    ensures items { lines.new.items ≡ lines.old.items ++ stock_facts (file_of machine.now) }
    ensures few { array_vec_len lines.new ≤ array_vec_len lines.old + 1 }
{
    match machine.stock {
        None => {}
        Some(block) => add_all(lines, &[Line::Fact(Fact::Stock, Figure::Block(block))]),
    }
}

// Returns the figure of an axis, of all that are written.
fn axis_written(axis: Axis, figures: &Option<AxisFigures>) -> Option<u64>
    ensures { result ≡ axis_written axis figures.now }
{
    match (figures, axis) {
        (None, _) => None,
        (Some(figures), Axis::X) => Some(figures.x),
        (Some(figures), Axis::Y) => Some(figures.y),
        (Some(figures), Axis::Z) => Some(figures.z),
    }
}

fn accelerations_of(written: &Option<MachineFigures>) -> Option<AxisFigures>
    ensures { result ≡ accelerations_of written.now }
{
    match written {
        None => None,
        Some(written) => Some(written.accelerations),
    }
}

// Returns whether the axes have the same change, and the same acceleration is written for all of them.
fn have_one_acceleration(changes: &AxisRates, written: &Option<AxisFigures>) -> bool
    ensures { result ≡ have_one_acceleration changes.now written.now }
{
    let one = changes.x == changes.y && changes.y == changes.z;
    match written {
        None => one,
        Some(written) => one && (written.x == written.y && written.y == written.z),
    }
}

fn axis_acceleration<A: Allocator>(
    machine: &Machine<A>,
    written: &Option<AxisFigures>,
    axis: Axis,
    change: u32,
) -> Line
    requires { IsRate change }
    ensures { result ≡ axis_acceleration (file_of machine.now) written.now axis change }
{
    let figure = acceleration_figure(axis_written(axis, written), acceleration(machine, change));
    Line::Fact(Fact::AxisAcceleration(axis), figure)
}

// Adds the acceleration of each axis, or one line if all have the same.
fn add_accelerations<A: Allocator>(
    lines: &mut Lines,
    machine: &Machine<A>,
    written: &Option<MachineFigures>,
)
    requires { array_vec_len lines.old + 3 ≤ 57 }
    ensures items { lines.new.items
        ≡ lines.old.items ++ acceleration_facts (file_of machine.now) written.now }
    ensures few { array_vec_len lines.new ≤ array_vec_len lines.old + 3 }
{
    let changes = axis_changes(machine);
    let axes = accelerations_of(written);
    if have_one_acceleration(&changes, &axes) {
        let along = acceleration_figure(acceleration_of(written), acceleration(machine, changes.x));
        add_all(lines, &[Line::Fact(Fact::Acceleration, along)]);
    } else {
        add_all(
            lines,
            &[
                axis_acceleration(machine, &axes, Axis::X, changes.x),
                axis_acceleration(machine, &axes, Axis::Y, changes.y),
                axis_acceleration(machine, &axes, Axis::Z, changes.z),
            ],
        );
    }
}

fn axis_fact<A: Allocator>(
    machine: &Machine<A>,
    speeds: &Option<AxisFigures>,
    axis: Axis,
    rate: u32,
) -> Line
    requires { IsRate rate }
    ensures { result ≡ axis_fact (file_of machine.now) speeds.now axis rate }
{
    let figure = speed_figure(axis_written(axis, speeds), axis_speed(machine, rate));
    Line::Fact(Fact::Speed(axis), figure)
}

fn speed_facts<A: Allocator>(machine: &Machine<A>, speeds: &Option<AxisFigures>) -> [Line; 3]
    ensures { result ≡ speed_facts (file_of machine.now) speeds.now }
{
    let rates = &machine.axis_rates;
    [
        axis_fact(machine, speeds, Axis::X, rates.x),
        axis_fact(machine, speeds, Axis::Y, rates.y),
        axis_fact(machine, speeds, Axis::Z, rates.z),
    ]
}

fn add_rates<A: Allocator>(
    lines: &mut Lines,
    machine: &Machine<A>,
    written: &Option<MachineFigures>,
)
    requires { array_vec_len lines.old + 7 ≤ 57 }
    ensures items { lines.new.items
        ≡ lines.old.items ++ rate_facts (file_of machine.now) written.now }
    ensures few { array_vec_len lines.new ≤ array_vec_len lines.old + 7 }
{
    let arcs = acceleration_figure(turn_of(written), arc_acceleration(machine));
    add_accelerations(lines, machine, written);
    add_all(lines, &[Line::Fact(Fact::ArcAcceleration, arcs)]);
    add_all(lines, &speed_facts(machine, &speeds_of(written)));
}

fn machine_places<A: Allocator>(machine: &Machine<A>) -> [Line; 6]
    ensures { result ≡ machine_places (file_of machine.now) }
{
    let (low, high) = (machine.low, machine.high);
    [
        from(Fact::Travel(Axis::X), low.x, high.x),
        from(Fact::Travel(Axis::Y), low.y, high.y),
        from(Fact::Travel(Axis::Z), low.z, high.z),
        Line::Fact(Fact::Start, Figure::Place(machine.start)),
        Line::Fact(Fact::Home, Figure::Place(machine.home28)),
        Line::Fact(Fact::SecondHome, Figure::Place(machine.home30)),
    ]
}

fn is_zero(place: &Point3) -> bool
    ensures { result ≡ is_zero place.now }
{
    place.x.nanometres() == 0 && place.y.nanometres() == 0 && place.z.nanometres() == 0
}

fn add_origin<A: Allocator>(
    lines: &mut Lines,
    machine: &Machine<A>,
    reach: &Reach,
    system: System,
    origin: &Point3,
)
    requires room { array_vec_len lines.old + 2 ≤ 57 }
    requires reach { IsReach reach.now }
    ensures items { lines.new.items ≡ lines.old.items
        ++ origin_lines (file_of machine.now) reach.now system origin.now }
    ensures few { array_vec_len lines.new ≤ array_vec_len lines.old + 2 }
{
    if !is_zero(origin) {
        add_all(
            lines,
            &[Line::Fact(Fact::Origin(system), Figure::Place(*origin))],
        );
        let outside = is_outside_travel(machine, reach, origin);
        warn(lines, outside, Warning::Origin(system));
    }
}

fn corner_note(written: &Option<MachineFigures>, speed: u128) -> Line
    ensures { result ≡ corner_note_by written.now speed }
{
    match written {
        None => Line::CornerNote(speed),
        Some(_) => Line::WrittenCornerNote(speed),
    }
}

fn add_corner_note<A: Allocator>(
    lines: &mut Lines,
    machine: &Machine<A>,
    written: &Option<MachineFigures>,
)
    requires { array_vec_len lines.old < 57 }
    ensures items { lines.new.items
        ≡ lines.old.items ++ corner_notes (file_of machine.now) written.now }
    ensures few { array_vec_len lines.new ≤ array_vec_len lines.old + 1 }
{
    let speed = millimetres_a_minute(machine, machine.corner);
    add_where(lines, machine.jump == 0, corner_note(written, speed));
}

// Returns the warning of a low acceleration on arcs, which names keys of the file's version.
fn arc_warning(written: &Option<MachineFigures>) -> Warning
    ensures { result ≡ arc_warning written.now }
{
    match written {
        None => Warning::Arcs,
        Some(MachineFigures { turn: Some(_), .. }) => Warning::WrittenTurn,
        Some(_) => Warning::WrittenArcs,
    }
}

/// Returns the coordinate system that comes next in the machine file.
fn next_system(system: System) -> System
    ensures { result ≡ next_system system }
{
    match system {
        System::First => System::Second,
        System::Second => System::Third,
        System::Third => System::Fourth,
        System::Fourth => System::Fifth,
        System::Fifth => System::Sixth,
        System::Sixth => System::Seventh,
        System::Seventh => System::Eighth,
        System::Eighth | System::Ninth => System::Ninth,
    }
}

fn add_origins<A: Allocator>(
    lines: &mut Lines,
    machine: &Machine<A>,
    reach: &Reach,
    origins: &[Point3; 9],
)
    requires room { array_vec_len lines.old + 18 ≤ 57 }
    requires reach { IsReach reach.now }
    ensures items { lines.new.items ≡ lines.old.items
        ++ origins_from (file_of machine.now) reach.now systems.First origins.now }
    ensures few { array_vec_len lines.new ≤ array_vec_len lines.old + 18 }
{
    let mut system = System::First;
    for origin in origins {
        add_origin(lines, machine, reach, system, origin);
        system = next_system(system);
    }
}

fn warn_of_machine<A: Allocator>(
    lines: &mut Lines,
    machine: &Machine<A>,
    written: &Option<MachineFigures>,
)
    requires { array_vec_len lines.old + 6 ≤ 57 }
    ensures { lines.new.items
        ≡ lines.old.items ++ machine_warnings (file_of machine.now) written.now }
{
    let (low, high) = (machine.low, machine.high);
    warn(lines, is_odd_speed(machine), Warning::Speed);
    warn(lines, is_odd_acceleration(machine), Warning::Acceleration);
    warn(lines, is_slow_on_arcs(machine), arc_warning(written));
    warn(
        lines,
        is_shorter(SHORT_TRAVEL, low.x, high.x),
        Warning::Travel(Axis::X),
    );
    warn(
        lines,
        is_shorter(SHORT_TRAVEL, low.y, high.y),
        Warning::Travel(Axis::Y),
    );
    warn(
        lines,
        is_shorter(SHORT_TRAVEL, low.z, high.z),
        Warning::Travel(Axis::Z),
    );
}

fn add_end<A: Allocator>(
    lines: &mut Lines,
    machine: &Machine<A>,
    written: &Option<MachineFigures>,
    reach: &Reach,
)
    requires room { array_vec_len lines.old + 32 ≤ 57 }
    requires reach { IsReach reach.now }
    ensures { lines.new.items
        ≡ lines.old.items ++ machine_end (file_of machine.now) written.now reach.now }
{
    add_all(lines, &machine_places(machine));
    add_origins(lines, machine, reach, &machine.origins);
    add_stock(lines, machine);
    add_corner_note(lines, machine, written);
    warn_of_machine(lines, machine, written);
}

#[tactic(auto, unfolding(crate::specs::Sheets::machine_lines))]
pub(crate) fn machine_lines<A: Allocator>(
    machine: &Machine<A>,
    written: &Option<MachineFigures>,
    reach: &Reach,
) -> Lines
    requires { IsReach reach.now }
    ensures { result.items ≡ machine_lines (file_of machine.now) written.now reach.now }
{
    let mut lines = ArrayVec::new();
    add_all(&mut lines, &step_facts(machine, written));
    add_motors(&mut lines, machine);
    add_jump(&mut lines, machine, written);
    add_rates(&mut lines, machine, written);
    add_ring(&mut lines, machine);
    add_arc_feed(&mut lines, machine);
    add_changer(&mut lines, machine);
    add_margins(&mut lines, machine);
    add_dialect(&mut lines, machine);
    add_end(&mut lines, machine, written, reach);
    lines
}

fn fixture_facts(number: usize, fixture: &Fixture) -> [Line; 4]
    ensures { result ≡ fixture_facts number fixture.now }
{
    let Fixture {
        low,
        high,
        name,
        ..
    } = *fixture;
    [
        Line::Fixture(number, name),
        from(Fact::Extent(Axis::X), low.x, high.x),
        from(Fact::Extent(Axis::Y), low.y, high.y),
        from(Fact::Extent(Axis::Z), low.z, high.z),
    ]
}

// Returns the warning of a thin fixture, which fits the version of the machine file.
fn thin_warning(written: &Option<MachineFigures>, number: usize) -> Warning
    ensures { result ≡ thin_warning written.now number }
{
    match written {
        None => Warning::Thin(number),
        Some(_) => Warning::WrittenThin(number),
    }
}

pub(crate) fn fixture_lines<A: Allocator>(
    machine: &Machine<A>,
    written: &Option<MachineFigures>,
    reach: &Reach,
    number: usize,
    fixture: &Fixture,
) -> Lines
    requires { IsReach reach.now }
    ensures { result.items ≡ fixture_lines (file_of machine.now) written.now reach.now number fixture.now }
{
    let mut lines = ArrayVec::new();
    add_all(&mut lines, &fixture_facts(number, fixture));
    warn(&mut lines, is_thin(fixture), thin_warning(written, number));
    let unreached = is_out_of_reach(machine, reach, fixture);
    warn(&mut lines, unreached, Warning::OutOfReach(number));
    lines
}

fn part_line(foot: i64, part: &Part) -> Line
    requires { unsigned_abs foot ≤ 1000000000000 }
    ensures { result ≡ part_line foot part.now }
{
    let heights = Span {
        low: foot,
        high: end_of(foot, part),
    };
    Line::Fact(
        Fact::Part,
        Figure::Part(heights, 2 * part.radius.nanometres()),
    )
}

fn add_parts(lines: &mut Lines, foot: Nm, parts: &Parts)
    requires { array_vec_len lines.old + 4 ≤ 57 }
    ensures items { lines.new.items ≡ lines.old.items ++ part_lines foot parts.now }
    ensures few { array_vec_len lines.new ≤ array_vec_len lines.old + 4 }
{
    let mut height = foot.nanometres();
    for part in parts.as_slice() {
        add_all(lines, &[part_line(height, part)]);
        height = end_of(height, part);
    }
}

fn tool_facts(tool: &Tool) -> [Line; 2]
    ensures { result ≡ tool_facts tool.now }
{
    [
        Line::Tool(tool.number, tool.name),
        Line::Fact(Fact::Offset, Figure::Length(tool.offset.nanometres())),
    ]
}

fn add_cutter(lines: &mut Lines, cutter: &Option<Cutter>)
    requires { array_vec_len lines.old < 57 }
    ensures items { lines.new.items ≡ lines.old.items ++ cutter_lines cutter.now }
    ensures few { array_vec_len lines.new ≤ array_vec_len lines.old + 1 }
{
    match cutter {
        None => {}
        Some(cutter) => add_all(lines, &[Line::Fact(Fact::Cutter, Figure::Cutter(*cutter))]),
    }
}

fn add_turning(lines: &mut Lines, limits: &Option<Limits>)
    requires { array_vec_len lines.old < 57 }
    ensures items { lines.new.items ≡ lines.old.items ++ turning_lines limits.now }
    ensures few { array_vec_len lines.new ≤ array_vec_len lines.old + 1 }
{
    match limits {
        None => {}
        Some(limits) => add_all(
            lines,
            &[Line::Fact(Fact::SpindleLimits, Figure::Turning(*limits))],
        ),
    }
}

fn add_feeds(lines: &mut Lines, fact: Fact, limits: &Option<Limits>)
    requires { array_vec_len lines.old < 57 }
    ensures items { lines.new.items ≡ lines.old.items ++ feed_lines fact limits.now }
    ensures few { array_vec_len lines.new ≤ array_vec_len lines.old + 1 }
{
    match limits {
        None => {}
        Some(limits) => add_all(lines, &[Line::Fact(fact, Figure::Feeds(*limits))]),
    }
}

// Adds the cutter of a tool and its limits.
fn add_limits(lines: &mut Lines, limits: &Option<ToolLimits>)
    requires { array_vec_len lines.old + 4 ≤ 57 }
    ensures items { lines.new.items ≡ lines.old.items ++ limit_lines limits.now }
    ensures few { array_vec_len lines.new ≤ array_vec_len lines.old + 4 }
{
    if let Some(limits) = limits {
        add_cutter(lines, &limits.cutter);
        add_turning(lines, &limits.speed);
        add_feeds(lines, Fact::FeedLimits, &limits.feed);
        add_feeds(lines, Fact::PlungeLimits, &limits.plunge);
    }
}

// Returns the warning of a short tool, which fits the version of its table.
fn short_warning(limits: &Option<ToolLimits>, number: u32) -> Warning
    ensures { result ≡ short_warning limits.now number }
{
    match limits {
        None => Warning::Short(number),
        Some(_) => Warning::WrittenShort(number),
    }
}

/// Returns the lines of a tool, with what its table says of it besides its body. It has a warning about
/// its offset unless no tool of the table has one.
pub(crate) fn tool_lines(unset: bool, table: &[ToolLimits], tool: &Tool) -> Lines
    ensures { result.items ≡ tool_lines unset table.now tool.now }
{
    let limits = limits_of(tool.number, table);
    let mut lines = ArrayVec::new();
    add_all(&mut lines, &tool_facts(tool));
    add_parts(&mut lines, tool.bottom, &tool.parts);
    add_limits(&mut lines, &limits);
    warn(
        &mut lines,
        is_short_tool(tool),
        short_warning(&limits, tool.number),
    );
    warn(
        &mut lines,
        !unset && is_odd_offset(tool),
        Warning::Offset(tool.number),
    );
    lines
}

/// Returns the lines after those of the tools: a warning if no tool of the table has an offset.
pub(crate) fn lines_after_tools(unset: bool) -> Lines
    ensures { result.items ≡ warned unset warnings.Unset }
{
    let mut lines = ArrayVec::new();
    warn(&mut lines, unset, Warning::Unset);
    lines
}
