ghost use Rattle.std.specs.Prelude.{◌≡◌, ◌≤◌, ◌<ℤ◌, pos, map, option_map, true, unsigned_abs, IfOk, IfSome};
ghost use Rattle.std.specs.List.{All, list_all};
ghost use Rattle.std.specs.Ordering.{int_eq};
ghost use Rattle.ngc_fixed_length.specs.Length.{IsStep};
ghost use Rattle.ngc_motors.specs.Counts.{IsMotorStep};
ghost use Rattle.ngc_machine_files.specs.Machine.{file_of};
ghost use Rattle.ngc_machine_files.specs.Numbers.{from_to};
ghost use Rattle.ngc_machine_files.specs.Ranges.{CORNER_LIMIT, IsFrom, IsRate, IsJump, IsRing, AreRates};
ghost use Rattle.ngc_machine_files.specs.Ranges.{IsArcBound, IsSized, IsFixture, IsStock, PLACE_LIMIT};
ghost use Rattle.ngc_machine_files.specs.Ranges.{place_limit, travel_limit};
ghost use Rattle.ngc_machine_files.specs.Ranges.{MARGIN_LIMIT, AreMargins, AreArcBounds, AreLimits};
ghost use Rattle.ngc_machine_files.specs.MachineText.{values_of, is_sized, is_at_most, is_below};
ghost use Rattle.ngc_machine_files.specs.MachineText.{is_multiple, is_on_grid, good_version, is_rate};
ghost use Rattle.ngc_machine_files.specs.MachineText.{good_axis_rates, good_bounds, good_rates, good_travel};
ghost use Rattle.ngc_machine_files.specs.MachineText.{good_turn, good_axis_turns, good_own, good_numbers, axis_turns_of, limits_of, AreOwn};
ghost use Rattle.ngc_machine_files.specs.MachineText.{good_axis_ends, good_ends, good_motors};
ghost use Rattle.ngc_machine_files.specs.MachineText.{good_places, good_fixture, good_fixtures};
ghost use Rattle.ngc_machine_files.specs.MachineText.{machine_ranges, machine_from, place_of};
ghost use Rattle.ngc_machine_files.specs.MachineText.{axis_rates_of, fixture_of, arc_feed_of, has_changer, AreFrom, IsBlock, IsGood};
ghost use Rattle.ngc_machine_files.specs.MachineText.{good_block, good_limits, good_margin, good_stock, margins_of, stock_of};

use crate::fault::FileFault;
use crate::machine::{
    ArcFeed, AxisLimits, AxisRates, AxisTurns, Fixture, Machine, Margins, StockBox,
};
use crate::machine_contents::{
    Coordinates, Corners, LimitNumbers, MachineContents, MachineNumbers, MachinePoints,
    OptionalNumbers, StockNumbers,
};
use crate::name::name_from;
use crate::numbers::{is_from_to, length};
use ngc_fixed_length::{Nm, Point3};
use ngc_motors::{MotorStep, MotorSteps};
use std::alloc::{AllocError, Global};

/// The greatest size of a coordinate of home positions and origins, in nanometres.
const PLACE_LIMIT: u64 = 4_000_000_000;

/// The greatest size of a coordinate of travel limits, in nanometres.
const TRAVEL_LIMIT: u64 = 3_999_000_000;

/// The greatest size of all these in a file of version 1 or 2.
const NEAR_LIMIT: u64 = 1_000_000_000;

/// The greatest size of a coordinate of the corners of a block of material, in nanometres.
const BLOCK_LIMIT: u64 = 1_000_000_000;

/// The greatest size of a coordinate of a fixture's corner, in nanometres.
const CORNER_LIMIT: u64 = 4_000_000_000;

/// The greatest margin, in nanometres.
const MARGIN_LIMIT: i64 = 100_000_000;

fn is_sized(limit: u64, point: &Coordinates) -> bool
    ensures { result ≡ is_sized limit point.now }
{
    point.x.unsigned_abs() <= limit
        && point.y.unsigned_abs() <= limit
        && point.z.unsigned_abs() <= limit
}

fn place_limit(far: bool) -> u64
    ensures { result ≡ place_limit far }
{
    if far { PLACE_LIMIT } else { NEAR_LIMIT }
}

fn travel_limit(far: bool) -> u64
    ensures { result ≡ travel_limit far }
{
    if far { TRAVEL_LIMIT } else { NEAR_LIMIT }
}

fn is_multiple(step: i64, coordinate: i64) -> bool
    requires { pos 0 <ℤ step }
    ensures { result ≡ is_multiple step coordinate }
{
    coordinate % step == 0
}

impl Coordinates {
    /// Returns whether each number is at most the other's.
    pub fn is_at_most(&self, other: &Coordinates) -> bool
        ensures { result ≡ is_at_most self.now other.now }
    {
        self.x <= other.x && self.y <= other.y && self.z <= other.z
    }

    /// Returns whether each number is less than the other's.
    pub fn is_below(&self, other: &Coordinates) -> bool
        ensures { result ≡ is_below self.now other.now }
    {
        self.x < other.x && self.y < other.y && self.z < other.z
    }

    /// Returns whether each number is a whole multiple of the step, which is more than 0.
    pub fn is_on_grid(&self, step: i64) -> bool
        requires { pos 0 <ℤ step }
        ensures { result ≡ is_on_grid step self.now }
    {
        is_multiple(step, self.x) && is_multiple(step, self.y) && is_multiple(step, self.z)
    }
}

#[tactic(auto, unfolding(crate::specs::MachineText::good_version))]
fn is_version_good(numbers: &MachineNumbers) -> bool
    ensures { result ≡ good_version numbers.now.version }
{
    numbers.version == 1 || numbers.version == 2
}

fn is_step_good(numbers: &MachineNumbers) -> bool
    ensures { result ≡ from_to (pos 500) (pos 50000) numbers.now.step }
{
    is_from_to(500, 50_000, numbers.step)
}

#[tactic(auto, unfolding(crate::specs::MachineText::is_rate))]
fn is_rate(value: i64) -> bool
    ensures { result ≡ is_rate value }
{
    is_from_to(1, 1_000_000, value)
}

#[tactic(auto, unfolding(crate::specs::MachineText::good_motors))]
fn are_motors_good(step: i64, motors: &MotorSteps) -> bool
    ensures { result ≡ good_motors step motors.now }
{
    motors.x.is_motor(step) && motors.y.is_motor(step) && motors.z.is_motor(step)
}

fn are_ticks_good(numbers: &MachineNumbers) -> bool
    ensures { result ≡ is_rate numbers.now.ticks_per_second }
{
    is_rate(numbers.ticks_per_second)
}

fn are_axis_rates_good(rates: &Coordinates) -> bool
    ensures { result ≡ good_axis_rates rates.now }
{
    is_rate(rates.x) && is_rate(rates.y) && is_rate(rates.z)
}

fn is_turn_good(turn: i64) -> bool
    ensures { result ≡ good_turn turn }
{
    is_from_to(1, 1_000_000_000_000, turn)
}

fn are_axis_turns_good(turns: &Coordinates) -> bool
    ensures { result ≡ good_axis_turns turns.now }
{
    is_turn_good(turns.x) && is_turn_good(turns.y) && is_turn_good(turns.z)
}

fn are_own_good(own: &Option<LimitNumbers>) -> bool
    ensures { result ≡ good_own own.now }
{
    match own {
        None => true,
        Some(limits) => are_axis_rates_good(&limits.changes) && are_axis_turns_good(&limits.turns),
    }
}

fn are_bounds_good(contents: &MachineContents) -> bool
    ensures { result ≡ good_bounds (values_of contents.now) }
{
    is_rate(contents.numbers.max_rate)
        && is_rate(contents.numbers.change)
        && is_rate(contents.numbers.corner)
        && is_turn_good(contents.numbers.turn)
        && are_axis_rates_good(&contents.axis_rates)
}

#[tactic(auto, unfolding(crate::specs::MachineText::good_numbers))]
fn are_numbers_good(contents: &MachineContents) -> bool
    ensures { result ≡ good_numbers (values_of contents.now) }
{
    are_bounds_good(contents)
        && is_from_to(0, 1_000_000, contents.numbers.optional.jump)
        && is_from_to(16, 1_024, contents.numbers.optional.ring)
        && is_from_to(0, 2, contents.numbers.optional.arc_feed)
        && is_from_to(0, 1, contents.numbers.optional.changer)
}

fn are_rates_good(contents: &MachineContents) -> bool
    ensures { result ≡ good_rates (values_of contents.now) }
{
    are_numbers_good(contents) && are_own_good(&contents.own)
}

fn is_margin_good(margin: i64) -> bool
    ensures { result ≡ good_margin margin }
{
    is_from_to(0, MARGIN_LIMIT, margin)
}

fn are_limits_good(step: i64, points: &MachinePoints) -> bool
    requires { pos 0 <ℤ step }
    ensures { result ≡ good_limits step points.now }
{
    let limit = travel_limit(points.far);
    is_sized(limit, &points.low)
        && is_sized(limit, &points.high)
        && points.low.is_at_most(&points.high)
        && points.low.is_at_most(&points.start)
        && points.start.is_at_most(&points.high)
        && points.start.is_on_grid(step)
}

#[tactic(auto, unfolding(crate::specs::MachineText::good_ends))]
fn are_ends_good(step: i64, motor: &MotorStep, low: i64, high: i64) -> bool
    requires { IsMotorStep motor.now }
    ensures { result ≡ good_ends step motor.now low high }
{
    motor.is_grid_step(step) || motor.ends_at_steps(low, high)
}

#[tactic(auto, unfolding(crate::specs::MachineText::good_axis_ends))]
fn are_axis_ends_good(step: i64, motors: &MotorSteps, points: &MachinePoints) -> bool
    requires x { IsMotorStep motors.now.x }
    requires y { IsMotorStep motors.now.y }
    requires z { IsMotorStep motors.now.z }
    ensures { result ≡ good_axis_ends step motors.now points.now }
{
    are_ends_good(step, &motors.x, points.low.x, points.high.x)
        && are_ends_good(step, &motors.y, points.low.y, points.high.y)
        && are_ends_good(step, &motors.z, points.low.z, points.high.z)
}

#[tactic(auto, unfolding(crate::specs::MachineText::good_travel))]
fn is_travel_good(contents: &MachineContents) -> bool
    requires step { pos 0 <ℤ contents.now.numbers.step }
    requires x { IsMotorStep contents.now.motor_steps.x }
    requires y { IsMotorStep contents.now.motor_steps.y }
    requires z { IsMotorStep contents.now.motor_steps.z }
    ensures { result ≡ good_travel (values_of contents.now) }
{
    are_limits_good(contents.numbers.step, &contents.points)
        && is_margin_good(contents.numbers.optional.travel_margin)
        && are_axis_ends_good(
            contents.numbers.step,
            &contents.motor_steps,
            &contents.points,
        )
}

fn are_origins_good(limit: u64, origins: &[Coordinates]) -> bool
    ensures { result ≡ list_all (is_sized limit) origins.now }
{
    origins.iter().all(|origin| is_sized(limit, origin))
}

fn are_places_good(contents: &MachineContents) -> bool
    ensures { result ≡ good_places (values_of contents.now) }
{
    let limit = place_limit(contents.points.far);
    is_sized(limit, &contents.points.home28)
        && is_sized(limit, &contents.points.home30)
        && are_origins_good(limit, &contents.origins)
}

fn is_fixture_good(fixture: &Corners) -> bool
    ensures { result ≡ good_fixture fixture.now }
{
    is_sized(CORNER_LIMIT, &fixture.low)
        && is_sized(CORNER_LIMIT, &fixture.high)
        && fixture.low.is_below(&fixture.high)
        && fixture.name.is_some()
}

fn is_each_fixture_good(fixtures: &[Corners]) -> bool
    ensures { result ≡ list_all good_fixture fixtures.now }
{
    fixtures.iter().all(is_fixture_good)
}

fn are_fixtures_good(contents: &MachineContents) -> bool
    ensures { result ≡ good_fixtures (values_of contents.now) }
{
    contents.fixtures.len() <= 256
        && is_each_fixture_good(contents.fixtures.as_slice())
        && is_margin_good(contents.numbers.optional.margin)
}

fn is_block_good(block: &StockNumbers) -> bool
    ensures { result ≡ good_block block.now }
{
    is_from_to(0, 9, block.system)
        && is_sized(BLOCK_LIMIT, &block.low)
        && is_sized(BLOCK_LIMIT, &block.high)
        && block.low.is_below(&block.high)
}

fn is_stock_good(stock: &Option<StockNumbers>) -> bool
    ensures { result ≡ good_stock stock.now }
{
    match stock {
        None => true,
        Some(block) => is_block_good(block),
    }
}

fn step_length(numbers: &MachineNumbers) -> Nm
    requires { IsStep numbers.now.step }
    ensures { result ≡ numbers.now.step }
{
    length(numbers.step)
}

/// Returns a number of 1 to 1,000,000 as unsigned.
fn rate(value: i64) -> u32
    requires { IsFrom (pos 1) (pos 1000000) value }
    ensures value { result ≡ unsigned_abs value }
    ensures range { IsRate result }
{
    value as u32
}

/// Returns a number of 0 to 1,000,000 as unsigned.
fn jump(value: i64) -> u32
    requires { IsFrom (pos 0) (pos 1000000) value }
    ensures value { result ≡ unsigned_abs value }
    ensures range { IsJump result }
{
    value as u32
}

/// Returns a number of 16 to 1,024 as unsigned.
fn ring(value: i64) -> u32
    requires { IsFrom (pos 16) (pos 1024) value }
    ensures value { result ≡ unsigned_abs value }
    ensures range { IsRing result }
{
    value as u32
}

/// Returns what holds at each point of an arc.
fn arc_feed(numbers: &OptionalNumbers) -> ArcFeed
    ensures { result ≡ arc_feed_of numbers.now.arc_feed }
{
    match numbers.arc_feed {
        1 => ArcFeed::Feed,
        2 => ArcFeed::FeedAndTurn,
        _ => ArcFeed::Off,
    }
}

/// Returns whether the machine changes tools by itself.
fn has_changer(numbers: &OptionalNumbers) -> bool
    ensures { result ≡ has_changer numbers.now.changer }
{
    numbers.changer == 1
}

fn margins(numbers: &OptionalNumbers) -> Margins
    requires fixtures { IsFrom (pos 0) MARGIN_LIMIT numbers.now.margin }
    requires travel { IsFrom (pos 0) MARGIN_LIMIT numbers.now.travel_margin }
    ensures value { result ≡ margins_of numbers.now }
    ensures range { AreMargins result }
{
    Margins {
        fixtures: length(numbers.margin),
        travel: length(numbers.travel_margin),
    }
}

fn axis_rates(rates: &Coordinates) -> AxisRates
    requires { AreFrom (pos 1) (pos 1000000) rates.now }
    ensures value { result ≡ axis_rates_of rates.now }
    ensures range { AreRates result }
{
    AxisRates {
        x: rate(rates.x),
        y: rate(rates.y),
        z: rate(rates.z),
    }
}

fn arc_bound(value: i64) -> u64
    requires { IsFrom (pos 1) (pos 1000000000000) value }
    ensures value { result ≡ unsigned_abs value }
    ensures range { IsArcBound result }
{
    value as u64
}

fn axis_turns(turns: &Coordinates) -> AxisTurns
    requires { AreFrom (pos 1) (pos 1000000000000) turns.now }
    ensures value { result ≡ axis_turns_of turns.now }
    ensures range { AreArcBounds result }
{
    AxisTurns {
        x: arc_bound(turns.x),
        y: arc_bound(turns.y),
        z: arc_bound(turns.z),
    }
}

fn limits(numbers: &LimitNumbers) -> AxisLimits
    requires { AreOwn numbers.now }
    ensures value { result ≡ limits_of numbers.now }
    ensures range { AreLimits result }
{
    AxisLimits {
        changes: axis_rates(&numbers.changes),
        turns: axis_turns(&numbers.turns),
    }
}

fn own(numbers: &Option<LimitNumbers>) -> Option<AxisLimits>
    requires { IfSome numbers.now AreOwn }
    ensures value { result ≡ option_map limits_of numbers.now }
    ensures range { IfSome result AreLimits }
{
    match numbers {
        None => None,
        Some(numbers) => Some(limits(numbers)),
    }
}

fn place(point: &Coordinates) -> Point3
    requires { IsSized CORNER_LIMIT (place_of point.now) }
    ensures { result ≡ place_of point.now }
{
    Point3 {
        x: length(point.x),
        y: length(point.y),
        z: length(point.z),
    }
}

fn fixture(corners: &Corners) -> Fixture
    requires { IsFixture (fixture_of corners.now) }
    ensures { result ≡ fixture_of corners.now }
{
    Fixture {
        low: place(&corners.low),
        high: place(&corners.high),
        name: name_from(&corners.name),
        system: corners.system,
    }
}

fn origins(origins: &[Coordinates; 9]) -> [Point3; 9]
    requires { All (λ p. IsSized PLACE_LIMIT (place_of p)) origins.now }
    ensures { result ≡ map place_of origins.now }
{
    let mut places = [place(&origins[0]); 9];
    for (i, origin) in origins.iter().enumerate() {
        places[i] = place(origin);
    }
    places
}

fn fixtures(alloc: Global, corners: &[Corners]) -> Result<Vec<Fixture>, AllocError>
    requires { All (λ f. IsFixture (fixture_of f)) corners.now }
    ensures { IfOk result (λ v. v.items ≡ map fixture_of corners.now) }
{
    let mut fixtures = Vec::with_capacity(alloc, corners.len())?;
    for each in corners {
        fixtures.push(fixture(each))?;
    }
    Ok(fixtures)
}

/// Returns a number of 0 to 9 as unsigned.
fn coordinate_system(value: i64) -> u32
    requires { IsFrom (pos 0) (pos 9) value }
    ensures { result ≡ unsigned_abs value }
{
    value as u32
}

fn block(numbers: &StockNumbers) -> StockBox
    requires { IsBlock numbers.now }
    ensures { result ≡ stock_of numbers.now }
{
    StockBox {
        system: coordinate_system(numbers.system),
        low: place(&numbers.low),
        high: place(&numbers.high),
    }
}

fn stock(numbers: &Option<StockNumbers>) -> Option<StockBox>
    requires { IfSome numbers.now IsBlock }
    ensures value { result ≡ option_map stock_of numbers.now }
    ensures range { IfSome result IsStock }
{
    match numbers {
        None => None,
        Some(numbers) => Some(block(numbers)),
    }
}

impl MachineContents {
    /// Checks the ranges in order, and returns the first fault.
    pub(crate) fn check(&self) -> Result<(), FileFault>
        ensures { result ≡ machine_ranges (values_of self.now) }
    {
        if !is_version_good(&self.numbers) {
            return Err(FileFault::Version);
        }
        if !is_step_good(&self.numbers) {
            return Err(FileFault::Step);
        }
        if !are_motors_good(self.numbers.step, &self.motor_steps) {
            return Err(FileFault::Step);
        }
        if !are_ticks_good(&self.numbers) {
            return Err(FileFault::TicksPerSecond);
        }
        if !are_rates_good(self) {
            return Err(FileFault::Rates);
        }
        if !is_travel_good(self) {
            return Err(FileFault::Travel);
        }
        if !are_places_good(self) {
            return Err(FileFault::Places);
        }
        if !are_fixtures_good(self) {
            return Err(FileFault::Fixtures);
        }
        if !is_stock_good(&self.options.stock) {
            return Err(FileFault::Stock);
        }
        Ok(())
    }

    /// Returns the machine of these values.
    pub(crate) fn machine(&self, alloc: Global) -> Result<Machine<Global>, AllocError>
        requires { IsGood (values_of self.now) }
        ensures { IfOk result (λ m. file_of m ≡ machine_from (values_of self.now)) }
    {
        let fixtures = fixtures(alloc, self.fixtures.as_slice())?;
        Ok(Machine {
            step: step_length(&self.numbers),
            motor_steps: self.motor_steps,
            ticks_per_second: rate(self.numbers.ticks_per_second),
            max_rate: rate(self.numbers.max_rate),
            axis_rates: axis_rates(&self.axis_rates),
            change: rate(self.numbers.change),
            corner: rate(self.numbers.corner),
            jump: jump(self.numbers.optional.jump),
            turn: arc_bound(self.numbers.turn),
            own: own(&self.own),
            ring: ring(self.numbers.optional.ring),
            arc_feed: arc_feed(&self.numbers.optional),
            changer: has_changer(&self.numbers.optional),
            low: place(&self.points.low),
            high: place(&self.points.high),
            start: place(&self.points.start),
            home28: place(&self.points.home28),
            home30: place(&self.points.home30),
            origins: origins(&self.origins),
            fixtures,
            margins: margins(&self.numbers.optional),
            rapids: self.options.rapids,
            dialect: self.options.dialect,
            stock: stock(&self.options.stock),
        })
    }
}
