ghost use Rattle.std.specs.Prelude.{◌≡◌, IfSome};
ghost use Rattle.std.proofs.Props.{props};
ghost use Rattle.std.specs.List.{All};
ghost use Rattle.ngc_fixed_length.specs.Length.{IsStep};
ghost use Rattle.ngc_motors.specs.Counts.{AreMotors};
ghost use Rattle.ngc_machine_files.specs.Ranges.{PLACE_LIMIT, IsRate, IsJump, AreRates, IsArcBound, IsTravel};
ghost use Rattle.ngc_machine_files.specs.Ranges.{IsSized, IsRing, AreFixtures, AreMargins, IsStock, is_near};
ghost use Rattle.ngc_machine_files.specs.Ranges.{AreLimits};

use crate::name::Name;
use ngc_dialect_names::Dialect;
use ngc_fixed_length::{Nm, Point3};
use ngc_motors::{MotorSteps, Motors};
use std::alloc::{AllocError, Allocator};

/// A box that tools must stay out of, in nanometres of the machine.
#[derive(Clone, Copy)]
pub struct Fixture {
    pub low: Point3,
    pub high: Point3,
    pub name: Name,
    /// The coordinate system from whose origin it was counted: 1 is G54, .., 9 is G59.3; 0 is the
    /// machine's own. The origin is in the corners already.
    pub system: u32,
}

/// The greatest rate at which each axis may take part in a motion, in millionths of a path step per
/// tick, each 1 to 1,000,000.
#[derive(Clone, Copy)]
pub struct AxisRates {
    pub x: u32,
    pub y: u32,
    pub z: u32,
}

/// The bound of rates on arcs for each axis, 1 to 10^12 each.
#[derive(Clone, Copy)]
pub struct AxisTurns {
    pub x: u64,
    pub y: u64,
    pub z: u64,
}

/// How fast each axis may change its rate, and how sharply it may turn.
#[derive(Clone, Copy)]
pub struct AxisLimits {
    /// The greatest change of each axis' rate per tick, 1 to 1,000,000.
    pub changes: AxisRates,
    /// The bound of rates on arcs for each axis.
    pub turns: AxisTurns,
}

/// What holds on an arc at each point of it, by the distance of that point from the arc's centre.
#[derive(Clone, Copy)]
pub enum ArcFeed {
    /// Nothing: an arc runs at the lowest rate that its feed allows at any point.
    Off,
    /// The feed.
    Feed,
    /// The feed, and the bound of rates on arcs.
    FeedAndTurn,
}

/// How far a program keeps from the fixtures and from the travel limits, in nanometres, 0 to
/// 100,000,000 each.
#[derive(Clone, Copy)]
pub struct Margins {
    pub fixtures: Nm,
    pub travel: Nm,
}

/// The ways that a control may take to the end of a traverse.
#[derive(Clone, Copy)]
pub enum Rapids {
    /// The straight line.
    Straight,
    /// Any way within the box that the two ends span, such as each axis at its own greatest rate.
    Free,
}

/// The block of material that is cut, in nanometres.
#[derive(Clone, Copy)]
pub struct StockBox {
    /// The coordinate system of the corners: 1 is G54, .., 9 is G59.3; 0 is the machine's own.
    pub system: u32,
    /// The corner with the least coordinates, at most 10^9 nm in size.
    pub low: Point3,
    /// The corner with the greatest coordinates, at most 10^9 nm in size; each is above that of `low`.
    pub high: Point3,
}

/// A machine. Lengths are in nanometres, rates in millionths of a path step per tick.
#[derive(Drop)]
pub struct Machine<A: Allocator> {
    /// The step length, 500 to 50,000 nm.
    pub step: Nm,
    /// The step of each motor, from `step` to 1,000,000 nm.
    pub motor_steps: MotorSteps,
    /// The ticks per second, 1 to 1,000,000.
    pub ticks_per_second: u32,
    /// The greatest rate, 1 to 1,000,000.
    pub max_rate: u32,
    /// The greatest rate, for each axis, of motions that move this axis, 1 to 1,000,000. On a machine
    /// with limits of each axis it is the greatest rate of the axis itself.
    pub axis_rates: AxisRates,
    /// The greatest change of the rate per tick, 1 to 1,000,000.
    pub change: u32,
    /// The greatest rate at a change of direction, 1 to 1,000,000.
    pub corner: u32,
    /// The greatest change of an axis' rate where two motions meet, 0 to 1,000,000. If it is 0,
    /// only `corner` limits the rate there.
    pub jump: u32,
    /// The bound of rates on arcs, 1 to 10^12.
    pub turn: u64,
    /// The limits of each axis, if they are known: they hold on top of `change` and `turn`.
    pub own: Option<AxisLimits>,
    /// The most commands that may be loaded and not done, 16 to 1,024.
    pub ring: u32,
    /// What holds on an arc at each point of it.
    pub arc_feed: ArcFeed,
    /// Whether the machine changes tools by itself. If not, a person changes them, and a program must
    /// stop for that.
    pub changer: bool,
    /// The least coordinates of the travel, at most 3,999,000,000 nm in size.
    pub low: Point3,
    /// The greatest coordinates of the travel, at most 3,999,000,000 nm in size.
    pub high: Point3,
    /// The position of the axes when the machine is started: within the travel, in whole multiples
    /// of the step.
    pub start: Point3,
    /// The home position of G28, at most 4*10^9 nm in size.
    pub home28: Point3,
    /// The home position of G30, at most 4*10^9 nm in size.
    pub home30: Point3,
    /// The origins of the nine coordinate systems, at most 4*10^9 nm in size.
    pub origins: [Point3; 9],
    /// The fixtures: at most 256, numbered from 0. Coordinates are at most 4*10^9 nm in size, and
    /// low is below high on each axis.
    pub fixtures: Vec<Fixture, A>,
    /// How far programs keep from fixtures and travel limits.
    pub margins: Margins,
    /// The ways that the control may take to the end of a traverse.
    pub rapids: Rapids,
    /// The language of its programs, if it isn't our own.
    pub dialect: Option<Dialect>,
    /// The block of material that is cut, if it is known.
    pub stock: Option<StockBox>,
    ghost step_in_range: { IsStep step },
    ghost motors_in_range: { AreMotors (record { grid = step; steps = motor_steps }) },
    ghost ticks_in_range: { IsRate ticks_per_second },
    ghost max_rate_in_range: { IsRate max_rate },
    ghost axis_rates_in_range: { AreRates axis_rates },
    ghost change_in_range: { IsRate change },
    ghost corner_in_range: { IsRate corner },
    ghost jump_in_range: { IsJump jump },
    ghost turn_in_range: { IsArcBound turn },
    ghost own_in_range: { IfSome own AreLimits } by { Prim.hlevel props },
    ghost ring_in_range: { IsRing ring },
    ghost travel_in_range: { IsTravel step low high start },
    ghost home28_in_range: { IsSized PLACE_LIMIT home28 },
    ghost home30_in_range: { IsSized PLACE_LIMIT home30 },
    ghost origins_in_range: { All (IsSized PLACE_LIMIT) origins },
    ghost fixtures_in_range: { AreFixtures fixtures.items },
    ghost margins_in_range: { AreMargins margins },
    ghost stock_in_range: { IfSome stock IsStock } by { Prim.hlevel props },
}

const NEAR: u64 = 1_000_000_000;

fn is_near(point: &Point3) -> bool
    ensures { result ≡ is_near point.now }
{
    point.x.nanometres().unsigned_abs() <= NEAR
        && point.y.nanometres().unsigned_abs() <= NEAR
        && point.z.nanometres().unsigned_abs() <= NEAR
}

fn copied(origins: &[Point3; 9]) -> [Point3; 9]
    ensures { result ≡ origins.now }
{
    let mut copy = [origins[0]; 9];
    copy.copy_from_slice(origins);
    copy
}

impl<A: Allocator> Machine<A> {
    ghost use Rattle.std.specs.Prelude.{IfOk};
    ghost use Rattle.ngc_machine_files.specs.Machine.{file_of, motors_of};
    ghost use Rattle.ngc_machine_files.specs.MachineRanges.{IsMachine, is_far, takes_far};

    /// Returns a copy of the machine, with the fixtures in another allocator's memory. It fails if
    /// memory is refused.
    pub fn copy<B: Allocator>(&self, alloc: B) -> Result<Machine<B>, AllocError>
        ensures same { IfOk result (λ m. file_of m ≡ file_of self.now) }
        ensures range { IsMachine (file_of self.now) }
    {
        let fixtures = Vec::from_slice(alloc, self.fixtures.as_slice())?;
        Ok(Machine {
            step: self.step,
            motor_steps: self.motor_steps,
            ticks_per_second: self.ticks_per_second,
            max_rate: self.max_rate,
            axis_rates: self.axis_rates,
            change: self.change,
            corner: self.corner,
            jump: self.jump,
            turn: self.turn,
            own: self.own,
            ring: self.ring,
            arc_feed: self.arc_feed,
            changer: self.changer,
            low: self.low,
            high: self.high,
            start: self.start,
            home28: self.home28,
            home30: self.home30,
            origins: copied(&self.origins),
            fixtures,
            margins: self.margins,
            rapids: self.rapids,
            dialect: self.dialect,
            stock: self.stock,
        })
    }

    /// Returns whether an end of the travel is over 10^9 nm from zero. On such a machine programs may
    /// have coordinates of up to 4*10^9 nm, and on any other of up to 10^9 nm.
    #[tactic(auto, unfolding(crate::specs::MachineRanges::ends_far))]
    pub fn is_far(&self) -> bool
        ensures { result ≡ is_far (file_of self.now) }
    {
        !(is_near(&self.low) && is_near(&self.high))
    }

    /// Returns whether an origin may be moved up to 4*10^9 nm from zero: on a far machine, and where
    /// the origin is over 10^9 nm from zero already. Any other may be moved up to 10^9 nm from zero.
    #[tactic(auto, unfolding(crate::specs::MachineRanges::takes_far))]
    pub fn takes_far(&self, origin: &Point3) -> bool
        ensures { result ≡ takes_far (file_of self.now) origin.now }
    {
        self.is_far() || !is_near(origin)
    }

    /// Returns its motors.
    pub fn motors(&self) -> Motors
        ensures { result ≡ motors_of (file_of self.now) }
    {
        Motors::new(self.step, self.motor_steps)
    }
}
