//! Compensation, move by move.
ghost use Rattle.std.specs.Prelude.{◌≡◌, true, IfSome};
ghost use Rattle.ngc_compensation.specs.Bounds.{IsNear, IsNearHeld, IsNearMove, AllNear};
ghost use Rattle.ngc_compensation.specs.Limits.{IsWithin};
ghost use Rattle.ngc_compensation.specs.Steps as spec;

use crate::follow::{follow, settled};
use crate::moves::{Compensation, Held, Motion, Move, Outcome, Side};
use crate::offset::is_near;
use crate::refusal::{Refusal, refuse_if};
use crate::start::enter;
use crate::vector::{apart, norm, opposite};
use ngc_fixed_length::{Nm, Plane, Point2};

const PLACE_LIMIT: u128 = 4_000_000_000;

const TOOL_LIMIT: u128 = 5_000_000_000;

fn has_near_centre(limit: u128, motion: Motion) -> bool
    ensures { result ≡ spec.has_near_centre limit motion }
{
    match motion {
        Motion::Traverse | Motion::Feed => true,
        Motion::Arc(_, centre) => is_near(limit, &centre),
    }
}

fn is_near_move(next: &Move) -> bool
    ensures { result ≡ spec.is_near_move next.now }
{
    is_near(PLACE_LIMIT, &next.end) && has_near_centre(PLACE_LIMIT, next.motion)
}

fn is_direction(vector: &Point2) -> bool
    ensures { result ≡ spec.is_direction vector.now }
{
    is_near(10_000_000_000, vector) && norm(vector) != 0
}

fn is_near_held(held: &Option<Held>) -> bool
    ensures value { result ≡ spec.is_near_held held.now }
    ensures near { result ≡ true → IfSome held.now IsNearHeld }
{
    match held {
        None => true,
        Some(held) => {
            is_near(TOOL_LIMIT, &held.start)
                && is_near(TOOL_LIMIT, &held.end)
                && has_near_centre(TOOL_LIMIT, held.motion)
                && is_direction(&held.normal)
        }
    }
}

fn is_radius(radius: Nm) -> bool
    ensures { result ≡ spec.is_radius radius }
{
    0 < radius.nanometres() && radius.nanometres() <= 100_000_000
}

fn begun(side: Side, radius: Nm, place: &Point2, height: Nm) -> Compensation
    ensures { result ≡ spec.begun side radius place.now height }
{
    let is_below = radius.nanometres() < 0;
    Compensation {
        side: if is_below { opposite(side) } else { side },
        radius: if is_below {
            Nm::zero().minus(radius)
        } else {
            radius
        },
        place: *place,
        height,
        held: None,
    }
}

impl Compensation {
    fn is_near(&self) -> bool
        ensures value { result ≡ spec.is_near_compensation self.now }
        ensures near { result ≡ true → AllNear self.now }
    {
        is_radius(self.radius) && is_near(PLACE_LIMIT, &self.place) && is_near_held(&self.held)
    }

    fn lifted(&self, next: &Move) -> Outcome
        ensures { result ≡ spec.lifted self.now next.now }
    {
        Outcome {
            made: None,
            corner: None,
            next: Compensation {
                side: self.side,
                radius: self.radius,
                place: self.place,
                height: next.height,
                held: self.held,
            },
        }
    }

    // Returns whether a move is one along the third axis alone.
    fn is_lift(&self, end: &Point2, motion: Motion) -> bool
        requires near { IsNear self.now }
        requires end { IsWithin 4000000000 end.now }
        ensures { result ≡ spec.is_lift self.now end.now motion }
    {
        match motion {
            Motion::Traverse | Motion::Feed => apart(&self.place, end) == 0,
            Motion::Arc(_, _) => false,
        }
    }

    fn taken(&self, next: &Move) -> Result<Outcome, Refusal>
        requires near { AllNear self.now }
        requires next { IsNearMove next.now }
        ensures { result ≡ spec.taken self.now next.now self.now.held }
    {
        match &self.held {
            None => enter(self, next),
            Some(held) => {
                if self.is_lift(&next.end, next.motion) {
                    Ok(self.lifted(next))
                } else {
                    follow(self, held, next)
                }
            }
        }
    }

    /// Returns the compensation from a place on, at a height above the plane: G41, G42, G41.1 or
    /// G42.1. `is_on` says whether compensation is on already. A radius below 0 changes the side.
    /// Returns `None` for a radius of 0. Refuses compensation that is on already (223) and the plane
    /// YZ (211).
    pub fn start(
        is_on: bool,
        plane: Plane,
        side: Side,
        radius: Nm,
        place: &Point2,
        height: Nm,
    ) -> Result<Option<Compensation>, Refusal>
        ensures { result ≡ spec.start is_on plane side radius place.now height }
    {
        if is_on {
            return Err(Refusal::AlreadyOn);
        }
        if plane == Plane::YZ {
            return Err(Refusal::PlaneYz);
        }
        if radius.nanometres() == 0 {
            return Ok(None);
        }
        Ok(Some(begun(side, radius, place, height)))
    }

    /// Takes a programmed move. Returns the tool's moves that are now certain, and the compensation
    /// for the next one.
    ///
    /// The held move is made before the corner's. A move along the third axis alone makes nothing
    /// certain: the tool makes it at the end of the held move, wherever that will be.
    ///
    /// Refuses a place over 4 m from zero along an axis and a radius over 0.1 m (101), and a move
    /// beside which the tool doesn't fit (247). These rules are LinuxCNC's, but for four arcs that
    /// are refused besides: an arc beside the path that would run backwards, or not close.
    #[tactic(auto, unfolding(crate::specs::Steps::step))]
    pub fn step(&self, next: &Move) -> Result<Outcome, Refusal>
        ensures { result ≡ spec.step self.now next.now }
    {
        if !self.is_near() {
            return Err(Refusal::TooFar);
        }
        if !is_near_move(next) {
            return Err(Refusal::TooFar);
        }
        self.taken(next)
    }

    /// Returns the held move at its own end, or `None` before the entry move: G40. Refuses a move that
    /// would run backwards (247), and places and a radius as `step` does (101).
    pub fn finish(&self) -> Result<Option<Move>, Refusal>
        ensures { result ≡ spec.finished self.now }
    {
        if !self.is_near() {
            return Err(Refusal::TooFar);
        }
        match &self.held {
            None => Ok(None),
            Some(held) => Ok(Some(settled(self.side, held, &None)?)),
        }
    }
}
