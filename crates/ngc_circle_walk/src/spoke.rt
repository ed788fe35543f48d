/// A quadrant of the plane about a centre, numbered from u on in the direction of turning. Each
/// includes the half axis on which it begins, and not the one on which it ends.
#[derive(Clone, Copy)]
pub enum Quadrant {
    First,
    Second,
    Third,
    Fourth,
}

/// A point about a centre, in the coordinates of its quadrant: `x` along the half axis on which the
/// quadrant begins, `y` along the next one, both in nanometres. So in each quadrant a point that
/// moves round decreases x and increases y.
#[derive(Clone, Copy)]
pub struct Spoke {
    pub quadrant: Quadrant,
    pub x: u64,
    pub y: u64,
}

/// A move of a point round the centre: outward (away from the centre along the second half axis),
/// inward (towards the centre along the first one), both at once, or over the second half axis into
/// the next quadrant.
#[derive(Clone, Copy)]
pub enum Roll {
    Outward,
    Diagonal,
    Inward,
    Over,
}

ghost use Rattle.std.specs.Prelude.{◌≡◌, ◌≤◌, ◌<◌, ◌+◌, unsigned_abs};
ghost use Rattle.ngc_circle_walk.specs.Around.{around};

impl Quadrant {
    ghost use Rattle.ngc_circle_walk.specs.Quadrants.{following};

    /// Returns the next quadrant.
    pub fn following(self) -> Quadrant
        ensures { result ≡ following self }
    {
        match self {
            Quadrant::First => Quadrant::Second,
            Quadrant::Second => Quadrant::Third,
            Quadrant::Third => Quadrant::Fourth,
            Quadrant::Fourth => Quadrant::First,
        }
    }
}

impl Spoke {
    ghost use Rattle.ngc_circle_walk.specs.Wheel.{rolled, IsSmall, CanRoll};

    /// Returns the point to which a move leads.
    pub fn rolled(&self, roll: Roll, step: u64) -> Spoke
        requires small { IsSmall self.now }
        requires short { step ≤ 50000 }
        requires can { CanRoll step self.now roll }
        ensures { result ≡ rolled step roll self.now }
    {
        match roll {
            Roll::Outward => Spoke {
                quadrant: self.quadrant,
                x: self.x,
                y: self.y + step,
            },
            Roll::Diagonal => Spoke {
                quadrant: self.quadrant,
                x: self.x - step,
                y: self.y + step,
            },
            Roll::Inward => Spoke {
                quadrant: self.quadrant,
                x: self.x - step,
                y: self.y,
            },
            Roll::Over => Spoke {
                quadrant: self.quadrant.following(),
                x: self.y,
                y: step - self.x,
            },
        }
    }
}

impl Spoke {
    ghost use Rattle.ngc_circle_walk.specs.Wheel.{square, is_before, IsSmall};

    /// Returns the point at the distances `u` and `v` from the centre.
    pub fn of(u: i64, v: i64) -> Spoke
        requires u { unsigned_abs u ≤ 3000000000 }
        requires v { unsigned_abs v ≤ 3000000000 }
        ensures place { around result.quadrant result.x result.y ≡ record { u = u; v = v } }
        ensures small { IsSmall result }
        ensures out { 0 < unsigned_abs u + unsigned_abs v → 0 < result.x }
    {
        let x = u.unsigned_abs();
        let y = v.unsigned_abs();
        if 0 < u && 0 <= v {
            Spoke {
                quadrant: Quadrant::First,
                x,
                y,
            }
        } else if u <= 0 && 0 < v {
            Spoke {
                quadrant: Quadrant::Second,
                x: y,
                y: x,
            }
        } else if u < 0 && v <= 0 {
            Spoke {
                quadrant: Quadrant::Third,
                x,
                y,
            }
        } else {
            Spoke {
                quadrant: Quadrant::Fourth,
                x: y,
                y: x,
            }
        }
    }

    /// Returns whether this point's direction is before that of the other point, which must be in
    /// the same quadrant.
    pub fn is_before(&self, other: &Spoke) -> bool
        requires small { IsSmall self.now }
        requires other { IsSmall other.now }
        ensures { result ≡ is_before self.now other.now }
    {
        self.y * other.x < self.x * other.y
    }

    /// Returns the squared distance from the centre.
    pub fn square(&self) -> u64
        requires { IsSmall self.now }
        ensures { result ≡ square self.now.x self.now.y }
    {
        self.x * self.x + self.y * self.y
    }
}

impl Quadrant {
    ghost use Rattle.ngc_circle_walk.specs.Quadrants.{number, quadrants_to};

    /// Returns the number of quadrants from this one to the other in the direction of turning, from
    /// 0 to 3.
    pub fn quadrants_to(self, other: Quadrant) -> u32
        ensures value { result ≡ quadrants_to self other }
        ensures bound { result ≤ 3 }
    {
        (other.number() + 4 - self.number()) % 4
    }

    fn number(self) -> u32
        ensures value { result ≡ number self }
        ensures bound { result ≤ 3 }
    {
        match self {
            Quadrant::First => 0,
            Quadrant::Second => 1,
            Quadrant::Third => 2,
            Quadrant::Fourth => 3,
        }
    }
}
