//! The step of a motor.
ghost use Rattle.std.specs.Prelude.{◌≡◌, ◌≤◌, ◌<ℤ◌, ◌+ℤ◌, ◌-ℤ◌, ◌*ℤ◌, ◌+◌, ◌^◌, pos, unsigned_abs};
ghost use Rattle.std.specs.Int.{int_div_euclid};
ghost use Rattle.ngc_motors.specs.Counts.{IsMotorStep};
ghost use Rattle.ngc_motors.specs.Counts as spec;

/// The greatest number in a motor's ratio, 2^40.
const GREATEST: u64 = 1_099_511_627_776;

/// A motor's step as a ratio: in `steps` steps the motor moves its axis by `nanometres`.
#[derive(Clone, Copy, PartialEq, Eq)]
pub struct MotorStep {
    pub nanometres: u64,
    pub steps: u64,
}

/// The steps of the motors of three axes.
#[derive(Clone, Copy, PartialEq, Eq)]
pub struct MotorSteps {
    pub x: MotorStep,
    pub y: MotorStep,
    pub z: MotorStep,
}

impl MotorStep {
    /// Returns a step of a whole number of nanometres.
    pub fn whole(nanometres: u64) -> MotorStep
        ensures { result ≡ spec.whole_step nanometres }
    {
        MotorStep {
            nanometres,
            steps: 1,
        }
    }

    /// Returns whether the step is one of the grid, whose step is a number of nanometres.
    pub fn is_grid_step(&self, grid: i64) -> bool
        ensures { result ≡ spec.is_grid_step grid self.now }
    {
        self.steps == 1 && i128::from(grid) == i128::from(self.nanometres)
    }

    /// Returns whether a motor on a grid may have the step: it is at least the grid's and at most
    /// 1 mm, and no number of its ratio is above 2^40.
    pub fn is_motor(&self, grid: i64) -> bool
        ensures { result ≡ spec.is_motor grid self.now }
    {
        0 < self.steps
            && self.nanometres <= GREATEST
            && i128::from(grid) * i128::from(self.steps) <= i128::from(self.nanometres)
            && u128::from(self.nanometres) <= 1_000_000 * u128::from(self.steps)
    }

    /// Returns the count for a place on its axis in nanometres: the number of its steps nearest to
    /// the place. Of two that are equally near it is the greater one.
    pub fn count(&self, place: i64) -> i128
        requires { IsMotorStep self.now }
        ensures value { result ≡ spec.count self.now place }
        ensures bound { unsigned_abs result ≤ 2 ^ 63 + 1 }
    {
        let parts = i128::from(place) * i128::from(self.steps);
        nearest(parts, i128::from(self.nanometres))
    }

    // Returns where the count for a place moves the axis, in parts of a nanometre, of which `steps`
    // make one.
    fn commanded_parts(&self, place: i64) -> i128
        requires { IsMotorStep self.now }
        ensures value { result ≡ spec.commanded_parts self.now place }
        ensures bound { unsigned_abs result ≤ 2 ^ 104 }
    {
        self.count(place) * i128::from(self.nanometres)
    }

    // Returns the whole nanometre at a count's place, or the next below it.
    fn place_below(&self, place: i64) -> i128
        requires { IsMotorStep self.now }
        ensures { result ≡ spec.place_below self.now place }
    {
        self.commanded_parts(place)
            .div_euclid(i128::from(self.steps))
    }

    // Returns the whole nanometre at a count's place, or the next above it.
    fn place_above(&self, place: i64) -> i128
        requires { IsMotorStep self.now }
        ensures { result ≡ spec.place_above self.now place }
    {
        rounded_up(self.commanded_parts(place), i128::from(self.steps))
    }

    // Returns where the first whole step from a place up is, in parts of a nanometre, of which `steps`
    // make one.
    fn parts_up(&self, place: i64) -> i128
        requires { IsMotorStep self.now }
        ensures value { result ≡ spec.count_up self.now place *ℤ pos self.now.nanometres }
        ensures bound { unsigned_abs result ≤ 2 ^ 104 }
    {
        let nanometres = i128::from(self.nanometres);
        let parts = i128::from(place) * i128::from(self.steps);
        rounded_up(parts, nanometres) * nanometres
    }

    // Returns where the first whole step from a place down is.
    fn parts_down(&self, place: i64) -> i128
        requires { IsMotorStep self.now }
        ensures value { result ≡ spec.count_down self.now place *ℤ pos self.now.nanometres }
        ensures bound { unsigned_abs result ≤ 2 ^ 104 }
    {
        let nanometres = i128::from(self.nanometres);
        let parts = i128::from(place) * i128::from(self.steps);
        parts.div_euclid(nanometres) * nanometres
    }

    /// Returns the low end of a travel, moved up to the first whole step: the whole nanometre there, or
    /// the next below.
    pub fn first_place(&self, low: i64) -> i64
        requires motor { IsMotorStep self.now }
        requires near { unsigned_abs low ≤ 4000000000 }
        ensures { result ≡ spec.first_place self.now low }
    {
        self.parts_up(low).div_euclid(i128::from(self.steps)) as i64
    }

    /// Returns the high end of a travel, moved down to the last whole step: the whole nanometre there,
    /// or the next above.
    pub fn last_place(&self, high: i64) -> i64
        requires motor { IsMotorStep self.now }
        requires near { unsigned_abs high ≤ 4000000000 }
        ensures { result ≡ spec.last_place self.now high }
    {
        rounded_up(self.parts_down(high), i128::from(self.steps)) as i64
    }

    /// Returns whether the motor can stand at both ends of a travel, to the nanometre: for each end it
    /// stands less than a nanometre inside it.
    pub fn ends_at_steps(&self, low: i64, high: i64) -> bool
        requires { IsMotorStep self.now }
        ensures { result ≡ spec.ends_at_steps self.now low high }
    {
        self.place_below(low) == i128::from(low) && self.place_above(high) == i128::from(high)
    }
}

// Returns a / b, rounded up.
fn rounded_up(a: i128, b: i128) -> i128
    requires some { pos 0 <ℤ b }
    requires a { unsigned_abs a ≤ 2 ^ 104 }
    requires b { unsigned_abs b ≤ 2 ^ 40 }
    ensures { result ≡ int_div_euclid ((a +ℤ b) -ℤ pos 1) b }
{
    (a + b - 1).div_euclid(b)
}

// Returns the whole number nearest to a / b. Of two that are equally near it is the greater one.
fn nearest(a: i128, b: i128) -> i128
    requires some { pos 0 <ℤ b }
    requires a { unsigned_abs a ≤ 2 ^ 103 }
    requires b { unsigned_abs b ≤ 2 ^ 40 }
    ensures { result ≡ spec.nearest a b }
{
    (a + a + b).div_euclid(b + b)
}

impl MotorSteps {
    /// Returns the steps of motors that all have the same number of nanometres.
    pub fn equal(nanometres: u64) -> MotorSteps
        ensures { result ≡ spec.equal_steps nanometres }
    {
        let step = MotorStep::whole(nanometres);
        MotorSteps {
            x: step,
            y: step,
            z: step,
        }
    }
}
