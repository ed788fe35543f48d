//! A motor's step.
ghost use Rattle.std.specs.Prelude.{◌≡◌, ◌<◌, ◌≤◌, ◌*◌, ◌^◌, IfOk};
ghost use Rattle.ngc_machine_maker.specs.Asked.{IsScaleOf};
ghost use Rattle.ngc_machine_maker.specs.Formulas.{nearest_step, scale_of, steps_in};
ghost use Rattle.ngc_machine_maker.specs.Ranges.{IsScale};
ghost use Rattle.ngc_machine_maker.specs.Safe.{IsNoMore};

use crate::figures::Ratio;
use crate::refusal::FigureRefusal;

const GREATEST_LENGTH: u64 = 1_099_511_627_776;

/// A step of the motor and of the file.
#[derive(Clone, Copy)]
pub(crate) struct Scale {
    /// The motor's steps in `per` nanometres.
    pub steps: u64,
    pub per: u64,
    /// The file's step, in nanometres.
    pub step: u32,
}

fn nearest_step(steps: u64, per: u64) -> u32
    requires some { 0 < steps }
    requires bound { per ≤ 2 ^ 40 }
    requires least { 500 * steps ≤ per }
    requires greatest { per ≤ 50000 * steps }
    ensures value { result ≡ nearest_step steps per }
    ensures least { 500 ≤ result }
    ensures greatest { result ≤ 50000 }
{
    ((2 * per + steps) / (2 * steps)) as u32
}

impl Scale {
    /// Returns the step of motors with this ratio, to the nearest nanometre.
    pub(crate) fn of(ratio: Ratio) -> Result<Scale, FigureRefusal>
        ensures value { result ≡ scale_of ratio }
        ensures range { IfOk result IsScale }
        ensures same { IfOk result (λ scale. IsScaleOf ratio scale) }
    {
        let steps = ratio.steps;
        let per = ratio.per;
        let least = 500 * u128::from(steps);
        let greatest = 50_000 * u128::from(steps);
        let length = u128::from(per);
        if steps == 0 || per > GREATEST_LENGTH || length < least || length > greatest {
            return Err(FigureRefusal::Step);
        }
        Ok(Scale {
            steps,
            per,
            step: nearest_step(steps, per),
        })
    }

    // Returns the number of steps of a length: the lesser of the numbers with the motor's step and
    // with the file's.
    pub(crate) fn steps_in(&self, amount: u128, divisor: u128) -> u128
        requires scale { IsScale self.now }
        requires amount { amount < 2 ^ 84 }
        requires some { 0 < divisor }
        requires divisor { divisor ≤ 2000000000000 }
        ensures value { result ≡ steps_in self.now amount divisor }
        ensures safe { IsNoMore self.now result amount divisor }
    {
        let by_motor = amount * u128::from(self.steps) / (divisor * u128::from(self.per));
        by_motor.min(amount / (divisor * u128::from(self.step)))
    }
}
