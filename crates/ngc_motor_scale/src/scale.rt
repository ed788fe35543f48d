//! A motor's step as a ratio in lowest terms.
ghost use Rattle.std.specs.Prelude.{◌≡◌, ◌*◌, ◌<◌, ◌≤◌, IfOk, false};
ghost use Rattle.std.specs.Int.{IsGcd};
ghost use Rattle.ngc_motor_scale.specs.Scales as spec;

use crate::divisor::common_divisor;
use ngc_motors::MotorStep;
use ngc_quantities::Step;

const GREATEST_LENGTH: u128 = 1_099_511_627_776;

/// The reasons why a step is refused.
#[derive(Clone, Copy)]
pub enum ScaleRefusal {
    /// The step is shorter than 500 nm.
    Short,
    /// The step is longer than 50,000 nm.
    Long,
    /// The ratio needs a number above 2^40 in lowest terms.
    Fine,
}

#[tactic(auto, using(crate::proofs::Quotients::below, crate::proofs::Quotients::not_below))]
fn is_short(step: &Step) -> bool
    ensures value { result ≡ spec.is_short step.now }
    ensures some { result ≡ false → 0 < step.now.nanometres }
    ensures least { result ≡ false → 500 * step.now.steps ≤ step.now.nanometres }
{
    step.nanometres == 0 || (step.steps != 0 && step.nanometres / step.steps < 500)
}

#[tactic(auto, using(crate::proofs::Quotients::above, crate::proofs::Quotients::not_above))]
fn is_long(step: &Step) -> bool
    requires { 0 < step.now.nanometres }
    ensures value { result ≡ spec.is_long step.now }
    ensures some { result ≡ false → 0 < step.now.steps }
    ensures greatest { result ≡ false → step.now.nanometres ≤ 50000 * step.now.steps }
{
    step.steps == 0 || (step.nanometres - 1) / step.steps >= 50_000
}

// Returns the step of a ratio in lowest terms.
fn step_with(steps: u128, nanometres: u128) -> MotorStep
    requires some { 0 < steps }
    requires bound { nanometres ≤ 1099511627776 }
    requires least { 500 * steps ≤ nanometres }
    requires greatest { nanometres ≤ 50000 * steps }
    ensures value { result ≡ spec.step_with steps nanometres }
    ensures range { spec.IsScale result }
{
    MotorStep {
        nanometres: nanometres as u64,
        steps: steps as u64,
    }
}

/// Returns a motor's step as a ratio in lowest terms, or the reason why no machine file can have it.
pub fn scale_of(step: &Step) -> Result<MotorStep, ScaleRefusal>
    ensures value { result ≡ spec.scale_of step.now }
    ensures same { IfOk result (spec.IsSameRatio step.now) }
    ensures lowest { IfOk result (λ scale. IsGcd scale.nanometres scale.steps 1) }
    ensures range { IfOk result spec.IsScale }
{
    let divisor = common_divisor(step.nanometres, step.steps);
    if is_short(step) {
        return Err(ScaleRefusal::Short);
    }
    if is_long(step) {
        return Err(ScaleRefusal::Long);
    }
    let nanometres = step.nanometres / divisor;
    if nanometres > GREATEST_LENGTH {
        return Err(ScaleRefusal::Fine);
    }
    Ok(step_with(step.steps / divisor, nanometres))
}
