//! Outcomes by the counts of motors.
ghost use Rattle.std.specs.Prelude.{◌≡◌, Ok};
ghost use Rattle.ngc_run_through.specs.Counting.{counted_outcome, counted_tick, is_same};

use ngc_events::{EventFault, Reply};
use ngc_fixed_length::StepPos;
use ngc_motors::Motors;

fn is_same(a: &StepPos, b: &StepPos) -> bool
    ensures { result ≡ is_same a.now b.now }
{
    a.x == b.x && a.y == b.y && a.z == b.z
}

// Returns the counts to which a tick leads from a grid point, if one of them changes.
fn counted_tick(motors: &Motors, from: &StepPos, position: &Option<StepPos>) -> Option<StepPos>
    ensures { result ≡ counted_tick motors.now from.now position.now }
{
    match position {
        None => None,
        Some(position) => {
            let old = motors.counts(from);
            let new = motors.counts(position);
            if is_same(&old, &new) { None } else { Some(new) }
        }
    }
}

fn counted_reply(motors: &Motors, from: &StepPos, reply: &Reply) -> Reply
    ensures { Ok result ≡ counted_outcome motors.now from.now (Ok reply.now) }
{
    match reply {
        Reply::Ticked { position, ending } => Reply::Ticked {
            position: counted_tick(motors, from, position),
            ending: *ending,
        },
        _ => *reply,
    }
}

/// Returns an outcome of a machine that was at a grid point, with the motors' counts in place of the
/// position. It has none if no count changes.
pub(crate) fn counted(
    motors: &Motors,
    from: &StepPos,
    outcome: &Result<Reply, EventFault>,
) -> Result<Reply, EventFault>
    ensures { result ≡ counted_outcome motors.now from.now outcome.now }
{
    match outcome {
        Ok(reply) => Ok(counted_reply(motors, from, reply)),
        Err(fault) => Err(*fault),
    }
}
