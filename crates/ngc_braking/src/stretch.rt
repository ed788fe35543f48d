ghost use Rattle.std.specs.Prelude.{◌≡◌, ◌+◌, ◌≤◌, min, nat_lt};
ghost use Rattle.std.specs.List.{All};
ghost use Rattle.ngc_fixed_length.specs.Limits.{MILLION};
ghost use Rattle.ngc_braking.specs.Leg.{IsLeg, passes};
ghost use Rattle.ngc_braking.specs.Work.{GREATEST, leg_work, slack, can_brake, beyond, next_beyond};
ghost use Rattle.ngc_braking.specs.Work.{legs_beyond};
ghost use Rattle.ngc_braking.specs.Outlook.{joint_slack};

use crate::leg::Leg;
use crate::slowing::{brakes_within, braking};

/// Returns the greatest rate that may pass from a motion into the next one.
fn passes(before: &Leg, next: &Leg) -> u64
    ensures { result ≡ passes before.now.exit next.now }
{
    before.exit.min(next.entry.min(next.bound))
}

/// Returns how much work may be left at a joint with this limit, after a motion with this change.
fn slack(limit: u64, change: u64) -> u64
    requires limit { limit ≤ MILLION }
    requires change_least { 1 ≤ change }
    requires change_greatest { change ≤ MILLION }
    ensures { result ≡ slack limit change }
{
    change * braking((limit + 1).saturating_sub(change), change)
}

/// Returns how much work beyond the joint before a motion braking may use.
pub(crate) fn joint_slack(before: &Leg, next: &Leg) -> u64
    requires before { IsLeg before.now }
    requires next { IsLeg next.now }
    ensures { result ≡ joint_slack before.now.change before.now.exit next.now }
{
    if next.joined {
        slack(passes(before, next), before.change)
    } else {
        0
    }
}

/// Returns the work on a motion after another one, in 64 bits: its change times its length. A tick
/// that passes the joint brakes by the change before it, so that a greater change after it has less
/// work.
pub(crate) fn leg_work(before: &Leg, next: &Leg) -> u64
    requires { IsLeg next.now }
    ensures { result ≡ min GREATEST (leg_work before.now.change before.now.exit next.now) }
{
    let deduction = next.change.saturating_sub(before.change) * passes(before, next);
    let work = u128::from(next.change) * u128::from(next.millionths) - u128::from(deduction);
    work.min(u128::from(u64::MAX)) as u64
}

/// Returns whether work ends on a motion with this work, or less than `beyond` after it.
fn ends_within(needed: u64, work: u64, beyond: u64) -> bool
    ensures { result ≡ nat_lt needed (work + beyond) }
{
    needed < work || needed - work < beyond
}

/// Returns how much work beyond the end of a motion braking may use, in 64 bits, with these motions
/// after it.
pub fn beyond(head: &Leg, legs: &[Leg]) -> u64
    requires head { IsLeg head.now }
    requires each { All IsLeg legs.now }
    ensures { result ≡ min GREATEST (beyond head.now.change head.now.exit legs.now) }
{
    let mut before = *head;
    let mut total: u64 = 0;
    let mut least = u64::MAX;
    for leg in legs {
        // The legs after it cannot reduce this.
        if !leg.joined || least <= total {
            return least.min(total);
        }
        least = least.min(total.saturating_add(slack(passes(&before, leg), before.change)));
        total = total.saturating_add(leg_work(&before, leg));
        before = *leg;
    }
    least.min(total)
}

/// Returns how much work beyond the end of the first motion after the head braking may use, in 64
/// bits.
fn next_beyond(afterwards: &[Leg]) -> u64
    requires { All IsLeg afterwards.now }
    ensures { result ≡ next_beyond afterwards.now }
{
    match afterwards.split_first() {
        Some((next, legs)) => beyond(next, legs),
        None => 0,
    }
}

/// Returns how much work beyond the end of the second of some motions braking may use, in 64 bits.
pub fn legs_beyond(legs: &[Leg]) -> u64
    requires { All IsLeg legs.now }
    ensures { result ≡ legs_beyond legs.now }
{
    match legs.split_first() {
        Some((_, afterwards)) => next_beyond(afterwards),
        None => 0,
    }
}

/// Returns whether a rate can brake on the rest of the head and the motions after it. Each tick may
/// reduce it by the change of the motion that it begins on. At each joint it must be at most what
/// the joint lets pass, and it must be 0 before the end of the last joined motion. `beyond` is how
/// much work beyond the end of the first motion after the head braking may use, in 64 bits.
pub fn can_brake(rate: u64, rest: u64, head: &Leg, afterwards: &[Leg], beyond: u64) -> bool
    requires rate { rate ≤ MILLION }
    requires head { IsLeg head.now }
    requires each { All IsLeg afterwards.now }
    requires beyond { beyond ≡ next_beyond afterwards.now }
    ensures { result ≡ can_brake rate rest head.now afterwards.now }
{
    if brakes_within(rate, head.change, rest) {
        return true;
    }
    let Some(next) = afterwards.first() else {
        return false;
    };
    if !next.joined {
        return false;
    }
    let lacking = head.change * (braking(rate, head.change) - rest);
    let limit = passes(head, next);
    if limit < rate && slack(limit, head.change) <= lacking {
        return false;
    }
    ends_within(lacking, leg_work(head, next), beyond)
}
