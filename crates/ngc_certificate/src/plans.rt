//! Plans for both settings of block delete.
ghost use Rattle.std.specs.Prelude.{◌≡◌, ◌≤◌, length, true, IfOk, MatchResult};
ghost use Rattle.ngc_machine_files.specs.Machine.{file_of};
ghost use Rattle.ngc_commands.specs.Sequence.{COMMAND_LIMIT};
ghost use Rattle.ngc_certificate_text.specs.Certificate.{AreEntries};
ghost use Rattle.ngc_certificate.specs.Made.{IsMade, MadeResultIs, clears_undivided};
ghost use Rattle.ngc_certificate.specs.Plans.{plan_at, both_planned};
ghost use Rattle.ngc_certificate.specs.Valid.{IsValid};

use crate::fault::MakeFault;
use crate::maker::{fault_at, fill, is_clear_at};
use crate::plan::Plan;
use ngc_certificate_text::Setting;
use ngc_commands::Command;
use ngc_machine_files::Machine;
use std::alloc::Allocator;

/// The plans of both settings of block delete, or one plan for both.
#[derive(Drop)]
pub struct Plans<A: Allocator> {
    off: Plan<A>,
    // If there is none, that of `off` serves both settings.
    on: Option<Plan<A>>,
}

impl<A: Allocator> Plans<A> {
    /// Returns the plan of a setting.
    pub fn plan(&self, setting: Setting) -> &Plan<A>
        ensures { result.now ≡ plan_at setting self.now }
    {
        match (setting, &self.on) {
            (Setting::On, Some(on)) => on,
            (Setting::Off, _) | (Setting::On, None) => &self.off,
        }
    }
}

/// Returns the plans with which the motions of a program at both settings of block delete have the
/// pieces of the certificate that `make` returns; or the first command that isn't cleared (304), or
/// 900. A plan takes at most 12 bytes for a motion, and the pieces of arcs that are cut.
///
/// `cuts` is at least 1. Each setting has at most a million commands.
pub fn make_plans<A: Allocator + Copy>(
    alloc: A,
    off: &[Command],
    on: &[Command],
    machine: &Machine<A>,
    cuts: u16,
) -> Result<Plans<A>, MakeFault>
    requires cuts { 1 ≤ cuts }
    requires off { length off.now ≤ COMMAND_LIMIT }
    requires on { length on.now ≤ COMMAND_LIMIT }
    ensures made { MadeResultIs (λ p. both_planned machine.now.step off.now on.now p) result
        (IsMade (file_of machine.now) cuts off.now on.now) }
    ensures valid { IfOk result (λ p.
        IsValid (file_of machine.now) off.now (both_planned machine.now.step off.now on.now p).off
        × IsValid (file_of machine.now) on.now
        (both_planned machine.now.step off.now on.now p).on) }
    ensures off_are { IfOk result (λ p.
        AreEntries (both_planned machine.now.step off.now on.now p).off) }
    ensures on_are { IfOk result (λ p.
        AreEntries (both_planned machine.now.step off.now on.now p).on) }
    ensures undivided { clears_undivided (file_of machine.now) off.now ≡ true →
        clears_undivided (file_of machine.now) on.now ≡ true →
        MatchResult result (λ p. Unit {0}) (λ e. e ≡ MakeFault.Memory) }
{
    if !is_clear_at(machine, &None, &machine.start) {
        return Err(MakeFault::NotCleared {
            setting: Setting::Off,
            command: 0,
        });
    }
    let mut pieces = Vec::new(alloc);
    let off = match fill(Plan::new(alloc), off, machine, cuts, &mut pieces) {
        Ok(plan) => plan,
        Err(refusal) => return Err(fault_at(Setting::Off, refusal)),
    };
    let on = match fill(Plan::new(alloc), on, machine, cuts, &mut pieces) {
        Ok(plan) => plan,
        Err(refusal) => return Err(fault_at(Setting::On, refusal)),
    };
    Ok(Plans { off, on: Some(on) })
}

/// Does the same as `make_plans` for a program with the same commands at both settings, which have
/// one plan.
pub fn make_plans_alike<A: Allocator + Copy>(
    alloc: A,
    commands: &[Command],
    machine: &Machine<A>,
    cuts: u16,
) -> Result<Plans<A>, MakeFault>
    requires cuts { 1 ≤ cuts }
    requires count { length commands.now ≤ COMMAND_LIMIT }
    ensures made { MadeResultIs (λ p. both_planned machine.now.step commands.now commands.now p) result
        (IsMade (file_of machine.now) cuts commands.now commands.now) }
    ensures valid { IfOk result (λ p. IsValid (file_of machine.now) commands.now
        (both_planned machine.now.step commands.now commands.now p).off
        × IsValid (file_of machine.now) commands.now
        (both_planned machine.now.step commands.now commands.now p).on) }
    ensures off_are { IfOk result (λ p.
        AreEntries (both_planned machine.now.step commands.now commands.now p).off) }
    ensures on_are { IfOk result (λ p.
        AreEntries (both_planned machine.now.step commands.now commands.now p).on) }
    ensures undivided { clears_undivided (file_of machine.now) commands.now ≡ true →
        MatchResult result (λ p. Unit {0}) (λ e. e ≡ MakeFault.Memory) }
{
    if !is_clear_at(machine, &None, &machine.start) {
        return Err(MakeFault::NotCleared {
            setting: Setting::Off,
            command: 0,
        });
    }
    match fill(
        Plan::new(alloc),
        commands,
        machine,
        cuts,
        &mut Vec::new(alloc),
    ) {
        Ok(off) => Ok(Plans { off, on: None }),
        Err(refusal) => Err(fault_at(Setting::Off, refusal)),
    }
}
