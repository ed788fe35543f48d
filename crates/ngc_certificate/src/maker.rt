//! Makes certificates for commands.
ghost use Rattle.std.specs.Prelude.{◌≡◌, ℕ, ◌<◌, ◌≤◌, List, [], length, true, IfOk, MatchResult};
ghost use Rattle.std.specs.Prelude.{OnOk, Some};
ghost use Rattle.ngc_machine_files.specs.Machine.{file_of};
ghost use Rattle.ngc_commands.specs.Sequence.{COMMAND_LIMIT};
ghost use Rattle.ngc_certificate_text.specs.Certificate.{Entry, AreEntries, INDEX_LIMIT};
ghost use Rattle.ngc_certificate_text.specs.Certificate.{MOTION_LIMIT};
ghost use Rattle.ngc_certificate_text.specs.Contents.{certificate_data, form_of};
ghost use Rattle.ngc_certificate_text.specs.Joined.{Parted};
ghost use Rattle.ngc_certificate.specs.Valid.{IsValid};
ghost use Rattle.ngc_certificate.specs.Made.{IsSettingMade, IsMade, MadeResultIs, clears_undivided};
ghost use Rattle.ngc_certificate.specs.Common.{way_at, way_of};
ghost use Rattle.ngc_certificate.specs.Making.{is_clear_at, made_by, Leads, SettingResultIs, fault_at};

use crate::fault::MakeFault;
use crate::finding::find_clear;
use crate::pieces::place_fault;
use crate::store::MotionStore;
use ngc_certificate_text::{Certificate, Motions, Piece, Setting};
use ngc_commands::{Action, Command, Motion};
use ngc_fixed_length::Point3;
use ngc_machine_files::{Machine, Tool};
use std::alloc::Allocator;

/// The reasons why a setting has no motions with pieces: this command, counted from 0, isn't
/// cleared, or memory ran out.
#[derive(Clone, Copy)]
pub(crate) enum MotionRefusal {
    NotCleared(u32),
    Memory,
}

/// The motions so far with their pieces, the mounted tool and the position of the axes.
#[derive(Drop)]
struct Progress<M> {
    motions: M,
    tool: Option<Tool>,
    place: Point3,
}

/// Returns whether the tool's body is clear of all fixtures with the axes at a position.
pub(crate) fn is_clear_at<A: Allocator>(
    machine: &Machine<A>,
    tool: &Option<Tool>,
    place: &Point3,
) -> bool
    ensures { result ≡ is_clear_at (file_of machine.now) tool.now place.now }
{
    place_fault(machine, *tool, &place.to_grid(machine.step)).is_none()
}

impl<M: MotionStore + Drop> Progress<M> {
    // Returns the progress at the start, with no tool mounted.
    fn at_start<A: Allocator>(motions: M, machine: &Machine<A>) -> Progress<M>
        ensures motions { result.motions ≡ motions }
        ensures tool { result.tool ≡ None }
        ensures place { result.place ≡ machine.now.start }
    {
        Progress {
            motions,
            tool: None,
            place: machine.start,
        }
    }

    // Mounts a tool, or none, at the position of the axes.
    fn mount<A: Allocator>(
        &mut self,
        machine: &Machine<A>,
        index: u32,
        tool: Option<Tool>,
    ) -> Result<(), MotionRefusal>
        ensures leads { (most : ℕ) (entries : M → List Entry) →
            Leads (file_of machine.now) most index (Action.Mount tool)
            (made_by entries self.old) result (made_by entries self.new) }
        ensures same { self.new.motions ≡ self.old.motions }
    {
        if !is_clear_at(machine, &tool, &self.place) {
            return Err(MotionRefusal::NotCleared(index));
        }
        self.tool = tool;
        Ok(())
    }

    // Adds a motion, in pieces that clear it. `pieces` is a buffer for them.
    fn move_along<A: Allocator>(
        &mut self,
        machine: &Machine<A>,
        commands: &[Command],
        index: u32,
        motion: &Motion,
        most: u16,
        pieces: &mut Vec<Piece, A>,
    ) -> Result<(), MotionRefusal>
        requires index { index ≤ INDEX_LIMIT }
        requires most { 1 ≤ most }
        requires is { way_at commands.now index ≡ Some motion.now.way }
        requires are { AreEntries (M.entries self.old.motions machine.now.step commands.now) }
        requires room { length (M.entries self.old.motions machine.now.step commands.now)
            < MOTION_LIMIT }
        ensures leads { Leads (file_of machine.now) most index (Action.Move motion.now)
            (made_by (λ m. M.entries m machine.now.step commands.now) self.old) result
            (made_by (λ m. M.entries m machine.now.step commands.now) self.new) }
        ensures are { OnOk result
            (AreEntries (M.entries self.new.motions machine.now.step commands.now)) }
    {
        match find_clear(machine, &self.tool, motion, most, pieces) {
            Ok(true) => {}
            Ok(false) => return Err(MotionRefusal::NotCleared(index)),
            Err(_) => return Err(MotionRefusal::Memory),
        }
        let way = &motion.way;
        match self
            .motions
            .add(machine.step, commands, index, way, pieces.as_slice())
        {
            Ok(()) => {}
            Err(_) => return Err(MotionRefusal::Memory),
        }
        self.place = motion.way.end();
        Ok(())
    }

    // Executes a command.
    fn take<A: Allocator>(
        &mut self,
        machine: &Machine<A>,
        commands: &[Command],
        index: u32,
        action: &Action,
        most: u16,
        pieces: &mut Vec<Piece, A>,
    ) -> Result<(), MotionRefusal>
        requires index { index ≤ INDEX_LIMIT }
        requires most { 1 ≤ most }
        requires is { way_at commands.now index ≡ way_of action.now }
        requires are { AreEntries (M.entries self.old.motions machine.now.step commands.now) }
        requires room { length (M.entries self.old.motions machine.now.step commands.now)
            < MOTION_LIMIT }
        ensures leads { Leads (file_of machine.now) most index action.now
            (made_by (λ m. M.entries m machine.now.step commands.now) self.old) result
            (made_by (λ m. M.entries m machine.now.step commands.now) self.new) }
        ensures are { OnOk result
            (AreEntries (M.entries self.new.motions machine.now.step commands.now)) }
    {
        match action {
            Action::Move(motion) => {
                self.move_along(machine, commands, index, motion, most, pieces)
            }
            Action::Mount(tool) => self.mount(machine, index, *tool),
            _ => Ok(()),
        }
    }
}

/// Adds the motions of a setting to an empty store, each with its pieces. `pieces` is a buffer.
pub(crate) fn fill<A: Allocator, M: MotionStore + Drop>(
    empty: M,
    commands: &[Command],
    machine: &Machine<A>,
    most: u16,
    pieces: &mut Vec<Piece, A>,
) -> Result<M, MotionRefusal>
    requires empty { M.entries empty machine.now.step commands.now ≡ [] }
    requires most { 1 ≤ most }
    requires count { length commands.now ≤ COMMAND_LIMIT }
    ensures made { SettingResultIs (λ m. M.entries m machine.now.step commands.now) result
        (IsSettingMade (file_of machine.now) most commands.now) }
    ensures are { IfOk result
        (λ m. AreEntries (M.entries m machine.now.step commands.now)) }
{
    let mut progress = Progress::at_start(empty, machine);
    for (index, command) in commands.iter().enumerate() {
        match progress.take(
            machine,
            commands,
            index as u32,
            &command.action,
            most,
            pieces,
        ) {
            Ok(()) => {}
            Err(refusal) => return Err(refusal),
        }
    }
    Ok(progress.motions)
}

/// Returns the fault for a refusal at a setting.
pub(crate) fn fault_at(setting: Setting, refusal: MotionRefusal) -> MakeFault
    ensures { result ≡ fault_at setting refusal }
{
    match refusal {
        MotionRefusal::NotCleared(command) => MakeFault::NotCleared { setting, command },
        MotionRefusal::Memory => MakeFault::Memory,
    }
}

/// Returns a certificate for the commands of a program with block delete off and on, on a machine;
/// or the first command that isn't cleared (304), or 900.
///
/// A line is tried in 1, 2, 4 .. pieces of about the same length, as long as their number is below
/// `cuts`, and then in `cuts` pieces. The first number that clears is used. An arc has one piece if
/// that clears it; else it has at most `cuts`, if the search finds cuts. `cuts` is at least 1. Each
/// setting has at most a million commands.
pub fn make<A: Allocator + Copy>(
    alloc: A,
    off: &[Command],
    on: &[Command],
    machine: &Machine<A>,
    cuts: u16,
) -> Result<Certificate<A>, MakeFault>
    requires cuts { 1 ≤ cuts }
    requires off { length off.now ≤ COMMAND_LIMIT }
    requires on { length on.now ≤ COMMAND_LIMIT }
    ensures made { MadeResultIs certificate_data result (IsMade (file_of machine.now) cuts off.now on.now) }
    ensures valid { IfOk result (λ c. IsValid (file_of machine.now) off.now (certificate_data c).off ×
        IsValid (file_of machine.now) on.now (certificate_data c).on) }
    // It is of version 1.
    ensures form { IfOk result (λ c. form_of c ≡ Parted (certificate_data c)) }
    ensures undivided { clears_undivided (file_of machine.now) off.now ≡ true →
        clears_undivided (file_of machine.now) on.now ≡ true →
        MatchResult result (λ c. Unit {0}) (λ e. e ≡ MakeFault.Memory) }
{
    if !is_clear_at(machine, &None, &machine.start) {
        return Err(MakeFault::NotCleared {
            setting: Setting::Off,
            command: 0,
        });
    }
    let mut pieces = Vec::new(alloc);
    let off = match fill(Motions::new(alloc), off, machine, cuts, &mut pieces) {
        Ok(motions) => motions,
        Err(refusal) => return Err(fault_at(Setting::Off, refusal)),
    };
    let on = match fill(Motions::new(alloc), on, machine, cuts, &mut pieces) {
        Ok(motions) => motions,
        Err(refusal) => return Err(fault_at(Setting::On, refusal)),
    };
    Ok(Certificate::parted(off, on))
}

/// Does the same as `make` for a program with the same commands at both settings: the motions of
/// one setting are copied for the other.
pub fn make_alike<A: Allocator + Copy>(
    alloc: A,
    commands: &[Command],
    machine: &Machine<A>,
    cuts: u16,
) -> Result<Certificate<A>, MakeFault>
    requires cuts { 1 ≤ cuts }
    requires count { length commands.now ≤ COMMAND_LIMIT }
    ensures made { MadeResultIs certificate_data result
        (IsMade (file_of machine.now) cuts commands.now commands.now) }
    ensures valid { IfOk result (λ c. IsValid (file_of machine.now) commands.now (certificate_data c).off ×
        IsValid (file_of machine.now) commands.now (certificate_data c).on) }
    // It is of version 1.
    ensures form { IfOk result (λ c. form_of c ≡ Parted (certificate_data c)) }
    ensures undivided { clears_undivided (file_of machine.now) commands.now ≡ true →
        MatchResult result (λ c. Unit {0}) (λ e. e ≡ MakeFault.Memory) }
{
    if !is_clear_at(machine, &None, &machine.start) {
        return Err(MakeFault::NotCleared {
            setting: Setting::Off,
            command: 0,
        });
    }
    let mut pieces = Vec::new(alloc);
    let off = match fill(Motions::new(alloc), commands, machine, cuts, &mut pieces) {
        Ok(motions) => motions,
        Err(refusal) => return Err(fault_at(Setting::Off, refusal)),
    };
    match off.copy(alloc) {
        Ok(on) => Ok(Certificate::parted(off, on)),
        Err(_) => Err(MakeFault::Memory),
    }
}
