//! The check of a setting of block delete, motion by motion.
ghost use Rattle.std.specs.Prelude.{◌≡◌, ◌+◌, ◌-◌, ◌<◌, ◌≤◌, ◌∷◌, [], length, drop, List};
ghost use Rattle.std.specs.Prelude.{MatchOption, Option, Some, None, IfSome, ◌&&◌, nat_lt};
ghost use Rattle.ngc_machine_files.specs.Machine.{MachineFile, file_of};
ghost use Rattle.ngc_commands.specs.Sequence.{COMMAND_LIMIT};
ghost use Rattle.ngc_certificate.specs.Traverses.{takes_any_way};
ghost use Rattle.ngc_certificate_text.specs.Certificate.{PIECE_LIMIT, entry_at};
ghost use Rattle.ngc_checker.specs.FirstRefusal.{setting_fault, start_fault};
ghost use Rattle.ngc_checker.specs.Walking.{fault_left};
ghost use Rattle.ngc_checker.specs.Following.{IsFollowing};

use crate::command_walk::CommandWalk;
use crate::fault::CheckFault;
use crate::setting::start_fault;
use ngc_certificate::{Piece, PieceJudge, Setting, takes_any_way};
use ngc_certificate_text::MotionList;
use ngc_commands::{Command, Pace};
use ngc_machine_files::Machine;
use std::alloc::Allocator;

/// The state of the check of a setting.
#[derive(Drop)]
pub struct SettingJudge {
    /// The walk through its commands.
    pub walk: CommandWalk,
    /// The index at which the motions of program and certificate first differ.
    pub differs: Option<u32>,
    /// The judge of the motion that has begun, if its pieces still matter.
    pub following: Option<PieceJudge>,
}

// Returns whether a motion has several pieces, though the control may take any way to its end.
fn is_divided<A: Allocator>(machine: &Machine<A>, pace: &Pace, pieces: u32) -> bool
    ensures { result ≡ (takes_any_way (file_of machine.now) pace.now && nat_lt 1 pieces) }
{
    takes_any_way(machine, pace) && pieces > 1
}

impl SettingJudge {
    ghost use Rattle.ngc_commands.specs.declared.command.Command.{Command};
    ghost use Rattle.ngc_certificate_text.specs.declared.piece.Piece.{Piece};
    ghost use Rattle.ngc_certificate_text.specs.Certificate.{Entry};
    ghost use Rattle.ngc_certificate_text.specs.declared.piece.Setting.{Setting};

    /// Returns the state before the first motion of the setting.
    pub(crate) fn new<A: Allocator>(machine: &Machine<A>) -> SettingJudge
        ensures begins { (setting : Setting) (commands : List Command) (entries : List Entry) →
            setting_fault (file_of machine.now) setting commands entries
            ≡ fault_left (file_of machine.now) setting commands result [] entries }
        ensures none { result.following ≡ None }
        ensures index { result.walk.index ≡ 0 }
    {
        SettingJudge {
            walk: CommandWalk::new(machine.start),
            differs: None,
            following: None,
        }
    }

    // Compares the program's next motion with this one, which has `pieces` pieces.
    fn compare<A: Allocator>(
        &mut self,
        machine: &Machine<A>,
        setting: Setting,
        commands: &[Command],
        index: u32,
        pieces: u32,
    )
        requires count { length commands.now ≤ COMMAND_LIMIT }
        requires index { self.old.walk.index ≤ length commands.now }
        requires none { self.old.following ≡ None }
        requires going { self.old.differs ≡ None }
        requires some { 1 ≤ pieces }
        requires few { pieces ≤ PIECE_LIMIT }
        ensures index { self.new.walk.index ≤ length commands.now }
        ensures following { IsFollowing (file_of machine.now) self.new.following pieces }
        ensures left { (ps : List Piece) (entries : List Entry) → length ps ≡ pieces →
            fault_left (file_of machine.now) setting commands.now self.old []
            (record { index = index; pieces = ps } ∷ entries)
            ≡ fault_left (file_of machine.now) setting commands.now self.new ps entries }
    {
        let ahead = &commands[self.walk.index as usize..];
        match self.walk.next_motion(machine, setting, ahead) {
            Some(next) if next.index == index => {
                if is_divided(machine, &next.motion.pace, pieces) {
                    let command = next.index;
                    self.walk.refuse(CheckFault::Divided { setting, command });
                    return;
                }
                self.following = Some(PieceJudge::new(
                    machine,
                    self.walk.tool,
                    &next.motion.way,
                    pieces > 1,
                ));
            }
            Some(next) => self.differs = Some(next.index.min(index)),
            None => self.differs = Some(index),
        }
    }

    /// Checks the motion of the certificate with this index; its `pieces` pieces follow.
    pub(crate) fn motion<A: Allocator>(
        &mut self,
        machine: &Machine<A>,
        setting: Setting,
        commands: &[Command],
        index: u32,
        pieces: u32,
    )
        requires count { length commands.now ≤ COMMAND_LIMIT }
        requires index { self.old.walk.index ≤ length commands.now }
        requires none { self.old.following ≡ None }
        requires some { 1 ≤ pieces }
        requires few { pieces ≤ PIECE_LIMIT }
        ensures index { self.new.walk.index ≤ length commands.now }
        ensures following { IsFollowing (file_of machine.now) self.new.following pieces }
        ensures left { (ps : List Piece) (entries : List Entry) → length ps ≡ pieces →
            fault_left (file_of machine.now) setting commands.now self.old []
            (record { index = index; pieces = ps } ∷ entries)
            ≡ fault_left (file_of machine.now) setting commands.now self.new ps entries }
    {
        if self.differs.is_none() {
            self.compare(machine, setting, commands, index, pieces);
        }
    }

    /// Checks a piece of the motion that has begun; `left` pieces remain, including this one.
    pub(crate) fn piece<A: Allocator>(
        &mut self,
        machine: &Machine<A>,
        setting: Setting,
        left: u32,
        piece: &Piece,
    )
        requires following { IsFollowing (file_of machine.now) self.old.following left }
        requires some { 1 ≤ left }
        ensures index { self.new.walk.index ≡ self.old.walk.index }
        ensures following { IsFollowing (file_of machine.now) self.new.following (left - 1) }
        ensures last { left ≡ 1 → self.new.following ≡ None }
        ensures left { (commands : List Command) (pieces : List Piece) (entries : List Entry) →
            length pieces + 1 ≡ left →
            fault_left (file_of machine.now) setting commands self.old (piece.now ∷ pieces) entries
            ≡ fault_left (file_of machine.now) setting commands self.new pieces entries }
    {
        let last = left <= 1;
        let command = self.walk.index.saturating_sub(1);
        if let Some(judge) = &mut self.following {
            if let Some(refusal) = judge.next(machine, piece, last) {
                self.walk.refuse(CheckFault::Piece {
                    setting,
                    command,
                    piece: refusal.piece,
                    fault: refusal.fault,
                });
            }
        }
        if last {
            self.following = None;
        }
    }

    /// Checks motion `i` of the certificate, with all its pieces.
    pub(crate) fn entry<A: Allocator, M: MotionList>(
        &mut self,
        machine: &Machine<A>,
        setting: Setting,
        commands: &[Command],
        motions: &M,
        i: usize,
    )
        requires count { length commands.now ≤ COMMAND_LIMIT }
        requires index { self.old.walk.index ≤ length commands.now }
        requires none { self.old.following ≡ None }
        requires inside { i < length (M.entries motions.now) }
        ensures index { self.new.walk.index ≤ length commands.now }
        ensures none { self.new.following ≡ None }
        ensures left { (entries : List Entry) →
            fault_left (file_of machine.now) setting commands.now self.old []
            (entry_at (M.entries motions.now) i ∷ entries)
            ≡ fault_left (file_of machine.now) setting commands.now self.new [] entries }
    {
        let count = motions.piece_count(i) as u32;
        self.motion(machine, setting, commands, motions.command_index(i), count);
        for done in 0..count {
            let piece = motions.piece(i, done as usize);
            self.piece(machine, setting, count - done, &piece);
        }
    }

    /// Returns the first refusal of the setting, after the last motion.
    pub(crate) fn finish<A: Allocator>(
        &mut self,
        machine: &Machine<A>,
        setting: Setting,
        commands: &[Command],
    ) -> Option<CheckFault>
        requires count { length commands.now ≤ COMMAND_LIMIT }
        requires index { self.old.walk.index ≤ length commands.now }
        requires none { self.old.following ≡ None }
        ensures { result ≡ fault_left (file_of machine.now) setting commands.now self.old [] [] }
    {
        if self.differs.is_none() {
            let ahead = &commands[self.walk.index as usize..];
            if let Some(motion) = self.walk.next_motion(machine, setting, ahead) {
                self.differs = Some(motion.index);
            }
        }
        if let Some(command) = self.differs {
            return Some(CheckFault::MotionsDiffer { setting, command });
        }
        match start_fault(machine) {
            Some(fault) => Some(fault),
            None => self.walk.refusal,
        }
    }
}
