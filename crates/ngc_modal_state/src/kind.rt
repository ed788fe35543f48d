ghost use Rattle.std.specs.Prelude.{◌≡◌};

use crate::block::Block;
use crate::code::{CycleCode, LengthCode, MotionMode, NonModal};

impl CycleCode {
    ghost use Rattle.ngc_modal_state.specs.Kinds.{hole_dwells, hole_pecks, hole_number};

    // Returns whether the hole takes P.
    fn dwells(self) -> bool
        ensures { result ≡ hole_dwells self }
    {
        matches!(
            self,
            CycleCode::DrillWithDwell | CycleCode::BoreWithStop | CycleCode::BoreWithDwell
        )
    }

    // Returns whether the hole takes Q.
    fn pecks(self) -> bool
        ensures { result ≡ hole_pecks self }
    {
        matches!(self, CycleCode::Peck)
    }

    // Returns the number of the hole's G code.
    fn number(self) -> u8
        ensures { result ≡ hole_number self }
    {
        match self {
            CycleCode::Drill => 81,
            CycleCode::DrillWithDwell => 82,
            CycleCode::Peck => 83,
            CycleCode::Bore => 85,
            CycleCode::BoreWithStop => 86,
            CycleCode::BoreWithDwell => 89,
        }
    }
}

impl MotionMode {
    ghost use Rattle.ngc_modal_state.specs.Kinds.{is_straight, is_arc, is_cycle, is_cancel, feeds};
    ghost use Rattle.ngc_modal_state.specs.Kinds.{dwells, pecks, begins_cycle};

    // Returns whether it is G0 or G1.
    pub(crate) fn is_straight(self) -> bool
        ensures { result ≡ is_straight self }
    {
        matches!(self, MotionMode::Traverse | MotionMode::Straight)
    }

    // Returns whether it is G2 or G3.
    pub(crate) fn is_arc(self) -> bool
        ensures { result ≡ is_arc self }
    {
        matches!(self, MotionMode::Arc(_))
    }

    // Returns whether it is a cycle: G81 to G89.
    pub(crate) fn is_cycle(self) -> bool
        ensures { result ≡ is_cycle self }
    {
        matches!(self, MotionMode::Cycle(_))
    }

    // Returns whether it is G80.
    pub(crate) fn is_cancel(self) -> bool
        ensures { result ≡ is_cancel self }
    {
        matches!(self, MotionMode::Cancel)
    }

    // Returns whether it moves at a feed: G1 to G3.
    pub(crate) fn feeds(self) -> bool
        ensures { result ≡ feeds self }
    {
        matches!(self, MotionMode::Straight | MotionMode::Arc(_))
    }

    // Returns whether it dwells: G82, G86, G89.
    pub(crate) fn dwells(self) -> bool
        ensures { result ≡ dwells self }
    {
        match self {
            MotionMode::Cycle(hole) => hole.dwells(),
            _ => false,
        }
    }

    // Returns whether it pecks: G83.
    pub(crate) fn pecks(self) -> bool
        ensures { result ≡ pecks self }
    {
        match self {
            MotionMode::Cycle(hole) => hole.pecks(),
            _ => false,
        }
    }

    // Returns whether it is a cycle of another code than the motion mode before it.
    pub(crate) fn begins_cycle(self, before: MotionMode) -> bool
        ensures { result ≡ begins_cycle before self }
    {
        match (before, self) {
            (MotionMode::Cycle(before), MotionMode::Cycle(hole)) => before.number()
                != hole.number(),
            (_, MotionMode::Cycle(_)) => true,
            _ => false,
        }
    }
}

impl Block {
    ghost use Rattle.ngc_modal_state.specs.Kinds.{is_dwell, sets_origin, sets_offset};
    ghost use Rattle.ngc_modal_state.specs.Kinds.{is_machine_place, takes_axes, applies_length};

    // Returns whether G4 is present.
    pub(crate) fn is_dwell(&self) -> bool
        ensures { result ≡ is_dwell self.now.once }
    {
        matches!(self.once, Some(NonModal::Dwell))
    }

    // Returns whether G10 is present.
    pub(crate) fn sets_origin(&self) -> bool
        ensures { result ≡ sets_origin self.now.once }
    {
        matches!(self.once, Some(NonModal::SetOrigin))
    }

    // Returns whether G92 is present.
    pub(crate) fn sets_offset(&self) -> bool
        ensures { result ≡ sets_offset self.now.once }
    {
        matches!(self.once, Some(NonModal::SetOffset))
    }

    // Returns whether G53 is present.
    pub(crate) fn is_machine_place(&self) -> bool
        ensures { result ≡ is_machine_place self.now.once }
    {
        matches!(self.once, Some(NonModal::MachinePlace))
    }

    // Returns whether G10, G28, G30 or G92 is present.
    pub(crate) fn takes_axes(&self) -> bool
        ensures { result ≡ takes_axes self.now.once }
    {
        matches!(
            self.once,
            Some(NonModal::SetOrigin | NonModal::Home28 | NonModal::Home30 | NonModal::SetOffset)
        )
    }

    // Returns whether G43 is present.
    pub(crate) fn applies_length(&self) -> bool
        ensures { result ≡ applies_length self.now.tool_length }
    {
        matches!(self.tool_length, Some(LengthCode::Apply))
    }
}
