use ngc_cells::Spot;
use ngc_material::Found;

/// Where a traverse surely goes through material.
#[derive(Clone, Copy)]
pub struct Contact {
    /// The centre of a cell, in nanometres of the machine.
    pub place: Spot,
    /// How far the material there is above the foot of the part, or of a disc of the cutter, at least, in
    /// nanometres.
    pub depth: u32,
}

/// A traverse that a walk has found.
#[derive(Clone, Copy)]
pub struct FoundTraverse {
    pub found: Found,
    /// Where it surely goes through material, if that is known.
    pub contact: Option<Contact>,
}
