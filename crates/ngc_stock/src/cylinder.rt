use ngc_fixed_length::Nm;

/// A cylinder of a tool about its axis, from its foot up.
#[derive(Clone, Copy)]
pub struct Cylinder {
    /// The height of the foot relative to the spindle nose, in nanometres.
    pub bottom: Nm,
    /// In nanometres. More than a metre counts as a metre.
    pub radius: u64,
}
