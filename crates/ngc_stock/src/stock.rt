use ngc_cells::Grid;

/// A stock of material: square cells over a rectangle, and the height of its top above its bottom.
/// Lengths are in nanometres of the machine.
#[derive(Clone, Copy)]
pub struct Stock {
    pub grid: Grid,
    pub bottom: i64,
    pub height: u32,
}
