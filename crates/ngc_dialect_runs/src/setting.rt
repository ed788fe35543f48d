//! The machines and the tools of the programs.
use ngc_canonical::{Machine, Tools, built_in_machine};
use std::alloc::Global;

// The origins and homes of a mill.
const MILL: &str = "version = 1
step = 10_000
ticks_per_second = 10_000
max_rate = 400_000
change = 1_000
corner = 50_000
turn = 1_000_000_000
low = [0, 0, -100_000_000]
high = [300_000_000, 300_000_000, 0]
start = [0, 0, 0]
home28 = [0, 0, 0]
home30 = [0, 300_000_000, 0]
origins = [
    [50_000_000, 60_000_000, -70_000_000],
    [0, 0, 0], [0, 0, 0], [0, 0, 0], [0, 0, 0], [0, 0, 0], [0, 0, 0], [0, 0, 0], [0, 0, 0]
]
";

const TOOLS: &str = "version = 1
[[tool]]
number = 1
length = 30_000_000
radius = 20_000_000
offset = 30_000_000
[[tool]]
number = 2
length = 45_000_000
radius = 4_000_000
offset = 45_000_000
";

/// Returns the mill, or the built-in machine.
pub fn machine_of(alloc: Global, on_mill: bool) -> Option<Machine<Global>> {
    if on_mill {
        Machine::read(alloc, MILL.as_bytes()).ok()
    } else {
        Some(built_in_machine(alloc))
    }
}

/// Returns the tools.
pub fn tools_of(alloc: Global) -> Option<Tools<Global>> {
    Tools::read(alloc, TOOLS.as_bytes()).ok()
}
