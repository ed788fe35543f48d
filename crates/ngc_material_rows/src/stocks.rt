//! The stocks and the tools.
ghost use Rattle.ngc_cells.specs.Grids.{IsGrid};

use ngc_cells::{Grid, Spot};
use ngc_file_figures::{Cutter, ToolLimits};
use ngc_machine_files::Tools;
use ngc_stock::Stock;
use std::alloc::Global;

const TOOLS: &str = "version = 2\n
[[tool]]\nnumber = 1\noffset = 0\nbottom = 0\nparts = [{ length = 20000000, radius = 3000000 }]\n
[[tool]]\nnumber = 2\noffset = 0\nbottom = -20000000\nparts = [{ length = 20000000, radius = 1500000 }, { length = 9000000, radius = 9000000 }]\n
[[tool]]\nnumber = 3\noffset = 0\nbottom = 0\nparts = [{ length = 20000000, radius = 500000 }]\n
[[tool]]\nnumber = 4\noffset = 0\nbottom = -3\nparts = [{ length = 20000000, radius = 700007 }]\n
[[tool]]\nnumber = 5\noffset = 0\nbottom = 0\nparts = [{ length = 3000000, radius = 3000000 }, { length = 17000000, radius = 10000000 }]\n
[[tool]]\nnumber = 6\noffset = 0\nbottom = 0\nparts = [{ length = 3000000, radius = 3000000 }, { length = 17000000, radius = 3000000 }, { length = 10000000, radius = 10000000 }]\n";

fn shape(number: u32, cutter: Cutter, cone: Option<u32>) -> ToolLimits {
    ToolLimits {
        number,
        cutter: Some(cutter),
        cone,
        speed: None,
        feed: None,
        plunge: None,
    }
}

/// Returns the shapes of five tools: tool 1 is a ball, tool 2 a vee of 90 degrees, tool 3 a drill, tool 5 a vee
/// with a cone of 3 mm, and tool 6 is flat.
pub(crate) fn shapes() -> [ToolLimits; 5] {
    [
        shape(1, Cutter::Ball, None),
        shape(2, Cutter::Vee, None),
        shape(3, Cutter::Drill, None),
        shape(5, Cutter::Vee, Some(3_000_000)),
        shape(6, Cutter::Flat, None),
    ]
}

/// Returns six tools: 6 mm wide; 3 mm wide, 20 mm long and with a holder; 1 mm wide; 1.4 mm wide; two of 6 mm
/// whose cutter is 3 mm long, the first with a holder on it, the second with a shank between.
pub(crate) fn tools(alloc: Global) -> Option<Tools<Global>> {
    Tools::read(alloc, TOOLS.as_bytes()).ok()
}

/// Returns the stock of a number. Number 2 has cells of 0.6 mm, and odd numbers of nanometres. Any
/// other is X 0 to 40 mm, Y 0 to 20 mm, Z -15 to -5 mm, in cells of 1 mm.
pub(crate) fn numbered(number: i64) -> Stock
    ensures { IsGrid result.grid }
{
    match number {
        2 => Stock {
            grid: Grid {
                corner: Spot {
                    x: -7_300_001,
                    y: -3_000_007,
                },
                half: 300_001,
                columns: 31,
                rows: 17,
            },
            bottom: -9_000_003,
            height: 4_000_001,
        },
        _ => Stock {
            grid: Grid {
                corner: Spot { x: 0, y: 0 },
                half: 500_000,
                columns: 40,
                rows: 20,
            },
            bottom: -15_000_000,
            height: 10_000_000,
        },
    }
}

/// Returns the place from which coordinates are printed: the corner of stock 2, or X 10 mm, Y 10 mm.
pub(crate) fn origin_of(number: i64) -> Spot {
    match number {
        2 => numbered(2).grid.corner,
        _ => Spot {
            x: 10_000_000,
            y: 10_000_000,
        },
    }
}
