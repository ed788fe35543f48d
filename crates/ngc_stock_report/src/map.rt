//! The picture of the material that a walk leaves.
ghost use Rattle.std.specs.Prelude.{ℕ, List, OnOk, OnErr};
ghost use Rattle.std.specs.Io.KnownBytes.{Appends};
ghost use Rattle.ngc_text.specs.Failures.{CountsFailure};
ghost use Rattle.ngc_text.specs.Written.{AppendsPrefix};
ghost use Rattle.ngc_stock_report.specs.MapPictures.{IsMapOf};
ghost use Rattle.ngc_stock_report.specs.Marks.{AreMarks};

use crate::walked::Walk;
use ngc_map_picture::{Relief, usual_side, write_map};
use ngc_text::{Sink, WriteFault};
use std::alloc::Allocator;

/// Writes the material that a walk leaves as a PNG picture, with the marks that `find_marks` returns: seen from above,
/// the side of the greatest Y at the top, and at most 1000 pixels wide and high if no more cells are.
///
/// After a fault (902, only if the sink failed) a prefix of the picture is written.
pub fn write_walk_map<A: Allocator, W: Sink>(
    walk: &Walk<A>,
    marks: &[bool],
    sink: &mut W,
) -> Result<(), WriteFault>
    requires { AreMarks walk.now marks.now }
    ensures ok { OnOk result ((text : List ℕ) × IsMapOf walk.now text
        × Appends (W.written sink.old) (W.written sink.new) text) }
    ensures fault { OnErr result ((text : List ℕ) × IsMapOf walk.now text
        × AppendsPrefix (W.written sink.old) (W.written sink.new) text) }
    ensures counts { CountsFailure (W.failures sink.old) (W.failures sink.new) result }
{
    let grid = walk.stock.grid;
    let relief = Relief {
        grid,
        top: walk.stock.height,
        heights: walk.touches.heights.as_slice(),
        touched: marks,
        side: usual_side(&grid),
    };
    write_map(&relief, sink)
}
