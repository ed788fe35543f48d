//! The parts of a tool as cylinders, and cylinders that are inside a part.
ghost use Rattle.std.specs.Prelude.{◌≡◌, IfOk, slice_get};
ghost use Rattle.ngc_sure_contacts.specs.Contacts.{inside, one_of};
ghost use Rattle.ngc_sure_contacts.specs.Swept as spec;

use crate::cutter::foot_over;
use crate::discs::discs_of;
use ngc_file_figures::ToolLimits;
use ngc_machine_files::Tool;
use ngc_stock::Cylinder;
use std::alloc::{AllocError, Allocator};

fn body<A: Allocator>(alloc: A, tool: &Tool) -> Result<Vec<Cylinder, A>, AllocError>
    ensures { IfOk result (λ v. v.items ≡ spec.body tool.now) }
{
    let parts = tool.parts.as_slice();
    let mut cylinders = Vec::with_capacity(alloc, parts.len())?;
    let mut foot = tool.bottom;
    for part in parts {
        cylinders.push(Cylinder {
            bottom: foot,
            radius: part.radius.nanometres().unsigned_abs(),
        })?;
        foot = foot_over(foot, part.length.nanometres().unsigned_abs());
    }
    Ok(cylinders)
}

/// Returns the parts of the mounted tool. Without a tool there are none. It fails if memory is refused.
pub(crate) fn body_in<A: Allocator>(
    alloc: A,
    tool: &Option<Tool>,
) -> Result<Vec<Cylinder, A>, AllocError>
    ensures { IfOk result (λ v. v.items ≡ spec.body_in tool.now) }
{
    match tool {
        Some(tool) => body(alloc, tool),
        None => Ok(Vec::new(alloc)),
    }
}

// Returns a part of a tool, or nothing if there is no such part.
fn one_part<A: Allocator + Copy>(
    alloc: A,
    tool: &Tool,
    part: usize,
) -> Result<Vec<Cylinder, A>, AllocError>
    ensures { IfOk result (λ v. v.items ≡ one_of (slice_get (spec.body tool.now) part)) }
{
    let body = body(alloc, tool)?;
    match body.as_slice().get(part) {
        Some(cylinder) => {
            let mut one = Vec::with_capacity(alloc, 1)?;
            one.push(*cylinder)?;
            Ok(one)
        }
        None => Ok(Vec::new(alloc)),
    }
}

/// Returns cylinders that are inside a part of a tool: the discs of its cutter, which is part 0, or the part
/// itself. It fails if memory is refused.
pub(crate) fn inside<A: Allocator + Copy>(
    alloc: A,
    table: &[ToolLimits],
    tool: &Tool,
    part: usize,
) -> Result<Vec<Cylinder, A>, AllocError>
    ensures { IfOk result (λ v. v.items ≡ inside table.now tool.now part) }
{
    if part == 0 {
        discs_of(alloc, table, tool)
    } else {
        one_part(alloc, tool, part)
    }
}
