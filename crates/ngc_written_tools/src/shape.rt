//! The measures of a tool.
ghost use Rattle.std.specs.Prelude.{◌≡◌, ◌≤◌};
ghost use Rattle.ngc_written_tools.specs.Shapes as spec;

use crate::sheet::{Blade, HolderSheet, MeasuredTool, PartSheet, Reach, Size, ToolSheet};
use ngc_file_figures::Cutter;
use ngc_machine_figures::{FileRefusal, Key, ToolKey, ToolWrong, Wrong};

// A tool is at most this long, in nanometres.
const MOST: u64 = 1_000_000_000;

fn part_length(part: Option<PartSheet>) -> u64
    ensures value { result ≡ spec.part_length part }
    ensures bound { result ≤ 4294967295 }
{
    match part {
        Some(part) => u64::from(part.length.nanometres),
        None => 0,
    }
}

fn holder_length(holder: &HolderSheet) -> u64
    ensures value { result ≡ spec.holder_length holder.now }
    ensures bound { result ≤ 12884901885 }
{
    part_length(holder.first) + part_length(holder.second) + part_length(holder.third)
}

fn refused<T: Copy>(key: ToolKey, wrong: ToolWrong) -> Result<T, FileRefusal>
    ensures { result ≡ spec.refuse key wrong }
{
    Err(FileRefusal {
        key: Key::Tool(key),
        wrong: Wrong::Tool(wrong),
    })
}

fn reach(length: u32, stickout: u32) -> Reach
    ensures { result ≡ spec.reach length stickout }
{
    Reach {
        length: Size { nanometres: length },
        stickout: Size {
            nanometres: stickout,
        },
    }
}

// Returns what is wrong where stickout and holder together aren't the length.
fn unequal(holder: u64) -> ToolWrong
    ensures { result ≡ spec.unequal holder }
{
    if holder == 0 {
        ToolWrong::UnequalLength
    } else {
        ToolWrong::UnequalHolder
    }
}

fn reach_of_both(tool: u16, length: Size, stickout: Size, holder: u64) -> Result<Reach, FileRefusal>
    requires { holder ≤ 12884901885 }
    ensures { result ≡ spec.reach_of_both tool length stickout holder }
{
    if u64::from(stickout.nanometres) + holder == u64::from(length.nanometres) {
        Ok(reach(length.nanometres, stickout.nanometres))
    } else {
        refused(ToolKey::Stickout(tool), unequal(holder))
    }
}

fn reach_of_length(tool: u16, length: Size, holder: u64) -> Result<Reach, FileRefusal>
    ensures { result ≡ spec.reach_of_length tool length holder }
{
    if holder < u64::from(length.nanometres) {
        Ok(reach(
            length.nanometres,
            (u64::from(length.nanometres) - holder) as u32,
        ))
    } else {
        refused(ToolKey::Length(tool), ToolWrong::ShortTool)
    }
}

fn reach_of_stickout(tool: u16, stickout: Size, holder: u64) -> Result<Reach, FileRefusal>
    requires { holder ≤ 12884901885 }
    ensures { result ≡ spec.reach_of_stickout tool stickout holder }
{
    let length = u64::from(stickout.nanometres) + holder;
    if length <= MOST {
        Ok(reach(length as u32, stickout.nanometres))
    } else {
        refused(ToolKey::Stickout(tool), ToolWrong::LongTool)
    }
}

fn reach_of(
    tool: u16,
    length: Option<Size>,
    stickout: Option<Size>,
    holder: u64,
) -> Result<Reach, FileRefusal>
    requires { holder ≤ 12884901885 }
    ensures { result ≡ spec.reach_of tool length stickout holder }
{
    match (length, stickout) {
        (Some(length), Some(stickout)) => reach_of_both(tool, length, stickout, holder),
        (Some(length), None) => reach_of_length(tool, length, holder),
        (None, Some(stickout)) => reach_of_stickout(tool, stickout, holder),
        (None, None) => refused(ToolKey::Tool(tool), ToolWrong::NoLength),
    }
}

fn or_else(size: Option<Size>, otherwise: Size) -> Size
    ensures { result ≡ spec.or_else size otherwise }
{
    match size {
        Some(size) => size,
        None => otherwise,
    }
}

fn part(diameter: Size, length: u32) -> PartSheet
    ensures { result ≡ spec.part diameter length }
{
    PartSheet {
        diameter,
        length: Size { nanometres: length },
    }
}

// Returns a cutter that is all that sticks out of the holder.
fn whole_blade(diameter: Size, stickout: Size) -> Blade
    ensures { result ≡ spec.whole_blade diameter stickout }
{
    Blade {
        cutter: part(diameter, stickout.nanometres),
        shank: None,
    }
}

fn blade_with(
    tool: u16,
    sheet: &ToolSheet,
    flute: Size,
    stickout: Size,
) -> Result<Blade, FileRefusal>
    ensures { result ≡ spec.blade_with tool sheet.now flute stickout }
{
    if stickout.nanometres < flute.nanometres {
        refused(ToolKey::Flute(tool), ToolWrong::LongFlute)
    } else if stickout.nanometres == flute.nanometres {
        Ok(whole_blade(sheet.diameter, stickout))
    } else {
        Ok(Blade {
            cutter: part(sheet.diameter, flute.nanometres),
            shank: Some(part(
                or_else(sheet.shank, sheet.diameter),
                stickout.nanometres - flute.nanometres,
            )),
        })
    }
}

// Returns what sticks out of the holder.
fn blade_of(tool: u16, sheet: &ToolSheet, stickout: Size) -> Result<Blade, FileRefusal>
    ensures { result ≡ spec.blade_of tool sheet.now stickout }
{
    match (sheet.flute, sheet.shank) {
        (Some(flute), _) => blade_with(tool, sheet, flute, stickout),
        (None, None) => Ok(whole_blade(sheet.diameter, stickout)),
        (None, Some(_)) => refused(ToolKey::Shank(tool), ToolWrong::LoneShank),
    }
}

fn check_length(tool: u16, point: Size, blade: &Blade) -> Result<(), FileRefusal>
    ensures { result ≡ spec.checked_length tool point blade.now }
{
    if blade.cutter.length.nanometres < point.nanometres {
        refused(ToolKey::Point(tool), ToolWrong::LongPoint)
    } else {
        Ok(())
    }
}

// Refuses a tool of more than four parts, which has a shank and three parts of the holder.
fn check_parts(tool: u16, blade: &Blade, holder: &HolderSheet) -> Result<(), FileRefusal>
    ensures { result ≡ spec.checked_parts tool blade.now holder.now }
{
    match (blade.shank, holder.third) {
        (Some(_), Some(_)) => refused(ToolKey::Holder(tool), ToolWrong::ManyParts),
        _ => Ok(()),
    }
}

// Refuses a point of another cutter than a vee or a drill, and one that is longer than the cutter.
fn check_point(tool: u16, sheet: &ToolSheet, blade: &Blade) -> Result<(), FileRefusal>
    ensures { result ≡ spec.checked_point tool sheet.now.limits.cutter sheet.now.point blade.now }
{
    match (sheet.point, sheet.limits.cutter) {
        (None, _) => Ok(()),
        (Some(point), Some(Cutter::Vee)) => check_length(tool, point, blade),
        (Some(point), Some(Cutter::Drill)) => check_length(tool, point, blade),
        (Some(_), _) => refused(ToolKey::Point(tool), ToolWrong::LonePoint),
    }
}

/// Returns the measures of a tool, or the first one that doesn't fit the others.
#[tactic(auto, unfolding(crate::specs::Shapes::measured))]
pub(crate) fn measured(
    tool: u16,
    sheet: &ToolSheet,
    holder: &HolderSheet,
) -> Result<MeasuredTool, FileRefusal>
    ensures { result ≡ spec.measured tool sheet.now holder.now }
{
    let reach = reach_of(tool, sheet.length, sheet.stickout, holder_length(holder))?;
    let blade = blade_of(tool, sheet, reach.stickout)?;
    check_point(tool, sheet, &blade)?;
    check_parts(tool, &blade, holder)?;
    Ok(MeasuredTool {
        place: tool,
        sheet: *sheet,
        reach,
        blade,
        holder: *holder,
    })
}
