//! The cutter of a tool, and limits of which reports warn.
ghost use Rattle.std.specs.Prelude.{◌≡◌, IfOk, map};
ghost use Rattle.toml.specs.View.{view};
ghost use Rattle.ngc_written_tools.specs.Limits as spec;

use crate::sheet::{LimitSheet, MeasuredTool, Size, ToolSheet};
use ngc_file_figures::{Cutter, Limits, ToolLimits};
use ngc_machine_figures::{FeedLimits, FileRefusal, Key, Speed, ToolKey, TurningLimits, optional};
use std::alloc::{AllocError, Global};
use toml::Value;

fn turning(limits: Option<TurningLimits>) -> Option<Limits>
    ensures { result ≡ spec.turning limits }
{
    match limits {
        Some(limits) => Some(limits.limits),
        None => None,
    }
}

fn feeds(limits: Option<FeedLimits>) -> Option<Limits>
    ensures { result ≡ spec.feeds limits }
{
    match limits {
        Some(limits) => Some(limits.limits),
        None => None,
    }
}

// Returns the limits from 0 up to a speed.
fn up_to(speed: Option<Speed>) -> Option<Limits>
    ensures { result ≡ spec.up_to speed }
{
    match speed {
        Some(speed) => Some(Limits {
            least: 0,
            greatest: speed.nanometres_a_minute,
        }),
        None => None,
    }
}

/// Reads the cutter of a tool and its limits.
#[tactic(auto, unfolding(crate::specs::Limits::limits_at))]
pub(crate) fn limits_at(tool: u16, table: &Value) -> Result<LimitSheet, FileRefusal>
    ensures { result ≡ spec.limits_at tool (view table.now) }
{
    let cutter = optional(Key::Tool(ToolKey::Cutter(tool)), table)?;
    let speed = optional(Key::Tool(ToolKey::Speed(tool)), table)?;
    let feed = optional(Key::Tool(ToolKey::Feed(tool)), table)?;
    let plunge = optional(Key::Tool(ToolKey::Plunge(tool)), table)?;
    Ok(LimitSheet {
        cutter,
        speed: turning(speed),
        feed: feeds(feed),
        plunge: up_to(plunge),
    })
}

fn nanometres(size: Option<Size>) -> Option<u32>
    ensures { result ≡ spec.nanometres size }
{
    match size {
        Some(size) => Some(size.nanometres),
        None => None,
    }
}

// Returns the height of a cone: of the point, or else of a vee's flute, which isn't lower.
fn cone_of(sheet: &ToolSheet) -> Option<u32>
    ensures { result ≡ spec.cone_by sheet.now.limits.cutter sheet.now.point sheet.now.flute }
{
    match (sheet.point, sheet.limits.cutter) {
        (Some(point), _) => Some(point.nanometres),
        (None, Some(Cutter::Vee)) => nanometres(sheet.flute),
        (None, _) => None,
    }
}

fn limits_by(tool: &MeasuredTool) -> ToolLimits
    ensures { result ≡ spec.limits_by tool.now }
{
    let limits = &tool.sheet.limits;
    ToolLimits {
        number: tool.sheet.number.number,
        cutter: limits.cutter,
        cone: cone_of(&tool.sheet),
        speed: limits.speed,
        feed: limits.feed,
        plunge: limits.plunge,
    }
}

/// Returns what is said of each tool besides its body. It fails if memory is refused.
pub(crate) fn limits_of(
    alloc: Global,
    tools: &[MeasuredTool],
) -> Result<Vec<ToolLimits>, AllocError>
    ensures { IfOk result (λ limits. limits.items ≡ map spec.limits_by tools.now) }
{
    let mut limits = Vec::with_capacity(alloc, tools.len())?;
    for tool in tools {
        limits.push(limits_by(tool))?;
    }
    Ok(limits)
}
