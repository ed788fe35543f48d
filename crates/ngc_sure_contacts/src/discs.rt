//! The discs that are inside a cutter.
ghost use Rattle.std.specs.Prelude.{◌≡◌, ◌≤◌, ◌∷◌, [], IfOk, map};
ghost use Rattle.ngc_cells.specs.Stretches.{RADIUS_LIMIT};
ghost use Rattle.ngc_stock.specs.Discs as spec;
ghost use Rattle.ngc_stock.specs.Stocks.{lowest_part};

use crate::cutter::{foot_over, lowest_part, radius};
use ngc_file_figures::{Cutter, ToolLimits, limits_of};
use ngc_fixed_length::root_floor;
use ngc_machine_files::Tool;
use ngc_stock::Cylinder;
use std::alloc::{AllocError, Allocator};

/// The radii of the discs of a ball, in 64ths of the cutter's.
const BALL_STEPS: [u8; 8] = [8, 16, 24, 32, 40, 48, 56, 64];

/// The same of a cone.
const CONE_STEPS: [u8; 8] = [1, 2, 4, 8, 16, 32, 48, 64];

// Returns how far a ball is above its lowest point at a distance from its axis.
#[tactic(auto, unfolding(ngc_stock::specs::Discs::ball_up))]
fn ball_up(radius: u32, distance: u32) -> u64
    ensures { result ≡ spec.ball_up radius distance }
{
    let (r, d) = (u128::from(radius), u128::from(distance));
    let beside = root_floor((r * r).saturating_sub(d * d));
    u64::from(radius).saturating_sub(beside)
}

// Returns how far a cone is above its point at a distance from its axis.
#[tactic(auto, unfolding(ngc_stock::specs::Discs::cone_up))]
fn cone_up(radius: u32, height: u32, distance: u32) -> u64
    ensures { result ≡ spec.cone_up radius height distance }
{
    let up = u64::from(height) * u64::from(distance);
    up.div_ceil(u64::from(1.max(radius)))
}

// Returns a number of 64ths of a radius.
fn step(radius: u32, part: u8) -> u32
    requires { radius ≤ RADIUS_LIMIT }
    ensures { result ≡ spec.step radius part }
{
    (u64::from(radius) * u64::from(part) / 64) as u32
}

// Returns a disc that begins so far above the tip of a tool.
fn disc(tool: &Tool, radius: u32, up: u64) -> Cylinder
    ensures { result ≡ spec.disc tool.now radius up }
{
    Cylinder {
        bottom: foot_over(tool.bottom, up),
        radius: u64::from(radius),
    }
}

fn ball_disc(tool: &Tool, radius: u32, part: u8) -> Cylinder
    requires { radius ≤ RADIUS_LIMIT }
    ensures { result ≡ spec.ball_disc tool.now radius part }
{
    let distance = step(radius, part);
    disc(tool, distance, ball_up(radius, distance))
}

fn cone_disc(tool: &Tool, radius: u32, height: u32, part: u8) -> Cylinder
    requires { radius ≤ RADIUS_LIMIT }
    ensures { result ≡ spec.cone_disc tool.now radius height part }
{
    let distance = step(radius, part);
    disc(tool, distance, cone_up(radius, height, distance))
}

fn ball_at<A: Allocator>(
    alloc: A,
    tool: &Tool,
    radius: u32,
    parts: &[u8],
) -> Result<Vec<Cylinder, A>, AllocError>
    requires { radius ≤ RADIUS_LIMIT }
    ensures { IfOk result (λ v. v.items ≡ map (spec.ball_disc tool.now radius) parts.now) }
{
    let mut discs = Vec::with_capacity(alloc, parts.len())?;
    for part in parts {
        discs.push(ball_disc(tool, radius, *part))?;
    }
    Ok(discs)
}

fn cone_at<A: Allocator>(
    alloc: A,
    tool: &Tool,
    radius: u32,
    height: u32,
    parts: &[u8],
) -> Result<Vec<Cylinder, A>, AllocError>
    requires { radius ≤ RADIUS_LIMIT }
    ensures { IfOk result (λ v. v.items ≡ map (spec.cone_disc tool.now radius height) parts.now) }
{
    let mut discs = Vec::with_capacity(alloc, parts.len())?;
    for part in parts {
        discs.push(cone_disc(tool, radius, height, *part))?;
    }
    Ok(discs)
}

#[tactic(auto, unfolding(ngc_stock::specs::Discs::ball_discs))]
fn ball_discs<A: Allocator>(
    alloc: A,
    tool: &Tool,
    radius: u32,
) -> Result<Vec<Cylinder, A>, AllocError>
    requires { radius ≤ RADIUS_LIMIT }
    ensures { IfOk result (λ v. v.items ≡ spec.ball_discs tool.now radius) }
{
    ball_at(alloc, tool, radius, &BALL_STEPS)
}

#[tactic(auto, unfolding(ngc_stock::specs::Discs::cone_discs))]
fn cone_discs<A: Allocator>(
    alloc: A,
    tool: &Tool,
    radius: u32,
    height: u32,
) -> Result<Vec<Cylinder, A>, AllocError>
    requires { radius ≤ RADIUS_LIMIT }
    ensures { IfOk result (λ v. v.items ≡ spec.cone_discs tool.now radius height) }
{
    cone_at(alloc, tool, radius, height, &CONE_STEPS)
}

// Returns the one disc of a flat cutter.
fn flat_disc<A: Allocator>(alloc: A, tool: &Tool) -> Result<Vec<Cylinder, A>, AllocError>
    ensures { IfOk result (λ v. v.items ≡ lowest_part tool.now ∷ []) }
{
    let mut discs = Vec::with_capacity(alloc, 1)?;
    discs.push(lowest_part(tool))?;
    Ok(discs)
}

fn vee_height(radius: u32, cone: Option<u32>) -> u32
    ensures { result ≡ spec.vee_height radius cone }
{
    match cone {
        Some(height) => height,
        None => radius,
    }
}

fn drill_height(radius: u32, cone: Option<u32>) -> u32
    ensures { result ≡ spec.drill_height radius cone }
{
    match cone {
        Some(height) => height,
        None => (601 * u64::from(radius)).div_ceil(1_000) as u32,
    }
}

fn shaped<A: Allocator>(
    alloc: A,
    tool: &Tool,
    cutter: Option<Cutter>,
    cone: Option<u32>,
) -> Result<Vec<Cylinder, A>, AllocError>
    ensures { IfOk result (λ v. v.items ≡ spec.shaped tool.now cutter cone) }
{
    let radius = radius(&lowest_part(tool));
    match cutter {
        Some(Cutter::Ball) => ball_discs(alloc, tool, radius),
        Some(Cutter::Vee) => cone_discs(alloc, tool, radius, vee_height(radius, cone)),
        Some(Cutter::Drill) => cone_discs(alloc, tool, radius, drill_height(radius, cone)),
        Some(Cutter::Flat) => flat_disc(alloc, tool),
        None => flat_disc(alloc, tool),
    }
}

/// Returns the discs of a tool's cutter, by what a table says of its shape. It fails if memory is refused.
#[tactic(auto, unfolding(ngc_stock::specs::Discs::discs_of))]
pub(crate) fn discs_of<A: Allocator>(
    alloc: A,
    table: &[ToolLimits],
    tool: &Tool,
) -> Result<Vec<Cylinder, A>, AllocError>
    ensures { IfOk result (λ v. v.items ≡ spec.discs_of table.now tool.now) }
{
    match limits_of(tool.number, table) {
        Some(limits) => shaped(alloc, tool, limits.cutter, limits.cone),
        None => flat_disc(alloc, tool),
    }
}
