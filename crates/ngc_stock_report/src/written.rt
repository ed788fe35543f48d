//! The lines of a report about material.
ghost use Rattle.std.specs.Prelude.{◌≡◌, OnOk, OnErr};
ghost use Rattle.std.specs.Io.KnownBytes.{Appends};
ghost use Rattle.ngc_text.specs.Failures.{CountsFailure};
ghost use Rattle.ngc_text.specs.Written.{AppendsPrefix};
ghost use Rattle.ngc_machine_files.specs.Machine.{file_of};
ghost use Rattle.ngc_stock_report.specs.Texts.{block_origin, arcs_words, arcs_line, found_or, far_words, far_fact, far_line};
ghost use Rattle.ngc_stock_report.specs.Texts.{unwalked_text, rest_text, walk_text, told_text, walked_text, material_text};

use crate::arcs::has_other_arcs;
use crate::overlaps::write_overlaps;
use crate::placed::origin_at;
use crate::uncut::uncut_text;
use crate::walked::Walk;
use ngc_cells::Spot;
use ngc_commands::{Command, Reached};
use ngc_machine_files::{Machine, Tool};
use ngc_material::Found;
use ngc_material_report::{write_cuts, write_depths, write_touches, write_untested};
use ngc_report::Form;
use ngc_text::{Sink, WriteFault, write_all};
use std::alloc::Allocator;

/// At most this number of traverses have a line, and of feeds.
const MOST_LINES: usize = 10;

// Returns the origin of the block's coordinate system.
fn block_origin<A: Allocator>(machine: &Machine<A>) -> Spot
    ensures { result ≡ block_origin (file_of machine.now) (file_of machine.now).stock }
{
    let origin = match &machine.stock {
        None => origin_at(machine, 0),
        Some(block) => origin_at(machine, block.system),
    };
    Spot {
        x: origin.x.nanometres(),
        y: origin.y.nanometres(),
    }
}

#[tactic(auto, unfolding(crate::specs::Texts::arcs_words))]
fn arcs_words() -> &'static [u8]
    ensures { result.now ≡ arcs_words }
{
    b"Cuts along arcs of G18 and G19 are not counted: the material may be gone there.\n"
}

fn arcs_line(form: Form, commands: &[Command], found: &[Found]) -> &'static [u8]
    ensures { result.now ≡ arcs_line form commands.now found.now }
{
    match form {
        Form::Words => {
            if !found.is_empty() && has_other_arcs(commands) {
                arcs_words()
            } else {
                b""
            }
        }
        Form::Json => b"",
    }
}

// Returns the traverses that are found, or else the feeds.
fn found_or<'a>(found: &'a [Found], feeds: &'a [Found]) -> &'a [Found]
    ensures { result.now ≡ found_or found.now feeds.now }
{
    if found.is_empty() { feeds } else { found }
}

#[tactic(auto, unfolding(crate::specs::Texts::far_words, crate::specs::Texts::far_fact))]
fn far_line(form: Form) -> &'static [u8]
    ensures { result.now ≡ far_line form }
{
    match form {
        Form::Words =>
            b"The material, or the end of a motion, is more than 2 m from the machine's zero: traverses were not tested for material.\n",
        Form::Json => b",\n{\"fact\":\"material_far\"}",
    }
}

fn unwalked<A: Allocator>(form: Form, machine: &Machine<A>) -> &'static [u8]
    ensures { result.now ≡ unwalked_text form (file_of machine.now).stock }
{
    match machine.stock {
        None => b"",
        Some(_) => far_line(form),
    }
}

// Writes the tool changes below the top of the material, the feeds below its bottom, how deep feeds cut,
// and what isn't tested.
fn write_rest<A: Allocator, B: Allocator, W: Sink>(
    form: Form,
    machine: &Machine<B>,
    tools: &[Tool],
    commands: &[Command],
    walk: &Walk<A>,
    output: &mut W,
) -> Result<(), WriteFault>
    ensures ok { OnOk result (Appends (W.written output.old) (W.written output.new)
        (rest_text form (file_of machine.now) tools.now commands.now walk.now)) }
    ensures fault { OnErr result (AppendsPrefix (W.written output.old) (W.written output.new)
        (rest_text form (file_of machine.now) tools.now commands.now walk.now)) }
    ensures counts { CountsFailure (W.failures output.old) (W.failures output.new) result }
{
    let origin = block_origin(machine);
    let start = Reached::at_start(machine);
    let cuts = walk.touches.cuts.as_slice();
    write_depths(form, &origin, &walk.stock, &start, commands, output)?;
    write_cuts(form, tools, cuts, output)?;
    write_untested(form, &walk.stock.grid, tools, cuts, output)
}

fn write_walk<A: Allocator, B: Allocator, W: Sink>(
    form: Form,
    machine: &Machine<B>,
    tools: &[Tool],
    commands: &[Command],
    walk: &Walk<A>,
    output: &mut W,
) -> Result<(), WriteFault>
    ensures ok { OnOk result (Appends (W.written output.old) (W.written output.new)
        (walk_text form (file_of machine.now) tools.now commands.now walk.now)) }
    ensures fault { OnErr result (AppendsPrefix (W.written output.old) (W.written output.new)
        (walk_text form (file_of machine.now) tools.now commands.now walk.now)) }
    ensures counts { CountsFailure (W.failures output.old) (W.failures output.new) result }
{
    let found = walk.touches.traverses.as_slice();
    let feeds = walk.touches.feeds.as_slice();
    let origin = block_origin(machine);
    let traverses = walk.traverses.as_slice();
    write_touches(form, MOST_LINES, &origin, tools, traverses, feeds, output)?;
    let touches = found_or(found, feeds);
    write_all(output, arcs_line(form, commands, touches))?;
    write_rest(form, machine, tools, commands, walk, output)
}

// Writes that no feed cuts the block of material, if that is so, and then what a walk has found.
fn write_told<A: Allocator, B: Allocator, W: Sink>(
    form: Form,
    machine: &Machine<B>,
    tools: &[Tool],
    commands: &[Command],
    walk: &Walk<A>,
    output: &mut W,
) -> Result<(), WriteFault>
    ensures ok { OnOk result (Appends (W.written output.old) (W.written output.new)
        (told_text form (file_of machine.now) tools.now commands.now walk.now)) }
    ensures fault { OnErr result (AppendsPrefix (W.written output.old) (W.written output.new)
        (told_text form (file_of machine.now) tools.now commands.now walk.now)) }
    ensures counts { CountsFailure (W.failures output.old) (W.failures output.new) result }
{
    let uncut = uncut_text(form, machine, &walk.stock.grid, commands);
    write_all(output, uncut)?;
    write_walk(form, machine, tools, commands, walk, output)
}

// Writes what a walk has found, or that it wasn't made.
fn write_walked<A: Allocator, B: Allocator, W: Sink>(
    form: Form,
    machine: &Machine<B>,
    tools: &[Tool],
    commands: &[Command],
    walk: &Option<Walk<A>>,
    output: &mut W,
) -> Result<(), WriteFault>
    ensures ok { OnOk result (Appends (W.written output.old) (W.written output.new)
        (walked_text form (file_of machine.now) tools.now commands.now walk.now)) }
    ensures fault { OnErr result (AppendsPrefix (W.written output.old) (W.written output.new)
        (walked_text form (file_of machine.now) tools.now commands.now walk.now)) }
    ensures counts { CountsFailure (W.failures output.old) (W.failures output.new) result }
{
    match walk {
        None => write_all(output, unwalked(form, machine)),
        Some(walk) => write_told(form, machine, tools, commands, walk, output),
    }
}

/// Writes a warning of each fixture that overlaps the block of material, a warning if no feed cuts the block,
/// and then what a walk has found: the straight traverses and feeds that may touch material, the tool changes
/// below its top, the feeds below its bottom, how deep straight feeds cut with each tool, and what isn't
/// tested. `commands` are those of the walk. Without a block of material nothing is written; if the walk
/// wasn't made because of a distance, one line says so in its place.
///
/// After a fault (902, only if the sink failed) a prefix of the text is written.
pub fn write_material<A: Allocator, B: Allocator, W: Sink>(
    form: Form,
    machine: &Machine<B>,
    tools: &[Tool],
    commands: &[Command],
    walk: &Option<Walk<A>>,
    output: &mut W,
) -> Result<(), WriteFault>
    ensures ok { OnOk result (Appends (W.written output.old) (W.written output.new)
        (material_text form (file_of machine.now) tools.now commands.now walk.now)) }
    ensures fault { OnErr result (AppendsPrefix (W.written output.old) (W.written output.new)
        (material_text form (file_of machine.now) tools.now commands.now walk.now)) }
    ensures counts { CountsFailure (W.failures output.old) (W.failures output.new) result }
{
    write_overlaps(form, machine, output)?;
    write_walked(form, machine, tools, commands, walk, output)
}
