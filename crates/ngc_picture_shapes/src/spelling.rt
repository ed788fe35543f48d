ghost use Rattle.std.specs.Prelude.{◌≡◌, ◌+◌, ◌*◌, ◌<◌, ◌≤◌, ◌++◌, codes, decimal, length};
ghost use Rattle.std.specs.Prelude.{flat_map};
ghost use Rattle.ngc_text.specs.Collected.{CHUNK_SIZE, HasSpaceForLine};
ghost use Rattle.ngc_picture_shapes.specs.Units.{IsUnit};
ghost use Rattle.ngc_picture_shapes.specs.declared.shape.BoxKind.TheVariants as kinds;
ghost use Rattle.ngc_picture_shapes.specs.declared.shape.Shape.TheVariants as shapes;
ghost use Rattle.ngc_picture_shapes.specs.Spelling.{decimals, size_text, length_text, down_text};
ghost use Rattle.ngc_picture_shapes.specs.Spelling.{spot_text, area_text, colour_text, ink_text, sign_at};
ghost use Rattle.ngc_picture_shapes.specs.Spelling.{axes_text, mark_text, turn_text, begin_text};
ghost use Rattle.ngc_picture_shapes.specs.Spelling.{system_text, window_text, scale_text, tool_text, shape_text};
ghost use Rattle.ngc_picture_shapes.specs.Spelling.{escaped, name_text, kind_text};
ghost use Rattle.ngc_picture_shapes.specs.Spelling.{silhouette_text, near_edges_text};
ghost use Rattle.ngc_picture_shapes.specs.Spelling.{arrows_text, scale_note_text, lines_text, moved_text};
ghost use Rattle.ngc_picture_shapes.specs.Spelling.{start_text, home_text, second_home_text, origin_text};

use crate::shape::{BoxKind, Ink, Mark, Pane, Shape, Sheet};
use crate::spot::{Block, Rectangle, Spot};
use crate::view::View;
use ngc_machine_files::Name;
use ngc_text::Chunk;

fn decimals(thousandths: u64) -> [u8; 4]
    requires { thousandths < 1000 }
    ensures { result ≡ decimals thousandths }
{
    [
        b'.',
        b'0' + (thousandths / 100) as u8,
        b'0' + (thousandths / 10 % 10) as u8,
        b'0' + (thousandths % 10) as u8,
    ]
}

/// Adds a size in micrometres as millimetres with three decimals.
#[tactic(auto, unfolding(crate::specs::Spelling::size_text))]
fn add_size(chunk: &mut Chunk, size: u64)
    requires { length chunk.old + 44 ≤ CHUNK_SIZE }
    ensures text { chunk.new ≡ chunk.old ++ size_text size }
    ensures short { length chunk.new ≤ length chunk.old + 44 }
{
    chunk.add_number(size / 1_000);
    chunk.add_text(&decimals(size % 1_000));
}

#[tactic(auto, unfolding(crate::specs::Spelling::size_text))]
fn add_wide_size(chunk: &mut Chunk, size: u128)
    requires { length chunk.old + 44 ≤ CHUNK_SIZE }
    ensures text { chunk.new ≡ chunk.old ++ size_text size }
    ensures short { length chunk.new ≤ length chunk.old + 44 }
{
    chunk.add_number(size / 1_000);
    chunk.add_text(&decimals((size % 1_000) as u64));
}

/// Adds a length in micrometres as millimetres.
#[tactic(auto, unfolding(crate::specs::Spelling::length_text))]
fn add_length(chunk: &mut Chunk, micrometres: i64)
    requires { length chunk.old + 45 ≤ CHUNK_SIZE }
    ensures text { chunk.new ≡ chunk.old ++ length_text micrometres }
    ensures short { length chunk.new ≤ length chunk.old + 45 }
{
    chunk.add_sign(i128::from(micrometres));
    add_size(chunk, micrometres.unsigned_abs());
}

#[tactic(auto, unfolding(crate::specs::Spelling::length_text))]
fn add_wide(chunk: &mut Chunk, micrometres: i128)
    requires { length chunk.old + 45 ≤ CHUNK_SIZE }
    ensures text { chunk.new ≡ chunk.old ++ length_text micrometres }
    ensures short { length chunk.new ≤ length chunk.old + 45 }
{
    chunk.add_sign(micrometres);
    add_wide_size(chunk, micrometres.unsigned_abs());
}

/// Adds a coordinate that counts upwards, as one that counts downwards.
#[tactic(auto, unfolding(crate::specs::Spelling::down_text))]
fn add_down(chunk: &mut Chunk, micrometres: i64)
    requires { length chunk.old + 45 ≤ CHUNK_SIZE }
    ensures text { chunk.new ≡ chunk.old ++ down_text micrometres }
    ensures short { length chunk.new ≤ length chunk.old + 45 }
{
    chunk.add_sign(-i128::from(micrometres));
    add_size(chunk, micrometres.unsigned_abs());
}

fn add_spot(chunk: &mut Chunk, spot: &Spot)
    requires { length chunk.old + 91 ≤ CHUNK_SIZE }
    ensures text { chunk.new ≡ chunk.old ++ spot_text spot.now }
    ensures short { length chunk.new ≤ length chunk.old + 91 }
{
    add_length(chunk, spot.across);
    chunk.add_text(b" ");
    add_down(chunk, spot.up);
}

fn add_area(chunk: &mut Chunk, area: &Rectangle)
    requires { length chunk.old + 231 ≤ CHUNK_SIZE }
    ensures text { chunk.new ≡ chunk.old ++ area_text area.now }
    ensures short { length chunk.new ≤ length chunk.old + 231 }
{
    chunk.add_text(b"M");
    add_spot(chunk, &area.low);
    chunk.add_text(b"H");
    add_length(chunk, area.high.across);
    chunk.add_text(b"V");
    add_down(chunk, area.high.up);
    chunk.add_text(b"H");
    add_length(chunk, area.low.across);
    chunk.add_text(b"Z");
}

#[tactic(auto, unfolding(crate::specs::Spelling::kind_text))]
fn beginning(kind: BoxKind) -> &'static [u8]
    ensures text { result.now ≡ kind_text kind }
    ensures short { length result.now ≤ 60 }
{
    match kind {
        BoxKind::Travel => b"<path d=\"",
        BoxKind::ThinTravel => b"<path stroke-width=\".1%\" d=\"",
        BoxKind::Fixture => b"<path fill=\"#808080\" fill-opacity=\".3\" d=\"",
        BoxKind::Margin => b"<path stroke-width=\".1%\" stroke-dasharray=\".4%\" d=\"",
        BoxKind::FaultFixture => {
            b"<path stroke=\"#E60000\" fill=\"#E60000\" fill-opacity=\".3\" d=\""
        }
        BoxKind::FaultTool => b"<path stroke=\"#E60000\" d=\"",
    }
}

/// Adds the outline of a box in the isometric view.
fn add_silhouette(chunk: &mut Chunk, block: &Block)
    requires { length chunk.old + 462 ≤ CHUNK_SIZE }
    ensures text { chunk.new ≡ chunk.old ++ silhouette_text block.now }
    ensures short { length chunk.new ≤ length chunk.old + 462 }
{
    chunk.add_text(b"\nM");
    add_spot(chunk, &block.near);
    chunk.add_text(b"L");
    add_spot(chunk, &block.right);
    chunk.add_text(b"V");
    add_down(chunk, block.right_top.up);
    chunk.add_text(b"L");
    add_spot(chunk, &block.far_top);
    chunk.add_text(b"L");
    add_spot(chunk, &block.left_top);
    chunk.add_text(b"V");
    add_down(chunk, block.left.up);
    chunk.add_text(b"Z");
}

/// Adds its edges at the nearest corner.
fn add_near_edges(chunk: &mut Chunk, block: &Block)
    requires { HasSpaceForLine chunk.old }
    ensures { chunk.new ≡ chunk.old ++ near_edges_text block.now }
{
    chunk.add_text(b"\nM");
    add_spot(chunk, &block.left_top);
    chunk.add_text(b"L");
    add_spot(chunk, &block.near_top);
    chunk.add_text(b"L");
    add_spot(chunk, &block.right_top);
    chunk.add_text(b"M");
    add_spot(chunk, &block.near_top);
    chunk.add_text(b"V");
    add_down(chunk, block.near.up);
}

/// Adds the outline of a box that the tool fills at the end of a refused motion.
fn add_fault_block(chunk: &mut Chunk, block: &Block)
    requires { HasSpaceForLine chunk.old }
    ensures { chunk.new ≡ chunk.old
        ++ (kind_text kinds.FaultTool ++ silhouette_text block.now ++ codes "\"/>\n") }
{
    chunk.add_text(b"<path stroke=\"#E60000\" d=\"");
    add_silhouette(chunk, block);
    chunk.add_text(b"\"/>\n");
}

#[tactic(auto, unfolding(crate::specs::Spelling::colour_text))]
fn colour(rank: usize) -> &'static [u8]
    ensures text { result.now ≡ colour_text rank }
    ensures short { length result.now ≤ 7 }
{
    match rank % 8 {
        0 => b"#0072B2",
        1 => b"#E69F00",
        2 => b"#009E73",
        3 => b"#CC79A7",
        4 => b"#56B4E9",
        5 => b"#9030F0",
        6 => b"#604860",
        _ => b"#C0A860",
    }
}

#[tactic(auto, unfolding(crate::specs::Spelling::ink_text))]
fn add_ink(chunk: &mut Chunk, ink: &Ink)
    requires { length chunk.old + 40 ≤ CHUNK_SIZE }
    ensures text { chunk.new ≡ chunk.old ++ ink_text ink.now }
    ensures short { length chunk.new ≤ length chunk.old + 40 }
{
    match ink {
        Ink::Feed(rank) => chunk.add_text(colour(*rank)),
        Ink::Traverse(rank) => {
            chunk.add_text(colour(*rank));
            chunk.add_text(b"\" stroke-dasharray=\".6%");
        }
        Ink::Fault => chunk.add_text(b"#E60000\" stroke-width=\".4%"),
    }
}

/// Begins signs in units, which are drawn around a spot.
fn begin_sign(chunk: &mut Chunk, unit: i64, at: &Spot)
    requires { length chunk.old + 190 ≤ CHUNK_SIZE }
    ensures text { chunk.new ≡ chunk.old
        ++ (codes "<g stroke-width=\".1\" transform=\"translate(" ++ spot_text at.now
        ++ codes ") scale(" ++ length_text unit ++ codes ")\">") }
    ensures short { length chunk.new ≤ length chunk.old + 190 }
{
    chunk.add_text(b"<g stroke-width=\".1\" transform=\"translate(");
    add_spot(chunk, at);
    chunk.add_text(b") scale(");
    add_length(chunk, unit);
    chunk.add_text(b")\">");
}

#[tactic(auto, unfolding(crate::specs::Spelling::axes_text))]
fn axes(view: View) -> &'static [u8]
    ensures text { result.now ≡ axes_text view }
    ensures short { length result.now ≤ 110 }
{
    match view {
        View::Top => b"X</text><text x=\"-7.2\" y=\"-3.7\" fill=\"#808080\" stroke=\"none\">Y",
        View::Front => b"X</text><text x=\"-7.2\" y=\"-3.7\" fill=\"#808080\" stroke=\"none\">Z",
        View::Side => b"Y</text><text x=\"-7.2\" y=\"-3.7\" fill=\"#808080\" stroke=\"none\">Z",
        View::Iso =>
            b"<tspan x=\"-2\" y=\".9\">X</tspan><tspan x=\"-7.4\" y=\".9\">Y</tspan><tspan x=\"-4.7\" y=\"-1.7\">Z</tspan>",
    }
}

#[tactic(auto, unfolding(crate::specs::Spelling::arrows_text))]
fn arrows(view: View) -> &'static [u8]
    ensures text { result.now ≡ arrows_text view }
    ensures short { length result.now ≤ 160 }
{
    match view {
        View::Iso =>
            b"<path d=\"M-7 1.5L-4 3L-1 1.5M-4 3V-1M-4.6 .4L-4 -1L-3.4 .4M-2.5 1.6L-1 1.5L-2 2.7M-5.5 1.6L-7 1.5L-6 2.7\"/><text fill=\"#808080\" stroke=\"none\">",
        _ =>
            b"<path d=\"M-6.5 -3V3H-1M-7.1 -1.6L-6.5 -3L-5.9 -1.6M-2.4 2.4L-1 3L-2.4 3.6\"/><text x=\"-.5\" y=\"3.7\" fill=\"#808080\" stroke=\"none\">",
    }
}

/// Adds the code of a coordinate system.
fn add_system(chunk: &mut Chunk, system: usize)
    requires { length chunk.old + 44 ≤ CHUNK_SIZE }
    ensures text { chunk.new ≡ chunk.old ++ system_text system }
    ensures short { length chunk.new ≤ length chunk.old + 44 }
{
    if system < 6 {
        chunk.add_text(b"G");
        chunk.add_number(54 + system);
    } else {
        chunk.add_text(b"G59.");
        chunk.add_number(system - 5);
    }
}

/// Adds by how many lines, of two units each, a label is moved down.
#[tactic(auto, unfolding(crate::specs::Spelling::lines_text))]
fn add_lines(chunk: &mut Chunk, lines: usize)
    requires { length chunk.old + 50 ≤ CHUNK_SIZE }
    ensures text { chunk.new ≡ chunk.old ++ lines_text lines }
    ensures short { length chunk.new ≤ length chunk.old + 50 }
{
    if lines != 0 {
        chunk.add_text(b" dy=\"");
        chunk.add_number(2 * lines as u128);
        chunk.add_text(b"\"");
    }
}

#[tactic(auto, unfolding(crate::specs::Spelling::moved_text))]
fn moved(is_moved: bool) -> &'static [u8]
    ensures text { result.now ≡ moved_text is_moved }
    ensures short { length result.now ≤ 4 }
{
    if is_moved { b" G92" } else { b"" }
}

fn add_start(chunk: &mut Chunk, lines: usize)
    requires { length chunk.old + 150 ≤ CHUNK_SIZE }
    ensures text { chunk.new ≡ chunk.old ++ start_text lines }
    ensures short { length chunk.new ≤ length chunk.old + 150 }
{
    chunk.add_text(b"<circle r=\".8\"/><text x=\"1\" y=\"-1\"");
    add_lines(chunk, lines);
    chunk.add_text(b" fill=\"#808080\" stroke=\"none\">start</text>");
}

fn add_home(chunk: &mut Chunk, lines: usize)
    requires { length chunk.old + 180 ≤ CHUNK_SIZE }
    ensures text { chunk.new ≡ chunk.old ++ home_text lines }
    ensures short { length chunk.new ≤ length chunk.old + 180 }
{
    chunk.add_text(b"<path d=\"M-1 -1L1 1M-1 1L1 -1\"/><text x=\"1\" y=\"2.4\"");
    add_lines(chunk, lines);
    chunk.add_text(b" fill=\"#808080\" stroke=\"none\">G28</text>");
}

fn add_second_home(chunk: &mut Chunk, lines: usize)
    requires { length chunk.old + 180 ≤ CHUNK_SIZE }
    ensures text { chunk.new ≡ chunk.old ++ second_home_text lines }
    ensures short { length chunk.new ≤ length chunk.old + 180 }
{
    chunk.add_text(b"<path d=\"M-1 0L0 -1L1 0L0 1Z\"/><text x=\"-1\" y=\"2.4\"");
    add_lines(chunk, lines);
    chunk.add_text(b" text-anchor=\"end\" fill=\"#808080\" stroke=\"none\">G30</text>");
}

fn add_origin(chunk: &mut Chunk, system: usize, is_moved: bool, lines: usize)
    requires { length chunk.old + 300 ≤ CHUNK_SIZE }
    ensures text { chunk.new ≡ chunk.old ++ origin_text system is_moved lines }
    ensures short { length chunk.new ≤ length chunk.old + 300 }
{
    chunk.add_text(
        b"<path d=\"M0 -3V0H3M-.5 -2L0 -3L.5 -2M2 -.5L3 0L2 .5\"/><text x=\"-.6\" y=\"2\"",
    );
    add_lines(chunk, lines);
    chunk.add_text(b" text-anchor=\"end\" fill=\"#808080\" stroke=\"none\">");
    add_system(chunk, system);
    chunk.add_text(moved(is_moved));
    chunk.add_text(b"</text>");
}

#[tactic(auto, unfolding(crate::specs::Spelling::mark_text))]
fn add_mark(chunk: &mut Chunk, mark: &Mark)
    requires { length chunk.old + 300 ≤ CHUNK_SIZE }
    ensures text { chunk.new ≡ chunk.old ++ mark_text mark.now }
    ensures short { length chunk.new ≤ length chunk.old + 300 }
{
    match mark {
        Mark::Start(lines) => add_start(chunk, *lines),
        Mark::Home(lines) => add_home(chunk, *lines),
        Mark::SecondHome(lines) => add_second_home(chunk, *lines),
        Mark::Origin(system, is_moved, lines) => add_origin(chunk, *system, *is_moved, *lines),
        Mark::Hole => chunk.add_text(b"<circle r=\".6\"/><path d=\"M-1 0H1M0 -1V1\"/>"),
        Mark::Axes(view) => {
            chunk.add_text(arrows(*view));
            chunk.add_text(axes(*view));
            chunk.add_text(b"</text>");
        }
    }
}

#[tactic(auto, unfolding(crate::specs::Spelling::turn_text))]
fn turn(clockwise: bool) -> &'static [u8]
    ensures text { result.now ≡ turn_text clockwise }
    ensures short { length result.now ≤ 7 }
{
    if clockwise { b" 0 0 1 " } else { b" 0 0 0 " }
}

fn add_begin(chunk: &mut Chunk, sheet: &Sheet)
    requires { HasSpaceForLine chunk.old }
    ensures { chunk.new ≡ chunk.old ++ begin_text sheet.now }
{
    chunk.add_text(
        b"<?xml version=\"1.0\" encoding=\"UTF-8\"?>\n<svg xmlns=\"http://www.w3.org/2000/svg\" version=\"1.1\" width=\"",
    );
    add_wide(chunk, sheet.page_width);
    chunk.add_text(b"mm\" height=\"");
    add_wide(chunk, sheet.page_height);
    chunk.add_text(b"mm\" viewBox=\"");
    add_wide(chunk, sheet.left);
    chunk.add_text(b" ");
    add_wide(chunk, sheet.top);
    chunk.add_text(b" ");
    add_wide(chunk, sheet.width);
    chunk.add_text(b" ");
    add_wide(chunk, sheet.height);
    chunk.add_text(b"\">\n");
}

fn add_window(chunk: &mut Chunk, pane: &Pane)
    requires { HasSpaceForLine chunk.old }
    ensures { chunk.new ≡ chunk.old ++ window_text pane.now }
{
    chunk.add_text(b"<svg x=\"");
    add_wide(chunk, pane.left);
    chunk.add_text(b"\" y=\"");
    add_wide(chunk, pane.top);
    chunk.add_text(b"\" width=\"");
    add_wide(chunk, pane.width);
    chunk.add_text(b"\" height=\"");
    add_wide(chunk, pane.height);
    chunk.add_text(b"\" viewBox=\"");
    add_wide(chunk, pane.left);
    chunk.add_text(b" ");
    add_wide(chunk, pane.top);
    chunk.add_text(b" ");
    add_wide(chunk, pane.width);
    chunk.add_text(b" ");
    add_wide(chunk, pane.height);
    chunk.add_text(b"\">\n");
}

/// Adds a box as a rectangle.
fn add_outline(chunk: &mut Chunk, kind: BoxKind, area: &Rectangle)
    requires { HasSpaceForLine chunk.old }
    ensures { chunk.new ≡ chunk.old ++ (kind_text kind ++ area_text area.now ++ codes "\"/>\n") }
{
    chunk.add_text(beginning(kind));
    add_area(chunk, area);
    chunk.add_text(b"\"/>\n");
}

fn add_fixture_number(chunk: &mut Chunk, unit: i64, at: &Spot, number: usize, lines: usize)
    requires { HasSpaceForLine chunk.old }
    ensures { chunk.new ≡ chunk.old ++ shape_text unit (shapes.FixtureNumber at.now number lines) }
{
    begin_sign(chunk, unit, at);
    chunk.add_text(b"<text x=\".5\" y=\"-.5\"");
    add_lines(chunk, lines);
    chunk.add_text(b" fill=\"#808080\" stroke=\"none\">");
    chunk.add_number(number);
}

fn add_escaped(chunk: &mut Chunk, character: u8)
    requires { length chunk.old + 6 ≤ CHUNK_SIZE }
    ensures text { chunk.new ≡ chunk.old ++ escaped character }
    ensures short { length chunk.new ≤ length chunk.old + 6 }
{
    if character == b'&' {
        chunk.add_text(b"&amp;");
    } else if character == b'<' {
        chunk.add_text(b"&lt;");
    } else if character == b'>' {
        chunk.add_text(b"&gt;");
    } else if character == b'"' {
        chunk.add_text(b"&quot;");
    } else {
        chunk.add_text(&[character]);
    }
}

/// Adds a text whose characters are escaped.
fn add_string(chunk: &mut Chunk, text: &[u8])
    requires { length chunk.old + 6 * length text.now ≤ CHUNK_SIZE }
    ensures text { chunk.new ≡ chunk.old ++ flat_map escaped text.now }
    ensures short { length chunk.new ≤ length chunk.old + 6 * length text.now }
{
    for character in text {
        add_escaped(chunk, *character);
    }
}

/// Adds a name after a number, where there is one.
#[tactic(auto, unfolding(crate::specs::Spelling::name_text))]
fn add_name(chunk: &mut Chunk, name: &Name)
    requires { HasSpaceForLine chunk.old }
    ensures { chunk.new ≡ chunk.old ++ name_text name.now }
{
    let name = name.as_bytes();
    if !name.is_empty() {
        chunk.add_text(b" ");
        add_string(chunk, name);
    }
}

fn add_fault_number(chunk: &mut Chunk, unit: i64, at: &Spot, fault: u16)
    requires { HasSpaceForLine chunk.old }
    ensures { chunk.new ≡ chunk.old ++ shape_text unit (shapes.FaultNumber at.now fault) }
{
    begin_sign(chunk, unit, at);
    chunk.add_text(b"<text x=\"1\" y=\"1\" fill=\"#E60000\" stroke=\"none\">");
    chunk.add_number(fault);
    chunk.add_text(b"</text>");
    chunk.add_text(b"</g>\n");
}

fn add_marked(chunk: &mut Chunk, unit: i64, mark: &Mark, at: &Spot)
    requires { HasSpaceForLine chunk.old }
    ensures { chunk.new ≡ chunk.old ++ sign_at unit at.now (mark_text mark.now) }
{
    begin_sign(chunk, unit, at);
    add_mark(chunk, mark);
    chunk.add_text(b"</g>\n");
}

fn add_scale(chunk: &mut Chunk, unit: i64, at: &Spot, bar: u64)
    requires room { HasSpaceForLine chunk.old }
    requires unit { IsUnit unit }
    ensures { chunk.new ≡ chunk.old ++ scale_text unit at.now bar }
{
    chunk.add_text(b"<path transform=\"translate(0 ");
    add_length(chunk, 6 * unit);
    chunk.add_text(b")\" d=\"M");
    add_spot(chunk, at);
    chunk.add_text(b"v-");
    add_length(chunk, unit);
    chunk.add_text(b"v");
    add_length(chunk, unit);
    chunk.add_text(b"h");
    add_size(chunk, bar);
    chunk.add_text(b"v-");
    add_length(chunk, unit);
    chunk.add_text(b"\"/>\n");
}

fn add_scale_length(chunk: &mut Chunk, unit: i64, at: &Spot, bar: u64)
    requires { HasSpaceForLine chunk.old }
    ensures { chunk.new ≡ chunk.old ++ shape_text unit (shapes.ScaleLength at.now bar) }
{
    begin_sign(chunk, unit, at);
    chunk.add_text(b"<text x=\"0\" y=\"8.4\" fill=\"#808080\" stroke=\"none\">");
    chunk.add_number(bar / 1_000);
    chunk.add_text(b" mm</text>");
    chunk.add_text(b"</g>\n");
}

fn add_isometric_note(chunk: &mut Chunk, unit: i64, at: &Spot)
    requires { HasSpaceForLine chunk.old }
    ensures { chunk.new ≡ chunk.old ++ sign_at unit at.now
        (codes "<text x=\"27\" y=\"6\" fill=\"#808080\" stroke=\"none\">X, Y: measured across; Z: upwards</text>") }
{
    begin_sign(chunk, unit, at);
    chunk.add_text(
        b"<text x=\"27\" y=\"6\" fill=\"#808080\" stroke=\"none\">X, Y: measured across; Z: upwards</text>",
    );
    chunk.add_text(b"</g>\n");
}

/// Adds what the scale bar measures in the isometric view.
#[tactic(auto, unfolding(crate::specs::Spelling::scale_note_text))]
fn add_scale_note(chunk: &mut Chunk, unit: i64, view: View, at: &Spot)
    requires { HasSpaceForLine chunk.old }
    ensures { chunk.new ≡ chunk.old ++ scale_note_text unit view at.now }
{
    match view {
        View::Iso => add_isometric_note(chunk, unit, at),
        _ => {}
    }
}

fn add_legend(chunk: &mut Chunk, unit: i64, at: &Spot)
    requires { HasSpaceForLine chunk.old }
    ensures { chunk.new ≡ chunk.old ++ shape_text unit (shapes.Legend at.now) }
{
    chunk.add_text(b"<g transform=\"translate(");
    add_spot(chunk, at);
    chunk.add_text(b") scale(");
    add_length(chunk, unit);
    chunk.add_text(
        b")\"><text y=\"8.4\" fill=\"#808080\" stroke=\"none\">\n<tspan x=\"0\" dy=\"3\">solid: feeds, dashed: traverses, both at the tip of the mounted tool</tspan>\n<tspan x=\"0\" dy=\"3\">start, G28, G30: the spindle nose; tools: each part's diameter x length</tspan>\n",
    );
}

fn add_tool(chunk: &mut Chunk, rank: usize, number: u32)
    requires { HasSpaceForLine chunk.old }
    ensures { chunk.new ≡ chunk.old
        ++ (codes "<tspan x=\"0\" dy=\"3\" fill=\"" ++ colour_text rank ++ codes "\">&#9632; "
        ++ tool_text number) }
{
    chunk.add_text(b"<tspan x=\"0\" dy=\"3\" fill=\"");
    chunk.add_text(colour(rank));
    chunk.add_text(b"\">&#9632; ");
    if number == 0 {
        chunk.add_text(b"no tool");
    } else {
        chunk.add_text(b"T");
        chunk.add_number(number);
    }
}

fn add_path(chunk: &mut Chunk, ink: &Ink, at: &Spot)
    requires { HasSpaceForLine chunk.old }
    ensures { chunk.new ≡ chunk.old
        ++ (codes "<path stroke=\"" ++ ink_text ink.now ++ codes "\" d=\"M" ++ spot_text at.now) }
{
    chunk.add_text(b"<path stroke=\"");
    add_ink(chunk, ink);
    chunk.add_text(b"\" d=\"M");
    add_spot(chunk, at);
}

fn add_round(chunk: &mut Chunk, radius: i64, clockwise: bool, to: &Spot)
    requires { HasSpaceForLine chunk.old }
    ensures { chunk.new ≡ chunk.old
        ++ (codes "\nA" ++ length_text radius ++ codes " " ++ length_text radius
        ++ turn_text clockwise ++ spot_text to.now) }
{
    chunk.add_text(b"\nA");
    add_length(chunk, radius);
    chunk.add_text(b" ");
    add_length(chunk, radius);
    chunk.add_text(turn(clockwise));
    add_spot(chunk, to);
}

fn add_line(chunk: &mut Chunk, to: &Spot)
    requires { HasSpaceForLine chunk.old }
    ensures { chunk.new ≡ chunk.old ++ (codes "\nL" ++ spot_text to.now) }
{
    chunk.add_text(b"\nL");
    add_spot(chunk, to);
}

fn add_body(chunk: &mut Chunk, area: &Rectangle)
    requires { HasSpaceForLine chunk.old }
    ensures { chunk.new ≡ chunk.old ++ (codes "\n" ++ area_text area.now) }
{
    chunk.add_text(b"\n");
    add_area(chunk, area);
}

fn add_bodies_of(chunk: &mut Chunk, rank: usize)
    requires { HasSpaceForLine chunk.old }
    ensures { chunk.new ≡ chunk.old
        ++ (codes "<path fill=\"" ++ colour_text rank ++ codes "\" d=\"") }
{
    chunk.add_text(b"<path fill=\"");
    chunk.add_text(colour(rank));
    chunk.add_text(b"\" d=\"");
}

fn add_part(chunk: &mut Chunk, diameter: i64, long: i64)
    requires { HasSpaceForLine chunk.old }
    ensures { chunk.new ≡ chunk.old
        ++ (codes ", " ++ length_text diameter ++ codes " x " ++ length_text long) }
{
    chunk.add_text(b", ");
    add_length(chunk, diameter);
    chunk.add_text(b" x ");
    add_length(chunk, long);
}

fn add_fault_line(chunk: &mut Chunk, fault: u16, command: usize)
    requires { HasSpaceForLine chunk.old }
    ensures { chunk.new ≡ chunk.old
        ++ (codes "<tspan x=\"0\" dy=\"3\" fill=\"#E60000\">fault " ++ decimal fault
        ++ codes " at command " ++ decimal command ++ codes "</tspan>\n") }
{
    chunk.add_text(b"<tspan x=\"0\" dy=\"3\" fill=\"#E60000\">fault ");
    chunk.add_number(fault);
    chunk.add_text(b" at command ");
    chunk.add_number(command);
    chunk.add_text(b"</tspan>\n");
}

/// Adds the text of a shape, in a drawing of this unit.
pub(crate) fn add_shape(chunk: &mut Chunk, unit: i64, shape: &Shape)
    requires room { HasSpaceForLine chunk.old }
    requires unit { IsUnit unit }
    ensures { chunk.new ≡ chunk.old ++ shape_text unit shape.now }
{
    match shape {
        Shape::Begin(sheet) => add_begin(chunk, sheet),
        Shape::Lines => chunk.add_text(
            b"<g fill=\"none\" stroke=\"#808080\" stroke-width=\".15%\" stroke-linecap=\"round\" stroke-linejoin=\"round\" font-family=\"sans-serif\" font-size=\"2\">\n",
        ),
        Shape::Outline(kind, area) => add_outline(chunk, *kind, area),
        Shape::BoxBegin(kind) => chunk.add_text(beginning(*kind)),
        Shape::Silhouette(block) => add_silhouette(chunk, block),
        Shape::NearEdges(block) => add_near_edges(chunk, block),
        Shape::FaultBlock(block) => add_fault_block(chunk, block),
        Shape::Window(pane) => add_window(chunk, pane),
        Shape::WindowEnd => chunk.add_text(b"</svg>\n"),
        Shape::FixtureNumber(at, number, lines) => {
            add_fixture_number(chunk, unit, at, *number, *lines)
        }
        Shape::Name(name) => add_name(chunk, name),
        Shape::LabelEnd => chunk.add_text(b"</text></g>\n"),
        Shape::FaultNumber(at, fault) => add_fault_number(chunk, unit, at, *fault),
        Shape::Mark(mark, at) => add_marked(chunk, unit, mark, at),
        Shape::ScaleLength(at, bar) => add_scale_length(chunk, unit, at, *bar),
        Shape::ScaleNote(view, at) => add_scale_note(chunk, unit, *view, at),
        Shape::Bodies => chunk.add_text(b"<g stroke=\"none\" opacity=\".2\">\n"),
        Shape::BodiesOf(rank) => add_bodies_of(chunk, *rank),
        Shape::Body(area) => add_body(chunk, area),
        Shape::Path(ink, at) => add_path(chunk, ink, at),
        Shape::Line(to) => add_line(chunk, to),
        Shape::Round(radius, clockwise, to) => add_round(chunk, *radius, *clockwise, to),
        Shape::PathEnd => chunk.add_text(b"\"/>\n"),
        Shape::BodiesEnd => chunk.add_text(b"</g>\n"),
        Shape::Scale(at, bar) => add_scale(chunk, unit, at, *bar),
        Shape::Legend(at) => add_legend(chunk, unit, at),
        Shape::Tool(rank, number) => add_tool(chunk, *rank, *number),
        Shape::Part(diameter, long) => add_part(chunk, *diameter, *long),
        Shape::ToolEnd => chunk.add_text(b"</tspan>\n"),
        Shape::FaultLine(fault, command) => add_fault_line(chunk, *fault, *command),
        Shape::End => chunk.add_text(b"</text></g>\n</g>\n</svg>\n"),
    }
}
