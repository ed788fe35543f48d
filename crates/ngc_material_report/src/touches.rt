//! How traverses and feeds that may touch material are said.
ghost use Rattle.std.specs.Prelude.{◌≡◌, ◌*◌, ◌-ℤ◌, unsigned_abs, decimal, length, OnOk, OnErr, slice_get, take, flat_map};
ghost use Rattle.std.specs.Io.KnownBytes.{Appends};
ghost use Rattle.ngc_text.specs.Failures.{CountsFailure};
ghost use Rattle.ngc_text.specs.Millimetres.{sign_text, size_text};
ghost use Rattle.ngc_text.specs.Written.{AppendsPrefix};
ghost use Rattle.ngc_sentences.specs.Parts.{part_text};
ghost use Rattle.ngc_sentences.specs.Saying.{Says};
ghost use Rattle.ngc_material_report.specs.Sentences.{motion_words, kind_words, verb_words, bound_words, certain_words, motion_line, cutter_words, above_words, wide_words, width_words, upper_words, part_words};
ghost use Rattle.ngc_material_report.specs.Sentences.{part_radius, found_radius, depth_words, deep_words, place_words, touch_words};
ghost use Rattle.ngc_material_report.specs.Sentences.{kind_fact, depth_fact, place_fact, touch_fact, last_line, number_words, count_words, motions_text, touches_text};
ghost use Rattle.ngc_material_report.specs.Sentences.{sure_kind, sure_found, traverse_words, traverse_fact, last_traverse, traverses_text};

use crate::cuts::tool_at;
use crate::parts::{index, number, say_command_fact};
use ngc_cells::Spot;
use ngc_machine_files::Tool;
use ngc_material::{Found, Touch};
use ngc_report::Form;
use ngc_sentences::{Page, Part, say};
use ngc_sure_contacts::{Contact, FoundTraverse};
use ngc_text::{Sink, WriteFault};

/// Which motions are said.
#[derive(Clone, Copy)]
pub(crate) enum Kind {
    /// Traverses that may touch material, with any part of a tool.
    Traverse,
    /// Traverses that surely go through it.
    Through,
    /// Feeds, with a part above the cutter.
    Feed,
}

fn motion_words(kind: Kind) -> &'static [u8]
    ensures { result.now ≡ motion_words kind }
{
    match kind {
        Kind::Traverse | Kind::Through => b"traverse",
        Kind::Feed => b"feed",
    }
}

fn kind_words(kind: Kind) -> &'static [u8]
    ensures { result.now ≡ kind_words kind }
{
    match kind {
        Kind::Traverse | Kind::Through => b"traverse",
        Kind::Feed => b"holder",
    }
}

fn verb_words(kind: Kind) -> &'static [u8]
    ensures { result.now ≡ verb_words kind }
{
    match kind {
        Kind::Traverse | Kind::Feed => b" may touch material at ",
        Kind::Through => b" goes through material at ",
    }
}

fn bound_words(kind: Kind) -> &'static [u8]
    ensures { result.now ≡ bound_words kind }
{
    match kind {
        Kind::Traverse | Kind::Feed => b" is at most ",
        Kind::Through => b" is at least ",
    }
}

fn certain_words(kind: Kind) -> &'static [u8]
    ensures { result.now ≡ certain_words kind }
{
    match kind {
        Kind::Traverse | Kind::Feed => b"false",
        Kind::Through => b"true",
    }
}

fn motion(kind: Kind) -> Part<'static>
    ensures { part_text result ≡ motion_words kind }
{
    Part::Text(motion_words(kind))
}

fn kind_part(kind: Kind) -> Part<'static>
    ensures { part_text result ≡ kind_words kind }
{
    Part::Text(kind_words(kind))
}

fn verb(kind: Kind) -> Part<'static>
    ensures { part_text result ≡ verb_words kind }
{
    Part::Text(verb_words(kind))
}

fn bound(kind: Kind) -> Part<'static>
    ensures { part_text result ≡ bound_words kind }
{
    Part::Text(bound_words(kind))
}

fn certain(kind: Kind) -> Part<'static>
    ensures { part_text result ≡ certain_words kind }
{
    Part::Text(certain_words(kind))
}

fn sign(from: &i64, to: &i64) -> &'static [u8]
    ensures { result.now ≡ sign_text (to.now -ℤ from.now) }
{
    if *to < *from { b"-" } else { b"" }
}

fn signed(from: &i64, to: &i64) -> Part<'static>
    ensures { part_text result ≡ sign_text (to.now -ℤ from.now) }
{
    Part::Text(sign(from, to))
}

fn millimetres(from: &i64, to: &i64) -> Part<'static>
    ensures { part_text result ≡ size_text (unsigned_abs (to.now -ℤ from.now)) }
{
    Part::Size(u128::from(to.abs_diff(*from)))
}

fn nanometres(from: &i64, to: &i64) -> Part<'static>
    ensures { part_text result ≡ decimal (unsigned_abs (to.now -ℤ from.now)) }
{
    Part::Number(u128::from(to.abs_diff(*from)))
}

fn size(size: u32) -> Part<'static>
    ensures { part_text result ≡ size_text size }
{
    Part::Size(u128::from(size))
}

fn say_motion_line<W: Sink>(kind: Kind, found: &Found, page: &mut Page, output: &mut W)
    ensures { Says (W.written output.old) (W.written output.new)
        (W.failures output.old) (W.failures output.new) page.old page.new (motion_line kind found.now) }
{
    say!(page, output; b"Line ", number(found.line), verb(kind), motion(kind), b": ");
}

fn say_cutter_words<W: Sink>(found: &Found, page: &mut Page, output: &mut W)
    ensures { Says (W.written output.old) (W.written output.new)
        (W.failures output.old) (W.failures output.new) page.old page.new (cutter_words found.now) }
{
    say!(page, output; b"tool ", number(found.tool));
}

// Returns the radius of a part of a tool, or `None` if the tool has no such part.
fn part_radius(tool: &Tool, part: usize) -> Option<u64>
    ensures { result ≡ part_radius (slice_get tool.now.parts part) }
{
    match tool.parts.as_slice().get(part) {
        Some(part) => Some(part.radius.nanometres().unsigned_abs()),
        None => None,
    }
}

// Returns the radius of the part that is found, or `None` if no tool has its number.
fn found_radius(tools: &[Tool], found: &Found) -> Option<u64>
    ensures { result ≡ found_radius tools.now found.now }
{
    match tool_at(tools, found.tool) {
        Some(tool) => part_radius(&tool, found.part),
        None => None,
    }
}

fn diameter(radius: u64) -> Part<'static>
    ensures { part_text result ≡ size_text (2 * radius) }
{
    Part::Size(2 * u128::from(radius))
}

fn say_above_words<W: Sink>(found: &Found, page: &mut Page, output: &mut W)
    ensures { Says (W.written output.old) (W.written output.new)
        (W.failures output.old) (W.failures output.new) page.old page.new (above_words found.now) }
{
    say!(page, output; b"the shank or holder of tool ", number(found.tool));
}

fn say_wide_words<W: Sink>(radius: u64, page: &mut Page, output: &mut W)
    ensures { Says (W.written output.old) (W.written output.new)
        (W.failures output.old) (W.failures output.new) page.old page.new (wide_words radius) }
{
    say!(page, output; b" (", diameter(radius), b" mm wide)");
}

fn say_width_words<W: Sink>(radius: Option<u64>, page: &mut Page, output: &mut W)
    ensures { Says (W.written output.old) (W.written output.new)
        (W.failures output.old) (W.failures output.new) page.old page.new (width_words radius) }
{
    if let Some(radius) = radius {
        say_wide_words(radius, page, output);
    }
}

fn say_upper_words<W: Sink>(tools: &[Tool], found: &Found, page: &mut Page, output: &mut W)
    ensures { Says (W.written output.old) (W.written output.new)
        (W.failures output.old) (W.failures output.new) page.old page.new (upper_words tools.now found.now) }
{
    say_above_words(found, page, output);
    say_width_words(found_radius(tools, found), page, output);
}

fn say_part_words<W: Sink>(tools: &[Tool], found: &Found, page: &mut Page, output: &mut W)
    ensures { Says (W.written output.old) (W.written output.new)
        (W.failures output.old) (W.failures output.new) page.old page.new (part_words tools.now found.now) }
{
    if found.part == 0 {
        say_cutter_words(found, page, output);
    } else {
        say_upper_words(tools, found, page, output);
    }
}

fn say_depth_words<W: Sink>(kind: Kind, found: &Found, page: &mut Page, output: &mut W)
    ensures { Says (W.written output.old) (W.written output.new)
        (W.failures output.old) (W.failures output.new) page.old page.new (depth_words kind found.now) }
{
    say!(page, output; bound(kind), size(found.touch.depth), b" mm deep at X ");
}

fn say_deep_words<W: Sink>(
    tools: &[Tool],
    kind: Kind,
    found: &Found,
    page: &mut Page,
    output: &mut W,
)
    ensures { Says (W.written output.old) (W.written output.new)
        (W.failures output.old) (W.failures output.new) page.old page.new (deep_words tools.now kind found.now) }
{
    say_motion_line(kind, found, page, output);
    say_part_words(tools, found, page, output);
    say_depth_words(kind, found, page, output);
}

pub(crate) fn say_place_words<W: Sink>(origin: &Spot, place: &Spot, page: &mut Page, output: &mut W)
    ensures { Says (W.written output.old) (W.written output.new)
        (W.failures output.old) (W.failures output.new) page.old page.new (place_words origin.now place.now) }
{
    say!(page, output; signed(&origin.x, &place.x), millimetres(&origin.x, &place.x), b" mm, Y ", signed(&origin.y, &place.y), millimetres(&origin.y, &place.y), b" mm.\n");
}

fn say_words<W: Sink>(
    origin: &Spot,
    tools: &[Tool],
    kind: Kind,
    found: &Found,
    page: &mut Page,
    output: &mut W,
)
    ensures { Says (W.written output.old) (W.written output.new)
        (W.failures output.old) (W.failures output.new) page.old page.new (touch_words origin.now tools.now kind found.now) }
{
    say_deep_words(tools, kind, found, page, output);
    say_place_words(origin, &found.touch.place, page, output);
}

fn say_kind_fact<W: Sink>(kind: Kind, page: &mut Page, output: &mut W)
    ensures { Says (W.written output.old) (W.written output.new)
        (W.failures output.old) (W.failures output.new) page.old page.new (kind_fact kind) }
{
    say!(page, output; b",\n{\"fact\":\"material\",\"kind\":\"", kind_part(kind), b"\",\"certain\":", certain(kind), b",");
}

fn say_depth_fact<W: Sink>(found: &Found, page: &mut Page, output: &mut W)
    ensures { Says (W.written output.old) (W.written output.new)
        (W.failures output.old) (W.failures output.new) page.old page.new (depth_fact found.now) }
{
    say!(page, output; b",\"part\":", index(found.part), b",\"depth\":", number(found.touch.depth), b",\"at\":[");
}

pub(crate) fn say_place_fact<W: Sink>(origin: &Spot, place: &Spot, page: &mut Page, output: &mut W)
    ensures { Says (W.written output.old) (W.written output.new)
        (W.failures output.old) (W.failures output.new) page.old page.new (place_fact origin.now place.now) }
{
    say!(page, output; signed(&origin.x, &place.x), nanometres(&origin.x, &place.x), b",", signed(&origin.y, &place.y), nanometres(&origin.y, &place.y), b"]}");
}

fn say_fact<W: Sink>(origin: &Spot, kind: Kind, found: &Found, page: &mut Page, output: &mut W)
    ensures { Says (W.written output.old) (W.written output.new)
        (W.failures output.old) (W.failures output.new) page.old page.new (touch_fact origin.now kind found.now) }
{
    say_kind_fact(kind, page, output);
    say_command_fact(found.line, found.command, found.tool, page, output);
    say_depth_fact(found, page, output);
    say_place_fact(origin, &found.touch.place, page, output);
}

fn say_all_words<W: Sink>(
    origin: &Spot,
    tools: &[Tool],
    kind: Kind,
    all: &[Found],
    page: &mut Page,
    output: &mut W,
)
    ensures { Says (W.written output.old) (W.written output.new)
        (W.failures output.old) (W.failures output.new) page.old page.new (flat_map (touch_words origin.now tools.now kind) all.now) }
{
    for found in all {
        say_words(origin, tools, kind, found, page, output);
    }
}

fn say_all_facts<W: Sink>(origin: &Spot, kind: Kind, all: &[Found], page: &mut Page, output: &mut W)
    ensures { Says (W.written output.old) (W.written output.new)
        (W.failures output.old) (W.failures output.new) page.old page.new (flat_map (touch_fact origin.now kind) all.now) }
{
    for found in all {
        say_fact(origin, kind, found, page, output);
    }
}

fn last_line(all: &[Found]) -> u32
    ensures { result ≡ last_line all.now }
{
    match all.last() {
        Some(found) => found.line,
        None => 0,
    }
}

fn first<T>(most: usize, all: &[T]) -> &[T]
    ensures { result.now ≡ take most all.now }
{
    if most < all.len() { &all[..most] } else { all }
}

fn say_number<W: Sink>(kind: Kind, count: usize, last: u32, page: &mut Page, output: &mut W)
    ensures { Says (W.written output.old) (W.written output.new)
        (W.failures output.old) (W.failures output.new) page.old page.new (number_words kind count last) }
{
    say!(page, output; b"There are ", index(count), b" such ", motion(kind), b"s, the last in line ", number(last), b".\n");
}

fn say_count<W: Sink>(
    most: usize,
    kind: Kind,
    count: usize,
    last: u32,
    page: &mut Page,
    output: &mut W,
)
    ensures { Says (W.written output.old) (W.written output.new)
        (W.failures output.old) (W.failures output.new) page.old page.new (count_words most kind count last) }
{
    if most < count {
        say_number(kind, count, last, page, output);
    }
}

fn say_motions<W: Sink>(
    form: Form,
    most: usize,
    origin: &Spot,
    tools: &[Tool],
    kind: Kind,
    all: &[Found],
    page: &mut Page,
    output: &mut W,
)
    ensures { Says (W.written output.old) (W.written output.new)
        (W.failures output.old) (W.failures output.new) page.old page.new (motions_text form most origin.now tools.now kind all.now) }
{
    match form {
        Form::Words => {
            say_all_words(origin, tools, kind, first(most, all), page, output);
            say_count(most, kind, all.len(), last_line(all), page, output);
        }
        Form::Json => say_all_facts(origin, kind, all, page, output),
    }
}

fn sure_kind(contact: &Option<Contact>) -> Kind
    ensures { result ≡ sure_kind contact.now }
{
    match contact {
        None => Kind::Traverse,
        Some(_) => Kind::Through,
    }
}

// Returns a traverse with the place and the depth of its contact, if it has one.
fn sure_found(found: &Found, contact: &Option<Contact>) -> Found
    ensures { result ≡ sure_found found.now contact.now }
{
    match contact {
        None => *found,
        Some(contact) => Found {
            command: found.command,
            line: found.line,
            tool: found.tool,
            part: found.part,
            touch: Touch {
                place: contact.place,
                depth: contact.depth,
            },
        },
    }
}

fn say_traverse_words<W: Sink>(
    origin: &Spot,
    tools: &[Tool],
    traverse: &FoundTraverse,
    page: &mut Page,
    output: &mut W,
)
    ensures { Says (W.written output.old) (W.written output.new)
        (W.failures output.old) (W.failures output.new) page.old page.new (traverse_words origin.now tools.now traverse.now) }
{
    let kind = sure_kind(&traverse.contact);
    let found = sure_found(&traverse.found, &traverse.contact);
    say_words(origin, tools, kind, &found, page, output);
}

fn say_traverse_fact<W: Sink>(
    origin: &Spot,
    traverse: &FoundTraverse,
    page: &mut Page,
    output: &mut W,
)
    ensures { Says (W.written output.old) (W.written output.new)
        (W.failures output.old) (W.failures output.new) page.old page.new (traverse_fact origin.now traverse.now) }
{
    let kind = sure_kind(&traverse.contact);
    let found = sure_found(&traverse.found, &traverse.contact);
    say_fact(origin, kind, &found, page, output);
}

fn say_traverses_words<W: Sink>(
    origin: &Spot,
    tools: &[Tool],
    all: &[FoundTraverse],
    page: &mut Page,
    output: &mut W,
)
    ensures { Says (W.written output.old) (W.written output.new)
        (W.failures output.old) (W.failures output.new) page.old page.new (flat_map (traverse_words origin.now tools.now) all.now) }
{
    for traverse in all {
        say_traverse_words(origin, tools, traverse, page, output);
    }
}

fn say_traverses_facts<W: Sink>(
    origin: &Spot,
    all: &[FoundTraverse],
    page: &mut Page,
    output: &mut W,
)
    ensures { Says (W.written output.old) (W.written output.new)
        (W.failures output.old) (W.failures output.new) page.old page.new (flat_map (traverse_fact origin.now) all.now) }
{
    for traverse in all {
        say_traverse_fact(origin, traverse, page, output);
    }
}

fn last_traverse(all: &[FoundTraverse]) -> u32
    ensures { result ≡ last_traverse all.now }
{
    let Some(traverse) = all.last() else {
        return 0;
    };
    traverse.found.line
}

fn say_traverses<W: Sink>(
    form: Form,
    most: usize,
    origin: &Spot,
    tools: &[Tool],
    all: &[FoundTraverse],
    page: &mut Page,
    output: &mut W,
)
    ensures { Says (W.written output.old) (W.written output.new)
        (W.failures output.old) (W.failures output.new) page.old page.new (traverses_text form most origin.now tools.now all.now) }
{
    match form {
        Form::Words => {
            say_traverses_words(origin, tools, first(most, all), page, output);
            let last = last_traverse(all);
            say_count(most, Kind::Traverse, all.len(), last, page, output);
        }
        Form::Json => say_traverses_facts(origin, all, page, output),
    }
}

/// Writes the traverses and the feeds that a walk has found, and which of the traverses surely go through
/// material: in words the first `most` of each, and their
/// number if there are more; as facts all of them. Places count from `origin`, which is in nanometres of
/// the machine. In words a part above the cutter is named by its diameter, as `tools` has it.
///
/// The function allocates no memory. After a fault (902, only if the sink failed) a prefix of the
/// text is written.
pub fn write_touches<W: Sink>(
    form: Form,
    most: usize,
    origin: &Spot,
    tools: &[Tool],
    traverses: &[FoundTraverse],
    feeds: &[Found],
    output: &mut W,
) -> Result<(), WriteFault>
    ensures ok { OnOk result (Appends (W.written output.old) (W.written output.new)
        (touches_text form most origin.now tools.now traverses.now feeds.now)) }
    ensures fault { OnErr result (AppendsPrefix (W.written output.old) (W.written output.new)
        (touches_text form most origin.now tools.now traverses.now feeds.now)) }
    ensures counts { CountsFailure (W.failures output.old) (W.failures output.new) result }
{
    let mut page = Page::new();
    say_traverses(form, most, origin, tools, traverses, &mut page, output);
    say_motions(
        form,
        most,
        origin,
        tools,
        Kind::Feed,
        feeds,
        &mut page,
        output,
    );
    page.finish(output)
}
