//! The text of a machine file.
ghost use Rattle.std.specs.Prelude.{◌≡◌, ◌++◌, codes, OnOk, OnErr};
ghost use Rattle.std.specs.Io.KnownBytes.{Appends};
ghost use Rattle.ngc_sentences.specs.Parts.{parts_text};
ghost use Rattle.ngc_sentences.specs.Saying.{Says};
ghost use Rattle.ngc_text.specs.Failures.{CountsFailure};
ghost use Rattle.ngc_text.specs.Millimetres.{size_text};
ghost use Rattle.ngc_text.specs.Written.{AppendsPrefix};
ghost use Rattle.ngc_machine_maker.specs.Asked.{scale_in};
ghost use Rattle.ngc_machine_maker.specs.File.{heading, direction_text, steps_text, errors_text};
ghost use Rattle.ngc_machine_maker.specs.File.{scale_text, scale_after, step_lines, rate_line};
ghost use Rattle.ngc_machine_maker.specs.File.{speed_lines, joint_lines, acceleration_lines, place_line};
ghost use Rattle.ngc_machine_maker.specs.File.{corner_comment, jump_comment, ring_lines, arc_feed_comment, arc_feed_lines, place_lines};
ghost use Rattle.ngc_machine_maker.specs.File.{arcs_remark, grbl_lines, dialect_lines, file_text, notes_text, scale_note};
ghost use Rattle.ngc_machine_maker.specs.InFile.{AreInFile};
ghost use Rattle.ngc_machine_maker.specs.Ranges.{IsScale};
ghost use Rattle.ngc_machine_maker.specs.Texts.{axes_text, line_text};
ghost use Rattle.ngc_machine_maker.specs.declared.line.Value.TheVariants as values;
ghost use Rattle.ngc_machine_maker.specs.declared.line.Remark.TheVariants as remarks;

use crate::dump_lines::{home_by, say_offset_after, say_origins, say_supplied};
use crate::figures::{Figures, PerAxis};
use crate::line::{Remark, Value, say_line};
use crate::numbers::MachineNumbers;
use crate::shop_units::{
    acceleration, arc_acceleration, errors, is_rounded, is_short, motor_step, speed, speeds,
};
use ngc_sentences::{Page, Part, say};
use ngc_text::{Sink, WriteFault};

#[tactic(auto, unfolding(crate::specs::File::steps_text))]
fn steps(numbers: &MachineNumbers, figures: &Figures) -> [Part<'static>; 5]
    requires { IsScale (scale_in numbers.now figures.now) }
    ensures { parts_text result ≡ steps_text numbers.now figures.now }
{
    [
        Part::Text(b"the motors' step is "),
        Part::Thousandths(motor_step(figures)),
        Part::Text(b" nm, and the file's "),
        Part::Number(u128::from(numbers.step)),
        Part::Text(b" nm"),
    ]
}

fn sizes(sizes: &PerAxis<u128>) -> [Part<'static>; 6]
    ensures { parts_text result
        ≡ axes_text (size_text sizes.now.x) (size_text sizes.now.y) (size_text sizes.now.z) }
{
    [
        Part::Text(b"X "),
        Part::Size(sizes.x),
        Part::Text(b", Y "),
        Part::Size(sizes.y),
        Part::Text(b", Z "),
        Part::Size(sizes.z),
    ]
}

#[tactic(auto, unfolding(crate::specs::File::errors_text))]
fn say_errors<W: Sink>(numbers: &MachineNumbers, figures: &Figures, page: &mut Page, output: &mut W)
    requires numbers { AreInFile numbers.now }
    requires scale { IsScale (scale_in numbers.now figures.now) }
    ensures { Says (W.written output.old) (W.written output.new)
        (W.failures output.old) (W.failures output.new) page.old page.new
        (errors_text numbers.now figures.now) }
{
    page.say(output, &sizes(&errors(numbers, figures)));
}

fn direction(short: bool) -> &'static [u8]
    ensures { result.now ≡ direction_text short }
{
    if short { b"less far" } else { b"farther" }
}

// Says how far the axes go if the motors' step is no whole number of nanometres.
#[tactic(auto, unfolding(crate::specs::File::scale_text))]
fn say_scale<W: Sink>(numbers: &MachineNumbers, figures: &Figures, page: &mut Page, output: &mut W)
    requires numbers { AreInFile numbers.now }
    requires scale { IsScale (scale_in numbers.now figures.now) }
    ensures { Says (W.written output.old) (W.written output.new)
        (W.failures output.old) (W.failures output.new) page.old page.new
        (scale_text numbers.now figures.now) }
{
    page.say(output, &steps(numbers, figures));
    say!(page, output; b": over their travel the axes go ");
    say_errors(numbers, figures, page, output);
    say!(page, output; b" mm ");
    say!(page, output; Part::Text(direction(is_short(numbers, figures))));
    say!(page, output; b" than the file says\n");
}

fn say_some_scale<W: Sink>(
    before: &[u8],
    numbers: &MachineNumbers,
    figures: &Figures,
    page: &mut Page,
    output: &mut W,
)
    requires numbers { AreInFile numbers.now }
    requires scale { IsScale (scale_in numbers.now figures.now) }
    ensures { Says (W.written output.old) (W.written output.new)
        (W.failures output.old) (W.failures output.new) page.old page.new
        (before.now ++ scale_text numbers.now figures.now) }
{
    say!(page, output; Part::Text(before));
    say_scale(numbers, figures, page, output);
}

// Says a remark or a note, after its first word, on how far the axes go, if there is anything to
// say.
#[tactic(auto, unfolding(crate::specs::File::scale_after))]
fn say_scale_after<W: Sink>(
    before: &[u8],
    numbers: &MachineNumbers,
    figures: &Figures,
    page: &mut Page,
    output: &mut W,
)
    requires numbers { AreInFile numbers.now }
    requires scale { IsScale (scale_in numbers.now figures.now) }
    ensures { Says (W.written output.old) (W.written output.new)
        (W.failures output.old) (W.failures output.new) page.old page.new
        (scale_after before.now numbers.now figures.now) }
{
    if is_rounded(numbers, figures) {
        say_some_scale(before, numbers, figures, page, output);
    }
}

#[tactic(auto, unfolding(crate::specs::File::heading))]
fn say_heading<W: Sink>(page: &mut Page, output: &mut W)
    ensures { Says (W.written output.old) (W.written output.new)
        (W.failures output.old) (W.failures output.new) page.old page.new
        (heading) }
{
    say!(page, output; b"# Made by `ngc machine`. Lengths are nanometres, rates are millionths of a step in a\n", b"# tick, three numbers are X, Y, Z, and remarks are in the units of a shop.\n");
}

#[tactic(auto, unfolding(crate::specs::File::step_lines))]
fn say_step_lines<W: Sink>(numbers: &MachineNumbers, page: &mut Page, output: &mut W)
    ensures { Says (W.written output.old) (W.written output.new)
        (W.failures output.old) (W.failures output.new) page.old page.new
        (step_lines numbers.now) }
{
    let step = Value::Number(u64::from(numbers.step));
    let ticks = Value::Number(u64::from(numbers.ticks_per_second));
    say!(page, output; b"\nversion = 2\n");
    say_line(b"step", step, Remark::Step(numbers.step), page, output);
    say_line(b"ticks_per_second", ticks, Remark::Ticks, page, output);
}

// Says the line of a key that is a rate.
fn say_rate<W: Sink>(
    key: &[u8],
    numbers: &MachineNumbers,
    rate: u32,
    page: &mut Page,
    output: &mut W,
)
    requires { AreInFile numbers.now }
    ensures { Says (W.written output.old) (W.written output.new)
        (W.failures output.old) (W.failures output.new) page.old page.new
        (rate_line key.now numbers.now rate) }
{
    let value = Value::Number(u64::from(rate));
    let remark = Remark::Speed(speed(numbers, rate));
    say_line(key, value, remark, page, output);
}

#[tactic(auto, unfolding(crate::specs::File::speed_lines))]
fn say_speed_lines<W: Sink>(numbers: &MachineNumbers, page: &mut Page, output: &mut W)
    requires { AreInFile numbers.now }
    ensures { Says (W.written output.old) (W.written output.new)
        (W.failures output.old) (W.failures output.new) page.old page.new
        (speed_lines numbers.now) }
{
    say_rate(b"max_rate", numbers, numbers.max_rate, page, output);
    let rates = Value::Rates(numbers.axis_rate);
    let remark = Remark::Speeds(speeds(numbers));
    say_line(b"axis_rate", rates, remark, page, output);
}

#[tactic(auto, unfolding(crate::specs::File::corner_comment))]
fn say_corner_comment<W: Sink>(page: &mut Page, output: &mut W)
    ensures { Says (W.written output.old) (W.written output.new)
        (W.failures output.old) (W.failures output.new) page.old page.new
        (corner_comment) }
{
    say!(page, output; b"# `corner`: motions may meet at this speed at any angle. By default it is what the axis\n", b"# with the least acceleration reaches in 5 ms, and at least 2 mm/s.\n");
}

#[tactic(auto, unfolding(crate::specs::File::jump_comment))]
fn say_jump_comment<W: Sink>(page: &mut Page, output: &mut W)
    ensures { Says (W.written output.old) (W.written output.new)
        (W.failures output.old) (W.failures output.new) page.old page.new
        (jump_comment) }
{
    say!(page, output; b"# `jump`: an axis may gain or lose this speed at once where motions meet. At the machine\n", b"# start with half of it, raise it until you hear lost steps, and keep two thirds.\n");
}

// Says the keys of the speeds at which two motions may meet.
#[tactic(auto, unfolding(crate::specs::File::joint_lines))]
fn say_joint_lines<W: Sink>(numbers: &MachineNumbers, page: &mut Page, output: &mut W)
    requires { AreInFile numbers.now }
    ensures { Says (W.written output.old) (W.written output.new)
        (W.failures output.old) (W.failures output.new) page.old page.new
        (joint_lines numbers.now) }
{
    say_corner_comment(page, output);
    say_rate(b"corner", numbers, numbers.corner, page, output);
    say_jump_comment(page, output);
    say_rate(b"jump", numbers, numbers.jump, page, output);
}

// Returns the remark on the acceleration towards the centre of arcs.
fn arcs_remark(by_place: bool, acceleration: u128) -> Remark
    ensures { result ≡ arcs_remark by_place acceleration }
{
    if by_place {
        Remark::ArcsByPlace(acceleration)
    } else {
        Remark::Arcs(acceleration)
    }
}

#[tactic(auto, unfolding(crate::specs::File::acceleration_lines))]
fn say_acceleration_lines<W: Sink>(numbers: &MachineNumbers, page: &mut Page, output: &mut W)
    requires { AreInFile numbers.now }
    ensures { Says (W.written output.old) (W.written output.new)
        (W.failures output.old) (W.failures output.new) page.old page.new
        (acceleration_lines numbers.now) }
{
    let change = Value::Number(u64::from(numbers.change));
    let remark = Remark::Acceleration(acceleration(numbers));
    say_line(b"change", change, remark, page, output);
    let arcs = arcs_remark(numbers.arc_feed, arc_acceleration(numbers));
    say_line(b"turn", Value::Number(numbers.turn), arcs, page, output);
}

#[tactic(auto, unfolding(crate::specs::File::ring_lines))]
fn say_ring<W: Sink>(ring: u32, page: &mut Page, output: &mut W)
    ensures { Says (W.written output.old) (W.written output.new)
        (W.failures output.old) (W.failures output.new) page.old page.new
        (ring_lines ring) }
{
    let value = Value::Number(u64::from(ring));
    say!(page, output; b"# `ring`: the controller looks ahead over this many. If short lines are slow, try 1024.\n");
    say_line(b"ring", value, Remark::Ring, page, output);
}

#[tactic(auto, unfolding(crate::specs::File::arc_feed_comment))]
fn say_some_arc_feed<W: Sink>(page: &mut Page, output: &mut W)
    ensures { Says (W.written output.old) (W.written output.new)
        (W.failures output.old) (W.failures output.new) page.old page.new
        (arc_feed_comment ++ line_text (codes "arc_feed") (values.Number 2) remarks.ArcFeed) }
{
    say!(page, output; b"# `arc_feed`: if arcs run roughly, try 0 here and half of `turn`. Then they are slower.\n");
    say_line(b"arc_feed", Value::Number(2), Remark::ArcFeed, page, output);
}

fn say_arc_feed<W: Sink>(arc_feed: bool, page: &mut Page, output: &mut W)
    ensures { Says (W.written output.old) (W.written output.new)
        (W.failures output.old) (W.failures output.new) page.old page.new
        (arc_feed_lines arc_feed) }
{
    if arc_feed {
        say_some_arc_feed(page, output);
    }
}

// Says the line of a key that is a place.
fn say_place<W: Sink>(key: &[u8], place: &PerAxis<i64>, page: &mut Page, output: &mut W)
    ensures { Says (W.written output.old) (W.written output.new)
        (W.failures output.old) (W.failures output.new) page.old page.new
        (place_line key.now place.now) }
{
    say_line(
        key,
        Value::Place(*place),
        Remark::Place(*place),
        page,
        output,
    );
}

#[tactic(auto, unfolding(crate::specs::File::place_lines))]
fn say_places<W: Sink>(numbers: &MachineNumbers, figures: &Figures, page: &mut Page, output: &mut W)
    ensures { Says (W.written output.old) (W.written output.new)
        (W.failures output.old) (W.failures output.new) page.old page.new
        (place_lines numbers.now figures.now) }
{
    let stored = &figures.dump.places;
    let home28 = home_by(&numbers.home28, &figures.home28, &stored.g28);
    let home30 = home_by(&numbers.home30, &figures.home30, &stored.g30);
    say_place(b"low", &numbers.low, page, output);
    say_place(b"high", &numbers.high, page, output);
    say_place(b"start", &numbers.start, page, output);
    say_place(b"home28", &home28, page, output);
    say_place(b"home30", &home30, page, output);
}

#[tactic(auto, unfolding(crate::specs::File::grbl_lines))]
fn say_grbl<W: Sink>(page: &mut Page, output: &mut W)
    ensures { Says (W.written output.old) (W.written output.new)
        (W.failures output.old) (W.failures output.new) page.old page.new
        (grbl_lines) }
{
    say!(page, output; b"# `dialect`: programs are read as GRBL reads them. Without this key they must be in ngc's\n", b"# own language (docs/CAM.md).\n", b"dialect = \"grbl\"\n");
}

// Says the language of programs, if it isn't our own.
fn say_dialect<W: Sink>(grbl: bool, page: &mut Page, output: &mut W)
    ensures { Says (W.written output.old) (W.written output.new)
        (W.failures output.old) (W.failures output.new) page.old page.new
        (dialect_lines grbl) }
{
    if grbl {
        say_grbl(page, output);
    }
}

fn say_file<W: Sink>(numbers: &MachineNumbers, figures: &Figures, page: &mut Page, output: &mut W)
    requires numbers { AreInFile numbers.now }
    requires scale { IsScale (scale_in numbers.now figures.now) }
    ensures { Says (W.written output.old) (W.written output.new)
        (W.failures output.old) (W.failures output.new) page.old page.new
        (file_text numbers.now figures.now) }
{
    say_heading(page, output);
    say_scale_after(b"# ", numbers, figures, page, output);
    say_supplied(&figures.dump.supplied, page, output);
    say_offset_after(b"# ", &figures.dump.places, page, output);
    say_step_lines(numbers, page, output);
    say_speed_lines(numbers, page, output);
    say_joint_lines(numbers, page, output);
    say_acceleration_lines(numbers, page, output);
    say_ring(numbers.ring, page, output);
    say_arc_feed(numbers.arc_feed, page, output);
    say_places(numbers, figures, page, output);
    say_origins(&figures.dump.places, page, output);
    say_dialect(figures.grbl, page, output);
}

/// Writes a machine file of version 2. After a fault a prefix of it is written, and the sink has
/// counted the failure.
pub fn write_machine_file<W: Sink>(
    numbers: &MachineNumbers,
    figures: &Figures,
    sink: &mut W,
) -> Result<(), WriteFault>
    requires numbers { AreInFile numbers.now }
    requires scale { IsScale (scale_in numbers.now figures.now) }
    ensures ok { OnOk result
        (Appends (W.written sink.old) (W.written sink.new) (file_text numbers.now figures.now)) }
    ensures fault { OnErr result (AppendsPrefix (W.written sink.old) (W.written sink.new)
        (file_text numbers.now figures.now)) }
    ensures counts { CountsFailure (W.failures sink.old) (W.failures sink.new) result }
{
    let mut page = Page::new();
    say_file(numbers, figures, &mut page, sink);
    page.finish(sink)
}

fn say_scale_note<W: Sink>(
    rates: bool,
    numbers: &MachineNumbers,
    figures: &Figures,
    page: &mut Page,
    output: &mut W,
)
    requires numbers { AreInFile numbers.now }
    requires scale { IsScale (scale_in numbers.now figures.now) }
    ensures { Says (W.written output.old) (W.written output.new)
        (W.failures output.old) (W.failures output.new) page.old page.new
        (scale_note rates numbers.now figures.now) }
{
    if rates {
        say_scale_after(b"note: ", numbers, figures, page, output);
    }
}

fn say_notes<W: Sink>(
    rates: bool,
    numbers: &MachineNumbers,
    figures: &Figures,
    page: &mut Page,
    output: &mut W,
)
    requires numbers { AreInFile numbers.now }
    requires scale { IsScale (scale_in numbers.now figures.now) }
    ensures { Says (W.written output.old) (W.written output.new)
        (W.failures output.old) (W.failures output.new) page.old page.new
        (notes_text rates numbers.now figures.now) }
{
    say_scale_note(rates, numbers, figures, page, output);
    say_offset_after(b"note: ", &figures.dump.places, page, output);
}

/// Writes the notes on the file: how far the axes go if it has rates and the motors' step is no whole
/// number of nanometres, and that an offset of G92 was in force. After a fault a prefix of them is
/// written, and the sink has counted the failure.
pub fn write_notes<W: Sink>(
    rates: bool,
    numbers: &MachineNumbers,
    figures: &Figures,
    sink: &mut W,
) -> Result<(), WriteFault>
    requires numbers { AreInFile numbers.now }
    requires scale { IsScale (scale_in numbers.now figures.now) }
    ensures ok { OnOk result
        (Appends (W.written sink.old) (W.written sink.new) (notes_text rates numbers.now figures.now)) }
    ensures fault { OnErr result (AppendsPrefix (W.written sink.old) (W.written sink.new)
        (notes_text rates numbers.now figures.now)) }
    ensures counts { CountsFailure (W.failures sink.old) (W.failures sink.new) result }
{
    let mut page = Page::new();
    say_notes(rates, numbers, figures, &mut page, sink);
    page.finish(sink)
}
