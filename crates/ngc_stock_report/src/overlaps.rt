//! Fixtures that overlap the block of material.
ghost use Rattle.std.specs.Prelude.{◌≡◌, ◌≤◌, ◌+ℤ◌, ◌-ℤ◌, int_lt, pos, unsigned_abs, OnOk, OnErr};
ghost use Rattle.std.specs.Io.KnownBytes.{Appends};
ghost use Rattle.std.specs.List.{All};
ghost use Rattle.ngc_text.specs.Failures.{CountsFailure};
ghost use Rattle.ngc_text.specs.Written.{AppendsPrefix};
ghost use Rattle.ngc_machine_files.specs.Machine.{file_of};
ghost use Rattle.ngc_machine_files.specs.Ranges.{IsFixture, IsFrom, IsSized, IsStock, MARGIN_LIMIT, PLACE_LIMIT};
ghost use Rattle.ngc_report.specs.Words.{bracketed};
ghost use Rattle.ngc_sentences.specs.Saying.{Says};
ghost use Rattle.ngc_stock_report.specs.Overlaps as spec;

use crate::placed::{origin_at, sum};
use ngc_fixed_length::{Nm, Point3};
use ngc_machine_files::{Fixture, Machine, Name, StockBox};
use ngc_report::Form;
use ngc_sentences::{Page, Part, say};
use ngc_text::{Sink, WriteFault};
use std::alloc::Allocator;

// Returns the low end of a fixture along an axis, without its margin.
fn low_end(margin: Nm, low: Nm) -> i64
    requires margin { IsFrom (pos 0) MARGIN_LIMIT margin }
    requires low { unsigned_abs low ≤ 4000000000 }
    ensures { result ≡ low +ℤ margin }
{
    low.nanometres() + margin.nanometres()
}

fn high_end(margin: Nm, high: Nm) -> i64
    requires margin { IsFrom (pos 0) MARGIN_LIMIT margin }
    requires high { unsigned_abs high ≤ 4000000000 }
    ensures { result ≡ high -ℤ margin }
{
    high.nanometres() - margin.nanometres()
}

fn is_below(low: i64, high: i64) -> bool
    ensures { result ≡ int_lt low high }
{
    low < high
}

// Returns whether a fixture from `low` to `high`, without its margin, and a block from `from` to `to`,
// counted from an origin, overlap along an axis.
fn is_across(margin: Nm, low: Nm, high: Nm, origin: Nm, from: Nm, to: Nm) -> bool
    requires margin { IsFrom (pos 0) MARGIN_LIMIT margin }
    requires low { unsigned_abs low ≤ 4000000000 }
    requires high { unsigned_abs high ≤ 4000000000 }
    requires origin { unsigned_abs origin ≤ 4000000000 }
    requires from { unsigned_abs from ≤ 1000000000 }
    requires to { unsigned_abs to ≤ 1000000000 }
    ensures { result ≡ spec.is_across margin low high origin from to }
{
    is_below(low_end(margin, low), sum(origin, to))
        && is_below(sum(origin, from), high_end(margin, high))
}

// Returns whether a fixture, without its margin, and a block have more than their surfaces in common.
fn is_inside(margin: Nm, origin: &Point3, block: &StockBox, fixture: &Fixture) -> bool
    requires margin { IsFrom (pos 0) MARGIN_LIMIT margin }
    requires origin { IsSized PLACE_LIMIT origin.now }
    requires block { IsStock block.now }
    requires fixture { IsFixture fixture.now }
    ensures { result ≡ spec.is_inside margin origin.now block.now fixture.now }
{
    let (low, high) = (&fixture.low, &fixture.high);
    is_across(margin, low.x, high.x, origin.x, block.low.x, block.high.x)
        && is_across(margin, low.y, high.y, origin.y, block.low.y, block.high.y)
        && is_across(margin, low.z, high.z, origin.z, block.low.z, block.high.z)
}

// Returns whether a fixture, without its margin, reaches above a block's top.
fn is_above(margin: Nm, origin: &Point3, block: &StockBox, fixture: &Fixture) -> bool
    requires margin { IsFrom (pos 0) MARGIN_LIMIT margin }
    requires origin { IsSized PLACE_LIMIT origin.now }
    requires block { IsStock block.now }
    requires fixture { IsFixture fixture.now }
    ensures { result ≡ spec.is_above margin origin.now block.now fixture.now }
{
    is_below(
        sum(origin.z, block.high.z),
        high_end(margin, fixture.high.z),
    )
}

// Returns whether a fixture, without its margin, and a block overlap. The block's system has this origin.
#[tactic(auto, unfolding(crate::specs::Overlaps::is_overlapping))]
fn is_overlapping(margin: Nm, origin: &Point3, block: &StockBox, fixture: &Fixture) -> bool
    requires margin { IsFrom (pos 0) MARGIN_LIMIT margin }
    requires origin { IsSized PLACE_LIMIT origin.now }
    requires block { IsStock block.now }
    requires fixture { IsFixture fixture.now }
    ensures { result ≡ spec.is_overlapping margin origin.now block.now fixture.now }
{
    is_inside(margin, origin, block, fixture) && !is_above(margin, origin, block, fixture)
}

#[tactic(auto, unfolding(ngc_report::specs::Words::bracketed))]
fn say_bracketed<W: Sink>(name: &Name, page: &mut Page, output: &mut W)
    ensures { Says (W.written output.old) (W.written output.new)
        (W.failures output.old) (W.failures output.new) page.old page.new (bracketed name.now) }
{
    let name = name.as_bytes();
    if !name.is_empty() {
        say!(page, output; b" (", Part::Text(name), b")");
    }
}

#[tactic(auto, unfolding(crate::specs::Overlaps::number_words))]
fn say_number<W: Sink>(number: usize, page: &mut Page, output: &mut W)
    ensures { Says (W.written output.old) (W.written output.new)
        (W.failures output.old) (W.failures output.new) page.old page.new (spec.number_words number) }
{
    say!(page, output; b"warning: fixture ", Part::Number(number as u128));
}

fn say_words<W: Sink>(number: usize, fixture: &Fixture, page: &mut Page, output: &mut W)
    ensures { Says (W.written output.old) (W.written output.new)
        (W.failures output.old) (W.failures output.new) page.old page.new
        (spec.overlap_words number fixture.now) }
{
    say_number(number, page, output);
    say_bracketed(&fixture.name, page, output);
    say!(page, output; b" and the block of material overlap.\n");
}

#[tactic(auto, unfolding(crate::specs::Overlaps::overlap_fact))]
fn say_fact<W: Sink>(number: usize, page: &mut Page, output: &mut W)
    ensures { Says (W.written output.old) (W.written output.new)
        (W.failures output.old) (W.failures output.new) page.old page.new (spec.overlap_fact number) }
{
    say!(page, output; b",\n{\"fact\":\"warning\",\"text\":\"a fixture and the block of material overlap\",\"fixture\":", Part::Number(number as u128), b"}");
}

fn say_line<W: Sink>(form: Form, number: usize, fixture: &Fixture, page: &mut Page, output: &mut W)
    ensures { Says (W.written output.old) (W.written output.new)
        (W.failures output.old) (W.failures output.new) page.old page.new
        (spec.overlap_line form number fixture.now) }
{
    match form {
        Form::Words => say_words(number, fixture, page, output),
        Form::Json => say_fact(number, page, output),
    }
}

// Says that a fixture and the block overlap, if they do.
fn say_fixture<A: Allocator, W: Sink>(
    form: Form,
    machine: &Machine<A>,
    block: &StockBox,
    number: usize,
    fixture: &Fixture,
    page: &mut Page,
    output: &mut W,
)
    requires block { IsStock block.now }
    requires fixture { IsFixture fixture.now }
    ensures { Says (W.written output.old) (W.written output.new)
        (W.failures output.old) (W.failures output.new) page.old page.new
        (spec.fixture_text form (file_of machine.now) block.now number fixture.now) }
{
    let origin = origin_at(machine, block.system);
    if is_overlapping(machine.margins.fixtures, &origin, block, fixture) {
        say_line(form, number, fixture, page, output);
    }
}

fn say_fixtures<A: Allocator, W: Sink>(
    form: Form,
    machine: &Machine<A>,
    block: &StockBox,
    fixtures: &[Fixture],
    page: &mut Page,
    output: &mut W,
)
    requires block { IsStock block.now }
    requires fixtures { All IsFixture fixtures.now }
    ensures { Says (W.written output.old) (W.written output.new)
        (W.failures output.old) (W.failures output.new) page.old page.new
        (spec.fixtures_text form (file_of machine.now) block.now 0 fixtures.now) }
{
    for (i, fixture) in fixtures.iter().enumerate() {
        say_fixture(form, machine, block, i, fixture, page, output);
    }
}

fn say_block<A: Allocator, W: Sink>(
    form: Form,
    machine: &Machine<A>,
    block: &StockBox,
    page: &mut Page,
    output: &mut W,
)
    requires { IsStock block.now }
    ensures { Says (W.written output.old) (W.written output.new)
        (W.failures output.old) (W.failures output.new) page.old page.new
        (spec.fixtures_text form (file_of machine.now) block.now 0 (file_of machine.now).fixtures) }
{
    let fixtures = machine.fixtures.as_slice();
    say_fixtures(form, machine, block, fixtures, page, output);
}

fn say_overlaps<A: Allocator, W: Sink>(
    form: Form,
    machine: &Machine<A>,
    page: &mut Page,
    output: &mut W,
)
    ensures { Says (W.written output.old) (W.written output.new)
        (W.failures output.old) (W.failures output.new) page.old page.new
        (spec.overlaps_text form (file_of machine.now) (file_of machine.now).stock) }
{
    match &machine.stock {
        Some(block) => say_block(form, machine, block, page, output),
        None => {}
    }
}

/// Writes which fixtures of a machine overlap its block of material: without the machine's margin, by which
/// its fixtures are larger on every side. Boxes that only touch have no line. Without a block nothing is
/// written.
///
/// The function allocates no memory. After a fault (902, only if the sink failed) a prefix of the text is
/// written.
pub(crate) fn write_overlaps<A: Allocator, W: Sink>(
    form: Form,
    machine: &Machine<A>,
    output: &mut W,
) -> Result<(), WriteFault>
    ensures ok { OnOk result (Appends (W.written output.old) (W.written output.new)
        (spec.overlaps_text form (file_of machine.now) (file_of machine.now).stock)) }
    ensures fault { OnErr result (AppendsPrefix (W.written output.old) (W.written output.new)
        (spec.overlaps_text form (file_of machine.now) (file_of machine.now).stock)) }
    ensures counts { CountsFailure (W.failures output.old) (W.failures output.new) result }
{
    let mut page = Page::new();
    say_overlaps(form, machine, &mut page, output);
    page.finish(output)
}
