//! The lines in front of a report about what may go through the material.
ghost use Rattle.std.specs.Prelude.{◌≡◌, OnOk, OnErr};
ghost use Rattle.std.specs.Io.KnownBytes.{Appends};
ghost use Rattle.ngc_text.specs.Failures.{CountsFailure};
ghost use Rattle.ngc_text.specs.Written.{AppendsPrefix};
ghost use Rattle.ngc_sentences.specs.Saying.{Says};
ghost use Rattle.ngc_stock_report.specs.Cautions as spec;

use crate::walked::Walk;
use ngc_material::Found;
use ngc_report::Form;
use ngc_sentences::{Page, Part, say};
use ngc_text::{Sink, WriteFault};
use std::alloc::Allocator;

fn say_first<W: Sink>(what: &[u8], count: usize, first: &Found, page: &mut Page, output: &mut W)
    ensures { Says (W.written output.old) (W.written output.new)
        (W.failures output.old) (W.failures output.new) page.old page.new
        (spec.first_text what.now count first.now) }
{
    say!(page, output; Part::Text(what), Part::Number(count as u128), b", the first in line ", Part::Number(u128::from(first.line)), b"\n");
}

// Says how many motions are found and where the first is, if there is one.
fn say_found<W: Sink>(what: &[u8], found: &[Found], page: &mut Page, output: &mut W)
    ensures { Says (W.written output.old) (W.written output.new)
        (W.failures output.old) (W.failures output.new) page.old page.new
        (spec.found_text what.now found.now) }
{
    if let Some((first, _)) = found.split_first() {
        say_first(what, found.len(), first, page, output);
    }
}

#[tactic(auto, unfolding(crate::specs::Cautions::walk_caution))]
fn say_walk<W: Sink>(traverses: &[Found], feeds: &[Found], page: &mut Page, output: &mut W)
    ensures { Says (W.written output.old) (W.written output.new)
        (W.failures output.old) (W.failures output.new) page.old page.new
        (spec.walk_caution traverses.now feeds.now) }
{
    say_found(
        b"warning: traverses that may touch the material: ",
        traverses,
        page,
        output,
    );
    say_found(
        b"warning: feeds where the shank or holder may touch the material: ",
        feeds,
        page,
        output,
    );
}

fn say_words<A: Allocator, W: Sink>(walk: &Option<Walk<A>>, page: &mut Page, output: &mut W)
    ensures { Says (W.written output.old) (W.written output.new)
        (W.failures output.old) (W.failures output.new) page.old page.new
        (spec.caution_text Form.Words walk.now) }
{
    match walk {
        Some(walk) => say_walk(
            walk.touches.traverses.as_slice(),
            walk.touches.feeds.as_slice(),
            page,
            output,
        ),
        None => {}
    }
}

fn say_caution<A: Allocator, W: Sink>(
    form: Form,
    walk: &Option<Walk<A>>,
    page: &mut Page,
    output: &mut W,
)
    ensures { Says (W.written output.old) (W.written output.new)
        (W.failures output.old) (W.failures output.new) page.old page.new
        (spec.caution_text form walk.now) }
{
    match form {
        Form::Words => say_words(walk, page, output),
        Form::Json => {}
    }
}

/// Writes how many straight traverses and feeds may touch material, and the lines of the first ones. This
/// stands in front of the words of a report, so that they don't begin with that the program fits; facts have
/// no such lines. Without a walk nothing is written.
///
/// After a fault (902, only if the sink failed) a prefix of the text is written.
pub fn write_caution<A: Allocator, W: Sink>(
    form: Form,
    walk: &Option<Walk<A>>,
    output: &mut W,
) -> Result<(), WriteFault>
    ensures ok { OnOk result (Appends (W.written output.old) (W.written output.new)
        (spec.caution_text form walk.now)) }
    ensures fault { OnErr result (AppendsPrefix (W.written output.old) (W.written output.new)
        (spec.caution_text form walk.now)) }
    ensures counts { CountsFailure (W.failures output.old) (W.failures output.new) result }
{
    let mut page = Page::new();
    say_caution(form, walk, &mut page, output);
    page.finish(output)
}
