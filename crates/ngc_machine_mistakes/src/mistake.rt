//! The mistake of a machine file.
ghost use Rattle.std.specs.Prelude.{◌≡◌, ◌⊎◌, Err, IfSome, OnOk, OnErr};
ghost use Rattle.std.specs.Io.KnownBytes.{Appends, Keeps};
ghost use Rattle.toml.specs.View.{view};
ghost use Rattle.ngc_text.specs.Failures.{CountsFailure};
ghost use Rattle.ngc_text.specs.Written.{AppendsPrefix};
ghost use Rattle.ngc_sentences.specs.Saying.{Says};
ghost use Rattle.ngc_refused_files.specs.Stops.{StopsWhere};
ghost use Rattle.ngc_machine_mistakes.specs.Mistakes as spec;
ghost use Rattle.ngc_written_machines.specs.Machines.{written_machine as machine_of};

use crate::sentence::say_figures;
use ngc_machine_figures::is_written;
use ngc_machine_files::FileFault;
use ngc_refused_files::{read_document, write_forgotten, write_refusal, write_stop};
use ngc_sentences::{Page, Part, say};
use ngc_setup_sheet::write_machine_mistake;
use ngc_text::{Sink, WriteFault};
use ngc_written_machines::{WrittenFault, WrittenRefusal, written_machine};
use std::alloc::Global;
use toml::Value;

fn say_line<W: Sink>(name: &[u8], refusal: WrittenRefusal, page: &mut Page, output: &mut W)
    ensures { Says (W.written output.old) (W.written output.new)
        (W.failures output.old) (W.failures output.new) page.old page.new
        (spec.line_text name.now refusal) }
{
    say!(page, output; Part::Text(name), b": ");
    say_figures(refusal, page, output);
    say!(page, output; b"\n");
}

fn write_line<W: Sink>(name: &[u8], refusal: WrittenRefusal, sink: &mut W) -> Result<(), WriteFault>
    ensures ok { OnOk result
        (Appends (W.written sink.old) (W.written sink.new) (spec.line_text name.now refusal)) }
    ensures fault { OnErr result
        (AppendsPrefix (W.written sink.old) (W.written sink.new) (spec.line_text name.now refusal)) }
    ensures counts { CountsFailure (W.failures sink.old) (W.failures sink.new) result }
{
    let mut page = Page::new();
    say_line(name, refusal, &mut page, sink);
    page.finish(sink)
}

fn write_written<W: Sink>(
    name: &[u8],
    bytes: &[u8],
    refusal: WrittenRefusal,
    sink: &mut W,
) -> Result<(), WriteFault>
    ensures ok { OnOk result (Appends (W.written sink.old) (W.written sink.new)
        (spec.refusal_text name.now bytes.now refusal)) }
    ensures fault { OnErr result (AppendsPrefix (W.written sink.old) (W.written sink.new)
        (spec.refusal_text name.now bytes.now refusal)) }
    ensures counts { CountsFailure (W.failures sink.old) (W.failures sink.new) result }
{
    match refusal {
        WrittenRefusal::Sheet(refusal) => write_refusal(name, bytes, &refusal, sink),
        refusal => write_line(name, refusal, sink),
    }
}

// Returns why a file of version 3 is refused, or nothing if it isn't or memory is refused.
fn refusal_in(alloc: Global, tree: &Value) -> Option<WrittenRefusal>
    ensures { IfSome result (λ r. machine_of (view tree.now) ≡ Err r) }
{
    match written_machine(alloc, tree) {
        Err(WrittenFault::Refused(refusal)) => Some(refusal),
        _ => None,
    }
}

// Writes the mistake of a file of version 3. If memory is refused, nothing is written.
fn write_third<W: Sink>(
    alloc: Global,
    name: &[u8],
    bytes: &[u8],
    tree: &Value,
    sink: &mut W,
) -> Result<(), WriteFault>
    ensures ok { OnOk result (Appends (W.written sink.old) (W.written sink.new)
        (spec.third_text name.now bytes.now (machine_of (view tree.now)))
        ⊎ Keeps (W.written sink.old) (W.written sink.new)) }
    ensures fault { OnErr result (AppendsPrefix (W.written sink.old) (W.written sink.new)
        (spec.third_text name.now bytes.now (machine_of (view tree.now)))) }
    ensures counts { CountsFailure (W.failures sink.old) (W.failures sink.new) result }
{
    match refusal_in(alloc, tree) {
        Some(refusal) => write_written(name, bytes, refusal, sink),
        None => Ok(()),
    }
}

// Returns whether a file has the tables of the axes, which only version 3 has, and no version.
#[tactic(auto, unfolding(crate::specs::Mistakes::forgets_version))]
fn forgets_version(tree: &Value) -> bool
    ensures { result ≡ spec.forgets_version (view tree.now) }
{
    tree.get("version").is_none() && tree.get("axis").is_some()
}

// Writes the mistake of a file that is a document.
fn write_in_tree<W: Sink>(
    alloc: Global,
    name: &[u8],
    bytes: &[u8],
    tree: &Value,
    fault: FileFault,
    sink: &mut W,
) -> Result<(), WriteFault>
    ensures ok { OnOk result (Appends (W.written sink.old) (W.written sink.new)
        (spec.tree_text name.now bytes.now fault (view tree.now))
        ⊎ Keeps (W.written sink.old) (W.written sink.new)) }
    ensures fault { OnErr result (AppendsPrefix (W.written sink.old) (W.written sink.new)
        (spec.tree_text name.now bytes.now fault (view tree.now))) }
    ensures counts { CountsFailure (W.failures sink.old) (W.failures sink.new) result }
{
    if is_written(tree) {
        write_third(alloc, name, bytes, tree, sink)
    } else if forgets_version(tree) {
        write_forgotten(name, bytes, sink)
    } else {
        write_machine_mistake(alloc, bytes, fault, sink)
    }
}

/// Writes the first mistake of a machine file that is refused with this fault. In a file of version 3
/// it begins with the file's name and the line, as it does where the reader of TOML stops. A file
/// with the tables of version 3 and without a version lacks `version = 3`.
///
/// If memory is refused, nothing is written. After a fault (902) a prefix of the text is written,
/// and the sink has counted the failure.
pub fn write_mistake<W: Sink>(
    alloc: Global,
    name: &str,
    bytes: &[u8],
    fault: FileFault,
    sink: &mut W,
) -> Result<(), WriteFault>
    ensures ok { OnOk result (StopsWhere bytes.now (λ stop.
        Appends (W.written sink.old) (W.written sink.new)
        (spec.mistake_text name.now fault bytes.now stop))
        ⊎ Keeps (W.written sink.old) (W.written sink.new)) }
    ensures fault { OnErr result (StopsWhere bytes.now (λ stop.
        AppendsPrefix (W.written sink.old) (W.written sink.new)
        (spec.mistake_text name.now fault bytes.now stop))) }
    ensures counts { CountsFailure (W.failures sink.old) (W.failures sink.new) result }
{
    match read_document(alloc, bytes) {
        Ok(tree) => write_in_tree(alloc, name.as_bytes(), bytes, &tree, fault, sink),
        Err(error) if error.is_memory() => Ok(()),
        Err(error) => write_stop(name.as_bytes(), bytes, &error, sink),
    }
}
