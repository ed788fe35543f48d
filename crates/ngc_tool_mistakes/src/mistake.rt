//! The mistake of a tool table.
ghost use Rattle.std.specs.Prelude.{◌≡◌, ◌⊎◌, OnOk, OnErr, Some};
ghost use Rattle.std.specs.Io.KnownBytes.{Appends, Keeps};
ghost use Rattle.toml.specs.Errors.{IsBlank};
ghost use Rattle.toml.specs.Data.{at};
ghost use Rattle.toml.specs.View.{view};
ghost use Rattle.ngc_text.specs.Failures.{CountsFailure};
ghost use Rattle.ngc_text.specs.Written.{AppendsPrefix};
ghost use Rattle.ngc_sentences.specs.Saying.{Says};
ghost use Rattle.ngc_machine_files.specs.Tree.{tree_of};
ghost use Rattle.ngc_refused_files.specs.Stops.{StopsWhere};
ghost use Rattle.ngc_tool_mistakes.specs.Mistakes as spec;
ghost use Rattle.ngc_written_tools.specs.Reading.{written_tools as tools_of};

use ngc_machine_figures::is_written;
use ngc_machine_files::FileFault;
use ngc_refused_files::{read_document, write_forgotten, write_refusal, write_stop};
use ngc_sentences::{Page, Part, say};
use ngc_setup_sheet::write_tools_mistake;
use ngc_text::{Sink, WriteFault};
use ngc_written_tools::{ToolsFault, ToolsRefusal, written_tools};
use std::alloc::Global;
use toml::Value;

#[tactic(auto, unfolding(crate::specs::Mistakes::range_text))]
fn say_range<W: Sink>(name: &[u8], page: &mut Page, output: &mut W)
    ensures { Says (W.written output.old) (W.written output.new)
        (W.failures output.old) (W.failures output.new) page.old page.new
        (spec.range_text name.now) }
{
    say!(page, output; Part::Text(name), b": a number is out of its range\n");
}

fn write_range<W: Sink>(name: &[u8], sink: &mut W) -> Result<(), WriteFault>
    ensures ok { OnOk result
        (Appends (W.written sink.old) (W.written sink.new) (spec.range_text name.now)) }
    ensures fault { OnErr result
        (AppendsPrefix (W.written sink.old) (W.written sink.new) (spec.range_text name.now)) }
    ensures counts { CountsFailure (W.failures sink.old) (W.failures sink.new) result }
{
    let mut page = Page::new();
    say_range(name, &mut page, sink);
    page.finish(sink)
}

fn write_written<W: Sink>(
    name: &[u8],
    bytes: &[u8],
    refusal: ToolsRefusal,
    sink: &mut W,
) -> Result<(), WriteFault>
    ensures ok { OnOk result (Appends (W.written sink.old) (W.written sink.new)
        (spec.refusal_text name.now bytes.now refusal)) }
    ensures fault { OnErr result (AppendsPrefix (W.written sink.old) (W.written sink.new)
        (spec.refusal_text name.now bytes.now refusal)) }
    ensures counts { CountsFailure (W.failures sink.old) (W.failures sink.new) result }
{
    match refusal {
        ToolsRefusal::Key(refusal) => write_refusal(name, bytes, &refusal, sink),
        ToolsRefusal::Range(_) => write_range(name, sink),
    }
}

// Writes the mistake of a table of version 3. If memory is refused, nothing is written.
fn write_third<W: Sink>(
    alloc: Global,
    name: &[u8],
    bytes: &[u8],
    tree: &Value,
    sink: &mut W,
) -> Result<(), WriteFault>
    ensures ok { OnOk result (Appends (W.written sink.old) (W.written sink.new)
        (spec.third_text name.now bytes.now (tools_of (view tree.now)))
        ⊎ Keeps (W.written sink.old) (W.written sink.new)) }
    ensures fault { OnErr result (AppendsPrefix (W.written sink.old) (W.written sink.new)
        (spec.third_text name.now bytes.now (tools_of (view tree.now)))) }
    ensures counts { CountsFailure (W.failures sink.old) (W.failures sink.new) result }
{
    match written_tools(alloc, tree) {
        Err(ToolsFault::Refused(refusal)) => write_written(name, bytes, refusal, sink),
        _ => Ok(()),
    }
}

fn is_text(value: &Value) -> bool
    ensures { result ≡ spec.is_text (view value.now) }
{
    matches!(value, Value::String(_))
}

// Returns whether the diameter of a tool is a text.
fn is_measured(tool: &Value) -> bool
    ensures { result ≡ spec.is_measured (Some (view tool.now)) }
{
    match tool.get("diameter") {
        Some(value) => is_text(value),
        None => false,
    }
}

// Returns whether the diameter of the first of these tools is a text.
fn are_measured(tools: &Value) -> bool
    ensures { result ≡ spec.is_measured (at 0 (view tools.now)) }
{
    match tools.get(0) {
        Some(tool) => is_measured(tool),
        None => false,
    }
}

// Returns whether a table has no version, and its first tool is measured as in version 3.
#[tactic(auto, unfolding(crate::specs::Mistakes::forgets_version))]
fn forgets_version(tree: &Value) -> bool
    ensures { result ≡ spec.forgets_version (view tree.now) }
{
    match tree.get("tool") {
        Some(tools) => tree.get("version").is_none() && are_measured(tools),
        None => false,
    }
}

// Writes the mistake of a table that is a document.
fn write_in_tree<W: Sink>(
    alloc: Global,
    name: &[u8],
    bytes: &[u8],
    tree: &Value,
    fault: FileFault,
    sink: &mut W,
) -> Result<(), WriteFault>
    requires { Some (view tree.now) ≡ tree_of bytes.now }
    ensures ok { OnOk result (Appends (W.written sink.old) (W.written sink.new)
        (spec.tree_text name.now bytes.now fault (view tree.now))
        ⊎ Keeps (W.written sink.old) (W.written sink.new)) }
    ensures fault { OnErr result (AppendsPrefix (W.written sink.old) (W.written sink.new)
        (spec.tree_text name.now bytes.now fault (view tree.now))) }
    ensures blank { IsBlank bytes.now →
        OnOk result (Appends (W.written sink.old) (W.written sink.new)
        (spec.tree_text name.now bytes.now fault (view tree.now))) }
    ensures counts { CountsFailure (W.failures sink.old) (W.failures sink.new) result }
{
    if is_written(tree) {
        write_third(alloc, name, bytes, tree, sink)
    } else if forgets_version(tree) {
        write_forgotten(name, bytes, sink)
    } else {
        write_tools_mistake(alloc, bytes, fault, sink)
    }
}

/// Writes the first mistake of a tool table that is refused with this fault. In a table of version 3
/// it begins with the file's name and the line, as it does where the reader of TOML stops. A table
/// whose first tool has a diameter with a unit, and that has no version, lacks `version = 3`.
///
/// If memory is refused, nothing is written. After a fault (902) a prefix of the text is written,
/// and the sink has counted the failure.
pub fn write_mistake<W: Sink>(
    alloc: Global,
    name: &str,
    bytes: &[u8],
    fault: FileFault,
    sink: &mut W,
) -> Result<(), WriteFault>
    ensures ok { OnOk result (StopsWhere bytes.now (λ stop.
        Appends (W.written sink.old) (W.written sink.new)
        (spec.mistake_text name.now fault bytes.now stop))
        ⊎ Keeps (W.written sink.old) (W.written sink.new)) }
    ensures fault { OnErr result (StopsWhere bytes.now (λ stop.
        AppendsPrefix (W.written sink.old) (W.written sink.new)
        (spec.mistake_text name.now fault bytes.now stop))) }
    // A file with only white space and comments takes no memory.
    ensures blank { IsBlank bytes.now → OnOk result (StopsWhere bytes.now (λ stop.
        Appends (W.written sink.old) (W.written sink.new)
        (spec.mistake_text name.now fault bytes.now stop))) }
    ensures counts { CountsFailure (W.failures sink.old) (W.failures sink.new) result }
{
    match read_document(alloc, bytes) {
        Ok(tree) => write_in_tree(alloc, name.as_bytes(), bytes, &tree, fault, sink),
        Err(error) if error.is_memory() => Ok(()),
        Err(error) => write_stop(name.as_bytes(), bytes, &error, sink),
    }
}
