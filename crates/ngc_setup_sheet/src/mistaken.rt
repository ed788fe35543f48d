//! The first mistake of a file that is refused, in words.
ghost use Rattle.std.specs.Prelude.{◌≡◌, ◌⊎◌, option_map, OnOk, OnErr};
ghost use Rattle.std.specs.Io.KnownBytes.{Appends, Keeps};
ghost use Rattle.toml.specs.Errors.{IsBlank};
ghost use Rattle.toml.specs.View.{view};
ghost use Rattle.ngc_text.specs.Failures.{CountsFailure};
ghost use Rattle.ngc_text.specs.Written.{AppendsPrefix};
ghost use Rattle.ngc_setup_sheet.specs.Mistakes.{machine_mistake_in, tools_mistake_in, in_document};
ghost use Rattle.ngc_setup_sheet.specs.Mistakes.{machine_mistake_text, tools_mistake_text};

use crate::mistake::Mistake;
use crate::mistake_syntax::text;
use crate::mistakes::{machine_mistake_in, tools_mistake_in};
use ngc_machine_files::{FileFault, read_tree};
use ngc_text::{Sink, WriteFault};
use std::alloc::Global;
use toml::Value;

fn machine_mistake(tree: &Option<Value>, fault: FileFault) -> Mistake
    ensures { result ≡ in_document (machine_mistake_in fault) (option_map view tree.now) }
{
    match tree {
        Some(tree) => machine_mistake_in(fault, tree),
        None => Mistake::NoDocument,
    }
}

fn tools_mistake(tree: &Option<Value>, fault: FileFault) -> Mistake
    ensures { result ≡ in_document (tools_mistake_in fault) (option_map view tree.now) }
{
    match tree {
        Some(tree) => tools_mistake_in(fault, tree),
        None => Mistake::NoDocument,
    }
}

/// Writes the first mistake of a machine file that is refused with this fault: the key, its
/// requirement, and in a second line the line of the file that has the key.
///
/// If the memory for the file's tree is refused, nothing is written. After a fault (902) a prefix
/// of the text is written, and the sink has counted the failure.
pub fn write_machine_mistake<W: Sink>(
    alloc: Global,
    bytes: &[u8],
    fault: FileFault,
    sink: &mut W,
) -> Result<(), WriteFault>
    ensures ok { OnOk result
        (Appends (W.written sink.old) (W.written sink.new) (machine_mistake_text bytes.now fault) ⊎
        Keeps (W.written sink.old) (W.written sink.new)) }
    ensures fault { OnErr result
        (AppendsPrefix (W.written sink.old) (W.written sink.new)
        (machine_mistake_text bytes.now fault)) }
    // A file with only white space and comments takes no memory.
    ensures blank { IsBlank bytes.now →
        OnOk result (Appends (W.written sink.old) (W.written sink.new)
        (machine_mistake_text bytes.now fault)) }
    ensures counts { CountsFailure (W.failures sink.old) (W.failures sink.new) result }
{
    match read_tree(alloc, bytes) {
        Ok(tree) => text(&machine_mistake(&tree, fault), bytes).write_out(sink),
        Err(_) => Ok(()),
    }
}

/// Writes the first mistake of a tool table that is refused with this fault, as
/// `write_machine_mistake` does.
pub fn write_tools_mistake<W: Sink>(
    alloc: Global,
    bytes: &[u8],
    fault: FileFault,
    sink: &mut W,
) -> Result<(), WriteFault>
    ensures ok { OnOk result
        (Appends (W.written sink.old) (W.written sink.new) (tools_mistake_text bytes.now fault) ⊎
        Keeps (W.written sink.old) (W.written sink.new)) }
    ensures fault { OnErr result
        (AppendsPrefix (W.written sink.old) (W.written sink.new)
        (tools_mistake_text bytes.now fault)) }
    ensures blank { IsBlank bytes.now →
        OnOk result (Appends (W.written sink.old) (W.written sink.new)
        (tools_mistake_text bytes.now fault)) }
    ensures counts { CountsFailure (W.failures sink.old) (W.failures sink.new) result }
{
    match read_tree(alloc, bytes) {
        Ok(tree) => text(&tools_mistake(&tree, fault), bytes).write_out(sink),
        Err(_) => Ok(()),
    }
}
