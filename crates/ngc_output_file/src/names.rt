//! The files that a command line names.
ghost use Rattle.std.specs.Prelude.{◌≡◌, Some, option_map, true};
ghost use Rattle.ngc_output_file.specs.Names.{HasName, names_of};
ghost use Rattle.ngc_output_file.specs.Outputs.{KeepsAll};

use crate::outputs::Outputs;
use ngc_command_line::Options;

/// Returns the names of the program, machine file, tool table, certificate, and events or dump of a command.
pub fn names_of<'a>(options: &Options<'a>) -> [Option<&'a str>; 5]
    ensures { result ≡ names_of options.now }
{
    match options {
        Options::List(it) => [it.program, it.machine, it.tools, None, None],
        Options::Certify(it) => [it.program, Some(it.machine), Some(it.tools), None, None],
        Options::Check(it) => [
            it.program,
            Some(it.machine),
            Some(it.tools),
            Some(it.certificate),
            None,
        ],
        Options::Run(it) => [
            it.program,
            Some(it.machine),
            Some(it.tools),
            Some(it.certificate),
            Some(it.events),
        ],
        Options::RunThrough(it) => [
            it.program,
            Some(it.machine),
            Some(it.tools),
            Some(it.certificate),
            None,
        ],
        Options::Live(it) => [
            Some(it.program),
            Some(it.machine),
            Some(it.tools),
            Some(it.certificate),
            None,
        ],
        Options::Draw(it) => [
            it.program,
            Some(it.machine),
            Some(it.tools),
            it.certificate,
            None,
        ],
        Options::Show(it) => [None, Some(it.machine), it.tools, None, None],
        Options::Report(it) => [it.program, Some(it.machine), Some(it.tools), None, None],
        Options::Place(it) => [it.program, Some(it.machine), Some(it.tools), None, None],
        Options::Adapt(it) => [it.program, it.machine, it.tools, None, None],
        Options::Machine(it) => [None, None, None, None, it.grbl],
        _ => [None, None, None, None, None],
    }
}

// Returns whether a file that may be named is the file with this name.
fn is_named<D: Outputs>(name: &str, other: Option<&str>, outputs: &mut D) -> bool
    ensures named { option_map (λ n. n.now) other.entry ≡ Some name.now → result ≡ true }
    ensures keeps { KeepsAll (D.bytes outputs.old) (D.bytes outputs.new) }
{
    match other {
        None => false,
        Some(other) => outputs.is_same(name, other),
    }
}

/// Returns whether one of the named files is the file with this name.
#[tactic(auto, using(crate::proofs::NameLaws::after, crate::proofs::NameLaws::keeps_on))]
pub fn is_one_of<D: Outputs>(name: &str, names: &[Option<&str>], outputs: &mut D) -> bool
    ensures named { HasName name.now names.now → result ≡ true }
    ensures keeps { KeepsAll (D.bytes outputs.old) (D.bytes outputs.new) }
{
    for other in names {
        if is_named(name, *other, outputs) {
            return true;
        }
    }
    false
}
