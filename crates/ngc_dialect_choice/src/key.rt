//! The key `dialect` of the machine file.
ghost use Rattle.std.specs.Prelude.{◌≡◌, IfErr, IfOk, IfSome, OnOk, Some, option_map};
ghost use Rattle.ngc_dialect_choice.specs.Choice.{key_in};
ghost use Rattle.ngc_inputs.specs.Setups.{KeepsFiles};
ghost use Rattle.ngc_inputs.specs.Unread.{ReportsUnread, SourceFails};

use ngc_dialect_names::Dialect;
use ngc_inputs::{Files, bytes_of};
use ngc_machine_files::FileFault;
use ngc_text::InputFault;
use ngc_written_machines::read_machine;
use std::alloc::Global;

// Returns the name of the language that a machine file's text names. A text that is refused names none: the
// command reports it.
fn key_in(alloc: Global, text: &[u8]) -> Result<Option<&'static str>, InputFault>
    ensures key { IfOk result (λ name. option_map (λ n. n.now) name ≡ key_in text.now) }
    ensures fault { IfErr result (λ fault. fault ≡ InputFault.Memory) }
{
    match read_machine(alloc, text) {
        Ok(machine) => Ok(machine.dialect.map(Dialect::name)),
        Err(FileFault::Memory) => Err(InputFault::Memory),
        Err(_) => Ok(None),
    }
}

/// Returns the name of the language that a machine file names. It fails only if the file can't be read, or
/// memory runs out.
pub fn key_of<F: Files>(
    alloc: Global,
    file: &str,
    files: &mut F,
) -> Result<Option<&'static str>, InputFault>
    ensures key { IfOk result (λ name. IfSome (F.bytes files.old (Some file.now))
        (λ text. option_map (λ n. n.now) name ≡ key_in text)) }
    ensures keeps { KeepsFiles (F.bytes files.old) (F.bytes files.new) }
    ensures counts { OnOk result (F.failures files.new ≡ F.failures files.old) }
    ensures unread { IfErr result
        (ReportsUnread (SourceFails F.R.remaining F.R.failures) (F.bytes files.old (Some file.now))
        (F.failures files.old) (F.failures files.new)) }
{
    let text = bytes_of(alloc, file, files)?;
    key_in(alloc, text.as_slice())
}
