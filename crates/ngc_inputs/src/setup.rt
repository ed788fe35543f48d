//! The machine and its tools, from the files that the command line names.
ghost use Rattle.std.specs.Prelude.{◌≡◌, IfErr, IfOk, Err, IfSome, MatchResult, None, Ok, OnOk, Some, []};
ghost use Rattle.std.specs.Prelude.{option_map};
ghost use Rattle.ngc_machine_files.specs.Machine.{file_of};
ghost use Rattle.ngc_machine_files.specs.Refusals.{FileResultIs};
ghost use Rattle.ngc_machine_files.specs.Tools.{tools_of};
ghost use Rattle.ngc_file_figures.specs.Files.{stored};
ghost use Rattle.ngc_inputs.specs.Setups.{AreFiguresIn, IfMachine, IfSaid, IfTools, KeepsFiles};
ghost use Rattle.ngc_written_machines.specs.Written.{any_figures};
ghost use Rattle.ngc_written_tools.specs.Reading.{any_limits};
ghost use Rattle.ngc_inputs.specs.Shops.{PlacedResultIs, ShopResultIs, RefusesMachine, RefusesTools};
ghost use Rattle.ngc_margins.specs.Changes.{changed};
ghost use Rattle.ngc_inputs.specs.Unread.{FailsByInput, OfMachine, OfTools, SourceFails};
ghost use Rattle.ngc_inputs.specs.Unread.{ReportsUnread, setup_input, shop_inputs};

use crate::fault::AnswerFault;
use crate::files::Files;
use crate::opening::open_file;
use ngc_file_figures::StoredFigures;
use ngc_machine_files::{FileFault, Machine, Tools, built_in_machine};
use ngc_margins::Changes;
use ngc_text::{InputFault, read_whole};
use ngc_written_machines::{WrittenMachine, read_file as machine_in};
use ngc_written_tools::{ToolTable, read_tools as tools_in};
use std::alloc::Global;

/// The machine and its tools.
#[derive(Drop)]
pub struct Shop {
    pub machine: Machine<Global>,
    pub tools: Tools<Global>,
    /// What the two files say besides the machine and its tools.
    pub figures: StoredFigures,
}

impl Shop {
    /// Returns the machine of a call, with the changes of its options and its margins kept, and its
    /// tools; or 265 if the start is outside the travel limits then, 267 if a fixture is too large
    /// or too far away or there are too many, and 900 if memory is refused.
    pub fn with_changes(self, changes: &Changes) -> Result<Shop, FileFault>
        ensures machine { FileResultIs (λ shop. file_of shop.machine) result
            (changed changes.now (file_of self.machine)) }
        ensures tools { IfOk result (λ shop. tools_of shop.tools ≡ tools_of self.tools) }
        ensures figures { IfOk result (λ shop. shop.figures ≡ self.figures) }
    {
        match changes.apply(self.machine) {
            Ok(machine) => Ok(Shop {
                machine,
                tools: self.tools,
                figures: self.figures,
            }),
            Err(fault) => Err(fault),
        }
    }
}

/// The greatest number of bytes of a machine file, tool table or events file: a longer one is 901.
pub const FILE_LIMIT: usize = 20_000_000;

/// Returns the bytes of a named file.
pub fn bytes_of<F: Files>(alloc: Global, name: &str, files: &mut F) -> Result<Vec<u8>, InputFault>
    ensures value { IfSome (F.bytes files.old (Some name.now))
        (λ bytes. IfOk result (λ v. v.items ≡ bytes)) }
    ensures keeps { KeepsFiles (F.bytes files.old) (F.bytes files.new) }
    ensures counts { OnOk result (F.failures files.new ≡ F.failures files.old) }
    // It fails to be read only if it can't be opened, its source fails, or it is too long.
    ensures unread { IfErr result
        (ReportsUnread (SourceFails F.R.remaining F.R.failures) (F.bytes files.old (Some name.now))
        (F.failures files.old) (F.failures files.new)) }
{
    let mut source = open_file(Some(name), files)?;
    read_whole(alloc, &mut source, FILE_LIMIT)
}

fn named_machine<F: Files>(
    alloc: Global,
    name: &str,
    files: &mut F,
) -> Result<WrittenMachine, AnswerFault>
    ensures said { MatchResult result
        (λ m. IfMachine (F.bytes files.old) (Some name.now)
        (λ says. says ≡ Ok (file_of m.machine)))
        (RefusesMachine (F.bytes files.old) (Some name.now)) }
    ensures figures { IfOk result
        (λ m. IfSaid any_figures None (F.bytes files.old) (Some name.now)
        (λ f. m.figures ≡ f)) }
    ensures keeps { KeepsFiles (F.bytes files.old) (F.bytes files.new) }
    ensures unread { FailsByInput (SourceFails F.R.remaining F.R.failures) (F.bytes files.old)
        (setup_input OfMachine (Some name.now)) (F.failures files.old)
        (F.failures files.new) result }
{
    let bytes = bytes_of(alloc, name, files)?;
    match machine_in(alloc, bytes.as_slice()) {
        Ok(machine) => Ok(machine),
        Err(fault) => Err(AnswerFault::Machine(fault)),
    }
}

fn named_tools<F: Files>(alloc: Global, name: &str, files: &mut F) -> Result<ToolTable, AnswerFault>
    ensures said { MatchResult result
        (λ t. IfTools (F.bytes files.old) (Some name.now) (λ says. says ≡ Ok (tools_of t.tools)))
        (RefusesTools (F.bytes files.old) (Some name.now)) }
    ensures limits { IfOk result
        (λ t. IfSaid any_limits [] (F.bytes files.old) (Some name.now)
        (λ l. t.limits.items ≡ l)) }
    ensures keeps { KeepsFiles (F.bytes files.old) (F.bytes files.new) }
    ensures unread { FailsByInput (SourceFails F.R.remaining F.R.failures) (F.bytes files.old)
        (setup_input OfTools (Some name.now)) (F.failures files.old) (F.failures files.new) result }
{
    let bytes = bytes_of(alloc, name, files)?;
    match tools_in(alloc, bytes.as_slice()) {
        Ok(tools) => Ok(tools),
        Err(fault) => Err(AnswerFault::Tools(fault)),
    }
}

/// Returns the machine that the named file describes, or the built-in one.
fn read_machine<F: Files>(
    alloc: Global,
    name: Option<&str>,
    files: &mut F,
) -> Result<WrittenMachine, AnswerFault>
    ensures said { MatchResult result
        (λ m. IfMachine (F.bytes files.old) (option_map (λ n. n.now) name.entry)
        (λ says. says ≡ Ok (file_of m.machine)))
        (RefusesMachine (F.bytes files.old) (option_map (λ n. n.now) name.entry)) }
    ensures figures { IfOk result
        (λ m. IfSaid any_figures None (F.bytes files.old) (option_map (λ n. n.now) name.entry)
        (λ f. m.figures ≡ f)) }
    ensures keeps { KeepsFiles (F.bytes files.old) (F.bytes files.new) }
    ensures unread { FailsByInput (SourceFails F.R.remaining F.R.failures) (F.bytes files.old)
        (setup_input OfMachine (option_map (λ n. n.now) name.entry)) (F.failures files.old)
        (F.failures files.new) result }
{
    match name {
        None => Ok(WrittenMachine {
            machine: built_in_machine(alloc),
            figures: None,
        }),
        Some(name) => named_machine(alloc, name, files),
    }
}

/// Returns the tools of the named file, or none.
fn read_tools<F: Files>(
    alloc: Global,
    name: Option<&str>,
    files: &mut F,
) -> Result<ToolTable, AnswerFault>
    ensures said { MatchResult result
        (λ t. IfTools (F.bytes files.old) (option_map (λ n. n.now) name.entry)
        (λ says. says ≡ Ok (tools_of t.tools)))
        (RefusesTools (F.bytes files.old) (option_map (λ n. n.now) name.entry)) }
    ensures limits { IfOk result
        (λ t. IfSaid any_limits [] (F.bytes files.old) (option_map (λ n. n.now) name.entry)
        (λ l. t.limits.items ≡ l)) }
    ensures keeps { KeepsFiles (F.bytes files.old) (F.bytes files.new) }
    ensures unread { FailsByInput (SourceFails F.R.remaining F.R.failures) (F.bytes files.old)
        (setup_input OfTools (option_map (λ n. n.now) name.entry)) (F.failures files.old)
        (F.failures files.new) result }
{
    match name {
        None => Ok(ToolTable {
            tools: Tools::empty(alloc),
            limits: Vec::new(alloc),
        }),
        Some(name) => named_tools(alloc, name, files),
    }
}

/// Returns the machine and its tools, read in that order.
pub fn read_shop<F: Files>(
    alloc: Global,
    machine: Option<&str>,
    tools: Option<&str>,
    files: &mut F,
) -> Result<Shop, AnswerFault>
    ensures said { ShopResultIs (F.bytes files.old) (option_map (λ n. n.now) machine.entry)
        (option_map (λ n. n.now) tools.entry) result }
    ensures figures { IfOk result
        (λ shop. AreFiguresIn (F.bytes files.old) (option_map (λ n. n.now) machine.entry)
        (option_map (λ n. n.now) tools.entry) (stored shop.figures)) }
    ensures keeps { KeepsFiles (F.bytes files.old) (F.bytes files.new) }
    // The first file that isn't read can't be opened, its source fails, or it is too long.
    ensures unread { FailsByInput (SourceFails F.R.remaining F.R.failures) (F.bytes files.old)
        (shop_inputs (option_map (λ n. n.now) machine.entry) (option_map (λ n. n.now) tools.entry))
        (F.failures files.old) (F.failures files.new) result }
{
    let written = read_machine(alloc, machine, files)?;
    let table = read_tools(alloc, tools, files)?;
    let figures = StoredFigures {
        machine: written.figures,
        tools: table.limits,
    };
    Ok(Shop {
        machine: written.machine,
        tools: table.tools,
        figures,
    })
}

/// Returns the machine, with these changes, and its tools.
pub fn read_placed<F: Files>(
    alloc: Global,
    machine: Option<&str>,
    tools: Option<&str>,
    changes: &Changes,
    files: &mut F,
) -> Result<Shop, AnswerFault>
    ensures said { PlacedResultIs (F.bytes files.old) (option_map (λ n. n.now) machine.entry)
        (option_map (λ n. n.now) tools.entry) changes.now result }
    ensures figures { IfOk result
        (λ shop. AreFiguresIn (F.bytes files.old) (option_map (λ n. n.now) machine.entry)
        (option_map (λ n. n.now) tools.entry) (stored shop.figures)) }
    ensures keeps { KeepsFiles (F.bytes files.old) (F.bytes files.new) }
    // The first file that isn't read can't be opened, its source fails, or it is too long.
    ensures unread { FailsByInput (SourceFails F.R.remaining F.R.failures) (F.bytes files.old)
        (shop_inputs (option_map (λ n. n.now) machine.entry) (option_map (λ n. n.now) tools.entry))
        (F.failures files.old) (F.failures files.new) result }
{
    match read_shop(alloc, machine, tools, files) {
        Ok(shop) => match shop.with_changes(changes) {
            Ok(changed) => Ok(changed),
            Err(fault) => Err(AnswerFault::Machine(fault)),
        },
        Err(fault) => Err(fault),
    }
}
