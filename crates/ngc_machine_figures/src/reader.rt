//! Reading a machine file.
ghost use Rattle.std.specs.Prelude.{◌≡◌, IfOk, IfErr, IsSome, codes};
ghost use Rattle.ngc_machine_figures.specs.Reading.{ok_map};
ghost use Rattle.toml.specs.Data.{get};
ghost use Rattle.toml.specs.View.{view};
ghost use Rattle.ngc_machine_figures.specs.Files.{sheet_of, values_of, SaysSheet};

use crate::fixtures::fixtures_at;
use crate::head::head_of;
use crate::refusal::{FileRefusal, SheetFault};
use crate::sheet::Sheet;
use crate::stock::stock_at;
use std::alloc::{AllocError, Global};
use toml::Value;

#[tactic(auto, unfolding(crate::specs::Files::sheet_of))]
fn sheet_in(alloc: Global, tree: &Value) -> Result<Result<Sheet, FileRefusal>, AllocError>
    ensures said { IfOk result (λ said. ok_map values_of said ≡ sheet_of (view tree.now)) }
    ensures memory { IfErr result (λ _. IsSome (get (codes "fixture") (view tree.now))) }
{
    let head = match head_of(tree) {
        Ok(head) => head,
        Err(refusal) => return Ok(Err(refusal)),
    };
    let fixtures = match fixtures_at(alloc, &head.origins, tree)? {
        Ok(fixtures) => fixtures,
        Err(refusal) => return Ok(Err(refusal)),
    };
    match stock_at(tree) {
        Ok(stock) => Ok(Ok(Sheet {
            head,
            fixtures,
            stock,
        })),
        Err(refusal) => Ok(Err(refusal)),
    }
}

/// Reads the tree of a machine file of version 3. Returns the first mistake if it has one, and an
/// error if memory is refused, which happens only for a file with fixtures.
pub fn read_sheet(alloc: Global, tree: &Value) -> Result<Sheet, SheetFault>
    ensures said { SaysSheet result (sheet_of (view tree.now)) }
    ensures memory { IfErr result (λ fault. fault ≡ SheetFault.Memory → IsSome (get (codes "fixture") (view tree.now))) }
{
    match sheet_in(alloc, tree) {
        Ok(Ok(sheet)) => Ok(sheet),
        Ok(Err(refusal)) => Err(SheetFault::Refused(refusal)),
        Err(_) => Err(SheetFault::Memory),
    }
}
