//! A walk over the commands of a program, as far as the last traverse that was found.
ghost use Rattle.std.specs.Prelude.{◌≡◌, IfOk, IfSome, IsTrue, slice_get};
ghost use Rattle.ngc_cells.specs.Grids.{IsGrid};
ghost use Rattle.ngc_material.specs.Heights.{are_reached};
ghost use Rattle.ngc_sure_contacts.specs.Contacts.{AreContacts, IsContactWith};
ghost use Rattle.ngc_sure_contacts.specs.Maps.{IsUnder};

use crate::contact::{Contact, FoundTraverse};
use crate::ground::Ground;
use ngc_commands::{Command, Reached};
use ngc_file_figures::ToolLimits;
use ngc_material::Found;
use ngc_stock::Stock;
use std::alloc::{AllocError, Allocator};

// Returns the command with an index, if there is one.
fn command_at(commands: &[Command], index: usize) -> Option<Command>
    ensures { result ≡ slice_get commands.now index }
{
    match commands.get(index) {
        Some(command) => Some(*command),
        None => None,
    }
}

/// The state before a command, and the command's index.
#[derive(Drop)]
struct Walk<A: Allocator> {
    ground: Ground<A>,
    position: usize,
}

impl<A: Allocator + Copy> Walk<A> {
    ghost use Rattle.std.specs.Prelude.{◌≡◌, OnOk, IsTrue};
    ghost use Rattle.ngc_commands.specs.declared.reached.Reached.{Reached};
    ghost use Rattle.ngc_material.specs.Heights.{are_reached};
    ghost use Rattle.ngc_sure_contacts.specs.Maps.{IsBefore};

    // Follows the commands up to the one before an index, or all if there are fewer.
    fn advance(&mut self, alloc: A, commands: &[Command], to: usize) -> Result<(), AllocError>
        requires { IsTrue (are_reached commands.now) }
        ensures stock { OnOk result (self.new.ground.stock ≡ self.old.ground.stock) }
        ensures before { (start : Reached) → IsBefore self.old.ground.stock start commands.now self.old.position self.old.ground.reached self.old.ground.heights.items
            → OnOk result (IsBefore self.old.ground.stock start commands.now self.new.position self.new.ground.reached self.new.ground.heights.items) }
    {
        while self.position < to {
            let Some(command) = command_at(commands, self.position) else {
                return Ok(());
            };
            self.ground.follow(alloc, &command.action)?;
            self.position += 1;
        }
        Ok(())
    }
}

// Returns the contact of a traverse that was found, in the state before the command at a position.
#[tactic(auto, using(crate::proofs::Walking::contact_ok, crate::proofs::Walking::contact_here, crate::proofs::Walking::reached_at))]
fn contact_of<A: Allocator + Copy>(
    ground: &Ground<A>,
    alloc: A,
    table: &[ToolLimits],
    commands: &[Command],
    position: usize,
    found: &Found,
) -> Result<Option<Contact>, AllocError>
    requires { IsTrue (are_reached commands.now) }
    ensures contact { IfOk result (λ o. IfSome o (IsContactWith ground.now.stock (IsUnder ground.now.stock ground.now.heights.items)
        table.now ground.now.reached.tool commands.now found.now)) }
    ensures here { IfOk result (λ o. IfSome o (λ c. found.now.command ≡ position)) }
{
    if position != found.command {
        return Ok(None);
    }
    match command_at(commands, position) {
        Some(command) => ground.contact(alloc, table, &command.action, found.part),
        None => Ok(None),
    }
}

fn contacts_of<A: Allocator + Copy>(
    alloc: A,
    stock: &Stock,
    table: &[ToolLimits],
    start: &Reached,
    commands: &[Command],
    found: &[Found],
) -> Result<Vec<FoundTraverse, A>, AllocError>
    requires grid { IsGrid stock.now.grid }
    requires near { IsTrue (are_reached commands.now) }
    ensures { IfOk result (λ v. AreContacts stock.now table.now start.now commands.now found.now v.items) }
{
    let mut traverses = Vec::new(alloc);
    let ground = Ground::new(alloc, stock, start)?;
    let mut walk = Walk {
        ground,
        position: 0,
    };
    for one in found {
        walk.advance(alloc, commands, one.command)?;
        let contact = contact_of(&walk.ground, alloc, table, commands, walk.position, one)?;
        traverses.push(FoundTraverse {
            found: *one,
            contact,
        })?;
    }
    Ok(traverses)
}

/// Returns each traverse that was found, with where it surely goes through material: the deepest of the cells
/// that show it, or `None` where that isn't known. `found` are traverses of a walk over `commands`, in order: the
/// program's commands at a setting of block delete, from a state with the material uncut. Each motion before
/// the traverse counts, a feed or a traverse, with all parts of its tool as cylinders; along an arc in the plane
/// of X and Y all points within its outer radius, and along another arc everything. Without a found traverse no
/// memory is taken.
///
/// It fails if memory is refused.
#[tactic(auto, using(crate::proofs::Walking::none_found))]
pub fn find_contacts<A: Allocator + Copy>(
    alloc: A,
    stock: &Stock,
    table: &[ToolLimits],
    start: &Reached,
    commands: &[Command],
    found: &[Found],
) -> Result<Vec<FoundTraverse, A>, AllocError>
    requires grid { IsGrid stock.now.grid }
    requires near { IsTrue (are_reached commands.now) }
    ensures { IfOk result (λ v. AreContacts stock.now table.now start.now commands.now found.now v.items) }
{
    if found.is_empty() {
        return Ok(Vec::new(alloc));
    }
    contacts_of(alloc, stock, table, start, commands, found)
}
