//! The material that no motion has swept so far, and the mounted tool.
ghost use Rattle.std.specs.Prelude.{◌≡◌};
ghost use Rattle.ngc_material.specs.Heights.{AreHeights, AreWithin};
ghost use Rattle.ngc_sure_contacts.specs.Swept.{body_in};

use crate::body::{body_in, inside};
use crate::contact::Contact;
use crate::line::Line;
use crate::seen::deepest_contact;
use crate::sweep::sweep;
use ngc_commands::{Action, Motion, Pace, Reached, Way};
use ngc_file_figures::ToolLimits;
use ngc_machine_files::Tool;
use ngc_stock::{Cylinder, Stock};
use std::alloc::{AllocError, Allocator};

/// The state before a command: heights of the cells under which nothing is swept, the mounted tool and the
/// position of the axes, and the tool's parts.
#[derive(Drop)]
pub(crate) struct Ground<A: Allocator> {
    stock: Stock,
    heights: Vec<u32, A>,
    reached: Reached,
    body: Vec<Cylinder, A>,
    ghost fits: { AreHeights stock heights.items },
    ghost within: { AreWithin stock heights.items },
    ghost parts: { body.items ≡ body_in reached.tool },
}

impl<A: Allocator + Copy> Ground<A> {
    ghost use Rattle.std.specs.Prelude.{◌≡◌, IfSome, IfOk, OnOk, IsTrue};
    ghost use Rattle.ngc_cells.specs.Grids.{IsGrid};
    ghost use Rattle.ngc_commands.specs.Reached.{after};
    ghost use Rattle.ngc_stock.specs.Walk.{uncut};
    ghost use Rattle.ngc_material.specs.Heights.{is_action_reached, is_way_reached};
    ghost use Rattle.ngc_sure_contacts.specs.Contacts.{IsThroughByAny, IsThroughIn, IsThroughOn, inside};
    ghost use Rattle.ngc_sure_contacts.specs.Maps.{AreSwept, IsUnder};
    ghost use Rattle.ngc_sure_contacts.specs.Swept.{IsSweptByAny, IsSweptIn};

    /// Returns an unswept stock, and a state. It fails if memory is refused.
    pub(crate) fn new(alloc: A, stock: &Stock, start: &Reached) -> Result<Ground<A>, AllocError>
        requires { IsGrid stock.now.grid }
        ensures stock { IfOk result (λ g. g.stock ≡ stock.now) }
        ensures heights { IfOk result (λ g. g.heights.items ≡ uncut stock.now) }
        ensures reached { IfOk result (λ g. g.reached ≡ start.now) }
    {
        let count = stock.grid.columns as usize * stock.grid.rows as usize;
        Ok(Ground {
            stock: *stock,
            heights: vec![in alloc; stock.height; count]?,
            reached: *start,
            body: body_in(alloc, &start.tool)?,
        })
    }

    // Lowers what the mounted tool may sweep in a motion.
    fn sweep_motion(&mut self, way: &Way)
        requires { IsTrue (is_way_reached way.now) }
        ensures stock { self.new.stock ≡ self.old.stock }
        ensures reached { self.new.reached ≡ self.old.reached }
        ensures swept { AreSwept self.old.stock (IsSweptByAny self.old.body.items way.now) self.old.heights.items self.new.heights.items }
    {
        sweep(
            &self.stock,
            self.heights.as_mut_slice(),
            self.body.as_slice(),
            way,
        );
    }

    fn sweep_action(&mut self, action: &Action)
        requires { IsTrue (is_action_reached action.now) }
        ensures stock { self.new.stock ≡ self.old.stock }
        ensures reached { self.new.reached ≡ self.old.reached }
        ensures swept { AreSwept self.old.stock (IsSweptIn self.old.reached.tool action.now) self.old.heights.items self.new.heights.items }
    {
        match action {
            Action::Move(motion) => self.sweep_motion(&motion.way),
            _ => {}
        }
    }

    /// Follows an action. The tool's parts are made again at a tool change alone. It fails if memory is
    /// refused.
    pub(crate) fn follow(&mut self, alloc: A, action: &Action) -> Result<(), AllocError>
        requires { IsTrue (is_action_reached action.now) }
        ensures stock { OnOk result (self.new.stock ≡ self.old.stock) }
        ensures reached { OnOk result (self.new.reached ≡ after self.old.reached action.now) }
        ensures swept { OnOk result (AreSwept self.old.stock (IsSweptIn self.old.reached.tool action.now) self.old.heights.items self.new.heights.items) }
    {
        self.sweep_action(action);
        if let Action::Mount(tool) = action {
            self.body = body_in(alloc, tool)?;
        }
        self.reached = self.reached.after(action);
        Ok(())
    }

    fn traverse_contact(
        &self,
        alloc: A,
        table: &[ToolLimits],
        tool: &Tool,
        motion: &Motion,
        part: usize,
    ) -> Result<Option<Contact>, AllocError>
        requires { IsTrue (is_way_reached motion.now.way) }
        ensures { IfOk result (λ o. IfSome o
            (IsThroughOn self.now.stock (IsUnder self.now.stock self.now.heights.items) (inside table.now tool.now part) motion.now.way motion.now.pace)) }
    {
        match (motion.pace, &motion.way) {
            (Pace::Rapid, Way::Line { start, end }) => {
                let (start, end) = (*start, *end);
                let cylinders = inside(alloc, table, tool, part)?;
                Ok(deepest_contact(
                    &self.stock,
                    self.heights.as_slice(),
                    cylinders.as_slice(),
                    &Line { start, end },
                ))
            }
            _ => Ok(None),
        }
    }

    /// Returns where an action surely goes through material with a part of the mounted tool, if it is a straight
    /// traverse, or `None` if that isn't known. It fails if memory is refused.
    pub(crate) fn contact(
        &self,
        alloc: A,
        table: &[ToolLimits],
        action: &Action,
        part: usize,
    ) -> Result<Option<Contact>, AllocError>
        requires { IsTrue (is_action_reached action.now) }
        ensures { IfOk result (λ o. IfSome o
            (IsThroughIn self.now.stock (IsUnder self.now.stock self.now.heights.items) table.now self.now.reached.tool action.now part)) }
    {
        match (&self.reached.tool, action) {
            (Some(tool), Action::Move(motion)) => {
                self.traverse_contact(alloc, table, tool, motion, part)
            }
            _ => Ok(None),
        }
    }
}
