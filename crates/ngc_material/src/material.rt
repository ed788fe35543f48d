//! The material that is left of a stock.
ghost use Rattle.ngc_material.specs.Heights.{AreHeights, AreWithin};

use crate::cutting::cut_discs;
use crate::depth::greatest_depth;
use crate::line::Line;
use crate::rim::arc_touch;
use crate::sweep::cut_arcs;
use crate::touch::{PartTouch, first_touch, upper_touch};
use ngc_arc_geometry::Arc;
use ngc_commands::{Action, Motion, Pace, Way};
use ngc_machine_files::Tool;
use ngc_stock::{Cylinder, Stock};
use std::alloc::{AllocError, Allocator};

/// The material that is left of a stock.
#[derive(Drop)]
pub(crate) struct Material<A: Allocator> {
    stock: Stock,
    heights: Vec<u32, A>,
    ghost fits: { AreHeights stock heights.items },
    ghost within: { AreWithin stock heights.items },
}

impl<A: Allocator> Material<A> {
    ghost use Rattle.std.specs.Prelude.{◌≡◌, IfNone, IfSome, IfOk, IsTrue};
    ghost use Rattle.ngc_commands.specs.declared.movement.Feed.{Feed};
    ghost use Rattle.ngc_cells.specs.Grids.{IsGrid};
    ghost use Rattle.ngc_stock.specs.Cuts.{IsDepthOf, IsDepthOn};
    ghost use Rattle.ngc_stock.specs.Feeds.{IsFeedClear, IsFeedClearOn};
    ghost use Rattle.ngc_stock.specs.Walk.{IsStep, IsMotion, AreDiscsCut, AreArcsCut, uncut};
    ghost use Rattle.ngc_material.specs.Heights.{is_action_reached, is_way_reached, is_reached};
    ghost use Rattle.ngc_material.specs.Walks.{IsRubbed, IsRubbedOn, IsTouched, IsTouchedOn};

    /// Returns an uncut stock. It fails if memory is refused.
    pub(crate) fn new(alloc: A, stock: &Stock) -> Result<Material<A>, AllocError>
        requires { IsGrid stock.now.grid }
        ensures stock { IfOk result (λ m. m.stock ≡ stock.now) }
        ensures heights { IfOk result (λ m. m.heights.items ≡ uncut stock.now) }
    {
        let count = stock.grid.columns as usize * stock.grid.rows as usize;
        Ok(Material {
            stock: *stock,
            heights: vec![in alloc; stock.height; count]?,
        })
    }

    /// Returns the heights of the cells.
    pub(crate) fn into_heights(self) -> Vec<u32, A>
        ensures items { result.items ≡ self.heights.items }
        ensures fits { AreHeights self.stock result.items }
    {
        let Material { heights, .. } = self;
        heights
    }

    /// Follows an action with a mounted tool and the discs of its cutter, and returns where a part of it may
    /// touch material if it is a straight traverse. A feed lowers the material, and so does a traverse that may touch it.
    /// Motions without a tool change nothing.
    pub(crate) fn follow(
        &mut self,
        tool: &Option<Tool>,
        discs: &[Cylinder],
        action: &Action,
    ) -> Option<PartTouch>
        requires { IsTrue (is_action_reached action.now) }
        ensures stock { self.new.stock ≡ self.old.stock }
        ensures none { IfNone result
            (IsStep self.old.stock discs.now tool.now action.now self.old.heights.items self.new.heights.items) }
        ensures some { IfSome result
            (λ f. IsTouched self.old.stock discs.now tool.now action.now self.old.heights.items self.new.heights.items f.part f.touch) }
    {
        match (tool, action) {
            (Some(tool), Action::Move(motion)) => self.follow_motion(tool, discs, motion),
            _ => None,
        }
    }

    fn follow_motion(
        &mut self,
        tool: &Tool,
        discs: &[Cylinder],
        motion: &Motion,
    ) -> Option<PartTouch>
        requires { IsTrue (is_way_reached motion.now.way) }
        ensures stock { self.new.stock ≡ self.old.stock }
        ensures none { IfNone result
            (IsMotion self.old.stock discs.now tool.now motion.now.way motion.now.pace self.old.heights.items self.new.heights.items) }
        ensures some { IfSome result
            (λ f. IsTouchedOn self.old.stock discs.now tool.now motion.now.way motion.now.pace self.old.heights.items self.new.heights.items f.part f.touch) }
    {
        match motion.pace {
            Pace::Rapid => self.follow_rapid(tool, discs, &motion.way),
            Pace::Feed(_) => {
                self.follow_feed(discs, &motion.way);
                None
            }
        }
    }

    fn follow_rapid(&mut self, tool: &Tool, discs: &[Cylinder], way: &Way) -> Option<PartTouch>
        requires { IsTrue (is_way_reached way.now) }
        ensures stock { self.new.stock ≡ self.old.stock }
        ensures none { IfNone result
            (IsMotion self.old.stock discs.now tool.now way.now Pace.Rapid self.old.heights.items self.new.heights.items) }
        ensures some { IfSome result
            (λ f. IsTouchedOn self.old.stock discs.now tool.now way.now Pace.Rapid self.old.heights.items self.new.heights.items f.part f.touch) }
    {
        match way {
            Way::Line { start, end } => {
                let (start, end) = (*start, *end);
                self.traverse(tool, discs, &Line { start, end })
            }
            Way::Arc(_) => None,
        }
    }

    fn follow_feed(&mut self, discs: &[Cylinder], way: &Way)
        requires { IsTrue (is_way_reached way.now) }
        ensures stock { self.new.stock ≡ self.old.stock }
        ensures cut { (t : Tool) (f : Feed) →
            IsMotion self.old.stock discs.now t way.now (Pace.Feed f) self.old.heights.items self.new.heights.items }
    {
        match way {
            Way::Line { start, end } => {
                let (start, end) = (*start, *end);
                self.feed(discs, &Line { start, end });
            }
            Way::Arc(arc) => self.feed_arc(discs, arc),
        }
    }

    fn traverse(&mut self, tool: &Tool, discs: &[Cylinder], line: &Line) -> Option<PartTouch>
        requires start { IsTrue (is_reached line.now.start) }
        requires end { IsTrue (is_reached line.now.end) }
        ensures stock { self.new.stock ≡ self.old.stock }
        ensures none { IfNone result
            (IsMotion self.old.stock discs.now tool.now (Way.Line line.now.start line.now.end) Pace.Rapid self.old.heights.items self.new.heights.items) }
        ensures some { IfSome result
            (λ f. IsTouchedOn self.old.stock discs.now tool.now (Way.Line line.now.start line.now.end) Pace.Rapid self.old.heights.items self.new.heights.items f.part f.touch) }
    {
        let touch = first_touch(&self.stock, self.heights.as_slice(), tool, discs, line);
        if touch.is_some() {
            self.feed(discs, line);
        }
        touch
    }

    fn feed(&mut self, discs: &[Cylinder], line: &Line)
        requires start { IsTrue (is_reached line.now.start) }
        requires end { IsTrue (is_reached line.now.end) }
        ensures stock { self.new.stock ≡ self.old.stock }
        ensures cut { AreDiscsCut self.old.stock discs.now line.now.start line.now.end self.old.heights.items self.new.heights.items }
    {
        cut_discs(&self.stock, self.heights.as_mut_slice(), discs, line);
    }

    fn feed_arc(&mut self, discs: &[Cylinder], arc: &Arc)
        requires { IsTrue (is_reached arc.now.end) }
        ensures stock { self.new.stock ≡ self.old.stock }
        ensures cut { AreArcsCut self.old.stock discs.now arc.now self.old.heights.items self.new.heights.items }
    {
        cut_arcs(&self.stock, self.heights.as_mut_slice(), discs, arc);
    }

    /// Returns where a part of the mounted tool above the cutter may touch the material, if an action is
    /// a feed, straight or along an arc in the plane of X and Y. The material is that which the feed leaves.
    pub(crate) fn test(&self, tool: &Option<Tool>, action: &Action) -> Option<PartTouch>
        requires { IsTrue (is_action_reached action.now) }
        ensures none { IfNone result (IsFeedClear self.now.stock tool.now action.now self.now.heights.items) }
        ensures some { IfSome result
            (λ f. IsRubbed self.now.stock tool.now action.now self.now.heights.items f.part f.touch) }
    {
        match (tool, action) {
            (Some(tool), Action::Move(motion)) => self.test_motion(tool, motion),
            _ => None,
        }
    }

    fn test_motion(&self, tool: &Tool, motion: &Motion) -> Option<PartTouch>
        requires { IsTrue (is_way_reached motion.now.way) }
        ensures none { IfNone result
            (IsFeedClearOn self.now.stock tool.now motion.now.way motion.now.pace self.now.heights.items) }
        ensures some { IfSome result
            (λ f. IsRubbedOn self.now.stock tool.now motion.now.way motion.now.pace self.now.heights.items f.part f.touch) }
    {
        match motion.pace {
            Pace::Rapid => None,
            Pace::Feed(_) => self.test_feed(tool, &motion.way),
        }
    }

    fn test_feed(&self, tool: &Tool, way: &Way) -> Option<PartTouch>
        requires { IsTrue (is_way_reached way.now) }
        ensures none { (f : Feed) → IfNone result
            (IsFeedClearOn self.now.stock tool.now way.now (Pace.Feed f) self.now.heights.items) }
        ensures some { (f : Feed) → IfSome result
            (λ g. IsRubbedOn self.now.stock tool.now way.now (Pace.Feed f) self.now.heights.items g.part g.touch) }
    {
        match way {
            Way::Line { start, end } => {
                let (start, end) = (*start, *end);
                let line = Line { start, end };
                upper_touch(&self.stock, self.heights.as_slice(), tool, &line)
            }
            Way::Arc(arc) => arc_touch(&self.stock, self.heights.as_slice(), tool, arc),
        }
    }

    /// Returns how deep an action with the mounted tool and the discs of its cutter cuts in the material, if it
    /// is a straight feed, or else 0.
    pub(crate) fn depth(&self, tool: &Option<Tool>, discs: &[Cylinder], action: &Action) -> u64
        requires { IsTrue (is_action_reached action.now) }
        ensures { IsDepthOf self.now.stock discs.now tool.now action.now self.now.heights.items result }
    {
        match (tool, action) {
            (Some(tool), Action::Move(motion)) => self.motion_depth(tool, discs, motion),
            _ => 0,
        }
    }

    fn motion_depth(&self, tool: &Tool, discs: &[Cylinder], motion: &Motion) -> u64
        requires { IsTrue (is_way_reached motion.now.way) }
        ensures { IsDepthOn self.now.stock discs.now tool.now motion.now.way motion.now.pace self.now.heights.items result }
    {
        match motion.pace {
            Pace::Rapid => 0,
            Pace::Feed(_) => self.feed_depth(tool, discs, &motion.way),
        }
    }

    fn feed_depth(&self, tool: &Tool, discs: &[Cylinder], way: &Way) -> u64
        requires { IsTrue (is_way_reached way.now) }
        ensures { (f : Feed) → IsDepthOn self.now.stock discs.now tool.now way.now (Pace.Feed f) self.now.heights.items result }
    {
        match way {
            Way::Line { start, end } => {
                let (start, end) = (*start, *end);
                let (stock, heights) = (&self.stock, self.heights.as_slice());
                greatest_depth(stock, heights, tool, discs, &Line { start, end })
            }
            Way::Arc(_) => 0,
        }
    }
}
