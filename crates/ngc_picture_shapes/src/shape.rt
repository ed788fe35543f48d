use crate::spot::{Block, Rectangle, Spot};
use crate::view::View;
use ngc_machine_files::Name;

/// The ink of a path: the colour of the tool that is mounted then, by its rank among the tools that
/// the program uses, dashed where the motion is a traverse; or the red of a fault.
#[derive(Clone, Copy)]
pub enum Ink {
    Feed(usize),
    Traverse(usize),
    Fault,
}

/// A mark beside the path. Each with a label has by how many lines the label is moved down.
#[derive(Clone, Copy)]
pub enum Mark {
    /// The position of the axes when the machine is started.
    Start(usize),
    /// The home position of G28.
    Home(usize),
    /// The home position of G30.
    SecondHome(usize),
    /// The work origin: its coordinate system by the number from 0, as G54, and whether an axis
    /// offset is in force.
    Origin(usize, bool, usize),
    /// A drilled hole, at its bottom.
    Hole,
    /// The names of the axes.
    Axes(View),
}

/// The sheet that is drawn on, in micrometres: its corner, its size, and its size on a page.
#[derive(Clone, Copy)]
pub struct Sheet {
    pub left: i128,
    pub top: i128,
    pub width: i128,
    pub height: i128,
    pub page_width: i128,
    pub page_height: i128,
}

/// A part of the sheet, in micrometres: its corner, and its size.
#[derive(Clone, Copy)]
pub struct Pane {
    pub left: i128,
    pub top: i128,
    pub width: i128,
    pub height: i128,
}

/// What a box is, which decides its lines and its filling.
#[derive(Clone, Copy)]
pub enum BoxKind {
    /// The travel limits.
    Travel,
    /// The travel limits, as a thin line.
    ThinTravel,
    /// A fixture.
    Fixture,
    /// A fixture with its margin.
    Margin,
    /// A fixture that a fault names.
    FaultFixture,
    /// A box that the tool fills at the end of a refused motion.
    FaultTool,
}

/// A part of a picture, in the order of its text.
#[derive(Clone, Copy)]
pub enum Shape {
    /// The sheet, which contains everything else.
    Begin(Sheet),
    /// The style of lines.
    Lines,
    /// A box as a rectangle.
    Outline(BoxKind, Rectangle),
    /// The beginning of a box of which three faces are seen.
    BoxBegin(BoxKind),
    /// The outline of such a box.
    Silhouette(Block),
    /// The three edges of such a box at its nearest corner.
    NearEdges(Block),
    /// The outline of a box that the tool fills at the end of a refused motion.
    FaultBlock(Block),
    /// A part of the sheet, outside of which nothing that follows is visible.
    Window(Pane),
    WindowEnd,
    /// The number of a fixture, which begins its label, and by how many lines the label is moved
    /// down.
    FixtureNumber(Spot, usize, usize),
    /// The name of a fixture or a tool, after its number.
    Name(Name),
    /// The end of a fixture's label.
    LabelEnd,
    /// The beginning of the bodies of tools, drawn lightly.
    Bodies,
    /// The beginning of the boxes that the tool of this rank fills.
    BodiesOf(usize),
    /// A box that a part of the tool fills.
    Body(Rectangle),
    /// A path from this spot.
    Path(Ink, Spot),
    /// A line to a spot.
    Line(Spot),
    /// An arc of at most half a turn to a spot: its radius in micrometres, and whether it is seen
    /// to turn clockwise.
    Round(i64, bool, Spot),
    /// The end of the path, of a box or of the bodies of a tool.
    PathEnd,
    /// The end of the bodies.
    BodiesEnd,
    Mark(Mark, Spot),
    /// The number of a fault, beside its motion.
    FaultNumber(Spot, u16),
    /// A bar of this length in micrometres, below a spot.
    Scale(Spot, u64),
    /// The text of the scale bar.
    ScaleLength(Spot, u64),
    /// What the scale bar measures in a view.
    ScaleNote(View, Spot),
    /// The legend, below a spot.
    Legend(Spot),
    /// The tool of a rank and a number.
    Tool(usize, u32),
    /// A part of it: diameter and length in micrometres.
    Part(i64, i64),
    ToolEnd,
    /// The fault, and the command that it is found at.
    FaultLine(u16, usize),
    /// The end of the picture.
    End,
}

impl Default for Shape {
    ghost use Rattle.std.specs.Prelude.{◌≡◌};
    ghost use Rattle.ngc_picture_shapes.specs.declared.shape.Shape.TheVariants as drawn;

    ghost is_default = { λ shape. shape ≡ drawn.End };

    fn default() -> Shape {
        Shape::End
    }
}
