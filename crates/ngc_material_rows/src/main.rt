//! Prints where the traverses and feeds of programs may touch material, and where traverses surely go through
//! it, in words the first two of each, and as facts all.
//! A line of standard input begins with `program` and a name; the program begins at 0 0 0 in an uncut
//! stock without a tool. Its lines are `stock` with the number of a stock, `tool` with a number, of which
//! 0 is none, and `traverse` or `feed` with the coordinates of an end, in nanometres of the machine. The
//! line `untested` prints what isn't tested. With the line `depths` a program also prints how deep its
//! feeds cut with each tool. With the line `shapes` the cutters have those of `stocks::shapes`.
#![tactic(auto)]

mod stocks;

ghost use Rattle.std.specs.Prelude.{IsTrue};
ghost use Rattle.ngc_arc_geometry.specs.Shape.{IsNear};

use ngc_arc_geometry::{Arc, Ends, Offsets};
use ngc_cells::Spot;
use ngc_commands::{Action, Command, Feed, Motion, Pace, Reached, Way};
use ngc_file_figures::ToolLimits;
use ngc_fixed_length::{Nm, Plane, Point3, Turn, Units};
use ngc_machine_files::Tool;
use ngc_material::{Found, Touches, WalkFault, find_touches};
use ngc_material_report::{write_cuts, write_touches, write_untested};
use ngc_report::Form;
use ngc_sure_contacts::{FoundTraverse, find_contacts};
use ngc_text::{Device, Sink, WriteFault, write_all};
use std::alloc::{Allocator, Global};
use std::io;
use stocks::{numbered, origin_of, shapes, tools};

// Returns whether a point is within 90 metres of zero on each axis.
fn is_near(point: &Point3) -> bool
    ensures { IsTrue result → IsNear point.now }
{
    point.x.nanometres().unsigned_abs() <= 90_000_000_000
        && point.y.nanometres().unsigned_abs() <= 90_000_000_000
        && point.z.nanometres().unsigned_abs() <= 90_000_000_000
}

/// A program as far as it is read.
#[derive(Drop)]
struct Program {
    stock: i64,
    place: Point3,
    commands: Vec<Command, Global>,
    /// Whether memory was refused for a command.
    is_cut: bool,
    /// Whether the depths of cuts are printed.
    has_depths: bool,
    /// Whether the cutters have shapes.
    has_shapes: bool,
}

fn origin() -> Point3 {
    let zero = Nm::zero();
    Point3 {
        x: zero,
        y: zero,
        z: zero,
    }
}

// Returns numbers that are separated by blanks, of which those that are missing are 0, or `None` if a
// word isn't a number.
fn numbers(text: &str) -> Option<[i64; 5]> {
    let mut numbers = [0; 5];
    let mut count = 0;
    for word in text.split(' ') {
        let number = word.parse::<i64>().ok()?;
        if count < 5 {
            numbers[count] = number;
            count += 1;
        }
    }
    Some(numbers)
}

fn length(number: i64) -> Nm {
    match Nm::from_nanometres(i128::from(number)) {
        Ok(length) => length,
        Err(_) => Nm::zero(),
    }
}

// Adds a command, and returns whether there was memory for it.
fn added<A: Allocator>(commands: &mut Vec<Command, A>, command: Command) -> bool {
    commands.push(command).is_ok()
}

impl Program {
    fn new(alloc: Global) -> Program {
        Program {
            stock: 0,
            place: origin(),
            commands: Vec::new(alloc),
            is_cut: false,
            has_depths: false,
            has_shapes: false,
        }
    }

    fn add(&mut self, line: u32, action: Action) {
        if !added(&mut self.commands, Command { line, action }) {
            self.is_cut = true;
        }
    }

    fn go(&mut self, line: u32, pace: Pace, end: &Point3) {
        let way = Way::Line {
            start: self.place,
            end: *end,
        };
        self.place = *end;
        let stop = false;
        self.add(line, Action::Move(Motion { way, pace, stop }));
    }

    // Adds an arc to an end, with the vector to its centre, and returns whether it is one.
    fn turn(&mut self, line: u32, plane: Plane, turn: Turn, end: &Point3, u: i64, v: i64) -> bool {
        if !is_near(&self.place) || !is_near(end) {
            return false;
        }
        let ends = Ends {
            plane,
            turn,
            start: self.place,
            end: *end,
            has_axis_word: true,
        };
        let offsets = Offsets {
            u: Some(length(u)),
            v: Some(length(v)),
        };
        let Ok(arc) = Arc::centre_format(Units::Millimetres, &ends, &offsets) else {
            return false;
        };
        self.place = *end;
        let pace = Pace::Feed(Feed::PerMinute(100_000_000));
        let (way, stop) = (Way::Arc(arc), false);
        self.add(line, Action::Move(Motion { way, pace, stop }));
        true
    }

    fn mount(&mut self, alloc: Global, line: u32, number: i64) {
        let tool = match (tools(alloc), u32::try_from(number)) {
            (Some(tools), Ok(number)) => tools.find(number),
            _ => None,
        };
        self.add(line, Action::Mount(tool));
    }

    // Takes a line with its word and its numbers, and returns whether the word is known.
    fn take(&mut self, alloc: Global, line: u32, word: &str, numbers: [i64; 5]) -> bool {
        let [x, y, z, u, v] = numbers;
        let end = Point3 {
            x: length(x),
            y: length(y),
            z: length(z),
        };
        match word {
            "stock" => self.stock = x,
            "tool" => self.mount(alloc, line, x),
            "traverse" => self.go(line, Pace::Rapid, &end),
            "feed" => self.go(line, Pace::Feed(Feed::PerMinute(100_000_000)), &end),
            "cw" => return self.turn(line, Plane::XY, Turn::Clockwise, &end, u, v),
            "ccw" => return self.turn(line, Plane::XY, Turn::Counterclockwise, &end, u, v),
            "cw_zx" => return self.turn(line, Plane::ZX, Turn::Clockwise, &end, u, v),
            "ccw_zx" => return self.turn(line, Plane::ZX, Turn::Counterclockwise, &end, u, v),
            _ => return false,
        }
        true
    }

    fn take_text(&mut self, alloc: Global, line: u32, text: &str) -> bool {
        let Some((word, rest)) = text.split_once(' ') else {
            return false;
        };
        match numbers(rest) {
            Some(numbers) => self.take(alloc, line, word, numbers),
            None => false,
        }
    }

    fn write<W: Sink>(&self, alloc: Global, output: &mut W) -> Result<(), WriteFault> {
        let start = Reached {
            tool: None,
            place: origin(),
        };
        if self.is_cut {
            return write_all(output, b"  no memory\n");
        }
        let stock = numbered(self.stock);
        let shapes = shapes();
        let table: &[ToolLimits] = if self.has_shapes { &shapes } else { &[] };
        let commands = self.commands.as_slice();
        match find_touches(alloc, &stock, table, &start, commands) {
            Ok(touches) => {
                let found = touches.traverses.as_slice();
                match find_contacts(alloc, &stock, table, &start, commands, found) {
                    Ok(traverses) => {
                        self.write_walk(alloc, &touches, traverses.as_slice(), output)
                    }
                    Err(_) => write_all(output, b"  no memory\n"),
                }
            }
            Err(WalkFault::Memory) => write_all(output, b"  no memory\n"),
            Err(WalkFault::Far) => write_all(output, b"  far from zero\n"),
        }
    }

    fn write_walk<W: Sink>(
        &self,
        alloc: Global,
        touches: &Touches<Global>,
        traverses: &[FoundTraverse],
        output: &mut W,
    ) -> Result<(), WriteFault> {
        let feeds = touches.feeds.as_slice();
        match write_found(alloc, &origin_of(self.stock), traverses, feeds, output) {
            Ok(()) => self.write_depths(alloc, touches, output),
            Err(fault) => Err(fault),
        }
    }

    fn write_depths<W: Sink>(
        &self,
        alloc: Global,
        touches: &Touches<Global>,
        output: &mut W,
    ) -> Result<(), WriteFault> {
        let cuts = touches.cuts.as_slice();
        if !self.has_depths || cuts.is_empty() {
            return Ok(());
        }
        let Some(table) = tools(alloc) else {
            return write_all(output, b"  no memory\n");
        };
        let tools = table.tools();
        match write_cuts(Form::Words, tools, cuts, output) {
            Ok(()) => end_line(write_cuts(Form::Json, tools, cuts, output), output),
            Err(fault) => Err(fault),
        }
    }
}

// Ends a line, unless a write has failed.
fn end_line<W: Sink>(outcome: Result<(), WriteFault>, output: &mut W) -> Result<(), WriteFault> {
    match outcome {
        Ok(()) => write_all(output, b"\n"),
        Err(fault) => Err(fault),
    }
}

fn write_found<W: Sink>(
    alloc: Global,
    origin: &Spot,
    traverses: &[FoundTraverse],
    feeds: &[Found],
    output: &mut W,
) -> Result<(), WriteFault> {
    if traverses.is_empty() && feeds.is_empty() {
        return Ok(());
    }
    let Some(table) = tools(alloc) else {
        return write_all(output, b"  no memory\n");
    };
    let tools = table.tools();
    match write_touches(Form::Words, 2, origin, tools, traverses, feeds, output) {
        Ok(()) => end_line(
            write_touches(Form::Json, 2, origin, tools, traverses, feeds, output),
            output,
        ),
        Err(fault) => Err(fault),
    }
}

fn write_limits<W: Sink>(stock: i64, tools: &[Tool], output: &mut W) -> Result<(), WriteFault> {
    let grid = &numbered(stock).grid;
    match write_untested(Form::Words, grid, tools, &[], output) {
        Ok(()) => end_line(write_untested(Form::Json, grid, tools, &[], output), output),
        Err(fault) => Err(fault),
    }
}

fn write_all_limits<W: Sink>(stock: i64, alloc: Global, output: &mut W) -> Result<(), WriteFault> {
    match tools(alloc) {
        Some(tools) => write_limits(stock, tools.tools(), output),
        None => write_all(output, b"  no memory\n"),
    }
}

fn written(outcome: Result<(), WriteFault>) -> io::Result<()> {
    match outcome {
        Ok(()) => Ok(()),
        Err(_) => Err(io::ErrorKind::WriteZero.into()),
    }
}

fn main(rt: HostRuntime) -> io::Result<()> {
    let alloc = rt.alloc();
    let mut output = Device::new(rt.stdout());
    let mut program = Program::new(alloc);
    let mut number: u32 = 0;
    for line in rt.lines(alloc) {
        let line = line?;
        let text = line.as_str();
        number = number.saturating_add(1);
        if text.starts_with("program") {
            written(program.write(alloc, &mut output))?;
            written(end_line(write_all(&mut output, text.as_bytes()), &mut output))?;
            program = Program::new(alloc);
        } else if text == "depths" {
            program.has_depths = true;
        } else if text == "shapes" {
            program.has_shapes = true;
        } else if text == "untested" {
            written(write_all_limits(program.stock, alloc, &mut output))?;
        } else if !program.take_text(alloc, number, text) {
            written(write_all(&mut output, b"  no action\n"))?;
        }
    }
    written(program.write(alloc, &mut output))
}
