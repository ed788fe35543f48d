//! The commands of the program with their options.

ghost use Rattle.std.specs.Prelude.{◌≤◌};

use ngc_margins::Changes;

/// A command of the program with its options.
#[derive(Clone, Copy)]
pub enum Options<'a> {
    /// `ngc list`: print the commands of a part program.
    List(ListOptions<'a>),
    /// `ngc certify`: print a certificate of a part program.
    Certify(CertifyOptions<'a>),
    /// `ngc check`: check a certificate of a part program.
    Check(CheckOptions<'a>),
    /// `ngc run` and `ngc pulses` with events: run a part program on the machine over a list of
    /// events.
    Run(RunOptions<'a>),
    /// `ngc run` and `ngc pulses` without events: run a part program through to its end.
    RunThrough(RunThroughOptions<'a>),
    /// `ngc live`: run a part program on the machine over events that arrive during the run.
    Live(LiveOptions<'a>),
    /// `ngc draw`: draw a part program on the machine.
    Draw(DrawOptions<'a>),
    /// `ngc show`: print the contents of a machine file and a tool table.
    Show(ShowOptions<'a>),
    /// `ngc report`: report whether a part program fits a machine, with its clearance and its time.
    Report(ReportOptions<'a>),
    /// `ngc place`: find at which shifts of a work origin a part program fits a machine.
    Place(PlaceOptions<'a>),
    /// `ngc adapt`: print a part program for another control as one for this control.
    Adapt(AdaptOptions<'a>),
    /// `ngc machine`: print a machine file from figures.
    Machine(MachineOptions<'a>),
    /// `ngc explain`: print the explanation of the fault with this number, 1 to 999.
    Explain(u16),
    /// `ngc help`: print the help of a command, or of the program if no command is named.
    Help(Option<&'a str>),
    /// `ngc version`: print the program's name and version.
    Version,
}

/// The options of `ngc list`.
#[derive(Clone, Copy)]
pub struct ListOptions<'a> {
    /// The file of the part program. Without one it is read from standard input.
    pub program: Option<&'a str>,
    /// The machine file. Without one a built-in small mill is used.
    pub machine: Option<&'a str>,
    /// The file of the tool table. Without one there are no tools.
    pub tools: Option<&'a str>,
    /// Whether block delete is on, so that lines that begin with `/` are left out.
    pub delete: bool,
    /// What replaces keys of the machine file.
    pub changes: Changes,
    /// The control in whose language the program is written. Without one it is our own language.
    pub dialect: Option<&'a str>,
}

/// The version of the text of a certificate.
#[derive(Clone, Copy)]
pub enum Format {
    /// Version 1: the motions of one setting of block delete, and then those of the other.
    One,
    /// Version 2: motions of both settings together, where they begin alike.
    Two,
}

/// The options of `ngc certify`.
#[derive(Clone, Copy)]
pub struct CertifyOptions<'a> {
    /// The machine file.
    pub machine: &'a str,
    /// The file of the tool table.
    pub tools: &'a str,
    /// The file of the part program. Without one it is read from standard input.
    pub program: Option<&'a str>,
    /// The greatest number of pieces into which a motion is cut, from 1 to 65,535. The default is
    /// 8.
    pub cuts: u16,
    /// The version of the text. The default is 1.
    pub format: Format,
    /// What replaces keys of the machine file.
    pub changes: Changes,
    /// The control in whose language the program is written. Without one it is our own language.
    pub dialect: Option<&'a str>,
    ghost some_cuts: { 1 ≤ cuts },
}

/// The options of `ngc check`.
#[derive(Clone, Copy)]
pub struct CheckOptions<'a> {
    /// The machine file.
    pub machine: &'a str,
    /// The file of the tool table.
    pub tools: &'a str,
    /// The file of the certificate.
    pub certificate: &'a str,
    /// The file of the part program. Without one it is read from standard input.
    pub program: Option<&'a str>,
    /// What replaces keys of the machine file.
    pub changes: Changes,
    /// The control in whose language the program is written. Without one it is our own language.
    pub dialect: Option<&'a str>,
}

/// The output of a run.
#[derive(Clone, Copy)]
pub enum Recording {
    /// `ngc run`: the log.
    Log,
    /// `ngc pulses`: the pulses with their times.
    Pulses,
}

/// The options of `ngc run` and `ngc pulses` with events.
#[derive(Clone, Copy)]
pub struct RunOptions<'a> {
    /// The output.
    pub recording: Recording,
    /// The machine file.
    pub machine: &'a str,
    /// The file of the tool table.
    pub tools: &'a str,
    /// The file of the certificate.
    pub certificate: &'a str,
    /// The file of the events.
    pub events: &'a str,
    /// The file of the part program. Without one it is read from standard input.
    pub program: Option<&'a str>,
    /// Whether block delete is on, so that lines that begin with `/` are left out.
    pub delete: bool,
    /// The name of the form: `log` or `times` for `run`, `vcd` for `pulses`, and `samples` for both.
    /// Any other name is unknown. The default is `log` or `vcd`.
    pub output: Option<&'a str>,
    /// The bits that are inverted in each byte of the samples. The default is 0.
    pub inverted: u8,
    /// What replaces keys of the machine file.
    pub changes: Changes,
    /// The control in whose language the program is written. Without one it is our own language.
    pub dialect: Option<&'a str>,
}

/// The options of `ngc run` and `ngc pulses` without events.
#[derive(Clone, Copy)]
pub struct RunThroughOptions<'a> {
    /// The output.
    pub recording: Recording,
    /// The machine file.
    pub machine: &'a str,
    /// The file of the tool table.
    pub tools: &'a str,
    /// The file of the certificate.
    pub certificate: &'a str,
    /// The file of the part program. Without one it is read from standard input.
    pub program: Option<&'a str>,
    /// Whether block delete is on, so that lines that begin with `/` are left out.
    pub delete: bool,
    /// The name of the form: `log` or `times` for `run`, `vcd` for `pulses`, and `samples` for both.
    /// Any other name is unknown. The default is `log` or `vcd`.
    pub output: Option<&'a str>,
    /// The bits that are inverted in each byte of the samples. The default is 0.
    pub inverted: u8,
    /// What replaces keys of the machine file.
    pub changes: Changes,
    /// The control in whose language the program is written. Without one it is our own language.
    pub dialect: Option<&'a str>,
}

/// The options of `ngc live`. Its events arrive on standard input.
#[derive(Clone, Copy)]
pub struct LiveOptions<'a> {
    /// The machine file.
    pub machine: &'a str,
    /// The file of the tool table.
    pub tools: &'a str,
    /// The file of the certificate.
    pub certificate: &'a str,
    /// The file of the part program.
    pub program: &'a str,
    /// Whether block delete is on, so that lines that begin with `/` are left out.
    pub delete: bool,
    /// The name of the form: `log`, `times` or `samples`. Any other name is unknown. The default is
    /// `log`.
    pub output: Option<&'a str>,
    /// The bits that are inverted in each byte of the samples. The default is 0.
    pub inverted: u8,
    /// Whether commands are loaded before each tick, while the ring has space.
    pub feed_ring: bool,
    /// Whether the run ends at the last line at once. Otherwise the machine is held after it until it
    /// is at rest.
    pub aborts: bool,
    /// What replaces keys of the machine file.
    pub changes: Changes,
    /// The control in whose language the program is written. Without one it is our own language.
    pub dialect: Option<&'a str>,
}

/// The options of `ngc draw`.
#[derive(Clone, Copy)]
pub struct DrawOptions<'a> {
    /// The machine file.
    pub machine: &'a str,
    /// The file of the tool table.
    pub tools: &'a str,
    /// The file of the certificate whose boxes may be drawn. Without one no boxes are drawn.
    pub certificate: Option<&'a str>,
    /// The file of the part program. Without one it is read from standard input.
    pub program: Option<&'a str>,
    /// The name of the view: `top`, `front`, `side` or `iso`. Any other name is unknown. The default
    /// is the top.
    pub view: Option<&'a str>,
    /// Whether block delete is on, so that lines that begin with `/` are left out.
    pub delete: bool,
    /// Whether the rectangles that the tool fills over the boxes of the certificate are drawn.
    pub bodies: bool,
    /// Whether the whole travel is shown, also where it is more than three times larger than
    /// fixtures and path.
    pub whole: bool,
    /// Whether the output is a map of the heights that are left of the material, in place of the
    /// picture. With it certificate, view, bodies and whole are ignored.
    pub map: bool,
    /// The most cells that a map has, from 1 to 4,000,000. The default is 250,000. Without a map it is
    /// ignored.
    pub cells: Option<u32>,
    /// What replaces keys of the machine file.
    pub changes: Changes,
    /// The control in whose language the program is written. Without one it is our own language.
    pub dialect: Option<&'a str>,
}

/// The options of `ngc show`.
#[derive(Clone, Copy)]
pub struct ShowOptions<'a> {
    /// The machine file.
    pub machine: &'a str,
    /// The file of the tool table. Without one there are no tools.
    pub tools: Option<&'a str>,
    /// Whether the warnings alone are printed.
    pub warnings: bool,
}

/// The options of `ngc report`.
#[derive(Clone, Copy)]
pub struct ReportOptions<'a> {
    /// The machine file.
    pub machine: &'a str,
    /// The file of the tool table.
    pub tools: &'a str,
    /// The file of the part program. Without one it is read from standard input.
    pub program: Option<&'a str>,
    /// The greatest number of pieces into which a motion is cut, from 1 to 65,535. The default is
    /// 8.
    pub cuts: u16,
    /// Whether every command that no cut clears is reported, and not only the first one.
    pub all: bool,
    /// Whether the report is a JSON document in place of sentences.
    pub json: bool,
    /// What replaces keys of the machine file.
    pub changes: Changes,
    /// The most cells that the block of material is divided into, from 1 to 4,000,000. The default is
    /// 250,000.
    pub cells: Option<u32>,
    /// The control in whose language the program is written. Without one it is our own language.
    pub dialect: Option<&'a str>,
    ghost some_cuts: { 1 ≤ cuts },
}

/// The options of `ngc place`.
#[derive(Clone, Copy)]
pub struct PlaceOptions<'a> {
    /// The machine file.
    pub machine: &'a str,
    /// The file of the tool table.
    pub tools: &'a str,
    /// The file of the part program. Without one it is read from standard input.
    pub program: Option<&'a str>,
    /// The name of the coordinate system whose origin is shifted: `54` to `59`, `59.1`, `59.2` or
    /// `59.3`. Any other name is unknown. The default is `54`.
    pub system: Option<&'a str>,
    /// The greatest number of pieces into which a motion is cut, from 1 to 65,535. The default is
    /// 8.
    pub cuts: u16,
    /// Whether the output is a JSON document in place of sentences.
    pub json: bool,
    /// What replaces keys of the machine file.
    pub changes: Changes,
    /// The control in whose language the program is written. Without one it is our own language.
    pub dialect: Option<&'a str>,
    ghost some_cuts: { 1 ≤ cuts },
}

/// The options of `ngc adapt`.
#[derive(Clone, Copy)]
pub struct AdaptOptions<'a> {
    /// The name of the control that the program is written for.
    pub from: &'a str,
    /// The machine file. Without one a built-in small mill is used.
    pub machine: Option<&'a str>,
    /// The file of the tool table. Without one there are no tools.
    pub tools: Option<&'a str>,
    /// The file of the part program. Without one it is read from standard input.
    pub program: Option<&'a str>,
    /// Whether block delete is on, so that lines that begin with `/` are left out.
    pub delete: bool,
}

/// The options of `ngc machine`, as texts.
#[derive(Clone, Copy)]
pub struct MachineOptions<'a> {
    /// The file with GRBL's output for `$$`. With it the four figures below are left out.
    pub grbl: Option<&'a str>,
    /// Steps per millimetre.
    pub steps: Option<&'a str>,
    /// The travel of each axis, in millimetres.
    pub travel: Option<&'a str>,
    /// The greatest speed of each axis, in millimetres per minute.
    pub feed: Option<&'a str>,
    /// The greatest acceleration of each axis, in millimetres per second squared.
    pub acceleration: Option<&'a str>,
    /// The speed through a corner, in millimetres per second.
    pub corner: Option<&'a str>,
    /// Ticks of the controller per second.
    pub ticks: Option<&'a str>,
    /// The end of its travel at which each axis has its zero.
    pub frame: Option<&'a str>,
    /// The greatest change of an axis's speed where two motions meet, in millimetres per second.
    pub jump: Option<&'a str>,
    /// The greatest acceleration towards the centre of an arc, in millimetres per second squared.
    pub turn: Option<&'a str>,
    /// The position at which the machine starts, in millimetres.
    pub start: Option<&'a str>,
    /// The position to which G28 goes, in millimetres.
    pub home28: Option<&'a str>,
    /// The position to which G30 goes, in millimetres.
    pub home30: Option<&'a str>,
    /// The greatest number of commands that are loaded and not done.
    pub ring: Option<&'a str>,
    /// Whether arcs run at their feed at every point.
    pub arc_feed: bool,
    /// Whether the file has the rates of version 2 in place of figures with their units.
    pub rates: bool,
}
