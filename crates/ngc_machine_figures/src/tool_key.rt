//! The keys of a tool table, and what only such a table may have wrong.
ghost use Rattle.std.specs.Prelude.{◌≡◌};
ghost use Rattle.ngc_machine_figures.specs.ToolKeys as spec;

/// A key of a tool table, or one of its tables. Tools and the parts of a holder are counted from 0.
#[derive(Clone, Copy)]
pub enum ToolKey {
    /// All tools.
    Tools,
    /// The table of a tool.
    Tool(u16),
    Number(u16),
    Name(u16),
    Diameter(u16),
    Length(u16),
    Stickout(u16),
    Flute(u16),
    Shank(u16),
    Offset(u16),
    Cutter(u16),
    Point(u16),
    Speed(u16),
    Feed(u16),
    Plunge(u16),
    /// All parts of a tool's holder.
    Holder(u16),
    /// The table of a part of the holder.
    Part { tool: u16, part: u8 },
    PartDiameter { tool: u16, part: u8 },
    PartLength { tool: u16, part: u8 },
}

impl ToolKey {
    /// Returns the key's name in its table, as `flute`.
    pub fn name(self) -> &'static str
        ensures { result.now ≡ spec.name_of self }
    {
        match self {
            ToolKey::Tools | ToolKey::Tool(_) => "tool",
            ToolKey::Number(_) => "number",
            ToolKey::Name(_) => "name",
            ToolKey::Diameter(_) | ToolKey::PartDiameter { .. } => "diameter",
            ToolKey::Length(_) | ToolKey::PartLength { .. } => "length",
            ToolKey::Stickout(_) => "stickout",
            ToolKey::Flute(_) => "flute",
            ToolKey::Shank(_) => "shank",
            ToolKey::Offset(_) => "offset",
            ToolKey::Cutter(_) => "cutter",
            ToolKey::Point(_) => "point",
            ToolKey::Speed(_) => "speed",
            ToolKey::Feed(_) => "feed",
            ToolKey::Plunge(_) => "plunge",
            ToolKey::Holder(_) | ToolKey::Part { .. } => "holder",
        }
    }

    /// Returns another name under which people know the key, as `rpm`. That of a key without one is its
    /// own. No file has such a name.
    pub(crate) fn other_name(self) -> &'static str
        ensures { result.now ≡ spec.other_name_of self }
    {
        match self {
            ToolKey::Number(_) => "id",
            ToolKey::Diameter(_) | ToolKey::PartDiameter { .. } => "dia",
            ToolKey::Flute(_) => "flute_length",
            ToolKey::Cutter(_) => "type",
            ToolKey::Speed(_) => "rpm",
            ToolKey::Feed(_) => "feedrate",
            _ => self.name(),
        }
    }
}

/// What only a tool table may have wrong.
#[derive(Clone, Copy)]
pub enum ToolWrong {
    /// The tools aren't an array.
    NoTools,
    /// The holder isn't an array.
    NoHolder,
    /// A part of the holder isn't a table.
    NoPart,
    /// The tool has neither `length` nor `stickout`. The refusal's key is that of its table.
    NoLength,
    /// There is a shank, but no `flute`. The refusal's key is that of the shank.
    LoneShank,
    /// There are more than 1,000 tools.
    ManyTools,
    /// The number isn't 1 to 9,999.
    Number,
    /// Another tool has the same number.
    NumberTwice,
    /// A length is zero, below zero or over 1,000 mm.
    Size,
    /// The offset is over 1,000 mm in size.
    Offset,
    /// The holder is as long as the tool, or longer. The refusal's key is the tool's length.
    ShortTool,
    /// Stickout and holder are over 1,000 mm together. The refusal's key is the stickout.
    LongTool,
    /// Stickout and holder together aren't the length. The refusal's key is the stickout.
    UnequalHolder,
    /// Without a holder, the stickout isn't the length. The refusal's key is the stickout.
    UnequalLength,
    /// The flute is longer than the stickout. The refusal's key is the flute.
    LongFlute,
    /// Cutter, shank and holder are over four parts. The refusal's key is the holder.
    ManyParts,
    /// The value isn't the name of a cutter.
    NoCutter,
    /// There is a point, but the cutter isn't a vee or a drill. The refusal's key is the point.
    LonePoint,
    /// The point is longer than the cutter. The refusal's key is the point.
    LongPoint,
}
