//! The figures of a tool.
ghost use Rattle.std.specs.Prelude.{◌≡◌, min, max};
ghost use Rattle.ngc_tool_figures.specs.Feedings.{with_number};

/// The least and the greatest of some numbers.
#[derive(Clone, Copy)]
pub struct Range {
    pub least: u64,
    pub greatest: u64,
}

/// The feeds with a tool. A range is `None` if it has no numbers.
#[derive(Clone, Copy)]
pub struct Feeding {
    /// The feeds in nanometres per minute.
    pub feeds: Option<Range>,
    /// The feeds in inverse time, in millionths of a motion per minute.
    pub inverse_feeds: Option<Range>,
    /// The speeds of the spindle where it turns clockwise, in millionths of a turn per minute.
    pub clockwise: Option<Range>,
    /// The same where it turns counterclockwise.
    pub counterclockwise: Option<Range>,
    /// The greatest distance that a feed goes straight down, in nanometres; 0 if none does.
    pub plunge: i64,
}

/// The figures of a tool.
#[derive(Clone, Copy)]
pub struct Figures {
    pub feeding: Feeding,
    /// The number of holes.
    pub holes: u128,
    /// The ticks of the tool's uses.
    pub ticks: u128,
}

fn lesser(a: u64, b: u64) -> u64
    ensures { result ≡ min a b }
{
    if a <= b { a } else { b }
}

fn greater(a: u64, b: u64) -> u64
    ensures { result ≡ max a b }
{
    if a <= b { b } else { a }
}

/// Returns the least and the greatest of the numbers so far and one more.
pub(crate) fn with_number(range: Option<Range>, number: u64) -> Option<Range>
    ensures { result ≡ with_number range number }
{
    match range {
        None => Some(Range {
            least: number,
            greatest: number,
        }),
        Some(range) => Some(Range {
            least: lesser(range.least, number),
            greatest: greater(range.greatest, number),
        }),
    }
}
