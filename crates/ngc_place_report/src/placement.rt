//! What is known of the shifts of an origin.
use ngc_certificate_text::Setting;
use ngc_place::Interval;

/// What is known of the shifts of an origin along one axis.
#[derive(Clone, Copy)]
pub enum Finding {
    /// Nothing: the program is refused where the origin is shifted, or it moves otherwise than with
    /// the origin.
    Unmoved,
    /// The program fits at none of the shifts that were tried.
    Nowhere,
    /// The program fits at each shift of the interval at which it moves with the origin, as it does
    /// at both ends.
    Fits(Interval),
}

/// The motions that stay where they are when the origin is shifted along an axis.
#[derive(Clone, Copy)]
pub struct Staying {
    /// Their number, at least 1.
    pub motions: usize,
    /// The program's line of the first.
    pub line: u32,
}

/// What is known of one axis.
#[derive(Clone, Copy)]
pub struct AlongAxis {
    pub finding: Finding,
    pub staying: Option<Staying>,
}

/// Whether the program fits where the origin is.
#[derive(Clone, Copy)]
pub enum Here {
    Fits,
    /// The command of this line isn't cleared at a setting of block delete.
    NotCleared { setting: Setting, line: u32 },
}

/// What is known of the shifts of an origin along each axis alone.
#[derive(Clone, Copy)]
pub struct Placement {
    pub here: Here,
    pub x: AlongAxis,
    pub y: AlongAxis,
    pub z: AlongAxis,
}
