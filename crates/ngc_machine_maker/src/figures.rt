//! The figures that a shop knows of its machine.
ghost use Rattle.std.specs.Prelude.{◌≡◌};
ghost use Rattle.ngc_machine_maker.specs.Formulas.{no_dump, ratio_of};

/// An axis of the machine.
#[derive(Clone, Copy)]
pub enum Axis {
    X,
    Y,
    Z,
}

/// A value for each axis.
#[derive(Clone, Copy)]
pub struct PerAxis<T> {
    pub x: T,
    pub y: T,
    pub z: T,
}

/// The number of a motor's steps that move an axis by a millimetre.
#[derive(Clone, Copy)]
pub struct StepsPerMillimetre {
    /// In millionths: 800,000,000 is 800 steps per millimetre.
    pub millionths: u32,
}

/// A motor's step as a ratio: in `per` nanometres the motor makes `steps` steps.
#[derive(Clone, Copy)]
pub struct Ratio {
    pub steps: u64,
    pub per: u64,
}

impl Ratio {
    /// Returns the ratio of a motor with these steps per millimetre.
    pub fn of(steps: StepsPerMillimetre) -> Ratio
        ensures { result ≡ ratio_of steps }
    {
        Ratio {
            steps: u64::from(steps.millionths),
            per: 1_000_000_000_000,
        }
    }
}

/// A length.
#[derive(Clone, Copy)]
pub struct Length {
    pub nanometres: u32,
}

/// A speed.
#[derive(Clone, Copy)]
pub struct Speed {
    pub nanometres_a_minute: u64,
}

/// An acceleration.
#[derive(Clone, Copy)]
pub struct Acceleration {
    pub nanometres_a_second_squared: u64,
}

/// The end of an axis' travel at which its coordinate is zero.
#[derive(Clone, Copy)]
pub enum End {
    /// All other coordinates are positive.
    Low,
    /// All other coordinates are negative.
    High,
}

/// GRBL's defaults that a dump of its settings doesn't have, so that they are supplied.
#[derive(Clone, Copy)]
pub struct Supplied {
    /// `$13`, whether places are in inches, if the dump has places.
    pub unit: bool,
    /// `$23`, the ends to which the axes home.
    pub ends: bool,
    /// `$27`, the pull-off.
    pub pull_off: bool,
    /// `$110` to `$112`, the greatest speeds.
    pub feed: PerAxis<bool>,
    /// `$120` to `$122`, the accelerations.
    pub acceleration: PerAxis<bool>,
}

/// How the places of a dump are written, and how far from zero they may be.
#[derive(Clone, Copy)]
pub struct PlaceForm {
    /// Whether they are in inches. If not, they are in millimetres.
    pub inches: bool,
    /// Whether they may be up to 4,000 mm from zero, as in a file of version 3. If not, they may be up
    /// to 1,000 mm.
    pub far: bool,
}

/// The places that a controller with GRBL has stored, in nanometres. `None`: a dump doesn't have it.
#[derive(Clone, Copy)]
pub struct StoredPlaces {
    pub g54: Option<PerAxis<i64>>,
    pub g55: Option<PerAxis<i64>>,
    pub g56: Option<PerAxis<i64>>,
    pub g57: Option<PerAxis<i64>>,
    pub g58: Option<PerAxis<i64>>,
    pub g59: Option<PerAxis<i64>>,
    pub g28: Option<PerAxis<i64>>,
    pub g30: Option<PerAxis<i64>>,
    /// The offset of `G92`.
    pub g92: Option<PerAxis<i64>>,
}

/// What a dump has besides figures, and what it lacks.
#[derive(Clone, Copy)]
pub struct Dump {
    pub supplied: Supplied,
    pub places: StoredPlaces,
}

impl Dump {
    /// Returns what figures without a dump have: nothing.
    pub fn none() -> Dump
        ensures { result ≡ no_dump }
    {
        Dump {
            supplied: Supplied {
                unit: false,
                ends: false,
                pull_off: false,
                feed: PerAxis {
                    x: false,
                    y: false,
                    z: false,
                },
                acceleration: PerAxis {
                    x: false,
                    y: false,
                    z: false,
                },
            },
            places: StoredPlaces {
                g54: None,
                g55: None,
                g56: None,
                g57: None,
                g58: None,
                g59: None,
                g28: None,
                g30: None,
                g92: None,
            },
        }
    }
}

/// The figures of a machine. A stop is the distance of an axis from its zero, into the travel.
#[derive(Clone, Copy)]
pub struct Figures {
    /// The step of the path's grid: that of the finest motor.
    pub scale: Ratio,
    /// The motor of each axis.
    pub motors: PerAxis<StepsPerMillimetre>,
    pub travel: PerAxis<Length>,
    /// The greatest speed of each axis.
    pub feed: PerAxis<Speed>,
    /// The acceleration that each axis follows.
    pub acceleration: PerAxis<Acceleration>,
    /// The speed that an axis may take up or lose at once.
    pub corner: Speed,
    /// The greatest change of an axis' speed where two motions meet. `None`: as `corner`. With 0 only
    /// `corner` counts.
    pub jump: Option<Speed>,
    /// The greatest acceleration towards the centre of an arc. `None`: that of each axis, and for all
    /// of them the least.
    pub arcs: Option<Acceleration>,
    /// Ticks per second. `None`: about two for each step of the fastest axis.
    pub ticks: Option<u32>,
    /// The greatest number of loaded commands that are not done.
    pub ring: u32,
    /// Whether arcs run at their feed and their turn at every place.
    pub arc_feed: bool,
    /// Whether a travel may be up to 3,999 mm long, as in a file of version 3. If not, it may be up to
    /// 1,000 mm long.
    pub far: bool,
    /// Whether the machine's controller has Grbl, so that its programs are in the language of Grbl.
    pub grbl: bool,
    pub zero: PerAxis<End>,
    /// The position of the axes when a program starts.
    pub start: PerAxis<Length>,
    /// The place to which `G28` goes. `None`: the start.
    pub home28: Option<PerAxis<Length>>,
    /// The place to which `G30` goes. `None`: the start.
    pub home30: Option<PerAxis<Length>>,
    /// What the dump of a controller with GRBL has besides. Its places for `G28` and `G30` count where
    /// `home28` and `home30` are `None`.
    pub dump: Dump,
}
