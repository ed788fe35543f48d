//! The kinds of notes.
ghost use Rattle.std.specs.Prelude.{◌≡◌};
ghost use Rattle.ngc_dialect_notes.specs.KindNumbers.{number_of};
ghost use Rattle.ngc_dialect_notes.specs.Kinds as spec;

/// What execution keeps of a construct.
#[derive(Clone, Copy)]
pub enum Class {
    /// The commands are the same.
    Exact,
    /// The motions are the same, and the note says what else is left out.
    Told,
    /// Controls differ, or a setting decides. The note says which meaning is executed.
    Chosen,
    /// The path is the program's but for what the note says: rounding, or the cutter's radius.
    Bound,
}

/// A kind of note: what is left out, or which meaning is executed.
#[derive(Clone, Copy)]
pub enum Kind {
    // Codes that are left out.
    /// M50 to M53.
    Switch,
    /// G5.1 and G187, with P, Q and E.
    LookAhead,
    /// Codes that set what always holds, such as G15.
    IdleCode,
    /// P and Q of G64.
    PathTolerance,
    /// G53 without X, Y and Z.
    LoneMachinePlace,
    /// The code of a canned cycle without X, Y and Z.
    LoneCycle,

    // Codes that are taken as others.
    /// G70 and G71 as G20 and G21.
    OldUnits,
    /// G43.4 as G43.
    ToolCentre,

    // Tools.
    /// G43 without H.
    LengthWithoutH,
    /// M6 for Grbl.
    ToolChange,

    // Places and origins.
    /// G53 in G91.
    MachinePlaceInG91,
    /// G28 or G30 with one or two axes.
    HomeAxes,
    /// A motion code beside another code that takes the axis words.
    MotionApart,
    /// Fanuc's G10 L2 in G91.
    OriginAdded,
    /// G10 with P0 or without P.
    SystemInForce,
    /// G52.
    LocalOffset,

    // Feeds and times.
    /// F beside a change of the units.
    FeedUnits,
    /// G94 after G93 without F.
    KeptFeed,
    /// Fanuc's P without a point.
    Milliseconds,
    /// Words beside X or U of Fanuc's G4.
    BesideDwell,

    // Words that nothing uses.
    IdleD,
    IdleE,
    IdleH,
    IdleI,
    IdleJ,
    IdleK,
    IdleL,
    IdleP,
    IdleQ,
    IdleR,
    /// Such a word whose value is 0.
    IdleZero,
    /// A, B, C, U, V or W at 0.
    IdleAxis,
    /// I, J or K along the third axis of an arc.
    ThirdOffset,
    /// Fanuc's lengths, and X and U of its G4, without a point.
    NoPoint,

    // Motions.
    /// Grbl's motion before any motion code.
    FirstTraverse,
    /// An arc without an axis word of its plane.
    FullCircle,
    /// Mach3's I, J and K before G90.1 and G91.1.
    CentreMode,

    // Canned cycles.
    /// A canned cycle for Grbl.
    CycleInGrbl,
    /// A canned cycle before G98 and G99.
    StartRetract,
    /// G82, G86 or G89 without P.
    NoDwell,
    /// The distance of G83.
    PeckClearance,
    /// The distance of G73.
    ChipBreaking,
    /// Words of another cycle's code.
    KeptWords,
    /// Fanuc's K or L.
    HoleCount,

    // What no word says.
    /// Grbl's `$H`.
    Homing,
    /// `/2` to `/9`.
    DeleteLevel,
    /// The tool that is mounted before the first line.
    FirstTool,
    /// A program without M2 and M30.
    ProgramEnd,

    // What is computed.
    /// `@` and `^`.
    PolarWords,
    /// P of an arc.
    SeveralTurns,
    /// G41, G41.1, G42 and G42.1.
    CutterRadius,
    /// An arc whose centre is moved so that its radii agree.
    MovedCentre,
}

impl Kind {
    /// Returns what execution keeps.
    #[tactic(auto, unfolding(crate::specs::Kinds::class_of))]
    pub fn class(self) -> Class
        ensures { result ≡ spec.class_of self }
    {
        match self {
            Kind::Switch
            | Kind::LookAhead
            | Kind::LoneCycle
            | Kind::BesideDwell
            | Kind::IdleD
            | Kind::IdleE
            | Kind::IdleH
            | Kind::IdleI
            | Kind::IdleJ
            | Kind::IdleK
            | Kind::IdleL
            | Kind::IdleP
            | Kind::IdleQ
            | Kind::IdleR
            | Kind::ThirdOffset
            | Kind::NoDwell
            | Kind::Homing
            | Kind::DeleteLevel
            | Kind::FirstTool
            | Kind::ProgramEnd => Class::Told,
            Kind::IdleCode
            | Kind::PathTolerance
            | Kind::LoneMachinePlace
            | Kind::OldUnits
            | Kind::ToolCentre
            | Kind::LengthWithoutH
            | Kind::HomeAxes
            | Kind::MotionApart
            | Kind::FeedUnits
            | Kind::Milliseconds
            | Kind::IdleZero
            | Kind::IdleAxis
            | Kind::FirstTraverse
            | Kind::FullCircle
            | Kind::HoleCount => Class::Exact,
            Kind::ToolChange
            | Kind::MachinePlaceInG91
            | Kind::OriginAdded
            | Kind::SystemInForce
            | Kind::LocalOffset
            | Kind::KeptFeed
            | Kind::NoPoint
            | Kind::CentreMode
            | Kind::CycleInGrbl
            | Kind::StartRetract
            | Kind::PeckClearance
            | Kind::ChipBreaking
            | Kind::KeptWords => Class::Chosen,
            Kind::PolarWords | Kind::SeveralTurns | Kind::CutterRadius | Kind::MovedCentre =>
                Class::Bound,
        }
    }

    /// Returns the kind's place in the order of the kinds, by which kinds are compared.
    #[tactic(auto, unfolding(crate::specs::KindNumbers::number_of))]
    pub(crate) fn number(self) -> u8
        ensures { result ≡ number_of self }
    {
        match self {
            Kind::Switch => 0,
            Kind::LookAhead => 1,
            Kind::IdleCode => 2,
            Kind::PathTolerance => 3,
            Kind::LoneMachinePlace => 4,
            Kind::LoneCycle => 5,
            Kind::OldUnits => 6,
            Kind::ToolCentre => 7,
            Kind::LengthWithoutH => 8,
            Kind::ToolChange => 9,
            Kind::MachinePlaceInG91 => 10,
            Kind::HomeAxes => 11,
            Kind::MotionApart => 12,
            Kind::OriginAdded => 13,
            Kind::SystemInForce => 14,
            Kind::LocalOffset => 15,
            Kind::FeedUnits => 16,
            Kind::KeptFeed => 17,
            Kind::Milliseconds => 18,
            Kind::BesideDwell => 19,
            Kind::IdleD => 20,
            Kind::IdleE => 21,
            Kind::IdleH => 22,
            Kind::IdleI => 23,
            Kind::IdleJ => 24,
            Kind::IdleK => 25,
            Kind::IdleL => 26,
            Kind::IdleP => 27,
            Kind::IdleQ => 28,
            Kind::IdleR => 29,
            Kind::IdleZero => 30,
            Kind::IdleAxis => 31,
            Kind::ThirdOffset => 32,
            Kind::NoPoint => 33,
            Kind::FirstTraverse => 34,
            Kind::FullCircle => 35,
            Kind::CentreMode => 36,
            Kind::CycleInGrbl => 37,
            Kind::StartRetract => 38,
            Kind::NoDwell => 39,
            Kind::PeckClearance => 40,
            Kind::ChipBreaking => 41,
            Kind::KeptWords => 42,
            Kind::HoleCount => 43,
            Kind::Homing => 44,
            Kind::DeleteLevel => 45,
            Kind::FirstTool => 46,
            Kind::ProgramEnd => 47,
            Kind::PolarWords => 48,
            Kind::SeveralTurns => 49,
            Kind::CutterRadius => 50,
            Kind::MovedCentre => 51,
        }
    }
}
